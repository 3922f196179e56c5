//! Equality of outcomes, wherever they lie in memory.
ghost use Rattle.std.specs.Prelude.{◌≡◌};
ghost use Rattle.std.specs.Cmp.Lexicographic.{pointwise};
ghost use Rattle.std.specs.Option.{option_eq, option_map};
ghost use Rattle.std.specs.Arc.{arc_value};
ghost use Rattle.sno_pattern.specs.Identifiers.{same};
ghost use Rattle.sno_statement.specs.BindingRefs.{datum_lent};
ghost use Rattle.sno_statement.specs.MatchLists.{match_lent};
ghost use Rattle.sno_statement.specs.Perform.{outcome_seen};
ghost use Rattle.sno_book.specs.SameEntries.{same_binding, same_datum, same_bound, same_match, same_outcome};

use sno_pattern::{Name, Text};
use sno_statement::{BindingsRef, DatumRef, MatchRef, Matches, Outcome};
use std::sync::Arc;

/// Whether two values of variables are the same.
fn same_datum(one: &DatumRef<'_>, other: &DatumRef<'_>) -> bool
    ensures { result ≡ same_datum (datum_lent one.now) (datum_lent other.now) }
{
    match (one, other) {
        (DatumRef::Str(text), DatumRef::Str(other_text)) => text.bytes() == other_text.bytes(),
        (DatumRef::Int(number), DatumRef::Int(other_number)) => number == other_number,
        _ => false,
    }
}

/// Whether two bindings are the same, or both are missing.
fn same_binding(one: Option<(&Name, DatumRef<'_>)>, other: Option<(&Name, DatumRef<'_>)>) -> bool
    ensures { result ≡ option_eq same_binding (option_map (λ b. (b.0.now, datum_lent b.1)) one.entry) (option_map (λ b. (b.0.now, datum_lent b.1)) other.entry) }
{
    match (one, other) {
        (Some((name, value)), Some((other_name, other_value))) => name == other_name
            && same_datum(&value, &other_value),
        (None, None) => true,
        _ => false,
    }
}

#[tactic(auto, using(crate::proofs::Pairs::apart, crate::proofs::Pairs::past_place, crate::proofs::Pairs::stop_place, crate::proofs::Pairs::no_place))]
fn same_bindings(one: &BindingsRef<'_>, other: &BindingsRef<'_>) -> bool
    ensures { result ≡ same_bound one.now other.now }
{
    if one.len() != other.len() {
        return false;
    }
    for place in 0..one.len() {
        if !same_binding(one.get(place), other.get(place)) {
            return false;
        }
    }
    true
}

/// Whether two new texts are the same, or both are missing.
fn same_after(one: &Option<Arc<Text>>, other: &Option<Arc<Text>>) -> bool
    ensures { result ≡ option_eq same (option_map arc_value one.now) (option_map arc_value other.now) }
{
    one == other
}

fn same_match(one: &MatchRef<'_>, other: &MatchRef<'_>) -> bool
    ensures { result ≡ same_match (match_lent one.now) (match_lent other.now) }
{
    one.start == other.start
        && one.end == other.end
        && same_bindings(&one.bindings, &other.bindings)
}

/// Whether two matches are the same, or both are missing.
fn same_match_there(one: Option<MatchRef<'_>>, other: Option<MatchRef<'_>>) -> bool
    ensures { result ≡ option_eq same_match (option_map match_lent one.entry) (option_map match_lent other.entry) }
{
    match (one, other) {
        (Some(one), Some(other)) => same_match(&one, &other),
        (None, None) => true,
        _ => false,
    }
}

#[tactic(auto, using(crate::proofs::Pairs::apart, crate::proofs::Pairs::past_place, crate::proofs::Pairs::stop_place, crate::proofs::Pairs::no_place))]
fn same_matches(one: &Matches, other: &Matches) -> bool
    ensures { result ≡ pointwise same_match one.now other.now }
{
    if one.len() != other.len() {
        return false;
    }
    for place in 0..one.len() {
        if !same_match_there(one.get(place), other.get(place)) {
            return false;
        }
    }
    true
}

/// Whether two outcomes are the same. Compared are the cursors, the bindings and the new text; or the failure with its
/// bindings; or the number of matches with the bindings and the new text; or all matches and the new text.
pub(crate) fn same_outcome(one: &Outcome, other: &Outcome) -> bool
    ensures { result ≡ same_outcome (outcome_seen one.now) (outcome_seen other.now) }
{
    match (one, other) {
        (
            Outcome::Matched {
                start,
                end,
                bindings,
                after,
            },
            Outcome::Matched {
                start: other_start,
                end: other_end,
                bindings: other_bindings,
                after: other_after,
            },
        ) => {
            start == other_start
                && end == other_end
                && same_bindings(&bindings.lend(), &other_bindings.lend())
                && same_after(after, other_after)
        }
        (
            Outcome::Failed { bindings: kept },
            Outcome::Failed {
                bindings: other_kept,
            },
        ) => { same_bindings(&kept.lend(), &other_kept.lend()) }
        (
            Outcome::Repeated {
                matches,
                bindings: left,
                after: text,
            },
            Outcome::Repeated {
                matches: other_matches,
                bindings: other_left,
                after: other_text,
            },
        ) => {
            matches == other_matches
                && same_bindings(&left.lend(), &other_left.lend())
                && text.bytes() == other_text.bytes()
        }
        (
            Outcome::All {
                matches: all,
                after: replaced,
            },
            Outcome::All {
                matches: other_all,
                after: other_replaced,
            },
        ) => { same_matches(all, other_all) && same_after(replaced, other_replaced) }
        _ => false,
    }
}
