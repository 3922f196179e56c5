//! Equality of statements, wherever they lie in memory.
ghost use Rattle.std.specs.Prelude.{◌≡◌, slice_get};
ghost use Rattle.std.specs.Option.{option_copied, option_eq};
ghost use Rattle.std.specs.List.{list_all, zip};
ghost use Rattle.std.specs.Cmp.Lexicographic.{pointwise};
ghost use Rattle.sno_pattern.specs.Identifiers.{same};
ghost use Rattle.sno_pattern.specs.Tree.{tree_of, trees};
ghost use Rattle.sno_book.specs.SamePatterns.{same_tree};
ghost use Rattle.sno_book.specs.SameEntries.{same_part, same_object, same_definitions, same_statement};

use crate::same_patterns::same_pattern;
use sno_pattern::{Names, Pattern, Rules};
use sno_statement::{Object, Part, Statement};

/// Whether the parts at one place are the same, as far as both lists reach.
fn same_part_pairs(one: &[Part], other: &[Part]) -> bool
    ensures { result ≡ list_all (λ p. same_part p.0 p.1) (zip one.now other.now) }
{
    one.iter().zip(other).all(|(a, b)| a == b)
}

#[tactic(auto, using(crate::proofs::Pairs::apart))]
fn same_parts(one: &[Part], other: &[Part]) -> bool
    ensures { result ≡ pointwise same_part one.now other.now }
{
    one.len() == other.len() && same_part_pairs(one, other)
}

fn same_object(one: Option<&Object>, other: Option<&Object>) -> bool
    ensures { result ≡ same_object (option_copied one.entry) (option_copied other.entry) }
{
    match (one, other) {
        (Some(object), Some(other_object)) => same_parts(object.parts(), other_object.parts()),
        (None, None) => true,
        _ => false,
    }
}

/// Whether two lists of names have the same name at a place, or both have no name there.
fn same_name(one: &Names, other: &Names, place: usize) -> bool
    ensures { result ≡ option_eq same (slice_get one.now place) (slice_get other.now place) }
{
    one.get(place) == other.get(place)
}

#[tactic(auto, using(crate::proofs::Pairs::apart, crate::proofs::Pairs::past_place, crate::proofs::Pairs::stop_place, crate::proofs::Pairs::no_place))]
fn same_names(one: &Names, other: &Names) -> bool
    ensures { result ≡ pointwise same one.now other.now }
{
    if one.len() != other.len() {
        return false;
    }
    for place in 0..one.len() {
        if !same_name(one, other, place) {
            return false;
        }
    }
    true
}

/// Whether the patterns at one place are the same, as far as both lists reach.
fn same_pattern_pairs(one: &[Pattern], other: &[Pattern]) -> bool
    ensures { result ≡ list_all (λ p. same_tree (tree_of p.0) (tree_of p.1)) (zip one.now other.now) }
{
    one.iter().zip(other).all(|(a, b)| same_pattern(a, b))
}

#[tactic(auto, using(crate::proofs::Pairs::apart))]
fn same_patterns(one: &[Pattern], other: &[Pattern]) -> bool
    ensures { result ≡ pointwise same_tree (trees one.now) (trees other.now) }
{
    one.len() == other.len() && same_pattern_pairs(one, other)
}

fn same_rules(one: &Rules, other: &Rules) -> bool
    ensures { result ≡ same_definitions one.now other.now }
{
    same_names(one.names(), other.names()) && same_patterns(one.bodies(), other.bodies())
}

/// Whether two statements are the same: number, definitions, pattern, object, text, whether they are anchored, the
/// limit of trials, how often they are repeated at most, and whether they are for all matches.
pub(crate) fn same_statement(one: &Statement, other: &Statement) -> bool
    ensures { result ≡ same_statement one.now other.now }
{
    one.number() == other.number()
        && one.limit() == other.limit()
        && one.repeat() == other.repeat()
        && one.is_for_all() == other.is_for_all()
        && one.anchored() == other.anchored()
        && one.text() == other.text()
        && same_object(one.object(), other.object())
        && same_pattern(one.pattern(), other.pattern())
        && same_rules(one.rules(), other.rules())
}
