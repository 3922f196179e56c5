//! A match: the starts in turn, with the events of each up to the first End or Halt.
ghost use Rattle.std.specs.Prelude.{◌≡◌, ◌+◌, ◌≤◌, ℕ, length, IfOk, IsTrue};
ghost use Rattle.sno_eval.specs.Steps.{up_to};
ghost use Rattle.sno_pattern.specs.Tree.{tree_of, refs_below};
ghost use Rattle.sno_pattern.specs.Results.{enough_depth};
ghost use Rattle.sno_pattern.specs.Outcome.{outcome, outcome_at, outcome_from, starts_from};
ghost use Rattle.sno_pattern.specs.declared.texts.TheConstants.{MAX_TEXT};

use crate::endings::{Ending, first_ending};
use crate::results::results;
use sno_pattern::{
    Assigns, Found, Pattern, Rules, Text, a_greater_depth_changes_no_outcome,
    a_search_from_the_first_cursor_is_a_match,
};
use std::alloc::{AllocError, Global};

/// The outcome of matching the pattern with the text: anchored at cursor 0 alone, floating at each cursor in turn until one
/// succeeds. Each reference of the pattern has to be to one of the definitions (`Rules::covers`).
///
/// Returns the immediate assignments that were done, in their order, including those that were backed over. It also returns the
/// first success with its conditional assignments, or `None` if the match failed.
///
/// All events of a start are listed before the first of them is looked at. So time and memory may grow as fast as the number of
/// ways in which the pattern matches, and the depth of the calls grows with the text. It is the plain reference, for small texts.
///
/// Refused only if out of memory.
pub fn first(
    alloc: Global,
    rules: &Rules,
    pattern: &Pattern,
    text: &Text,
    anchored: bool,
) -> Result<Found, AllocError>
    requires { IsTrue (refs_below (length rules.now.bodies) (tree_of pattern.now)) }
    // The result is the outcome of the match ..
    ensures found { IfOk result (λ found. found ≡ outcome text.now rules.now.bodies (tree_of pattern.now) anchored) }
    // .. at every depth of references that is enough.
    ensures deep { IfOk result (λ found. (k : ℕ) → enough_depth text.now rules.now.bodies ≤ k → found ≡ outcome_at text.now rules.now.bodies k (tree_of pattern.now) anchored) }
{
    // for the proof
    rules.bodies();
    a_greater_depth_changes_no_outcome();
    a_search_from_the_first_cursor_is_a_match();
    let found = search(alloc, rules, pattern, text, anchored, 0)?;
    Ok(found)
}

/// The outcome of a search from a cursor of the text on: a match whose starts are this cursor and each later one, or if anchored this
/// cursor alone. All else is as in [`first`].
pub fn first_from(
    alloc: Global,
    rules: &Rules,
    pattern: &Pattern,
    text: &Text,
    anchored: bool,
    from: usize,
) -> Result<Found, AllocError>
    requires covered { IsTrue (refs_below (length rules.now.bodies) (tree_of pattern.now)) }
    requires inside { from ≤ length text.now }
    ensures { IfOk result (λ found. found ≡ outcome_from text.now rules.now.bodies (tree_of pattern.now) anchored from) }
{
    let found = search(alloc, rules, pattern, text, anchored, from)?;
    Ok(found)
}

// The outcome of the search, at a depth of references that is counted here.
fn search(
    alloc: Global,
    rules: &Rules,
    pattern: &Pattern,
    text: &Text,
    anchored: bool,
    from: usize,
) -> Result<Found, AllocError>
    requires { from ≤ length text.now }
    ensures { IfOk result (λ found. found ≡ outcome_from text.now rules.now.bodies (tree_of pattern.now) anchored from) }
{
    let most = depth(text, rules);
    let last = last_start(text, anchored, from);
    let mut sets = Vec::new(alloc);
    for start in from..last + 1 {
        let events = results(alloc, text, rules, most, pattern, start)?;
        match first_ending(alloc, start, &events, &mut sets)? {
            Ending::Success(hit) => return Ok(Found {
                sets: Assigns::of(sets),
                end: Some(hit),
            }),
            Ending::Failure => return Ok(Found {
                sets: Assigns::of(sets),
                end: None,
            }),
            Ending::Open => {}
        }
    }
    Ok(Found {
        sets: Assigns::of(sets),
        end: None,
    })
}

// A depth that is always enough. It has more bits than a cursor, since nothing here says how few definitions there are.
pub fn depth(text: &Text, rules: &Rules) -> u128
    ensures { result ≡ enough_depth text.now rules.now.bodies }
{
    (text.bytes().len() as u128 + 1) * rules.len() as u128
}

// The last cursor at which a match may begin that is sought from this one on.
#[tactic(auto, using(crate::proofs::Ranges::single_start, crate::proofs::Ranges::each_start))]
pub fn last_start(text: &Text, anchored: bool, from: usize) -> usize
    requires { from ≤ length text.now }
    ensures starts { up_to from result ≡ starts_from text.now anchored from }
    ensures within { (from ≤ result) × (result ≤ length text.now) }
    ensures short { result ≤ MAX_TEXT }
{
    let length = text.bytes().len();
    if anchored { from } else { length }
}
