//! How many trials a match takes.
ghost use Rattle.std.specs.Prelude.{◌≡◌, ◌≤◌, ℕ, length, IfOk, IsTrue};
ghost use Rattle.std.specs.List.{flat_map};
ghost use Rattle.sno_pattern.specs.Tree.{tree_of, refs_below};
ghost use Rattle.sno_pattern.specs.Results.{results, enough_depth};
ghost use Rattle.sno_pattern.specs.Outcome.{starts_from, trials, trials_at, trials_from};
ghost use Rattle.sno_eval.specs.Steps.{trials_of};

use crate::results::results;
use crate::starts::{depth, last_start};
use sno_pattern::{
    Event, Pattern, Rules, Text, a_greater_depth_takes_no_more_trials,
    a_search_from_the_first_cursor_is_a_match,
};
use std::alloc::{AllocError, Global};

/// How many trials matching the pattern with the text takes, over all starts, up to the event that ends the match. A trial is
/// counted when a pattern without parts is met at a cursor, and when it is backed into for a further end. Each reference of the
/// pattern has to be to one of the definitions (`Rules::covers`).
///
/// All events of all starts are listed before the first of them is looked at. It is the plain count, for small texts.
///
/// Refused only if out of memory.
pub fn trials(
    alloc: Global,
    rules: &Rules,
    pattern: &Pattern,
    text: &Text,
    anchored: bool,
) -> Result<u64, AllocError>
    requires { IsTrue (refs_below (length rules.now.bodies) (tree_of pattern.now)) }
    // The trials of the match ..
    ensures count { IfOk result (λ count. count ≡ trials text.now rules.now.bodies (tree_of pattern.now) anchored) }
    // .. and the same at every depth of references that is enough.
    ensures deep { IfOk result (λ count. (k : ℕ) → enough_depth text.now rules.now.bodies ≤ k → count ≡ trials_at text.now rules.now.bodies k (tree_of pattern.now) anchored) }
{
    // for the proof
    rules.bodies();
    a_greater_depth_takes_no_more_trials();
    a_search_from_the_first_cursor_is_a_match();
    let count = trials_from(alloc, rules, pattern, text, anchored, 0)?;
    Ok(count)
}

/// How many trials a search from a cursor of the text on takes, as [`trials`] counts them.
pub fn trials_from(
    alloc: Global,
    rules: &Rules,
    pattern: &Pattern,
    text: &Text,
    anchored: bool,
    from: usize,
) -> Result<u64, AllocError>
    requires covered { IsTrue (refs_below (length rules.now.bodies) (tree_of pattern.now)) }
    requires inside { from ≤ length text.now }
    ensures { IfOk result (λ count. count ≡ trials_from text.now rules.now.bodies (tree_of pattern.now) anchored from) }
{
    let events = all_events(alloc, rules, pattern, text, anchored, from)?;
    Ok(count_trials(&events))
}

// The events of all starts from this cursor on.
fn all_events(
    alloc: Global,
    rules: &Rules,
    pattern: &Pattern,
    text: &Text,
    anchored: bool,
    from: usize,
) -> Result<Vec<Event>, AllocError>
    requires { from ≤ length text.now }
    ensures { IfOk result (λ v. v.items ≡ flat_map (results text.now rules.now.bodies (enough_depth text.now rules.now.bodies) (tree_of pattern.now)) (starts_from text.now anchored from)) }
{
    let most = depth(text, rules);
    let last = last_start(text, anchored, from);
    let mut all = Vec::new(alloc);
    for start in from..last + 1 {
        let mut events = results(alloc, text, rules, most, pattern, start)?;
        all.append(&mut events)?;
    }
    Ok(all)
}

// The trials before the first End or Halt.
fn count_trials(events: &[Event]) -> u64
    ensures { result ≡ trials_of events.now }
{
    let mut count = 0;
    for event in events {
        match event {
            Event::Try => count += 1,
            Event::Set(_) => {}
            Event::End(_, _) | Event::Halt => return count,
        }
    }
    count
}
