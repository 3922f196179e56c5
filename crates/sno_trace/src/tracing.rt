//! The trace of a match.
ghost use Rattle.std.specs.Prelude.{◌≡◌, ◌<◌, ◌≤◌, length, position, IfOk, IfErr};
ghost use Rattle.std.specs.List.{list_any};
ghost use Rattle.sno_pattern.specs.Tree.{tree_of};
ghost use Rattle.sno_pattern.specs.Outcome.{trials, trials_from, trials_in};
ghost use Rattle.sno_trace.specs.Promise.{IsShown, IsShownFrom, IsWholeMatch, IsWholeSearch, IsFront, IsFrontFrom, is_stop, off, before_stop, is_past, shown_up_to};
ghost use Rattle.sno_trace.specs.Depth.{IsDeeper, IsDeeperFrom};
ghost use Rattle.sno_trace.specs.declared.faults.TraceFault.TheVariants.{TooDeep};

use crate::events::Noted;
use crate::faults::{MAX_DEPTH, TraceFault};
use crate::laws::{a_limit_is_used_up, what_is_shown_begins_the_match, what_is_shown_is_the_match};
use crate::scanning::{Search, scan};
use sno_pattern::{Pattern, Rules, Text};
use std::alloc::Global;

// How many trials are shown at first.
const FEW: usize = 64;

/// What happened in a match or a search, in order.
#[derive(Debug, Drop)]
pub struct MatchTrace<'a> {
    /// Each event with the cursor from which the match was tried. The last one is the End or the Halt that ended the match, or a
    /// Stop if a limit was reached. If there is none of these, the match failed at each start.
    pub events: Vec<(usize, Noted<'a>)>,
}

impl<'a> MatchTrace<'a> {
    /// What is shown of the starts up to a cursor. Without a Stop it is the trace of a search that has no later start.
    pub fn up_to(mut self, last: usize) -> MatchTrace<'a>
        ensures { result.events.items ≡ shown_up_to last self.entry.events.items }
    {
        if let Some(place) = first_past(last, &self.events) {
            self.events.truncate(place);
        }
        self
    }
}

fn is_past(last: usize, shown: &(usize, Noted<'_>)) -> bool
    ensures { result ≡ is_past last shown.now }
{
    last < shown.0
}

// The first event of a later start.
fn first_past(last: usize, events: &[(usize, Noted<'_>)]) -> Option<usize>
    ensures { result ≡ position (is_past last) events.now }
{
    events.iter().position(|shown| is_past(last, shown))
}

fn is_stop(shown: &(usize, Noted<'_>)) -> bool
    ensures { result ≡ is_stop shown.now }
{
    matches!(shown.1, Noted::Stop)
}

// Whether more would come.
fn has_stop(events: &[(usize, Noted<'_>)]) -> bool
    ensures { result ≡ list_any is_stop events.now }
{
    events.iter().any(|shown| is_stop(shown))
}

// What is shown within the limit. Fewer trials are tried first, since a search mostly ends early.
fn shown<'a>(
    alloc: Global,
    search: Search<'_, 'a>,
    limit: usize,
) -> Result<Vec<(usize, Noted<'a>)>, TraceFault>
    requires { search.from ≤ length search.text.now }
    ensures shown { IfOk result (λ v. IsShownFrom search.entry.text.now search.entry.rules.now.bodies (tree_of search.entry.pattern.now) search.entry.anchored search.entry.from limit v.items) }
    ensures deep { IfErr result (λ e. e ≡ TooDeep → IsDeeperFrom search.entry.text.now search.entry.rules.now.bodies (tree_of search.entry.pattern.now) search.entry.anchored search.entry.from MAX_DEPTH) }
{
    let mut most = FEW;
    while most < limit {
        let events = scan(alloc, search, most)?;
        if !has_stop(&events) {
            return Ok(events);
        }
        most = most.saturating_mul(2);
    }
    let events = scan(alloc, search, limit)?;
    Ok(events)
}

/// What happens when the pattern is matched with the text: anchored at cursor 0 alone, floating at each cursor in turn. Each event
/// comes with its start, in the order of the definition, up to the one that ends the match; at most `limit` trials are shown. If
/// the match takes more, the last event is a Stop in place of the next trial.
///
/// Time and memory grow with the trials that are shown, and the depth of the calls with the parts, rounds and references that are
/// nested within them.
///
/// Refused with
///
/// - `TooDeep` only if parts, rounds and references are nested deeper than `MAX_DEPTH` from some start;
/// - `Memory`.
pub fn trace<'a>(
    alloc: Global,
    rules: &'a Rules,
    pattern: &'a Pattern,
    text: &Text,
    anchored: bool,
    limit: usize,
) -> Result<MatchTrace<'a>, TraceFault>
    // The noted events of the match, within the limit.
    ensures shown { IfOk result (λ trace. IsShown text.now rules.now.bodies (tree_of pattern.now) anchored limit trace.events.items) }
    // If its trials fit, the trace is the match up to the event that ends it, with its outcome and its trials ..
    ensures whole { IfOk result (λ trace. trials text.now rules.now.bodies (tree_of pattern.now) anchored ≤ limit → IsWholeMatch text.now rules.now.bodies (tree_of pattern.now) anchored trace.events.items) }
    // .. and if they don't, it has as many as the limit.
    ensures full { IfOk result (λ trace. limit < trials text.now rules.now.bodies (tree_of pattern.now) anchored → trials_in (off (before_stop trace.events.items)) ≡ limit) }
    // In any case it begins the match.
    ensures front { IfOk result (λ trace. IsFront text.now rules.now.bodies (tree_of pattern.now) anchored trace.events.items) }
    // It is refused as too deep only if the match is nested deeper than the most.
    ensures deep { IfErr result (λ e. e ≡ TooDeep → IsDeeper text.now rules.now.bodies (tree_of pattern.now) anchored MAX_DEPTH) }
{
    // for the proof
    what_is_shown_is_the_match();
    a_limit_is_used_up();
    what_is_shown_begins_the_match();
    let search = Search {
        rules,
        pattern,
        text,
        anchored,
        from: 0,
    };
    let trace = trace_from(alloc, search, limit)?;
    Ok(trace)
}

/// What happens in a search from a cursor of the text on: a match whose starts are this cursor and each later one, or if anchored
/// this cursor alone. All else is as in [`trace`], and the leaves look at the whole text.
///
/// Refused as [`trace`] is, with `TooDeep` only for a start of this search.
pub fn trace_from<'a>(
    alloc: Global,
    search: Search<'_, 'a>,
    limit: usize,
) -> Result<MatchTrace<'a>, TraceFault>
    requires { search.from ≤ length search.text.now }
    // The noted events of the search, within the limit.
    ensures shown { IfOk result (λ trace. IsShownFrom search.entry.text.now search.entry.rules.now.bodies (tree_of search.entry.pattern.now) search.entry.anchored search.entry.from limit trace.events.items) }
    // If its trials fit, the trace is the search up to the event that ends it, with its outcome and its trials ..
    ensures whole { IfOk result (λ trace. trials_from search.entry.text.now search.entry.rules.now.bodies (tree_of search.entry.pattern.now) search.entry.anchored search.entry.from ≤ limit → IsWholeSearch search.entry.text.now search.entry.rules.now.bodies (tree_of search.entry.pattern.now) search.entry.anchored search.entry.from trace.events.items) }
    // .. and if they don't, it has as many as the limit.
    ensures full { IfOk result (λ trace. limit < trials_from search.entry.text.now search.entry.rules.now.bodies (tree_of search.entry.pattern.now) search.entry.anchored search.entry.from → trials_in (off (before_stop trace.events.items)) ≡ limit) }
    // In any case it begins the search.
    ensures front { IfOk result (λ trace. IsFrontFrom search.entry.text.now search.entry.rules.now.bodies (tree_of search.entry.pattern.now) search.entry.anchored search.entry.from trace.events.items) }
    // It is refused as too deep only if the search is nested deeper than the most.
    ensures deep { IfErr result (λ e. e ≡ TooDeep → IsDeeperFrom search.entry.text.now search.entry.rules.now.bodies (tree_of search.entry.pattern.now) search.entry.anchored search.entry.from MAX_DEPTH) }
{
    let events = shown(alloc, search, limit)?;
    Ok(MatchTrace { events })
}
