//! A search, noted: the starts in turn, up to the event that ends it.
ghost use Rattle.std.specs.Prelude.{◌≡◌, ◌+◌, ◌-◌, ◌≤◌, ◌++◌, ℕ, length, map, IfOk, IfErr, OnOk};
ghost use Rattle.std.specs.List.{list_any, range_with_len};
ghost use Rattle.sno_pattern.specs.Tree.{tree_of};
ghost use Rattle.sno_pattern.specs.Results.{enough_depth};
ghost use Rattle.sno_pattern.specs.Outcome.{starts_from};
ghost use Rattle.sno_pattern.specs.declared.texts.TheConstants.{MAX_TEXT};
ghost use Rattle.sno_trace.specs.Steps.{is_ending};
ghost use Rattle.sno_trace.specs.Promise.{IsShownFrom, until_ended};
ghost use Rattle.sno_trace.specs.Depth.{IsDeeperFrom};
ghost use Rattle.sno_trace.specs.declared.faults.TraceFault.TheVariants.{TooDeep};

use crate::events::Noted;
use crate::faults::{MAX_DEPTH, TraceFault};
use crate::lists::count_trials;
use crate::walking::{Setting, walk};
use sno_pattern::{Pattern, Rules, Text};
use std::alloc::{AllocError, Global};

/// A search: for which pattern, with which definitions, and from which cursor of the text on; if anchored, from that cursor alone.
#[derive(Clone, Copy)]
pub struct Search<'t, 'a> {
    pub rules: &'a Rules,
    pub pattern: &'a Pattern,
    pub text: &'t Text,
    pub anchored: bool,
    /// The cursor, at most the text's length.
    pub from: usize,
}

// Whether the match ends with this event, or what is shown of it.
fn is_ending(event: &Noted<'_>) -> bool
    ensures { result ≡ is_ending event.now }
{
    matches!(event, Noted::End(_, _) | Noted::Halt | Noted::Stop)
}

// Adds the events of one start up to the one that ends the match, and returns whether there is one.
#[tactic(auto, using(crate::proofs::Copies::started, crate::proofs::Copies::start_ended))]
fn add_start<'a>(
    alloc: Global,
    start: usize,
    events: &[Noted<'a>],
    all: &mut Vec<(usize, Noted<'a>)>,
) -> Result<bool, AllocError>
    ensures added { OnOk result (all.new.items ≡ all.old.items ++ until_ended (map (λ x. (start, x)) events.now)) }
    ensures ended { IfOk result (λ b. b ≡ list_any is_ending events.now) }
{
    for event in events {
        all.push((start, event.copied(alloc)?))?;
        if is_ending(event) {
            return Ok(true);
        }
    }
    Ok(false)
}

// A depth that is always enough. It has more bits than a cursor, since nothing here says how few definitions there are.
pub fn enough_depth(text: &Text, rules: &Rules) -> u128
    ensures { result ≡ enough_depth text.now rules.now.bodies }
{
    (text.bytes().len() as u128 + 1) * rules.len() as u128
}

// The last cursor at which a match may begin that is sought from this cursor on.
#[tactic(auto, using(crate::proofs::Starts::single_start, crate::proofs::Starts::each_start))]
fn last_start(text: &Text, anchored: bool, from: usize) -> usize
    requires { from ≤ length text.now }
    ensures starts { range_with_len from (result + 1 - from) ≡ starts_from text.now anchored from }
    ensures within { result ≤ length text.now }
    ensures short { result ≤ MAX_TEXT }
{
    let length = text.bytes().len();
    if anchored { from } else { length }
}

// The events of the search, within the limit, each with its start.
pub fn scan<'a>(
    alloc: Global,
    search: Search<'_, 'a>,
    limit: usize,
) -> Result<Vec<(usize, Noted<'a>)>, TraceFault>
    requires { search.from ≤ length search.text.now }
    ensures shown { IfOk result (λ v. IsShownFrom search.entry.text.now search.entry.rules.now.bodies (tree_of search.entry.pattern.now) search.entry.anchored search.entry.from limit v.items) }
    ensures deep { IfErr result (λ e. e ≡ TooDeep → IsDeeperFrom search.entry.text.now search.entry.rules.now.bodies (tree_of search.entry.pattern.now) search.entry.anchored search.entry.from MAX_DEPTH) }
{
    let setting = Setting {
        text: search.text,
        rules: search.rules,
        depth: enough_depth(search.text, search.rules),
    };
    let last = last_start(search.text, search.anchored, search.from);
    let mut all = Vec::new(alloc);
    let mut left = limit;
    for start in search.from..last + 1 {
        let events = walk(alloc, &setting, MAX_DEPTH, left, search.pattern, start)?;
        if add_start(alloc, start, &events, &mut all)? {
            return Ok(all);
        }
        left -= count_trials(&events);
    }
    Ok(all)
}
