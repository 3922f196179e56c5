//! What the patterns without parts do, as noted events.
ghost use Rattle.std.specs.Prelude.{◌≡◌, ◌≤◌, ◌<◌, ℕ, ◌++◌, ◌∷◌, [], List, Some, None, true, false, length, option_to_list, IfOk, OnOk, IsTrue};
ghost use Rattle.sno_pattern.specs.Tree.{tree_of};
ghost use Rattle.sno_pattern.specs.Ends.{arb_ends, bal_ends};
ghost use Rattle.sno_trace.specs.Noted.{tried, noted_tries, noted_ends, noted_of, upto};
ghost use Rattle.sno_trace.specs.Steps.{is_leaf};
ghost use Rattle.sno_trace.specs.declared.events.Noted.{Noted as NotedEvent};

use crate::events::{Leaf, Noted, Trial};
use crate::lists::{one_stop, push_end};
use sno_pattern::{Assign, Name, Pattern, What};
use sno_primitives::{first_balanced, leaf_end};
use std::alloc::{AllocError, Global};

// A leaf that is met at a cursor. `below` more references may be nested.
#[derive(Clone, Copy)]
struct Met<'a> {
    leaf: &'a Pattern,
    cursor: usize,
    below: u128,
}

// What a pattern without parts does from a cursor, within a limit of trials. `below` more references may be nested.
#[inline(never)]
#[tactic(auto, unfolding(crate::specs::Noted::noted_of))]
pub fn leaf<'a>(
    alloc: Global,
    text: &[u8],
    below: u128,
    limit: usize,
    pattern: &'a Pattern,
    c: usize,
) -> Result<Vec<Noted<'a>>, AllocError>
    requires leaf { IsTrue (is_leaf (tree_of pattern.now)) }
    requires within { c ≤ length text.now }
    ensures { (named : ℕ → ℕ → List NotedEvent) → IfOk result (λ v. v.items ≡ upto limit (noted_of text.now named below (tree_of pattern.now) c)) }
{
    if limit == 0 {
        let stopped = one_stop(alloc)?;
        return Ok(stopped);
    }
    let met = Met {
        leaf: pattern,
        cursor: c,
        below,
    };
    match pattern {
        Pattern::Lit(_)
        | Pattern::Bytes(_)
        | Pattern::Len(_)
        | Pattern::Pos(_)
        | Pattern::Rpos(_)
        | Pattern::Tab(_)
        | Pattern::Rtab(_)
        | Pattern::AnyOf(_)
        | Pattern::NoneOf(_)
        | Pattern::Span(_)
        | Pattern::Break(_)
        | Pattern::Rem => at_most_one(alloc, limit, met, leaf_end(text, pattern, c)),
        Pattern::Arb => arb(alloc, text, limit, met),
        Pattern::Bal => bal(alloc, text, limit, met),
        Pattern::Fence => fence(alloc, limit, met),
        Pattern::Abort => abort(alloc, limit, met),
        Pattern::Fail => at_most_one(alloc, limit, met, None),
        Pattern::At(name) => cursor(alloc, limit, met, *name),
        Pattern::Arbno(_)
        | Pattern::Ref(_)
        | Pattern::Seq(_, _)
        | Pattern::Alt(_, _)
        | Pattern::Cond(_, _)
        | Pattern::Imm(_, _) => unreachable!(),
    }
}

// Adds a trial of the leaf.
fn push_trial<'a>(
    events: &mut Vec<Noted<'a>>,
    met: Met<'a>,
    end: Option<usize>,
    again: bool,
) -> Result<(), AllocError>
    ensures { OnOk result (events.new.items ≡ events.old.items ++ tried met.entry.below (tree_of met.entry.leaf.now) met.entry.cursor end again ∷ []) }
{
    events.push(Noted::Try(Trial {
        leaf: Leaf::of(met.leaf),
        cursor: met.cursor,
        end,
        again,
        below: met.below,
    }))?;
    Ok(())
}

// Adds a trial of the leaf, and its End.
fn push_tried<'a>(
    alloc: Global,
    events: &mut Vec<Noted<'a>>,
    met: Met<'a>,
    end: usize,
    again: bool,
) -> Result<(), AllocError>
    ensures { OnOk result (events.new.items ≡ events.old.items ++ tried met.entry.below (tree_of met.entry.leaf.now) met.entry.cursor (Some end) again ∷ NotedEvent.End end [] ∷ []) }
{
    push_trial(events, met, Some(end), again)?;
    push_end(alloc, events, end)?;
    Ok(())
}

// What a leaf does that has at most one end.
fn at_most_one<'a>(
    alloc: Global,
    limit: usize,
    met: Met<'a>,
    end: Option<usize>,
) -> Result<Vec<Noted<'a>>, AllocError>
    requires { 0 < limit }
    ensures { IfOk result (λ v. v.items ≡ upto limit (noted_ends met.entry.below (tree_of met.entry.leaf.now) met.entry.cursor (option_to_list end))) }
{
    let mut events = Vec::new(alloc);
    push_trial(&mut events, met, end, false)?;
    if let Some(end) = end {
        push_end(alloc, &mut events, end)?;
    }
    Ok(events)
}

fn arb<'a>(
    alloc: Global,
    text: &[u8],
    limit: usize,
    met: Met<'a>,
) -> Result<Vec<Noted<'a>>, AllocError>
    requires { met.cursor ≤ length text.now }
    ensures { IfOk result (λ v. v.items ≡ upto limit (noted_ends met.entry.below (tree_of met.entry.leaf.now) met.entry.cursor (arb_ends text.now met.entry.cursor))) }
{
    let mut events = Vec::new(alloc);
    let mut left = limit;
    let mut again = false;
    for end in met.cursor..text.len() + 1 {
        if left == 0 {
            events.push(Noted::Stop)?;
            return Ok(events);
        }
        push_tried(alloc, &mut events, met, end, again)?;
        left -= 1;
        again = true;
    }
    Ok(events)
}

fn bal<'a>(
    alloc: Global,
    text: &[u8],
    limit: usize,
    met: Met<'a>,
) -> Result<Vec<Noted<'a>>, AllocError>
    requires within { met.cursor ≤ length text.now }
    requires some { 0 < limit }
    ensures { IfOk result (λ v. v.items ≡ upto limit (noted_ends met.entry.below (tree_of met.entry.leaf.now) met.entry.cursor (bal_ends text.now met.entry.cursor))) }
{
    if first_balanced(text, met.cursor).is_none() {
        return at_most_one(alloc, limit, met, None);
    }
    let events = balanced(alloc, text, limit, met)?;
    Ok(events)
}

// The ends of `BAL`, each at the cost of a trial.
fn balanced<'a>(
    alloc: Global,
    text: &[u8],
    limit: usize,
    met: Met<'a>,
) -> Result<Vec<Noted<'a>>, AllocError>
    requires { met.cursor ≤ length text.now }
    ensures { IfOk result (λ v. v.items ≡ upto limit (noted_tries met.entry.below false (tree_of met.entry.leaf.now) met.entry.cursor (bal_ends text.now met.entry.cursor))) }
{
    let mut events = Vec::new(alloc);
    let mut left = limit;
    let mut again = false;
    let mut cursor = met.cursor;
    while let Some(end) = first_balanced(text, cursor) {
        if left == 0 {
            events.push(Noted::Stop)?;
            return Ok(events);
        }
        push_tried(alloc, &mut events, met, end, again)?;
        left -= 1;
        again = true;
        cursor = end;
    }
    Ok(events)
}

fn fence<'a>(alloc: Global, limit: usize, met: Met<'a>) -> Result<Vec<Noted<'a>>, AllocError>
    requires { 0 < limit }
    ensures { IfOk result (λ v. v.items ≡ upto limit (tried met.entry.below (tree_of met.entry.leaf.now) met.entry.cursor (Some met.entry.cursor) false ∷ NotedEvent.End met.entry.cursor [] ∷ NotedEvent.Halt ∷ [])) }
{
    let mut events = Vec::new(alloc);
    push_tried(alloc, &mut events, met, met.cursor, false)?;
    events.push(Noted::Halt)?;
    Ok(events)
}

fn abort<'a>(alloc: Global, limit: usize, met: Met<'a>) -> Result<Vec<Noted<'a>>, AllocError>
    requires { 0 < limit }
    ensures { IfOk result (λ v. v.items ≡ upto limit (tried met.entry.below (tree_of met.entry.leaf.now) met.entry.cursor None false ∷ NotedEvent.Halt ∷ [])) }
{
    let mut events = Vec::new(alloc);
    push_trial(&mut events, met, None, false)?;
    events.push(Noted::Halt)?;
    Ok(events)
}

fn cursor<'a>(
    alloc: Global,
    limit: usize,
    met: Met<'a>,
    name: Name,
) -> Result<Vec<Noted<'a>>, AllocError>
    requires { 0 < limit }
    ensures { IfOk result (λ v. v.items ≡ upto limit (tried met.entry.below (tree_of met.entry.leaf.now) met.entry.cursor (Some met.entry.cursor) false ∷ NotedEvent.Set (record { name = name; what = What.Cursor met.entry.cursor }) ∷ NotedEvent.End met.entry.cursor [] ∷ [])) }
{
    let mut events = Vec::new(alloc);
    push_trial(&mut events, met, Some(met.cursor), false)?;
    events.push(Noted::Set(Assign {
        name,
        what: What::Cursor(met.cursor),
    }))?;
    push_end(alloc, &mut events, met.cursor)?;
    Ok(events)
}
