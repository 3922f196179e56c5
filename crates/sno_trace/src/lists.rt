//! Lists of noted events.
ghost use Rattle.std.specs.Prelude.{◌≡◌, ◌≤◌, ◌-◌, ◌++◌, ◌∷◌, IfOk, OnOk, [], false, position, length};
ghost use Rattle.std.specs.List.{list_any};
ghost use Rattle.sno_trace.specs.Noted.{cut, put_before, go_on, upto, assign_later, assign_now, marked, leave_each, leave_last, within_definition};
ghost use Rattle.sno_trace.specs.Steps.{is_last, trials_of};
ghost use Rattle.sno_trace.specs.declared.events.Landmark.TheVariants.{NullRound};

use crate::events::{Landmark, Marked, Noted};
use sno_pattern::{Assign, Conds, Name, What};
use std::alloc::{AllocError, Global};

// An End without assignments.
pub fn end_at<'a>(alloc: Global, end: usize) -> Noted<'a>
    ensures { result ≡ Noted.End end [] }
{
    Noted::End(end, Conds::of(Vec::new(alloc)))
}

// Adds an End without assignments.
#[inline(never)]
pub fn push_end<'a>(
    alloc: Global,
    events: &mut Vec<Noted<'a>>,
    end: usize,
) -> Result<(), AllocError>
    ensures { OnOk result (events.new.items ≡ events.old.items ++ Noted.End end [] ∷ []) }
{
    events.push(end_at(alloc, end))?;
    Ok(())
}

// Adds an event.
fn push<'a>(events: &mut Vec<Noted<'a>>, event: Noted<'a>) -> Result<(), AllocError>
    ensures { OnOk result (events.new.items ≡ events.old.items ++ event.entry ∷ []) }
{
    events.push(event)?;
    Ok(())
}

// The calls that add one event in a walk aren't inlined: what a failed push returns would take room on the stack of each call of it.

// Adds an event that isn't an End, with `left` trials left: a Stop if it is a trial and none is left. Of an End it adds nothing.
// Returns whether nothing comes after what it added.
#[inline(never)]
#[tactic(auto, using(crate::proofs::NotedLaws::upto_one, crate::proofs::NotedLaws::upto_none))]
pub fn push_other<'a>(
    events: &mut Vec<Noted<'a>>,
    event: &Noted<'a>,
    left: &mut usize,
) -> Result<bool, AllocError>
    ensures added { OnOk result (events.new.items ≡ events.old.items ++ upto left.old (go_on (event.now ∷ []) (λ c. []))) }
    ensures left { OnOk result (left.new ≡ left.old - trials_of (event.now ∷ [])) }
    ensures ended { IfOk result (λ b. b ≡ list_any is_last (upto left.old (go_on (event.now ∷ []) (λ c. [])))) }
{
    match event {
        Noted::Try(trial) => {
            if *left == 0 {
                push(events, Noted::Stop)?;
                return Ok(true);
            }
            push(events, Noted::Try(trial.copied()))?;
            *left -= 1;
            Ok(false)
        }
        Noted::Set(assign) => {
            push(events, Noted::Set(*assign))?;
            Ok(false)
        }
        Noted::Mark(mark) => {
            push(events, Noted::Mark(*mark))?;
            Ok(false)
        }
        Noted::End(_, _) => Ok(false),
        Noted::Halt => {
            push(events, Noted::Halt)?;
            Ok(true)
        }
        Noted::Stop => {
            push(events, Noted::Stop)?;
            Ok(true)
        }
    }
}

// Adds the mark of a null round. `below` more references may be nested.
#[inline(never)]
pub fn push_null_round<'a>(
    events: &mut Vec<Noted<'a>>,
    below: u128,
    cursor: usize,
) -> Result<(), AllocError>
    ensures { OnOk result (events.new.items ≡ events.old.items ++ marked below NullRound cursor ∷ []) }
{
    events.push(mark_at(below, Landmark::NullRound, cursor))?;
    Ok(())
}

// Stop alone.
pub fn one_stop<'a>(alloc: Global) -> Result<Vec<Noted<'a>>, AllocError>
    ensures { IfOk result (λ v. v.items ≡ Noted.Stop ∷ []) }
{
    let mut events = Vec::new(alloc);
    events.push(Noted::Stop)?;
    Ok(events)
}

fn is_last(event: &Noted<'_>) -> bool
    ensures { result ≡ is_last event.now }
{
    matches!(event, Noted::Halt | Noted::Stop)
}

// Whether the list has a Halt or a Stop.
pub fn has_last(events: &[Noted<'_>]) -> bool
    ensures { result ≡ list_any is_last events.now }
{
    events.iter().any(|event| is_last(event))
}

// How many trials the list has.
pub fn count_trials(events: &[Noted<'_>]) -> usize
    ensures value { result ≡ trials_of events.now }
{
    let mut count = 0;
    for event in events {
        match event {
            Noted::Try(_) => count += 1,
            Noted::Set(_) | Noted::Mark(_) | Noted::End(_, _) | Noted::Halt | Noted::Stop => {}
        }
    }
    count
}

// The list up to and including the first Halt or Stop.
pub fn cut<'a>(mut events: Vec<Noted<'a>>) -> Vec<Noted<'a>>
    ensures { result.items ≡ cut events.entry.items }
{
    if let Some(place) = first_last(&events) {
        events.truncate(place + 1);
    }
    events
}

fn first_last(events: &[Noted<'_>]) -> Option<usize>
    ensures { result ≡ position is_last events.now }
{
    events.iter().position(|event| is_last(event))
}

// The first list and then the second.
fn joined(alloc: Global, first: &Conds, second: &Conds) -> Result<Conds, AllocError>
    ensures { IfOk result (λ v. v ≡ first.now ++ second.now) }
{
    let mut list = Vec::from_slice(alloc, first.as_slice())?;
    list.extend_from_slice(second.as_slice())?;
    Ok(Conds::of(list))
}

// The list and then one more part.
fn with_part(
    alloc: Global,
    conds: &Conds,
    name: Name,
    start: usize,
    end: usize,
) -> Result<Conds, AllocError>
    ensures { IfOk result (λ v. v ≡ conds.now ++ (name, start, end) ∷ []) }
{
    let mut list = Vec::from_slice(alloc, conds.as_slice())?;
    list.push((name, start, end))?;
    Ok(Conds::of(list))
}

// The event, of an End with these assignments before its own.
fn put_before<'a>(alloc: Global, conds: &Conds, event: &Noted<'a>) -> Result<Noted<'a>, AllocError>
    ensures { IfOk result (λ e. e ∷ [] ≡ put_before conds.now (event.now ∷ [])) }
{
    match event {
        Noted::End(end, more) => Ok(Noted::End(*end, joined(alloc, conds, more)?)),
        Noted::Try(_) | Noted::Set(_) | Noted::Mark(_) | Noted::Halt | Noted::Stop => event.copied(
            alloc,
        ),
    }
}

// Adds what follows an End with these assignments, up to the first Halt or Stop, and returns whether there is one.
#[tactic(auto, using(crate::proofs::Copies::cut_first, crate::proofs::Copies::cut_last))]
fn add_after<'a>(
    alloc: Global,
    conds: &Conds,
    later: &[Noted<'a>],
    all: &mut Vec<Noted<'a>>,
) -> Result<bool, AllocError>
    ensures added { OnOk result (all.new.items ≡ all.old.items ++ cut (put_before conds.now later.now)) }
    ensures ended { IfOk result (λ b. b ≡ list_any is_last later.now) }
{
    for event in later {
        all.push(put_before(alloc, conds, event)?)?;
        if is_last(event) {
            return Ok(true);
        }
    }
    Ok(false)
}

// The same, and takes its trials from those that are left unless there is one.
#[inline(never)]
pub fn add_later<'a>(
    alloc: Global,
    conds: &Conds,
    later: Vec<Noted<'a>>,
    all: &mut Vec<Noted<'a>>,
    left: &mut usize,
) -> Result<bool, AllocError>
    requires { trials_of later.items ≤ left.now }
    ensures added { OnOk result (all.new.items ≡ all.old.items ++ cut (put_before conds.now later.entry.items)) }
    ensures ended { IfOk result (λ b. b ≡ list_any is_last later.entry.items) }
    ensures left { IfOk result (λ b. b ≡ false → left.new ≡ left.old - trials_of later.entry.items) }
{
    let ended = add_after(alloc, conds, &later, all)?;
    if !ended {
        *left -= count_trials(&later);
    }
    Ok(ended)
}

// The event, of an End with the part from `start` to it assigned to the name if the whole match succeeds.
fn assigned_later<'a>(
    alloc: Global,
    name: Name,
    start: usize,
    event: &Noted<'a>,
) -> Result<Noted<'a>, AllocError>
    ensures { IfOk result (λ e. e ∷ [] ≡ assign_later name start (event.now ∷ [])) }
{
    match event {
        Noted::End(end, conds) => Ok(Noted::End(*end, with_part(alloc, conds, name, start, *end)?)),
        Noted::Try(_) | Noted::Set(_) | Noted::Mark(_) | Noted::Halt | Noted::Stop => event.copied(
            alloc,
        ),
    }
}

// The part from `start` to each End assigned to the name if the whole match succeeds.
#[inline(never)]
#[tactic(auto, using(crate::proofs::Copies::later_first))]
pub fn assign_later<'a>(
    alloc: Global,
    name: Name,
    start: usize,
    events: &[Noted<'a>],
) -> Result<Vec<Noted<'a>>, AllocError>
    ensures { IfOk result (λ v. v.items ≡ assign_later name start events.now) }
{
    let mut all = Vec::new(alloc);
    for event in events {
        all.push(assigned_later(alloc, name, start, event)?)?;
    }
    Ok(all)
}

// Adds the assignment that comes before the event, if it is an End.
fn push_assigned<'a>(
    events: &mut Vec<Noted<'a>>,
    name: Name,
    start: usize,
    event: &Noted<'a>,
) -> Result<(), AllocError>
    ensures { OnOk result (events.new.items ++ event.now ∷ [] ≡ events.old.items ++ assign_now name start (event.now ∷ [])) }
{
    match event {
        Noted::End(end, _) => push(
            events,
            Noted::Set(Assign {
                name,
                what: What::Part(start, *end),
            }),
        ),
        Noted::Try(_) | Noted::Set(_) | Noted::Mark(_) | Noted::Halt | Noted::Stop => Ok(()),
    }
}

// The part from `start` to each End assigned to the name at once.
#[inline(never)]
#[tactic(auto, using(crate::proofs::Copies::now_first))]
pub fn assign_now<'a>(
    alloc: Global,
    name: Name,
    start: usize,
    events: &[Noted<'a>],
) -> Result<Vec<Noted<'a>>, AllocError>
    ensures { IfOk result (λ v. v.items ≡ assign_now name start events.now) }
{
    let mut all = Vec::new(alloc);
    for event in events {
        push_assigned(&mut all, name, start, event)?;
        all.push(event.copied(alloc)?)?;
    }
    Ok(all)
}

// A mark. `below` more references may be nested.
pub fn mark_at<'a>(below: u128, what: Landmark, cursor: usize) -> Noted<'a>
    ensures { result ≡ marked below what cursor }
{
    Noted::Mark(Marked {
        what,
        cursor,
        below,
    })
}

// Adds that the definition with this number is left, if the event is an End.
fn push_leave<'a>(
    events: &mut Vec<Noted<'a>>,
    below: u128,
    number: usize,
    start: usize,
    event: &Noted<'a>,
) -> Result<(), AllocError>
    ensures { OnOk result (events.new.items ++ event.now ∷ [] ≡ events.old.items ++ leave_each below number start (event.now ∷ [])) }
{
    match event {
        Noted::End(end, _) => {
            events.push(mark_at(below, Landmark::Leave(number, *end), start))?;
            Ok(())
        }
        Noted::Try(_) | Noted::Set(_) | Noted::Mark(_) | Noted::Halt | Noted::Stop => Ok(()),
    }
}

// Before each End the definition with this number is left, which was entered at `start`.
#[tactic(auto, using(crate::proofs::Copies::leave_first))]
fn leave_each<'a>(
    alloc: Global,
    below: u128,
    number: usize,
    start: usize,
    events: &[Noted<'a>],
) -> Result<Vec<Noted<'a>>, AllocError>
    ensures { IfOk result (λ v. v.items ≡ leave_each below number start events.now) }
{
    let mut all = Vec::new(alloc);
    for event in events {
        push_leave(&mut all, below, number, start, event)?;
        all.push(event.copied(alloc)?)?;
    }
    Ok(all)
}

// Adds that the definition fails, unless something ends its events.
fn push_last<'a>(
    below: u128,
    number: usize,
    start: usize,
    events: &[Noted<'a>],
    all: &mut Vec<Noted<'a>>,
) -> Result<(), AllocError>
    ensures { OnOk result (all.new.items ≡ all.old.items ++ leave_last below number start events.now) }
{
    if !has_last(events) {
        all.push(mark_at(below, Landmark::Fail(number), start))?;
    }
    Ok(())
}

// The events of the definition with this number from `start` on, with marks of where it is entered and left.
#[inline(never)]
pub fn within_definition<'a>(
    alloc: Global,
    below: u128,
    number: usize,
    start: usize,
    events: &[Noted<'a>],
) -> Result<Vec<Noted<'a>>, AllocError>
    ensures { IfOk result (λ v. v.items ≡ within_definition below number start events.now) }
{
    let mut all = Vec::new(alloc);
    all.push(mark_at(below, Landmark::Enter(number), start))?;
    let mut left = leave_each(alloc, below, number, start, events)?;
    all.append(&mut left)?;
    push_last(below, number, start, events, &mut all)?;
    Ok(all)
}
