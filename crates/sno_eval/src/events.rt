//! Lists of events.
ghost use Rattle.std.specs.Prelude.{◌≡◌, ◌++◌, ◌∷◌, IfOk, OnOk, [], option_to_list, position};
ghost use Rattle.std.specs.List.{list_any};
ghost use Rattle.sno_pattern.specs.Events.{cut, put_before, assign_later, assign_now};
ghost use Rattle.sno_pattern.specs.Results.{ends};
ghost use Rattle.sno_eval.specs.Steps.{is_halt};

use sno_pattern::{Assign, Conds, Event, Name, What};
use std::alloc::{AllocError, Global};

// An End without assignments.
pub fn end_at(alloc: Global, end: usize) -> Event
    ensures { result ≡ Event.End end [] }
{
    Event::End(end, Conds::of(Vec::new(alloc)))
}

// Adds an End without assignments.
pub fn push_end(alloc: Global, events: &mut Vec<Event>, end: usize) -> Result<(), AllocError>
    ensures { OnOk result (events.new.items ≡ events.old.items ++ Event.End end [] ∷ []) }
{
    events.push(end_at(alloc, end))?;
    Ok(())
}

// Adds a trial, and then an End without assignments.
pub fn push_further(alloc: Global, events: &mut Vec<Event>, end: usize) -> Result<(), AllocError>
    ensures { OnOk result (events.new.items ≡ events.old.items ++ Event.Try ∷ Event.End end [] ∷ []) }
{
    events.push(Event::Try)?;
    push_end(alloc, events, end)?;
    Ok(())
}

// A trial alone.
pub fn one_trial(alloc: Global) -> Result<Vec<Event>, AllocError>
    ensures { IfOk result (λ v. v.items ≡ Event.Try ∷ []) }
{
    let mut events = Vec::new(alloc);
    events.push(Event::Try)?;
    Ok(events)
}

// What a primitive does that has at most one end.
pub fn at_most_one(alloc: Global, end: Option<usize>) -> Result<Vec<Event>, AllocError>
    ensures { IfOk result (λ v. v.items ≡ ends (option_to_list end)) }
{
    let mut events = one_trial(alloc)?;
    if let Some(end) = end {
        push_end(alloc, &mut events, end)?;
    }
    Ok(events)
}

fn is_halt(event: &Event) -> bool
    ensures { result ≡ is_halt event.now }
{
    matches!(event, Event::Halt)
}

// Whether the whole match fails somewhere in the list.
pub fn has_halt(events: &[Event]) -> bool
    ensures { result ≡ list_any is_halt events.now }
{
    events.iter().any(|event| is_halt(event))
}

// The list up to and including the first Halt.
pub fn cut(mut events: Vec<Event>) -> Vec<Event>
    ensures { result.items ≡ cut events.items }
{
    if let Some(place) = first_halt(&events) {
        events.truncate(place + 1);
    }
    events
}

fn first_halt(events: &[Event]) -> Option<usize>
    ensures { result ≡ position is_halt events.now }
{
    events.iter().position(|event| is_halt(event))
}

// The first list and then the second.
fn joined(alloc: Global, first: &Conds, second: &Conds) -> Result<Conds, AllocError>
    ensures { IfOk result (λ v. v ≡ first.now ++ second.now) }
{
    let mut list = Vec::from_slice(alloc, first.as_slice())?;
    list.extend_from_slice(second.as_slice())?;
    Ok(Conds::of(list))
}

// The list and then one more part.
fn with_part(
    alloc: Global,
    conds: &Conds,
    name: Name,
    start: usize,
    end: usize,
) -> Result<Conds, AllocError>
    ensures { IfOk result (λ v. v ≡ conds.now ++ (name, start, end) ∷ []) }
{
    let mut list = Vec::from_slice(alloc, conds.as_slice())?;
    list.push((name, start, end))?;
    Ok(Conds::of(list))
}

pub fn copied(alloc: Global, conds: &Conds) -> Result<Conds, AllocError>
    ensures { IfOk result (λ v. v ≡ conds.now) }
{
    let list = Vec::from_slice(alloc, conds.as_slice())?;
    Ok(Conds::of(list))
}

// Adds what follows an End with these assignments, up to the first Halt, and returns whether there is one.
pub fn add_after(
    alloc: Global,
    conds: &Conds,
    later: &[Event],
    all: &mut Vec<Event>,
) -> Result<bool, AllocError>
    ensures added { OnOk result (all.new.items ≡ all.old.items ++ cut (put_before conds.now later.now)) }
    ensures halted { IfOk result (λ b. b ≡ list_any is_halt later.now) }
{
    for event in later {
        match event {
            Event::Try => all.push(Event::Try)?,
            Event::Set(assign) => all.push(Event::Set(*assign))?,
            Event::End(end, more) => all.push(Event::End(*end, joined(alloc, conds, more)?))?,
            Event::Halt => {
                all.push(Event::Halt)?;
                return Ok(true);
            }
        }
    }
    Ok(false)
}

// The part from `start` to each End assigned to the name if the whole match succeeds.
pub fn assign_later(
    alloc: Global,
    name: Name,
    start: usize,
    events: &[Event],
) -> Result<Vec<Event>, AllocError>
    ensures { IfOk result (λ v. v.items ≡ assign_later name start events.now) }
{
    let mut all = Vec::new(alloc);
    for event in events {
        match event {
            Event::Try => all.push(Event::Try)?,
            Event::Set(assign) => all.push(Event::Set(*assign))?,
            Event::End(end, conds) => all.push(Event::End(
                *end,
                with_part(alloc, conds, name, start, *end)?,
            ))?,
            Event::Halt => all.push(Event::Halt)?,
        }
    }
    Ok(all)
}

// The part from `start` to each End assigned to the name at once.
pub fn assign_now(
    alloc: Global,
    name: Name,
    start: usize,
    events: &[Event],
) -> Result<Vec<Event>, AllocError>
    ensures { IfOk result (λ v. v.items ≡ assign_now name start events.now) }
{
    let mut all = Vec::new(alloc);
    for event in events {
        match event {
            Event::Try => all.push(Event::Try)?,
            Event::Set(assign) => all.push(Event::Set(*assign))?,
            Event::End(end, conds) => {
                all.push(Event::Set(Assign {
                    name,
                    what: What::Part(start, *end),
                }))?;
                all.push(Event::End(*end, copied(alloc, conds)?))?;
            }
            Event::Halt => all.push(Event::Halt)?,
        }
    }
    Ok(all)
}
