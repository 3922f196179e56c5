//! What a pattern does from a cursor, as a whole list of events.
ghost use Rattle.std.specs.Prelude.{◌≡◌, ◌≤◌, length, IfOk};
ghost use Rattle.sno_pattern.specs.Tree.{tree_of};
ghost use Rattle.sno_pattern.specs.Events.{go_on};
ghost use Rattle.sno_pattern.specs.Results.{results, rounds, definition_results};
ghost use Rattle.sno_pattern.specs.Laws.{AllEnds, Within};

use crate::events::{add_after, assign_later, assign_now, cut, has_halt, push_end};
use crate::leaves::leaf;
use sno_pattern::{Event, Pattern, Rules, Text};
use std::alloc::{AllocError, Global};

// The rounds of `ARBNO` that are left: its part, and how many there are at most.
#[derive(Clone, Copy)]
struct Rounds<'p> {
    part: &'p Pattern,
    count: usize,
}

// What the pattern does from a cursor, at most `depth` references deep.
#[cycle(results)]
#[tactic(auto, unfolding(sno_pattern::specs::Results::results_of))]
pub fn results(
    alloc: Global,
    text: &Text,
    rules: &Rules,
    depth: u128,
    pattern: &Pattern,
    c: usize,
) -> Result<Vec<Event>, AllocError>
    requires { c ≤ length text.now }
    ensures { IfOk result (λ v. v.items ≡ results text.now rules.now.bodies depth (tree_of pattern.now) c) }
{
    match pattern {
        Pattern::Seq(left, right) => {
            let first = results(alloc, text, rules, depth, left, c)?;
            follow(alloc, text, rules, depth, &first, right)
        }
        Pattern::Alt(left, right) => {
            let mut events = results(alloc, text, rules, depth, left, c)?;
            if !has_halt(&events) {
                let mut others = results(alloc, text, rules, depth, right, c)?;
                events.append(&mut others)?;
            }
            Ok(cut(events))
        }
        Pattern::Arbno(part) => {
            let left = text.bytes().len() - c;
            let all = Rounds {
                part,
                count: left + 1,
            };
            repeat(alloc, text, rules, depth, all, c)
        }
        Pattern::Cond(part, name) => {
            let events = results(alloc, text, rules, depth, part, c)?;
            assign_later(alloc, *name, c, &events)
        }
        Pattern::Imm(part, name) => {
            let events = results(alloc, text, rules, depth, part, c)?;
            assign_now(alloc, *name, c, &events)
        }
        Pattern::Ref(number) => named(alloc, text, rules, depth, *number, c),
        _ => leaf(alloc, text.bytes(), pattern, c),
    }
}

// What the definition with this number does from a cursor; nothing if the depth is used up.
#[cycle(results)]
fn named(
    alloc: Global,
    text: &Text,
    rules: &Rules,
    depth: u128,
    number: usize,
    c: usize,
) -> Result<Vec<Event>, AllocError>
    requires { c ≤ length text.now }
    ensures { IfOk result (λ v. v.items ≡ definition_results text.now rules.now.bodies depth number c) }
{
    if depth == 0 {
        return Ok(Vec::new(alloc));
    }
    match rules.body(number) {
        None => Ok(Vec::new(alloc)),
        Some(body) => results(alloc, text, rules, depth - 1, body, c),
    }
}

// What the pattern does after each End of `first`, up to the first Halt.
#[cycle(results)]
fn follow(
    alloc: Global,
    text: &Text,
    rules: &Rules,
    depth: u128,
    first: &[Event],
    pattern: &Pattern,
) -> Result<Vec<Event>, AllocError>
    requires { AllEnds (Within text.now 0) first.now }
    ensures { IfOk result (λ v. v.items ≡ go_on first.now (results text.now rules.now.bodies depth (tree_of pattern.now))) }
{
    let mut all = Vec::new(alloc);
    for event in first {
        match event {
            Event::Try => all.push(Event::Try)?,
            Event::Set(assign) => all.push(Event::Set(*assign))?,
            Event::End(end, conds) => {
                let later = results(alloc, text, rules, depth, pattern, *end)?;
                if add_after(alloc, conds, &later, &mut all)? {
                    return Ok(all);
                }
            }
            Event::Halt => {
                all.push(Event::Halt)?;
                return Ok(all);
            }
        }
    }
    Ok(all)
}

// What these rounds do. First comes no round; then each round that took a character, with all that
// follows it before the next alternative of the round.
#[cycle(results)]
fn repeat(
    alloc: Global,
    text: &Text,
    rules: &Rules,
    depth: u128,
    left: Rounds<'_>,
    c: usize,
) -> Result<Vec<Event>, AllocError>
    requires { c ≤ length text.now }
    ensures { IfOk result (λ v. v.items ≡ rounds (results text.now rules.now.bodies depth (tree_of left.entry.part.now)) left.entry.count c) }
{
    let mut all = Vec::new(alloc);
    if left.count == 0 {
        return Ok(all);
    }
    push_end(alloc, &mut all, c)?;
    let once = results(alloc, text, rules, depth, left.part, c)?;
    for event in once.as_slice() {
        match event {
            Event::Try => all.push(Event::Try)?,
            Event::Set(assign) => all.push(Event::Set(*assign))?,
            Event::End(end, conds) => {
                if c < *end {
                    let rest = Rounds {
                        part: left.part,
                        count: left.count - 1,
                    };
                    let later = repeat(alloc, text, rules, depth, rest, *end)?;
                    if add_after(alloc, conds, &later, &mut all)? {
                        return Ok(all);
                    }
                }
            }
            Event::Halt => {
                all.push(Event::Halt)?;
                return Ok(all);
            }
        }
    }
    Ok(all)
}
