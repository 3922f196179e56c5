//! What a pattern does from a cursor, noted, up to a limit of trials.
ghost use Rattle.std.specs.Prelude.{◌≡◌, ◌≤◌, ◌+◌, ℕ, length, IfOk, IfErr};
ghost use Rattle.sno_pattern.specs.Tree.{tree_of, Arbno, Ref};
ghost use Rattle.sno_pattern.specs.Laws.{AllEnds, Within};
ghost use Rattle.sno_trace.specs.Noted.{erase, go_on, noted, noted_rounds, noted_definition, upto};
ghost use Rattle.sno_trace.specs.Depth.{EndsAt, Nests};
ghost use Rattle.sno_trace.specs.declared.faults.TraceFault.TheVariants.{TooDeep};

use crate::events::Noted;
use crate::faults::{TraceFault, deeper};
use crate::leaves::leaf;
use crate::lists::{
    add_later, assign_later, assign_now, count_trials, cut, has_last, push_end, push_null_round,
    push_other, within_definition,
};
use sno_pattern::{Pattern, Rules, Text};
use std::alloc::Global;

// Where a pattern is walked: the text, the definitions, and how many references may be nested.
#[derive(Clone, Copy)]
pub(crate) struct Setting<'t, 'a> {
    pub(crate) text: &'t Text,
    pub(crate) rules: &'a Rules,
    pub(crate) depth: u128,
}

// The rounds of `ARBNO` that are left: its part, and how many there are at most.
#[derive(Clone, Copy)]
struct Rounds<'a> {
    part: &'a Pattern,
    count: usize,
}

// What the pattern does from a cursor, up to `limit` trials. It is refused if it is nested deeper than `room`. What it calls isn't
// inlined, so that a call takes little of the stack.
#[cycle(walk)]
#[tactic(auto, unfolding(crate::specs::Noted::noted_of))]
pub fn walk<'a>(
    alloc: Global,
    setting: &Setting<'_, 'a>,
    room: usize,
    limit: usize,
    pattern: &'a Pattern,
    c: usize,
) -> Result<Vec<Noted<'a>>, TraceFault>
    requires { c ≤ length setting.now.text.now }
    ensures done { IfOk result (λ v. v.items ≡ upto limit (noted setting.now.text.now setting.now.rules.now.bodies setting.now.depth (tree_of pattern.now) c)) }
    ensures deep { IfErr result (λ e. e ≡ TooDeep → Nests setting.now.text.now setting.now.rules.now.bodies room setting.now.depth (tree_of pattern.now) c) }
{
    let inside = deeper(room)?;
    match pattern {
        Pattern::Seq(left, right) => {
            let first = walk(alloc, setting, inside, limit, left, c)?;
            follow(alloc, setting, inside, limit, &first, right)
        }
        Pattern::Alt(left, right) => {
            let mut events = walk(alloc, setting, inside, limit, left, c)?;
            if !has_last(&events) {
                let rest = limit - count_trials(&events);
                let mut others = walk(alloc, setting, inside, rest, right, c)?;
                events.append(&mut others)?;
            }
            Ok(cut(events))
        }
        Pattern::Arbno(part) => {
            let left = setting.text.bytes().len() - c;
            let rounds = Rounds {
                part,
                count: left + 1,
            };
            repeat(alloc, setting, room, limit, rounds, c)
        }
        Pattern::Cond(part, name) => {
            let inner = walk(alloc, setting, inside, limit, part, c)?;
            let events = assign_later(alloc, *name, c, &inner)?;
            Ok(events)
        }
        Pattern::Imm(part, name) => {
            let inner = walk(alloc, setting, inside, limit, part, c)?;
            let events = assign_now(alloc, *name, c, &inner)?;
            Ok(events)
        }
        Pattern::Ref(number) => {
            let inner = named(alloc, setting, inside, limit, *number, c)?;
            let events = within_definition(alloc, setting.depth, *number, c, &inner)?;
            Ok(events)
        }
        _ => {
            let events = leaf(
                alloc,
                setting.text.bytes(),
                setting.depth,
                limit,
                pattern,
                c,
            )?;
            Ok(events)
        }
    }
}

// What the definition with this number does from a cursor; nothing if the depth is used up.
#[cycle(walk)]
#[inline(never)]
fn named<'a>(
    alloc: Global,
    setting: &Setting<'_, 'a>,
    room: usize,
    limit: usize,
    number: usize,
    c: usize,
) -> Result<Vec<Noted<'a>>, TraceFault>
    requires { c ≤ length setting.now.text.now }
    ensures done { IfOk result (λ v. v.items ≡ upto limit (noted_definition setting.now.text.now setting.now.rules.now.bodies setting.now.depth number c)) }
    ensures deep { IfErr result (λ e. e ≡ TooDeep → Nests setting.now.text.now setting.now.rules.now.bodies (room + 1) setting.now.depth (Ref number) c) }
{
    if setting.depth == 0 {
        return Ok(Vec::new(alloc));
    }
    match setting.rules.body(number) {
        None => Ok(Vec::new(alloc)),
        Some(body) => {
            let below = Setting {
                text: setting.text,
                rules: setting.rules,
                depth: setting.depth - 1,
            };
            walk(alloc, &below, room, limit, body, c)
        }
    }
}

// What the pattern does after each End of `first`, up to the first Halt or Stop.
#[cycle(walk)]
#[inline(never)]
fn follow<'a>(
    alloc: Global,
    setting: &Setting<'_, 'a>,
    room: usize,
    limit: usize,
    first: &[Noted<'a>],
    pattern: &'a Pattern,
) -> Result<Vec<Noted<'a>>, TraceFault>
    requires { AllEnds (Within setting.now.text.now 0) (erase first.now) }
    ensures done { IfOk result (λ v. v.items ≡ upto limit (go_on first.now (noted setting.now.text.now setting.now.rules.now.bodies setting.now.depth (tree_of pattern.now)))) }
    ensures deep { IfErr result (λ e. e ≡ TooDeep → (end : ℕ) × EndsAt first.now end × Nests setting.now.text.now setting.now.rules.now.bodies room setting.now.depth (tree_of pattern.now) end) }
{
    let mut all = Vec::new(alloc);
    let mut left = limit;
    for event in first {
        let ended = match event {
            Noted::End(end, conds) => {
                let later = walk(alloc, setting, room, left, pattern, *end)?;
                add_later(alloc, conds, later, &mut all, &mut left)?
            }
            _ => push_other(&mut all, event, &mut left)?,
        };
        if ended {
            return Ok(all);
        }
    }
    Ok(all)
}

// What these rounds do. First comes no round; then each round that took a character, with all that
// follows it before the next alternative of the round. A round that took none is marked as dropped.
#[cycle(walk)]
#[inline(never)]
fn repeat<'a>(
    alloc: Global,
    setting: &Setting<'_, 'a>,
    room: usize,
    limit: usize,
    rounds: Rounds<'a>,
    c: usize,
) -> Result<Vec<Noted<'a>>, TraceFault>
    requires { c ≤ length setting.now.text.now }
    ensures done { IfOk result (λ v. v.items ≡ upto limit (noted_rounds setting.now.depth (noted setting.now.text.now setting.now.rules.now.bodies setting.now.depth (tree_of rounds.entry.part.now)) rounds.entry.count c)) }
    ensures deep { IfErr result (λ e. e ≡ TooDeep → Nests setting.now.text.now setting.now.rules.now.bodies room setting.now.depth (Arbno (tree_of rounds.entry.part.now)) c) }
{
    if rounds.count == 0 {
        return Ok(Vec::new(alloc));
    }
    let inside = deeper(room)?;
    let mut all = Vec::new(alloc);
    push_end(alloc, &mut all, c)?;
    let once = walk(alloc, setting, inside, limit, rounds.part, c)?;
    let mut left = limit;
    for event in once.as_slice() {
        let ended = match event {
            Noted::End(end, conds) => {
                if c < *end {
                    let rest = Rounds {
                        part: rounds.part,
                        count: rounds.count - 1,
                    };
                    let later = repeat(alloc, setting, inside, left, rest, *end)?;
                    add_later(alloc, conds, later, &mut all, &mut left)?
                } else {
                    push_null_round(&mut all, setting.depth, *end)?;
                    false
                }
            }
            _ => push_other(&mut all, event, &mut left)?,
        };
        if ended {
            return Ok(all);
        }
    }
    Ok(all)
}
