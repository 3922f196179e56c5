//! One step after the other, and one start after the other.
ghost use Rattle.std.specs.Prelude.{◌≡◌, ◌+◌, ◌≤◌, [], length, IfOk, IfErr, IfSome};
ghost use Rattle.std.specs.List.{flat_map};
ghost use Rattle.sno_pattern.specs.Tree.{tree_of};
ghost use Rattle.sno_pattern.specs.Outcome.{tried_from};
ghost use Rattle.sno_pattern.specs.declared.byte_texts.TheConstants.{MAX_BYTES};
ghost use Rattle.sno_machine.specs.Beginnings.{IsRunStart};
ghost use Rattle.sno_machine.specs.Passing.{AreBeginnings, cost};
ghost use Rattle.sno_machine.specs.Code.{IsCompiled};
ghost use Rattle.sno_machine.specs.Endings.{match_by, up_to, Overspent};
ghost use Rattle.sno_machine.specs.declared.starts.fronts.TheConstants.{MAX_FRONTS};

use crate::compiling::nodes::{Compiled, Nodes};
use crate::faults::MatchFault;
use crate::run::entries::{History, Place};
use crate::run::learnt::Learnt;
use crate::run::progress::Progress;
use crate::run::stepping::{Step, take_step};
use crate::run::subject::Subject;
use crate::starts::beginnings::Beginnings;
use crate::starts::passing::next_start;
use sno_pattern::{Conds, Hit};
use std::alloc::Global;
use std::mem;

// The place of the match when it begins at this start.
#[inline(always)]
fn first_place(nodes: &Nodes, most: u32, start: usize) -> Place
    requires { start ≤ MAX_BYTES }
    ensures { result ≡ record { node = nodes.now.start; cursor = start; depth = most; frame = 0; pending = 0 } }
{
    Place {
        node: nodes.start,
        cursor: start as u32,
        depth: most,
        frame: 0,
        pending: 0,
    }
}

// Whether no later start is looked for at first: none is passed over, or a match may begin at this one. Where matches follow one
// another, as in a pass, that saves a call.
#[inline(always)]
fn begins_here(each: bool, beginnings: &Beginnings, text: &[u8], first: usize) -> bool {
    match text.get(first) {
        Some(character) => each || beginnings.begins_with(*character),
        None => each,
    }
}

/// Tries the pattern from cursor `first` to cursor `last`, at most `most` references deep, until one of these starts ends the
/// match. Returns the success, if there is one. With `each`, no start is passed over. What the history holds is dropped first.
/// All of it is one loop, so that a start is not a call. Nor is it a call of a search.
#[inline(always)]
pub fn try_starts<'a>(
    alloc: Global,
    code: &Compiled<'a>,
    text: &[u8],
    most: u32,
    each: bool,
    first: usize,
    last: usize,
    learnt: &mut Learnt<'_, 'a>,
    history: &mut History<'a>,
    progress: &mut Progress<'a>,
) -> Result<Option<Hit>, MatchFault>
    requires compiled { IsCompiled code.now.rules.now.bodies (tree_of code.now.pattern.now) code.now.nodes }
    requires inside { first ≤ last + 1 }
    requires within { last ≤ length text.now }
    requires short { length text.now ≤ MAX_BYTES }
    requires known { learnt.old ≡ text.now }
    requires deep { length code.now.rules.now.bodies ≤ most }
    requires begin { AreBeginnings code.now.rules.now.bodies (tree_of code.now.pattern.now) code.now.beginnings }
    requires cheap { cost code.now.beginnings ≤ MAX_FRONTS }
    requires run { IfSome code.now.run (IsRunStart code.now.rules.now.bodies (tree_of code.now.pattern.now)) }
    ensures found { IfOk result (λ hit. match_by progress.old (flat_map (tried_from text.now code.now.rules.now.bodies most (tree_of code.now.pattern.now)) (up_to first last)) ≡ (progress.new, hit)) }
    ensures known { learnt.new ≡ text.now }
    ensures refused { IfErr result (Overspent progress.old (flat_map (tried_from text.now code.now.rules.now.bodies most (tree_of code.now.pattern.now)) (up_to first last))) }
{
    history.clear();
    let beginnings = &code.beginnings;
    let run = code.run;
    // Found out once, so that a start that fails costs little.
    let each = each || (run.is_none() && matches!(beginnings, Beginnings::Any));
    let here = begins_here(each, beginnings, text, first);
    let mut start = next_start(here, beginnings, None, text, learnt, first, last, progress)?;
    if start > last {
        return Ok(None);
    }
    let mut at = first_place(&code.nodes, most, start);
    loop {
        let subject = Subject::of(text, learnt);
        match take_step(&code.nodes, &subject, at, history, progress)? {
            Step::Onward(place) => at = place,
            Step::Instead(place) => {
                learnt.catch_up(alloc);
                at = place;
            }
            Step::BackUp => {
                learnt.catch_up(alloc);
                match history.back_up() {
                    Some(place) => at = place,
                    None => {
                        start = next_start(
                            each,
                            beginnings,
                            run,
                            text,
                            learnt,
                            start + 1,
                            last,
                            progress,
                        )?;
                        if start > last {
                            return Ok(None);
                        }
                        at = first_place(&code.nodes, most, start);
                    }
                }
            }
            Step::Ended(place) => {
                history.gather(place.pending)?;
                let parts = mem::replace(&mut history.gathered, Vec::new(alloc));
                return Ok(Some(Hit {
                    start,
                    end: place.cursor as usize,
                    conds: Conds::of(parts),
                }));
            }
            Step::Failed => return Ok(None),
        }
    }
}
