//! How the events of one start end.
ghost use Rattle.std.specs.Prelude.{IfOk};
ghost use Rattle.sno_eval.specs.Endings.{GoesOnAs};

use crate::events::copied;
use sno_pattern::{Assign, Event, Hit};
use std::alloc::{AllocError, Global};

// How the events of one start end.
#[derive(Drop)]
pub enum Ending {
    // A match ended.
    Success(Hit),
    // The whole match failed.
    Failure,
    // Neither: the next start is tried.
    Open,
}

// Adds the assignments that are done at once before the first End or Halt, and returns which of these came.
pub fn first_ending(
    alloc: Global,
    start: usize,
    events: &[Event],
    sets: &mut Vec<Assign>,
) -> Result<Ending, AllocError>
    ensures { IfOk result (λ e. GoesOnAs sets.old.items start events.now sets.new.items e) }
{
    for event in events {
        match event {
            Event::Try => {}
            Event::Set(assign) => sets.push(*assign)?,
            Event::End(end, conds) => {
                let conds = copied(alloc, conds)?;
                return Ok(Ending::Success(Hit {
                    start,
                    end: *end,
                    conds,
                }));
            }
            Event::Halt => return Ok(Ending::Failure),
        }
    }
    Ok(Ending::Open)
}
