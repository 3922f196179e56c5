//! Patterns that are opened.
ghost use Rattle.std.specs.Prelude.{◌≡◌, ◌≤◌, ◌⊎◌, IfErr, IfOk, drop, length};
ghost use Rattle.sno_seek.specs.Opening.{IsOpened};
ghost use Rattle.sno_c.specs.Openings.{IsOpenedPattern};

use crate::buffers::put_line;
use crate::held::Held;
use crate::statuses::{FAULT, NO_MEMORY};
use sno_seek::{NoPattern, Seeker, open};
use std::alloc::Global;

/// A pattern that is held.
fn held_pattern(alloc: Global, seeker: Seeker) -> Result<Box<Held>, u8>
    requires { IsOpened seeker }
    ensures opened { IfOk result (λ b. IsOpenedPattern b.value) }
    ensures refused { IfErr result (λ status. status ≡ 4) }
{
    match Box::new(alloc, Held::Pattern(seeker)) {
        Ok(held) => Ok(held),
        Err(_) => Err(NO_MEMORY),
    }
}

/// Reads a rule with its definitions as a pattern that is held. If they have a fault, its lines are put in the buffer, as much of
/// them as there is room for, and `line_length` is set to that many bytes; else to 0.
pub(crate) fn opened(
    alloc: Global,
    definitions: &[u8],
    rule: &[u8],
    line: &mut [u8],
    line_length: &mut usize,
) -> Result<Box<Held>, u8>
    ensures opened { IfOk result (λ b. IsOpenedPattern b.value) }
    ensures refused { IfErr result (λ status. (status ≡ 2) ⊎ (status ≡ 4)) }
    ensures empty { IfOk result (λ _. line_length.new ≡ 0) }
    ensures rest { drop line_length.new line.new ≡ drop line_length.new line.old }
    ensures inside { line_length.new ≤ length line.old }
{
    *line_length = 0;
    match open(alloc, definitions, rule) {
        Ok(seeker) => held_pattern(alloc, seeker),
        Err(NoPattern::Memory) => Err(NO_MEMORY),
        Err(NoPattern::Refused(fault)) => {
            *line_length = put_line(line, fault.as_bytes());
            Err(FAULT)
        }
    }
}
