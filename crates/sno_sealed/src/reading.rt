//! All lines of a store are read.
ghost use Rattle.std.specs.Prelude.{◌≡◌, IfOk};
ghost use Rattle.sno_store.specs.Shown.{lines_in};
ghost use Rattle.sno_sealed.specs.Chains.{IsChain};

use crate::SealFault;
use crate::batches::{bytes_in, number_text};
use crate::reader::Reader;
use crate::seals::{Parts, parts_of};
use crate::tails::is_tear;
use sno_store::Lines;
use std::alloc::Global;

/// Reads these lines, as far as each is right.
pub(crate) fn read_lines(alloc: Global, lines: &Lines) -> Result<Reader, SealFault>
    ensures read { IfOk result (λ r. IsChain (lines_in lines.now) (lines_in r.payloads) r.chain) }
{
    // for the proof
    let _bytes = bytes_in(lines);
    let mut reader = Reader::new(alloc);
    for line in lines.iter() {
        let place = reader.next();
        if !reader.take(line)? {
            return Err(SealFault::Damaged(place));
        }
    }
    Ok(reader)
}

/// The number of the first line of the batch that the last line is of, if lines of it are missing.
fn batch_left<'a>(lines: &'a Lines, number: &[u8]) -> Option<&'a [u8]> {
    let line = lines.iter().last()?;
    match parts_of(line) {
        Some(Parts { first, last, .. }) if last != number => Some(first),
        _ => None,
    }
}

/// Checks that what comes after this many lines can be what a crash has left of one batch: of the one that the last line is of, or, if
/// that is whole or was given up before, of the next one.
///
/// Refused: `Damaged` with the number of the next line; `Memory`.
pub(crate) fn check_tail(
    alloc: Global,
    lines: &Lines,
    count: u64,
    tail: &[u8],
) -> Result<(), SealFault> {
    let next = count.saturating_add(1);
    if is_tear(&number_text(alloc, next)?, count > 0, tail) {
        return Ok(());
    }
    match batch_left(lines, &number_text(alloc, count)?) {
        Some(first) if is_tear(first, true, tail) => Ok(()),
        _ => Err(SealFault::Damaged(next)),
    }
}
