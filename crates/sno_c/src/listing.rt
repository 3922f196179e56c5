//! The listing of a document's serial run, in a caller's buffer.
ghost use Rattle.std.specs.Prelude.{◌≡◌, ◌<◌, ◌≤◌, ◌↔◌, ◌⊎◌, ◌++◌, drop, length};
ghost use Rattle.sno_c.specs.Listed.{IsFaulty, IsListed, IsLonger};
ghost use Rattle.sno_document.specs.declared.modes.Mode.{Mode};
ghost use Rattle.sno_rewrite.specs.Reports.{IsReport, status_of_run};

use crate::buffers::{copy_to, put_line};
use crate::statuses::{BAD_LIMIT, TOO_SHORT};
use sno_rewrite::{MAX_TRIALS, Options, Report, RunFault, run_serial, status_of};
use std::alloc::Global;

/// Puts the line of a fault in the buffer, as much of it as there is room for, and sets `reported` to that many bytes.
pub(crate) fn put_fault(alloc: Global, fault: &RunFault, buffer: &mut [u8], reported: &mut usize)
    ensures rest { drop reported.new buffer.new ≡ drop reported.new buffer.old }
    ensures same { length buffer.new ≡ length buffer.old }
    ensures inside { reported.new ≤ length buffer.new }
{
    *reported = 0;
    if let Ok(line) = fault.to_string(alloc) {
        *reported = put_line(buffer, line.as_bytes());
    }
}

/// Puts the listing in the buffer if there is room for it, sets `reported` to its length either way, and returns the
/// status.
fn put_listing(report: &Report, buffer: &mut [u8], reported: &mut usize) -> u8
    ensures counted { reported.new ≡ length report.now.bytes.items }
    ensures longer { result ≡ 5 → (length buffer.old < reported.new) × (buffer.new ≡ buffer.old) }
    ensures written { result < 2 → (buffer.new ≡ report.now.bytes.items ++ drop reported.new buffer.old) × (result ≡ status_of_run report.now.refused) }
    ensures inside { result < 2 → reported.new ≤ length buffer.old }
    ensures known { (result < 2) ⊎ (result ≡ 5) }
{
    *reported = report.bytes.len();
    if report.bytes.len() > buffer.len() {
        return TOO_SHORT;
    }
    copy_to(buffer, &report.bytes);
    if report.refused == 0 { 0 } else { 1 }
}

/// Performs the statements of a document in order on its texts, and puts the listing in the buffer, as JSON if `json`
/// is true. `anchor` says whether statements that don't say otherwise are anchored. `trials` says how many trials a
/// match may take, 1 to 1,000,000,000. The function takes memory by `malloc`, and frees all of it.
///
/// It returns a status, and sets `reported` to a number of bytes:
///
/// - 0: no statement was refused. The listing is the first `reported` bytes of the buffer.
/// - 1: the same, but statements were refused, as the listing shows.
/// - 2: the bytes are not a document. The first `reported` bytes of the buffer are the line of the first fault, as much of
///   it as there is room for.
/// - 3: the limit of trials is invalid. `reported` is 0.
/// - 4: out of memory. The first `reported` bytes of the buffer are a line that says so.
/// - 5: the buffer is too short for the listing, which has `reported` bytes. The buffer is unchanged.
///
/// After the first `reported` bytes the buffer is unchanged.
#[tactic(auto, using(crate::proofs::FaultLemmas::faulty))]
#[unsafe(no_mangle)]
pub extern "C" fn sno_rewrite_list(
    alloc: Global,
    document: &[u8],
    anchor: bool,
    json: bool,
    trials: u32,
    buffer: &mut [u8],
    reported: &mut usize,
) -> u8
    ensures listed { result < 2 → IsListed (record { anchor = anchor; trials = trials }) json document.now buffer.old buffer.new reported.new result }
    ensures faulty { result ≡ 2 → IsFaulty (record { anchor = anchor; trials = trials }) document.now }
    ensures limit { result ≡ 3 ↔ ((trials ≡ 0) ⊎ (MAX_TRIALS < trials)) }
    ensures longer { result ≡ 5 → IsLonger (record { anchor = anchor; trials = trials }) json document.now buffer.old reported.new }
    ensures rest { drop reported.new buffer.new ≡ drop reported.new buffer.old }
    ensures inside { result < 5 → reported.new ≤ length buffer.old }
    ensures none { result ≡ 3 → reported.new ≡ 0 }
    ensures kept { result ≡ 5 → buffer.new ≡ buffer.old }
    ensures known { result ≤ 5 }
{
    *reported = 0;
    if trials == 0 || trials > MAX_TRIALS {
        return BAD_LIMIT;
    }
    let options = Options {
        anchor,
        workers: None,
        tries: 1,
        json,
        trials,
    };
    match run_serial(alloc, document, &options) {
        Ok(report) => put_listing(&report, buffer, reported),
        Err(fault) => {
            put_fault(alloc, &fault, buffer, reported);
            status_of(&fault)
        }
    }
}
