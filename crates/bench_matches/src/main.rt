//! Times the statements of a document, each on its own: compiling its pattern, matching, and performing it.
//!
//! ```text
//! bench_matches [--times N] < document.json
//! ```
//!
//! The document is one of `sno_rewrite`. Each statement is performed on the text of its name as the document has it: nothing is
//! committed, so no statement sees what another one did. Every statement has one line, in the document's order, with its
//! number, which counts from 1.
//!
//! - Without arguments the line says what the statement does, as `statement 1 matched 0 to 3` or `statement 2 failed`, or why
//!   it does nothing: `no text`, `too many trials` or `text too long`. A match may take 1,000,000 trials.
//! - With `--times N`, 1 to 1,000,000, the line is `statement 1 compile NS match NS perform NS`: nanoseconds, to a tenth. They
//!   are for compiling the pattern, for a match by what was compiled before, and for performing the statement, which compiles,
//!   matches and binds. Each is the least of five runs, and a run does the work N times. Here a match may take 1,000,000,000
//!   trials, so that what is timed is a whole match. A statement that does nothing has the line that says why.
//!
//! The status is 0 if each statement has its line. A fault is one line on standard error. Its status is 3 for invalid
//! arguments, and as in `sno_rewrite` for an invalid document. It is 4 if memory, a read, a write or the clock fails.
//!
//! | File | What it does |
//! |---|---|
//! | `words` | how often the arguments ask for each work |
//! | `effects` | what a statement does on a text |
//! | `timing` | the least time of some runs |
//! | `statements` | the line of each statement |
//! | `faults` | why the program ends without its lines |
#![tactic(auto)]

mod effects;
mod faults;
mod statements;
mod timing;
mod words;

use crate::faults::Fault;
use crate::statements::print_statement;
use crate::words::times_in;
use sno_document::{Document, MAX_DOCUMENT, Mode, read_document};
use sno_statement::{MAX_TRIALS, USUAL_TRIALS};
use std::alloc::Global;
use std::env;
use std::io::{ErrorKind, Read};
use std::process::ExitCode;

/// All bytes of the reader, but at most one more than a document can have.
fn read_all<R: Read + Drop>(alloc: Global, reader: R) -> Result<Vec<u8>, Fault> {
    let mut bytes = Vec::new(alloc);
    match reader.take(MAX_DOCUMENT as u64 + 1).read_to_end(&mut bytes) {
        Ok(_) => Ok(bytes),
        Err(error) => Err(match error.kind() {
            ErrorKind::OutOfMemory => Fault::Memory,
            _ => Fault::Read,
        }),
    }
}

/// The document on a reader. Whether its statements are to be timed sets their limit of trials.
///
/// As a call of its own it moves what is linked after it, so that the matcher's loop begins where it is quicker
/// (`bench/README.md`, "Beside PCRE2").
#[inline(never)]
fn document<R: Read + Drop>(alloc: Global, reader: R, timed: bool) -> Result<Document, Fault> {
    let bytes = read_all(alloc, reader)?;
    let trials = if timed { MAX_TRIALS } else { USUAL_TRIALS };
    let mode = Mode {
        anchor: false,
        trials,
    };
    let document = read_document(alloc, &bytes, mode)?;
    Ok(document)
}

/// Reads the document, and prints the line of each statement.
fn bench(rt: &HostRuntime) -> Result<(), Fault> {
    let times = times_in(env::args(rt))?;
    let alloc = rt.alloc();
    let document = document(alloc, rt.stdin(), times.is_some())?;
    for statement in &document.statements {
        print_statement(rt, alloc, &document.book, statement, times)?;
    }
    Ok(())
}

fn main(rt: HostRuntime) -> ExitCode {
    match bench(&rt) {
        Ok(()) => ExitCode::SUCCESS,
        Err(fault) => {
            let _printed = eprintln!(rt; "{fault}");
            ExitCode::from(fault.status())
        }
    }
}
