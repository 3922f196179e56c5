//! The program: from its arguments and its streams to its status.
ghost use Rattle.std.specs.Prelude.{◌≡◌, ◌+◌, ℕ, drop, map, string_bytes, IfOk, IsErrAnd, MatchResult, Result};
ghost use Rattle.std.specs.IoError.{error_kind};
ghost use Rattle.std.specs.Vec.Iter.{into_iter_items};
ghost use Rattle.sno_document.specs.declared.documents.TheConstants.{MAX_DOCUMENT};
ghost use Rattle.sno_rewrite.specs.Faults.{status};
ghost use Rattle.sno_rewrite.specs.CommandLine.{IsParsed};
ghost use Rattle.sno_rewrite.specs.Program.{EndsBy, IsWordsFault, RunsTo, status_by};
ghost use Rattle.sno_rewrite.specs.Runs.{AreInLimits};
ghost use Rattle.sno_rewrite.specs.Streams.{TakesAtMost};

use crate::streams::write_all;
use crate::{Options, OptionsFault, RunFault, options_of, run, status_of};
use std::alloc::{AllocError, Global};
use std::env::Args;
use std::io;
use std::io::{ErrorKind, Read, Write};
use std::sync::Wait;
use std::thread::Threads;

const USAGE_STATUS: u8 = 3;

const NOT_TEXT: &str = "error: a word is not UTF-8\n\nFor more information, try '--help'.\n";

/// The arguments after the program's name. Refused only if out of memory.
pub fn words_after_name(alloc: Global, words: Args) -> Result<Vec<String>, AllocError>
    ensures { IfOk result (λ v. v.items ≡ drop 1 (into_iter_items words)) }
{
    let mut words = words;
    let _name = words.next();
    let mut rest = Vec::new(alloc);
    for word in words {
        rest.push(word)?;
    }
    Ok(rest)
}

/// Why there are no arguments.
fn fault_of_words(alloc: Global, error: &io::Error) -> OptionsFault
    ensures { IsWordsFault (error_kind error.now) result }
{
    match (error.kind(), String::from_str(alloc, NOT_TEXT)) {
        (ErrorKind::OutOfMemory, _) | (_, Err(_)) => OptionsFault::Memory,
        (_, Ok(text)) => OptionsFault::Usage(text),
    }
}

/// The options that the program's arguments give. The first argument is its name.
fn options_after_name(alloc: Global, words: io::Result<Args>) -> Result<Options, OptionsFault>
    ensures parsed { MatchResult words (λ all. IsParsed (map string_bytes (drop 1 (into_iter_items all))) result) (λ e. IsErrAnd result (IsWordsFault (error_kind e))) }
    ensures limits { IfOk result (λ o. AreInLimits o) }
{
    let words = words.map_err(|error| fault_of_words(alloc, &error))?;
    let Ok(words) = words_after_name(alloc, words) else {
        return Err(OptionsFault::Memory);
    };
    options_of(alloc, &words)
}

/// Writes the line of a fault to `errors`, and returns its status. If the line can't be printed, the status is the
/// same.
fn report<E: Write>(fault: &RunFault, errors: &mut E) -> u8
    ensures { result ≡ status fault.now }
{
    let _printed = errors.writeln(*fault);
    status_of(fault)
}

/// Writes help to the output, or how the program is used to `errors`, and returns the status with which the program ends: 0 after
/// help, 4 if help can't be written or memory ran out, and 3 after arguments that are refused.
pub fn explain<W: Write, E: Write>(fault: &OptionsFault, writer: &mut W, errors: &mut E) -> u8
    ensures { EndsBy writer.old writer.new (W.contents writer.old) (W.contents writer.new) errors.old errors.new (E.contents errors.old) (E.contents errors.new) fault.now result }
{
    match fault {
        OptionsFault::Help(text) => match write_all(writer, text.as_bytes()) {
            Ok(()) => 0,
            Err(fault) => report(&fault, errors),
        },
        OptionsFault::Usage(text) => {
            let _printed = write_all(errors, text.as_bytes());
            USAGE_STATUS
        }
        OptionsFault::Memory => report(&RunFault::Memory, errors),
    }
}

/// Runs the program: takes its options from its arguments, reads the document, writes the listing, and returns the
/// status with which the program ends. The first argument is the program's name.
///
/// - If the arguments ask for help or the version, it goes to `writer`. The status is 0, or 4 if it can't be printed.
/// - If they are refused, or one of them is not a text, `errors` says how the program is used, and the status is 3.
/// - Otherwise the status is that of [`run`], 0 or 1. If `run` has a fault, its line goes to `errors`, and the status
///   is that of [`status_of`], even if the line can't be printed.
///
/// If memory runs out before there are options, the line of `RunFault::Memory` goes to `errors`, and the status is 4.
/// At most 16,777,217 bytes are taken from `reader`.
pub fn run_program<T: Threads + Wait + Sync, R: Read, W: Write, E: Write>(
    rt: &T,
    alloc: Global,
    words: io::Result<Args>,
    reader: &mut R,
    writer: &mut W,
    errors: &mut E,
) -> u8
    // If the arguments give options, the run with these ends by the status. Otherwise their fault does, and nothing is
    // read.
    ensures ends { (parsed : Result Options OptionsFault)
        × MatchResult words (λ all. IsParsed (map string_bytes (drop 1 (into_iter_items all))) parsed) (λ e. IsErrAnd parsed (IsWordsFault (error_kind e)))
        × MatchResult parsed
        (λ options. (outcome : Result ℕ RunFault) × (result ≡ status_by outcome) × IfOk outcome (λ _. errors.new ≡ errors.old)
        × RunsTo options (R.remaining reader.old) writer.old writer.new (W.contents writer.old) (W.contents writer.new) outcome)
        (λ fault. (reader.new ≡ reader.old)
        × EndsBy writer.old writer.new (W.contents writer.old) (W.contents writer.new) errors.old errors.new (E.contents errors.old) (E.contents errors.new) fault result) }
    ensures taken { TakesAtMost (MAX_DOCUMENT + 1) (R.remaining reader.old) (R.remaining reader.new) }
{
    let options = match options_after_name(alloc, words) {
        Ok(options) => options,
        Err(fault) => return explain(&fault, writer, errors),
    };
    match run(rt, alloc, reader, writer, &options) {
        Ok(status) => status,
        Err(fault) => report(&fault, errors),
    }
}
