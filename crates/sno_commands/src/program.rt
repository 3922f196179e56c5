//! From the arguments and the streams of the program to its status.

use crate::checks::run_check;
use crate::command_line::{RUN, Request, asked_for};
use crate::edits::run_edit;
use crate::faults::{FAILED, INPUT, MISUSED, ProgramFault};
use crate::finds::run_find;
use crate::looks::run_store;
use crate::progress::Progress;
use crate::serves::run_serve;
use crate::stored::{Stores, run_stored};
use crate::streams::write_all;
use crate::traces::run_trace;
use sno_rewrite::{explain, run_program, words_after_name};
use std::alloc::Global;
use std::env::Args;
use std::fs::File;
use std::io;
use std::io::{ErrorKind, IsTerminal, Read, Write};
use std::rt::{Env, Files};
use std::sync::Wait;
use std::thread::Threads;

const NOT_TEXT: &[u8] = b"error: an argument is not UTF-8\n\nFor more information, try '--help'.\n";

/// What the system does for the program.
pub trait System: Files<File = File, Dir: Send>
    + Env
    + Stores
    + Threads
    + Wait
    + AllocGlobal
    + Clone
    + Drop
    + Sync {}

impl<
    R: Files<File = File, Dir: Send>
        + Env
        + Stores
        + Threads
        + Wait
        + AllocGlobal
        + Clone
        + Drop
        + Sync,
> System for R {}

/// Writes the line of a fault, and returns its status. If the line can't be printed, the status is the same.
fn report<E: Write>(fault: ProgramFault, errors: &mut E) -> u8 {
    let _printed = errors.writeln(fault);
    FAILED
}

/// What a request reads first.
fn read_by<'a>(request: &Request<'a>) -> &'a str {
    match request {
        Request::Check(request) => request.options.document.unwrap_or(INPUT),
        Request::Trace(request) => request.options.document.unwrap_or(INPUT),
        Request::Serve(options) => options.document,
        Request::ServeStore(options) => options.document.unwrap_or(options.store),
        Request::Store(request) => request.store,
        Request::Edit(_) | Request::Find(_) => INPUT,
    }
}

/// Writes the line of a request's fault, which names what could not be read, and returns its status.
fn report_of<E: Write>(request: &Request<'_>, fault: ProgramFault, errors: &mut E) -> u8 {
    if fault != ProgramFault::Read {
        return report(fault, errors);
    }
    let called = read_by(request);
    let _printed = errors.writeln(format_args!("{called}: {fault}"));
    FAILED
}

/// Why there are no arguments.
fn refuse_words<E: Write>(error: &io::Error, errors: &mut E) -> u8 {
    match error.kind() {
        ErrorKind::OutOfMemory => report(ProgramFault::Memory, errors),
        _ => {
            let _printed = write_all(errors, NOT_TEXT);
            MISUSED
        }
    }
}

/// Does what is asked for, and returns the status.
fn run_request<
    R: System,
    I: Read + Send + Drop,
    W: Write + IsTerminal + Send + Drop,
    E: Write + IsTerminal,
>(
    rt: &R,
    alloc: Global,
    request: &Request<'_>,
    input: &mut I,
    output: &mut W,
    errors: &mut E,
) -> Result<u8, ProgramFault> {
    match request {
        Request::Check(check) => run_check(rt, alloc, check, input, output, errors),
        Request::Edit(edit) => {
            let counts = errors.is_terminal() && (edit.writes_last() || !output.is_terminal());
            let mut progress = Progress::of(errors, counts);
            let status = run_edit(rt, alloc, edit, input, output, &mut progress);
            progress.end();
            status
        }
        Request::Find(find) => {
            let counts = errors.is_terminal() && !output.is_terminal();
            let mut progress = Progress::of(errors, counts);
            let status = run_find(rt, alloc, find, input, output, &mut progress);
            progress.end();
            status
        }
        Request::Trace(trace) => run_trace(rt, alloc, trace, input, output, errors),
        Request::Serve(options) => run_serve(rt, alloc, options, input, output, errors),
        Request::ServeStore(options) => run_stored(rt, alloc, options, input, output, errors),
        Request::Store(request) => run_store(rt, alloc, request, output, errors),
    }
}

/// Whether the words ask for what `sno_rewrite` does.
fn is_run(words: &[String]) -> bool {
    match words.first() {
        Some(word) => word.as_str() == RUN,
        None => false,
    }
}

/// Runs `sno_rewrite` with the words after the first.
fn run_document<T: Threads + Wait + Sync, I: Read, W: Write, E: Write>(
    rt: &T,
    alloc: Global,
    words: Vec<String>,
    input: &mut I,
    output: &mut W,
    errors: &mut E,
) -> u8 {
    // The first word is taken for the program's name.
    run_program(rt, alloc, Ok(words.into_iter()), input, output, errors)
}

/// Does what the words ask for, and returns the status.
fn run_words<
    R: System,
    I: Read + Send + Drop,
    W: Write + IsTerminal + Send + Drop,
    E: Write + IsTerminal,
>(rt: &R, alloc: Global, words: &[String], input: &mut I, output: &mut W, errors: &mut E) -> u8 {
    match asked_for(alloc, words) {
        Ok(request) => match run_request(rt, alloc, &request, input, output, errors) {
            Ok(status) => status,
            Err(fault) => report_of(&request, fault, errors),
        },
        Err(fault) => explain(&fault, output, errors),
    }
}

/// Runs the program, and returns the status with which it ends. The first argument is the program's name.
///
/// - If the arguments ask for help or the version, it goes to `output`. The status is 0, or 4 if it can't be printed.
/// - If they are refused, or one of them is not a text, `errors` says how the program is used, and the status is 3.
/// - If the first of them is `run`, the program does what `sno_rewrite` does with the others, byte for byte.
/// - Otherwise the status is that of the check, the edit, the search, the trace or the service. If that has a fault, the line of
///   the fault goes to `errors`, and the status is 4, even if the line can't be printed.
pub fn run<
    R: System,
    I: Read + Send + Drop,
    W: Write + IsTerminal + Send + Drop,
    E: Write + IsTerminal,
>(
    rt: &R,
    alloc: Global,
    words: io::Result<Args>,
    input: &mut I,
    output: &mut W,
    errors: &mut E,
) -> u8 {
    match words {
        Ok(words) => match words_after_name(alloc, words) {
            Ok(words) if is_run(&words) => run_document(rt, alloc, words, input, output, errors),
            Ok(words) => run_words(rt, alloc, &words, input, output, errors),
            Err(_) => report(ProgramFault::Memory, errors),
        },
        Err(error) => refuse_words(&error, errors),
    }
}
