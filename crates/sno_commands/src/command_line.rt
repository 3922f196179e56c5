//! What the arguments ask for.

use crate::check_command::{CheckRequest, LINES_AND_DOCUMENT, check_command, check_request};
use crate::command_options::with_subcommand;
use crate::edit_options::{EditRequest, edit_command, edit_options, edit_request};
use crate::find_options::{FindRequest, WITHOUT_RULES, find_command, find_request};
use crate::rule_options::{TRIALS_OUT_OF_RANGE, WITHOUT_LINES, are_without_lines, trials};
use crate::serve_command::{
    SERVE_OUT_OF_RANGE, ServeOptions, StoreOptions, WITHOUT_DOCUMENT, serve_command, serve_options,
    store_options,
};
use crate::store_command::{StoreAction, StoreRequest, store_command, store_request};
use crate::thread_options::{THREADS_OUT_OF_RANGE, are_threads_in_range};
use crate::trace_command::{
    TRACE_OUT_OF_RANGE, TraceRequest, trace_command, trace_options, trace_request,
};
use clap::{ArgMatches, Command, Error};
use sno_rewrite::{OptionsFault, fault_of_error};
use std::alloc::{AllocError, Global};

const ABOUT: &str = "Tools for documents of texts and statements";

/// The first word of what `sno_rewrite` does.
pub(crate) const RUN: &str = "run";

const RUN_ABOUT: &str =
    "Performs the document on standard input, as sno_rewrite does; sno run --help has its options";

const EXAMPLE: &str = "Example: sno check --strict document.json";

const VERSION: &str = "1.0.0";

/// What is to be done.
#[derive(Drop)]
pub(crate) enum Request<'a> {
    /// A document is to be checked.
    Check(CheckRequest<'a>),
    /// Files are to be edited.
    Edit(EditRequest<'a>),
    /// Rules are to be sought in files.
    Find(FindRequest<'a>),
    /// A match is to be traced.
    Trace(TraceRequest<'a>),
    /// A document is to be served.
    Serve(ServeOptions<'a>),
    /// A document is to be served over a store.
    ServeStore(StoreOptions<'a>),
    /// A store is to be looked at.
    Store(StoreRequest<'a>),
}

/// The program without its subcommands.
fn bare_program<'a>(alloc: Global) -> Command<'a> {
    Command::new(alloc, "sno")
        .no_binary_name(true)
        .about(ABOUT)
        .version(VERSION)
        .after_help(EXAMPLE)
        .subcommand_required(true)
        .disable_help_subcommand(true)
}

fn program<'a>(alloc: Global) -> Result<Command<'a>, AllocError> {
    let run = Command::new(alloc, RUN).about(RUN_ABOUT);
    let program = bare_program(alloc).subcommand(run)?;
    let program = with_subcommand(program, check_command(alloc))?;
    let program = with_subcommand(program, edit_command(alloc))?;
    let program = with_subcommand(program, find_command(alloc))?;
    let program = with_subcommand(program, trace_command(alloc))?;
    let program = with_subcommand(program, serve_command(alloc))?;
    with_subcommand(program, store_command(alloc))
}

fn matches<'a>(alloc: Global, words: &'a [String]) -> Result<ArgMatches<'a>, Error> {
    let program = program(alloc)?;
    program.try_get_matches_from(words)
}

/// What is found under `sno find`.
fn find_request_in<'a>(alloc: Global, found: &ArgMatches<'a>) -> Result<Request<'a>, OptionsFault> {
    let Some(trials) = trials(found) else {
        return Err(refused_with(alloc, TRIALS_OUT_OF_RANGE));
    };
    if !are_threads_in_range(found) {
        return Err(refused_with(alloc, THREADS_OUT_OF_RANGE));
    }
    match find_request(alloc, found, trials) {
        Ok(request) if request.lines.are_given() => Ok(Request::Find(request)),
        Ok(_) => Err(refused_with(alloc, WITHOUT_RULES)),
        Err(_) => Err(OptionsFault::Memory),
    }
}

/// What is found under `sno serve`.
fn serve_request_in<'a>(
    alloc: Global,
    found: &ArgMatches<'a>,
) -> Result<Request<'a>, OptionsFault> {
    let request = match (found.get_str("store"), found.get_str("document")) {
        (Some(store), _) => store_options(found, store).map(Request::ServeStore),
        (None, Some(document)) => serve_options(found, document).map(Request::Serve),
        (None, None) => return Err(refused_with(alloc, WITHOUT_DOCUMENT)),
    };
    match request {
        Some(request) => Ok(request),
        None => Err(refused_with(alloc, SERVE_OUT_OF_RANGE)),
    }
}

/// What is found under `sno edit`.
fn edit_request_in<'a>(alloc: Global, found: &ArgMatches<'a>) -> Result<Request<'a>, OptionsFault> {
    if are_without_lines(found) {
        return Err(refused_with(alloc, WITHOUT_LINES));
    }
    let Some(options) = edit_options(found) else {
        return Err(refused_with(alloc, TRIALS_OUT_OF_RANGE));
    };
    if !are_threads_in_range(found) {
        return Err(refused_with(alloc, THREADS_OUT_OF_RANGE));
    }
    let Ok(request) = edit_request(alloc, found, options) else {
        return Err(OptionsFault::Memory);
    };
    match request.refusal() {
        Some(refusal) => Err(refused_with(alloc, refusal)),
        None => Ok(Request::Edit(request)),
    }
}

/// What is found under `sno check`.
fn check_request_in<'a>(
    alloc: Global,
    found: &ArgMatches<'a>,
) -> Result<Request<'a>, OptionsFault> {
    let Ok(request) = check_request(alloc, found) else {
        return Err(OptionsFault::Memory);
    };
    if request.has_both() {
        return Err(refused_with(alloc, LINES_AND_DOCUMENT));
    }
    Ok(Request::Check(request))
}

/// What is found under `sno trace`.
fn trace_request_in<'a>(
    alloc: Global,
    found: &ArgMatches<'a>,
) -> Result<Request<'a>, OptionsFault> {
    if are_without_lines(found) {
        return Err(refused_with(alloc, WITHOUT_LINES));
    }
    let Some(options) = trace_options(found) else {
        return Err(refused_with(alloc, TRACE_OUT_OF_RANGE));
    };
    let Ok(request) = trace_request(alloc, found, options) else {
        return Err(OptionsFault::Memory);
    };
    match request.refusal() {
        Some(refusal) => Err(refused_with(alloc, refusal)),
        None => Ok(Request::Trace(request)),
    }
}

/// What is found under a subcommand.
fn request_in<'a>(alloc: Global, matches: &ArgMatches<'a>) -> Result<Request<'a>, OptionsFault> {
    if let Some(found) = matches.subcommand_matches("edit") {
        return edit_request_in(alloc, found);
    }
    if let Some(found) = matches.subcommand_matches("find") {
        return find_request_in(alloc, found);
    }
    if let Some(found) = matches.subcommand_matches("trace") {
        return trace_request_in(alloc, found);
    }
    if let Some(found) = matches.subcommand_matches("serve") {
        return serve_request_in(alloc, found);
    }
    if let Some(found) = matches.subcommand_matches("store") {
        return Ok(Request::Store(store_request(found)));
    }
    match matches.subcommand_matches("check") {
        Some(found) => check_request_in(alloc, found),
        None => check_request_in(alloc, matches),
    }
}

/// The refusal of arguments that don't go together or of a number that is not in its range, with this text.
fn refused_with(alloc: Global, text: &str) -> OptionsFault {
    match String::from_str(alloc, text) {
        Ok(text) => OptionsFault::Usage(text),
        Err(_) => OptionsFault::Memory,
    }
}

/// What the arguments ask for, which come after the program's name. The first of them isn't `run`.
///
/// Refused with
///
/// - `Help` if `--help` or `--version` comes before any fault;
/// - `Usage` for another first argument than `run`, `check`, `edit`, `find`, `trace`, `serve` or `store`, an argument that is not an option,
///   an option that is given twice, a number that is not in its range, a second document, a service without a document, an edit
///   or a search without rules, or arguments that don't go together;
/// - `Memory`.
pub(crate) fn asked_for<'a>(
    alloc: Global,
    words: &'a [String],
) -> Result<Request<'a>, OptionsFault> {
    match matches(alloc, words) {
        Ok(matches) => request_in(alloc, &matches),
        Err(error) => Err(fault_of_error(alloc, &error)),
    }
}
