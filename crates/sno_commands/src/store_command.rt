//! The arguments of `sno store`.

use crate::command_options::{subcommand, with_subcommand};
use clap::{Arg, ArgAction, ArgMatches, Command};
use std::alloc::{AllocError, Global};

const ABOUT: &str =
    "Performs the statements of a store again and compares each outcome with the stored one; list also writes the listing, compact makes the store short, and salvage writes what is whole of a damaged one";

// The subcommand's own usage would leave out the program's name.
const USAGE: &str =
    "sno store check FILE\n       sno store list FILE\n       sno store compact FILE\n       sno store salvage FILE OUT";

const CHECK: &str = "check";

const CHECK_ABOUT: &str = "Says how many entries the store has, or what is wrong with it";

const LIST: &str = "list";

const LIST_ABOUT: &str = "Writes the listing of the store as JSON";

const COMPACT: &str = "compact";

const COMPACT_ABOUT: &str =
    "Replaces FILE by a store with the texts as they are; the old one stays as FILE.1";

const SALVAGE: &str = "salvage";

const SALVAGE_ABOUT: &str =
    "Writes the lines of FILE before the first damaged one to a new file OUT; FILE stays as it is";

const OUT_HELP: &str = "The file to be made";

const FILE_HELP: &str = "The file of the store, as sno serve --store makes it";

const EXAMPLE: &str = "Example: sno store check pages.store";

/// What is to be done with a store.
#[derive(Clone, Copy)]
pub(crate) enum StoreAction {
    /// It is to be replayed.
    Check,
    /// Its listing is to be written.
    List,
    /// One that goes on from it is to take its place.
    Compact,
    /// What is whole of it is to be written to another file.
    Salvage,
}

/// What is to be done with which store.
#[derive(Clone, Copy)]
pub(crate) struct StoreRequest<'a> {
    /// What is to be done.
    pub(crate) action: StoreAction,
    /// The file of the store.
    pub(crate) store: &'a str,
    /// The file for what is whole; empty unless that is asked for.
    pub(crate) out: &'a str,
}

/// The file.
fn file<'a>(alloc: Global) -> Arg<'a> {
    Arg::new(alloc, "file")
        .value_name("FILE")
        .required(true)
        .action(ArgAction::Set)
        .help(FILE_HELP)
}

/// A subcommand that takes the file.
fn with_file<'a>(
    alloc: Global,
    name: &'a str,
    about: &'a str,
    usage: &'a str,
) -> Result<Command<'a>, AllocError> {
    Command::new(alloc, name)
        .about(about)
        .override_usage(usage)
        .arg(file(alloc))
}

/// The subcommand.
pub(crate) fn store_command<'a>(alloc: Global) -> Result<Command<'a>, AllocError> {
    let store = subcommand(alloc, "store", ABOUT, USAGE, EXAMPLE)
        .subcommand_required(true)
        .disable_help_subcommand(true);
    let check = with_file(alloc, CHECK, CHECK_ABOUT, "sno store check FILE");
    let store = with_subcommand(store, check)?;
    let list = with_file(alloc, LIST, LIST_ABOUT, "sno store list FILE");
    let store = with_subcommand(store, list)?;
    let compact = with_file(alloc, COMPACT, COMPACT_ABOUT, "sno store compact FILE");
    let store = with_subcommand(store, compact)?;
    let salvage = with_file(alloc, SALVAGE, SALVAGE_ABOUT, "sno store salvage FILE OUT");
    with_subcommand(store, with_out(alloc, salvage))
}

/// A subcommand that takes another file too.
fn with_out<'a>(
    alloc: Global,
    command: Result<Command<'a>, AllocError>,
) -> Result<Command<'a>, AllocError> {
    command?.arg(
        Arg::new(alloc, "out")
            .value_name("OUT")
            .required(true)
            .action(ArgAction::Set)
            .help(OUT_HELP),
    )
}

/// What is to be done, and the arguments of that subcommand.
fn action_in<'m, 'a>(matches: &'m ArgMatches<'a>) -> (StoreAction, Option<&'m ArgMatches<'a>>) {
    if let Some(found) = matches.subcommand_matches(LIST) {
        return (StoreAction::List, Some(found));
    }
    if let Some(found) = matches.subcommand_matches(COMPACT) {
        return (StoreAction::Compact, Some(found));
    }
    if let Some(found) = matches.subcommand_matches(SALVAGE) {
        return (StoreAction::Salvage, Some(found));
    }
    (StoreAction::Check, matches.subcommand_matches(CHECK))
}

/// What was found.
pub(crate) fn store_request<'a>(matches: &ArgMatches<'a>) -> StoreRequest<'a> {
    let (action, found) = action_in(matches);
    StoreRequest {
        action,
        store: found.and_then(|found| found.get_str("file")).unwrap_or(""),
        out: found.and_then(|found| found.get_str("out")).unwrap_or(""),
    }
}
