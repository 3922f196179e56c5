//! The arguments of `sno serve`.
ghost use Rattle.std.specs.Prelude.{◌≤◌, IfSome};
ghost use Rattle.sno_desk.specs.declared.desk.TheConstants.{MAX_SEATS, MAX_TRIES};
ghost use Rattle.sno_statement.specs.Statement.{IsLimit};

use crate::arguments::is_up_to;
use crate::command_options::{CommandOption, Takes, subcommand, with_argument, with_options};
use clap::{Arg, ArgAction, ArgMatches, Command};
use sno_desk::{MAX_SEATS, MAX_TRIES};
use sno_rewrite::numeric;
use sno_statement::{MAX_TRIALS, USUAL_TRIALS};
use std::alloc::{AllocError, Global};

/// The most entries that a store may keep. A batch of lines may bring it 1,023 more, and a journal has room for 1,000,000.
const MAX_KEEP: u32 = 900_000;

const ABOUT: &str =
    "Performs the statements of DOCUMENT, then writes a reply for each line of standard input: a statement, a text to be read, or an index to list entries from";

// The subcommand's own usage would leave out the program's name.
const USAGE: &str =
    "sno serve [OPTIONS] DOCUMENT\n       sno serve [OPTIONS] --store FILE [DOCUMENT]";

const SEATS_HELP: &str = "How many threads take lines, 1 to 16";

const TRIES_HELP: &str =
    "How often a statement is tried while its text changes under it, 1 to 1000";

const TRIALS_HELP: &str =
    "How many trials a match may take, 1 to 1000000000; 1000000 without the option, or as the store was made";

const LISTING_HELP: &str = "Writes the listing as JSON to this file at the end of the input";

const STORE_HELP: &str =
    "Keeps the entries in this file: a reply is written when its entry is on the disk";

const KEEP_HELP: &str =
    "With this many entries, 1 to 900000, FILE is replaced by a store that goes on, and stays as FILE.1";

const DOCUMENT_HELP: &str = "The file of the document; of a store that is there it may be missing";

const EXAMPLE: &str = "Example: sno serve --listing listing.json document.json";

/// What is written if a number is not in its range.
pub(crate) const SERVE_OUT_OF_RANGE: &str =
    "error: '--seats' takes 1 to 16, '--tries' 1 to 1000, '--keep' 1 to 900000, and '--trials' 1 to 1000000000\n\nFor more information, try '--help'.\n";

/// What is written if there is neither a document nor a store.
pub(crate) const WITHOUT_DOCUMENT: &str =
    "error: a service takes DOCUMENT or '--store'\n\nFor more information, try '--help'.\n";

/// What is written if the listing would be written over a file of the store.
pub(crate) const LISTING_ON_STORE: &str =
    "error: '--listing' names a file of the store\n\nFor more information, try '--help'.\n";

/// The options of `sno serve`, but for `--keep`.
const OPTIONS: [CommandOption<'static>; 5] = [
    CommandOption {
        name: "seats",
        short: None,
        takes: Takes::NumberOr("1"),
        conflicts: &[],
        help: SEATS_HELP,
    },
    CommandOption {
        name: "tries",
        short: None,
        takes: Takes::NumberOr("100"),
        conflicts: &[],
        help: TRIES_HELP,
    },
    CommandOption {
        name: "trials",
        short: None,
        takes: Takes::Number,
        conflicts: &[],
        help: TRIALS_HELP,
    },
    CommandOption {
        name: "listing",
        short: None,
        takes: Takes::Value("FILE"),
        conflicts: &[],
        help: LISTING_HELP,
    },
    CommandOption {
        name: "store",
        short: None,
        takes: Takes::Value("FILE"),
        conflicts: &[],
        help: STORE_HELP,
    },
];

/// How `sno serve` is to be done. By its type each number is in its range.
#[derive(Clone, Copy)]
pub(crate) struct ServeOptions<'a> {
    /// How many threads take lines.
    pub(crate) seats: u32,
    /// How often a statement is tried.
    pub(crate) tries: u32,
    /// How many trials a match may take.
    pub(crate) trials: u32,
    /// The file of the listing, if one is to be written.
    pub(crate) listing: Option<&'a str>,
    /// The file of the document.
    pub(crate) document: &'a str,
    ghost few: { (1 ≤ seats) × (seats ≤ MAX_SEATS) },
    ghost valid: { (1 ≤ tries) × (tries ≤ MAX_TRIES) },
    ghost limit: { IsLimit trials },
}

/// The option that says when another store goes on.
fn keep_option<'a>(alloc: Global) -> Result<Arg<'a>, AllocError> {
    numeric(alloc, "keep", KEEP_HELP).requires_arg("store")
}

/// The document, which a store may do without.
fn document<'a>(alloc: Global) -> Arg<'a> {
    Arg::new(alloc, "document")
        .value_name("DOCUMENT")
        .action(ArgAction::Set)
        .help(DOCUMENT_HELP)
}

/// The subcommand.
pub(crate) fn serve_command<'a>(alloc: Global) -> Result<Command<'a>, AllocError> {
    let serve = subcommand(alloc, "serve", ABOUT, USAGE, EXAMPLE);
    let serve = with_options(alloc, serve, &OPTIONS)?;
    let serve = with_argument(serve, keep_option(alloc))?;
    serve.arg(document(alloc))
}

/// How a document is to be served over a store.
#[derive(Clone, Copy)]
pub(crate) struct StoreOptions<'a> {
    /// The file of the store.
    pub(crate) store: &'a str,
    /// How many threads take lines.
    pub(crate) seats: u32,
    /// How often a statement is tried.
    pub(crate) tries: u32,
    /// How many trials a match may take, 1 to 1,000,000,000, if that is asked for.
    pub(crate) trials: Option<u32>,
    /// With how many entries another store goes on, 1 to 900,000, if one is to.
    pub(crate) keep: Option<u64>,
    /// The file of the listing, if one is to be written.
    pub(crate) listing: Option<&'a str>,
    /// The file of the document, if one is given.
    pub(crate) document: Option<&'a str>,
    ghost few: { (1 ≤ seats) × (seats ≤ MAX_SEATS) },
    ghost valid: { (1 ≤ tries) × (tries ≤ MAX_TRIES) },
}

/// The number of trials that is asked for, if there is one; otherwise `None` if it is not in its range.
fn trials_in(matches: &ArgMatches<'_>) -> Option<Option<u32>>
    ensures { IfSome result (λ asked. IfSome asked IsLimit) }
{
    match matches.get_one::<u32>("trials") {
        None => Some(None),
        Some(trials) if is_up_to(MAX_TRIALS, trials) => Some(Some(trials)),
        Some(_) => None,
    }
}

/// The number of entries that is asked for, if there is one; otherwise `None` if it is not in its range.
fn keep_in(matches: &ArgMatches<'_>) -> Option<Option<u64>> {
    match matches.get_one::<u32>("keep") {
        None => Some(None),
        Some(keep) if is_up_to(MAX_KEEP, keep) => Some(Some(u64::from(keep))),
        Some(_) => None,
    }
}

/// The number that is asked for, or that of the option without a value, if it is one from 1 on up to the most.
fn number_up_to(matches: &ArgMatches<'_>, name: &str, most: u32) -> Option<u32>
    ensures { IfSome result (λ number. (1 ≤ number) × (number ≤ most)) }
{
    let number = matches.get_one::<u32>(name)?;
    if is_up_to(most, number) {
        Some(number)
    } else {
        None
    }
}

/// The options that were found; `None` if a number is not in its range.
pub(crate) fn serve_options<'a>(
    matches: &ArgMatches<'a>,
    document: &'a str,
) -> Option<ServeOptions<'a>> {
    let seats = number_up_to(matches, "seats", MAX_SEATS)?;
    let tries = number_up_to(matches, "tries", MAX_TRIES)?;
    let trials = trials_in(matches)?.unwrap_or(USUAL_TRIALS);
    if !is_up_to(MAX_TRIALS, trials) {
        return None;
    }
    Some(ServeOptions {
        seats,
        tries,
        trials,
        listing: matches.get_str("listing"),
        document,
    })
}

/// The options of a service over this store; `None` if a number is not in its range.
pub(crate) fn store_options<'a>(
    matches: &ArgMatches<'a>,
    store: &'a str,
) -> Option<StoreOptions<'a>> {
    Some(StoreOptions {
        store,
        seats: number_up_to(matches, "seats", MAX_SEATS)?,
        tries: number_up_to(matches, "tries", MAX_TRIES)?,
        trials: trials_in(matches)?,
        keep: keep_in(matches)?,
        listing: matches.get_str("listing"),
        document: matches.get_str("document"),
    })
}
