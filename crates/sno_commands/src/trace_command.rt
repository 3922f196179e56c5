//! The arguments of `sno trace`.

use crate::arguments::{document, is_up_to};
use crate::check_command::LINES_AND_DOCUMENT;
use crate::command_options::{CommandOption, Takes, subcommand, with_options};
use crate::rule_lines::RuleLines;
use crate::rule_options::{rule_lines, with_rule_options};
use crate::trace_modes::TraceMode;
use clap::{ArgMatches, Command};
use sno_statement::MAX_TRIALS;
use sno_trace::{MAX_LINES, USUAL_LINES};
use sno_traces::Between;
use std::alloc::{AllocError, Global};

const ABOUT: &str =
    "Shows how a match of one statement goes: each trial, definition and assignment, and the end";

// The subcommand's own usage would leave out the program's name.
const USAGE: &str =
    "sno trace [OPTIONS] [DOCUMENT]\n       sno trace [OPTIONS] --on FILE [RULES]\n       sno trace [OPTIONS] --on FILE -e RULE..";

const STATEMENT_HELP: &str =
    "The number of the statement or rule, from 1; those before it are performed first";

const MATCH_HELP: &str =
    "The number of the match, from 1: in one pass the search that finds it, of a repeated statement the round";

const FROM_HELP: &str =
    "The first cursor at which a match is tried; with it or --to one search is shown";

const TO_HELP: &str = "The last cursor at which a match is tried";

const LINES_HELP: &str = "How many lines are shown, 1 to 10000";

const HTML_HELP: &str = "Writes a page of HTML, stepped through by the arrow keys";

const ON_HELP: &str =
    "The file on whose text a rule is traced: ASCII, at most 65536 characters; DOCUMENT is rules then";

const EXAMPLE: &str =
    "Examples: sno trace --statement 2 document.json\n          sno trace --on a.c -e \"'malloc(' BAL . SIZE ')'\"";

const WITHOUT_FILE: &str =
    "error: rules are traced on the text of a file: '--on FILE' is wanted\n\nFor more information, try '--help'.\n";

/// What is written if a number is not in its range.
pub(crate) const TRACE_OUT_OF_RANGE: &str =
    "error: '--statement' and '--match' take a number from 1, '--lines' takes 1 to 10000, and '--trials' takes 1 to 1000000000\n\nFor more information, try '--help'.\n";

/// What is written if no cursor is between the two.
const NO_CURSORS: &str =
    "error: '--to' is before '--from'\n\nFor more information, try '--help'.\n";

/// What is written if a match is asked for by its number and by cursors.
const NUMBER_AND_CURSORS: &str =
    "error: '--match' is not for a search with '--from' or '--to'\n\nFor more information, try '--help'.\n";

/// The options that only `sno trace` has.
const OPTIONS: [CommandOption<'static>; 7] = [
    CommandOption {
        name: "statement",
        short: None,
        takes: Takes::NumberOr("1"),
        conflicts: &[],
        help: STATEMENT_HELP,
    },
    CommandOption {
        name: "match",
        short: None,
        takes: Takes::NumberOr("1"),
        conflicts: &[],
        help: MATCH_HELP,
    },
    CommandOption {
        name: "from",
        short: None,
        takes: Takes::Number,
        conflicts: &[],
        help: FROM_HELP,
    },
    CommandOption {
        name: "to",
        short: None,
        takes: Takes::Number,
        conflicts: &[],
        help: TO_HELP,
    },
    CommandOption {
        name: "lines",
        short: None,
        takes: Takes::NumberOr("1000"),
        conflicts: &[],
        help: LINES_HELP,
    },
    CommandOption {
        name: "html",
        short: None,
        takes: Takes::Nothing,
        conflicts: &[],
        help: HTML_HELP,
    },
    CommandOption {
        name: "on",
        short: None,
        takes: Takes::Value("FILE"),
        conflicts: &[],
        help: ON_HELP,
    },
];

/// How `sno trace` is to be done.
#[derive(Clone, Copy)]
pub(crate) struct TraceOptions<'a> {
    /// The number of the statement, from 1.
    pub(crate) statement: u32,
    /// The number of the match, from 1.
    pub(crate) number: u32,
    /// The cursors at which a match is tried, if not at each.
    pub(crate) between: Option<Between>,
    /// How statements are performed.
    pub(crate) mode: TraceMode,
    /// How many lines are shown at most.
    pub(crate) lines: u32,
    /// Whether they are written as a page of HTML.
    pub(crate) html: bool,
    /// The file on whose text a rule is traced. Without it, a document is traced.
    pub(crate) on: Option<&'a str>,
    /// The file of the document or of the rules; standard input if there is none.
    pub(crate) document: Option<&'a str>,
}

/// What `sno trace` is to do.
#[derive(Drop)]
pub(crate) struct TraceRequest<'a> {
    /// How it is to be done.
    pub(crate) options: TraceOptions<'a>,
    /// The rules that are given in lines. Without any, they are in a file, or a document is traced.
    pub(crate) lines: RuleLines<'a>,
}

impl TraceRequest<'_> {
    /// What is written of cursors that there can't be.
    fn cursor_refusal(&self) -> Option<&'static str> {
        match self.options.between {
            Some(between) if between.to < between.from => Some(NO_CURSORS),
            Some(_) if self.options.number > 1 => Some(NUMBER_AND_CURSORS),
            _ => None,
        }
    }

    /// What is written of arguments that don't go together.
    pub(crate) fn refusal(&self) -> Option<&'static str> {
        let refusal = self.cursor_refusal();
        if refusal.is_some() {
            refusal
        } else if !self.lines.are_given() {
            None
        } else if self.options.on.is_none() {
            Some(WITHOUT_FILE)
        } else if self.options.document.is_some() {
            Some(LINES_AND_DOCUMENT)
        } else {
            None
        }
    }
}

/// The subcommand.
pub(crate) fn trace_command<'a>(alloc: Global) -> Result<Command<'a>, AllocError> {
    let trace = subcommand(alloc, "trace", ABOUT, USAGE, EXAMPLE);
    let trace = with_options(alloc, trace, &OPTIONS)?;
    let trace = with_rule_options(alloc, trace)?;
    trace.arg(document(alloc))
}

/// The cursors at which a match is tried; `None` if it is at each.
fn between(matches: &ArgMatches<'_>) -> Option<Between> {
    let from = matches.get_one::<u32>("from");
    let to = matches.get_one::<u32>("to");
    if from.is_none() && to.is_none() {
        return None;
    }
    Some(Between {
        from: from.unwrap_or(0),
        to: to.unwrap_or(u32::MAX),
    })
}

/// How statements are performed; `None` if the number of trials is not in its range.
fn mode(matches: &ArgMatches<'_>) -> Option<TraceMode> {
    let trials = matches.get_one::<u32>("trials");
    match trials {
        Some(trials) if !is_up_to(MAX_TRIALS, trials) => None,
        _ => Some(TraceMode {
            anchor: matches.get_flag("anchor"),
            trials,
        }),
    }
}

/// The options that were found; `None` if a number is not in its range.
pub(crate) fn trace_options<'a>(matches: &ArgMatches<'a>) -> Option<TraceOptions<'a>> {
    let statement = matches.get_one::<u32>("statement").unwrap_or(1);
    let number = matches.get_one::<u32>("match").unwrap_or(1);
    let lines = matches.get_one::<u32>("lines").unwrap_or(USUAL_LINES);
    if statement == 0 || number == 0 || !is_up_to(MAX_LINES, lines) {
        return None;
    }
    let mode = mode(matches)?;
    Some(TraceOptions {
        statement,
        number,
        between: between(matches),
        mode,
        lines,
        html: matches.get_one::<bool>("html").unwrap_or(false),
        on: matches.get_str("on"),
        document: matches.get_str("document"),
    })
}

/// What the arguments ask for.
pub(crate) fn trace_request<'a>(
    alloc: Global,
    matches: &ArgMatches<'a>,
    options: TraceOptions<'a>,
) -> Result<TraceRequest<'a>, AllocError> {
    let lines = rule_lines(alloc, matches)?;
    Ok(TraceRequest { options, lines })
}
