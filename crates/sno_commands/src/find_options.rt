//! What the arguments of `sno find` ask for.

use crate::command_options::{CommandOption, Takes, subcommand, with_options};
use crate::contexts::Context;
use crate::file_options::{NamedFiles, named_files, with_file_options};
use crate::rule_lines::RuleLines;
use crate::rule_options::{rule_lines, values, with_rule_options};
use crate::thread_options::{threads_asked_for, threads_option};
use clap::{Arg, ArgAction, ArgMatches, Command};
use sno_edit::Trials;
use std::alloc::{AllocError, Global};

const ABOUT: &str = "Shows what the rules match in the files, and changes none";

// The subcommand's own usage would leave out the program's name.
const USAGE: &str =
    "sno find [OPTIONS] -e RULE.. [FILE..]\n       sno find [OPTIONS] -f RULES.. [FILE..]";

const PATHS_HELP: &str = "Writes the path of each file that has a match, and no line";

const COUNT_HELP: &str = "Writes how many matches each file has";

const JSON_HELP: &str = "Writes each match as a JSON object with its places and variables";

const ONLY_HELP: &str = "Writes the value of this variable of each match alone";

const BEFORE_HELP: &str = "Shows N lines before each line with a match too";

const AFTER_HELP: &str = "Shows N lines after each line with a match too";

const CONTEXT_HELP: &str = "Shows N lines before and after each line with a match too";

const FILES_HELP: &str =
    "The files, and folders for the files in them that are text; standard input without any, and for -";

const EXAMPLE: &str =
    "Examples: sno find -e \"'colour'\" README.md\n          sno find --with c -e \"'malloc(' ARG . SIZE ')'\" src/*.c";

/// What is written if there are no rules.
pub(crate) const WITHOUT_RULES: &str =
    "error: '--rule' or '--file' is wanted\n\nFor more information, try '--help'.\n";

/// The options that only `sno find` has.
const OPTIONS: [CommandOption<'static>; 7] = [
    CommandOption {
        name: "paths",
        short: Some('l'),
        takes: Takes::Nothing,
        conflicts: &[],
        help: PATHS_HELP,
    },
    CommandOption {
        name: "count",
        short: Some('c'),
        takes: Takes::Nothing,
        conflicts: &["paths"],
        help: COUNT_HELP,
    },
    CommandOption {
        name: "json",
        short: None,
        takes: Takes::Nothing,
        conflicts: &["paths", "count"],
        help: JSON_HELP,
    },
    CommandOption {
        name: "only",
        short: None,
        takes: Takes::Value("NAME"),
        conflicts: &["paths", "count", "json"],
        help: ONLY_HELP,
    },
    CommandOption {
        name: "after-context",
        short: Some('A'),
        takes: Takes::Number,
        conflicts: &["paths", "count", "json", "only"],
        help: AFTER_HELP,
    },
    CommandOption {
        name: "before-context",
        short: Some('B'),
        takes: Takes::Number,
        conflicts: &["paths", "count", "json", "only"],
        help: BEFORE_HELP,
    },
    CommandOption {
        name: "context",
        short: Some('C'),
        takes: Takes::Number,
        conflicts: &["paths", "count", "json", "only"],
        help: CONTEXT_HELP,
    },
];

/// What is shown of the matches.
#[derive(Clone, Copy)]
pub(crate) enum Shown<'a> {
    /// The line of each, with lines around it if they are asked for.
    Lines(Option<Context>),
    /// The paths of the files that have one.
    Paths,
    /// How many each file has.
    Counts,
    /// Each as a JSON object.
    Json,
    /// The value of this variable of each.
    Only(&'a str),
}

/// What `sno find` is to do.
#[derive(Drop)]
pub(crate) struct FindRequest<'a> {
    /// What is shown.
    pub(crate) shown: Shown<'a>,
    /// Whether rules that don't say it are anchored.
    pub(crate) anchor: bool,
    /// How many trials a match may take.
    pub(crate) trials: Trials,
    /// The rules.
    pub(crate) lines: RuleLines<'a>,
    /// The files.
    pub(crate) files: NamedFiles<'a>,
    /// How many threads are to share them.
    pub(crate) threads: Option<u32>,
}

/// The files.
fn files<'a>(alloc: Global) -> Arg<'a> {
    Arg::new(alloc, "files")
        .value_name("FILE")
        .action(ArgAction::Append)
        .num_args(0..)
        .help(FILES_HELP)
}

/// The subcommand.
pub(crate) fn find_command<'a>(alloc: Global) -> Result<Command<'a>, AllocError> {
    let find = subcommand(alloc, "find", ABOUT, USAGE, EXAMPLE);
    let find = with_options(alloc, find, &OPTIONS)?;
    let find = with_rule_options(alloc, find)?;
    let find = with_file_options(alloc, find)?;
    let find = find.arg(threads_option(alloc))?;
    find.arg(files(alloc))
}

/// How many lines around matches are asked for.
fn context_of(matches: &ArgMatches<'_>) -> Option<Context> {
    let number = |name: &str| matches.get_one::<u32>(name);
    let both = number("context");
    let before = number("before-context").or(both);
    let after = number("after-context").or(both);
    if before.is_none() && after.is_none() {
        return None;
    }
    Some(Context {
        before: before.unwrap_or(0) as usize,
        after: after.unwrap_or(0) as usize,
    })
}

/// What is to be shown.
fn shown_by<'a>(matches: &ArgMatches<'a>) -> Shown<'a> {
    if matches.get_flag("paths") {
        return Shown::Paths;
    }
    if matches.get_flag("count") {
        return Shown::Counts;
    }
    if matches.get_flag("json") {
        return Shown::Json;
    }
    match matches.get_str("only") {
        Some(name) => Shown::Only(name),
        None => Shown::Lines(context_of(matches)),
    }
}

/// What `sno find` is to do, with this many trials.
pub(crate) fn find_request<'a>(
    alloc: Global,
    matches: &ArgMatches<'a>,
    trials: Trials,
) -> Result<FindRequest<'a>, AllocError> {
    let paths = values(alloc, matches, "files")?;
    let mut files = named_files(alloc, matches, paths)?;
    if files.are_missing() {
        files.paths.push("-")?;
    }
    Ok(FindRequest {
        shown: shown_by(matches),
        anchor: matches.get_flag("anchor"),
        trials,
        lines: rule_lines(alloc, matches)?,
        files,
        threads: threads_asked_for(matches),
    })
}
