//! The options that give rules in lines, and say how they are performed.

use crate::arguments::is_up_to;
use crate::command_options::{CommandOption, Takes, with_options};
use crate::rule_lines::RuleLines;
use clap::{ArgMatches, Command};
use sno_edit::{MAX_TRIALS, Trials};
use std::alloc::{AllocError, Global};

const RULE_HELP: &str =
    "A rule, PATTERN = OBJECT, for all matches, or with :first, :anchored, :repeat N or :in 'NAME' at its end";

const DEFINE_HELP: &str = "A definition for the rules, NAME = PATTERN";

const RULE_FILE_HELP: &str =
    "A file of rules in lines: a rule begins with a blank, a definition with its name, a comment with *, and + goes on with a line";

const WITH_HELP: &str =
    "Definitions that are ready for the rules: c, html, json, markdown, python or shell; or a file of definitions";

const ANCHOR_HELP: &str = "Anchors each statement that does not say whether it is anchored";

const TRIALS_HELP: &str =
    "How many trials a match may take, 1 to 1000000000; by default enough for any plain rule on a file of its length";

/// What is written if a number is not in its range.
pub(crate) const TRIALS_OUT_OF_RANGE: &str =
    "error: '--trials' takes 1 to 1000000000\n\nFor more information, try '--help'.\n";

/// What is written if there are definitions, but no rules in lines that could refer to them.
pub(crate) const WITHOUT_LINES: &str =
    "error: '--define' and '--with' are for rules of '--rule' or '--file'\n\nFor more information, try '--help'.\n";

/// The options that give rules and definitions in lines.
const LINE_OPTIONS: [CommandOption<'static>; 4] = [
    CommandOption {
        name: "rule",
        short: Some('e'),
        takes: Takes::Values("RULE"),
        conflicts: &[],
        help: RULE_HELP,
    },
    CommandOption {
        name: "file",
        short: Some('f'),
        takes: Takes::Values("RULES"),
        conflicts: &[],
        help: RULE_FILE_HELP,
    },
    CommandOption {
        name: "define",
        short: Some('d'),
        takes: Takes::Values("DEFINITION"),
        conflicts: &[],
        help: DEFINE_HELP,
    },
    CommandOption {
        name: "with",
        short: Some('w'),
        takes: Takes::Values("NAME"),
        conflicts: &[],
        help: WITH_HELP,
    },
];

/// The options that say how rules are performed.
const RULE_OPTIONS: [CommandOption<'static>; 2] = [
    CommandOption {
        name: "anchor",
        short: None,
        takes: Takes::Nothing,
        conflicts: &[],
        help: ANCHOR_HELP,
    },
    CommandOption {
        name: "trials",
        short: None,
        takes: Takes::Number,
        conflicts: &[],
        help: TRIALS_HELP,
    },
];

/// The command with the options that give rules and definitions in lines.
pub(crate) fn with_line_options<'a>(
    alloc: Global,
    command: Command<'a>,
) -> Result<Command<'a>, AllocError> {
    with_options(alloc, command, &LINE_OPTIONS)
}

/// The command with the options for rules.
pub(crate) fn with_rule_options<'a>(
    alloc: Global,
    command: Command<'a>,
) -> Result<Command<'a>, AllocError> {
    let command = with_options(alloc, command, &RULE_OPTIONS)?;
    with_line_options(alloc, command)
}

/// How many trials are asked for; `None` if the number is not in its range.
pub(crate) fn trials(matches: &ArgMatches<'_>) -> Option<Trials> {
    match matches.get_one::<u32>("trials") {
        None => Some(Trials::Usual),
        Some(trials) if is_up_to(MAX_TRIALS, trials) => Some(Trials::AtMost(trials)),
        Some(_) => None,
    }
}

/// The values of an option.
pub(crate) fn values<'a>(
    alloc: Global,
    matches: &ArgMatches<'a>,
    name: &str,
) -> Result<Vec<&'a str>, AllocError> {
    Vec::from_slice(alloc, matches.get_strs(name).unwrap_or(&[]))
}

/// Whether there are definitions, but no rules in lines.
pub(crate) fn are_without_lines(matches: &ArgMatches<'_>) -> bool {
    let is_given = |name: &str| matches.get_strs(name).is_some();
    (is_given("define") || is_given("with")) && !is_given("rule") && !is_given("file")
}

/// What the options give: rules and definitions in lines, and files of them.
pub(crate) fn rule_lines<'a>(
    alloc: Global,
    matches: &ArgMatches<'a>,
) -> Result<RuleLines<'a>, AllocError> {
    Ok(RuleLines {
        ready: values(alloc, matches, "with")?,
        files: values(alloc, matches, "file")?,
        definitions: values(alloc, matches, "define")?,
        rules: values(alloc, matches, "rule")?,
    })
}
