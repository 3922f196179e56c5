//! The arguments of `sno check`.

use crate::arguments::document;
use crate::command_options::{CommandOption, Takes, subcommand, with_options};
use crate::rule_lines::RuleLines;
use crate::rule_options::{rule_lines, with_line_options};
use clap::{ArgMatches, Command};
use std::alloc::{AllocError, Global};

const ABOUT: &str =
    "Checks a document or rules without performing them: every fault at once, and what is probably not meant";

// The subcommand's own usage would leave out the program's name.
const USAGE: &str =
    "sno check [OPTIONS] [DOCUMENT]\n       sno check [OPTIONS] --rules [RULES]\n       sno check [OPTIONS] -e RULE..\n       sno check [OPTIONS] -f RULES..";

const JSON_HELP: &str = "Writes the findings as JSON";

const STRICT_HELP: &str = "Ends with status 1 for warnings too";

const RULES_HELP: &str =
    "DOCUMENT is rules for sno edit: without texts, and its statements need no text";

const EXAMPLE: &str =
    "Examples: sno check --strict document.json\n          sno check --with c -e \"'malloc(' ARG . SIZE ')' = 'xmalloc(' SIZE ')'\"";

/// What is written if rules in lines are given beside a document.
pub(crate) const LINES_AND_DOCUMENT: &str =
    "error: a document can't be given beside '--rule', '--file', '--define' and '--with'\n\nFor more information, try '--help'.\n";

/// The options that only `sno check` has.
const OPTIONS: [CommandOption<'static>; 3] = [
    CommandOption {
        name: "json",
        short: None,
        takes: Takes::Nothing,
        conflicts: &[],
        help: JSON_HELP,
    },
    CommandOption {
        name: "strict",
        short: None,
        takes: Takes::Nothing,
        conflicts: &[],
        help: STRICT_HELP,
    },
    CommandOption {
        name: "rules",
        short: None,
        takes: Takes::Nothing,
        conflicts: &[],
        help: RULES_HELP,
    },
];

/// What `sno check` is to do.
#[derive(Drop)]
pub(crate) struct CheckRequest<'a> {
    /// How it is to be done.
    pub(crate) options: CheckOptions<'a>,
    /// The rules that are given in lines. Without any line, a document is checked.
    pub(crate) lines: RuleLines<'a>,
}

/// How `sno check` is to be done.
#[derive(Clone, Copy)]
pub(crate) struct CheckOptions<'a> {
    /// Whether the findings are written as JSON.
    pub(crate) json: bool,
    /// Whether warnings count as errors do.
    pub(crate) strict: bool,
    /// Whether the document is rules.
    pub(crate) rules: bool,
    /// The file of the document; standard input if there is none.
    pub(crate) document: Option<&'a str>,
}

impl CheckRequest<'_> {
    /// Whether rules in lines are given beside a document.
    pub(crate) fn has_both(&self) -> bool {
        self.lines.has_any() && (self.options.rules || self.options.document.is_some())
    }
}

/// The subcommand.
pub(crate) fn check_command<'a>(alloc: Global) -> Result<Command<'a>, AllocError> {
    let check = subcommand(alloc, "check", ABOUT, USAGE, EXAMPLE);
    let check = with_options(alloc, check, &OPTIONS)?;
    let check = with_line_options(alloc, check)?;
    check.arg(document(alloc))
}

/// What the arguments ask for.
pub(crate) fn check_request<'a>(
    alloc: Global,
    matches: &ArgMatches<'a>,
) -> Result<CheckRequest<'a>, AllocError> {
    let lines = rule_lines(alloc, matches)?;
    Ok(CheckRequest {
        options: CheckOptions {
            json: matches.get_one::<bool>("json").unwrap_or(false),
            strict: matches.get_one::<bool>("strict").unwrap_or(false),
            rules: matches.get_one::<bool>("rules").unwrap_or(false),
            document: matches.get_str("document"),
        },
        lines,
    })
}
