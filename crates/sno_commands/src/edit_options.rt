//! What the arguments of `sno edit` ask for.

use crate::command_options::{CommandOption, Takes, subcommand, with_options};
use crate::file_options::{NamedFiles, named_files, with_file_options};
use crate::rule_lines::RuleLines;
use crate::rule_options::{rule_lines, trials, values, with_rule_options};
use crate::thread_options::{threads_asked_for, threads_option};
use clap::{Arg, ArgAction, ArgMatches, Command};
use sno_edit::{Purpose, Trials};
use std::alloc::{AllocError, Global};

const ABOUT: &str =
    "Performs the statements of RULES on each file, in order, and writes the files that change";

// The subcommand's own usage would leave out the program's name.
const USAGE: &str =
    "sno edit [OPTIONS] RULES [FILE..]\n       sno edit [OPTIONS] -e RULE.. [FILE..]\n       sno edit [OPTIONS] -f RULES.. [FILE..]";

const DIFF_HELP: &str = "Writes what would change as a unified diff, and no file";

const CHECK_HELP: &str = "Names the files that would change, and writes none";

const SYNC_HELP: &str =
    "Waits until each new file is on the disk before it takes the place of the old one";

const BACKUP_HELP: &str = "Keeps each old file under its path with SUFFIX after it";

const JSON_HELP: &str =
    "Writes what became of each file as a JSON object: path, changed, matches or refused; and after it one for each match, as of sno find";

const RULES_HELP: &str =
    "The file of a document whose statements need no text; - is standard input; with -e the first file";

const FILES_HELP: &str =
    "The files, each a text of its own: any bytes, up to 16 MiB; of a folder the files in it that are text; without any, and for -, standard input, whose new text goes to standard output";

const EXAMPLE: &str =
    "Examples: sno edit --diff rules.json src/*.c\n          sno edit -e \"'colour' = 'color'\" README.md\n          sno edit --with c -e \"'malloc(' ARG . SIZE ')' = 'xmalloc(' SIZE ')'\" src/*.c";

const WITHOUT_RULES: &str =
    "error: RULES, '--rule' or '--file' is wanted\n\nFor more information, try '--help'.\n";

const INPUT_AND_FILES: &str =
    "error: '-' can't be given beside other files\n\nFor more information, try '--help'.\n";

const INPUT_TWICE: &str =
    "error: standard input can't be read twice\n\nFor more information, try '--help'.\n";

const FILES_ALONE: &str =
    "error: '--json', '--sync' and '--backup' are for files\n\nFor more information, try '--help'.\n";

const NO_SUFFIX: &str =
    "error: '--backup' takes a suffix without '/'\n\nFor more information, try '--help'.\n";

/// The options that only `sno edit` has.
const OPTIONS: [CommandOption<'static>; 5] = [
    CommandOption {
        name: "diff",
        short: None,
        takes: Takes::Nothing,
        conflicts: &["check"],
        help: DIFF_HELP,
    },
    CommandOption {
        name: "check",
        short: None,
        takes: Takes::Nothing,
        conflicts: &[],
        help: CHECK_HELP,
    },
    CommandOption {
        name: "json",
        short: None,
        takes: Takes::Nothing,
        conflicts: &["diff"],
        help: JSON_HELP,
    },
    CommandOption {
        name: "sync",
        short: None,
        takes: Takes::Nothing,
        conflicts: &[],
        help: SYNC_HELP,
    },
    CommandOption {
        name: "backup",
        short: None,
        takes: Takes::Value("SUFFIX"),
        conflicts: &["diff", "check"],
        help: BACKUP_HELP,
    },
];

/// What `sno edit` is to do.
#[derive(Drop)]
pub(crate) struct EditRequest<'a> {
    /// How it is to be done.
    pub(crate) options: EditOptions<'a>,
    /// The rules that are given as lines. Without any, the rules are in a file.
    pub(crate) lines: RuleLines<'a>,
    /// The files.
    pub(crate) files: NamedFiles<'a>,
}

impl EditRequest<'_> {
    /// Whether the text is on standard input, and no file is edited.
    pub(crate) fn is_filter(&self) -> bool {
        self.files.are_missing() || self.files.have_input()
    }

    /// Whether nothing is written to standard output before the last file is edited.
    pub(crate) fn writes_last(&self) -> bool {
        matches!(self.options.purpose, Purpose::Write) && !self.options.json
    }

    /// Whether the rules are on standard input.
    fn has_rules_on_input(&self) -> bool {
        !self.lines.are_given() && self.options.rules == Some("-")
    }

    /// Whether standard input is wanted for two things.
    fn reads_input_twice(&self) -> bool {
        let listed = self.files.are_listed_on_input();
        self.has_rules_on_input() && (listed || self.is_filter())
    }

    /// Why the arguments don't go together, if they don't.
    pub(crate) fn refusal(&self) -> Option<&'static str> {
        let options = &self.options;
        let filters = self.is_filter();
        let is_suffix = |suffix: &str| !suffix.is_empty() && !suffix.contains('/');
        if !self.lines.are_given() && options.rules.is_none() {
            return Some(WITHOUT_RULES);
        }
        if self.files.have_input() && (self.files.paths.len() > 1 || self.files.list.is_some()) {
            return Some(INPUT_AND_FILES);
        }
        if self.reads_input_twice() {
            return Some(INPUT_TWICE);
        }
        if filters && (options.json || options.sync || options.backup.is_some()) {
            return Some(FILES_ALONE);
        }
        match options.backup {
            Some(suffix) if !is_suffix(suffix) => Some(NO_SUFFIX),
            _ => None,
        }
    }
}

/// How `sno edit` is to be done.
#[derive(Clone, Copy)]
pub(crate) struct EditOptions<'a> {
    /// What is done with the texts.
    pub(crate) purpose: Purpose,
    /// Whether a new file has to be on the disk before it takes the old one's place.
    pub(crate) sync: bool,
    /// What is added to the path of an old file that is kept.
    pub(crate) backup: Option<&'a str>,
    /// Whether what became of each file is written as JSON.
    pub(crate) json: bool,
    /// Whether statements that don't say it are anchored.
    pub(crate) anchor: bool,
    /// How many trials a match may take.
    pub(crate) trials: Trials,
    /// How many threads are to share the files.
    pub(crate) threads: Option<u32>,
    /// The file of the rules, if they are in a file of JSON; `-` is standard input.
    pub(crate) rules: Option<&'a str>,
}

/// The file of the rules. With rules in lines it is the first file.
fn rules<'a>(alloc: Global) -> Arg<'a> {
    Arg::new(alloc, "rules")
        .value_name("RULES")
        .action(ArgAction::Set)
        .help(RULES_HELP)
}

/// The files.
fn files<'a>(alloc: Global) -> Arg<'a> {
    Arg::new(alloc, "files")
        .value_name("FILE")
        .action(ArgAction::Append)
        .num_args(1..)
        .help(FILES_HELP)
}

/// The subcommand.
pub(crate) fn edit_command<'a>(alloc: Global) -> Result<Command<'a>, AllocError> {
    let edit = subcommand(alloc, "edit", ABOUT, USAGE, EXAMPLE);
    let edit = with_options(alloc, edit, &OPTIONS)?;
    let edit = with_rule_options(alloc, edit)?;
    let edit = with_file_options(alloc, edit)?;
    let edit = edit.arg(threads_option(alloc))?;
    let edit = edit.arg(rules(alloc))?;
    edit.arg(files(alloc))
}

/// What `sno edit` is to do, with these options.
pub(crate) fn edit_request<'a>(
    alloc: Global,
    matches: &ArgMatches<'a>,
    options: EditOptions<'a>,
) -> Result<EditRequest<'a>, AllocError> {
    let lines = rule_lines(alloc, matches)?;
    let mut paths = values(alloc, matches, "files")?;
    if let (true, Some(file)) = (lines.are_given(), options.rules) {
        paths.insert(0, file)?;
    }
    Ok(EditRequest {
        options,
        lines,
        files: named_files(alloc, matches, paths)?,
    })
}

/// The options that were found; `None` if a number is not in its range.
pub(crate) fn edit_options<'a>(matches: &ArgMatches<'a>) -> Option<EditOptions<'a>> {
    let trials = trials(matches)?;
    let purpose = if matches.get_flag("diff") {
        Purpose::Diff
    } else if matches.get_flag("check") {
        Purpose::Check
    } else {
        Purpose::Write
    };
    Some(EditOptions {
        purpose,
        sync: matches.get_flag("sync"),
        backup: matches.get_str("backup"),
        json: matches.get_flag("json"),
        anchor: matches.get_flag("anchor"),
        trials,
        threads: threads_asked_for(matches),
        rules: matches.get_str("rules"),
    })
}
