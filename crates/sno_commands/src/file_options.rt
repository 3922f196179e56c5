//! The options that say which files are taken.

use crate::command_options::{CommandOption, Takes, with_argument, with_options};
use crate::rule_options::values;
use clap::{Arg, ArgMatches, Command};
use sno_rewrite::flag;
use std::alloc::{AllocError, Global};

const NAME_HELP: &str =
    "Of the files in folders only those with such a name, as '*.c': * means any characters, ? one";

const LIST_HELP: &str =
    "Takes the files and folders whose paths are in this file too, each in a line; - is standard input";

const NULL_HELP: &str = "In the file of '--files-from' each path ends with a NUL";

/// The options that say which files are taken, but for that of the end of a path.
const FILE_OPTIONS: [CommandOption<'static>; 2] = [
    CommandOption {
        name: "name",
        short: Some('n'),
        takes: Takes::Values("GLOB"),
        conflicts: &[],
        help: NAME_HELP,
    },
    CommandOption {
        name: "files-from",
        short: None,
        takes: Takes::Value("FILE"),
        conflicts: &[],
        help: LIST_HELP,
    },
];

/// A file with paths.
#[derive(Clone, Copy)]
pub(crate) struct PathList<'a> {
    /// Its path; `-` is standard input.
    pub(crate) path: &'a str,
    /// The byte that ends each path in it.
    pub(crate) end: u8,
}

/// Which files are taken.
#[derive(Drop)]
pub(crate) struct NamedFiles<'a> {
    /// The files and folders that are named; `-` is standard input.
    pub(crate) paths: Vec<&'a str>,
    /// More of them, in a list.
    pub(crate) list: Option<PathList<'a>>,
    /// What the names of the files in folders have to fit; without any, all of them are taken.
    pub(crate) names: Vec<&'a str>,
}

impl NamedFiles<'_> {
    /// Whether no file is named, and no list of them.
    pub(crate) fn are_missing(&self) -> bool {
        self.paths.is_empty() && self.list.is_none()
    }

    /// Whether standard input is one of the files.
    pub(crate) fn have_input(&self) -> bool {
        self.paths.iter().any(|path| *path == "-")
    }

    /// Whether the list of files is on standard input.
    pub(crate) fn are_listed_on_input(&self) -> bool {
        match self.list {
            Some(list) => list.path == "-",
            None => false,
        }
    }
}

/// The option that says how the paths of a list end.
fn null_option<'a>(alloc: Global) -> Result<Arg<'a>, AllocError> {
    flag(alloc, "null", NULL_HELP)
        .short('0')
        .requires_arg("files-from")
}

/// The command with the options for files.
pub(crate) fn with_file_options<'a>(
    alloc: Global,
    command: Command<'a>,
) -> Result<Command<'a>, AllocError> {
    let command = with_options(alloc, command, &FILE_OPTIONS)?;
    with_argument(command, null_option(alloc))
}

/// The files that are named, with these paths among them.
pub(crate) fn named_files<'a>(
    alloc: Global,
    matches: &ArgMatches<'a>,
    paths: Vec<&'a str>,
) -> Result<NamedFiles<'a>, AllocError> {
    let end = if matches.get_flag("null") { 0 } else { b'\n' };
    let list = matches
        .get_str("files-from")
        .map(|path| PathList { path, end });
    Ok(NamedFiles {
        paths,
        list,
        names: values(alloc, matches, "name")?,
    })
}
