//! Lines of rules that are given, by options and in files.

use crate::line_faults::{LineMistake, whole_mistake};
use sno_rules::{FileLine, LineKind, RuleFileFault, lines_of};
use std::alloc::{AllocError, AllocFailed, Global};

/// What is written below the fault of a line that is neither a rule nor a definition.
const KINDS: &str = "a rule begins with a blank, a definition with its name, a comment with *";

/// From where a line comes.
#[derive(Clone, Copy, Debug, PartialEq, Eq)]
pub enum Source<'a> {
    /// An option.
    Option,
    /// The file with this path. It begins there on the line with this number.
    File(&'a str, usize),
    /// The file with this path as a whole.
    Whole(&'a str),
}

/// A line of rules.
#[derive(Drop)]
pub struct GivenLine<'a> {
    /// From where it comes.
    pub source: Source<'a>,
    /// Whether it is a definition that is left out if nothing refers to it.
    pub ready: bool,
    /// Its characters.
    pub text: String,
}

/// Definitions and rules, each in a line.
#[derive(Drop)]
pub struct GivenLines<'a> {
    /// The definitions, in order.
    pub definitions: Vec<GivenLine<'a>>,
    /// The rules, in order.
    pub rules: Vec<GivenLine<'a>>,
}

/// Why a file has no lines of rules.
#[derive(Debug, Drop)]
pub enum NoLines<'a> {
    /// It has this fault.
    Refused(LineMistake<'a>),
    /// Out of memory.
    Memory,
}

impl From<AllocError> for NoLines<'_> {
    fn from(_refused: AllocError) -> Self {
        NoLines::Memory
    }
}

impl<T: Drop> From<AllocFailed<T>> for NoLines<'_> {
    fn from(_refused: AllocFailed<T>) -> Self {
        NoLines::Memory
    }
}

/// Why a file has no lines of rules, with what is written below it; nothing if that is empty.
fn refused_file<'a>(alloc: Global, path: &'a str, why: &str, below: &str) -> NoLines<'a> {
    match whole_mistake(alloc, Source::Whole(path), why, below) {
        Ok(mistake) => NoLines::Refused(mistake),
        Err(_) => NoLines::Memory,
    }
}

/// Why a file has no lines of rules, if it has this fault.
fn rule_file_fault<'a>(alloc: Global, path: &'a str, fault: RuleFileFault) -> NoLines<'a> {
    match fault {
        RuleFileFault::Memory => NoLines::Memory,
        RuleFileFault::UnknownLine(_) | RuleFileFault::NothingBefore(_) => {
            match format!(in alloc; "{fault}") {
                Ok(why) => refused_file(alloc, path, &why, KINDS),
                Err(_) => NoLines::Memory,
            }
        }
    }
}

impl<'a> GivenLines<'a> {
    /// No lines.
    pub fn none(alloc: Global) -> GivenLines<'a> {
        GivenLines {
            definitions: Vec::new(alloc),
            rules: Vec::new(alloc),
        }
    }

    /// Adds a line of a file.
    fn put_line(&mut self, path: &'a str, ready: bool, line: FileLine) -> Result<(), NoLines<'a>> {
        let FileLine {
            number,
            kind,
            characters,
        } = line;
        let alloc = *characters.allocator();
        let Ok(text) = String::from_utf8(characters) else {
            return Err(refused_file(alloc, path, "not UTF-8", ""));
        };
        let given = GivenLine {
            source: Source::File(path, number),
            ready,
            text,
        };
        match kind {
            LineKind::Definition => self.definitions.push(given)?,
            LineKind::Rule if ready => {
                let why = "has a rule; --with takes definitions alone";
                return Err(refused_file(alloc, path, why, ""));
            }
            LineKind::Rule => self.rules.push(given)?,
        }
        Ok(())
    }

    /// Adds the lines of a file with these bytes. `ready` says that it has definitions alone, which are left out if nothing refers
    /// to them.
    ///
    /// Refused with the first line that is neither a rule nor a definition, that goes on with nothing or that isn't UTF-8, and with
    /// a rule in a file of definitions alone; or with `Memory`.
    pub fn put_file(
        &mut self,
        alloc: Global,
        path: &'a str,
        ready: bool,
        bytes: &[u8],
    ) -> Result<(), NoLines<'a>> {
        match lines_of(alloc, bytes) {
            Err(fault) => Err(rule_file_fault(alloc, path, fault)),
            Ok(lines) => {
                for line in lines {
                    self.put_line(path, ready, line)?;
                }
                Ok(())
            }
        }
    }

    /// Adds the definitions that are values of an option. Refused only if memory runs out.
    pub fn put_definitions(&mut self, alloc: Global, values: &[&str]) -> Result<(), AllocError> {
        put_options(alloc, &mut self.definitions, values)
    }

    /// Adds the rules that are values of an option. Refused only if memory runs out.
    pub fn put_rules(&mut self, alloc: Global, values: &[&str]) -> Result<(), AllocError> {
        put_options(alloc, &mut self.rules, values)
    }
}

/// Adds the values of an option, each a line.
fn put_options<'a>(
    alloc: Global,
    lines: &mut Vec<GivenLine<'a>>,
    values: &[&str],
) -> Result<(), AllocError> {
    for value in values {
        lines.push(GivenLine {
            source: Source::Option,
            ready: false,
            text: String::from_str(alloc, value)?,
        })?;
    }
    Ok(())
}
