//! Lines of rules that are given, by options and in files.

use crate::faults::ProgramFault;
use crate::ready_files::ready_path;
use crate::streams::read_up_to;
use sno_document::MAX_DOCUMENT;
use sno_lines::{GivenLines, NoLines, lines_of_mistake};
use std::alloc::{AllocError, AllocFailed, Global};
use std::fs;
use std::rt::Files;

/// What the options give: rules and definitions in lines, and files of them.
#[derive(Drop)]
pub(crate) struct RuleLines<'a> {
    /// The names or paths of files of definitions that are ready, in order.
    pub(crate) ready: Vec<&'a str>,
    /// The paths of files of rules, in order.
    pub(crate) files: Vec<&'a str>,
    /// The definitions, in order.
    pub(crate) definitions: Vec<&'a str>,
    /// The rules, in order.
    pub(crate) rules: Vec<&'a str>,
}

impl RuleLines<'_> {
    /// Whether there are rules in lines.
    pub(crate) fn are_given(&self) -> bool {
        !self.rules.is_empty() || !self.files.is_empty()
    }

    /// Whether there is any line, or a file of them.
    pub(crate) fn has_any(&self) -> bool {
        self.are_given() || !self.definitions.is_empty() || !self.ready.is_empty()
    }
}

/// Why there are no lines, or no rules.
#[derive(Drop)]
pub(crate) enum NoRules {
    /// What is written about what was given in their place.
    Refused(String),
    /// What is written about rules that can't be read.
    Unread(String),
    /// They can't be read, or memory ran out.
    Fault(ProgramFault),
}

impl From<AllocError> for NoRules {
    fn from(_refused: AllocError) -> NoRules {
        NoRules::Fault(ProgramFault::Memory)
    }
}

impl<T: Drop> From<AllocFailed<T>> for NoRules {
    fn from(_refused: AllocFailed<T>) -> NoRules {
        NoRules::Fault(ProgramFault::Memory)
    }
}

impl From<ProgramFault> for NoRules {
    fn from(fault: ProgramFault) -> NoRules {
        NoRules::Fault(fault)
    }
}

/// What is written of a file that isn't read.
fn refused_file(alloc: Global, path: &str, why: &str) -> NoRules {
    match format!(in alloc; "{path}: {why}\n") {
        Ok(text) => NoRules::Refused(text),
        Err(_) => NoRules::Fault(ProgramFault::Memory),
    }
}

/// Why there are no rules, if a file has no lines of them.
pub(crate) fn no_rules(alloc: Global, reason: NoLines<'_>) -> NoRules {
    match reason {
        NoLines::Memory => NoRules::Fault(ProgramFault::Memory),
        NoLines::Refused(mistake) => match lines_of_mistake(alloc, &mistake) {
            Ok(text) => NoRules::Refused(text),
            Err(refused) => NoRules::from(refused),
        },
    }
}

/// A file of lines.
#[derive(Drop)]
pub(crate) struct RuleFile {
    path: String,
    /// Whether it has definitions alone, which are left out if nothing refers to them.
    ready: bool,
    bytes: Vec<u8>,
}

/// A file of lines, as it is read.
fn rule_file<R: Files>(
    rt: &R,
    alloc: Global,
    path: String,
    ready: bool,
) -> Result<RuleFile, NoRules> {
    let Ok(mut file) = fs::open(rt, path.as_str()) else {
        return Err(refused_file(alloc, &path, "can't be read"));
    };
    let bytes = read_up_to(alloc, &mut file, MAX_DOCUMENT)?;
    if bytes.len() > MAX_DOCUMENT {
        return Err(refused_file(alloc, &path, "longer than 16777216 bytes"));
    }
    Ok(RuleFile { path, ready, bytes })
}

/// The files that the options name: first those of definitions that are ready, then those of rules.
pub(crate) fn rule_files<R: Files + AllocGlobal>(
    rt: &R,
    alloc: Global,
    given: &RuleLines<'_>,
) -> Result<Vec<RuleFile>, NoRules> {
    let mut files = Vec::new(alloc);
    for name in &given.ready {
        let path = ready_path(rt, alloc, name)?;
        files.push(rule_file(rt, alloc, path, true)?)?;
    }
    for path in &given.files {
        let path = String::from_str(alloc, path)?;
        files.push(rule_file(rt, alloc, path, false)?)?;
    }
    Ok(files)
}

/// The lines of the files, and after them those of options.
pub(crate) fn read_lines<'p>(
    alloc: Global,
    files: &'p [RuleFile],
    given: &RuleLines<'_>,
) -> Result<GivenLines<'p>, NoLines<'p>> {
    let mut lines = GivenLines::none(alloc);
    for file in files {
        lines.put_file(alloc, &file.path, file.ready, &file.bytes)?;
    }
    lines.put_definitions(alloc, &given.definitions)?;
    lines.put_rules(alloc, &given.rules)?;
    Ok(lines)
}
