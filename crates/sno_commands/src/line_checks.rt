//! What is found in rules that are given in lines.

use crate::given_lines::{NoRules, RuleLines, read_lines, rule_files};
use sno_check::check_rule_rows;
use sno_lines::{
    GivenLines, LineMistake, LineReport, NoLines, SpelledLines, json_of_report, lines_of_report,
    report_in_lines, rows_of, used_by_sets,
};
use std::alloc::{AllocError, Global};
use std::rt::Files;

/// What is written of a check.
#[derive(Drop)]
pub(crate) struct Checked {
    pub(crate) bytes: Vec<u8>,
    /// Whether there is an error.
    pub(crate) has_errors: bool,
    /// Whether there is a warning.
    pub(crate) has_warnings: bool,
}

/// What is written of a report on lines.
fn shown(alloc: Global, report: &LineReport<'_>, json: bool) -> Result<Checked, AllocError> {
    let bytes = if json {
        json_of_report(alloc, report)?
    } else {
        let lines = lines_of_report(alloc, report)?;
        lines.into_bytes()
    };
    Ok(Checked {
        bytes,
        has_errors: !report.errors.is_empty(),
        has_warnings: !report.warnings.is_empty(),
    })
}

/// What is found in lines.
fn check_given(alloc: Global, lines: &GivenLines<'_>, json: bool) -> Result<Checked, AllocError> {
    let spelled = SpelledLines::of(alloc, lines)?;
    let used = used_by_sets(&spelled);
    let (definitions, rules) = rows_of(alloc, &spelled)?;
    let found = check_rule_rows(alloc, definitions, rules, used)?;
    let report = report_in_lines(alloc, spelled, found)?;
    shown(alloc, &report, json)
}

/// What is written of a file that has no lines of rules.
fn check_refused(
    alloc: Global,
    mistake: LineMistake<'_>,
    json: bool,
) -> Result<Checked, AllocError> {
    let mut errors = Vec::new(alloc);
    errors.push(mistake)?;
    let report = LineReport {
        errors,
        warnings: Vec::new(alloc),
    };
    shown(alloc, &report, json)
}

/// What is found in the rules that are given in lines, by options and in files. If a file has a line that is neither a rule nor a
/// definition, that is all.
pub(crate) fn check_lines<R: Files + AllocGlobal>(
    rt: &R,
    alloc: Global,
    given: &RuleLines<'_>,
    json: bool,
) -> Result<Checked, NoRules> {
    let files = rule_files(rt, alloc, given)?;
    match read_lines(alloc, &files, given) {
        Ok(lines) => Ok(check_given(alloc, &lines, json)?),
        Err(NoLines::Refused(mistake)) => Ok(check_refused(alloc, mistake, json)?),
        Err(NoLines::Memory) => Err(NoRules::from(AllocError)),
    }
}
