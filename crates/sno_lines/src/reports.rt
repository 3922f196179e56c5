//! What a check finds in rules, by their lines.

use crate::given_lines::Source;
use crate::line_faults::{LineMistake, in_lines, line_of};
use crate::spelled_lines::SpelledLines;
use sno_findings::{Mistake, Place, Report, Warning};
use std::alloc::{AllocError, Global};

/// What a line says, but probably doesn't mean.
#[derive(Debug, Drop)]
pub struct LineWarning<'l> {
    /// From where the line comes.
    pub source: Source<'l>,
    /// The definition or the rule.
    pub place: Place,
    /// What is strange there, and what to write instead.
    pub message: String,
}

/// What is found in lines of rules.
#[derive(Debug, Drop)]
pub struct LineReport<'l> {
    /// Why the lines are no rules: first the lines that can't be spelled, then the others.
    pub errors: Vec<LineMistake<'l>>,
    /// What is probably not meant, except in ready definitions.
    pub warnings: Vec<LineWarning<'l>>,
}

/// Whether the mistake is on a line that can't be spelled, for which there is one already.
fn is_known(lines: &SpelledLines<'_>, mistake: &Mistake) -> bool {
    match line_of(lines, mistake.place) {
        Some((_, broken)) => broken,
        None => false,
    }
}

/// The warning by its place in the lines; `None` if it isn't shown.
fn warning_in_lines<'l>(lines: &SpelledLines<'l>, warning: Warning) -> Option<LineWarning<'l>> {
    let Warning {
        place,
        line: _,
        message,
    } = warning;
    let (line, broken) = line_of(lines, place)?;
    if broken || line.ready {
        return None;
    }
    Some(LineWarning {
        source: line.source,
        place,
        message,
    })
}

/// The warnings by their places in the lines, without those of parts that are refused.
fn warnings_in_lines<'l>(
    alloc: Global,
    lines: &SpelledLines<'l>,
    found: Vec<Warning>,
    refused: &[Place],
) -> Result<Vec<LineWarning<'l>>, AllocError> {
    let mut warnings = Vec::new(alloc);
    for warning in found {
        if refused.contains(&warning.place) {
            continue;
        }
        if let Some(warning) = warning_in_lines(lines, warning) {
            warnings.push(warning)?;
        }
    }
    Ok(warnings)
}

/// What is found in lines of rules: what can't be spelled, and what the report of their rows has.
///
/// Refused only if memory runs out.
pub fn report_in_lines<'l>(
    alloc: Global,
    lines: SpelledLines<'l>,
    report: Report,
) -> Result<LineReport<'l>, AllocError> {
    let mut refused = Vec::new(alloc);
    let mut errors = Vec::new(alloc);
    for mistake in report.errors {
        refused.push(mistake.place)?;
        if !is_known(&lines, &mistake) {
            errors.push(in_lines(alloc, &lines, mistake)?)?;
        }
    }
    let warnings = warnings_in_lines(alloc, &lines, report.warnings, &refused)?;
    let mut all = lines.mistakes;
    all.append(&mut errors)?;
    Ok(LineReport {
        errors: all,
        warnings,
    })
}
