//! A report on lines of rules, in lines.

use crate::given_lines::Source;
use crate::line_faults::LineMistake;
use crate::reports::{LineReport, LineWarning};
use sno_findings::{put_pointed, put_source};
use std::alloc::{AllocError, Global};

fn put_source_of(out: &mut String, source: &Source<'_>) -> Result<(), AllocError> {
    match source {
        Source::Option => Ok(()),
        Source::File(path, number) => put_source(out, Some(*path), Some(*number)),
        Source::Whole(path) => put_source(out, Some(*path), None),
    }
}

fn put_mistake(out: &mut String, mistake: &LineMistake<'_>) -> Result<(), AllocError> {
    put_source_of(out, &mistake.source)?;
    writeln!(out, "{}", mistake.fault)?;
    match &mistake.excerpt {
        Some(excerpt) => put_pointed(out, excerpt, &mistake.advice),
        None if mistake.advice.is_empty() => Ok(()),
        None => writeln!(out, "    {}", mistake.advice),
    }
}

fn put_warning(out: &mut String, warning: &LineWarning<'_>) -> Result<(), AllocError> {
    put_source_of(out, &warning.source)?;
    writeln!(out, "{}: warning: {}", warning.place, warning.message)
}

/// A mistake in lines: in a file its path and the line in it, then the fault, the characters around its place if it has one, and
/// what to write instead. Refused only if memory runs out.
pub fn lines_of_mistake(alloc: Global, mistake: &LineMistake<'_>) -> Result<String, AllocError> {
    let mut out = String::new(alloc);
    put_mistake(&mut out, mistake)?;
    Ok(out)
}

/// The report in lines; no line if nothing was found. Each error is written as [`lines_of_mistake`] does, and a warning is one line.
///
/// Refused only if memory runs out.
pub fn lines_of_report(alloc: Global, report: &LineReport<'_>) -> Result<String, AllocError> {
    let mut out = String::new(alloc);
    for mistake in &report.errors {
        put_mistake(&mut out, mistake)?;
    }
    for warning in &report.warnings {
        put_warning(&mut out, warning)?;
    }
    Ok(out)
}
