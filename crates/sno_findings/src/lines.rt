//! A report in lines.

use crate::{Excerpt, Mistake, Report, Warning};
use std::alloc::{AllocError, Global};

fn put_blanks(out: &mut String, count: usize) -> Result<(), AllocError> {
    for _ in 0..count {
        out.push(' ')?;
    }
    Ok(())
}

/// Adds the characters around a place in a line, and below the place, marked by `^`, what is wanted there. Refused only if memory
/// runs out.
pub fn put_pointed(out: &mut String, excerpt: &Excerpt, wanted: &str) -> Result<(), AllocError> {
    writeln!(out, "    {}", excerpt.shown)?;
    put_blanks(out, excerpt.column.saturating_add(4))?;
    writeln!(out, "^ {wanted}")
}

/// Adds an error: the line that `sno_rewrite` writes, and what to write instead. Refused only if memory runs out.
pub fn put_mistake(out: &mut String, mistake: &Mistake) -> Result<(), AllocError> {
    writeln!(out, "{}", mistake.fault)?;
    match &mistake.excerpt {
        Some(excerpt) => put_pointed(out, excerpt, &mistake.advice),
        None => writeln!(out, "    {}", mistake.advice),
    }
}

/// Adds the file with this path, if there is one, and the line in it, if it is known. Refused only if memory runs out.
pub fn put_source(
    out: &mut String,
    path: Option<&str>,
    line: Option<usize>,
) -> Result<(), AllocError> {
    match (path, line) {
        (None, _) => Ok(()),
        (Some(path), None) => write!(out, "{path}: "),
        (Some(path), Some(line)) => write!(out, "{path}:{line}: "),
    }
}

fn put_warning(out: &mut String, warning: &Warning) -> Result<(), AllocError> {
    writeln!(out, "{}: warning: {}", warning.place, warning.message)?;
    Ok(())
}

fn put_mistakes(
    out: &mut String,
    path: Option<&str>,
    mistakes: &[Mistake],
) -> Result<(), AllocError> {
    for mistake in mistakes {
        put_source(out, path, mistake.line)?;
        put_mistake(out, mistake)?;
    }
    Ok(())
}

fn put_warnings(
    out: &mut String,
    path: Option<&str>,
    warnings: &[Warning],
) -> Result<(), AllocError> {
    for warning in warnings {
        put_source(out, path, warning.line)?;
        put_warning(out, warning)?;
    }
    Ok(())
}

/// The report in lines; no line if nothing was found. An error is the line that `sno_rewrite` writes, then the characters
/// around its place if it has one, and under the place, marked by `^`, what to write instead. A warning is one line. If the
/// document is the file with this path, each finding begins with it, and with the line on which its part begins, if that is known.
///
/// Refused only if memory runs out.
pub fn lines_of(alloc: Global, report: &Report, path: Option<&str>) -> Result<String, AllocError> {
    let mut out = String::new(alloc);
    put_mistakes(&mut out, path, &report.errors)?;
    put_warnings(&mut out, path, &report.warnings)?;
    Ok(out)
}
