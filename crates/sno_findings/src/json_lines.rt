//! A report as JSON.

use crate::{Mistake, Report, Warning};
use json::Writer;
use std::alloc::{AllocError, Global};

/// The member with the line of a finding, if it is known.
fn write_line(writer: &mut Writer, line: Option<usize>) -> Result<(), AllocError> {
    if let Some(line) = line {
        writer.key("line")?;
        writer.u64(line as u64)?;
    }
    Ok(())
}

fn write_mistake(alloc: Global, writer: &mut Writer, mistake: &Mistake) -> Result<(), AllocError> {
    let fault = format!(in alloc; "{}", mistake.fault)?;
    writer.begin_object()?;
    writer.key("advice")?;
    writer.string(&mistake.advice)?;
    if let Some(excerpt) = &mistake.excerpt {
        writer.key("column")?;
        writer.u64(excerpt.column as u64)?;
        writer.key("excerpt")?;
        writer.string(&excerpt.shown)?;
    }
    writer.key("fault")?;
    writer.string(&fault)?;
    write_line(writer, mistake.line)?;
    writer.end_object()
}

fn write_warning(alloc: Global, writer: &mut Writer, warning: &Warning) -> Result<(), AllocError> {
    let place = format!(in alloc; "{}", warning.place)?;
    writer.begin_object()?;
    write_line(writer, warning.line)?;
    writer.key("message")?;
    writer.string(&warning.message)?;
    writer.key("place")?;
    writer.string(&place)?;
    writer.end_object()
}

fn write_mistakes(
    alloc: Global,
    writer: &mut Writer,
    mistakes: &[Mistake],
) -> Result<(), AllocError> {
    writer.begin_array()?;
    for mistake in mistakes {
        write_mistake(alloc, writer, mistake)?;
    }
    writer.end_array()
}

fn write_warnings(
    alloc: Global,
    writer: &mut Writer,
    warnings: &[Warning],
) -> Result<(), AllocError> {
    writer.begin_array()?;
    for warning in warnings {
        write_warning(alloc, writer, warning)?;
    }
    writer.end_array()
}

/// The report as one compact JSON text and a line feed: an object with the members `errors` and `warnings`, each an array
/// of objects, whose members come in the order of their names.
///
/// - An error has `advice`, `fault` and, if its place is shown, `excerpt` and `column`, which counts characters from 0.
/// - A warning has `message` and `place`.
/// - Either has `line`, if it is known on which line of the document its part begins.
///
/// Refused only if memory runs out.
pub fn json_of(alloc: Global, report: &Report) -> Result<Vec<u8>, AllocError> {
    let mut writer = Writer::new(Vec::new(alloc));
    writer.begin_object()?;
    writer.key("errors")?;
    write_mistakes(alloc, &mut writer, &report.errors)?;
    writer.key("warnings")?;
    write_warnings(alloc, &mut writer, &report.warnings)?;
    writer.end_object()?;
    let mut bytes = writer.into_inner();
    bytes.push(b'\n')?;
    Ok(bytes)
}
