//! A report on lines of rules, as JSON.

use crate::given_lines::Source;
use crate::line_faults::LineMistake;
use crate::reports::{LineReport, LineWarning};
use json::Writer;
use std::alloc::{AllocError, Global};

/// The member with the line in a file.
fn write_line(writer: &mut Writer, source: &Source<'_>) -> Result<(), AllocError> {
    if let Source::File(_, number) = source {
        writer.key("line")?;
        writer.u64(*number as u64)?;
    }
    Ok(())
}

/// The member with the path of the file.
fn write_path(writer: &mut Writer, source: &Source<'_>) -> Result<(), AllocError> {
    if let Source::File(path, _) | Source::Whole(path) = source {
        writer.key("path")?;
        writer.string(path)?;
    }
    Ok(())
}

fn write_mistake(writer: &mut Writer, mistake: &LineMistake<'_>) -> Result<(), AllocError> {
    writer.begin_object()?;
    writer.key("advice")?;
    writer.string(&mistake.advice)?;
    if let Some(excerpt) = &mistake.excerpt {
        writer.key("column")?;
        writer.u64(excerpt.column as u64)?;
        writer.key("excerpt")?;
        writer.string(&excerpt.shown)?;
    }
    writer.key("fault")?;
    writer.string(&mistake.fault)?;
    write_line(writer, &mistake.source)?;
    write_path(writer, &mistake.source)?;
    writer.end_object()
}

fn write_warning(
    alloc: Global,
    writer: &mut Writer,
    warning: &LineWarning<'_>,
) -> Result<(), AllocError> {
    let place = format!(in alloc; "{}", warning.place)?;
    writer.begin_object()?;
    write_line(writer, &warning.source)?;
    writer.key("message")?;
    writer.string(&warning.message)?;
    write_path(writer, &warning.source)?;
    writer.key("place")?;
    writer.string(&place)?;
    writer.end_object()
}

fn write_mistakes(writer: &mut Writer, mistakes: &[LineMistake<'_>]) -> Result<(), AllocError> {
    writer.begin_array()?;
    for mistake in mistakes {
        write_mistake(writer, mistake)?;
    }
    writer.end_array()
}

fn write_warnings(
    alloc: Global,
    writer: &mut Writer,
    warnings: &[LineWarning<'_>],
) -> Result<(), AllocError> {
    writer.begin_array()?;
    for warning in warnings {
        write_warning(alloc, writer, warning)?;
    }
    writer.end_array()
}

/// The report as one compact JSON text and a line feed: an object with the members `errors` and `warnings`, as for a document. Each
/// has the members `path` and `line` too, if it is on a line of a file.
///
/// Refused only if memory runs out.
pub fn json_of_report(alloc: Global, report: &LineReport<'_>) -> Result<Vec<u8>, AllocError> {
    let mut writer = Writer::new(Vec::new(alloc));
    writer.begin_object()?;
    writer.key("errors")?;
    write_mistakes(&mut writer, &report.errors)?;
    writer.key("warnings")?;
    write_warnings(alloc, &mut writer, &report.warnings)?;
    writer.end_object()?;
    let mut bytes = writer.into_inner();
    bytes.push(b'\n')?;
    Ok(bytes)
}
