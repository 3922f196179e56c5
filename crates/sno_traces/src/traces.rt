//! The trace of one statement, on the text that others leave.

use crate::NoTrace;
use crate::trace_lines::{Starts, TraceLines, lines_between, match_lines, pass_lines, round_lines};
use sno_book::SnapshotFault;
use sno_document::Document;
use sno_pattern::{Text, TextName};
use sno_statement::{Statement, StatementFault, perform_shared};
use std::alloc::{AllocError, Global};
use std::sync::Arc;

/// The cursors at which a match may begin, if not at each.
#[derive(Clone, Copy, Debug, PartialEq, Eq)]
pub struct Between {
    /// The first one. The end of the text is the last cursor that it may be.
    pub from: u32,
    /// The last one; the end of the text if it is beyond it.
    pub to: u32,
}

/// Which match of a statement is shown, and how much of it.
#[derive(Clone, Copy, Debug, PartialEq, Eq)]
pub struct Wanted {
    /// The number of the match, from 1.
    pub number: u32,
    /// If there are cursors, the first match at one of them is shown instead, as if the statement was performed once.
    pub between: Option<Between>,
    /// How many lines are shown at most.
    pub lines: u32,
}

/// The statement in one round, if it is repeated; otherwise as it is.
fn in_one_round(statement: Statement) -> Statement {
    match statement.repeat() {
        None => statement,
        Some(_) => statement.repeated(1),
    }
}

/// Refused with `NoMatch` if the statement can't have a match with this number, whatever its text.
fn check_number(statement: &Statement, number: u32) -> Result<(), NoTrace> {
    let most = statement.repeat().unwrap_or(1);
    if !statement.is_for_all() && number > most {
        return Err(NoTrace::NoMatch(most));
    }
    Ok(())
}

/// The lines of the first match at these cursors.
///
/// Refused with `NoCursor`; `TooDeep`; `Memory`.
fn lines_at(
    alloc: Global,
    statement: &Statement,
    text: Arc<Text>,
    between: Between,
    most: u32,
) -> Result<TraceLines, NoTrace> {
    let length = text.bytes().len();
    let from = between.from as usize;
    if from > length {
        return Err(NoTrace::NoCursor(length));
    }
    let starts = Starts {
        from,
        to: length.min(between.to as usize),
    };
    Ok(lines_between(alloc, statement, text, starts, most)?)
}

/// The lines of the match that is wanted, on this text.
fn lines_on(
    alloc: Global,
    statement: Arc<Statement>,
    text: Arc<Text>,
    wanted: Wanted,
) -> Result<TraceLines, NoTrace> {
    let earlier = wanted.number.saturating_sub(1);
    let most = wanted.lines;
    if let Some(between) = wanted.between {
        return lines_at(alloc, &statement, text, between, most);
    }
    if statement.is_for_all() {
        return Ok(pass_lines(alloc, &statement, text, earlier, most)?);
    }
    if statement.repeat().is_none() {
        return Ok(match_lines(alloc, &statement, text, most)?);
    }
    // No one else has a statement of the document that wasn't performed.
    let Ok(statement) = Arc::try_unwrap(statement) else {
        return Err(NoTrace::Memory);
    };
    let once = in_one_round(statement);
    Ok(round_lines(alloc, &once, text, earlier, most)?)
}

/// The text that a statement leaves of this one. If it fails or is refused, it is this one.
fn text_after(
    alloc: Global,
    statement: &Statement,
    text: Arc<Text>,
) -> Result<Arc<Text>, AllocError> {
    let outcome = match perform_shared(alloc, statement, &text) {
        Ok(outcome) => outcome,
        Err(StatementFault::Memory) => return Err(AllocError),
        Err(StatementFault::TextTooLong) | Err(StatementFault::TooManyTrials) => return Ok(text),
    };
    match outcome.after() {
        Some(after) => Arc::try_clone(after),
        None => Ok(text),
    }
}

/// The text with this name as the statements leave it, one after the other. Those on other texts are not performed, as they do
/// nothing to it.
fn text_before(
    alloc: Global,
    earlier: &[Arc<Statement>],
    name: &TextName,
    text: Arc<Text>,
) -> Result<Arc<Text>, AllocError> {
    let mut text = text;
    for statement in earlier {
        if statement.text() == name {
            text = text_after(alloc, statement, text)?;
        }
    }
    Ok(text)
}

/// Takes the statement with this number, from 1, out of its list, and leaves only those before it there.
///
/// Refused with `NoStatement`.
pub fn take_statement(
    statements: &mut Vec<Arc<Statement>>,
    number: u32,
) -> Result<Arc<Statement>, NoTrace> {
    statements.truncate(number as usize);
    if statements.len() < number as usize {
        return Err(NoTrace::NoStatement);
    }
    statements.pop().ok_or(NoTrace::NoStatement)
}

/// Shows a match of the document's statement with this number, from 1, on the text as the statements before it leave it. `None` if
/// that text isn't there.
///
/// Refused with `NoStatement`; `NoMatch` if the statement can't have such a match, whatever its text; `NoCursor` if the cursors begin
/// past the end of the text; `TooDeep`; `Memory`.
pub fn trace_of_document(
    alloc: Global,
    document: Document,
    number: u32,
    wanted: Wanted,
) -> Result<Option<TraceLines>, NoTrace> {
    let Document {
        book,
        mut statements,
        ..
    } = document;
    let statement = take_statement(&mut statements, number)?;
    check_number(&statement, wanted.number)?;
    match book.snapshot(statement.text()) {
        Ok(snapshot) => {
            let text = Arc::try_clone(&snapshot.text)?;
            let text = text_before(alloc, &statements, statement.text(), text)?;
            Ok(Some(lines_on(alloc, statement, text, wanted)?))
        }
        Err(SnapshotFault::NoText) => Ok(None),
        Err(SnapshotFault::Memory) => Err(NoTrace::Memory),
    }
}

/// Shows a match of a statement on this text as the earlier statements leave it.
///
/// Refused with `NoMatch` if the statement can't have such a match, whatever its text; `NoCursor` if the cursors begin past the end of
/// the text; `TooDeep`; `Memory`.
pub fn trace_on_text(
    alloc: Global,
    earlier: &[Arc<Statement>],
    statement: Arc<Statement>,
    text: Text,
    wanted: Wanted,
) -> Result<TraceLines, NoTrace> {
    check_number(&statement, wanted.number)?;
    let mut text = Arc::new(alloc, text)?;
    for before in earlier {
        text = text_after(alloc, before, text)?;
    }
    lines_on(alloc, statement, text, wanted)
}
