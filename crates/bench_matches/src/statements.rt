//! The line of each statement.
ghost use Rattle.std.specs.Prelude.{◌≤◌, IfSome};

use crate::effects::{Effect, effect_of_performing};
use crate::faults::Fault;
use crate::timing::time;
use sno_book::{Book, SnapshotFault};
use sno_pattern::Text;
use sno_statement::Statement;
use std::alloc::Global;
use std::io;
use std::rt::Clock;
use std::sync::Arc;

/// The text of the statement as the book has it; `None` if there is no text with that name.
fn text_of(book: &Book, statement: &Statement) -> Result<Option<Arc<Text>>, Fault> {
    match book.snapshot(statement.text()) {
        Ok(snapshot) => Ok(Some(snapshot.text)),
        Err(SnapshotFault::NoText) => Ok(None),
        Err(SnapshotFault::Memory) => Err(Fault::Memory),
    }
}

/// The result of printing a line, as a fault of the program if it failed.
fn result_of_printing(printed: io::Result<()>) -> Result<(), Fault> {
    match printed {
        Ok(()) => Ok(()),
        Err(_) => Err(Fault::Write),
    }
}

/// Prints the line of the statement on the text of its name as the book has it. The line says what the statement does. If it is
/// to be done `times` times in a run and is not refused, the line says how long that takes.
///
/// Refused: `Memory`, the faults of timing, and `Write` if the line can't be printed.
pub fn print_statement<R: Print + Clock>(
    rt: &R,
    alloc: Global,
    book: &Book,
    statement: &Statement,
    times: Option<u32>,
) -> Result<(), Fault>
    requires { IfSome times (λ n. 1 ≤ n) }
{
    let number = statement.number();
    let Some(text) = text_of(book, statement)? else {
        return result_of_printing(println!(rt; "statement {number} no text"));
    };
    let effect = effect_of_performing(alloc, statement, &text)?;
    match (times, effect) {
        (None, _) | (_, Effect::Refused(_)) => {
            result_of_printing(println!(rt; "statement {number} {effect}"))
        }
        (Some(times), _) => {
            let times = time(rt, alloc, statement, &text, effect, times)?;
            result_of_printing(println!(rt; "statement {number} {times}"))
        }
    }
}
