//! What is compared for each kind of example.
use crate::beside::{check_beside, check_rewriting};
use crate::example::{Quoted, cut, definitions, row};
use crate::row::{
    Definition, Heading, Refused, Row, admit, limited, names_of, performance_line, refusal_line,
    statement, text_of,
};
use crate::steps::check_equal;
use crate::trees::tree;
use sno_pattern::{Names, Rules, Text, TextName};
use sno_read::read_pattern;
use sno_statement::Statement;
use std::alloc::Global;
use std::sync::Arc;
use std::test::Fail;

/// Checks that the definitions are admitted, or refused as the line says.
fn check_definitions(
    alloc: Global,
    written: &[Definition<'_>],
    expected: &str,
) -> Result<(), Fail> {
    match admit(alloc, written)? {
        Ok(_) => check_equal("admitted", expected),
        Err(refused) => check_equal(refusal_line(alloc, &refused)?.as_str(), expected),
    }
}

/// The tree of the pattern that is written.
fn tree_line(alloc: Global, names: &Names, pattern: &str) -> Result<String, Fail> {
    let pattern = read_pattern(alloc, names, names.len(), pattern.as_bytes())?;
    tree(alloc, names, &pattern)
}

/// Checks that the pattern is read as this tree.
fn check_tree(
    alloc: Global,
    written: &[Definition<'_>],
    pattern: &str,
    expected: &str,
) -> Result<(), Fail> {
    let names = names_of(alloc, written)?;
    check_equal(tree_line(alloc, &names, pattern)?.as_str(), expected)
}

/// Checks that the outcome of the statement on the text is this line.
fn check_performance(
    alloc: Global,
    statement: &Statement,
    text: &Text,
    expected: &str,
) -> Result<(), Fail> {
    let line = performance_line(alloc, statement, text)?;
    check_equal(line.as_str(), expected)
}

/// Checks that the outcome of the statement within this limit is the line. Returns the statement.
fn check_limited(
    alloc: Global,
    statement: Box<Statement>,
    text: &Text,
    limit: u32,
    expected: &str,
) -> Result<Box<Statement>, Fail> {
    let limited = limited(alloc, statement, limit)?;
    check_performance(alloc, &limited, text, expected)?;
    Ok(limited)
}

/// Checks that the outcome of the statement within this many trials is the line, and that one trial less refuses it. A
/// limit of no trials is not tried: no statement has it.
fn check_trials(
    alloc: Global,
    statement: Box<Statement>,
    text: &Text,
    trials: u32,
    expected: &str,
) -> Result<(), Fail> {
    let statement = check_limited(alloc, statement, text, trials, expected)?;
    if 1 < trials {
        check_limited(alloc, statement, text, trials - 1, "too many trials")?;
    }
    Ok(())
}

/// Checks that the outcome of the statement on the text is what the row says. The plain evaluator is left out if the
/// text is written more than once, or the match takes too many trials: it would take too long.
fn check_unlimited(
    alloc: Global,
    statement: &Statement,
    text: &Text,
    row: &Row<'_>,
) -> Result<(), Fail> {
    check_performance(alloc, statement, text, row.outcome)?;
    if row.times == 1 && row.outcome != "too many trials" {
        check_beside(alloc, statement, text, row.trials)?;
    }
    Ok(())
}

/// Checks that too, and how many trials it takes if the row says so.
fn check_on(
    alloc: Global,
    statement: Box<Statement>,
    text: &Text,
    row: &Row<'_>,
) -> Result<(), Fail> {
    check_unlimited(alloc, &statement, text, row)?;
    match row.trials {
        None => Ok(()),
        Some(trials) => check_trials(alloc, statement, text, trials, row.outcome),
    }
}

/// Checks the outcome on the text that the row has.
fn check_statement(alloc: Global, statement: Box<Statement>, row: &Row<'_>) -> Result<(), Fail> {
    let text = text_of(alloc, row.text, row.times)?;
    check_on(alloc, statement, &text, row)
}

/// The statement of the row, or why it could not be made.
fn row_statement(
    alloc: Global,
    rules: Arc<Rules>,
    row: &Row<'_>,
) -> Result<Result<Box<Statement>, Refused>, Fail> {
    let heading = Heading {
        number: 1,
        text: TextName::new(alloc, b"T".as_slice())?,
        task: row.task,
    };
    statement(alloc, rules, heading)
}

/// Checks that the refusal is the one that the row says.
fn check_refused(alloc: Global, refused: &Refused, row: &Row<'_>) -> Result<(), Fail> {
    check_equal(refusal_line(alloc, refused)?.as_str(), row.outcome)
}

/// Checks that with these definitions the outcome of the row's statement is what the row says.
fn check_admitted(alloc: Global, rules: Arc<Rules>, row: &Row<'_>) -> Result<(), Fail> {
    match row_statement(alloc, rules, row)? {
        Ok(statement) => check_statement(alloc, statement, row),
        Err(refused) => check_refused(alloc, &refused, row),
    }
}

fn check_statement_rewritten(
    alloc: Global,
    statement: Box<Statement>,
    row: &Row<'_>,
) -> Result<(), Fail> {
    let text = text_of(alloc, row.text, row.times)?;
    check_rewriting(alloc, statement, &text)
}

fn check_rewritten(alloc: Global, rules: Arc<Rules>, row: &Row<'_>) -> Result<(), Fail> {
    match row_statement(alloc, rules, row)? {
        Ok(statement) => check_statement_rewritten(alloc, statement, row),
        Err(_) => Ok(()),
    }
}

/// Checks that the row's statement leaves of the text, as a file, what it leaves of it as a text. It is left out as the plain
/// evaluator is.
fn check_as_file(alloc: Global, written: &[Definition<'_>], row: &Row<'_>) -> Result<(), Fail> {
    if row.times != 1 || row.outcome == "too many trials" {
        return Ok(());
    }
    match admit(alloc, written)? {
        Ok(rules) => check_rewritten(alloc, rules, row),
        Err(_) => Ok(()),
    }
}

fn check_as_text(alloc: Global, written: &[Definition<'_>], row: &Row<'_>) -> Result<(), Fail> {
    match admit(alloc, written)? {
        Ok(rules) => check_admitted(alloc, rules, row),
        Err(refused) => check_refused(alloc, &refused, row),
    }
}

fn check_row(alloc: Global, written: &[Definition<'_>], row: &Row<'_>) -> Result<(), Fail> {
    check_as_text(alloc, written, row)?;
    check_as_file(alloc, written, row)
}

/// Checks the example with these definitions, from the piece after them on.
fn check_example(alloc: Global, written: &[Definition<'_>], next: Quoted<'_>) -> Result<(), Fail> {
    if next.after.is_empty() {
        return check_definitions(alloc, written, next.inside);
    }
    let second = cut(next.after)?;
    if second.before == " is read as " {
        check_tree(alloc, written, next.inside, second.inside)
    } else {
        check_row(alloc, written, &row(next, second)?)
    }
}

/// Checks the example of this line.
pub(crate) fn check_line(alloc: Global, line: &str) -> Result<(), Fail> {
    let (written, next) = definitions(alloc, line)?;
    check_example(alloc, &written, next)
}
