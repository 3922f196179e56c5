//! Books and statements for the tests.
ghost use Rattle.std.specs.Prelude.{◌≡◌, ◌≤◌, [], IfOk};
ghost use Rattle.sno_book.specs.declared.openings.TheConstants.{MAX_ENTRIES};

use sno_book::Book;
use sno_pattern::{Names, Rules, Text, TextName};
use sno_read::{Object, read_object, read_pattern};
use sno_statement::Statement;
use std::alloc::Global;
use std::process::Abort;
use std::sync::Arc;
use std::test::Fail;

/// No definitions.
fn rules(rt: &impl Abort, alloc: Global) -> Result<Arc<Rules>, Fail> {
    let names = Names::new(alloc, &[])?;
    let bodies = Vec::new(alloc);
    assert!(rt; names.len() == bodies.len());
    Ok(Arc::new(alloc, Rules::admit(alloc, names, bodies)?)?)
}

/// The object that is written, if one is.
fn object_of(alloc: Global, rules: &Rules, object: Option<&str>) -> Result<Option<Object>, Fail> {
    match object {
        None => Ok(None),
        Some(object) => Ok(Some(read_object(alloc, rules.names(), object.as_bytes())?)),
    }
}

/// The statement that is written.
fn written(
    rt: &impl Abort,
    alloc: Global,
    number: u32,
    text: &str,
    pattern: &str,
    object: Option<&str>,
) -> Result<Arc<Statement>, Fail> {
    let rules = rules(rt, alloc)?;
    let text = TextName::new(alloc, text.as_bytes())?;
    let object = object_of(alloc, &rules, object)?;
    let pattern = read_pattern(alloc, rules.names(), 0, pattern.as_bytes())?;
    assert!(rt; rules.covers(&pattern));
    let statement = Statement::new(number, rules, pattern, object, text, false);
    Ok(Arc::new(alloc, statement)?)
}

/// A statement that replaces what the pattern matches in the text by the object.
pub(crate) fn statement(
    rt: &impl Abort,
    alloc: Global,
    number: u32,
    text: &str,
    pattern: &str,
    object: &str,
) -> Result<Arc<Statement>, Fail> {
    written(rt, alloc, number, text, pattern, Some(object))
}

/// A statement that only matches.
pub(crate) fn matching(
    rt: &impl Abort,
    alloc: Global,
    number: u32,
    text: &str,
    pattern: &str,
) -> Result<Arc<Statement>, Fail> {
    written(rt, alloc, number, text, pattern, None)
}

/// How a statement is written: its number, its text, its pattern, and its object if it has one.
pub(crate) type Row = (u32, &'static str, &'static str, Option<&'static str>);

/// The statement of a row.
pub(crate) fn of_row(rt: &impl Abort, alloc: Global, row: &Row) -> Result<Arc<Statement>, Fail> {
    written(rt, alloc, row.0, row.1, row.2, row.3)
}

/// The statements of these rows.
pub(crate) fn statements(
    rt: &impl Abort,
    alloc: Global,
    rows: &[Row],
) -> Result<Vec<Arc<Statement>>, Fail> {
    let mut jobs = Vec::new(alloc);
    for row in rows {
        jobs.push(of_row(rt, alloc, row)?)?;
    }
    Ok(jobs)
}

/// A book of these texts, each with its name, and room for this many entries.
pub(crate) fn book(alloc: Global, texts: &[(&str, &[u8])], room: u32) -> Result<Book, Fail>
    requires { room ≤ MAX_ENTRIES }
    ensures { IfOk result (λ b. b.journal ≡ []) }
{
    let mut rows = Vec::new(alloc);
    for (name, text) in texts {
        let text = Text::new(Vec::from_slice(alloc, text)?)?;
        rows.push((TextName::new(alloc, name.as_bytes())?, text))?;
    }
    let book = Book::new(alloc, rows, room)?;
    Ok(book)
}
