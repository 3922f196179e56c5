//! Books and statements for the tests.
ghost use Rattle.std.specs.Prelude.{◌≡◌, [], IfOk, IsSome};
ghost use Rattle.sno_book.specs.Books.{view_of};
ghost use Rattle.sno_book.specs.Views.{IsPrefix};

use crate::call_ends::{check_bytes, check_eq};
use sno_book::{Book, Proposal, Text, TextName, propose};
use sno_pattern::{Names, Pattern, Rules};
use sno_read::{read_object, read_pattern};
use sno_statement::{Datum, Outcome, Statement};
use std::alloc::Global;
use std::process::Abort;
use std::sync::Arc;
use std::test::Fail;

/// A text with its name.
fn row(alloc: Global, name: &str, text: &str) -> Result<(TextName, Text), Fail> {
    let characters = Vec::from_slice(alloc, text.as_bytes())?;
    Ok((
        TextName::new(alloc, name.as_bytes())?,
        Text::new(characters)?,
    ))
}

/// Texts, each with its name.
pub(crate) fn rows(alloc: Global, texts: &[(&str, &str)]) -> Result<Vec<(TextName, Text)>, Fail> {
    let mut rows = Vec::new(alloc);
    for (name, text) in texts {
        rows.push(row(alloc, name, text)?)?;
    }
    Ok(rows)
}

/// A book of these texts, each with its name.
pub(crate) fn book(alloc: Global, texts: &[(&str, &str)]) -> Result<Book, Fail>
    ensures { IfOk result (λ b. b.journal ≡ []) }
{
    let book = Book::new(alloc, rows(alloc, texts)?, 1_000_000)?;
    Ok(book)
}

/// The pattern as it is written, in a box: each place at which a function can end while it holds a pattern takes its proof seconds.
pub(crate) fn pattern(
    alloc: Global,
    rules: &Rules,
    earlier: usize,
    pattern: &[u8],
) -> Result<Box<Pattern>, Fail> {
    Ok(Box::new(alloc, read_pattern(alloc, rules.names(), earlier, pattern)?)?)
}

/// No definitions.
pub(crate) fn rules(alloc: Global) -> Result<Arc<Rules>, Fail> {
    let rules = Rules::admit(alloc, Names::new(alloc, &[])?, Vec::new(alloc))?;
    Ok(Arc::new(alloc, rules)?)
}

/// A statement that replaces what the pattern matches in the text by the object.
fn replacing(
    rt: &impl Abort,
    alloc: Global,
    text: &str,
    written: &str,
    object: &str,
) -> Result<Statement, Fail>
    ensures { IfOk result (λ s. IsSome s.object) }
{
    let text = TextName::new(alloc, text.as_bytes())?;
    let rules = rules(alloc)?;
    let object = read_object(alloc, rules.names(), object.as_bytes())?;
    let pattern = pattern(alloc, &rules, 0, written.as_bytes())?;
    assert!(rt; rules.covers(&pattern));
    Ok(Statement::new(
        1,
        rules,
        Box::into_inner(pattern),
        Some(object),
        text,
        false,
    ))
}

/// That statement, to be shared.
pub(crate) fn statement(
    rt: &impl Abort,
    alloc: Global,
    text: &str,
    pattern: &str,
    object: &str,
) -> Result<Arc<Statement>, Fail> {
    Ok(Arc::new(alloc, replacing(rt, alloc, text, pattern, object)?)?)
}

/// Each key and its value change places, for all matches.
pub(crate) fn exchange_all(rt: &impl Abort, alloc: Global) -> Result<Statement, Fail> {
    let pattern = "BREAK('=') . K '=' BREAK(';') . V ';'";
    Ok(replacing(rt, alloc, "T", pattern, "V '=' K ';'")?.for_all())
}

/// A key and its value, as they are.
const PAIR: &str = "BREAK('=') . K '=' REM . V";

/// A key and its value change places, twice.
pub(crate) fn exchange_twice(rt: &impl Abort, alloc: Global) -> Result<Statement, Fail> {
    Ok(replacing(rt, alloc, "T", PAIR, "V '=' K")?.repeated(2))
}

/// A key and its value change places.
pub(crate) fn exchange(rt: &impl Abort, alloc: Global) -> Result<Arc<Statement>, Fail> {
    statement(rt, alloc, "T", PAIR, "V '=' K")
}

/// The statement on its text as it is now.
pub(crate) fn proposal(alloc: Global, book: &Book, job: &Arc<Statement>) -> Result<Proposal, Fail>
    ensures { IfOk result (λ p. IsPrefix p.origin (view_of book.now)) }
{
    let snapshot = book.snapshot(job.text())?;
    let proposal = propose(alloc, Arc::try_clone(job)?, snapshot)?;
    Ok(proposal)
}

/// A book of the text `k=v`, and `exchange` on it.
pub(crate) fn proposed(rt: &impl Abort, alloc: Global) -> Result<(Book, Proposal), Fail>
    ensures { IfOk result (λ p. IsPrefix p.1.origin (view_of p.0)) }
{
    let job = exchange(rt, alloc)?;
    let book = book(alloc, &[("T", "k=v")])?;
    let proposal = proposal(alloc, &book, &job)?;
    Ok((book, proposal))
}

fn check_string(rt: &impl Abort, datum: Option<&Datum>, wanted: &[u8]) {
    match datum {
        Some(Datum::Str(text)) => check_bytes(rt, text.bytes(), wanted),
        Some(Datum::Int(_)) | None => assert!(rt; false, "no string"),
    }
}

/// That this is what the statement, `exchange` or `exchange_all`, does to its text.
pub(crate) fn check_performed(rt: &impl Abort, statement: &Statement, outcome: &Outcome) {
    if statement.is_for_all() {
        check_exchange_all(rt, outcome);
    } else {
        check_exchange(rt, outcome);
    }
}

/// That this is what `exchange` does to `k=v`.
pub(crate) fn check_exchange(rt: &impl Abort, outcome: &Outcome) {
    match outcome {
        Outcome::Matched {
            start,
            end,
            bindings,
            after,
        } => {
            check_eq(rt, &(*start, *end, bindings.len()), &(0, 3, 2));
            check_string(rt, bindings.get(0).map(|b| b.1), b"k".as_slice());
            check_string(rt, bindings.get(1).map(|b| b.1), b"v".as_slice());
            let after = after.as_ref().expect(rt, "there is a new text");
            check_bytes(rt, after.bytes(), b"v=k".as_slice());
        }
        Outcome::Failed { .. } | Outcome::Repeated { .. } | Outcome::All { .. } => {
            assert!(rt; false, "no match")
        }
    }
}

/// That this is what `exchange_all` does to `k=v;m=n;`.
fn check_exchange_all(rt: &impl Abort, outcome: &Outcome) {
    match outcome {
        Outcome::All { matches, after } => {
            check_eq(rt, &matches.len(), &2);
            let after = after.as_ref().expect(rt, "there is a new text");
            check_bytes(rt, after.bytes(), b"v=k;n=m;".as_slice());
        }
        Outcome::Matched { .. } | Outcome::Failed { .. } | Outcome::Repeated { .. } => {
            assert!(rt; false, "not for all matches")
        }
    }
}

/// Compares the book's first text and its version, and how many entries there are.
pub(crate) fn check_book(rt: &impl Abort, book: &Book, text: &[u8], version: u64, entries: usize) {
    let (_, characters, at) = book.text(0).expect(rt, "there is a text");
    check_bytes(rt, characters.bytes(), text);
    check_eq(rt, &at, &version);
    check_eq(rt, &book.journal().len(), &entries);
}
