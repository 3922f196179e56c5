//! How a step is read. A step is taken on a book.
//!
//! - ``+ a book with room for 9 entries: `T` is `a`, `U` is 65000 times `b` ``: another book.
//! - ``+ 1 kept on `A`: `T` with `'a'`, replaced by `'b'`: `version 0, matched 0 1 -> |b|` ``: statement 1 is for `T`.
//!   It is proposed on the current text `A`, and the proposal is kept for later.
//! - ``+ 2 done: `T` with `'b'`: `0: version 0, failed` ``: statement 2 is proposed on its own current text, prepared
//!   and accepted.
//! - ``+ the kept one taken back: `full` `` or ``+ the kept one: `full` ``: the proposal is prepared and taken back, or
//!   accepted.
//! - ``+ texts: ``, ``+ opening: ``, ``+ memory for one more: `` and ``+ audits: ``: what is read from the book.
use crate::example::{Quoted, cut, number, row};
use crate::shelf::{Job, NamedText, Shelf};
use std::alloc::Global;
use std::test::Fail;

/// The text, and what comes after it.
fn named_text(name: Quoted<'_>) -> Result<(NamedText<'_>, &str), Fail> {
    let characters = cut(name.after)?;
    let times = match characters.before {
        " is " => 1,
        words => number(words, " is ", " times ")?,
    };
    Ok(((name.inside, characters.inside, times), characters.after))
}

/// The one or two texts that the line names.
fn named_texts(alloc: Global, line: &str) -> Result<Vec<NamedText<'_>>, Fail> {
    let (first, rest) = named_text(cut(line)?)?;
    if rest.is_empty() {
        return Ok(vec![in alloc; first]?);
    }
    let (second, _) = named_text(cut(rest)?)?;
    Ok(vec![in alloc; first, second]?)
}

/// The statement of this number on the text of this name, read from the piece that names its own text on.
fn job<'l>(number: u32, on: &'l str, text: Quoted<'l>) -> Result<Job<'l>, Fail> {
    let row = row(text, cut(text.after)?)?;
    Ok(Job { number, on, row })
}

/// Checks that the line is the one that was expected.
pub(crate) fn check_equal(found: &str, expected: &str) -> Result<(), Fail> {
    if found == expected {
        Ok(())
    } else {
        Err(Fail::new(format_args!("it is {found}, and not {expected}")))
    }
}

/// Takes the step that proposes a statement, prepares it and accepts it, and compares the result.
fn take_done(alloc: Global, shelf: &mut Shelf, first: Quoted<'_>) -> Result<(), Fail> {
    let number = number(first.before, "+ ", " done: ")?;
    let job = job(number, first.inside, first)?;
    check_equal(&shelf.perform(alloc, &job)?, job.row.outcome)
}

/// Takes the step that proposes a statement for later, and compares the result.
fn take_kept(alloc: Global, shelf: &mut Shelf, first: Quoted<'_>) -> Result<(), Fail> {
    let number = number(first.before, "+ ", " kept on ")?;
    let job = job(number, first.inside, cut(first.after)?)?;
    check_equal(&shelf.keep(alloc, &job)?, job.row.outcome)
}

/// The result of the step that these words name.
fn line_of(alloc: Global, shelf: &mut Shelf, words: &str) -> Result<String, Fail> {
    match words {
        "+ the kept one: " => shelf.commit(alloc),
        "+ the kept one taken back: " => shelf.take_back(alloc),
        "+ texts: " => shelf.texts_line(alloc),
        "+ memory for one more: " => shelf.spare_line(alloc),
        "+ opening: " => shelf.opening_line(alloc),
        "+ audits: " => shelf.audit_line(alloc),
        _ => Err("no step".into()),
    }
}

/// Takes the step that begins with this piece, and compares the result.
fn take(alloc: Global, shelf: &mut Shelf, first: Quoted<'_>) -> Result<(), Fail> {
    if first.before.ends_with(" done: ") {
        take_done(alloc, shelf, first)
    } else if first.before.ends_with(" kept on ") {
        take_kept(alloc, shelf, first)
    } else {
        check_equal(&line_of(alloc, shelf, first.before)?, first.inside)
    }
}

/// Opens another book, with the texts that the line names after these words.
fn open(alloc: Global, shelf: &mut Shelf, words: &str, texts: &str) -> Result<(), Fail> {
    let room = number(words, "+ a book with room for ", "")?;
    shelf.open(alloc, &named_texts(alloc, texts)?, room)
}

/// Takes the step of this line, and compares the result.
pub(crate) fn take_step(alloc: Global, shelf: &mut Shelf, line: &str) -> Result<(), Fail> {
    match line.split_once(" entries: ") {
        Some((words, texts)) => open(alloc, shelf, words, texts),
        None => take(alloc, shelf, cut(line)?),
    }
}
