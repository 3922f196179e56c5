//! Books that are held.
ghost use Rattle.std.specs.Prelude.{◌≡◌, ◌≤◌, ◌⊎◌, IfErr, IfOk, None, Some, drop, length};
ghost use Rattle.std.specs.Option.{option_copied};
ghost use Rattle.sno_statement.specs.Statement.{IsLimit};
ghost use Rattle.sno_c.specs.Books.{HasOpenedBook, IsLineCall, IsLineDone, IsListingCall, IsReplyCall, book_in};
ghost use Rattle.sno_c.specs.Kept.{held_in};
ghost use Rattle.sno_c.specs.Listed.{IsFaulty};
ghost use Rattle.sno_c.specs.declared.held.Held.TheVariants.{Book};

use crate::buffers::write;
use crate::held::{BookWithReply, Held};
use crate::listing::put_fault;
use crate::statuses::{CLOSED, FAULT, NO_MEMORY, NOTHING};
use sno_document::{DocumentFault, Mode};
use sno_held_book::HeldBook;
use sno_rewrite::RunFault;
use std::alloc::Global;

/// A book that is held, to which no line was given yet.
fn held_book(alloc: Global, book: HeldBook) -> Result<Box<Held>, u8>
    ensures held { IfOk result (λ b. b.value ≡ Book (record { book = book; reply = None })) }
    ensures refused { IfErr result (λ status. status ≡ 4) }
{
    match Box::new(alloc, Held::Book(BookWithReply { book, reply: None })) {
        Ok(held) => Ok(held),
        Err(_) => Err(NO_MEMORY),
    }
}

/// Opens a book of a document, and performs its statements. If the document has a fault, its line is put in the buffer, as much of it
/// as there is room for, and `line_length` is set to that many bytes; else to 0.
///
/// Refused: 2 for a fault, 4 if memory runs out.
pub(crate) fn opened_book(
    alloc: Global,
    document: &[u8],
    mode: Mode,
    line: &mut [u8],
    line_length: &mut usize,
) -> Result<Box<Held>, u8>
    requires { IsLimit mode.trials }
    ensures opened { IfOk result (λ b. HasOpenedBook mode document.now (Some b.value)) }
    ensures faulty { IfErr result (λ status. status ≡ 2 → IsFaulty mode document.now) }
    ensures refused { IfErr result (λ status. (status ≡ 2) ⊎ (status ≡ 4)) }
    ensures empty { IfOk result (λ _. line_length.new ≡ 0) }
    ensures silent { IfErr result (λ status. status ≡ 4 → line_length.new ≡ 0) }
    ensures rest { drop line_length.new line.new ≡ drop line_length.new line.old }
    ensures inside { line_length.new ≤ length line.old }
{
    *line_length = 0;
    match HeldBook::open(alloc, document, mode) {
        Ok(book) => held_book(alloc, book),
        Err(DocumentFault::Memory) => Err(NO_MEMORY),
        Err(fault) => {
            put_fault(alloc, &RunFault::Document(fault), line, line_length);
            Err(FAULT)
        }
    }
}

/// Does what a line asks for, keeps the reply, and puts it in the buffer if there is room for it.
fn do_line(
    alloc: Global,
    held: &mut BookWithReply,
    line: &[u8],
    buffer: &mut [u8],
    reported: &mut usize,
) -> u8
    ensures { IsLineDone line.now held.old held.new buffer.old buffer.new reported.new result }
{
    *reported = 0;
    held.reply = None;
    let Ok(reply) = held.book.reply(alloc, line) else {
        return NO_MEMORY;
    };
    *reported = reply.len();
    let status = write(&reply, buffer);
    held.reply = Some(reply);
    status
}

/// As [`do_line`], with the book that is held. If it is something else, nothing is done.
pub(crate) fn line_held(
    alloc: Global,
    book: &mut Option<Box<Held>>,
    line: &[u8],
    buffer: &mut [u8],
    reported: &mut usize,
) -> u8
    ensures { IsLineCall line.now (held_in book.old) (held_in book.new) buffer.old buffer.new reported.new result }
{
    *reported = 0;
    match book {
        Some(held) => match &mut **held {
            Held::Book(held) => do_line(alloc, held, line, buffer, reported),
            Held::Pattern(_) | Held::Text(_) => CLOSED,
        },
        None => CLOSED,
    }
}

/// The book that is held, if it is one.
fn book_of(held: &Option<Box<Held>>) -> Option<&BookWithReply>
    ensures { option_copied result ≡ book_in (held_in held.now) }
{
    match held {
        Some(held) => match &**held {
            Held::Book(book) => Some(book),
            Held::Pattern(_) | Held::Text(_) => None,
        },
        None => None,
    }
}

/// Puts the reply that is kept in the buffer, if there is room for it.
pub(crate) fn reply_held(book: &Option<Box<Held>>, buffer: &mut [u8], reported: &mut usize) -> u8
    ensures { IsReplyCall (held_in book.now) buffer.old buffer.new reported.new result }
{
    *reported = 0;
    let Some(held) = book_of(book) else {
        return CLOSED;
    };
    match &held.reply {
        None => NOTHING,
        Some(reply) => {
            *reported = reply.len();
            write(reply, buffer)
        }
    }
}

/// Puts the listing of the book that is held in the buffer, if there is room for it.
pub(crate) fn listing_held(
    alloc: Global,
    book: &Option<Box<Held>>,
    buffer: &mut [u8],
    reported: &mut usize,
) -> u8
    ensures { IsListingCall (held_in book.now) buffer.old buffer.new reported.new result }
{
    *reported = 0;
    let Some(held) = book_of(book) else {
        return CLOSED;
    };
    let Ok(listing) = held.book.listing(alloc) else {
        return NO_MEMORY;
    };
    *reported = listing.len();
    write(&listing, buffer)
}
