//! What C calls with books.
ghost use Rattle.std.specs.Prelude.{◌≡◌, ◌≢◌, ◌<◌, ◌≤◌, ◌↔◌, ◌⊎◌, None, drop, length};
ghost use Rattle.sno_c.specs.Books.{HasOpenedBook, IsLineCall, IsListingCall, IsReplyCall};
ghost use Rattle.sno_c.specs.Listed.{IsFaulty};

use crate::books::{line_held, listing_held, opened_book, reply_held};
use crate::handle::Handle;
use crate::statuses::{BAD_LIMIT, DONE};
use sno_document::Mode;
use sno_rewrite::MAX_TRIALS;
use std::alloc::Global;

/// Reads a document, performs its statements in order on its texts, and puts the book into a handle. `anchor` says whether statements
/// that don't say otherwise are anchored, and `trials` how many trials a match may take, 1 to 1,000,000,000; both hold for the
/// statements of lines too. What the handle held before is closed first. It takes memory by `malloc`, and
/// [`sno_handle_close`](crate::handle_calls::sno_handle_close) frees it.
///
/// It returns a status, and sets `line_length` to a number of bytes:
///
/// - 0: the handle holds the book. Its listing names the statements of the document that were refused. `line_length` is 0.
/// - 2: the bytes are not a document. The first `line_length` bytes of the buffer are the line of the first fault, as much of it as
///   there is room for. The handle is closed.
/// - 3: the limit of trials is invalid. `line_length` is 0, and the handle is closed.
/// - 4: out of memory. `line_length` is 0, and the handle is closed.
///
/// After the first `line_length` bytes the buffer is unchanged.
#[unsafe(no_mangle)]
pub extern "C" fn sno_handle_open_book(
    alloc: Global,
    document: &[u8],
    anchor: bool,
    trials: u32,
    line: &mut [u8],
    line_length: &mut usize,
    book: &mut Handle,
) -> u8
    ensures opened { result ≡ 0 → HasOpenedBook (record { anchor = anchor; trials = trials }) document.now book.new.kept.value }
    ensures faulty { result ≡ 2 → IsFaulty (record { anchor = anchor; trials = trials }) document.now }
    ensures limit { result ≡ 3 ↔ ((trials ≡ 0) ⊎ (MAX_TRIALS < trials)) }
    ensures closed { result ≢ 0 → book.new.kept.value ≡ None }
    ensures empty { result ≢ 2 → line_length.new ≡ 0 }
    ensures rest { drop line_length.new line.new ≡ drop line_length.new line.old }
    ensures inside { line_length.new ≤ length line.old }
    ensures known { (result ≡ 0) ⊎ (result ≡ 2) ⊎ (result ≡ 3) ⊎ (result ≡ 4) }
{
    drop(book.take(alloc));
    *line_length = 0;
    if trials == 0 || trials > MAX_TRIALS {
        return BAD_LIMIT;
    }
    let mode = Mode { anchor, trials };
    match opened_book(alloc, document, mode, line, line_length) {
        Ok(held) => {
            book.put(Some(held));
            DONE
        }
        Err(status) => status,
    }
}

/// Does what a line asks for on the book of a handle, once, and puts the reply in the buffer if there is room for it. Lines and
/// replies are those of `sno serve` at one seat; a reply ends in a line feed. The reply is kept with the book until the next line.
///
/// It returns a status, and sets `reported` to a number of bytes:
///
/// - 0: the buffer begins with the reply, which has `reported` bytes.
/// - 5: the line is done, and the reply has `reported` bytes, which is more than the buffer has. [`sno_handle_reply`] puts it in a longer
///   one. The buffer is unchanged.
/// - 4: out of memory. The journal has one entry more if the line's statement was accepted before that; else texts and journal are
///   unchanged. The listing has no more refused statements than before. No reply is kept. `reported` is 0, and the buffer is unchanged.
/// - 7: the handle doesn't hold a book. Nothing was done. `reported` is 0, and the buffer is unchanged.
///
/// After the reply the buffer is unchanged.
#[unsafe(no_mangle)]
pub extern "C" fn sno_handle_line(
    alloc: Global,
    book: &mut Handle,
    line: &[u8],
    buffer: &mut [u8],
    reported: &mut usize,
) -> u8
    ensures { IsLineCall line.now book.old.kept.value book.new.kept.value buffer.old buffer.new reported.new result }
{
    let mut held = book.take(alloc);
    let status = line_held(alloc, &mut held, line, buffer, reported);
    book.put(held);
    status
}

/// Puts the reply to the last line of the book of a handle in a buffer. Nothing is done again, and the reply stays.
///
/// It returns a status, and sets `reported` to a number of bytes:
///
/// - 0: the buffer begins with the reply, which has `reported` bytes.
/// - 1: there is no reply, since there was no line yet or the last one ran out of memory. `reported` is 0.
/// - 5: the reply has `reported` bytes, which is more than the buffer has.
/// - 7: the handle doesn't hold a book. `reported` is 0.
///
/// Except for 0 the buffer is unchanged, and always after the reply. So is the book.
#[unsafe(no_mangle)]
pub extern "C" fn sno_handle_reply(
    alloc: Global,
    book: &mut Handle,
    buffer: &mut [u8],
    reported: &mut usize,
) -> u8
    ensures call { IsReplyCall book.old.kept.value buffer.old buffer.new reported.new result }
    ensures kept { book.new.kept.value ≡ book.old.kept.value }
{
    let held = book.take(alloc);
    let status = reply_held(&held, buffer, reported);
    book.put(held);
    status
}

/// Puts the JSON listing of the book of a handle in a buffer: its texts, its journal, and the statements that were refused.
///
/// It returns a status, and sets `reported` to a number of bytes:
///
/// - 0: the buffer begins with the listing, which has `reported` bytes and ends in a line feed.
/// - 4: out of memory. `reported` is 0.
/// - 5: the listing has `reported` bytes, which is more than the buffer has.
/// - 7: the handle doesn't hold a book. `reported` is 0.
///
/// Except for 0 the buffer is unchanged, and always after the listing. The book is unchanged.
#[unsafe(no_mangle)]
pub extern "C" fn sno_handle_listing(
    alloc: Global,
    book: &mut Handle,
    buffer: &mut [u8],
    reported: &mut usize,
) -> u8
    ensures call { IsListingCall book.old.kept.value buffer.old buffer.new reported.new result }
    ensures kept { book.new.kept.value ≡ book.old.kept.value }
{
    let held = book.take(alloc);
    let status = listing_held(alloc, &held, buffer, reported);
    book.put(held);
    status
}
