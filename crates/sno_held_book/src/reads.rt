//! What is read of a book.
ghost use Rattle.std.specs.Prelude.{◌≡◌, IfOk, map};
ghost use Rattle.std.specs.Option.{option_map};
ghost use Rattle.serde_json.specs.View.{view};
ghost use Rattle.sno_book.specs.Books.{view_of};
ghost use Rattle.sno_book.specs.Openings.{place_in};
ghost use Rattle.sno_book.specs.Views.{state_of};
ghost use Rattle.sno_serve.specs.Excerpts.{excerpt_of};
ghost use Rattle.sno_serve.specs.Replies.{capped, read_at_reply, rows_reply, since_reply};
ghost use Rattle.sno_serve.specs.Versions.{text_at_version};
ghost use Rattle.sno_held_book.specs.Lines.{IsShown, row_of};

use crate::attempts::snapshot;
use serde_json::Value;
use sno_book::Book;
use sno_desk::TextName;
use sno_serve::{
    Excerpt, capped, entries_reply, look_reason, read_at_reply, read_reply, row_value, rows_reply,
    text_at,
};
use std::alloc::{AllocError, Global};

/// Reads a text.
pub(crate) fn look(
    alloc: Global,
    book: &Book,
    id: Option<Value>,
    name: &TextName,
) -> Result<Value, AllocError>
    ensures { IfOk result (λ v. IsShown (view_of book.now) (option_map view id) name.now (view v)) }
{
    match snapshot(book, name) {
        Ok(taken) => read_reply(alloc, id, name, &taken),
        Err(fault) => look_reason(alloc, id, fault),
    }
}

/// Reads a text as it was at a version. The time grows with the journal.
pub(crate) fn look_at(
    alloc: Global,
    book: &Book,
    id: Option<Value>,
    name: &TextName,
    version: u64,
) -> Result<Value, AllocError>
    ensures { IfOk result (λ v. view v ≡ read_at_reply (option_map view id) name.now version (place_in book.now.opening name.now) (text_at_version book.now.opening book.now.journal name.now version)) }
{
    let opening = book.opening();
    let text = text_at(opening, book.journal(), name, version);
    let reply = read_at_reply(alloc, id, name, version, opening.place(name), text)?;
    Ok(reply)
}

/// The texts as they are listed.
#[tactic(auto, using(sno_listing::proofs::ListingLemmas::row_there))]
fn rows(alloc: Global, book: &Book) -> Result<Vec<Value>, AllocError>
    ensures { IfOk result (λ v. map view v.items ≡ map row_of (state_of (view_of book.now))) }
{
    let mut rows = Vec::with_capacity(alloc, book.len())?;
    for place in 0..book.len() {
        let Some((name, text, version)) = book.text(place) else {
            unreachable!();
        };
        rows.push(row_value(alloc, name, text, version)?)?;
    }
    Ok(rows)
}

/// Lists the texts.
pub(crate) fn list_texts(alloc: Global, book: &Book, id: Option<Value>) -> Result<Value, AllocError>
    ensures { IfOk result (λ v. view v ≡ rows_reply (option_map view id) (map row_of (state_of (view_of book.now)))) }
{
    let rows = rows(alloc, book)?;
    rows_reply(alloc, id, rows)
}

/// Lists entries.
#[tactic(auto, using(std::proofs::lemmas::List::drop_min))]
pub(crate) fn list(
    alloc: Global,
    book: &Book,
    id: Option<Value>,
    excerpt: &Excerpt,
) -> Result<Value, AllocError>
    ensures { IfOk result (λ v. view v ≡ since_reply (option_map view id) (excerpt_of excerpt.now (capped excerpt.now.from) book.now.journal)) }
{
    let from = capped(excerpt.from);
    let journal = book.journal();
    let (_, entries) = journal.split_at(from.min(journal.len()));
    let values = excerpt.values(alloc, from, entries)?;
    entries_reply(alloc, id, values)
}
