//! The texts of a document, in a book.
ghost use Rattle.std.specs.Prelude.{◌≡◌, ◌≤◌, ◌+◌, [], map, length, IfOk};
ghost use Rattle.sno_document.specs.Faults.{Gives};
ghost use Rattle.sno_document.specs.DocumentRows.{pair_seen};
ghost use Rattle.sno_document.specs.Document.{room, text_row, texts_from, distinct, texts_of};

use crate::DocumentFault;
use crate::document_rows::PairRow;
use sno_book::{Book, BookFault, MAX_ENTRIES, MAX_TEXTS};
use sno_pattern::{NameFault, Text, TextFault, TextName};
use std::alloc::Global;

/// Text number `number`.
#[tactic(auto, unfolding(crate::specs::Document::text_row))]
fn text_row(
    alloc: Global,
    number: usize,
    row: &PairRow<'_>,
) -> Result<(TextName, Text), DocumentFault>
    ensures { Gives (λ t. t) result (text_row number (pair_seen row.now)) }
{
    let name = match TextName::new(alloc, row.0.as_bytes()) {
        Ok(name) => name,
        Err(NameFault::Bad) => return Err(DocumentFault::TextName(number)),
        Err(NameFault::Memory) => return Err(DocumentFault::Memory),
    };
    match Text::new(Vec::from_slice(alloc, row.1.as_bytes())?) {
        Ok(text) => Ok((name, text)),
        Err(TextFault::TooLong) => Err(DocumentFault::TextTooLong(number)),
        Err(TextFault::NonAscii(_)) => Err(DocumentFault::TextNonAscii(number)),
    }
}

fn text_rows(alloc: Global, rows: &[PairRow<'_>]) -> Result<Vec<(TextName, Text)>, DocumentFault>
    requires { length rows.now ≤ MAX_TEXTS }
    ensures texts { Gives (λ v. v.items) result (texts_from 1 [] (map pair_seen rows.now)) }
    ensures as_many { IfOk result (λ v. length v.items ≡ length rows.now) }
{
    let mut texts = Vec::with_capacity(alloc, rows.len())?;
    for (place, row) in rows.iter().enumerate() {
        texts.push(text_row(alloc, place + 1, row)?)?;
    }
    Ok(texts)
}

/// A book of the texts, whose journal may have as many entries as any. `TextDuplicate` if a text has the name of an earlier one.
#[tactic(auto, using(crate::proofs::BookLemmas::book_texts, crate::proofs::BookLemmas::book_duplicate, crate::proofs::BookLemmas::duplicate_small, crate::proofs::BookLemmas::never_many))]
fn book_of(alloc: Global, texts: Vec<(TextName, Text)>) -> Result<Book, DocumentFault>
    requires { length texts.items ≤ MAX_TEXTS }
    ensures texts { Gives (λ b. b.opening.texts) result (distinct texts.items) }
    ensures empty { IfOk result (λ b. b.journal ≡ []) }
    ensures room { IfOk result (λ b. b.opening.room ≡ room) }
{
    match Book::new(alloc, texts, MAX_ENTRIES) {
        Ok(book) => Ok(book),
        Err(BookFault::TooMany) => unreachable!(),
        Err(BookFault::Duplicate(place)) => Err(DocumentFault::TextDuplicate(place + 1)),
        Err(BookFault::Memory) => Err(DocumentFault::Memory),
    }
}

/// The texts of the document, in a book without entries.
#[tactic(auto, unfolding(crate::specs::Document::texts_of))]
pub(crate) fn texts(alloc: Global, rows: &[PairRow<'_>]) -> Result<Book, DocumentFault>
    ensures texts { Gives (λ b. b.opening.texts) result (texts_of (map pair_seen rows.now)) }
    ensures empty { IfOk result (λ b. b.journal ≡ []) }
    ensures room { IfOk result (λ b. b.opening.room ≡ room) }
{
    if rows.len() > MAX_TEXTS {
        return Err(DocumentFault::TooManyTexts);
    }
    let texts = text_rows(alloc, rows)?;
    let book = book_of(alloc, texts)?;
    Ok(book)
}
