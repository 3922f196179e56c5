//! The first line of a store that goes on from another one.
ghost use Rattle.std.specs.Prelude.{◌≡◌, ◌≤◌, ◌+◌, ◌-◌, ℕ, List, [], ◌∷◌, IfOk, OnOk, Some, length, map};
ghost use Rattle.serde_json.specs.Data.{Data, depth, no_members, object};
ghost use Rattle.serde_json.specs.Read.{max_depth, read};
ghost use Rattle.serde_json.specs.View.{view, members_view};
ghost use Rattle.sno_book.specs.Books.{view_of};
ghost use Rattle.sno_book.specs.Views.{state_of};
ghost use Rattle.sno_listing.specs.History.{history_of};
ghost use Rattle.sno_store.specs.Shown.{lines_in};
ghost use Rattle.sno_durable.specs.Compacted.{GoesOn, IsDocumentAfter, document_after, entries_before, listing_after, listing_shown, made_of, versions_after, with_version};
ghost use Rattle.sno_durable.specs.Past.{higher};
ghost use Rattle.sno_durable.specs.Records.{later_data, past_data};

use crate::past::{Past, higher, with_further};
use crate::records::{Origin, later_line};
use crate::{DurableFault, Kept};
use serde_json::{Category, Map, Value, put};
use sno_book::Book;
use sno_document::{DocumentFault, MAX_DOCUMENT};
use sno_listing::{Refusal, listing_of, listing_value, text_name_value, text_values};
use sno_pattern::TextName;
use sno_store::Lines;
use sqlite_disk::Disk;
use std::alloc::{AllocError, Global};
use std::io::{Read, Write};

/// Adds the version that a text has, after that which it had before, under its name.
fn put_version(
    alloc: Global,
    past: &Past,
    versions: &mut Map<String, Value>,
    name: &TextName,
    version: u64,
) -> Result<(), AllocError>
    ensures { OnOk result (members_view versions.new.entries ≡ with_version (view past.now.versions) name.now version (members_view versions.old.entries)) }
{
    let name = text_name_value(alloc, name)?;
    let before = past.version_of(Some(&name));
    let name = name.as_str().unwrap_or("");
    put(versions, alloc, name, Value::from(higher(before, version)))
}

/// The version that each text of the book has, after those that came before.
#[tactic(auto, using(sno_listing::proofs::ListingLemmas::row_there))]
fn versions_after(alloc: Global, past: &Past, book: &Book) -> Result<Map<String, Value>, AllocError>
    ensures { IfOk result (λ m. members_view m.entries ≡ versions_after (view past.now.versions) no_members (state_of (view_of book.now))) }
{
    let mut versions = Map::new(alloc);
    for place in 0..book.len() {
        match book.text(place) {
            Some((name, _, version)) => put_version(alloc, past, &mut versions, name, version)?,
            None => unreachable!(),
        }
    }
    Ok(versions)
}

/// What came before a store that goes on from this book, whose next statement has this number.
fn past_after(alloc: Global, past: &Past, book: &Book, number: u32) -> Result<Past, AllocError>
    ensures entries { IfOk result (λ p. p.entries ≡ higher past.now.entries (length book.now.journal)) }
    ensures statements { IfOk result (λ p. p.statements ≡ number - 1) }
    ensures versions { IfOk result (λ p. view p.versions ≡ object (versions_after (view past.now.versions) no_members (state_of (view_of book.now)))) }
{
    Ok(Past {
        entries: higher(past.entries, book.journal().len() as u64),
        statements: number.saturating_sub(1),
        versions: Value::Object(versions_after(alloc, past, book)?),
    })
}

/// The document as it is with the texts of the book, and without statements.
fn document_after(alloc: Global, document: &[u8], book: &Book) -> Result<Value, DurableFault>
    ensures { IfOk result (λ v. (d : Data) × (read document.now ≡ Some d) × (view v ≡ document_after d (state_of (view_of book.now)))) }
{
    let value = match Value::from_slice(alloc, document) {
        Ok(value) => value,
        Err(e) => match e.classify() {
            Category::Memory => return Err(DurableFault::Memory),
            _ => return Err(DurableFault::Document(DocumentFault::NotJson)),
        },
    };
    let texts = Value::Array(text_values(alloc, book)?);
    let value = with_further(alloc, value, "texts", texts)?;
    let value = with_further(alloc, value, "statements", Value::Array(Vec::new(alloc)))?;
    Ok(value)
}

/// The bytes of that document.
#[tactic(auto, using(crate::proofs::WrittenLemmas::document_written))]
fn document_bytes(alloc: Global, document: &[u8], book: &Book) -> Result<Vec<u8>, DurableFault>
    ensures { IfOk result (λ b. IsDocumentAfter document.now (state_of (view_of book.now)) b.items) }
{
    let value = document_after(alloc, document, book)?;
    let bytes = value.to_vec(alloc)?;
    if bytes.len() > MAX_DOCUMENT {
        return Err(DurableFault::TextsTooLong);
    }
    Ok(bytes)
}

/// The first line of a store that goes on, with this document and this past.
fn line_with(
    alloc: Global,
    origin: &Origin,
    document: &[u8],
    past: &Past,
) -> Result<Vec<u8>, DurableFault>
    ensures { IfOk result (λ b. depth (view past.now.versions) + 2 ≤ max_depth → read b.items ≡ Some (later_data document.now origin.now.trials (made_of origin.now.document.items origin.now.before) (past_data past.now.entries past.now.statements (view past.now.versions)))) }
{
    let (Ok(document), Ok(made_of)) = (str::from_utf8(document), str::from_utf8(origin.made_of()))
    else {
        return Err(DurableFault::Document(DocumentFault::NotJson));
    };
    let line = later_line(alloc, document, origin.trials, made_of, past)?;
    Ok(line)
}

/// The first line of a store that goes on from one of this origin with this book, whose next statement has this number.
#[tactic(auto, using(crate::proofs::WrittenLemmas::versions_shallow))]
fn later_first(
    alloc: Global,
    origin: &Origin,
    number: u32,
    book: &Book,
) -> Result<Vec<u8>, DurableFault>
    ensures { IfOk result (λ b. GoesOn origin.now number (view_of book.now) b.items) }
{
    let past = origin.past(alloc)?;
    let past = past_after(alloc, &past, book, number)?;
    let document = document_bytes(alloc, &origin.document, book)?;
    let line = line_with(alloc, origin, &document, &past)?;
    Ok(line)
}

/// The listing as JSON of a store that goes on from others.
#[tactic(auto, using(crate::proofs::WrittenLemmas::shown_float))]
fn later_listing(
    alloc: Global,
    past: &Past,
    book: &Book,
    refused: &[Refusal],
) -> Result<Vec<u8>, AllocError>
    ensures { IfOk result (λ b. b.items ≡ listing_shown past.now.entries (view past.now.versions) (history_of (view_of book.now) refused.now)) }
{
    let value = listing_value(alloc, book, refused)?;
    let shown = past.shown(alloc, value, 0)?;
    let mut line = shown.to_vec(alloc)?;
    line.push(b'\n')?;
    Ok(line)
}

impl<D: Disk, I: Read, W: Write> Kept<D, I, W> {
    /// How many entries there are with those that came before.
    pub fn entries(&self) -> u64
        ensures { result ≡ higher (entries_before self.now.origin.before) (length self.now.book.journal) }
    {
        higher(self.past_entries(), self.book.journal().len() as u64)
    }

    fn past_entries(&self) -> u64
        ensures { result ≡ entries_before self.now.origin.before }
    {
        match &self.origin.before {
            None => 0,
            Some(before) => before.past.entries,
        }
    }

    /// The listing as JSON. If the store goes on from others, so do its indices and versions, and it has no entry of theirs.
    pub fn listing(&self, alloc: Global) -> Result<Vec<u8>, AllocError>
        ensures { IfOk result (λ b. b.items ≡ listing_after self.now.origin.before (history_of (view_of self.now.book) self.now.refused.items)) }
    {
        match &self.origin.before {
            None => listing_of(alloc, &self.book, &self.refused, true),
            Some(before) => later_listing(alloc, &before.past, &self.book, &self.refused),
        }
    }

    /// The lines of a store that goes on from this one: its first line. It has the texts as they are now, and indices, versions and numbers
    /// of statements go on.
    ///
    /// Refused: `TextsTooLong` if a document with these texts would have more than 16,777,216 bytes; `Memory`.
    pub fn compacted(&self, alloc: Global) -> Result<Lines, DurableFault>
        ensures { IfOk result (λ l. (line : List ℕ) × (lines_in l ≡ line ∷ []) × GoesOn self.now.origin self.now.number (view_of self.now.book) line) }
    {
        let line = later_first(alloc, &self.origin, self.number, &self.book)?;
        let mut lines = Lines::new(alloc);
        lines.push(&line)?;
        Ok(lines)
    }
}
