//! Books.
ghost use Rattle.std.specs.Prelude.{◌≡◌, ◌≤◌, ◌<◌, ◌+◌, ◌↔◌, IsTrue, IfOk, IfErr, OnErr, IfSome, IfNone, None, Some, [], length, nat_eq, slice_get};
ghost use Rattle.std.specs.Option.{option_map};
ghost use Rattle.std.specs.Arc.{arc_value};
ghost use Rattle.sno_book.specs.Openings.{place_in};
ghost use Rattle.sno_book.specs.States.{find};
ghost use Rattle.sno_book.specs.Views.{IsValid, AreRelated, state_of};
ghost use Rattle.sno_book.specs.Books.{OpensBook, view_of};
ghost use Rattle.sno_book.specs.Commits.{GivesSnapshot, IsAccepted, IsRefused, IsReady, Fits, beside, refusal};
ghost use Rattle.sno_book.specs.declared.openings.TheConstants.{MAX_ENTRIES};

use crate::ready::Ready;
use crate::start::start_of;
use crate::versioned_texts::{VersionedText, put, text_at};
use crate::{
    BookFault, CommitFault, Entry, Opening, Origin, Proposal, Receipt, Snapshot, SnapshotFault,
};
use sno_pattern::{Text, TextName};
use std::alloc::Global;
use std::marker::Model;
use std::sync::Arc;

/// Named texts with their versions, and the journal of the statements that were accepted on them. By its type each
/// entry of the journal is a step from the texts that the entries before it leave. The texts and versions are those
/// that all entries leave.
#[derive(Drop)]
pub struct Book {
    opening: Arc<Opening>,
    versioned_texts: Vec<VersionedText>,
    journal: Vec<Entry>,
}

impl Model for Book {
    ghost use Rattle.std.specs.Prelude.{◌-◌, vec_len, vec_capacity};
    ghost use Rattle.std.specs.Arc.{arc_value};
    ghost use Rattle.sno_book.specs.Books.{Book, book_code};
    ghost use Rattle.sno_book.specs.VersionedTexts.{Keeps};

    ghost Value = { Book };

    ghost coded = { book_code };

    ghost view = { λ s. record { opening = arc_value s.opening; journal = s.journal.items; spare = vec_capacity s.journal - vec_len s.journal } };

    ghost invariant = { λ s. Keeps (record { opening = arc_value s.opening; journal = s.journal.items }) s.versioned_texts.items };
}

impl Book {
    /// Returns a book of these texts, each at version 0. Its journal is empty and may hold `room` entries, at most
    /// 1,000,000.
    ///
    /// Refused, in this order:
    ///
    /// - `TooMany` for more than 1,024 texts;
    /// - `Duplicate` with the first place whose name an earlier text has;
    /// - `Memory`.
    ///
    /// The texts are dropped then.
    #[tactic(auto, using(crate::proofs::BookLaws::keeps_first))]
    pub fn new(alloc: Global, texts: Vec<(TextName, Text)>, room: u32) -> Result<Book, BookFault>
        requires { room ≤ MAX_ENTRIES }
        ensures { OpensBook result texts.items room }
    {
        let start = start_of(alloc, texts, room)?;
        Ok(Book {
            opening: Arc::new(alloc, start.opening)?,
            versioned_texts: start.versioned_texts,
            journal: Vec::new(alloc),
        })
    }

    /// The journal, in the order in which its entries were accepted.
    pub fn journal(&self) -> &[Entry]
        ensures journal { result.now ≡ self.now.journal }
        ensures valid { IsValid (view_of self.now) }
    {
        self.journal.as_slice()
    }

    /// The texts and the room that the book began with.
    pub fn opening(&self) -> &Arc<Opening>
        ensures { arc_value result.now ≡ self.now.opening }
    {
        &self.opening
    }

    /// How many texts there are, at most 1,024.
    #[tactic(auto, using(crate::proofs::BookLaws::state_many))]
    pub fn len(&self) -> usize
        ensures opening { result ≡ length self.now.opening.texts }
        ensures state { result ≡ length (state_of (view_of self.now)) }
    {
        self.versioned_texts.len()
    }

    /// Whether the book has no texts.
    pub fn is_empty(&self) -> bool
        ensures { result ≡ nat_eq (length self.now.opening.texts) 0 }
    {
        self.versioned_texts.is_empty()
    }

    /// The text at a place, from 0, with its name and its version, as all entries of the journal leave it. `None` if
    /// the place is [`Book::len`] or more.
    #[tactic(auto, using(crate::proofs::BookLaws::row_there, crate::proofs::BookLaws::row_none, crate::proofs::BookLaws::row_inside))]
    pub fn text(&self, place: usize) -> Option<(&TextName, &Arc<Text>, u64)>
        ensures found { IfSome result (λ t. slice_get (state_of (view_of self.now)) place ≡ Some (record { name = t.0.now; text = arc_value t.1.now; version = t.2 })) }
        ensures none { IfNone result (slice_get (state_of (view_of self.now)) place ≡ None) }
    {
        let (name, _) = self.opening.row(place)?;
        let versioned = text_at(&self.versioned_texts, place);
        Some((name, &versioned.text, versioned.version))
    }

    /// The place of this name, and the text there.
    #[tactic(auto, using(crate::proofs::BookLaws::place_inside, crate::proofs::BookLaws::stands_there, crate::proofs::BookLaws::found_there, crate::proofs::BookLaws::found_none))]
    fn versioned_text(&self, name: &TextName) -> Option<(usize, &VersionedText)>
        ensures found { IfSome result (λ r. (place_in self.now.opening name.now ≡ Some r.0) × (slice_get (state_of (view_of self.now)) r.0
            ≡ Some (record { name = name.now; text = arc_value r.1.now.text; version = r.1.now.version }))
            × (find name.now (state_of (view_of self.now)) ≡ Some (record { name = name.now; text = arc_value r.1.now.text; version = r.1.now.version }))) }
        ensures none { IfNone result ((place_in self.now.opening name.now ≡ None) × (find name.now (state_of (view_of self.now)) ≡ None)) }
    {
        let place = self.opening.place(name)?;
        Some((place, text_at(&self.versioned_texts, place)))
    }

    /// Returns a snapshot of the current text of this name. It shares the characters.
    ///
    /// Refused, in this order: `NoText` exactly if the book has no text of that name, `Memory`. The book is unchanged.
    pub fn snapshot(&self, name: &TextName) -> Result<Snapshot, SnapshotFault>
        ensures { GivesSnapshot result (view_of self.now) name.now }
    {
        let Some((place, versioned)) = self.versioned_text(name) else {
            return Err(SnapshotFault::NoText);
        };
        let Ok(text) = Arc::try_clone(&versioned.text) else {
            return Err(SnapshotFault::Memory);
        };
        // for the proof
        let _ = self.journal();
        Ok(Snapshot::new(Origin::of(self), place, versioned.version, text))
    }

    /// Why the current text at the proposal's place is not the one that the proposal is for, or why nothing more is
    /// accepted.
    fn refusal_beside(&self, versioned: &VersionedText, proposal: &Proposal) -> Option<CommitFault>
        ensures { result ≡ beside (view_of self.now) proposal.now (Some (record { name = []; text = arc_value versioned.now.text; version = versioned.now.version })) }
    {
        if proposal.version() != versioned.version {
            return Some(CommitFault::Changed {
                seen: proposal.version(),
                now: versioned.version,
            });
        }
        if self.journal.len() == self.opening.room() as usize {
            return Some(CommitFault::Full);
        }
        None
    }

    /// The refusal that the proposal gets, if any, out of memory aside.
    #[tactic(auto, using(crate::proofs::BookLaws::refusal_there))]
    fn refusal(&self, proposal: &Proposal) -> Option<CommitFault>
        ensures { result ≡ refusal (view_of self.now) proposal.now }
    {
        let place = proposal.place();
        if !self.opening.has_at(place, proposal.statement().text()) {
            return Some(CommitFault::NoText);
        }
        self.refusal_beside(text_at(&self.versioned_texts, place), proposal)
    }

    /// Whether memory is kept for one entry more. It takes no memory.
    pub fn has_spare(&self) -> bool
        ensures { IsTrue result ↔ 0 < self.now.spare }
    {
        self.journal.len() < self.journal.capacity()
    }

    /// Takes all the memory that accepting a proposal needs, and changes nothing else: texts, journal and room are as
    /// they were. The proposal can then be accepted by [`Book::finish`], or taken back by [`Ready::back`].
    ///
    /// On `Ok` the book keeps memory for one entry more, and the proposal fits the book.
    ///
    /// Requires that the proposal's view begins the book's view, or the other way round.
    ///
    /// Refused as [`Book::commit`] refuses, in its order. After each refusal the book is as it was, and so is the
    /// memory that it keeps. The same proposal comes back.
    pub fn prepare(&mut self, proposal: Proposal) -> Result<Ready, (CommitFault, Proposal)>
        requires { AreRelated proposal.origin (view_of self.old) }
        ensures ready { IfOk result (λ ready. IsReady self.old self.new proposal ready) }
        ensures refused { IfErr result (λ r. IsRefused (view_of self.old) (view_of self.new) proposal r.1 r.0) }
        ensures same { OnErr result (self.new ≡ self.old) }
    {
        if let Some(fault) = self.refusal(&proposal) {
            return Err((fault, proposal));
        }
        let versioned = text_at(&self.versioned_texts, proposal.place());
        let ready = match Ready::of(proposal, &versioned.text) {
            Ok(ready) => ready,
            Err(proposal) => return Err((CommitFault::Memory, proposal)),
        };
        let Ok(()) = self.journal.reserve(1) else {
            return Err((CommitFault::Memory, ready.back()));
        };
        Ok(ready)
    }

    /// Accepts a proposal that was prepared. Its entry is now the last of the journal. Its new text, if it has one, is
    /// in place, with a version one higher, even if the characters are the same as before. It takes no memory, and the
    /// book keeps memory for one entry less than before.
    ///
    /// Requires that
    ///
    /// - the book keeps memory for one entry more ([`Book::has_spare`]);
    /// - the proposal fits the book: the text at its place has its name and its version, the version can rise, and the
    ///   journal has fewer entries than there is room for;
    /// - the proposal's view begins the book's view, or the other way round.
    ///
    /// After [`Book::prepare`] the first two hold until the book is changed.
    pub fn finish(&mut self, ready: Ready) -> Receipt
        requires kept { 0 < self.old.spare }
        requires fits { Fits (view_of self.old) ready }
        requires related { AreRelated ready.origin (view_of self.old) }
        ensures accepted { IsAccepted (view_of self.old) (view_of self.new) ready result }
        ensures spare { self.new.spare + 1 ≡ self.old.spare }
    {
        let index = self.journal.len();
        let place = ready.proposal.place();
        self.journal.push_reserved(ready.entry);
        put(&mut self.versioned_texts, place, ready.after);
        ready.proposal.receipt(index, ready.text)
    }

    /// Accepts a proposal, as [`Book::prepare`] and then [`Book::finish`] do. Its entry is now the last of the journal.
    /// Its new text, if it has one, is in place, with a version one higher, even if the characters are the same as
    /// before.
    ///
    /// Requires that the proposal's view begins the book's view, or the other way round. This holds for a proposal on a
    /// snapshot of this book.
    ///
    /// Refused, in this order:
    ///
    /// - `NoText` if the book has no text of the statement's name, or has it at another place than the snapshot's;
    /// - `Changed` if the text has another version than the snapshot, with both versions;
    /// - `Full` if the journal has as many entries as there is room for;
    /// - `Memory`.
    ///
    /// After each the book is as it was, and the same proposal comes back.
    pub fn commit(&mut self, proposal: Proposal) -> Result<Receipt, (CommitFault, Proposal)>
        requires { AreRelated proposal.origin (view_of self.old) }
        ensures accepted { IfOk result (λ receipt. IsAccepted (view_of self.old) (view_of self.new) proposal receipt) }
        ensures refused { IfErr result (λ r. IsRefused (view_of self.old) (view_of self.new) proposal r.1 r.0) }
        ensures same { OnErr result (self.new ≡ self.old) }
    {
        let ready = self.prepare(proposal)?;
        Ok(self.finish(ready))
    }
}
