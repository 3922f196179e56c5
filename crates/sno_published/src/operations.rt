//! Operations on a table.
ghost use Rattle.std.specs.Prelude.{◌≡◌, ◌<◌, ◌^◌, ◌++◌, ◌∷◌, [], Some, IfSome, IfOk, length};
ghost use Rattle.std.specs.Arc.{arc_value};
ghost use Rattle.std.specs.Option.{option_map};
ghost use Rattle.sno_book.specs.Entries.{Entry as Published, after_of};
ghost use Rattle.sno_book.specs.Journals.{HasStep, replay};
ghost use Rattle.sno_book.specs.Openings.{place_in, start};
ghost use Rattle.sno_published.specs.Changes.{last_of};

use crate::{Front, History, Naming};
use sno_book::{Entry, Text};
use std::alloc::AllocError;
use std::marker::{Model, PhantomData};
use std::snapshot::Snapshot;
use std::sync::Arc;

/// An entry that is to be published, by what a table takes in of it: its new text, if it has one, and the place of that.
/// It has also the entries after which it is published, and the attempt that ends in it. By its type the entry has a step
/// from the texts that these entries leave, and there is room for it.
#[derive(Drop)]
pub struct Operation<L: Naming> {
    text: Option<Arc<Text>>,
    place: usize,
    before: Front,
    tried: Front,
    history: Arc<History>,
    entry: Snapshot<Entry>,
    of: PhantomData<L>,
}

impl<L: Naming> Model for Operation<L> {
    ghost use Rattle.std.specs.Prelude.{◌≡◌, ◌<◌, ◌^◌, [], ◌∷◌, Some, length};
    ghost use Rattle.std.specs.Arc.{arc_value};
    ghost use Rattle.std.specs.Option.{option_map};
    ghost use Rattle.sno_book.specs.Entries.{after_of};
    ghost use Rattle.sno_book.specs.Journals.{HasStep, replay};
    ghost use Rattle.sno_book.specs.Openings.{place_in, start};
    ghost use Rattle.sno_published.specs.Changes.{Change, change_code, last_of};

    ghost Value = { Change };

    ghost coded = { change_code };

    ghost view = { λ s. record { before = s.before.entries; added = s.entry.value ∷ [] } };

    ghost invariant = { λ s. (s.before.history ≡ L.book) × (s.tried.history ≡ L.tries) × ((arc_value s.history).history ≡ L.book) × (last_of s.tried.entries ≡ Some s.entry.value)
        × (length s.before.entries < 2 ^ 62) × (length s.before.entries < L.opening.room) × HasStep (replay (start L.opening) s.before.entries) s.entry.value
        × (place_in L.opening s.entry.value.statement.text ≡ Some s.place) × (option_map arc_value s.text ≡ after_of s.entry.value.outcome) };
}

/// A share of the entry's new text, if it has one.
fn text_of(entry: &Entry) -> Result<Option<Arc<Text>>, AllocError>
    ensures { IfOk result (λ o. option_map arc_value o ≡ after_of entry.now.outcome) }
{
    match entry.outcome.after() {
        Some(text) => Ok(Some(Arc::try_clone(text)?)),
        None => Ok(None),
    }
}

impl<L: Naming> Operation<L> {
    /// The operation that publishes this entry, whose text is at this place, after these. It is by this attempt, and adds
    /// the entry to this history.
    pub(crate) fn new(
        entry: &Entry,
        place: usize,
        before: &Front,
        tried: &Front,
        history: &Arc<History>,
    ) -> Result<Operation<L>, AllocError>
        requires histories { (before.now.history ≡ L.book) × (tried.now.history ≡ L.tries) × ((arc_value history.now).history ≡ L.book) }
        requires entry { last_of tried.now.entries ≡ Some entry.now }
        requires step { HasStep (replay (start L.opening) before.now.entries) entry.now }
        requires room { (length before.now.entries < 2 ^ 62) × (length before.now.entries < L.opening.room) }
        requires place { place_in L.opening entry.now.statement.text ≡ Some place }
        ensures { IfOk result (λ operation. operation ≡ record { before = before.now.entries; added = entry.now ∷ [] }) }
    {
        Ok(Operation {
            text: text_of(entry)?,
            place,
            before: before.again(),
            tried: tried.again(),
            history: Arc::try_clone(history)?,
            entry: Snapshot::of(entry),
            of: PhantomData,
        })
    }

    /// The entry's new text, if it has one.
    pub(crate) fn text(&self) -> Option<&Arc<Text>>
        ensures { (entry : Published) → self.now.added ≡ entry ∷ [] → option_map (λ t. arc_value t.now) result ≡ after_of entry.outcome }
    {
        self.text.as_ref()
    }

    /// The place of the entry's text.
    pub(crate) fn place(&self) -> usize
        ensures { (entry : Published) → self.now.added ≡ entry ∷ [] → place_in L.opening entry.statement.text ≡ Some result }
    {
        self.place
    }

    /// The entries after which it is published.
    pub(crate) fn before(&self) -> &Front
        ensures before { result.now ≡ record { history = L.book; entries = self.now.before } }
        ensures step { (entry : Published) × (self.now.added ≡ entry ∷ []) × HasStep (replay (start L.opening) self.now.before) entry }
        ensures room { length self.now.before < L.opening.room }
    {
        &self.before
    }

    /// The attempt that ends in the entry.
    pub(crate) fn tried(&self) -> &Front
        ensures history { result.now.history ≡ L.tries }
        ensures last { (entry : Published) → self.now.added ≡ entry ∷ [] → last_of result.now.entries ≡ Some entry }
    {
        &self.tried
    }

    /// Adds the entry to the history, and returns the history with it. `None` if the history has gone on.
    pub(crate) fn add(&self) -> Option<Front>
        ensures { IfSome result (λ front. front ≡ record { history = L.book; entries = self.now.before ++ self.now.added }) }
    {
        let mut front = self.before.again();
        if !front.grow(self.history.length(), &self.entry) {
            return None;
        }
        Some(front)
    }

    /// The history with the entry, if it is this one. It ends in the same entry as this attempt.
    pub(crate) fn added_in(&self, front: &Front, tried: &Front) -> Option<Front>
        requires histories { (front.now.history ≡ L.book) × (tried.now.history ≡ L.tries) }
        requires last { last_of front.now.entries ≡ last_of tried.now.entries }
        ensures { IfSome result (λ after. after ≡ record { history = L.book; entries = self.now.before ++ self.now.added }) }
    {
        if tried.count() != self.tried.count() || front.count() <= self.before.count() {
            return None;
        }
        if front.count() - self.before.count() != 1 {
            return None;
        }
        // for the proof
        tried.learn(&self.tried);
        self.before.learn(front);
        Some(front.again())
    }
}
