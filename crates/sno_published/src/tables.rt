//! Tables.
ghost use Rattle.std.specs.Prelude.{◌≡◌, ◌<◌, ◌≤◌, ◌++◌, ◌∷◌, [], Some, length, IfOk, IfSome, MatchResult};
ghost use Rattle.std.specs.Arc.{arc_value};
ghost use Rattle.std.specs.Option.{option_map};
ghost use Rattle.sno_book.specs.Entries.{Entry as Published, after_of};
ghost use Rattle.sno_book.specs.Journals.{HasStep, Legal, replay};
ghost use Rattle.sno_book.specs.Openings.{place_in, start};
ghost use Rattle.sno_published.specs.Changes.{last_of};
ghost use Rattle.sno_published.specs.Tables.{text_after, text_at};

use crate::stored_texts::{StoredText, first_texts, renew, stored_at};
use crate::{Front, Naming, Operation};
use left_right::Absorb;
use sno_book::{Entry, Opening, Text, ViewSource};
use std::alloc::{AllocError, Global};
use std::marker::{Model, PhantomData};
use std::sync::Arc;

/// The texts after some entries, with their versions. By its type the entries are a beginning of the desk's history.
/// They are legal from the desk's opening, which has room for them, and the texts and versions are what they leave.
/// Contracts see the entries. The table keeps also the attempt that ended in the last of them.
#[derive(Drop)]
pub struct Table<L: Naming> {
    opening: Arc<Opening>,
    stored: Vec<StoredText>,
    front: Front,
    tried: Option<Front>,
    of: PhantomData<L>,
}

impl<L: Naming> Model for Table<L> {
    ghost use Rattle.std.specs.Prelude.{◌≡◌, ◌≤◌, IfSome, List, length};
    ghost use Rattle.std.specs.Coded.{coded_list};
    ghost use Rattle.std.specs.Arc.{arc_value};
    ghost use Rattle.sno_book.specs.Entries.{Entry, entry_code};
    ghost use Rattle.sno_published.specs.Changes.{last_of};
    ghost use Rattle.sno_published.specs.StoredTexts.{IsReplay};

    ghost Value = { List Entry };

    ghost coded = { coded_list entry_code };

    ghost view = { λ s. s.front.entries };

    ghost invariant = { λ s. (arc_value s.opening ≡ L.opening) × (s.front.history ≡ L.book) × IsReplay L.opening s.front.entries s.stored.items × (length s.front.entries ≤ L.opening.room)
        × IfSome s.tried (λ tried. (tried.history ≡ L.tries) × (last_of s.front.entries ≡ last_of tried.entries)) };
}

impl<L: Naming> Table<L> {
    /// Returns a table with the texts of an opening before the first entry. Requires the desk's opening, and a front of
    /// the desk's history that has no entries.
    ///
    /// Refused only if memory runs out.
    pub fn new(alloc: Global, opening: &Arc<Opening>, front: &Front) -> Result<Table<L>, AllocError>
        requires opening { arc_value opening.now ≡ L.opening }
        requires front { front.now ≡ record { history = L.book; entries = [] } }
        ensures { IfOk result (λ table. table ≡ []) }
    {
        Ok(Table {
            opening: Arc::try_clone(opening)?,
            stored: first_texts(alloc, opening)?,
            front: front.again(),
            tried: None,
            of: PhantomData,
        })
    }

    /// The desk's opening.
    pub(crate) fn opening(&self) -> &Arc<Opening>
        ensures { arc_value result.now ≡ L.opening }
    {
        &self.opening
    }

    /// The front that has seen the table's entries.
    pub fn front(&self) -> &Front
        ensures front { result.now ≡ record { history = L.book; entries = self.now } }
        ensures legal { Legal (start L.opening) self.now }
        ensures within { length self.now ≤ L.opening.room }
    {
        &self.front
    }

    /// The text at a place, from 0, and its version, as the table's entries leave them. `None` past the last text.
    pub fn text(&self, place: usize) -> Option<(&Arc<Text>, u64)>
        ensures { option_map (λ t. text_at L.opening place (arc_value t.0.now) t.1) result ≡ text_after L.opening self.now place }
    {
        match stored_at(&self.stored, place) {
            Some(stored) => Some((&stored.text, stored.version)),
            None => None,
        }
    }

    /// Takes in the next entry, by its new text, if it has one, and the place of that, with the front that has seen it and
    /// the attempt that ended in it.
    fn take_in(
        &mut self,
        text: Option<&Arc<Text>>,
        place: usize,
        front: Front,
        tried: Front,
    ) -> Result<(), AllocError>
        requires next { (entry : Published) × (option_map (λ t. arc_value t.now) text ≡ after_of entry.outcome) × (place_in L.opening entry.statement.text ≡ Some place)
            × HasStep (replay (start L.opening) self.old) entry × (front ≡ record { history = L.book; entries = self.old ++ entry ∷ [] }) }
        requires tried { (tried.history ≡ L.tries) × (last_of front.entries ≡ last_of tried.entries) }
        requires room { length self.old < L.opening.room }
        ensures { MatchResult result (λ _. self.new ≡ front.entries) (λ _. self.new ≡ self.old) }
    {
        renew(&mut self.stored, place, text)?;
        self.front = front;
        self.tried = Some(tried);
        Ok(())
    }

    /// The history with the entry of an operation, if this table took it in last.
    fn front_with(&self, operation: &Operation<L>) -> Option<Front>
        ensures { IfSome result (λ front. front ≡ record { history = L.book; entries = operation.now.before ++ operation.now.added }) }
    {
        match &self.tried {
            Some(tried) => operation.added_in(&self.front, tried),
            None => None,
        }
    }

    /// Takes in an operation, if it comes after the table's entries, with the history that has its entry.
    fn absorb(&mut self, operation: &Operation<L>, front: Front) -> Result<(), AllocError>
        requires { front ≡ record { history = L.book; entries = operation.now.before ++ operation.now.added } }
        ensures { MatchResult result (λ _. self.new ≡ self.old ++ operation.now.added) (λ _. self.new ≡ self.old) }
    {
        let before = operation.before();
        if self.front.count() != before.count() {
            return Err(AllocError);
        }
        // for the proof
        self.front.learn(before);
        self.take_in(
            operation.text(),
            operation.place(),
            front,
            operation.tried().again(),
        )
    }
}

impl<L: Naming> Absorb<Operation<L>> for Table<L> {
    ghost use Rattle.std.specs.Prelude.{◌++◌};

    // A clause reads an array as a list, of any length.
    type State = [Entry; 0];

    ghost state = { λ entries. entries };

    ghost applied = { λ entries change. entries ++ change.added };

    // The first copy adds the entry to the history.
    fn absorb_first(
        &mut self,
        operation: &Operation<L>,
        _other: &Table<L>,
    ) -> Result<(), AllocError> {
        match operation.add() {
            Some(front) => self.absorb(operation, front),
            None => Err(AllocError),
        }
    }

    // The second one finds it in the first.
    fn absorb_second(
        &mut self,
        operation: Operation<L>,
        other: &Table<L>,
    ) -> Result<(), Operation<L>> {
        let Some(front) = other.front_with(&operation) else {
            return Err(operation);
        };
        match self.absorb(&operation, front) {
            Ok(()) => Ok(()),
            Err(_) => Err(operation),
        }
    }
}

impl<L: Naming> ViewSource for Table<L> {
    ghost use Rattle.sno_book.specs.Views.{View};

    ghost shown = { λ entries. record { opening = L.opening; journal = entries } };
}
