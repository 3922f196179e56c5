//! Histories.
ghost use Rattle.std.specs.Prelude.{◌≡◌, ◌<◌, ◌^◌, ◌++◌, ◌∷◌, [], length, MatchBool};
ghost use Rattle.sno_published.specs.Histories.{GoesOn};
ghost use Rattle.sno_published.specs.HistoryRule.{length_of};

use crate::Front;
use crate::rule::Length;
use logbook::{Seen, Start, Word};
use sno_book::Entry;
use std::marker::Model;
use std::snapshot::Snapshot;

/// A list of entries that only grows, with the front that has seen the whole of it. The program keeps only the number
/// of entries. A caller that has a [`Front`] knows what they are. Contracts see which history it is, and its entries.
#[derive(Drop)]
pub struct History {
    length: Length,
    front: Front,
}

impl Model for History {
    ghost use Rattle.std.specs.Prelude.{◌≡◌};
    ghost use Rattle.sno_published.specs.Histories.{Beginning, beginning_code};
    ghost use Rattle.sno_published.specs.HistoryRule.{length_of};

    ghost Value = { Beginning };

    ghost coded = { beginning_code };

    ghost view = { λ s. s.front };

    ghost invariant = { λ s. s.length ≡ length_of s.front.history };
}

impl History {
    /// A new history without entries. It takes no memory.
    pub fn new() -> History
        ensures { result.entries ≡ [] }
    {
        let (seen, mut first, _second) = Seen::open(Start::alone(), 0, 0);
        History {
            length: Word::tracked(0, &mut first),
            front: Front { count: 0, seen },
        }
    }

    /// The front that has seen the whole history.
    pub fn front(&self) -> &Front
        ensures { result.now ≡ self.now }
    {
        &self.front
    }

    /// Adds an entry after the others, and returns whether it did. Requires fewer than 2^62 entries. It waits for
    /// nobody and takes no memory.
    ///
    /// It fails only if the history goes on after what this front had seen; the front has seen more then. No legal run
    /// meets this, as nobody else can add to the history.
    pub fn add(&mut self, entry: &Entry) -> bool
        requires room { length self.old.entries < 2 ^ 62 }
        ensures history { self.new.history ≡ self.old.history }
        ensures entries { MatchBool result (self.new.entries ≡ self.old.entries ++ entry.now ∷ []) (GoesOn self.old.entries self.new.entries) }
    {
        self.front.grow(&self.length, &Snapshot::of(entry))
    }

    /// The number of entries, by which whoever has a front of the history adds to it.
    pub(crate) fn length(&self) -> &Length
        ensures { result.now ≡ length_of self.now.history }
    {
        &self.length
    }
}
