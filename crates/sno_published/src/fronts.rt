//! Fronts.
ghost use Rattle.std.specs.Prelude.{◌≡◌, ◌<◌, ◌^◌, ◌++◌, ◌∷◌, [], length, MatchBool};
ghost use Rattle.sno_published.specs.Histories.{AreOfOneLine, GoesOn};
ghost use Rattle.sno_published.specs.HistoryRule.{length_of};

use crate::rule::{Addition, CountRule, Length, NoGain};
use logbook::{Offer, Seen};
use sno_book::Entry;
use std::marker::Model;
use std::snapshot::Snapshot;

/// A beginning of a history, as it was seen. It keeps only the number of entries. Contracts see which history it is of,
/// and the entries.
#[derive(Drop)]
pub struct Front {
    pub(crate) count: u64,
    pub(crate) seen: Seen<Entry, u64, CountRule>,
}

impl Model for Front {
    ghost use Rattle.std.specs.Prelude.{◌≡◌, length};
    ghost use Rattle.sno_published.specs.Histories.{Beginning, beginning_code};

    ghost Value = { Beginning };

    ghost coded = { beginning_code };

    ghost view = { λ s. record { history = s.seen.book; entries = s.seen.log } };

    ghost invariant = { λ s. s.count ≡ length s.seen.log };
}

impl Front {
    /// How many entries the front has.
    pub fn count(&self) -> u64
        ensures { result ≡ length self.now.entries }
    {
        self.count
    }

    /// A copy. It takes no memory.
    pub fn again(&self) -> Front
        ensures { result ≡ self.now }
    {
        Front {
            count: self.count,
            seen: self.seen.again(),
        }
    }

    /// Of two fronts of one history the shorter begins the longer. Nothing is changed.
    pub fn learn(&self, other: &Front)
        requires { other.now.history ≡ self.now.history }
        ensures { AreOfOneLine self.now.entries other.now.entries }
    {
        let mut both = self.seen.again();
        // for the proof
        both.learn(&other.seen);
    }

    /// Adds an entry after all that was seen, through the history's word, and returns whether it did. It didn't if the
    /// history has gone on.
    pub(crate) fn grow(&mut self, word: &Length, entry: &Snapshot<Entry>) -> bool
        requires history { word.now ≡ length_of self.old.history }
        requires room { length self.old.entries < 2 ^ 62 }
        ensures history { self.new.history ≡ self.old.history }
        ensures entries { MatchBool result (self.new.entries ≡ self.old.entries ++ entry.now.value ∷ []) (GoesOn self.old.entries self.new.entries) }
    {
        let count = self.count;
        let mut offer: Offer<Entry, u64, CountRule, NoGain> = self
            .seen
            .plain::<NoGain, Snapshot<Entry>, Addition>(entry);
        let mut pen = self.seen.no_pen();
        let found = word.compare_exchange::<Addition, NoGain>(
            count,
            count + 1,
            &mut self.seen,
            &mut offer,
            &mut pen,
        );
        self.count = if found == count { count + 1 } else { found };
        found == count
    }
}
