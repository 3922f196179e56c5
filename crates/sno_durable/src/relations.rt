//! How a store is related to another one beside it, by the lines of both.
ghost use Rattle.std.specs.Prelude.{◌≡◌};
ghost use Rattle.sno_durable.specs.Relations.{relation_of, end_of};

use crate::records::{next_after, origin_in};
use sno_store::LinesIter;
use std::alloc::{AllocError, Global};

/// What a store says of itself.
#[derive(Drop)]
pub struct StoreFacts {
    /// The bytes of the document that it was made of, or the first of those that it goes on from.
    pub made_of: Vec<u8>,
    /// How many trials a match may take.
    pub trials: u32,
    /// How many entries came before its first one.
    pub past: u64,
    /// The index that the entry after its last record has, if it has a record.
    pub next: Option<u64>,
}

/// What another store is to one.
#[derive(Clone, Copy, Debug, PartialEq, Eq)]
pub enum Relation {
    /// It was made of another document, or with another limit of trials.
    Other,
    /// It has no record, so nothing in it was ever shown.
    Leftover,
    /// It begins where the one ends, and has more entries.
    Further,
    /// It has entries, and doesn't begin where the one ends.
    Apart,
}

impl StoreFacts {
    /// What these lines of a store say of it; nothing if the first of them isn't that of a store. Refused only if memory runs out.
    pub fn of(alloc: Global, lines: LinesIter<'_>) -> Result<Option<StoreFacts>, AllocError> {
        let mut rest = lines;
        let Some(first) = rest.next() else {
            return Ok(None);
        };
        let Some(origin) = origin_in(alloc, first)? else {
            return Ok(None);
        };
        let mut last = None;
        for line in rest {
            last = Some(line);
        }
        let next = match last {
            None => None,
            Some(line) => next_after(alloc, line)?,
        };
        let past = origin.past(alloc)?.entries;
        let mut made_of = Vec::new(alloc);
        made_of.extend_from_slice(origin.made_of())?;
        Ok(Some(StoreFacts {
            made_of,
            trials: origin.trials,
            past,
            next,
        }))
    }

    /// The index that the next entry of the store has, if it is known from its lines: without a record it may follow entries of the document.
    fn end(&self) -> u64
        ensures { result ≡ end_of self.now.past self.now.next }
    {
        match self.next {
            Some(next) => next,
            None => self.past,
        }
    }

    /// What another store is to this one.
    pub fn relation(&self, other: &StoreFacts) -> Relation
        ensures { result ≡ relation_of self.now other.now }
    {
        if self.made_of.as_slice() != other.made_of.as_slice() || self.trials != other.trials {
            return Relation::Other;
        }
        if other.next.is_none() {
            return Relation::Leftover;
        }
        let goes_on = if self.next.is_none() {
            self.end() <= other.past
        } else {
            self.end() == other.past
        };
        if goes_on {
            Relation::Further
        } else {
            Relation::Apart
        }
    }
}
