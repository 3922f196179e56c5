//! What a book begins with.
ghost use Rattle.std.specs.Prelude.{◌≡◌, ◌≤◌, Decides, Some, length, nat_eq, slice_get};
ghost use Rattle.std.specs.Option.{option_map};
ghost use Rattle.std.specs.Arc.{arc_value};
ghost use Rattle.sno_pattern.specs.NameList.{place_of};
ghost use Rattle.sno_book.specs.Openings.{names_in, place_in, texts_seen, IsOpening};

use indexmap::IndexMap;
use sno_pattern::{Text, TextName};
use std::marker::Model;
use std::sync::Arc;

/// The most texts that a book has.
pub const MAX_TEXTS: usize = 1_024;

/// The most entries for which a journal may have room.
pub const MAX_ENTRIES: u32 = 1_000_000;

/// The texts and the room that a book was given: at most 1,024 texts, no two of one name, and room for at most
/// 1,000,000 entries. The calls that read it take no memory.
#[derive(Drop)]
pub struct Opening {
    texts: IndexMap<TextName, Arc<Text>>,
    room: u32,
}

impl Model for Opening {
    ghost use Rattle.sno_book.specs.Openings.{Opening, opening_code, texts_seen, IsOpening};

    ghost Value = { Opening };

    ghost coded = { opening_code };

    ghost view = { λ s. record { texts = texts_seen s.texts.entries; room = s.room } };

    ghost invariant = { λ s. IsOpening (record { texts = texts_seen s.texts.entries; room = s.room }) };
}

impl Opening {
    /// The opening of these texts, with this room.
    pub(crate) fn of(texts: IndexMap<TextName, Arc<Text>>, room: u32) -> Opening
        requires { IsOpening (record { texts = texts_seen texts.entries; room = room }) }
        ensures { result ≡ record { texts = texts_seen texts.entries; room = room } }
    {
        Opening { texts, room }
    }

    /// How many entries the journal may hold, at most 1,000,000.
    pub fn room(&self) -> u32
        ensures room { result ≡ self.now.room }
        ensures small { self.now.room ≤ MAX_ENTRIES }
    {
        self.room
    }

    /// How many texts there are, at most 1,024.
    pub fn len(&self) -> usize
        ensures count { result ≡ length self.now.texts }
        ensures opening { IsOpening self.now }
    {
        self.texts.len()
    }

    /// Whether there are no texts.
    pub fn is_empty(&self) -> bool
        ensures { result ≡ nat_eq (length self.now.texts) 0 }
    {
        self.texts.is_empty()
    }

    /// The place of the text with this name, from 0, if there is one.
    pub fn place(&self, name: &TextName) -> Option<usize>
        ensures { result ≡ place_of (names_in self.now.texts) name.now }
    {
        self.texts.get_index_of(name)
    }

    /// Whether the text at this place has this name. It compares two names, and hashes none.
    #[tactic(auto, using(crate::proofs::Named::decides_row, crate::proofs::Named::decides_no_row))]
    pub(crate) fn has_at(&self, place: usize, name: &TextName) -> bool
        ensures { Decides result (place_in self.now name.now ≡ Some place) }
    {
        // for the proof
        let _ = self.len();
        match self.row(place) {
            Some((there, _)) => there == name,
            None => false,
        }
    }

    /// The text at this place, as it was given, with its name. `None` if the place is [`Opening::len`] or more.
    pub fn row(&self, place: usize) -> Option<(&TextName, &Arc<Text>)>
        ensures { option_map (λ t. (t.0.now, arc_value t.1.now)) result ≡ slice_get self.now.texts place }
    {
        self.texts.get_index(place)
    }
}
