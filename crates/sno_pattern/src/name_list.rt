//! The names of definitions, in order.
ghost use Rattle.std.specs.Prelude.{◌≡◌, ◌↔◌, [], length, slice_get, IsTrue};
ghost use Rattle.std.specs.Option.{option_copied};
ghost use Rattle.sno_pattern.specs.NameList.{names_of, AreNames, GivesNames, place_of, first_reserved};
ghost use Rattle.sno_pattern.specs.declared.name_list.NamesFault.TheVariants.{Memory};

use crate::Name;
use indexmap::IndexSet;
use std::alloc::{AllocFailed, Global};
use std::marker::Model;
use thiserror::Error;

/// The most definitions that there can be.
pub const MAX_DEFINITIONS: usize = 64;

/// The names of definitions in their order: at most 64, no reserved word among them, and no repeated name.
#[derive(Drop)]
pub struct Names {
    set: IndexSet<Name>,
}

impl Model for Names {
    ghost use Rattle.std.specs.Prelude.{ℕ, List};
    ghost use Rattle.sno_pattern.specs.NameList.{AreNames};

    ghost Value = { List (List ℕ) };

    ghost view = { λ s. s.set.keys };

    ghost invariant = { λ s. AreNames s.set.keys };
}

/// Why a list can't be the names of definitions.
#[derive(Clone, Copy, Debug, PartialEq, Eq, Error)]
pub enum NamesFault {
    /// More than 64 names.
    #[error("too many")]
    TooMany,
    /// The name at this place is a reserved word, and the first such.
    #[error("reserved name at {0}")]
    Reserved(usize),
    /// The name at this place repeats an earlier one, and is the first that does.
    #[error("duplicate at {0}")]
    Duplicate(usize),
    /// Out of memory.
    #[error("out of memory")]
    Memory,
}

impl<T: Drop> From<AllocFailed<T>> for NamesFault {
    ghost from_gives = { λ _ e. e ≡ Memory };

    fn from(_refused: AllocFailed<T>) -> NamesFault {
        NamesFault::Memory
    }
}

impl Names {
    /// These names, as names of definitions in this order.
    ///
    /// Refused, in this order:
    /// - `TooMany` for more than 64 names;
    /// - `Reserved` with the place of the first reserved word;
    /// - `Duplicate` with the first place that repeats an earlier one.
    ///
    /// `Memory` may come instead of the names or of `Duplicate`.
    pub fn new(alloc: Global, names: &[Name]) -> Result<Names, NamesFault>
        ensures { GivesNames result (names_of names.now) }
    {
        if names.len() > MAX_DEFINITIONS {
            return Err(NamesFault::TooMany);
        }
        if let Some(place) = first_reserved(names) {
            return Err(NamesFault::Reserved(place));
        }
        let mut set = IndexSet::new(alloc);
        for name in names {
            let place = set.len();
            if !set.insert(*name)? {
                return Err(NamesFault::Duplicate(place));
            }
        }
        Ok(Names { set })
    }

    /// The number of the definition with this name, if there is one.
    pub fn place(&self, name: &Name) -> Option<usize>
        ensures { result ≡ place_of self.now name.now }
    {
        self.set.get_index_of(name)
    }

    /// The name of the definition with this number, if there is one.
    pub fn get(&self, number: usize) -> Option<&Name>
        ensures { option_copied result ≡ slice_get self.now number }
    {
        self.set.get_index(number)
    }

    /// How many names there are, at most 64.
    pub fn len(&self) -> usize
        ensures value { result ≡ length self.now }
        ensures names { AreNames self.now }
    {
        self.set.len()
    }

    /// Whether there are no names.
    pub fn is_empty(&self) -> bool
        ensures { IsTrue result ↔ (self.now ≡ []) }
    {
        self.set.is_empty()
    }
}

fn first_reserved(names: &[Name]) -> Option<usize>
    ensures { result ≡ first_reserved names.now }
{
    names.iter().position(|name| name.is_reserved())
}
