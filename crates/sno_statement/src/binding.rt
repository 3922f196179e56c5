//! Variables and their values.
ghost use Rattle.std.specs.Prelude.{◌≡◌, ◌↔◌, [], length, slice_get, IsTrue, OnOk, OnErr, Some};
ghost use Rattle.std.specs.Option.{option_map};
ghost use Rattle.sno_statement.specs.Bindings.{AreDistinct, bind, lookup};

use crate::BindingsRef;
use indexmap::IndexMap;
use sno_pattern::{Name, Text};
use std::alloc::{AllocError, Global};
use std::marker::Model;

/// The value of a variable.
#[derive(Debug, PartialEq, Eq, Drop)]
pub enum Datum {
    /// A string.
    Str(Text),
    /// A number: a cursor, at most 65,536.
    Int(u32),
}

/// The variables that a statement assigned, in the order of their first assignment, each with its last value. No variable comes
/// twice, and one that was never assigned is missing. The methods that read take no memory.
#[derive(Drop)]
pub struct Bindings {
    map: IndexMap<Name, Datum>,
}

impl Model for Bindings {
    ghost use Rattle.std.specs.Prelude.{List, ℕ};
    ghost use Rattle.sno_statement.specs.declared.binding.Datum.{Datum};

    ghost Value = { List (List ℕ × Datum) };

    ghost view = { λ s. s.map.entries };
}

impl Bindings {
    /// No variables yet.
    pub(crate) fn new(alloc: Global) -> Bindings
        ensures { result ≡ [] }
    {
        Bindings {
            map: IndexMap::new(alloc),
        }
    }

    /// Assigns a value. A variable keeps its first place. If out of memory, nothing changes.
    #[tactic(auto, using(crate::proofs::Entries::bind_inserts))]
    pub(crate) fn set(&mut self, name: Name, value: Datum) -> Result<(), AllocError>
        ensures { OnOk result (self.new ≡ bind self.old name value) }
    {
        self.map.insert(name, value)?;
        Ok(())
    }

    /// These bindings, lent.
    pub fn lend(&self) -> BindingsRef<'_>
        ensures { result ≡ self.now }
    {
        BindingsRef::kept(self)
    }

    /// How many variables there are. They are distinct.
    pub fn len(&self) -> usize
        ensures value { result ≡ length self.now }
        ensures distinct { AreDistinct self.now }
    {
        self.map.len()
    }

    /// Whether there are no variables.
    pub fn is_empty(&self) -> bool
        ensures { IsTrue result ↔ (self.now ≡ []) }
    {
        self.map.is_empty()
    }

    /// The variable at a place in the order of first assignments, counted from 0, with its value; `None` from [`Bindings::len`] on.
    pub fn get(&self, place: usize) -> Option<(&Name, &Datum)>
        ensures { option_map (λ b. (b.0.now, b.1.now)) result ≡ slice_get self.now place }
    {
        self.map.get_index(place)
    }

    /// The last value of a variable; `None` if it was never assigned.
    #[tactic(auto, using(crate::proofs::Entries::lookup_finds))]
    pub fn value(&self, name: &Name) -> Option<&Datum>
        ensures { option_map (λ d. d.now) result ≡ lookup name.now self.now }
    {
        self.map.get(name)
    }
}
