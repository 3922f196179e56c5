//! The last assignment of each variable, before any string is cut.
ghost use Rattle.std.specs.Prelude.{◌≡◌, ◌<◌, ◌≤◌, ℕ, List, [], Some, length, map, slice_get, IfOk, OnOk};
ghost use Rattle.std.specs.List.{IsDistinct};
ghost use Rattle.sno_pattern.specs.Identifiers.{same};
ghost use Rattle.sno_pattern.specs.declared.byte_texts.TheConstants.{MAX_BYTES};
ghost use Rattle.sno_pattern.specs.CursorLaws.{SetsLie, CursorLies};
ghost use Rattle.sno_statement.specs.Bindings.{bind, bind_sets, bind_conds, datum_of};
ghost use Rattle.sno_statement.specs.BindingRefs.{datum_lent};
ghost use Rattle.sno_statement.specs.LastAssignments.{value_of_last, values_of_last};

use crate::values::part;
use crate::{Bindings, Datum, DatumRef, TextPart};
use indexmap::IndexMap;
use sno_pattern::{Assign, Name, Text, What};
use std::alloc::{AllocError, Global};
use std::marker::Model;

/// What a variable was assigned last.
#[derive(Clone, Copy)]
pub(crate) enum Last {
    /// The characters between two cursors.
    Part(usize, usize),
    /// A cursor.
    Cursor(u32),
}

impl Last {
    /// What an immediate assignment assigns.
    pub(crate) fn of(subject: &[u8], what: What) -> Last
        requires short { length subject.now ≤ MAX_BYTES }
        requires lies { CursorLies subject.now what }
        ensures { value_of_last subject.now result ≡ datum_of subject.now what }
    {
        // for the proof: the cursor lies in the subject
        let _length = subject.len();
        match what {
            What::Part(from, to) => Last::Part(from, to),
            What::Cursor(cursor) => Last::Cursor(cursor as u32),
        }
    }

    /// The value, with its string as a part of the subject.
    pub(crate) fn lent<'t>(self, subject: &'t Text) -> DatumRef<'t>
        ensures { datum_lent result ≡ value_of_last subject.now self }
    {
        match self {
            Last::Part(from, to) => DatumRef::Str(TextPart::between(subject, from, to)),
            Last::Cursor(cursor) => DatumRef::Int(cursor),
        }
    }

    /// The value, with its string cut from the subject.
    fn value(self, alloc: Global, subject: &Text) -> Result<Datum, AllocError>
        ensures { IfOk result (λ d. d ≡ value_of_last subject.now self) }
    {
        match self {
            Last::Part(from, to) => {
                let text = part(alloc, subject, from, to)?;
                Ok(Datum::Str(text))
            }
            Last::Cursor(cursor) => Ok(Datum::Int(cursor)),
        }
    }

    /// Binds a variable to the value, after what is already bound.
    pub(crate) fn bind_in(
        self,
        alloc: Global,
        subject: &Text,
        name: Name,
        bindings: &mut Bindings,
    ) -> Result<(), AllocError>
        ensures { OnOk result (bindings.new ≡ bind bindings.old name (value_of_last subject.now self)) }
    {
        let value = self.value(alloc, subject)?;
        bindings.set(name, value)
    }
}

/// The variables that were assigned, in the order of their first assignment, each with its last one. A variable may be
/// assigned a million times in a match, and only what it has in the end is cut from the subject.
#[derive(Drop)]
pub(crate) struct LastAssignments {
    map: IndexMap<Name, Last>,
}

impl Model for LastAssignments {
    ghost use Rattle.std.specs.Prelude.{List, ℕ};
    ghost use Rattle.sno_statement.specs.declared.last_assignments.Last.{Last};

    ghost Value = { List (List ℕ × Last) };

    ghost view = { λ s. s.map.entries };
}

impl LastAssignments {
    /// No variable was assigned yet.
    fn new(alloc: Global) -> LastAssignments
        ensures { result ≡ [] }
    {
        LastAssignments {
            map: IndexMap::new(alloc),
        }
    }

    /// Notes one more assignment. A variable keeps its first place.
    #[tactic(auto, using(crate::proofs::Entries::bind_inserts, crate::proofs::LastValues::bind_values))]
    fn note(&mut self, name: Name, last: Last) -> Result<(), AllocError>
        ensures { OnOk result ((t : List ℕ) → values_of_last t self.new ≡ bind (values_of_last t self.old) name (value_of_last t last)) }
    {
        self.map.insert(name, last)?;
        Ok(())
    }

    /// Notes the immediate assignments, after what was noted already.
    fn note_at_once(&mut self, subject: &[u8], sets: &[Assign]) -> Result<(), AllocError>
        requires short { length subject.now ≤ MAX_BYTES }
        requires lie { SetsLie subject.now sets.now }
        ensures { OnOk result (values_of_last subject.now self.new ≡ bind_sets subject.now (values_of_last subject.now self.old) sets.now) }
    {
        for set in sets {
            self.note(set.name, Last::of(subject, set.what))?;
        }
        Ok(())
    }

    /// Notes the conditional assignments, after what was noted already.
    fn note_later(&mut self, conds: &[(Name, usize, usize)]) -> Result<(), AllocError>
        ensures { OnOk result ((t : List ℕ) → values_of_last t self.new ≡ bind_conds t (values_of_last t self.old) conds.now) }
    {
        for (name, from, to) in conds {
            self.note(*name, Last::Part(*from, *to))?;
        }
        Ok(())
    }

    /// The last assignments of a match: of those at once, and then of the conditional ones.
    pub(crate) fn of_match(
        alloc: Global,
        subject: &[u8],
        sets: &[Assign],
        conds: &[(Name, usize, usize)],
    ) -> Result<LastAssignments, AllocError>
        requires short { length subject.now ≤ MAX_BYTES }
        requires lie { SetsLie subject.now sets.now }
        ensures { IfOk result (λ lasts. values_of_last subject.now lasts ≡ bind_conds subject.now (bind_sets subject.now [] sets.now) conds.now) }
    {
        let mut lasts = LastAssignments::new(alloc);
        lasts.note_at_once(subject, sets)?;
        lasts.note_later(conds)?;
        Ok(lasts)
    }

    /// How many variables were assigned. They are distinct.
    pub(crate) fn len(&self) -> usize
        ensures count { result ≡ length self.now }
        ensures distinct { IsDistinct same (map (λ b. b.0) self.now) }
    {
        self.map.len()
    }

    /// The variable at this place, with its last assignment.
    pub(crate) fn at(&self, place: usize) -> (Name, Last)
        requires { place < length self.now }
        ensures { slice_get self.now place ≡ Some result }
    {
        let (name, last) = self.map.get_index(place).unwrap();
        (*name, *last)
    }

    /// The bindings: each variable's value, with its string cut from the subject.
    #[tactic(auto, using(crate::proofs::LastValues::next_value, crate::proofs::LastValues::no_value_left, crate::proofs::LastValues::bind_all_values))]
    pub(crate) fn to_bindings(&self, alloc: Global, subject: &Text) -> Result<Bindings, AllocError>
        ensures { IfOk result (λ b. b ≡ values_of_last subject.now self.now) }
    {
        let mut bindings = Bindings::new(alloc);
        for place in 0..self.len() {
            let (name, last) = self.at(place);
            last.bind_in(alloc, subject, name, &mut bindings)?;
        }
        Ok(bindings)
    }
}
