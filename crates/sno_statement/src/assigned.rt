//! The variables of one match, each with its last assignment.
ghost use Rattle.std.specs.Prelude.{◌≡◌, ◌≤◌, ℕ, List, [], length, OnOk};
ghost use Rattle.std.specs.List.{position};
ghost use Rattle.sno_pattern.specs.Identifiers.{same};
ghost use Rattle.sno_pattern.specs.declared.byte_texts.TheConstants.{MAX_BYTES};
ghost use Rattle.sno_pattern.specs.CursorLaws.{SetsLie};
ghost use Rattle.sno_statement.specs.Bindings.{bind, bind_sets, bind_conds};
ghost use Rattle.sno_statement.specs.LastAssignments.{value_of_last, values_of_last};

use crate::last_assignments::{Last, LastAssignments};
use sno_pattern::{Assign, Name};
use std::alloc::{AllocError, Global};
use std::marker::Model;

/// From this many assignments on, a variable is looked up by its hash.
pub(crate) const MANY: usize = 16;

/// The variables that one match assigned, in the order of their first assignment, each with its last one. Its memory serves one
/// match after the other.
#[derive(Drop)]
pub(crate) struct Assigned {
    list: Vec<(Name, Last)>,
}

impl Model for Assigned {
    ghost use Rattle.std.specs.Prelude.{List, ℕ};
    ghost use Rattle.sno_statement.specs.declared.last_assignments.Last.{Last};

    ghost Value = { List (List ℕ × Last) };

    ghost view = { λ s. s.list.items };
}

impl Assigned {
    /// No variable was assigned yet.
    pub(crate) fn new(alloc: Global) -> Assigned
        ensures { result ≡ [] }
    {
        Assigned {
            list: Vec::new(alloc),
        }
    }

    /// The variables, with their last assignments.
    pub(crate) fn as_slice(&self) -> &[(Name, Last)]
        ensures { result.now ≡ self.now }
    {
        &self.list
    }

    /// Where a variable is among them.
    fn place_of(&self, name: &Name) -> Option<usize>
        ensures { result ≡ position (λ b. same name.now b.0) self.now }
    {
        self.list.iter().position(|known| *name == known.0)
    }

    /// Assigns a variable. It keeps its first place.
    fn assign(&mut self, name: Name, last: Last) -> Result<(), AllocError>
        ensures { OnOk result ((t : List ℕ) → values_of_last t self.new ≡ bind (values_of_last t self.old) name (value_of_last t last)) }
    {
        match self.place_of(&name) {
            Some(place) => self.list[place].1 = last,
            None => self.list.push((name, last))?,
        }
        Ok(())
    }

    /// Assigns what was assigned at once.
    fn assign_at_once(&mut self, subject: &[u8], sets: &[Assign]) -> Result<(), AllocError>
        requires short { length subject.now ≤ MAX_BYTES }
        requires lie { SetsLie subject.now sets.now }
        ensures { OnOk result (values_of_last subject.now self.new ≡ bind_sets subject.now (values_of_last subject.now self.old) sets.now) }
    {
        for set in sets {
            self.assign(set.name, Last::of(subject, set.what))?;
        }
        Ok(())
    }

    /// Assigns the conditional assignments.
    fn assign_later(&mut self, conds: &[(Name, usize, usize)]) -> Result<(), AllocError>
        ensures { OnOk result ((t : List ℕ) → values_of_last t self.new ≡ bind_conds t (values_of_last t self.old) conds.now) }
    {
        for (name, from, to) in conds {
            self.assign(*name, Last::Part(*from, *to))?;
        }
        Ok(())
    }

    /// Assigns a single conditional assignment, before any other.
    #[inline(always)]
    fn assign_only(&mut self, conds: &[(Name, usize, usize)]) -> Result<(), AllocError>
        requires first { self.old ≡ [] }
        requires single { length conds.now ≡ 1 }
        ensures { OnOk result ((t : List ℕ) → values_of_last t self.new ≡ bind_conds t [] conds.now) }
    {
        let (name, from, to) = conds[0];
        self.list.push((name, Last::Part(from, to)))?;
        Ok(())
    }

    /// Adds variables that are distinct, and none of those here.
    fn add(&mut self, lasts: &LastAssignments) -> Result<(), AllocError>
        ensures { OnOk result (self.old ≡ [] → self.new ≡ lasts.now) }
    {
        for place in 0..lasts.len() {
            self.list.push(lasts.at(place))?;
        }
        Ok(())
    }

    /// Assigns few assignments, before any other. Each variable is looked up in the list.
    #[inline]
    fn assign_few(
        &mut self,
        subject: &[u8],
        sets: &[Assign],
        conds: &[(Name, usize, usize)],
    ) -> Result<(), AllocError>
        requires first { self.old ≡ [] }
        requires short { length subject.now ≤ MAX_BYTES }
        requires lie { SetsLie subject.now sets.now }
        ensures { OnOk result (values_of_last subject.now self.new ≡ bind_conds subject.now (bind_sets subject.now [] sets.now) conds.now) }
    {
        self.assign_at_once(subject, sets)?;
        self.assign_later(conds)
    }

    /// Assigns many assignments, before any other. Each variable is looked up by its hash.
    fn assign_many(
        &mut self,
        alloc: Global,
        subject: &[u8],
        sets: &[Assign],
        conds: &[(Name, usize, usize)],
    ) -> Result<(), AllocError>
        requires first { self.old ≡ [] }
        requires short { length subject.now ≤ MAX_BYTES }
        requires lie { SetsLie subject.now sets.now }
        ensures { OnOk result (values_of_last subject.now self.new ≡ bind_conds subject.now (bind_sets subject.now [] sets.now) conds.now) }
    {
        let lasts = LastAssignments::of_match(alloc, subject, sets, conds)?;
        self.add(&lasts)
    }

    /// What one match assigned: first at once, then conditionally. What was assigned before is dropped.
    #[inline(always)]
    pub(crate) fn replace(
        &mut self,
        alloc: Global,
        subject: &[u8],
        sets: &[Assign],
        conds: &[(Name, usize, usize)],
    ) -> Result<(), AllocError>
        requires short { length subject.now ≤ MAX_BYTES }
        requires lie { SetsLie subject.now sets.now }
        ensures { OnOk result (values_of_last subject.now self.new ≡ bind_conds subject.now (bind_sets subject.now [] sets.now) conds.now) }
    {
        self.list.clear();
        if sets.is_empty() && conds.len() == 1 {
            // the most usual search: one conditional assignment
            self.assign_only(conds)
        } else if sets.len() < MANY && conds.len() < MANY {
            self.assign_few(subject, sets, conds)
        } else {
            self.assign_many(alloc, subject, sets, conds)
        }
    }
}
