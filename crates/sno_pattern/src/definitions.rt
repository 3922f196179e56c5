//! Admitted definitions.
ghost use Rattle.std.specs.Prelude.{◌≡◌, ◌≤◌, ◌↔◌, [], length, slice_get, not, IsTrue};
ghost use Rattle.std.specs.Option.{option_copied, option_map};
ghost use Rattle.std.specs.List.{list_all, position_from};
ghost use Rattle.sno_pattern.specs.Tree.{tree_of, trees, refs_below};
ghost use Rattle.sno_pattern.specs.Guard.{Guarded};
ghost use Rattle.sno_pattern.specs.Admission.{IsAdmitted, first_bad_ref};
ghost use Rattle.sno_pattern.specs.declared.name_list.TheConstants.{MAX_DEFINITIONS};

use crate::admission::first_cycle;
use crate::{Name, Names, Pattern};
use std::alloc::Global;
use std::marker::Model;
use thiserror::Error;

/// Admitted definitions: names, and a pattern for each, which may refer to one another.
#[derive(Drop)]
pub struct Rules {
    names: Names,
    bodies: Vec<Pattern>,
}

impl Model for Rules {
    ghost use Rattle.sno_pattern.specs.Tree.{trees};
    ghost use Rattle.sno_pattern.specs.Definitions.{Definitions, definitions_code, AreClosed};
    ghost use Rattle.sno_pattern.specs.Guard.{Guarded};

    ghost Value = { Definitions };

    ghost coded = { definitions_code };

    ghost view = { λ s. record { names = s.names; bodies = trees s.bodies.items } };

    ghost invariant = { λ s. AreClosed s.names (trees s.bodies.items) × Guarded (trees s.bodies.items) };
}

/// Why definitions are not admitted.
#[derive(Debug, PartialEq, Eq, Drop, Error)]
pub enum RulesFault {
    /// The first definition that refers past the last one, by its number.
    #[error("bad reference in definition {0}")]
    BadRef(usize),
    /// Definitions on a cycle of references that takes no character.
    #[error("unguarded")]
    Unguarded(Vec<usize>),
    /// Out of memory.
    #[error("out of memory")]
    Memory,
}

impl Rules {
    /// These definitions, with as many bodies as names.
    ///
    /// Refused, in this order:
    /// - `BadRef` with the first definition that refers past the last one;
    /// - `Unguarded` with a cycle: distinct definitions, where each refers to the next, and the last to the first. No part
    ///   before such a reference takes a character. The cycle begins with the first definition that lies on one;
    /// - `Memory`.
    ///
    /// If refused, names and bodies are dropped.
    pub fn admit(alloc: Global, names: Names, bodies: Vec<Pattern>) -> Result<Rules, RulesFault>
        requires { length names ≡ length bodies.items }
        ensures { IsAdmitted result names (trees bodies.items) }
    {
        if let Some(place) = first_bad_ref(&bodies) {
            return Err(RulesFault::BadRef(place));
        }
        match first_cycle(alloc, &bodies) {
            Ok(None) => Ok(Rules { names, bodies }),
            Ok(Some(cycle)) => Err(RulesFault::Unguarded(cycle)),
            Err(_) => Err(RulesFault::Memory),
        }
    }

    /// Whether each reference of the pattern is to one of these definitions.
    pub fn covers(&self, pattern: &Pattern) -> bool
        ensures { result ≡ refs_below (length self.now.bodies) (tree_of pattern.now) }
    {
        refs_below(self.bodies.len(), pattern)
    }

    /// The pattern of the definition with this number.
    pub fn body(&self, number: usize) -> Option<&Pattern>
        ensures { option_map (λ p. tree_of p.now) result ≡ slice_get self.now.bodies number }
    {
        self.bodies.get(number)
    }

    /// The patterns of all definitions, in order. Each reference in them is to one of them, and each cycle
    /// of references takes a character.
    pub fn bodies(&self) -> &[Pattern]
        ensures value { trees result.now ≡ self.now.bodies }
        ensures closed { IsTrue (list_all (refs_below (length self.now.bodies)) self.now.bodies) }
        ensures guarded { Guarded self.now.bodies }
    {
        self.bodies.as_slice()
    }

    /// The name of the definition with this number.
    pub fn name(&self, number: usize) -> Option<&Name>
        ensures { option_copied result ≡ slice_get self.now.names number }
    {
        self.names.get(number)
    }

    /// The names, as they were passed.
    pub fn names(&self) -> &Names
        ensures value { result.now ≡ self.now.names }
        ensures as_many { length self.now.names ≡ length self.now.bodies }
    {
        &self.names
    }

    /// How many definitions there are, at most 64.
    pub fn len(&self) -> usize
        ensures value { result ≡ length self.now.bodies }
        ensures few { result ≤ MAX_DEFINITIONS }
    {
        self.names.len()
    }

    /// Whether there are no definitions.
    pub fn is_empty(&self) -> bool
        ensures { IsTrue result ↔ (self.now.bodies ≡ []) }
    {
        self.bodies.is_empty()
    }
}

// The first definition that refers past the last.
fn first_bad_ref(bodies: &[Pattern]) -> Option<usize>
    ensures { result ≡ first_bad_ref (trees bodies.now) }
{
    first_past(bodies.len(), bodies)
}

// The first pattern that refers past `count` definitions.
fn first_past(count: usize, bodies: &[Pattern]) -> Option<usize>
    ensures { result ≡ position_from (λ p. not (refs_below count (tree_of p))) 0 bodies.now }
{
    bodies.iter().position(|body| !refs_below(count, body))
}

fn refs_below(count: usize, pattern: &Pattern) -> bool
    ensures { result ≡ refs_below count (tree_of pattern.now) }
{
    match pattern {
        Pattern::Ref(number) => *number < count,
        Pattern::Arbno(child) | Pattern::Cond(child, _) | Pattern::Imm(child, _) => refs_below(
            count, child,
        ),
        Pattern::Seq(left, right) | Pattern::Alt(left, right) => refs_below(count, left)
            && refs_below(count, right),
        _ => true,
    }
}
