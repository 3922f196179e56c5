//! The matches of a pass, as they are found.
ghost use Rattle.std.specs.Prelude.{◌≡◌, ◌++◌, ◌∷◌, [], ℕ, List, OnOk, Some};
ghost use Rattle.std.specs.Arc.{arc_value};
ghost use Rattle.sno_pattern.specs.CursorLaws.{SetsLie};
ghost use Rattle.sno_statement.specs.declared.match_lists.Match.{Match};
ghost use Rattle.sno_statement.specs.Gathered.{AreGathered};
ghost use Rattle.sno_statement.specs.Passes.{match_by};

use crate::assigned::Assigned;
use crate::last_assignments::Last;
use crate::match_lists::{Matches, Span};
use sno_pattern::{Assigns, Hit, Name, Text};
use std::alloc::{AllocError, Global};
use std::sync::Arc;

/// The matches of a pass that were found so far.
#[derive(Drop)]
pub(crate) struct Gathered {
    one: Assigned,
    pub(crate) assigned: Vec<(Name, Last)>,
    pub(crate) spans: Vec<Span>,
}

impl Gathered {
    /// No match was found yet.
    pub(crate) fn new(alloc: Global) -> Gathered
        ensures { (t : List ℕ) → AreGathered t result [] }
    {
        Gathered {
            one: Assigned::new(alloc),
            assigned: Vec::new(alloc),
            spans: Vec::new(alloc),
        }
    }

    /// Adds the match of a search, with what the search assigned. If out of memory, what was gathered can't be used any more.
    #[inline(always)]
    pub(crate) fn add(
        &mut self,
        alloc: Global,
        subject: &Text,
        sets: &Assigns,
        hit: &Hit,
    ) -> Result<(), AllocError>
        requires { SetsLie subject.now sets.now }
        ensures { OnOk result ((ms : List Match) → AreGathered subject.now self.old ms → AreGathered subject.now self.new (ms ++ match_by subject.now sets.now hit.now ∷ [])) }
    {
        let conds = hit.conds.as_slice();
        self.one
            .replace(alloc, subject.bytes(), sets.as_slice(), conds)?;
        let from = self.assigned.len();
        self.assigned.extend_from_slice(self.one.as_slice())?;
        self.spans.push(Span {
            start: hit.start,
            end: hit.end,
            from,
            to: self.assigned.len(),
        })?;
        Ok(())
    }

    /// The matches, whose strings are parts of this text.
    pub(crate) fn into_matches(self, subject: Arc<Text>) -> Matches
        ensures { (ms : List Match) → AreGathered (arc_value subject) self ms → result ≡ ms }
    {
        Matches {
            subject,
            assigned: self.assigned,
            spans: self.spans,
        }
    }
}
