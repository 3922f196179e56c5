//! The matches of a statement for all matches.
ghost use Rattle.std.specs.Prelude.{◌≡◌, length, slice_get, IsTrue, ◌↔◌, []};
ghost use Rattle.std.specs.Option.{option_map};
ghost use Rattle.sno_statement.specs.MatchLists.{list_part, match_lent};

use crate::last_assignments::Last;
use crate::{Bindings, BindingsRef};
use sno_pattern::{Name, Text};
use std::marker::Model;
use std::sync::Arc;

/// One of the matches of a statement for all matches.
#[derive(Drop)]
pub struct Match {
    /// The cursor from which the match began.
    pub start: usize,
    /// The cursor at which it ended.
    pub end: usize,
    /// The variables that its search assigned: first those assigned at once, then those of the conditional assignments.
    pub bindings: Bindings,
}

/// One of the matches of a statement for all matches, lent.
#[derive(Drop)]
pub struct MatchRef<'m> {
    /// The cursor from which the match began.
    pub start: usize,
    /// The cursor at which it ended.
    pub end: usize,
    /// The variables that its search assigned: first those assigned at once, then those of the conditional assignments.
    pub bindings: BindingsRef<'m>,
}

/// Where a match began and ended, and which of the assignments of all matches are its own: those from one place up to another.
#[derive(Clone, Copy)]
pub(crate) struct Span {
    pub(crate) start: usize,
    pub(crate) end: usize,
    pub(crate) from: usize,
    pub(crate) to: usize,
}

/// The matches of a statement for all matches, in their order. They don't overlap. Their strings are not copied: they are parts of
/// the text that was matched, which is shared. So a match takes 32 bytes, and each of its variables some 100.
#[derive(Drop)]
pub struct Matches {
    pub(crate) subject: Arc<Text>,
    pub(crate) assigned: Vec<(Name, Last)>,
    pub(crate) spans: Vec<Span>,
}

impl Model for Matches {
    ghost use Rattle.std.specs.Prelude.{List, map};
    ghost use Rattle.std.specs.Arc.{arc_value};
    ghost use Rattle.sno_statement.specs.declared.match_lists.Match.{Match};
    ghost use Rattle.sno_statement.specs.MatchLists.{match_seen};

    ghost Value = { List Match };

    ghost view = { λ s. map (match_seen (arc_value s.subject) s.assigned.items) s.spans.items };
}

impl Matches {
    /// How many matches there are.
    pub fn len(&self) -> usize
        ensures { result ≡ length self.now }
    {
        self.spans.len()
    }

    /// Whether there are no matches.
    pub fn is_empty(&self) -> bool
        ensures { IsTrue result ↔ (self.now ≡ []) }
    {
        self.spans.is_empty()
    }

    /// The match at a place, counted from 0; `None` from [`Matches::len`] on. It takes no memory.
    pub fn get(&self, place: usize) -> Option<MatchRef<'_>>
        ensures { option_map match_lent result ≡ slice_get self.now place }
    {
        let span = self.spans.get(place)?;
        let assigned = part_of(&self.assigned, span.from, span.to);
        Some(MatchRef {
            start: span.start,
            end: span.end,
            bindings: BindingsRef::assigned(&self.subject, assigned),
        })
    }
}

/// The assignments from one place up to another, as far as there are any.
fn part_of(assigned: &[(Name, Last)], from: usize, to: usize) -> &[(Name, Last)]
    ensures { result.now ≡ list_part assigned.now from to }
{
    let (_, rest) = assigned.split_at(from.min(assigned.len()));
    let count = to.saturating_sub(from);
    let (own, _) = rest.split_at(count.min(rest.len()));
    own
}
