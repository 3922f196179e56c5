//! What happens while a pattern is matched.
ghost use Rattle.std.specs.Prelude.{◌≡◌};

use crate::Name;
use std::marker::Model;

/// What a variable is assigned while a match goes on.
#[derive(Clone, Copy, Debug, PartialEq, Eq)]
pub enum What {
    /// The characters between two cursors.
    Part(usize, usize),
    /// A cursor, as a number.
    Cursor(usize),
}

/// An immediate assignment: it is done at once, by `$` or `@`.
#[derive(Clone, Copy, Debug, PartialEq, Eq)]
pub struct Assign {
    /// The variable.
    pub name: Name,
    /// What it is assigned.
    pub what: What,
}

/// Immediate assignments, in their order.
#[derive(Debug, Drop)]
pub struct Assigns {
    list: Vec<Assign>,
}

impl Model for Assigns {
    ghost use Rattle.std.specs.Prelude.{List};
    ghost use Rattle.sno_pattern.specs.declared.events.Assign.{Assign};

    ghost Value = { List Assign };

    ghost view = { λ s. s.list.items };
}

impl Assigns {
    /// The list. It takes no memory.
    pub fn of(list: Vec<Assign>) -> Assigns
        ensures { result ≡ list.items }
    {
        Assigns { list }
    }

    /// The assignments, in their order.
    pub fn as_slice(&self) -> &[Assign]
        ensures { result.now ≡ self.now }
    {
        &self.list
    }
}

/// Conditional assignments, in the order in which their parts ended: each a variable and the two cursors of its part.
#[derive(Debug, Drop)]
pub struct Conds {
    parts: Vec<(Name, usize, usize)>,
}

impl Model for Conds {
    ghost use Rattle.std.specs.Prelude.{List, ℕ};

    ghost Value = { List (List ℕ × ℕ × ℕ) };

    ghost view = { λ s. s.parts.items };
}

impl Conds {
    /// These assignments. It takes no memory.
    pub fn of(parts: Vec<(Name, usize, usize)>) -> Conds
        ensures { result ≡ parts.items }
    {
        Conds { parts }
    }

    /// The assignments, in their order.
    pub fn as_slice(&self) -> &[(Name, usize, usize)]
        ensures { result.now ≡ self.now }
    {
        &self.parts
    }

    /// The list that they were made from, so that its memory can be used again.
    pub fn into_parts(self) -> Vec<(Name, usize, usize)>
        ensures { result.items ≡ self }
    {
        self.parts
    }
}

/// One event of a match.
#[derive(Debug, Drop)]
pub enum Event {
    /// A trial: a leaf is met at a cursor, or backed into for a further end.
    Try,
    /// A variable is assigned at once.
    Set(Assign),
    /// A match ends at this cursor, with these conditional assignments.
    End(usize, Conds),
    /// The whole match fails.
    Halt,
}
