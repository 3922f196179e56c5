//! The events of a match, with notes.
ghost use Rattle.std.specs.Prelude.{◌≡◌, IfOk};
ghost use Rattle.sno_pattern.specs.Tree.{tree_of};

use sno_pattern::{Assign, Conds, Pattern};
use std::alloc::{AllocError, Global};
use std::marker::Model;

/// A leaf of a pattern: a pattern without parts.
#[derive(Debug, Drop)]
pub struct Leaf<'a> {
    pattern: &'a Pattern,
}

impl<'a> Model for Leaf<'a> {
    ghost use Rattle.sno_pattern.specs.Tree.{Tree, tree_of};
    ghost use Rattle.sno_pattern.specs.Definitions.{tree_code};

    ghost Value = { Tree };

    ghost coded = { tree_code };

    ghost view = { λ s. tree_of s.pattern.now };
}

impl<'a> Leaf<'a> {
    /// This leaf.
    pub fn of(pattern: &'a Pattern) -> Leaf<'a>
        ensures { result ≡ tree_of pattern.now }
    {
        Leaf { pattern }
    }

    /// The pattern.
    pub fn pattern(&self) -> &'a Pattern
        ensures { tree_of result.now ≡ self.now }
    {
        self.pattern
    }
}

/// A trial: a leaf is met at a cursor, or backed into for a further end.
#[derive(Debug, Drop)]
pub struct Trial<'a> {
    /// What is tried.
    pub leaf: Leaf<'a>,
    /// The cursor at which it is tried.
    pub cursor: usize,
    /// Where it ends; `None` if it fails.
    pub end: Option<usize>,
    /// Whether it is backed into for a further end.
    pub again: bool,
    /// How many more references could be nested around it.
    pub below: u128,
}

impl<'a> Trial<'a> {
    /// This trial once more. It takes no memory.
    pub fn copied(&self) -> Trial<'a>
        ensures { result ≡ self.now }
    {
        Trial {
            leaf: Leaf::of(self.leaf.pattern()),
            cursor: self.cursor,
            end: self.end,
            again: self.again,
            below: self.below,
        }
    }
}

/// What a mark says.
#[derive(Clone, Copy, Debug, PartialEq, Eq)]
pub enum Landmark {
    /// The definition with this number is entered.
    Enter(usize),
    /// The definition with this number ends at this cursor, and what follows the reference goes on.
    Leave(usize, usize),
    /// The definition with this number has no further end.
    Fail(usize),
    /// A round of `ARBNO` took no character, and is dropped.
    NullRound,
}

/// A mark between trials. It changes nothing.
#[derive(Clone, Copy, Debug, PartialEq, Eq)]
pub struct Marked {
    /// What it says.
    pub what: Landmark,
    /// Of a definition the cursor at which it was entered; of a round the cursor at which it began and ended.
    pub cursor: usize,
    /// How many more references could be nested around it. Those around a definition are the ones around its reference.
    pub below: u128,
}

/// One event of a match.
#[derive(Debug, Drop)]
pub enum Noted<'a> {
    /// A trial.
    Try(Trial<'a>),
    /// A variable is assigned at once.
    Set(Assign),
    /// A definition is entered or left, or a round is dropped.
    Mark(Marked),
    /// A match ends at this cursor, with these conditional assignments.
    End(usize, Conds),
    /// The whole match fails.
    Halt,
    /// No more is shown: another trial would come, and as many as the limit allows were shown.
    Stop,
}

impl<'a> Noted<'a> {
    /// This event once more. Refused only if out of memory.
    pub fn copied(&self, alloc: Global) -> Result<Noted<'a>, AllocError>
        ensures { IfOk result (λ event. event ≡ self.now) }
    {
        let event = match self {
            Noted::Try(trial) => Noted::Try(trial.copied()),
            Noted::Set(assign) => Noted::Set(*assign),
            Noted::Mark(mark) => Noted::Mark(*mark),
            Noted::End(end, conds) => Noted::End(*end, copied(alloc, conds)?),
            Noted::Halt => Noted::Halt,
            Noted::Stop => Noted::Stop,
        };
        Ok(event)
    }
}

/// These assignments once more.
fn copied(alloc: Global, conds: &Conds) -> Result<Conds, AllocError>
    ensures { IfOk result (λ list. list ≡ conds.now) }
{
    let list = Vec::from_slice(alloc, conds.as_slice())?;
    Ok(Conds::of(list))
}
