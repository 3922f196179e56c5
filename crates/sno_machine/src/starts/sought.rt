//! Heads that are sought in a text.
ghost use Rattle.std.specs.Prelude.{◌≡◌, ℕ, false};
ghost use Rattle.memchr.specs.Find.{IsFirstByte};
ghost use Rattle.sno_machine.specs.Beginnings.{any_begins, may_begin};

use crate::starts::head_tables::HeadTable;
use crate::starts::heads::Head;
use crate::starts::needles::{Needle, together};

/// Heads that are sought in a text.
#[derive(Clone, Copy)]
pub enum Sought<'a> {
    /// Sought as bytes.
    Few(Needle<'a>),
    /// Sought by a table.
    Many(HeadTable),
}

impl<'a> Sought<'a> {
    /// These heads. There may be none.
    pub fn of(heads: &[Head<'a>]) -> Sought<'a>
        ensures { (x : ℕ) → may_begin result x ≡ false → any_begins heads.now x ≡ false }
    {
        match together(heads) {
            Some(needle) if needle.is_bytes() => Sought::Few(needle),
            _ => Sought::Many(HeadTable::of(heads)),
        }
    }

    /// The index of the first character of the text with which one of the heads can begin, if there is one.
    pub fn first(&self, text: &[u8]) -> Option<usize>
        ensures { IsFirstByte (may_begin self.now) text.now result }
    {
        match self {
            Sought::Few(needle) => needle.first(text),
            Sought::Many(table) => table.first(text),
        }
    }
}
