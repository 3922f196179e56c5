//! Entries that are listed in part.
ghost use Rattle.std.specs.Prelude.{◌<◌, ◌+◌, ◌^◌, length};

use crate::Excerpt;
use sno_desk::Entry;

/// Entries of the journal. Those that an excerpt wants are listed.
#[derive(Drop)]
pub struct Listed {
    /// The index of the first one.
    pub from: usize,
    /// The entries.
    pub entries: Vec<Entry>,
    /// Which of them are listed.
    pub excerpt: Excerpt,
    ghost few: { from + length entries.items < 2 ^ 64 },
}
