//! What a file holds: its lines, and what comes after them.
ghost use Rattle.std.specs.Prelude.{◌≡◌, ◌+◌, ◌<◌, ◌↔◌, IsTrue, drop, length, replicate};
ghost use Rattle.sno_store.specs.Lines.{recovered, bytes_of};
ghost use Rattle.sno_store.specs.Shown.{lines_in};

use crate::Lines;
use crate::splitting::{are_zeros, end_of_lines};

/// The parts of a file.
#[derive(Drop)]
pub(crate) struct Content {
    pub lines: Lines,
    /// Where the lines end.
    pub end: usize,
    /// How many bytes come after them.
    pub room: usize,
    /// Whether these are zeros, at least one.
    pub has_zeros: bool,
}

/// The parts of a file with these bytes. The lines keep its memory.
pub(crate) fn content_of(bytes: Vec<u8>) -> Content
    ensures lines { lines_in result.lines ≡ recovered bytes.items }
    ensures end { result.end ≡ length (bytes_of (recovered bytes.items)) }
    ensures all { result.end + result.room ≡ length bytes.items }
    ensures zeros { IsTrue result.has_zeros ↔ ((0 < result.room) × (drop result.end bytes.items ≡ replicate result.room 0)) }
{
    let end = end_of_lines(&bytes);
    let room = bytes.len() - end;
    let has_zeros = room > 0 && are_zeros(bytes.split_at(end).1);
    let mut bytes = bytes;
    bytes.truncate(end);
    Content {
        lines: Lines::of_whole(bytes),
        end,
        room,
        has_zeros,
    }
}
