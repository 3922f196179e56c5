//! The position of a place that comes after another.
ghost use Rattle.std.specs.Prelude.{◌≡◌, ◌<◌, ◌≤◌, length, IfSome};
ghost use Rattle.sno_edit.specs.Positions.{position_of};
ghost use Rattle.sno_find.specs.Feeds.{IsNextFeed};

use memchr::memchr;
use sno_edit::{Position, next_column, next_line};

/// How many bytes come before the first line feed between two places; `None` if there is none between them.
#[tactic(auto, using(crate::proofs::PassedLines::next_feed))]
fn until_line_feed(bytes: &[u8], from: usize, place: usize) -> Option<usize>
    requires after { from ≤ place }
    requires within { place ≤ length bytes.now }
    ensures { IfSome result (IsNextFeed bytes.now from place) }
{
    let (front, _rest) = bytes.split_at(place);
    let (_before, between) = front.split_at(from);
    memchr(b'\n', between)
}

/// The position after the first line feed between two places; `None` if there is none between them.
#[tactic(auto, using(crate::proofs::PassedLines::past_position, crate::proofs::Walk::line_at_most))]
fn after_line_feed(bytes: &[u8], from: Position, place: usize) -> Option<Position>
    requires within { place ≤ length bytes.now }
    requires after { from.place ≤ place }
    requires from { from ≡ position_of bytes.now from.place }
    ensures { IfSome result (λ p. (p ≡ position_of bytes.now p.place) × (from.place < p.place) × (p.place ≤ place)) }
{
    let count = until_line_feed(bytes, from.place, place)?;
    Some(Position {
        place: from.place + count + 1,
        line: from.line + 1,
        column: 1,
    })
}

/// The position of a place, from that of another that doesn't come after it. Only what is between them is gone through: line by line,
/// and the last line byte by byte.
#[tactic(auto, using(crate::proofs::Walk::line_at_most, crate::proofs::Walk::column_at_most))]
pub(crate) fn further(bytes: &[u8], from: Position, place: usize) -> Position
    requires within { place ≤ length bytes.now }
    requires after { from.place ≤ place }
    requires from { from ≡ position_of bytes.now from.place }
    ensures { result ≡ position_of bytes.now place }
{
    let mut at = from;
    while let Some(next) = after_line_feed(bytes, at, place) {
        at = next;
    }
    let mut line = at.line;
    let mut column = at.column;
    for index in at.place..place {
        let byte = bytes[index];
        line = next_line(line, byte);
        column = next_column(column, byte);
    }
    Position {
        place,
        line,
        column,
    }
}
