//! The characters around a place, in one line.

use crate::Excerpt;
use std::alloc::{AllocError, Global};

/// How many bytes before a place an excerpt shows.
const BEFORE: usize = 60;

/// How many bytes from a place on an excerpt shows.
const AFTER: usize = 40;

/// A place in a text of several lines.
#[derive(Clone, Copy)]
pub struct Position {
    /// The line, from 1.
    pub line: usize,
    /// The character of the line, from 1.
    pub column: usize,
    /// How many bytes come before the line.
    pub start: usize,
}

/// The position of the character that has `place` bytes before it.
pub fn position_of(text: &str, place: usize) -> Position {
    let mut found = Position {
        line: 1,
        column: 1,
        start: 0,
    };
    for (at, character) in text.char_indices() {
        if at >= place {
            break;
        }
        if character == '\n' {
            found.line = found.line.saturating_add(1);
            found.column = 1;
            found.start = at.saturating_add(1);
        } else {
            found.column = found.column.saturating_add(1);
        }
    }
    found
}

fn printable(character: char) -> char {
    if character.is_control() || character == '\u{FEFF}' {
        '?'
    } else {
        character
    }
}

/// The characters around the place that has `place` bytes before it: none of the first `start` bytes, and none from the
/// next line end on. Refused only if memory runs out.
pub fn around(
    alloc: Global,
    text: &str,
    start: usize,
    place: usize,
) -> Result<Excerpt, AllocError> {
    let first = place.saturating_sub(BEFORE).max(start);
    let end = place.saturating_add(AFTER);
    let mut shown = String::new(alloc);
    let mut column: usize = 0;
    for (at, character) in text.char_indices() {
        if at >= end || (at >= place && character == '\n') {
            break;
        }
        if at >= first {
            shown.push(printable(character))?;
            if at < place {
                column = column.saturating_add(1);
            }
        }
    }
    Ok(Excerpt { shown, column })
}

/// A word of the document as messages show it: at most 60 bytes of it, in one line. Refused only if memory runs out.
pub fn shown(alloc: Global, word: &str) -> Result<String, AllocError> {
    let mut shown = String::new(alloc);
    for (at, character) in word.char_indices() {
        if at >= BEFORE {
            shown.push_str("..")?;
            break;
        }
        shown.push(printable(character))?;
    }
    Ok(shown)
}
