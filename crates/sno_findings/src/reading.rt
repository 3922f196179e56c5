//! What to write instead where a pattern or an object can't be read.

use sno_pattern::is_name_char;
use sno_read::ReadFault;

/// What is wanted in place of a character in a set of a rule that is not ASCII.
pub const WIDE_SET_ADVICE: &str =
    "a set has only ASCII characters; write alternatives, as ('é' | 'à')";

/// How many characters come before the point of a fault.
pub fn place_of(fault: &ReadFault) -> usize {
    match fault {
        ReadFault::Empty(place)
        | ReadFault::OpenQuote(place)
        | ReadFault::Unexpected(place)
        | ReadFault::BadNumber(place)
        | ReadFault::UnknownName(place)
        | ReadFault::EmptySet(place)
        | ReadFault::TooDeep(place)
        | ReadFault::TooLong(place)
        | ReadFault::ReservedTarget(place)
        | ReadFault::NonAscii(place) => *place,
        ReadFault::Memory => 0,
    }
}

/// What is wanted for a character outside quotes that is not ASCII.
const OUTSIDE_QUOTES: &str =
    "this can't come here; what isn't ASCII comes in straight quotes, as 'é'";

/// A space or a tab.
pub(crate) fn is_blank(character: u8) -> bool {
    character == b' ' || character == b'\t'
}

/// Whether a part ends with this character.
fn ends_part(character: u8) -> bool {
    is_name_char(character) || character == b'\'' || character == b'"' || character == b')'
}

/// What is wanted if a character can't come first, or after a blank.
fn at_front(is_object: bool, next: u8) -> &'static str {
    match next {
        b'|' | b'.' | b'$' if is_object => {
            "an object is only literals and variables, with blanks between them"
        }
        b'|' | b'.' | b'$' => "a pattern is wanted before this",
        b'(' | b'+' | b'-' | b'&' | b',' if is_object => {
            "an object is only literals and variables, with blanks between them"
        }
        b')' => "this ) has no ( before it, or nothing after it",
        b'[' => "a set is written in quotes, as in ANY('abc') or SPAN('abc')",
        b'\\' => "nothing is escaped; characters are written in quotes, as 'abc'",
        b'0'..=b'9' => "characters are written in quotes, digits too, as '3'",
        128.. => OUTSIDE_QUOTES,
        _ => "this can't come here; characters are written in quotes, as 'abc'",
    }
}

/// What is wanted if a character can't come right after a part.
fn after_part(is_object: bool, previous: u8, next: u8) -> &'static str {
    match next {
        b'|' => "a blank is wanted before |",
        b'.' => "a blank is wanted before .",
        b'$' => "a blank is wanted before $",
        b')' => "this ) has no ( before it",
        b'(' if is_object => "an object is only literals and variables, with blanks between them",
        b'(' if is_name_char(previous) =>
            "this word takes no argument; or a blank is wanted before (",
        b' ' | b'\t' => "( comes right after its word, as in LEN(3)",
        b'\'' | b'"' => "a blank is wanted before this quote",
        b'\n' | b'\r' => "parts have spaces or tabs between them, not line ends",
        128.. => OUTSIDE_QUOTES,
        _ => "a blank is wanted here; characters with ' in them go between \" and \"",
    }
}

/// What is wanted after this character, which ends no part, or before the first one.
fn after_sign(is_object: bool, previous: u8, next: u8) -> &'static str {
    match previous {
        b'|' => "a blank is wanted after |",
        b'.' | b'$' => "a blank is wanted after . and $, and then a variable",
        b'@' | b'*' => "a name comes right after this",
        b'(' if next == b')' => "something is wanted between ( and )",
        b'(' => "a set is written in quotes, as in ANY('abc')",
        _ => at_front(is_object, next),
    }
}

/// What is wanted if a character can't come after another.
fn unexpected(is_object: bool, previous: Option<u8>, next: Option<u8>) -> &'static str {
    match (previous, next) {
        (_, None) => "this ends too soon: a further part is wanted, or a )",
        (None, Some(next)) => at_front(is_object, next),
        (Some(previous), Some(next)) => {
            if is_blank(previous) {
                at_front(is_object, next)
            } else if ends_part(previous) {
                after_part(is_object, previous, next)
            } else {
                after_sign(is_object, previous, next)
            }
        }
    }
}

fn byte_before(bytes: &[u8], place: usize) -> Option<u8> {
    match place.checked_sub(1) {
        Some(before) => bytes.get(before).copied(),
        None => None,
    }
}

/// What to write instead of what has this fault in the expression `written`.
pub fn reading_advice(is_object: bool, fault: &ReadFault, written: &str) -> &'static str {
    let bytes = written.as_bytes();
    match fault {
        ReadFault::Empty(_) => "a pattern is wanted; the null string is written ''",
        ReadFault::OpenQuote(_) => {
            "this quote isn't closed; characters with ' in them go between \" and \""
        }
        ReadFault::Unexpected(place) => unexpected(
            is_object,
            byte_before(bytes, *place),
            bytes.get(*place).copied(),
        ),
        ReadFault::BadNumber(_) => "a number from 0 to 65536 is wanted, without quotes",
        ReadFault::UnknownName(_) => "no definition has this name",
        ReadFault::EmptySet(_) => "a set has at least one character",
        ReadFault::TooDeep(_) => "this nests too deep; give a name to a part of it",
        ReadFault::TooLong(_) => {
            "an expression has at most 4096 characters, and a name 64; give a name to a part of it"
        }
        ReadFault::ReservedTarget(_) => {
            "a variable is wanted: neither a word of the language nor the name of a definition"
        }
        ReadFault::NonAscii(_) => "expressions are ASCII: straight quotes, no accents",
        ReadFault::Memory => "there is too little memory",
    }
}
