//! What other languages write, and what is written here instead.

use crate::ascii::text_of;
use crate::reading::is_blank;
use sno_pattern::is_name_char;
use sno_read::ReadFault;

/// The words whose argument is a set.
const SET_WORDS: [&str; 4] = ["ANY", "NOTANY", "SPAN", "BREAK"];

fn is_quote(character: u8) -> bool {
    character == b'\'' || character == b'"'
}

/// The characters before a place.
fn before(written: &[u8], place: usize) -> &[u8] {
    match written.get(..place) {
        Some(front) => front,
        None => written,
    }
}

/// The characters from a place on.
fn from(written: &[u8], place: usize) -> &[u8] {
    match written.get(place..) {
        Some(rest) => rest,
        None => &[],
    }
}

/// The characters without the blanks at their end.
fn without_blanks(characters: &[u8]) -> &[u8] {
    let blanks = characters
        .iter()
        .rev()
        .take_while(|c| is_blank(**c))
        .count();
    before(characters, characters.len().saturating_sub(blanks))
}

/// The word with which the characters end.
fn last_word(characters: &[u8]) -> &str {
    let count = characters
        .iter()
        .rev()
        .take_while(|c| is_name_char(**c))
        .count();
    text_of(from(characters, characters.len().saturating_sub(count)))
}

/// The word with which the characters begin.
fn first_word(characters: &[u8]) -> &str {
    let count = characters.iter().take_while(|c| is_name_char(**c)).count();
    text_of(before(characters, count))
}

/// Whether the characters end in the word of a set and its parenthesis.
fn opens_set(characters: &[u8]) -> bool {
    match characters.split_last() {
        Some((b'(', front)) => SET_WORDS.contains(&last_word(front)),
        _ => false,
    }
}

/// Whether the characters end in the word of a set, its parenthesis and characters in quotes.
fn has_set(characters: &[u8]) -> bool {
    let Some((last, inside)) = without_blanks(characters).split_last() else {
        return false;
    };
    if !is_quote(*last) {
        return false;
    }
    match inside.iter().rposition(|c| *c == *last) {
        Some(opening) => opens_set(before(inside, opening)),
        None => false,
    }
}

/// Whether a `=` is in the characters with a blank on either side.
fn has_equals_sign(characters: &[u8]) -> bool {
    characters
        .windows(3)
        .any(|three| three == b" = ".as_slice())
}

/// What is written instead of a word that means something elsewhere, but is the name of no definition.
fn instead_of_word(word: &str) -> Option<&'static str> {
    match word {
        "BREAKX" => Some("BREAKX(S) is written (BREAK(S) ARBNO(LEN(1) BREAK(S)))"),
        "NSPAN" => Some("NSPAN(S) is written (SPAN(S) | '')"),
        "NULL" => Some("the null string is written ''"),
        "SUCCEED" => Some("SUCCEED isn't in this language: a match would never end"),
        _ => None,
    }
}

/// Whether a part is assigned to the variable after these characters.
fn ends_in_assignment(characters: &[u8]) -> bool {
    match without_blanks(characters).last() {
        Some(b'@') => true,
        Some(b'.' | b'$') => characters.last().is_some_and(|c| is_blank(*c)),
        _ => false,
    }
}

/// Whether a part is assigned to the variable with this name. The name is looked for first: what comes before each place is looked at
/// only there, so that long blanks and long words aren't gone through again and again.
fn assigns(written: &[u8], word: &str) -> bool {
    (0..written.len()).any(|place| {
        let rest = from(written, place);
        rest.starts_with(word.as_bytes())
            && ends_in_assignment(before(written, place))
            && first_word(rest) == word
    })
}

fn instead_of_name(is_object: bool, written: &[u8], place: usize) -> Option<&'static str> {
    let word = first_word(from(written, place));
    let advice = instead_of_word(word);
    if advice.is_some() {
        return advice;
    }
    if !is_object && assigns(written, word) {
        return Some(
            "a variable is no part of a pattern: what it has just been assigned can't be sought",
        );
    }
    if !is_object && has_equals_sign(written) {
        return Some(
            "the text, the pattern and the object are members of their own: \"text\", \"pattern\", \"object\"",
        );
    }
    None
}

/// What is written instead of what can't follow the characters `front`.
fn instead_of_next(is_object: bool, front: &[u8], next: u8, after: &[u8]) -> Option<&'static str> {
    let sign = without_blanks(front).last().copied();
    if is_object {
        return match (next, after.first()) {
            (b'$' | b'\\', Some(b'0'..=b'9')) => Some(
                "what was matched is put in by a variable: the pattern assigns it, as LEN(1) . X, and the object names it, X",
            ),
            _ => None,
        };
    }
    match next {
        b'=' => Some("the object is a member of its own, \"object\", and no part of the pattern"),
        b'(' if last_word(front) == "FENCE" => Some(
            "FENCE takes no argument: after P FENCE the whole match fails if what follows does; a P with one way, as SPAN or BREAK, needs no FENCE",
        ),
        b'\'' | b'"' if sign == Some(b'.') || sign == Some(b'$') => {
            Some("a variable is wanted after . and $, and a variable has no quotes")
        }
        b'\'' | b'"' if has_set(front) && front.last().is_some_and(|c| is_quote(*c)) => {
            Some("a set is one string, as ANY('ab')")
        }
        b' ' | b'\t' | b'\'' | b'"' if has_set(front) => {
            Some("a set is one string, as ANY('ab'), and not several")
        }
        _ if opens_set(front) && is_name_char(next) => {
            Some("a set is characters in quotes, as SPAN('0123456789'), and not a name")
        }
        _ => None,
    }
}

/// What to write instead, if an expression with this fault has what other languages write. `written` is the expression.
pub fn habit_advice(is_object: bool, fault: &ReadFault, written: &str) -> Option<&'static str> {
    let bytes = written.as_bytes();
    match fault {
        ReadFault::UnknownName(place) => instead_of_name(is_object, bytes, *place),
        ReadFault::Unexpected(place) => match from(bytes, *place).split_first() {
            Some((next, after)) => instead_of_next(is_object, before(bytes, *place), *next, after),
            None => None,
        },
        _ => None,
    }
}
