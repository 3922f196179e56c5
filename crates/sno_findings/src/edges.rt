//! Patterns that never match, or always do, by what their parts leave to one another.

use sno_pattern::{Class, Pattern};

/// What can't come after a part that takes as many characters as it can: this character, as the first one.
#[derive(Clone, Copy, Debug, PartialEq, Eq)]
pub enum Blocked {
    /// It is in the set of the `SPAN` before it.
    BySpan(u8),
    /// It is not in the set of the `BREAK` before it.
    ByBreak(u8),
}

fn first_part(pattern: &Pattern) -> &Pattern {
    match pattern {
        Pattern::Seq(part, _) | Pattern::Cond(part, _) | Pattern::Imm(part, _) => first_part(part),
        _ => pattern,
    }
}

fn last_part(pattern: &Pattern) -> &Pattern {
    match pattern {
        Pattern::Seq(_, part) | Pattern::Cond(part, _) | Pattern::Imm(part, _) => last_part(part),
        _ => pattern,
    }
}

/// The characters with which the pattern can begin, if it begins with a literal, `ANY` or `SPAN`.
fn beginnings(pattern: &Pattern) -> &[u8] {
    match first_part(pattern) {
        Pattern::Lit(text) => text.bytes().get(..1).unwrap_or(&[]),
        Pattern::Bytes(text) => text.bytes().get(..1).unwrap_or(&[]),
        Pattern::AnyOf(set) | Pattern::Span(set) => set.members(),
        _ => &[],
    }
}

fn are_all_in(characters: &[u8], set: &Class) -> bool {
    characters.iter().all(|character| set.has(*character))
}

fn is_one_in(characters: &[u8], set: &Class) -> bool {
    characters.iter().any(|character| set.has(*character))
}

/// Why the second part never matches after the first one, if that can be seen.
pub(crate) fn blocked_after(first: &Pattern, second: &Pattern) -> Option<Blocked> {
    let characters = beginnings(second);
    let character = *characters.first()?;
    match last_part(first) {
        Pattern::Span(set) if are_all_in(characters, set) => Some(Blocked::BySpan(character)),
        Pattern::Break(set) if !is_one_in(characters, set) => Some(Blocked::ByBreak(character)),
        _ => None,
    }
}

/// Whether the pattern matches the null string at each cursor.
fn is_null_anywhere(pattern: &Pattern) -> bool {
    match pattern {
        Pattern::Lit(text) => text.bytes().is_empty(),
        Pattern::Bytes(text) => text.bytes().is_empty(),
        Pattern::Len(n) => *n == 0,
        Pattern::Arb | Pattern::Arbno(_) | Pattern::At(_) => true,
        Pattern::Seq(first, second) => is_null_anywhere(first) && is_null_anywhere(second),
        Pattern::Alt(first, second) => is_null_anywhere(first) || is_null_anywhere(second),
        Pattern::Cond(part, _) | Pattern::Imm(part, _) => is_null_anywhere(part),
        _ => false,
    }
}

/// Whether the pattern matches at a place that each text has: its start, its end, or the rest up to its end.
/// An anchored match begins at the start, so that it reaches the end of the empty text alone by `RPOS(0)`.
fn is_an_end(pattern: &Pattern, anchored: bool) -> bool {
    match pattern {
        Pattern::Pos(n) => *n == 0,
        Pattern::Rpos(n) => *n == 0 && !anchored,
        Pattern::Rem => true,
        Pattern::Cond(part, _) | Pattern::Imm(part, _) => is_an_end(part, anchored),
        _ => false,
    }
}

/// Whether the pattern matches each text, as far as that can be seen.
pub(crate) fn always_matches(pattern: &Pattern, anchored: bool) -> bool {
    match pattern {
        Pattern::Seq(first, second) if is_an_end(first, anchored) => is_null_anywhere(second),
        Pattern::Seq(first, second) if is_an_end(second, anchored) => is_null_anywhere(first),
        _ => is_an_end(pattern, anchored) || is_null_anywhere(pattern),
    }
}
