//! Patterns and their leaves, as they are written.

use sno_pattern::{Name, Pattern, Rules};
use std::alloc::{AllocError, Global};

/// Adds bytes.
pub(crate) fn put(out: &mut Vec<u8>, bytes: &[u8]) -> Result<(), AllocError> {
    out.extend_from_slice(bytes)
}

/// Adds a number in decimal.
pub(crate) fn put_number(out: &mut Vec<u8>, number: usize) -> Result<(), AllocError> {
    let mut digits = itoa::Buffer::new();
    put(out, digits.format(number).as_bytes())
}

fn hex_digit(digit: u8) -> u8 {
    if digit < 10 {
        b'0'.saturating_add(digit)
    } else {
        b'a'.saturating_add(digit.saturating_sub(10))
    }
}

fn put_hex(out: &mut Vec<u8>, character: u8) -> Result<(), AllocError> {
    put(
        out,
        &[
            b'\\',
            b'x',
            hex_digit(character / 16),
            hex_digit(character % 16),
        ],
    )
}

/// Adds characters as a listing has them: from the blank to the tilde as they are, except the backslash; the others as `\x` and two
/// hexadecimal digits.
pub(crate) fn put_escaped(out: &mut Vec<u8>, characters: &[u8]) -> Result<(), AllocError> {
    for character in characters {
        if (32..=126).contains(character) && *character != b'\\' {
            out.push(*character)?;
        } else {
            put_hex(out, *character)?;
        }
    }
    Ok(())
}

fn has_both_quotes(characters: &[u8]) -> bool {
    characters.contains(&b'\'') && characters.contains(&b'"')
}

/// Adds a literal in the quotes that are not in it, single ones if both would do; of one with both kinds all but the single quotes.
/// Control characters are escaped, since a line ends at some of them, and so are bytes above 127.
fn put_literal(out: &mut Vec<u8>, characters: &[u8]) -> Result<(), AllocError> {
    let quote = if characters.contains(&b'\'') && !has_both_quotes(characters) {
        b'"'
    } else {
        b'\''
    };
    out.push(quote)?;
    for character in characters {
        if *character == quote {
            continue;
        }
        if (32..=126).contains(character) {
            out.push(*character)?;
        } else {
            put_hex(out, *character)?;
        }
    }
    out.push(quote)?;
    Ok(())
}

/// Adds a number in parentheses.
fn put_argument(out: &mut Vec<u8>, number: u32) -> Result<(), AllocError> {
    put(out, b"(")?;
    put_number(out, number as usize)?;
    put(out, b")")
}

/// Adds a set in parentheses. If it has both kinds of quotes, the single quote is in a literal of its own.
fn put_members(out: &mut Vec<u8>, members: &[u8]) -> Result<(), AllocError> {
    put(out, b"(")?;
    put_literal(out, members)?;
    if has_both_quotes(members) {
        put(out, b" \"'\"")?;
    }
    put(out, b")")
}

/// The word with which a pattern begins; none if it begins with something else.
fn word_of(pattern: &Pattern) -> &'static [u8] {
    match pattern {
        Pattern::Len(_) => b"LEN",
        Pattern::Pos(_) => b"POS",
        Pattern::Rpos(_) => b"RPOS",
        Pattern::Tab(_) => b"TAB",
        Pattern::Rtab(_) => b"RTAB",
        Pattern::AnyOf(_) => b"ANY",
        Pattern::NoneOf(_) => b"NOTANY",
        Pattern::Span(_) => b"SPAN",
        Pattern::Break(_) => b"BREAK",
        Pattern::Arb => b"ARB",
        Pattern::Bal => b"BAL",
        Pattern::Rem => b"REM",
        Pattern::Fence => b"FENCE",
        Pattern::Abort => b"ABORT",
        Pattern::Fail => b"FAIL",
        Pattern::At(_) => b"@",
        Pattern::Arbno(_) => b"ARBNO",
        Pattern::Ref(_) => b"*",
        _ => b"",
    }
}

/// Adds what comes after the word of a leaf; nothing for a pattern that has parts.
fn put_after_word(out: &mut Vec<u8>, pattern: &Pattern) -> Result<(), AllocError> {
    match pattern {
        Pattern::Lit(text) => put_literal(out, text.bytes()),
        Pattern::Bytes(text) => put_literal(out, text.bytes()),
        Pattern::Len(number)
        | Pattern::Pos(number)
        | Pattern::Rpos(number)
        | Pattern::Tab(number)
        | Pattern::Rtab(number) => put_argument(out, *number),
        Pattern::AnyOf(set) | Pattern::NoneOf(set) | Pattern::Span(set) | Pattern::Break(set) =>
            put_members(out, set.members()),
        Pattern::At(name) => put(out, name.bytes()),
        _ => Ok(()),
    }
}

/// Adds the leaf as it is written in a pattern. What is added for a pattern that has parts is only its word.
pub(crate) fn put_leaf(out: &mut Vec<u8>, pattern: &Pattern) -> Result<(), AllocError> {
    put(out, word_of(pattern))?;
    put_after_word(out, pattern)
}

/// How tightly what is around a pattern binds.
#[derive(Clone, Copy, Debug, PartialEq, Eq)]
enum Around {
    /// Nothing that binds: no pattern needs parentheses.
    Nothing,
    /// Patterns that are joined: an alternation needs parentheses.
    Joined,
    /// An assignment: joined patterns need parentheses, too.
    Assigned,
}

/// Whether a pattern needs parentheses here.
fn is_bracketed(pattern: &Pattern, around: Around) -> bool {
    match pattern {
        Pattern::Alt(_, _) => around != Around::Nothing,
        Pattern::Seq(_, _) => around == Around::Assigned,
        _ => false,
    }
}

/// Adds a reference to the definition with this number.
fn put_reference(out: &mut Vec<u8>, rules: &Rules, number: usize) -> Result<(), AllocError> {
    put(out, b"*")?;
    match rules.name(number) {
        Some(name) => put(out, name.bytes()),
        None => Ok(()),
    }
}

/// Adds the variable that a part is assigned to.
fn put_assigned(out: &mut Vec<u8>, sign: &[u8], name: Name) -> Result<(), AllocError> {
    put(out, sign)?;
    put(out, name.bytes())
}

/// What a pattern begins with here, before its parts.
fn opening(pattern: &Pattern, around: Around) -> &'static [u8] {
    if is_bracketed(pattern, around) {
        return b"(";
    }
    match pattern {
        Pattern::Arbno(_) => b"ARBNO(",
        _ => b"",
    }
}

/// Adds what a pattern ends with here, after its parts.
fn put_closing(out: &mut Vec<u8>, pattern: &Pattern, around: Around) -> Result<(), AllocError> {
    if is_bracketed(pattern, around) {
        return put(out, b")");
    }
    match pattern {
        Pattern::Arbno(_) => put(out, b")"),
        Pattern::Cond(_, name) => put_assigned(out, b" . ", *name),
        Pattern::Imm(_, name) => put_assigned(out, b" $ ", *name),
        _ => Ok(()),
    }
}

/// Adds a pattern, in parentheses if it needs them here.
fn put_within(
    out: &mut Vec<u8>,
    rules: &Rules,
    pattern: &Pattern,
    around: Around,
) -> Result<(), AllocError> {
    put(out, opening(pattern, around))?;
    let parts = match pattern {
        Pattern::Seq(left, right) => {
            put_within(out, rules, left, Around::Joined)?;
            put(out, b" ")?;
            put_within(out, rules, right, Around::Joined)
        }
        Pattern::Alt(left, right) => {
            put_within(out, rules, left, Around::Nothing)?;
            put(out, b" | ")?;
            put_within(out, rules, right, Around::Nothing)
        }
        Pattern::Arbno(part) => put_within(out, rules, part, Around::Nothing),
        Pattern::Cond(part, _) => put_within(out, rules, part, Around::Assigned),
        Pattern::Imm(part, _) => put_within(out, rules, part, Around::Assigned),
        Pattern::Ref(number) => put_reference(out, rules, *number),
        _ => put_leaf(out, pattern),
    };
    parts?;
    put_closing(out, pattern, around)
}

/// A pattern as it is written, with as few parentheses as it needs. References are to these definitions.
///
/// Refused only if out of memory.
pub fn pattern_text(
    alloc: Global,
    rules: &Rules,
    pattern: &Pattern,
) -> Result<Vec<u8>, AllocError> {
    let mut out = Vec::new(alloc);
    put_within(&mut out, rules, pattern, Around::Nothing)?;
    Ok(out)
}
