//! The argument of a set.
ghost use Rattle.std.specs.Prelude.{◌≡◌, ◌≤◌, ◌<◌, ◌+◌, true, length, IfOk};
ghost use Rattle.std.specs.List.{prefix_len};
ghost use Rattle.sno_pattern.specs.Identifiers.{is_name_char};
ghost use Rattle.sno_rules.specs.Gives.{Gives, JoinedGives, part_seen};
ghost use Rattle.sno_rules.specs.Spelling.{ascii_part, goes_on, is_ascii, part_at, quotation_part};

use crate::SpellingFault;
use crate::names::{SetName, members_of};
use crate::pieces::{before_quote, is_blank, is_quote};
use sno_pattern::{is_letter, is_name_char};
use std::alloc::Global;

/// How many characters of a name the text begins with.
pub(crate) fn count_name(text: &[u8]) -> usize
    ensures count { result ≡ prefix_len is_name_char text.now }
    ensures within { result ≤ length text.now }
{
    text.iter().take_while(|c| is_name_char(**c)).count()
}

/// How many ASCII characters the text begins with.
fn count_ascii(text: &[u8]) -> usize
    ensures count { result ≡ prefix_len is_ascii text.now }
    ensures within { result ≤ length text.now }
{
    text.iter().take_while(|c| **c < 128).count()
}

/// Characters in quotes, which have to be ASCII. `place` is that of the first of them.
fn ascii_part<'t>(
    place: usize,
    content: &'t [u8],
    rest: &'t [u8],
) -> Result<(&'t [u8], &'t [u8]), SpellingFault>
    requires { place + length content.now ≤ usize.MAX }
    ensures { Gives part_seen result (ascii_part place content.now rest.now) }
{
    let count = count_ascii(content);
    if count == content.len() {
        Ok((content, rest))
    } else {
        Err(SpellingFault::NotAscii(place + count))
    }
}

/// A quotation that opens at this place. `inside` comes after its first quote.
fn quotation_part<'t>(
    place: usize,
    quote: u8,
    inside: &'t [u8],
) -> Result<(&'t [u8], &'t [u8]), SpellingFault>
    requires { place + length inside.now < usize.MAX }
    ensures part { Gives part_seen result (quotation_part place quote inside.now) }
    ensures shorter { IfOk result (λ p. length p.1.now ≤ length inside.now) }
{
    let count = before_quote(inside, quote);
    if count == inside.len() {
        return Err(SpellingFault::OpenQuote(place));
    }
    let (content, closing) = inside.split_at(count);
    let (_, rest) = closing.split_at(1);
    ascii_part(place + 1, content, rest)
}

/// The first part of an argument: its characters, and what comes after it.
fn part_at<'t>(
    names: &[SetName<'t>],
    place: usize,
    text: &'t [u8],
) -> Result<(&'t [u8], &'t [u8]), SpellingFault>
    requires some { 0 < length text.now }
    requires within { place + length text.now ≤ usize.MAX }
    ensures part { Gives part_seen result (part_at names.now place text.now) }
    ensures shorter { IfOk result (λ p. length p.1.now < length text.now) }
{
    let (first, after) = (text[0], text.split_at(1).1);
    if is_blank(first) {
        return Ok((&[], after));
    }
    if is_quote(first) {
        return quotation_part(place, first, after);
    }
    if !is_letter(first) {
        return Err(SpellingFault::NoSet(place));
    }
    let (name, rest) = text.split_at(count_name(after) + 1);
    match members_of(names, name) {
        Some(members) => Ok((members, rest)),
        None => Err(SpellingFault::UnknownSet(place)),
    }
}

/// Whether an argument goes on with this text: it ends before a closing parenthesis, or with the text.
fn goes_on(text: &[u8]) -> bool
    ensures value { result ≡ goes_on text.now }
    ensures some { result ≡ true → 0 < length text.now }
{
    match text.first() {
        None => false,
        Some(first) => *first != b')',
    }
}

/// The characters of the parts of an argument, joined, and what comes after them.
pub(crate) fn joined<'t>(
    alloc: Global,
    names: &[SetName<'t>],
    total: usize,
    text: &'t [u8],
) -> Result<(Vec<u8>, &'t [u8]), SpellingFault>
    requires { length text.now ≤ total }
    ensures joined { JoinedGives names.now total text.now result }
    ensures shorter { IfOk result (λ p. length p.1.now ≤ length text.now) }
{
    let mut members = Vec::new(alloc);
    let mut rest = text;
    while goes_on(rest) {
        match part_at(names, total - rest.len(), rest) {
            Err(fault) => return Err(fault),
            Ok((characters, after)) => {
                members.extend_from_slice(characters)?;
                rest = after;
            }
        }
    }
    Ok((members, rest))
}
