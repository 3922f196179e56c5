//! The value of an object, and cutting and joining texts.
ghost use Rattle.std.specs.Prelude.{◌≡◌, ◌++◌, ◌≤◌, IfOk, OnOk, length, take, drop, IsTrue};
ghost use Rattle.std.specs.List.{list_all};
ghost use Rattle.std.specs.Char.{is_ascii};
ghost use Rattle.std.specs.Fmt.{decimal};
ghost use Rattle.sno_pattern.specs.Ends.{part};
ghost use Rattle.sno_statement.specs.Bindings.{lookup};
ghost use Rattle.sno_statement.specs.Passes.{replaced};
ghost use Rattle.sno_statement.specs.Value.{part_value, string_of, value_of, new_text};
ghost use Rattle.sno_pattern.specs.declared.texts.TheConstants.{MAX_TEXT};

use crate::match_lists::Matches;
use crate::{BindingsRef, DatumRef};
use sno_pattern::{Hit, Name, Text};
use sno_read::Part;
use std::alloc::{AllocError, Global};

/// The first `count` characters, or all of them if there are fewer.
pub(crate) fn front(characters: &[u8], count: usize) -> &[u8]
    ensures { result.now ≡ take count characters.now }
{
    if count < characters.len() {
        characters.split_at(count).0
    } else {
        characters
    }
}

/// The characters after the first `count`.
pub(crate) fn back(characters: &[u8], count: usize) -> &[u8]
    ensures { result.now ≡ drop count characters.now }
{
    if count < characters.len() {
        characters.split_at(count).1
    } else {
        &[]
    }
}

/// The characters between two cursors.
pub(crate) fn between(characters: &[u8], from: usize, to: usize) -> &[u8]
    ensures { result.now ≡ part characters.now from to }
{
    front(back(characters, from), to.saturating_sub(from))
}

/// The text of these characters. They are ASCII, and no more than a text can have.
#[tactic(auto, using(crate::proofs::Ascii::refused_is_long))]
pub(crate) fn text_of(characters: Vec<u8>) -> Text
    requires ascii { IsTrue (list_all is_ascii characters.items) }
    requires short { length characters.items ≤ MAX_TEXT }
    ensures { result ≡ characters.items }
{
    match Text::new(characters) {
        Ok(text) => text,
        Err(_) => unreachable!(),
    }
}

/// A text of the characters between two cursors.
#[tactic(auto, using(crate::proofs::Ascii::ascii_part))]
pub(crate) fn part(
    alloc: Global,
    subject: &Text,
    from: usize,
    to: usize,
) -> Result<Text, AllocError>
    ensures { IfOk result (λ s. s ≡ part subject.now from to) }
{
    let characters = between(subject.bytes(), from, to);
    Ok(text_of(Vec::from_slice(alloc, characters)?))
}

/// A copy of a text.
pub(crate) fn copy_of(alloc: Global, text: &Text) -> Result<Text, AllocError>
    ensures { IfOk result (λ copy. copy ≡ text.now) }
{
    let characters = Vec::from_slice(alloc, text.bytes())?;
    Ok(text_of(characters))
}

/// Appends a number in decimal digits.
#[tactic(auto, using(crate::proofs::Ascii::ascii_decimal))]
pub(crate) fn put_number(alloc: Global, number: u32, out: &mut Vec<u8>) -> Result<(), AllocError>
    ensures value { OnOk result (out.new.items ≡ out.old.items ++ decimal number) }
    ensures ascii { IsTrue (list_all is_ascii (decimal number)) }
{
    let digits = number.to_string(alloc)?;
    out.extend_from_slice(digits.as_bytes())
}

/// Appends a variable's value.
fn put_variable(
    alloc: Global,
    name: &Name,
    bindings: &BindingsRef<'_>,
    out: &mut Vec<u8>,
) -> Result<(), AllocError>
    ensures value { OnOk result (out.new.items ≡ out.old.items ++ string_of (lookup name.now bindings.now)) }
    ensures ascii { IsTrue (list_all is_ascii (string_of (lookup name.now bindings.now))) }
{
    match bindings.value(name) {
        None => Ok(()),
        Some(DatumRef::Str(text)) => out.extend_from_slice(text.bytes()),
        Some(DatumRef::Int(number)) => put_number(alloc, number, out),
    }
}

/// Appends a part's value.
fn put_part(
    alloc: Global,
    part: &Part,
    bindings: &BindingsRef<'_>,
    out: &mut Vec<u8>,
) -> Result<(), AllocError>
    ensures value { OnOk result (out.new.items ≡ out.old.items ++ part_value bindings.now part.now) }
    ensures ascii { IsTrue (list_all is_ascii (part_value bindings.now part.now)) }
{
    match part {
        Part::Quoted(text) => out.extend_from_slice(text.bytes()),
        Part::Var(name) => put_variable(alloc, name, bindings, out),
    }
}

/// Appends the values of the parts, in order.
#[tactic(auto, using(crate::proofs::Ascii::ascii_append))]
pub(crate) fn put_parts(
    alloc: Global,
    parts: &[Part],
    bindings: &BindingsRef<'_>,
    out: &mut Vec<u8>,
) -> Result<(), AllocError>
    ensures value { OnOk result (out.new.items ≡ out.old.items ++ value_of bindings.now parts.now) }
    ensures ascii { OnOk result (IsTrue (list_all is_ascii out.old.items) → IsTrue (list_all is_ascii out.new.items)) }
{
    for part in parts {
        put_part(alloc, part, bindings, out)?;
    }
    Ok(())
}

/// The characters in which the object's value replaces a match. If `length` is their number, their memory is taken at once.
#[tactic(auto, using(crate::proofs::Ascii::ascii_append, crate::proofs::Ascii::ascii_take, crate::proofs::Ascii::ascii_drop))]
pub(crate) fn replace(
    alloc: Global,
    subject: &Text,
    hit: &Hit,
    parts: &[Part],
    bindings: &BindingsRef<'_>,
    length: usize,
) -> Result<Vec<u8>, AllocError>
    ensures value { IfOk result (λ v. v.items ≡ new_text subject.now hit.now.start hit.now.end (value_of bindings.now parts.now)) }
    ensures ascii { IfOk result (λ v. IsTrue (list_all is_ascii v.items)) }
{
    let mut out = Vec::with_capacity(alloc, length)?;
    out.extend_from_slice(front(subject.bytes(), hit.start))?;
    put_parts(alloc, parts, bindings, &mut out)?;
    out.extend_from_slice(back(subject.bytes(), hit.end))?;
    Ok(out)
}

/// The characters in which each match is replaced by the object's value for the match's bindings. If `length` is their number,
/// their memory is taken at once.
#[tactic(auto, using(crate::proofs::Ascii::ascii_append, crate::proofs::Ascii::ascii_part, crate::proofs::Ascii::ascii_drop))]
pub(crate) fn replace_all(
    alloc: Global,
    subject: &Text,
    parts: &[Part],
    matches: &Matches,
    length: usize,
) -> Result<Vec<u8>, AllocError>
    ensures value { IfOk result (λ v. v.items ≡ replaced parts.now subject.now 0 matches.now) }
    ensures ascii { IfOk result (λ v. IsTrue (list_all is_ascii v.items)) }
{
    let mut out = Vec::with_capacity(alloc, length)?;
    let mut cursor = 0;
    for place in 0..matches.len() {
        let Some(m) = matches.get(place) else {
            unreachable!();
        };
        out.extend_from_slice(between(subject.bytes(), cursor, m.start))?;
        put_parts(alloc, parts, &m.bindings, &mut out)?;
        cursor = m.end;
    }
    out.extend_from_slice(back(subject.bytes(), cursor))?;
    Ok(out)
}
