//! Trees of JSON, whose strings are borrowed from the text. They represent the value of the text if their numbers are
//! in range.
ghost use Rattle.std.specs.Prelude.{◌≡◌, ◌≢◌, ◌==◌, ◌<◌, length, slice_index, is_some, true, false, None, Some, IfOk, IfSome, IsTrue, MatchResult};
ghost use Rattle.std.specs.Option.{option_map};
ghost use Rattle.std.specs.Float.{float_is_finite};
ghost use Rattle.json.specs.Value.{value_view, items_view, members_view};
ghost use Rattle.serde_json.specs.Data.{unsigned};
ghost use Rattle.serde_json.specs.Read.{number_of, number_from, float_of};
ghost use Rattle.sno_document.specs.Faults.{Gives};
ghost use Rattle.sno_document.specs.Json.{json_of};
ghost use Rattle.sno_document.specs.Document.{value_or, value_in};
ghost use Rattle.sno_document.specs.Trees.{tree_of_text, is_in_range, are_items_in_range, are_members_in_range, number_seen, tree_seen};
ghost use Rattle.sno_document.specs.declared.faults.DocumentFault.TheVariants.{Memory, NotJson};

use crate::{DocumentFault, MAX_DOCUMENT};
use fast_float::Numeral;
use json::{Error, Reader, Scratch, Value};
use std::alloc::{AllocError, Global};

/// How deep arrays and objects of a document may nest.
pub const MAX_DEPTH: usize = 127;

/// The JSON tree of a text.
fn tree_of<'t>(
    alloc: Global,
    text: &'t str,
    scratch: &'t mut Scratch,
) -> Result<Value<'t>, DocumentFault>
    ensures { MatchResult result (λ v. tree_of_text text.now ≡ Some (value_view v)) (λ e. e ≢ Memory → (e ≡ NotJson) × (tree_of_text text.now ≡ None)) }
{
    let mut reader = Reader::new(text, scratch)?;
    let value = match Value::read(alloc, &mut reader, MAX_DEPTH) {
        Ok(value) => value,
        Err(Error::Invalid) => return Err(DocumentFault::NotJson),
        Err(_) => return Err(DocumentFault::Memory),
    };
    if reader.next().is_some() {
        return Err(DocumentFault::NotJson);
    }
    Ok(value)
}

pub(crate) fn has_minus(bytes: &[u8]) -> bool
    ensures value { result ≡ (slice_index bytes.now 0 == 45) }
    ensures some { IsTrue result → 0 < length bytes.now }
{
    !bytes.is_empty() && bytes[0] == b'-'
}

fn is_finite(negative: bool, numeral: &Numeral<'_>) -> bool
    ensures { result ≡ is_some (float_of negative numeral.now) }
{
    numeral.to_float::<f64>(negative).is_finite()
}

fn is_unsigned_in_range(numeral: &Numeral<'_>) -> bool
    ensures { result ≡ is_some (number_from false numeral.now) }
{
    match numeral.to_u64() {
        Some(_) => true,
        None => is_finite(false, numeral),
    }
}

fn is_negative_in_range(numeral: &Numeral<'_>) -> bool
    ensures { result ≡ is_some (number_from true numeral.now) }
{
    if let Some(number) = numeral.to_i64(true) {
        if number < 0 {
            return true;
        }
    }
    is_finite(true, numeral)
}

/// Whether a number is an integer of 64 bits, or becomes a finite float when it is rounded.
fn is_number_in_range(text: &str) -> bool
    ensures { result ≡ is_some (number_of text.now) }
{
    let bytes = text.as_bytes();
    if has_minus(bytes) {
        is_negative_in_range(&Numeral::scan(&bytes[1..]))
    } else {
        is_unsigned_in_range(&Numeral::scan(bytes))
    }
}

/// Whether each number of the tree is in range.
#[cycle(in_range)]
#[inline(always)]
fn is_in_range(value: &Value<'_>) -> bool
    ensures { result ≡ is_in_range (value_view value.now) }
{
    match value {
        Value::Null | Value::Bool(_) | Value::String(_) => true,
        Value::Number(text) => is_number_in_range(text),
        Value::Array(items) => are_items_in_range(items),
        Value::Object(members) => are_members_in_range(members),
    }
}

#[cycle(in_range)]
#[inline(never)]
fn are_items_in_range(items: &Vec<Value<'_>>) -> bool
    ensures { result ≡ are_items_in_range (items_view items.now.items) }
{
    for item in items {
        if !is_in_range(item) {
            return false;
        }
    }
    true
}

#[cycle(in_range)]
#[inline(never)]
fn are_members_in_range(members: &Vec<(&str, Value<'_>)>) -> bool
    ensures { result ≡ are_members_in_range (members_view members.now.items) }
{
    for member in members {
        if !is_in_range(&member.1) {
            return false;
        }
    }
    true
}

/// The JSON tree of a text in UTF-8, whose numbers must be in range.
fn parse<'t>(
    alloc: Global,
    bytes: &'t [u8],
    scratch: &'t mut Scratch,
) -> Result<Value<'t>, DocumentFault>
    ensures { Gives tree_seen result (value_or (json_of bytes.now)) }
{
    let Ok(text) = str::from_utf8(bytes) else {
        return Err(DocumentFault::NotJson);
    };
    let value = tree_of(alloc, text, scratch)?;
    if !is_in_range(&value) {
        return Err(DocumentFault::NotJson);
    }
    Ok(value)
}

/// The tree of a document. Its strings are borrowed from the bytes or, if they have escapes, from `scratch`.
#[tactic(auto, unfolding(crate::specs::Document::value_in))]
pub(crate) fn value_in<'t>(
    alloc: Global,
    bytes: &'t [u8],
    scratch: &'t mut Scratch,
) -> Result<Value<'t>, DocumentFault>
    ensures { Gives tree_seen result (value_in bytes.now) }
{
    if bytes.len() > MAX_DOCUMENT {
        return Err(DocumentFault::DocumentTooLong);
    }
    parse(alloc, bytes, scratch)
}

/// Returns the JSON tree of the bytes, and nothing if they aren't JSON in UTF-8 whose numbers are in range. Its strings are borrowed from
/// the bytes or, if they have escapes, from `scratch`. Refused only if memory runs out.
pub fn tree_in<'t>(
    alloc: Global,
    bytes: &'t [u8],
    scratch: &'t mut Scratch,
) -> Result<Option<Value<'t>>, AllocError>
    ensures { IfOk result (λ v. option_map tree_seen v ≡ json_of bytes.now) }
{
    match parse(alloc, bytes, scratch) {
        Ok(value) => Ok(Some(value)),
        Err(DocumentFault::Memory) => Err(AllocError),
        Err(_) => Ok(None),
    }
}

fn unsigned_in(numeral: &Numeral<'_>) -> Option<u64>
    ensures { IfSome result (λ n. number_from false numeral.now ≡ Some (unsigned n)) }
{
    numeral.to_u64()
}

/// Returns the number that a number's text is, if it is written without sign, fraction and exponent and has at most 64 bits.
pub fn whole_in(text: &str) -> Option<u64>
    ensures { IfSome result (λ n. number_seen text.now ≡ unsigned n) }
{
    let bytes = text.as_bytes();
    if has_minus(bytes) {
        None
    } else {
        unsigned_in(&Numeral::scan(bytes))
    }
}
