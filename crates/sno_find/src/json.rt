//! Findings as JSON.
ghost use Rattle.std.specs.Prelude.{◌≡◌, ◌<◌, ◌+◌, ◌++◌, codes, OnOk};
ghost use Rattle.std.specs.Fmt.{decimal};
ghost use Rattle.std.specs.List.{flat_map};
ghost use Rattle.sno_pattern.specs.Ends.{part};
ghost use Rattle.sno_statement.specs.Spans.{value_lent};
ghost use Rattle.sno_find.specs.Json.{bindings_json, finding_json, head_json, hex_digit, json_byte, json_string, key, number_member, object_json, places_json, separator, text_json, value_json, variable_json, variables_json};
ghost use Rattle.sno_find.specs.declared.json.TheConstants.{BASE};

use crate::Finding;
use crate::lines::{back, front, put_number, put_text};
use sno_pattern::{ByteText, Name};
use sno_statement::{ByteBindings, SpanValue};
use std::alloc::{AllocError, Global};

/// The base of hexadecimal digits.
const BASE: u8 = 16;

fn hex_digit(digit: u8) -> u8
    requires { digit < BASE }
    ensures { result ≡ hex_digit digit }
{
    if digit < 10 { digit + 48 } else { digit + 87 }
}

/// Appends a byte of a string.
fn put_byte(byte: u8, out: &mut Vec<u8>) -> Result<(), AllocError>
    ensures { OnOk result (out.new.items ≡ out.old.items ++ json_byte byte) }
{
    if byte == b'"' || byte == b'\\' {
        out.extend_from_slice(&[b'\\', byte])
    } else if byte < 32 {
        let first = hex_digit(byte / 16);
        let second = hex_digit(byte % 16);
        out.extend_from_slice(&[b'\\', b'u', b'0', b'0', first, second])
    } else {
        out.extend_from_slice(&[byte])
    }
}

fn put_bytes(bytes: &[u8], out: &mut Vec<u8>) -> Result<(), AllocError>
    ensures { OnOk result (out.new.items ≡ out.old.items ++ flat_map json_byte bytes.now) }
{
    for byte in bytes {
        put_byte(*byte, out)?;
    }
    Ok(())
}

/// Appends bytes as a string of JSON, with its quotes. What isn't UTF-8 in them becomes U+FFFD.
///
/// Refused only if memory runs out. Then a part of the string may be there.
pub fn put_string(alloc: Global, bytes: &[u8], out: &mut Vec<u8>) -> Result<(), AllocError>
    ensures { OnOk result (out.new.items ≡ out.old.items ++ json_string bytes.now) }
{
    let text = String::from_utf8_lossy(alloc, bytes)?;
    put_text("\"", out)?;
    put_bytes(text.as_bytes(), out)?;
    put_text("\"", out)
}

/// Appends the name of a member.
fn put_key(name: &str, out: &mut Vec<u8>) -> Result<(), AllocError>
    ensures { OnOk result (out.new.items ≡ out.old.items ++ key name.now) }
{
    put_text("\"", out)?;
    put_text(name, out)?;
    put_text("\":", out)
}

/// Appends a member that is a number, after another.
pub(crate) fn put_number_member(
    alloc: Global,
    name: &str,
    number: usize,
    out: &mut Vec<u8>,
) -> Result<(), AllocError>
    ensures { OnOk result (out.new.items ≡ out.old.items ++ number_member name.now number) }
{
    put_text(",", out)?;
    put_key(name, out)?;
    put_number(alloc, number, out)
}

fn put_value(alloc: Global, value: SpanValue<'_>, out: &mut Vec<u8>) -> Result<(), AllocError>
    ensures { OnOk result (out.new.items ≡ out.old.items ++ value_json (value_lent value.entry)) }
{
    match value {
        SpanValue::Bytes(bytes) => put_string(alloc, bytes, out),
        SpanValue::Number(number) => put_number(alloc, number as usize, out),
    }
}

/// What comes before a member at this place.
fn separator(place: usize) -> &'static str
    ensures { result.now ≡ separator place }
{
    if place == 0 { "" } else { "," }
}

/// Appends a variable with its value.
fn put_variable(
    alloc: Global,
    place: usize,
    name: &Name,
    value: SpanValue<'_>,
    out: &mut Vec<u8>,
) -> Result<(), AllocError>
    ensures { OnOk result (out.new.items ≡ out.old.items ++ variable_json place (name.now, value_lent value.entry)) }
{
    put_text(separator(place), out)?;
    put_string(alloc, name.bytes(), out)?;
    put_text(":", out)?;
    put_value(alloc, value, out)
}

fn put_variables(
    alloc: Global,
    bindings: &ByteBindings<'_>,
    out: &mut Vec<u8>,
) -> Result<(), AllocError>
    ensures { OnOk result (out.new.items ≡ out.old.items ++ variables_json 0 bindings.now) }
{
    for place in 0..bindings.len() {
        match bindings.get(place) {
            Some((name, value)) => put_variable(alloc, place, name, value, out)?,
            None => unreachable!(),
        }
    }
    Ok(())
}

/// Appends where a match is.
#[tactic(auto, unfolding(crate::specs::Json::places_json))]
fn put_places(alloc: Global, finding: &Finding<'_>, out: &mut Vec<u8>) -> Result<(), AllocError>
    ensures { OnOk result (out.new.items ≡ out.old.items ++ places_json finding.now) }
{
    put_number_member(alloc, "start", finding.start.place, out)?;
    put_number_member(alloc, "end", finding.end, out)?;
    put_number_member(alloc, "line", finding.start.line, out)?;
    put_number_member(alloc, "column", finding.start.column, out)
}

/// The bytes between two places.
fn between(bytes: &[u8], from: usize, to: usize) -> &[u8]
    ensures { result.now ≡ part bytes.now from to }
{
    front(back(bytes, from), to.saturating_sub(from))
}

/// Appends the first members: the path and the number of the statement.
#[tactic(auto, unfolding(crate::specs::Json::head_json))]
pub(crate) fn put_head(
    alloc: Global,
    path: &str,
    statement: u32,
    out: &mut Vec<u8>,
) -> Result<(), AllocError>
    ensures { OnOk result (out.new.items ≡ out.old.items ++ head_json path.now statement) }
{
    put_text("{", out)?;
    put_key("path", out)?;
    put_string(alloc, path.as_bytes(), out)?;
    put_number_member(alloc, "statement", statement as usize, out)
}

/// Appends what was matched.
#[tactic(auto, unfolding(crate::specs::Json::text_json))]
fn put_matched(alloc: Global, bytes: &[u8], out: &mut Vec<u8>) -> Result<(), AllocError>
    ensures { OnOk result (out.new.items ≡ out.old.items ++ text_json bytes.now) }
{
    put_text(",", out)?;
    put_key("text", out)?;
    put_string(alloc, bytes, out)
}

/// Appends the variables as an object.
#[tactic(auto, unfolding(crate::specs::Json::object_json))]
fn put_object(
    alloc: Global,
    bindings: &ByteBindings<'_>,
    out: &mut Vec<u8>,
) -> Result<(), AllocError>
    ensures { OnOk result (out.new.items ≡ out.old.items ++ object_json bindings.now) }
{
    put_text("{", out)?;
    put_variables(alloc, bindings, out)?;
    put_text("}", out)
}

/// Appends the variables.
#[tactic(auto, unfolding(crate::specs::Json::bindings_json))]
fn put_bindings(
    alloc: Global,
    bindings: &ByteBindings<'_>,
    out: &mut Vec<u8>,
) -> Result<(), AllocError>
    ensures { OnOk result (out.new.items ≡ out.old.items ++ bindings_json bindings.now) }
{
    put_text(",", out)?;
    put_key("variables", out)?;
    put_object(alloc, bindings, out)?;
    Ok(())
}

/// Appends a finding as one JSON object on a line: `path`, `statement`, `start` and `end` in bytes, `line`, `column`, `text`, which is
/// what was matched, and `variables`, an object with the value of each variable: a string, or a number for a cursor. What isn't
/// UTF-8 in a string becomes U+FFFD. `text` is the text in which the finding was found.
///
/// Refused only if memory runs out. Then a part of the line may be there.
pub fn put_json(
    alloc: Global,
    path: &str,
    text: &ByteText,
    finding: &Finding<'_>,
    out: &mut Vec<u8>,
) -> Result<(), AllocError>
    ensures { OnOk result (out.new.items ≡ out.old.items ++ finding_json path.now text.now finding.now) }
{
    let matched = between(text.bytes(), finding.start.place, finding.end);
    put_head(alloc, path, finding.statement, out)?;
    put_places(alloc, finding, out)?;
    put_matched(alloc, matched, out)?;
    put_bindings(alloc, &finding.bindings, out)?;
    put_text("}\n", out)
}
