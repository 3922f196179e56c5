//! The lines of a store: first what it was made of, and then a record of each entry.
ghost use Rattle.std.specs.Prelude.{◌≡◌, ◌≤◌, ◌+◌, ◌∷◌, [], codes, IfOk, Some};
ghost use Rattle.std.specs.Option.{option_map};
ghost use Rattle.json.specs.Token.{Token, begin_object, key};
ghost use Rattle.json.specs.Print.{print};
ghost use Rattle.serde_json.specs.Data.{Data, depth};
ghost use Rattle.serde_json.specs.Read.{read, max_depth};
ghost use Rattle.serde_json.specs.View.{view};
ghost use Rattle.serde_json.specs.Written.{compact_text};
ghost use Rattle.sno_document.specs.Json.{json_of};
ghost use Rattle.sno_durable.specs.Origins.{before_said, before_seen, is_known, origin_in, origin_seen, past_said, past_seen, small, small_at};
ghost use Rattle.sno_durable.specs.Past.{number_at, string_at};
ghost use Rattle.sno_durable.specs.Records.{later_data, origin_data, past_data, record_data, record_text};
ghost use Rattle.sno_durable.specs.Replayed.{record_in, record_seen};

use crate::past::Past;
use json::Writer;
use serde_json::{Category, Map, Value, put};
use std::alloc::{AllocError, Global};

/// The number of this format, whose lines have sums.
const FORMAT: u64 = 3;

/// The number of the format of stores without sums that go on from no other one.
const PLAIN_FORMAT: u64 = 1;

/// The number of the format of stores without sums that go on from others.
const LATER_PLAIN_FORMAT: u64 = 2;

/// What a store was made of.
#[derive(Drop)]
pub(crate) struct Origin {
    /// The bytes of the document whose texts the first entry finds.
    pub(crate) document: Vec<u8>,
    /// How many trials a match may take.
    pub(crate) trials: u32,
    /// What came before, if the store goes on from others.
    pub(crate) before: Option<Before>,
}

impl Origin {
    ghost use Rattle.sno_durable.specs.Compacted.{entries_before, made_of, statements_before, versions_before};

    /// The bytes of the document that the store was made of, or the first of those that it goes on from.
    pub(crate) fn made_of(&self) -> &[u8]
        ensures { result.now ≡ made_of self.now.document.items self.now.before }
    {
        match &self.before {
            None => &self.document,
            Some(before) => &before.made_of,
        }
    }

    /// What came before the store's first entry.
    pub(crate) fn past(&self, alloc: Global) -> Result<Past, AllocError>
        ensures entries { IfOk result (λ p. p.entries ≡ entries_before self.now.before) }
        ensures statements { IfOk result (λ p. p.statements ≡ statements_before self.now.before) }
        ensures versions { IfOk result (λ p. view p.versions ≡ versions_before self.now.before) }
    {
        match &self.before {
            None => Ok(Past::nothing(alloc)),
            Some(before) => before.past.clone(),
        }
    }
}

/// What came before a store that goes on from others.
#[derive(Drop)]
pub(crate) struct Before {
    /// The bytes of the document that the first of them was made of, as they came.
    pub(crate) made_of: Vec<u8>,
    /// The numbers that go on.
    pub(crate) past: Past,
}

/// A line that a client wrote, with the number that its statement has.
#[derive(Drop)]
pub(crate) struct Record {
    /// The line, as it came.
    pub(crate) line: String,
    /// The number of its statement.
    pub(crate) number: u32,
}

/// The first line of a store.
pub(crate) fn origin_line(alloc: Global, document: &str, trials: u32) -> Result<Vec<u8>, AllocError>
    ensures { IfOk result (λ b. read b.items ≡ Some (origin_data document.now trials)) }
{
    let text = Value::try_from_str(alloc, document)?;
    let mut members = Map::new(alloc);
    put(&mut members, alloc, "trials", Value::from(trials))?;
    put(&mut members, alloc, "nomyake", Value::from(FORMAT))?;
    put(&mut members, alloc, "document", text)?;
    let bytes = Value::Object(members).to_vec(alloc)?;
    Ok(bytes)
}

/// What came before, as a member of the first line.
fn past_value(alloc: Global, past: &Past) -> Result<Value, AllocError>
    ensures { IfOk result (λ v. view v ≡ past_data past.now.entries past.now.statements (view past.now.versions)) }
{
    let versions = past.versions.clone()?;
    let mut members = Map::new(alloc);
    put(&mut members, alloc, "versions", versions)?;
    put(
        &mut members,
        alloc,
        "statements",
        Value::from(past.statements),
    )?;
    put(&mut members, alloc, "entries", Value::from(past.entries))?;
    Ok(Value::Object(members))
}

/// The first line of a store that goes on from others.
pub(crate) fn later_line(
    alloc: Global,
    document: &str,
    trials: u32,
    made_of: &str,
    past: &Past,
) -> Result<Vec<u8>, AllocError>
    ensures { IfOk result (λ b. depth (view past.now.versions) + 2 ≤ max_depth → read b.items ≡ Some (later_data document.now trials made_of.now (past_data past.now.entries past.now.statements (view past.now.versions)))) }
{
    let text = Value::try_from_str(alloc, document)?;
    let first = Value::try_from_str(alloc, made_of)?;
    let mut members = Map::new(alloc);
    put(&mut members, alloc, "trials", Value::from(trials))?;
    put(&mut members, alloc, "past", past_value(alloc, past)?)?;
    put(&mut members, alloc, "nomyake", Value::from(FORMAT))?;
    put(&mut members, alloc, "made_of", first)?;
    put(&mut members, alloc, "document", text)?;
    let bytes = Value::Object(members).to_vec(alloc)?;
    Ok(bytes)
}

// How many bytes a record has beside its line and its reply, if nothing in the line is escaped, and some more.
const RECORD_ROOM: usize = 48;

/// What a record has before its reply: the line of a client, and the key of the reply. `room` is how many bytes are expected.
fn record_head(alloc: Global, line: &str, room: usize) -> Result<Vec<u8>, AllocError>
    ensures { IfOk result (λ b. b.items ≡ print (begin_object ∷ key (codes "line") ∷ Token.string line.now ∷ key (codes "reply") ∷ [])) }
{
    let mut out = Writer::new(Vec::with_capacity(alloc, room)?);
    out.begin_object()?;
    out.key("line")?;
    out.string(line)?;
    out.key("reply")?;
    Ok(out.into_inner())
}

/// The record of an entry: the line of a client, and the text of its reply as it is written to the client.
pub(crate) fn record_line(alloc: Global, line: &str, reply: &[u8]) -> Result<Vec<u8>, AllocError>
    ensures text { IfOk result (λ b. b.items ≡ record_text line.now reply.now) }
    ensures data { IfOk result (λ b. (d : Data) → reply.now ≡ compact_text d → b.items ≡ compact_text (record_data line.now d)) }
{
    let room = line.len().saturating_add(reply.len());
    let mut bytes = record_head(alloc, line, room.saturating_add(RECORD_ROOM))?;
    bytes.extend_from_slice(reply)?;
    bytes.push(b'}')?;
    Ok(bytes)
}

/// The JSON value of a line of the store, if it is one.
#[tactic(auto, using(sno_document::proofs::JsonLemmas::json_found, sno_document::proofs::JsonLemmas::json_none))]
fn value_of(alloc: Global, line: &[u8]) -> Result<Option<Value>, AllocError>
    ensures { IfOk result (λ v. option_map view v ≡ json_of line.now) }
{
    match Value::from_slice(alloc, line) {
        Ok(value) => Ok(Some(value)),
        Err(e) => match e.classify() {
            Category::Memory => Err(AllocError),
            _ => Ok(None),
        },
    }
}

/// A member that is a whole number.
pub(crate) fn number_at(value: &Value, key: &str) -> Option<u64>
    ensures { result ≡ number_at key.now (view value.now) }
{
    value.get(key).and_then(Value::as_u64)
}

/// A number, if it has at most 32 bits.
fn small(number: u64) -> Option<u32>
    ensures { result ≡ small number }
{
    if number < 1 << 32 {
        Some(number as u32)
    } else {
        None
    }
}

/// A member that is a whole number of at most 32 bits.
fn small_at(value: &Value, key: &str) -> Option<u32>
    ensures { result ≡ small_at key.now (view value.now) }
{
    match number_at(value, key) {
        None => None,
        Some(number) => small(number),
    }
}

/// A member that is a string.
fn string_at<'v>(value: &'v Value, key: &str) -> Option<&'v str>
    ensures { option_map (λ s. s.now) result ≡ string_at key.now (view value.now) }
{
    value.get(key).and_then(Value::as_str)
}

/// What a member says that came before; nothing if it doesn't.
fn past_in(member: &Value) -> Result<Option<Past>, AllocError>
    ensures { IfOk result (λ p. option_map past_seen p ≡ past_said (view member.now)) }
{
    let Some(entries) = number_at(member, "entries") else {
        return Ok(None);
    };
    let Some(statements) = small_at(member, "statements") else {
        return Ok(None);
    };
    let Some(versions) = member.get("versions") else {
        return Ok(None);
    };
    if !versions.is_object() {
        return Ok(None);
    }
    Ok(Some(Past {
        entries,
        statements,
        versions: versions.clone()?,
    }))
}

/// What a first line says that came before; nothing if it doesn't.
fn before_in(alloc: Global, line: &Value) -> Result<Option<Before>, AllocError>
    ensures { IfOk result (λ b. option_map before_seen b ≡ before_said (view line.now)) }
{
    let Some(made_of) = string_at(line, "made_of") else {
        return Ok(None);
    };
    let Some(member) = line.get("past") else {
        return Ok(None);
    };
    let Some(past) = past_in(member)? else {
        return Ok(None);
    };
    let made_of = String::from_str(alloc, made_of)?.into_bytes();
    Ok(Some(Before { made_of, past }))
}

/// Whether there are lines of this format that say that something came before, or that nothing did.
fn is_known(format: Option<u64>, goes_on: bool) -> bool
    ensures { result ≡ is_known format goes_on }
{
    match format {
        None => false,
        Some(format) => {
            format == FORMAT
                || (format == PLAIN_FORMAT && !goes_on)
                || (format == LATER_PLAIN_FORMAT && goes_on)
        }
    }
}

/// What the first line of a store says that it was made of; nothing if it isn't such a line.
pub(crate) fn origin_in(alloc: Global, line: &[u8]) -> Result<Option<Origin>, AllocError>
    ensures { IfOk result (λ o. option_map origin_seen o ≡ origin_in line.now) }
{
    let Some(value) = value_of(alloc, line)? else {
        return Ok(None);
    };
    let before = before_in(alloc, &value)?;
    if !is_known(number_at(&value, "nomyake"), before.is_some()) {
        return Ok(None);
    }
    let Some(text) = string_at(&value, "document") else {
        return Ok(None);
    };
    let Some(trials) = small_at(&value, "trials") else {
        return Ok(None);
    };
    let document = String::from_str(alloc, text)?.into_bytes();
    Ok(Some(Origin {
        document,
        trials,
        before,
    }))
}

/// What a record says; nothing if the line isn't one.
pub(crate) fn record_in(alloc: Global, line: &[u8]) -> Result<Option<Record>, AllocError>
    ensures { IfOk result (λ r. option_map record_seen r ≡ record_in line.now) }
{
    let Some(value) = value_of(alloc, line)? else {
        return Ok(None);
    };
    let Some(text) = string_at(&value, "line") else {
        return Ok(None);
    };
    let Some(reply) = value.get("reply") else {
        return Ok(None);
    };
    let Some(number) = small_at(reply, "statement") else {
        return Ok(None);
    };
    let line = String::from_str(alloc, text)?;
    Ok(Some(Record { line, number }))
}

/// The index that the entry after a record's has; nothing if the line isn't a record.
pub(crate) fn next_after(alloc: Global, line: &[u8]) -> Result<Option<u64>, AllocError> {
    let Some(value) = value_of(alloc, line)? else {
        return Ok(None);
    };
    let entry = value
        .get("reply")
        .and_then(|reply| number_at(reply, "entry"));
    Ok(entry.and_then(|entry| entry.checked_add(1)))
}
