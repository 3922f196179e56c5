//! What a reply says. Entries are kept as they are, and written as JSON when the reply is: values of them would take memory for each
//! member.
ghost use Rattle.std.specs.Prelude.{◌≡◌, ◌<◌, ◌+◌, ◌^◌, ◌++◌, Some, false, IfOk, MatchResult, OnOk, length, take};
ghost use Rattle.std.specs.Option.{option_map};
ghost use Rattle.json.specs.Tree.{items_tokens};
ghost use Rattle.serde_json.specs.View.{items_of, view};
ghost use Rattle.serde_json.specs.Written.{compact_text, has_float, items_outline};
ghost use Rattle.sno_listing.specs.Tokens.{Adds, data_tokens};
ghost use Rattle.sno_serve.specs.Contents.{content_data, entry_reply, id_data, id_tokens, listed_rows};
ghost use Rattle.sno_serve.specs.Excerpts.{rows_of, up_to};
ghost use Rattle.sno_serve.specs.Replies.{since_reply};

use crate::excerpt::{is_of, most_of};
use crate::listed::Listed;
use crate::replies::{entry_value, since_value};
use json::Writer;
use serde_json::Value;
use sno_desk::{Entry, Receipt, TextName};
use sno_listing::{put_entry, put_head, put_tail};
use std::alloc::{AllocError, Global};
use std::mem;

/// A caller's id that is written as it was read: a string, or a whole number from 0.
#[derive(Drop)]
pub enum Id {
    /// A string.
    Text(String),
    /// A whole number.
    Whole(u64),
}

/// What a reply says.
#[derive(Drop)]
pub enum Content {
    /// This value.
    Value(Value),
    /// An accepted entry, with the caller's id.
    Entry(Option<Id>, Receipt),
    /// Entries, with the caller's id.
    Entries(Option<Id>, Listed),
}

/// The id that a value is, or the value if it isn't one.
pub(crate) fn id_in(id: Option<Value>) -> Result<Option<Id>, Value>
    ensures { MatchResult result (λ i. option_map id_data i ≡ option_map view id) (λ v. Some (view v) ≡ option_map view id) }
{
    match id {
        None => Ok(None),
        Some(Value::String(text)) => Ok(Some(Id::Text(text))),
        Some(Value::Number(number)) => match number.as_u64() {
            Some(whole) => Ok(Some(Id::Whole(whole))),
            None => Err(Value::Number(number)),
        },
        Some(other) => Err(other),
    }
}

/// An id as a value.
fn id_value(id: Option<Id>) -> Option<Value>
    ensures { option_map view result ≡ option_map id_data id }
{
    match id {
        None => None,
        Some(Id::Text(text)) => Some(Value::String(text)),
        Some(Id::Whole(whole)) => Some(Value::from(whole)),
    }
}

/// The member `id`, if there is one.
fn put_id(out: &mut Writer, id: &Option<Id>) -> Result<(), AllocError>
    ensures { OnOk result (Adds out.old out.new (id_tokens (option_map id_data id.now))) }
{
    match id {
        None => Ok(()),
        Some(Id::Text(text)) => {
            out.key("id")?;
            out.string(text)
        }
        Some(Id::Whole(whole)) => {
            out.key("id")?;
            out.u64(*whole)
        }
    }
}

/// The reply to a statement that was accepted.
fn put_accepted(out: &mut Writer, id: &Option<Id>, receipt: &Receipt) -> Result<(), AllocError>
    ensures { OnOk result (Adds out.old out.new (data_tokens (entry_reply (option_map id_data id.now) receipt.now))) }
{
    put_head(out, receipt.index, &receipt.entry)?;
    put_id(out, id)?;
    put_tail(out, &receipt.entry)?;
    Ok(())
}

/// The first `most` of the entries of a text from the index `from` on, and the bracket after them.
fn put_first(
    out: &mut Writer,
    from: usize,
    entries: &[Entry],
    name: Option<&TextName>,
    most: usize,
) -> Result<(), AllocError>
    requires { from + length entries.now < 2 ^ 64 }
    ensures { OnOk result (Adds out.old out.new (items_tokens (items_outline (items_of (take most (rows_of (option_map (λ n. n.now) name.entry) from entries.now)))))) }
{
    let mut left = most;
    for (place, entry) in entries.iter().enumerate() {
        if left == 0 {
            return out.end_array();
        }
        if is_of(name, entry) {
            put_entry(out, from + place, entry)?;
            left -= 1;
        }
    }
    out.end_array()
}

/// The entries that are listed, and the bracket after them.
#[tactic(auto, using(crate::proofs::Excerpts::limited))]
fn put_rows(out: &mut Writer, listed: &Listed) -> Result<(), AllocError>
    ensures { OnOk result (Adds out.old out.new (items_tokens (items_outline (items_of (listed_rows listed.now))))) }
{
    let Listed {
        from,
        entries,
        excerpt,
    } = listed;
    let most = most_of(excerpt.limit, entries.len());
    put_first(out, *from, entries, excerpt.name.as_ref(), most)
}

/// The reply with entries.
#[tactic(auto, using(crate::proofs::Contents::listed_parts))]
fn put_listed(out: &mut Writer, id: &Option<Id>, listed: &Listed) -> Result<(), AllocError>
    ensures { OnOk result (Adds out.old out.new (data_tokens (since_reply (option_map id_data id.now) (listed_rows listed.now)))) }
{
    out.begin_object()?;
    out.key("entries")?;
    out.begin_array()?;
    put_rows(out, listed)?;
    put_id(out, id)?;
    out.end_object()
}

/// The bytes with the reply to a statement that was accepted after them.
#[tactic(auto, using(crate::proofs::Contents::written))]
fn with_accepted(before: Vec<u8>, id: &Option<Id>, receipt: &Receipt) -> Result<Vec<u8>, AllocError>
    ensures { IfOk result (λ b. b.items ≡ before.items ++ compact_text (entry_reply (option_map id_data id.now) receipt.now)) }
{
    let mut out = Writer::new(before);
    put_accepted(&mut out, id, receipt)?;
    Ok(out.into_inner())
}

/// The bytes with the reply with entries after them.
#[tactic(auto, using(crate::proofs::Contents::written))]
fn with_listed(before: Vec<u8>, id: &Option<Id>, listed: &Listed) -> Result<Vec<u8>, AllocError>
    ensures { IfOk result (λ b. b.items ≡ before.items ++ compact_text (since_reply (option_map id_data id.now) (listed_rows listed.now))) }
{
    let mut out = Writer::new(before);
    put_listed(&mut out, id, listed)?;
    Ok(out.into_inner())
}

/// A value after the bytes.
fn with_value(alloc: Global, before: Vec<u8>, value: &Value) -> Result<Vec<u8>, AllocError>
    ensures { IfOk result (λ b. has_float (view value.now) ≡ false → b.items ≡ before.items ++ compact_text (view value.now)) }
{
    let mut bytes = before;
    let text = value.to_vec(alloc)?;
    bytes.extend_from_slice(&text)?;
    Ok(bytes)
}

impl Content {
    /// Returns the bytes with the reply after them, as compact JSON. Its text is that of its data if that has no float; an id may
    /// bring one. Refused only if memory runs out.
    fn written_after(&self, alloc: Global, before: Vec<u8>) -> Result<Vec<u8>, AllocError>
        ensures { IfOk result (λ b. has_float (content_data self.now) ≡ false → b.items ≡ before.items ++ compact_text (content_data self.now)) }
    {
        match self {
            Content::Value(value) => with_value(alloc, before, value),
            Content::Entry(id, receipt) => with_accepted(before, id, receipt),
            Content::Entries(id, listed) => with_listed(before, id, listed),
        }
    }

    /// Puts the reply after these bytes, as compact JSON. Its text is that of its data if that has no float; a caller's id may be one.
    /// Refused only if memory runs out; the bytes may be lost then.
    pub fn put(&self, alloc: Global, out: &mut Vec<u8>) -> Result<(), AllocError>
        ensures { OnOk result (has_float (content_data self.now) ≡ false → out.new.items ≡ out.old.items ++ compact_text (content_data self.now)) }
    {
        let before = mem::replace(out, Vec::new(alloc));
        *out = self.written_after(alloc, before)?;
        Ok(())
    }

    /// Returns the reply as a value. Refused only if memory runs out.
    pub fn into_value(self, alloc: Global) -> Result<Value, AllocError>
        ensures { IfOk result (λ v. view v ≡ content_data self) }
    {
        match self {
            Content::Value(value) => Ok(value),
            Content::Entry(id, receipt) => entry_value(alloc, id_value(id), &receipt),
            Content::Entries(id, listed) => since_value(alloc, id_value(id), &listed),
        }
    }
}
