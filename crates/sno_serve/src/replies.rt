//! The JSON of replies.
ghost use Rattle.std.specs.Prelude.{◌≡◌, codes, map, IfOk, Ok};
ghost use Rattle.std.specs.Option.{option_map};
ghost use Rattle.serde_json.specs.Data.{string, no_members, member};
ghost use Rattle.serde_json.specs.View.{view, members_view};
ghost use Rattle.sno_serve.specs.Contents.{content_data, entry_reply, listed_rows};
ghost use Rattle.sno_serve.specs.Replies.{IsFaulted, look_words, with_id, word_reply, submit_words, submit_reply, changed_reply, check_reply, at_reply, read_at_reply, read_reply, row_data, rows_data, rows_reply, since_reply, texts_reply, too_long_reply};

use crate::at_version::AtFault;
use crate::content::id_in;
use crate::listed::Listed;
use crate::{BindFault, Content, LineFault};
use serde_json::{Map, Value, put};
use sno_desk::{Proposal, Receipt, Reply, Snapshot, SnapshotFault, SubmitFault, Text, TextName};
use sno_document::DocumentFault;
use sno_listing::{Reason, done_members, reason_value, text_members, text_name_value};
use std::alloc::{AllocError, Global};

/// The object with these members and the id.
fn with_id(
    alloc: Global,
    id: Option<Value>,
    members: Map<String, Value>,
) -> Result<Value, AllocError>
    ensures { IfOk result (λ v. view v ≡ with_id (option_map view id) (members_view members.entries)) }
{
    let mut members = members;
    match id {
        None => Ok(Value::Object(members)),
        Some(id) => {
            put(&mut members, alloc, "id", id)?;
            Ok(Value::Object(members))
        }
    }
}

/// The object with one member and the id.
fn word_reply(
    alloc: Global,
    id: Option<Value>,
    key: &str,
    words: Value,
) -> Result<Value, AllocError>
    ensures { IfOk result (λ v. view v ≡ with_id (option_map view id) (member key.now (view words) no_members)) }
{
    let mut members = Map::new(alloc);
    put(&mut members, alloc, key, words)?;
    with_id(alloc, id, members)
}

/// Why a statement was refused.
fn submit_words(alloc: Global, fault: &SubmitFault) -> Result<Value, AllocError>
    ensures { IfOk result (λ v. view v ≡ string (submit_words fault.now)) }
{
    match *fault {
        SubmitFault::NoText => reason_value(alloc, Reason::NoText),
        SubmitFault::TextTooLong => reason_value(alloc, Reason::TextTooLong),
        SubmitFault::TooManyTrials => reason_value(alloc, Reason::TooManyTrials),
        SubmitFault::TriesSpent { seen, now } => {
            reason_value(alloc, Reason::TriesSpent { seen, now })
        }
        SubmitFault::GateShut => Value::try_from_str(alloc, "gate shut"),
        SubmitFault::Stopped => Value::try_from_str(alloc, "stopped"),
        SubmitFault::Full => reason_value(alloc, Reason::Full),
        SubmitFault::Memory => Value::try_from_str(alloc, "out of memory"),
    }
}

/// The reply to a statement that was accepted, as a value.
pub(crate) fn entry_value(
    alloc: Global,
    id: Option<Value>,
    receipt: &Receipt,
) -> Result<Value, AllocError>
    ensures { IfOk result (λ v. view v ≡ entry_reply (option_map view id) receipt.now) }
{
    let members = done_members(alloc, receipt.index, &receipt.entry)?;
    with_id(alloc, id, members)
}

/// The reply to a statement that was accepted: its entry, as the JSON listing has it, with the id.
fn accepted_reply(alloc: Global, id: Option<Value>, receipt: Receipt) -> Result<Content, AllocError>
    ensures { IfOk result (λ c. content_data c ≡ entry_reply (option_map view id) receipt) }
{
    match id_in(id) {
        Ok(id) => Ok(Content::Entry(id, receipt)),
        Err(id) => {
            let value = entry_value(alloc, Some(id), &receipt)?;
            Ok(Content::Value(value))
        }
    }
}

/// The reply to a statement: its entry, as the JSON listing has it, or the reason why it was refused, with the id.
pub fn submit_reply(alloc: Global, id: Option<Value>, reply: Reply) -> Result<Content, AllocError>
    ensures { IfOk result (λ c. content_data c ≡ submit_reply (option_map view id) reply) }
{
    match reply {
        Ok(receipt) => accepted_reply(alloc, id, receipt),
        Err(fault) => {
            let words = submit_words(alloc, &fault)?;
            let value = word_reply(alloc, id, "reason", words)?;
            Ok(Content::Value(value))
        }
    }
}

/// The reply to a statement whose text has another version than the line names: the version that it has, with the id.
fn changed_reply(alloc: Global, id: Option<Value>, now: u64) -> Result<Value, AllocError>
    ensures { IfOk result (λ v. view v ≡ changed_reply (option_map view id) now) }
{
    let reason = Value::try_from_str(alloc, "changed")?;
    let mut members = Map::new(alloc);
    put(&mut members, alloc, "version", Value::from(now))?;
    put(&mut members, alloc, "reason", reason)?;
    with_id(alloc, id, members)
}

/// The reply to a statement at one version of its text, with the id.
pub fn at_reply(
    alloc: Global,
    id: Option<Value>,
    gave: Result<Receipt, AtFault>,
) -> Result<Content, AllocError>
    ensures { IfOk result (λ c. content_data c ≡ at_reply (option_map view id) gave) }
{
    match gave {
        Ok(receipt) => submit_reply(alloc, id, Ok(receipt)),
        Err(AtFault::Changed(now)) => {
            let value = changed_reply(alloc, id, now)?;
            Ok(Content::Value(value))
        }
        Err(AtFault::Refused(fault)) => submit_reply(alloc, id, Err(fault)),
    }
}

/// The reply to a read: name, text and version, with the id.
pub fn read_reply(
    alloc: Global,
    id: Option<Value>,
    name: &TextName,
    taken: &Snapshot,
) -> Result<Value, AllocError>
    ensures { IfOk result (λ v. view v ≡ read_reply (option_map view id) name.now taken.now) }
{
    let members = text_members(alloc, name, &taken.text, taken.version)?;
    with_id(alloc, id, members)
}

/// A text as it is listed: its length, its name and its version.
pub fn row_value(
    alloc: Global,
    name: &TextName,
    text: &Text,
    version: u64,
) -> Result<Value, AllocError>
    ensures { IfOk result (λ v. view v ≡ row_data name.now text.now version) }
{
    let name = text_name_value(alloc, name)?;
    let mut members = Map::new(alloc);
    put(&mut members, alloc, "version", Value::from(version))?;
    put(&mut members, alloc, "name", name)?;
    put(
        &mut members,
        alloc,
        "length",
        Value::from(text.bytes().len()),
    )?;
    Ok(Value::Object(members))
}

/// Texts as they are listed, with their names.
#[tactic(auto, using(crate::proofs::Rows::row_moved, crate::proofs::Rows::rows_ended))]
fn row_values(
    alloc: Global,
    names: &[&TextName],
    taken: &[Snapshot],
) -> Result<Vec<Value>, AllocError>
    ensures { IfOk result (λ v. map view v.items ≡ rows_data (map (λ n. n.now) names.now) taken.now) }
{
    let mut rows = Vec::with_capacity(alloc, names.len())?;
    for (place, name) in names.iter().enumerate() {
        let Some(taken) = taken.get(place) else {
            return Ok(rows);
        };
        rows.push(row_value(alloc, name, &taken.text, taken.version)?)?;
    }
    Ok(rows)
}

/// The reply with these texts as they are listed, with the id.
pub fn rows_reply(alloc: Global, id: Option<Value>, rows: Vec<Value>) -> Result<Value, AllocError>
    ensures { IfOk result (λ v. view v ≡ rows_reply (option_map view id) (map view rows.items)) }
{
    word_reply(alloc, id, "texts", Value::Array(rows))
}

/// The reply with the texts, with the id.
pub(crate) fn texts_reply(
    alloc: Global,
    id: Option<Value>,
    names: &[&TextName],
    taken: &[Snapshot],
) -> Result<Value, AllocError>
    ensures { IfOk result (λ v. view v ≡ texts_reply (option_map view id) (map (λ n. n.now) names.now) (Ok taken.now)) }
{
    let rows = row_values(alloc, names, taken)?;
    rows_reply(alloc, id, rows)
}

/// The reply with the reason why texts could not be looked at, with the id.
pub fn look_reason(
    alloc: Global,
    id: Option<Value>,
    fault: SnapshotFault,
) -> Result<Value, AllocError>
    ensures { IfOk result (λ v. view v ≡ word_reply (option_map view id) (codes "reason") (look_words fault)) }
{
    match fault {
        SnapshotFault::NoText => reason_reply(alloc, id, "no text"),
        SnapshotFault::Stopped => reason_reply(alloc, id, "stopped"),
        SnapshotFault::Memory => reason_reply(alloc, id, "out of memory"),
    }
}

/// The reply to a read of a text as it was at a version, with the id.
pub fn read_at_reply(
    alloc: Global,
    id: Option<Value>,
    name: &TextName,
    version: u64,
    place: Option<usize>,
    text: Option<&Text>,
) -> Result<Value, AllocError>
    ensures { IfOk result (λ v. view v ≡ read_at_reply (option_map view id) name.now version place (option_map (λ t. t.now) text.entry)) }
{
    let Some(text) = text else {
        return match place {
            Some(_) => reason_reply(alloc, id, "no version"),
            None => reason_reply(alloc, id, "no text"),
        };
    };
    let members = text_members(alloc, name, text, version)?;
    with_id(alloc, id, members)
}

/// The reply to a statement that was only tried: the entry that it would be at this index, with the id.
pub(crate) fn check_reply(
    alloc: Global,
    id: Option<Value>,
    index: usize,
    gave: &Result<Proposal, SubmitFault>,
) -> Result<Value, AllocError>
    ensures { IfOk result (λ v. view v ≡ check_reply (option_map view id) index gave.now) }
{
    match gave {
        Ok(proposal) => {
            let mut members = done_members(alloc, index, proposal.entry())?;
            put(&mut members, alloc, "check", Value::from(true))?;
            with_id(alloc, id, members)
        }
        Err(fault) => {
            let words = submit_words(alloc, fault)?;
            word_reply(alloc, id, "reason", words)
        }
    }
}

/// The reply with these rows of entries, with the id.
pub fn entries_reply(
    alloc: Global,
    id: Option<Value>,
    rows: Vec<Value>,
) -> Result<Value, AllocError>
    ensures { IfOk result (λ v. view v ≡ since_reply (option_map view id) (map view rows.items)) }
{
    word_reply(alloc, id, "entries", Value::Array(rows))
}

/// The reply with the entries that are listed, with the id, as a value.
pub(crate) fn since_value(
    alloc: Global,
    id: Option<Value>,
    listed: &Listed,
) -> Result<Value, AllocError>
    ensures { IfOk result (λ v. view v ≡ since_reply (option_map view id) (listed_rows listed.now)) }
{
    let rows = listed.excerpt.values(alloc, listed.from, &listed.entries)?;
    entries_reply(alloc, id, rows)
}

/// The reply with the entries that are listed, with the id.
pub(crate) fn since_reply(
    alloc: Global,
    id: Option<Value>,
    listed: Listed,
) -> Result<Content, AllocError>
    ensures { IfOk result (λ c. content_data c ≡ since_reply (option_map view id) (listed_rows listed)) }
{
    match id_in(id) {
        Ok(id) => Ok(Content::Entries(id, listed)),
        Err(id) => {
            let value = since_value(alloc, Some(id), &listed)?;
            Ok(Content::Value(value))
        }
    }
}

/// The reply with the reason why nothing was done, and the id.
pub fn reason_reply(alloc: Global, id: Option<Value>, reason: &str) -> Result<Value, AllocError>
    ensures { IfOk result (λ v. view v ≡ word_reply (option_map view id) (codes "reason") reason.now) }
{
    let words = Value::try_from_str(alloc, reason)?;
    word_reply(alloc, id, "reason", words)
}

/// The words of the fault of a line.
fn fault_words(alloc: Global, fault: &LineFault) -> Result<String, AllocError> {
    match *fault {
        LineFault::Document(fault) => document_words(alloc, fault),
        LineFault::Trials => format!(in alloc; "bad trials"),
        LineFault::TrialsAbove(ceiling) => format!(in alloc; "trials: at most {ceiling}"),
        LineFault::Bind(fault) => String::from_str(alloc, bind_words(fault)),
    }
}

/// The words of a fault of `bind`.
fn bind_words(fault: BindFault) -> &'static str {
    match fault {
        BindFault::Shape => "bind: wrong shape",
        BindFault::Name => "bind: bad name",
        BindFault::Reserved => "bind: reserved name",
        BindFault::Duplicate => "bind: a definition's name",
        BindFault::TooMany => "bind: too many",
        BindFault::TooLong => "bind: too long",
        BindFault::NonAscii => "bind: not ASCII",
    }
}

/// The words of a document's fault, without the number of a statement.
fn document_words(alloc: Global, fault: DocumentFault) -> Result<String, AllocError> {
    match fault {
        DocumentFault::StatementPattern(_, fault) => format!(in alloc; "pattern: {fault}"),
        DocumentFault::StatementObject(_, fault) => format!(in alloc; "object: {fault}"),
        DocumentFault::StatementName(_) => format!(in alloc; "bad name"),
        DocumentFault::StatementRepeat(_) => format!(in alloc; "bad repeat"),
        DocumentFault::StatementAll(_) => format!(in alloc; "bad all"),
        DocumentFault::Shape => format!(in alloc; "wrong shape"),
        DocumentFault::NotJson => format!(in alloc; "not JSON"),
        DocumentFault::DocumentTooLong => format!(in alloc; "longer than 16777216 bytes"),
        fault => format!(in alloc; "{fault}"),
    }
}

/// The reply to a line that can't be read: words, with the id.
pub(crate) fn error_reply(
    alloc: Global,
    id: Option<Value>,
    words: &str,
) -> Result<Value, AllocError>
    ensures { IfOk result (λ v. view v ≡ word_reply (option_map view id) (codes "error") words.now) }
{
    let words = Value::try_from_str(alloc, words)?;
    word_reply(alloc, id, "error", words)
}

/// The reply to a line with this fault.
pub fn fault_reply(alloc: Global, id: Option<Value>, fault: &LineFault) -> Result<Value, AllocError>
    ensures { IfOk result (λ v. IsFaulted (option_map view id) (view v)) }
{
    let words = fault_words(alloc, fault)?;
    error_reply(alloc, id, &words)
}

/// The reply to a line that is too long, whatever its id is.
pub fn too_long_reply(alloc: Global) -> Result<Value, AllocError>
    ensures { IfOk result (λ v. view v ≡ too_long_reply) }
{
    error_reply(alloc, None, "longer than 16777216 bytes")
}
