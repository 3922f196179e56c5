//! What a line asks for.
ghost use Rattle.std.specs.Prelude.{◌≡◌, codes, IfOk};
ghost use Rattle.std.specs.Option.{option_map};
ghost use Rattle.std.specs.Arc.{arc_value};
ghost use Rattle.serde_json.specs.Find.{get};
ghost use Rattle.serde_json.specs.View.{view};
ghost use Rattle.sno_statement.specs.Statement.{IsLimit};
ghost use Rattle.sno_document.specs.Json.{json_of};
ghost use Rattle.sno_serve.specs.Asked.{id_or_none, id_in, name_of, name_or_none, whole_or_none, asks_read, asks_since, asks_texts, asked_last, asked_by, asked_in, trials_asked, within};

use crate::asked_statements::asks_statement;
use crate::ignored::ignored_in;
use crate::plain_lines::plain_line;
use crate::{Excerpt, LineFault};
use serde_json::{Category, Value};
use sno_document::{DocumentFault, Mode, Rules, Statement};
use sno_pattern::{NameFault, TextName};
use std::alloc::{AllocError, Global};
use std::mem;
use std::sync::Arc;

/// What a line asks for.
#[derive(Drop)]
pub enum Asked {
    /// This statement is to be performed.
    Perform(Statement),
    /// This statement is to be performed if its text has this version.
    PerformAt(Statement, u64),
    /// It is to be shown what this statement would do now.
    Check(Statement),
    /// The text with this name is to be read.
    Read(TextName),
    /// The text with this name is to be read as it was at this version.
    ReadAt(TextName, u64),
    /// The texts are to be listed.
    Texts,
    /// These entries are to be listed.
    Since(Excerpt),
    /// The line can't be read.
    Fault(LineFault),
}

/// A line.
#[derive(Drop)]
pub struct Line {
    /// The caller's id, a string or a number, if the line has one.
    pub id: Option<Value>,
    /// What the line asks for.
    pub asked: Asked,
    /// The names of its members that mean nothing there, as strings.
    pub ignored: Vec<Value>,
}

impl Line {
    /// Takes the names of members that mean nothing there, and leaves none.
    pub fn take_ignored(&mut self, alloc: Global) -> Vec<Value>
        ensures id { self.new.id ≡ self.old.id }
        ensures asked { self.new.asked ≡ self.old.asked }
        ensures ignored { result ≡ self.old.ignored }
    {
        mem::replace(&mut self.ignored, Vec::new(alloc))
    }

    /// Makes a fault of a statement whose match may take more trials than the ceiling.
    pub fn keep_within(&mut self, ceiling: u32)
        ensures id { self.new.id ≡ self.old.id }
        ensures asked { self.new.asked ≡ within ceiling self.old.asked }
        ensures ignored { self.new.ignored ≡ self.old.ignored }
    {
        if ceiling < trials_asked(&self.asked) {
            self.asked = Asked::Fault(LineFault::TrialsAbove(ceiling));
        }
    }
}

/// How many trials a match of the statement that is asked for may take; 0 if no statement is.
fn trials_asked(asked: &Asked) -> u32
    ensures { result ≡ trials_asked asked.now }
{
    match asked {
        Asked::Perform(statement) | Asked::PerformAt(statement, _) | Asked::Check(statement) => {
            statement.limit()
        }
        Asked::Read(_) => 0,
        Asked::ReadAt(_, _) => 0,
        Asked::Texts => 0,
        Asked::Since(_) => 0,
        Asked::Fault(_) => 0,
    }
}

/// The id that a member is.
fn id_or_none(member: Option<&Value>) -> Result<Option<Value>, AllocError>
    ensures { IfOk result (λ id. option_map view id ≡ id_or_none (option_map (λ v. view v.now) member.entry)) }
{
    match member {
        Some(Value::String(text)) => {
            let copy = text.clone()?;
            Ok(Some(Value::String(copy)))
        }
        Some(Value::Number(number)) => Ok(Some(Value::Number(*number))),
        _ => Ok(None),
    }
}

/// The name of a text that a member is.
fn name_of(
    alloc: Global,
    number: u32,
    member: &Value,
) -> Result<Result<TextName, LineFault>, AllocError>
    ensures { IfOk result (λ n. n ≡ name_of number (view member.now)) }
{
    let Some(name) = member.as_str() else {
        return Ok(Err(LineFault::Document(DocumentFault::Shape)));
    };
    match TextName::new(alloc, name.as_bytes()) {
        Ok(name) => Ok(Ok(name)),
        Err(NameFault::Bad) => Ok(Err(LineFault::Document(DocumentFault::StatementName(
            number as usize,
        )))),
        Err(NameFault::Memory) => Err(AllocError),
    }
}

/// A text is to be read, as it was at the version that `at` is, if there is one.
fn asks_read(
    alloc: Global,
    number: u32,
    member: &Value,
    at: Option<&Value>,
) -> Result<Asked, AllocError>
    ensures { IfOk result (λ a. a ≡ asks_read (name_of number (view member.now)) (whole_or_none (option_map (λ v. view v.now) at.entry))) }
{
    let name = match name_of(alloc, number, member)? {
        Ok(name) => name,
        Err(fault) => return Ok(Asked::Fault(fault)),
    };
    match whole_or_none(at) {
        Ok(None) => Ok(Asked::Read(name)),
        Ok(Some(version)) => Ok(Asked::ReadAt(name, version)),
        Err(fault) => Ok(Asked::Fault(fault)),
    }
}

/// The name of a text that a member is, if it is there.
fn name_or_none(
    alloc: Global,
    number: u32,
    member: Option<&Value>,
) -> Result<Result<Option<TextName>, LineFault>, AllocError>
    ensures { IfOk result (λ n. n ≡ name_or_none number (option_map (λ v. view v.now) member.entry)) }
{
    let Some(member) = member else {
        return Ok(Ok(None));
    };
    match name_of(alloc, number, member)? {
        Ok(name) => Ok(Ok(Some(name))),
        Err(fault) => Ok(Err(fault)),
    }
}

/// A whole number from 0 that a member is, if it is there.
fn whole_or_none(member: Option<&Value>) -> Result<Option<u64>, LineFault>
    ensures { result ≡ whole_or_none (option_map (λ v. view v.now) member.entry) }
{
    let Some(member) = member else {
        return Ok(None);
    };
    match member.as_u64() {
        Some(whole) => Ok(Some(whole)),
        None => Err(LineFault::Document(DocumentFault::Shape)),
    }
}

/// Entries are to be listed.
fn asks_since(
    alloc: Global,
    number: u32,
    member: &Value,
    limit: Option<&Value>,
    text: Option<&Value>,
) -> Result<Asked, AllocError>
    ensures { IfOk result (λ a. a ≡ asks_since (view member.now) (whole_or_none (option_map (λ v. view v.now) limit.entry)) (name_or_none number (option_map (λ v. view v.now) text.entry))) }
{
    let Some(from) = member.as_u64() else {
        return Ok(Asked::Fault(LineFault::Document(DocumentFault::Shape)));
    };
    let limit = match whole_or_none(limit) {
        Ok(limit) => limit,
        Err(fault) => return Ok(Asked::Fault(fault)),
    };
    match name_or_none(alloc, number, text)? {
        Ok(name) => Ok(Asked::Since(Excerpt { from, limit, name })),
        Err(fault) => Ok(Asked::Fault(fault)),
    }
}

/// The texts are to be listed.
fn asks_texts(member: &Value) -> Asked
    ensures { result ≡ asks_texts (view member.now) }
{
    match member.as_bool() {
        Some(true) => Asked::Texts,
        _ => Asked::Fault(LineFault::Document(DocumentFault::Shape)),
    }
}

/// What a line asks for that names no text and no index.
fn asked_last(
    alloc: Global,
    rules: &Arc<Rules>,
    mode: Mode,
    number: u32,
    line: &[u8],
    value: &Value,
) -> Result<Asked, AllocError>
    requires { IsLimit mode.trials }
    ensures { IfOk result (λ a. a ≡ asked_last (arc_value rules.now) mode number line.now (view value.now) (get (codes "texts") (view value.now))) }
{
    match value.get("texts") {
        Some(member) => Ok(asks_texts(member)),
        None => asks_statement(alloc, rules, mode, number, line, value),
    }
}

/// What the value of a line asks for.
fn asked_by(
    alloc: Global,
    rules: &Arc<Rules>,
    mode: Mode,
    number: u32,
    line: &[u8],
    value: &Value,
) -> Result<Asked, AllocError>
    requires { IsLimit mode.trials }
    ensures { IfOk result (λ a. a ≡ asked_by (arc_value rules.now) mode number line.now (view value.now) (get (codes "read") (view value.now)) (get (codes "since") (view value.now))) }
{
    match (value.get("read"), value.get("since")) {
        (Some(member), _) => asks_read(alloc, number, member, value.get("at")),
        (None, Some(member)) => {
            asks_since(alloc, number, member, value.get("limit"), value.get("text"))
        }
        (None, None) => asked_last(alloc, rules, mode, number, line, value),
    }
}

/// The JSON value of a line, if it has one.
#[tactic(auto, using(sno_document::proofs::JsonLemmas::json_found, sno_document::proofs::JsonLemmas::json_none))]
fn value_of(alloc: Global, line: &[u8]) -> Result<Option<Value>, AllocError>
    ensures { IfOk result (λ v. option_map view v ≡ json_of line.now) }
{
    match Value::from_slice(alloc, line) {
        Ok(value) => Ok(Some(value)),
        Err(e) => match e.classify() {
            Category::Memory => Err(AllocError),
            _ => Ok(None),
        },
    }
}

/// Returns what a line asks for, with the caller's id. The first of these members decides: `read` is the name of a text, `since` an
/// index, and `texts` true; a line without them is a statement.
///
/// - With `read`, `at` is the version that the text had.
/// - With `since`, `limit` is the most entries, and `text` the name of the text whose entries are meant.
/// - A statement is read for these definitions, with this number and mode, as by `read_statement`. Its `trials` is the limit in
///   place of the mode's, from 1 to 1,000,000,000, and its `if_version` the version at which it is to be performed. `check`, if true,
///   only wants to know what it would do. `bind` is an object of names and texts that they represent, read as by
///   `read_bound_statement`: up to 64 names with those of the definitions, and texts of up to 65,536 ASCII characters.
///
/// If a line can't be read, it asks for the first fault. Those of a statement come in this order: of `trials`, of `bind`, of
/// `check`, of the statement, and of `if_version`. Refused only if memory runs out.
pub fn line_in(
    alloc: Global,
    rules: &Arc<Rules>,
    mode: Mode,
    number: u32,
    line: &[u8],
) -> Result<Line, AllocError>
    requires { IsLimit mode.trials }
    ensures id { IfOk result (λ l. option_map view l.id ≡ id_in line.now) }
    ensures asked { IfOk result (λ l. l.asked ≡ asked_in (arc_value rules.now) mode number line.now) }
{
    if let Some(line) = plain_line(alloc, rules, mode, number, line)? {
        return Ok(line);
    }
    let Some(value) = value_of(alloc, line)? else {
        return Ok(Line {
            id: None,
            asked: Asked::Fault(LineFault::Document(DocumentFault::NotJson)),
            ignored: Vec::new(alloc),
        });
    };
    let id = id_or_none(value.get("id"))?;
    let asked = asked_by(alloc, rules, mode, number, line, &value)?;
    let ignored = ignored_in(alloc, &value)?;
    Ok(Line { id, asked, ignored })
}
