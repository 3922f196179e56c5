//! Members of a line that mean nothing there.
ghost use Rattle.std.specs.Prelude.{◌≡◌, IfOk, map};
ghost use Rattle.serde_json.specs.View.{view};
ghost use Rattle.sno_serve.specs.Replies.{with_ignored};

use serde_json::{Value, put};
use std::alloc::{AllocError, Global};

/// The members of a line that reads a text.
const READ: [&str; 3] = ["id", "read", "at"];

/// The members of a line that lists entries.
const SINCE: [&str; 4] = ["id", "since", "limit", "text"];

/// The members of a line that lists the texts.
const TEXTS: [&str; 2] = ["id", "texts"];

/// The members of a line that is a statement.
const STATEMENT: [&str; 11] = [
    "id",
    "text",
    "pattern",
    "object",
    "anchored",
    "repeat",
    "all",
    "trials",
    "bind",
    "check",
    "if_version",
];

/// No more names are listed.
const MAX_NAMES: usize = 16;

/// The members that mean something in a line.
fn known_in(value: &Value) -> &'static [&'static str] {
    if value.get("read").is_some() {
        &READ
    } else if value.get("since").is_some() {
        &SINCE
    } else if value.get("texts").is_some() {
        &TEXTS
    } else {
        &STATEMENT
    }
}

/// The names of members that mean nothing in a line, in the order of their bytes: the first 16.
pub(crate) fn ignored_in(alloc: Global, value: &Value) -> Result<Vec<Value>, AllocError> {
    let mut ignored = Vec::new(alloc);
    let Some(members) = value.as_object() else {
        return Ok(ignored);
    };
    let known = known_in(value);
    for (name, _) in members.iter() {
        if ignored.len() < MAX_NAMES && !known.contains(&name.as_str()) {
            ignored.push(Value::try_from_str(alloc, name)?)?;
        }
    }
    Ok(ignored)
}

/// Returns the reply with these names as `ignored`, if there are any: those of the members of its line that mean nothing there. Refused
/// only if memory runs out.
#[tactic(auto, using(crate::proofs::NamedMembers::some_ignored))]
pub fn with_ignored(alloc: Global, reply: Value, ignored: Vec<Value>) -> Result<Value, AllocError>
    ensures { IfOk result (λ v. view v ≡ with_ignored (map view ignored.items) (view reply)) }
{
    if ignored.is_empty() {
        return Ok(reply);
    }
    match reply {
        Value::Object(members) => {
            let mut members = members;
            put(&mut members, alloc, "ignored", Value::Array(ignored))?;
            Ok(Value::Object(members))
        }
        other => Ok(other),
    }
}
