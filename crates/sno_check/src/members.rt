//! Members that no object of a kind has, and members that are written twice.

use json::Value;
use sno_findings::{Collector, Place, nearest, shown};
use std::alloc::{AllocError, Global};

/// A kind of object of a document.
#[derive(Clone, Copy, Debug, PartialEq, Eq)]
enum Kind {
    Document,
    Definition,
    Text,
    Statement,
}

impl Kind {
    fn called(self) -> &'static str {
        match self {
            Kind::Document => "a document",
            Kind::Definition => "a definition",
            Kind::Text => "a text",
            Kind::Statement => "a statement",
        }
    }

    /// The members, as messages list them.
    fn listed(self) -> &'static str {
        match self {
            Kind::Document => "'patterns', 'texts' and 'statements'",
            Kind::Definition => "'name' and 'pattern'",
            Kind::Text => "'name' and 'text'",
            Kind::Statement => "'text', 'pattern', 'object', 'anchored', 'repeat' and 'all'",
        }
    }

    fn members(self) -> &'static [&'static str] {
        match self {
            Kind::Document => &["patterns", "texts", "statements", "$schema"],
            Kind::Definition => &["name", "pattern"],
            Kind::Text => &["name", "text"],
            Kind::Statement => &["text", "pattern", "object", "anchored", "repeat", "all"],
        }
    }
}

/// The member that is called so elsewhere.
fn called_elsewhere(kind: Kind, name: &str) -> Option<&'static str> {
    match (kind, name) {
        (Kind::Document, "definitions" | "rules") => Some("patterns"),
        (Kind::Document, "files" | "documents" | "subjects") => Some("texts"),
        (Kind::Document, "edits" | "steps") => Some("statements"),
        (Kind::Definition, "body" | "definition" | "value") => Some("pattern"),
        (Kind::Text, "content" | "contents" | "body" | "value") => Some("text"),
        (Kind::Statement, "replacement" | "replace" | "with" | "to") => Some("object"),
        (Kind::Statement, "find" | "match" | "search" | "regex") => Some("pattern"),
        (Kind::Statement, "subject" | "name" | "file") => Some("text"),
        (Kind::Statement, "global" | "every") => Some("all"),
        _ => None,
    }
}

/// The member that is probably meant.
fn meant_by(alloc: Global, kind: Kind, name: &str) -> Result<Option<&'static str>, AllocError> {
    match called_elsewhere(kind, name) {
        Some(member) => Ok(Some(member)),
        None => nearest(alloc, name, kind.members()),
    }
}

fn is_among(word: &str, words: &[&str]) -> bool {
    words.iter().any(|other| *other == word)
}

fn warn_of_unknown(
    findings: &mut Collector,
    place: Place,
    kind: Kind,
    name: &str,
) -> Result<(), AllocError> {
    let alloc = findings.alloc;
    let word = shown(alloc, name)?;
    let called = kind.called();
    let message = match meant_by(alloc, kind, name)? {
        Some(meant) => format!(in alloc;
            "'{word}' is no member of {called}; did you mean '{meant}'?"
        )?,
        None if name == "trials" || name == "limit" => format!(in alloc;
            "'{word}' is no member of {called}; the option --trials sets the limit of a run"
        )?,
        None => {
            let listed = kind.listed();
            format!(in alloc; "'{word}' is no member of {called}; its members are {listed}")?
        }
    };
    findings.warn(place, message)
}

/// The names of the members, sorted.
fn sorted_names<'t>(
    findings: &Collector,
    members: &[(&'t str, Value<'t>)],
) -> Result<Vec<&'t str>, AllocError> {
    let mut names = Vec::new(findings.alloc);
    for (name, _) in members {
        names.push(*name)?;
    }
    names.sort_unstable();
    Ok(names)
}

/// Warns of each name that comes again among the sorted names.
fn check_repeated(
    findings: &mut Collector,
    place: Place,
    names: &[&str],
) -> Result<(), AllocError> {
    let alloc = findings.alloc;
    let mut before = None;
    let mut again = false;
    for name in names {
        let is_again = before == Some(*name);
        if is_again && !again {
            let word = shown(alloc, name)?;
            let message = format!(in alloc; "'{word}' is written twice; the last one counts")?;
            findings.warn(place, message)?;
        }
        again = is_again;
        before = Some(*name);
    }
    Ok(())
}

/// Warns of unknown and of repeated members of an object.
fn check_object(
    findings: &mut Collector,
    place: Place,
    kind: Kind,
    value: &Value<'_>,
) -> Result<(), AllocError> {
    let Value::Object(members) = value else {
        return Ok(());
    };
    for (name, _) in members {
        if !is_among(name, kind.members()) {
            warn_of_unknown(findings, place, kind, name)?;
        }
    }
    let names = sorted_names(findings, members)?;
    check_repeated(findings, place, &names)
}

fn check_definitions(findings: &mut Collector, values: &[Value<'_>]) -> Result<(), AllocError> {
    for (place, value) in values.iter().enumerate() {
        let place = Place::Pattern(place.saturating_add(1));
        check_object(findings, place, Kind::Definition, value)?;
    }
    Ok(())
}

fn check_texts(findings: &mut Collector, values: &[Value<'_>]) -> Result<(), AllocError> {
    for (place, value) in values.iter().enumerate() {
        let place = Place::Text(place.saturating_add(1));
        check_object(findings, place, Kind::Text, value)?;
    }
    Ok(())
}

fn check_statements(findings: &mut Collector, values: &[Value<'_>]) -> Result<(), AllocError> {
    for (place, value) in values.iter().enumerate() {
        let place = Place::Statement(place.saturating_add(1));
        check_object(findings, place, Kind::Statement, value)?;
    }
    Ok(())
}

/// Warns if the address of the schema isn't a string.
fn check_schema(findings: &mut Collector, document: &Value<'_>) -> Result<(), AllocError> {
    match document.get("$schema") {
        None | Some(Value::String(_)) => Ok(()),
        Some(_) => {
            let message = String::from_str(
                findings.alloc,
                "'$schema' is the address of a schema, a string",
            )?;
            findings.warn(Place::Document, message)
        }
    }
}

/// Warns of the members that an object of the document has twice, or that no object of its kind has.
pub(crate) fn check_members(
    findings: &mut Collector,
    document: &Value<'_>,
) -> Result<(), AllocError> {
    check_object(findings, Place::Document, Kind::Document, document)?;
    check_schema(findings, document)?;
    if let Some(Value::Array(values)) = document.get("patterns") {
        check_definitions(findings, values)?;
    }
    if let Some(Value::Array(values)) = document.get("texts") {
        check_texts(findings, values)?;
    }
    if let Some(Value::Array(values)) = document.get("statements") {
        check_statements(findings, values)?;
    }
    Ok(())
}
