//! A document as it is written, as far as its shape allows.

use json::Value;
use sno_document::{DocumentFault, StatementRow};
use sno_findings::{Collector, Place};
use std::alloc::{AllocError, Global};

/// A definition or a text. A member that is missing or of another kind is `None`.
#[derive(Clone, Copy)]
pub(crate) struct Pair<'t> {
    pub(crate) name: Option<&'t str>,
    pub(crate) content: Option<&'t str>,
}

/// A statement. A member that is missing or of another kind is `None`.
#[derive(Clone, Copy)]
pub(crate) struct Row<'t> {
    pub(crate) text: Option<&'t str>,
    pub(crate) pattern: Option<&'t str>,
    pub(crate) object: Option<&'t str>,
    pub(crate) anchored: bool,
    pub(crate) repeat: Option<&'t str>,
    pub(crate) all: bool,
}

/// What JSON is checked as.
#[derive(Clone, Copy, Debug, PartialEq, Eq)]
pub(crate) enum Kind {
    /// A document, whose statements name its texts.
    Document,
    /// Rules, whose statements need not name a file. A member `texts` is ignored.
    Rules,
}

/// A document or rules.
#[derive(Drop)]
pub(crate) struct Rows<'t> {
    pub(crate) patterns: Vec<Pair<'t>>,
    pub(crate) texts: Vec<Pair<'t>>,
    pub(crate) statements: Vec<Row<'t>>,
    /// Whether the document has the member `texts`.
    pub(crate) has_texts: bool,
    /// Whether literals may have any bytes.
    pub(crate) wide: bool,
    /// The definitions that are used by something else than its statements, a bit for each.
    pub(crate) used: u64,
}

fn kind_of(value: &Value<'_>) -> &'static str {
    match value {
        Value::Null => "null",
        Value::Bool(_) => "true or false",
        Value::Number(_) => "a number",
        Value::String(_) => "a string",
        Value::Array(_) => "an array",
        Value::Object(_) => "an object",
    }
}

/// A member that is missing or of another kind than is wanted.
fn refuse_member(
    findings: &mut Collector,
    place: Place,
    key: &str,
    wanted: &str,
    found: Option<&Value<'_>>,
) -> Result<(), AllocError> {
    let advice = match found {
        None => format!(in findings.alloc; "{place}: '{key}' is missing: {wanted} is wanted")?,
        Some(value) => {
            let kind = kind_of(value);
            format!(in findings.alloc; "{place}: '{key}' is {kind}: {wanted} is wanted")?
        }
    };
    findings.refuse_at(place, DocumentFault::Shape, None, advice)
}

/// Whether the value is an object.
pub(crate) fn is_object(
    findings: &mut Collector,
    place: Place,
    value: &Value<'_>,
) -> Result<bool, AllocError> {
    if let Value::Object(_) = value {
        return Ok(true);
    }
    let kind = kind_of(value);
    let advice = format!(in findings.alloc; "{place}: this is {kind}: an object is wanted")?;
    findings.refuse_at(place, DocumentFault::Shape, None, advice)?;
    Ok(false)
}

/// A string that must be there.
fn string_at<'t>(
    findings: &mut Collector,
    place: Place,
    value: &Value<'t>,
    key: &str,
) -> Result<Option<&'t str>, AllocError> {
    match value.get(key) {
        Some(Value::String(text)) => Ok(Some(*text)),
        found => {
            refuse_member(findings, place, key, "a string", found)?;
            Ok(None)
        }
    }
}

/// A string that may be missing or null.
fn optional_string_at<'t>(
    findings: &mut Collector,
    place: Place,
    value: &Value<'t>,
    key: &str,
) -> Result<Option<&'t str>, AllocError> {
    match value.get(key) {
        Some(Value::String(text)) => Ok(Some(*text)),
        None | Some(Value::Null) => Ok(None),
        found => {
            refuse_member(findings, place, key, "a string", found)?;
            Ok(None)
        }
    }
}

/// The text of a number that may be missing or null.
fn optional_number_at<'t>(
    findings: &mut Collector,
    place: Place,
    value: &Value<'t>,
    key: &str,
) -> Result<Option<&'t str>, AllocError> {
    match value.get(key) {
        Some(Value::Number(text)) => Ok(Some(*text)),
        None | Some(Value::Null) => Ok(None),
        found => {
            refuse_member(findings, place, key, "a number", found)?;
            Ok(None)
        }
    }
}

/// Whether a member is true. It may be missing, and then it is false.
fn is_true_at(
    findings: &mut Collector,
    place: Place,
    value: &Value<'_>,
    key: &str,
) -> Result<bool, AllocError> {
    match value.get(key) {
        None => Ok(false),
        Some(Value::Bool(is_true)) => Ok(*is_true),
        found => {
            refuse_member(findings, place, key, "true or false", found)?;
            Ok(false)
        }
    }
}

/// The elements of an array that may be missing.
fn elements_at<'v, 't>(
    findings: &mut Collector,
    value: &'v Value<'t>,
    key: &str,
) -> Result<Option<&'v [Value<'t>]>, AllocError> {
    match value.get(key) {
        None => Ok(None),
        Some(Value::Array(list)) => Ok(Some(list.as_slice())),
        found => {
            refuse_member(findings, Place::Document, key, "an array", found)?;
            Ok(None)
        }
    }
}

fn pair_of<'t>(
    findings: &mut Collector,
    place: Place,
    value: &Value<'t>,
    content: &str,
) -> Result<Pair<'t>, AllocError> {
    if !is_object(findings, place, value)? {
        return Ok(Pair {
            name: None,
            content: None,
        });
    }
    let name = string_at(findings, place, value, "name")?;
    let content = string_at(findings, place, value, content)?;
    Ok(Pair { name, content })
}

fn definitions_of<'t>(
    findings: &mut Collector,
    document: &Value<'t>,
) -> Result<Vec<Pair<'t>>, AllocError> {
    let mut pairs = Vec::new(findings.alloc);
    if let Some(values) = elements_at(findings, document, "patterns")? {
        for (place, value) in values.iter().enumerate() {
            let place = Place::Pattern(place.saturating_add(1));
            pairs.push(pair_of(findings, place, value, "pattern")?)?;
        }
    }
    Ok(pairs)
}

fn texts_of<'t>(
    findings: &mut Collector,
    document: &Value<'t>,
) -> Result<Vec<Pair<'t>>, AllocError> {
    let mut pairs = Vec::new(findings.alloc);
    if let Some(values) = elements_at(findings, document, "texts")? {
        for (place, value) in values.iter().enumerate() {
            let place = Place::Text(place.saturating_add(1));
            pairs.push(pair_of(findings, place, value, "text")?)?;
        }
    }
    Ok(pairs)
}

/// The name of a statement's text.
fn text_name_at<'t>(
    findings: &mut Collector,
    kind: Kind,
    place: Place,
    value: &Value<'t>,
) -> Result<Option<&'t str>, AllocError> {
    match kind {
        Kind::Document => string_at(findings, place, value, "text"),
        Kind::Rules => optional_string_at(findings, place, value, "text"),
    }
}

fn row_of<'t>(
    findings: &mut Collector,
    kind: Kind,
    place: Place,
    value: &Value<'t>,
) -> Result<Row<'t>, AllocError> {
    if !is_object(findings, place, value)? {
        return Ok(Row {
            text: None,
            pattern: None,
            object: None,
            anchored: false,
            repeat: None,
            all: false,
        });
    }
    let text = text_name_at(findings, kind, place, value)?;
    let pattern = string_at(findings, place, value, "pattern")?;
    let object = optional_string_at(findings, place, value, "object")?;
    let anchored = is_true_at(findings, place, value, "anchored")?;
    let repeat = optional_number_at(findings, place, value, "repeat")?;
    let all = is_true_at(findings, place, value, "all")?;
    Ok(Row {
        text,
        pattern,
        object,
        anchored,
        repeat,
        all,
    })
}

fn statements_of<'t>(
    findings: &mut Collector,
    kind: Kind,
    document: &Value<'t>,
) -> Result<Vec<Row<'t>>, AllocError> {
    let mut rows = Vec::new(findings.alloc);
    if let Some(values) = elements_at(findings, document, "statements")? {
        for (place, value) in values.iter().enumerate() {
            let place = Place::Statement(place.saturating_add(1));
            rows.push(row_of(findings, kind, place, value)?)?;
        }
    }
    Ok(rows)
}

/// The rows of a document or of rules. Each member that is missing or of another kind is an error.
pub(crate) fn rows_of<'t>(
    findings: &mut Collector,
    kind: Kind,
    document: &Value<'t>,
) -> Result<Rows<'t>, AllocError> {
    let patterns = definitions_of(findings, document)?;
    let texts = match kind {
        Kind::Document => texts_of(findings, document)?,
        Kind::Rules => Vec::new(findings.alloc),
    };
    let statements = statements_of(findings, kind, document)?;
    let has_texts = kind == Kind::Document && document.get("texts").is_some();
    Ok(Rows {
        patterns,
        texts,
        statements,
        has_texts,
        wide: kind == Kind::Rules,
        used: 0,
    })
}

fn pair_of_line<'t>(pair: &(&'t str, &'t str)) -> Pair<'t> {
    let (name, content) = *pair;
    Pair {
        name: Some(name),
        content: Some(content),
    }
}

fn row_of_line<'t>(row: &StatementRow<'t>) -> Row<'t> {
    Row {
        text: Some(row.text),
        pattern: Some(row.pattern),
        object: row.object,
        anchored: row.anchored == Some(true),
        repeat: row.repeat,
        all: row.all == Some(true),
    }
}

/// The rows of rules that are not written in JSON. `used` has the definitions that something else than the rules uses.
pub(crate) fn rows_of_lines<'t>(
    alloc: Global,
    patterns: &[(&'t str, &'t str)],
    statements: &[StatementRow<'t>],
    used: u64,
) -> Result<Rows<'t>, AllocError> {
    let mut pairs = Vec::new(alloc);
    for pair in patterns {
        pairs.push(pair_of_line(pair))?;
    }
    let mut rows = Vec::new(alloc);
    for statement in statements {
        rows.push(row_of_line(statement))?;
    }
    Ok(Rows {
        patterns: pairs,
        texts: Vec::new(alloc),
        statements: rows,
        has_texts: false,
        wide: true,
        used,
    })
}
