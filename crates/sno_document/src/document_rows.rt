//! A document as it is written: its rows. Their strings are borrowed, as those of the tree are.
ghost use Rattle.std.specs.Prelude.{◌≡◌, map, [], codes};
ghost use Rattle.sno_document.specs.Faults.{Gives};
ghost use Rattle.sno_document.specs.Shape.{pair_row, statement_row, each_row, pairs_at, statements_at, arrays_of, rows_of};
ghost use Rattle.sno_document.specs.Trees.{tree_seen};
ghost use Rattle.sno_document.specs.Rules.{row_on};
ghost use Rattle.sno_document.specs.DocumentRows.{pair_seen, statement_seen, rows_seen};

use crate::DocumentFault;
use crate::members::{
    elements, is_object, member, optional_bool_at, optional_number_at, optional_string_at,
    string_at,
};
use json::Value;
use std::alloc::Global;

/// Two strings: a name with a pattern, or a name with a text.
pub(crate) type PairRow<'t> = (&'t str, &'t str);

/// A statement as it is written, before anything of it is read.
#[derive(Drop)]
pub struct StatementRow<'t> {
    /// The name of its text; `*` is every file.
    pub text: &'t str,
    /// The pattern.
    pub pattern: &'t str,
    /// The object, if it has one.
    pub object: Option<&'t str>,
    /// Whether it is anchored, if it says so.
    pub anchored: Option<bool>,
    /// How often it is repeated, if it says so: a number as JSON has them.
    pub repeat: Option<&'t str>,
    /// Whether it is for all matches, if it says so.
    pub all: Option<bool>,
}

/// A document as it is written.
#[derive(Drop)]
pub(crate) struct Rows<'t> {
    pub(crate) patterns: Vec<PairRow<'t>>,
    pub(crate) texts: Vec<PairRow<'t>>,
    pub(crate) statements: Vec<StatementRow<'t>>,
}

fn pair_row<'t>(value: &Value<'t>, first: &str, second: &str) -> Result<PairRow<'t>, DocumentFault>
    ensures { Gives pair_seen result (pair_row first.now second.now (tree_seen value.now)) }
{
    match (string_at(value, first), string_at(value, second)) {
        (Some(a), Some(b)) => Ok((a, b)),
        _ => Err(DocumentFault::Shape),
    }
}

fn pair_rows<'t>(
    alloc: Global,
    values: &[Value<'t>],
    first: &str,
    second: &str,
) -> Result<Vec<PairRow<'t>>, DocumentFault>
    ensures { Gives (λ v. map pair_seen v.items) result (each_row (pair_row first.now second.now) [] (map tree_seen values.now)) }
{
    let mut rows = Vec::with_capacity(alloc, values.len())?;
    for value in values {
        rows.push(pair_row(value, first, second)?)?;
    }
    Ok(rows)
}

/// A statement whose text has this name.
pub(crate) fn row_on<'t>(
    value: &Value<'t>,
    text: &'t str,
) -> Result<StatementRow<'t>, DocumentFault>
    ensures { Gives statement_seen result (row_on text.now (tree_seen value.now)) }
{
    let pattern = string_at(value, "pattern").ok_or(DocumentFault::Shape)?;
    let object = optional_string_at(value, "object").ok_or(DocumentFault::Shape)?;
    let anchored = optional_bool_at(value, "anchored").ok_or(DocumentFault::Shape)?;
    let repeat = optional_number_at(value, "repeat").ok_or(DocumentFault::Shape)?;
    let all = optional_bool_at(value, "all").ok_or(DocumentFault::Shape)?;
    Ok(StatementRow {
        text,
        pattern,
        object,
        anchored,
        repeat,
        all,
    })
}

pub(crate) fn statement_row<'t>(value: &Value<'t>) -> Result<StatementRow<'t>, DocumentFault>
    ensures { Gives statement_seen result (statement_row (tree_seen value.now)) }
{
    let text = string_at(value, "text").ok_or(DocumentFault::Shape)?;
    let row = row_on(value, text)?;
    Ok(row)
}

fn statement_rows<'t>(
    alloc: Global,
    values: &[Value<'t>],
) -> Result<Vec<StatementRow<'t>>, DocumentFault>
    ensures { Gives (λ v. map statement_seen v.items) result (each_row statement_row [] (map tree_seen values.now)) }
{
    let mut rows = Vec::with_capacity(alloc, values.len())?;
    for value in values {
        rows.push(statement_row(value)?)?;
    }
    Ok(rows)
}

/// The rows of an array of pairs; no rows if it is missing.
#[tactic(auto, unfolding(crate::specs::Shape::pairs_at))]
pub(crate) fn pairs_at<'t>(
    alloc: Global,
    value: &Value<'t>,
    key: &str,
    first: &str,
    second: &str,
) -> Result<Vec<PairRow<'t>>, DocumentFault>
    ensures { Gives (λ v. map pair_seen v.items) result (pairs_at key.now first.now second.now (tree_seen value.now)) }
{
    let Some(array) = member(value, key) else {
        return Ok(Vec::new(alloc));
    };
    match elements(array) {
        None => Err(DocumentFault::Shape),
        Some(values) => pair_rows(alloc, values, first, second),
    }
}

/// The rows of the statements; no rows if they are missing.
#[tactic(auto, unfolding(crate::specs::Shape::statements_at))]
fn statements_at<'t>(
    alloc: Global,
    value: &Value<'t>,
) -> Result<Vec<StatementRow<'t>>, DocumentFault>
    ensures { Gives (λ v. map statement_seen v.items) result (statements_at (tree_seen value.now)) }
{
    let Some(array) = member(value, "statements") else {
        return Ok(Vec::new(alloc));
    };
    match elements(array) {
        None => Err(DocumentFault::Shape),
        Some(values) => statement_rows(alloc, values),
    }
}

/// The three arrays of an object.
#[tactic(auto, unfolding(crate::specs::Shape::arrays_of))]
fn arrays_of<'t>(alloc: Global, value: &Value<'t>) -> Result<Rows<'t>, DocumentFault>
    ensures { Gives rows_seen result (arrays_of (tree_seen value.now)) }
{
    let patterns = pairs_at(alloc, value, "patterns", "name", "pattern")?;
    let texts = pairs_at(alloc, value, "texts", "name", "text")?;
    let statements = statements_at(alloc, value)?;
    Ok(Rows {
        patterns,
        texts,
        statements,
    })
}

/// The rows of a document. `Shape` if a member is of another kind, or if one is missing that must be there.
pub(crate) fn rows_of<'t>(alloc: Global, value: &Value<'t>) -> Result<Rows<'t>, DocumentFault>
    ensures { Gives rows_seen result (rows_of (tree_seen value.now)) }
{
    if !is_object(value) {
        return Err(DocumentFault::Shape);
    }
    arrays_of(alloc, value)
}
