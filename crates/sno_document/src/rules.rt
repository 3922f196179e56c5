//! Rules: statements that are read for files.
ghost use Rattle.std.specs.Prelude.{◌≤◌, [], codes, length, map, IfOk};
ghost use Rattle.sno_statement.specs.Statement.{IsLimit};
ghost use Rattle.sno_document.specs.Faults.{Gives};
ghost use Rattle.sno_document.specs.Shape.{each_row};
ghost use Rattle.sno_document.specs.DocumentRows.{pair_seen, statement_seen, rows_seen};
ghost use Rattle.sno_document.specs.Trees.{tree_seen};
ghost use Rattle.sno_document.specs.declared.statements.TheConstants.{MAX_STATEMENTS};
ghost use Rattle.sno_document.specs.Rules.{rule_row, rules_at, rule_arrays_of, rule_rows_of, rules_seen, rules_with, GivesRules, ReadsRules};

use crate::definitions::{admit, definitions};
use crate::document_rows::{Rows, StatementRow, pairs_at, row_on};
use crate::file_rules::FileRules;
use crate::file_statements::file_statements;
use crate::members::{elements, is_object, member, optional_string_at};
use crate::trees::value_in;
use crate::{DocumentFault, MAX_STATEMENTS, Mode};
use json::{Scratch, Value};
use sno_pattern::Rules;
use std::alloc::Global;
use std::sync::Arc;

/// A statement, which is for every text if it names none.
fn rule_row<'t>(value: &Value<'t>) -> Result<StatementRow<'t>, DocumentFault>
    ensures { Gives statement_seen result (rule_row (tree_seen value.now)) }
{
    let text = optional_string_at(value, "text").ok_or(DocumentFault::Shape)?;
    let row = row_on(value, text.unwrap_or("*"))?;
    Ok(row)
}

fn rule_rows<'t>(
    alloc: Global,
    values: &[Value<'t>],
) -> Result<Vec<StatementRow<'t>>, DocumentFault>
    ensures { Gives (λ v. map statement_seen v.items) result (each_row rule_row [] (map tree_seen values.now)) }
{
    let mut rows = Vec::with_capacity(alloc, values.len())?;
    for value in values {
        rows.push(rule_row(value)?)?;
    }
    Ok(rows)
}

/// The rows of the statements; no rows if they are missing.
#[tactic(auto, unfolding(crate::specs::Rules::rules_at))]
fn rules_at<'t>(alloc: Global, value: &Value<'t>) -> Result<Vec<StatementRow<'t>>, DocumentFault>
    ensures { Gives (λ v. map statement_seen v.items) result (rules_at (tree_seen value.now)) }
{
    let Some(array) = member(value, "statements") else {
        return Ok(Vec::new(alloc));
    };
    match elements(array) {
        None => Err(DocumentFault::Shape),
        Some(values) => rule_rows(alloc, values),
    }
}

/// The two arrays of an object.
#[tactic(auto, unfolding(crate::specs::Rules::rule_arrays_of))]
fn rule_arrays_of<'t>(alloc: Global, value: &Value<'t>) -> Result<Rows<'t>, DocumentFault>
    ensures { Gives rows_seen result (rule_arrays_of (tree_seen value.now)) }
{
    let patterns = pairs_at(alloc, value, "patterns", "name", "pattern")?;
    let statements = rules_at(alloc, value)?;
    Ok(Rows {
        patterns,
        texts: Vec::new(alloc),
        statements,
    })
}

/// The rows of rules. `Shape` if a member is of another kind, or if one is missing that must be there.
fn rule_rows_of<'t>(alloc: Global, value: &Value<'t>) -> Result<Rows<'t>, DocumentFault>
    ensures { Gives rows_seen result (rule_rows_of (tree_seen value.now)) }
{
    if !is_object(value) {
        return Err(DocumentFault::Shape);
    }
    rule_arrays_of(alloc, value)
}

/// What comes after the definitions, once they are admitted.
#[tactic(auto, unfolding(crate::specs::Rules::rules_with))]
fn rules_with(
    alloc: Global,
    rules: Rules,
    mode: Mode,
    rows: &Rows<'_>,
) -> Result<FileRules, DocumentFault>
    requires { IsLimit mode.trials }
    ensures rules { Gives rules_seen result (rules_with rules mode (rows_seen rows.now)) }
    ensures few { IfOk result (λ d. length d.statements.items ≤ MAX_STATEMENTS) }
{
    let rules = Arc::new(alloc, rules)?;
    let statements = file_statements(alloc, &rules, mode, &rows.statements)?;
    Ok(FileRules { rules, statements })
}

/// What rows represent as rules.
fn of_rows(alloc: Global, rows: &Rows<'_>, mode: Mode) -> Result<FileRules, DocumentFault>
    requires { IsLimit mode.trials }
    ensures rules { GivesRules mode (rows_seen rows.now) result }
    ensures few { IfOk result (λ d. length d.statements.items ≤ MAX_STATEMENTS) }
{
    let drafted = definitions(alloc, true, &rows.patterns)?;
    let admitted = admit(alloc, drafted)?;
    let rules = rules_with(alloc, admitted, mode, rows)?;
    Ok(rules)
}

/// Returns the statements that these are as rules, as [`read_rules`] does for rules in JSON: rules of the same rows are the
/// same. `patterns` has the names of definitions with their patterns. `mode` has what the statements don't say themselves, with 1
/// to 1,000,000,000 trials.
///
/// Refused with the first fault, in this order:
///
/// - the faults of the definitions, `Unguarded` last;
/// - those of the statements.
///
/// `Memory` may come instead of any result. After a refusal nothing is left of the rules.
pub fn rules_of_rows<'t>(
    alloc: Global,
    patterns: Vec<(&'t str, &'t str)>,
    statements: Vec<StatementRow<'t>>,
    mode: Mode,
) -> Result<FileRules, DocumentFault>
    requires { IsLimit mode.trials }
    ensures rules { GivesRules mode (record { patterns = map pair_seen patterns.entry.items; texts = []; statements = map statement_seen statements.entry.items }) result }
    ensures few { IfOk result (λ d. length d.statements.items ≤ MAX_STATEMENTS) }
{
    let rows = Rows {
        patterns,
        texts: Vec::new(alloc),
        statements,
    };
    let rules = of_rows(alloc, &rows, mode)?;
    Ok(rules)
}

/// Returns the statements that the bytes are as rules. Rules are a document without texts, whose statements need not name a text:
/// one that names none has the name `*`. The literals of their patterns and objects may have any bytes. The member `texts` is
/// ignored. `mode` has what the statements don't say themselves, with 1 to 1,000,000,000 trials.
///
/// Refused with the first fault, in this order, each as `specs/Document.antt` checks it:
///
/// - `DocumentTooLong`, `NotJson`, `Shape`;
/// - the faults of the definitions, `Unguarded` last;
/// - those of the statements.
///
/// `Memory` may come instead of any result. After a refusal nothing is left of the rules.
pub fn read_rules(alloc: Global, bytes: &[u8], mode: Mode) -> Result<FileRules, DocumentFault>
    requires { IsLimit mode.trials }
    ensures rules { ReadsRules mode bytes.now result }
    ensures few { IfOk result (λ d. length d.statements.items ≤ MAX_STATEMENTS) }
{
    let mut scratch = Scratch::new(alloc);
    let value = value_in(alloc, bytes, &mut scratch)?;
    let rows = rule_rows_of(alloc, &value)?;
    drop(value);
    let rules = of_rows(alloc, &rows, mode)?;
    Ok(rules)
}
