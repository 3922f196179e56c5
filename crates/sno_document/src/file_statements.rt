//! The statements of rules for files.
ghost use Rattle.std.specs.Prelude.{◌≡◌, ◌≤◌, ◌<◌, ◌^◌, map, length, true, false, None, is_some, IfOk, IsTrue};
ghost use Rattle.std.specs.Option.{option_map};
ghost use Rattle.std.specs.Arc.{arc_value};
ghost use Rattle.sno_pattern.specs.Tree.{tree_of, refs_below};
ghost use Rattle.sno_statement.specs.Statement.{IsLimit};
ghost use Rattle.sno_statement.specs.declared.statements.TheConstants.{USUAL_TRIALS};
ghost use Rattle.sno_document.specs.Faults.{Gives};
ghost use Rattle.sno_document.specs.LastPatterns.{IsOfNames};
ghost use Rattle.sno_document.specs.DocumentRows.{statement_seen};
ghost use Rattle.sno_document.specs.Document.{object_row, task_row, statements_of, usual_row};

use crate::document_rows::StatementRow;
use crate::last_patterns::LastPattern;
use crate::statements::{MAX_STATEMENTS, for_all, repeat, text_name};
use crate::{DocumentFault, Mode};
use sno_pattern::{Names, Pattern, Rules, TextName};
use sno_read::{ByteObject, ReadFault, read_rule_object};
use sno_statement::{FileStatement, Statement};
use std::alloc::Global;
use std::sync::Arc;

/// The object of statement number `number`, if it has one.
fn object(
    alloc: Global,
    names: &Names,
    number: usize,
    text: Option<&str>,
) -> Result<Option<ByteObject>, DocumentFault>
    ensures { Gives (λ o. o) result (object_row true names.now number (option_map (λ s. s.now) text.entry)) }
{
    let Some(text) = text else {
        return Ok(None);
    };
    match read_rule_object(alloc, names, text.as_bytes()) {
        Ok(object) => Ok(Some(object)),
        Err(ReadFault::Memory) => Err(DocumentFault::Memory),
        Err(fault) => Err(DocumentFault::StatementObject(number, fault)),
    }
}

/// Whether the statement replaces.
fn has_object(statement: &FileStatement) -> bool
    ensures { result ≡ is_some statement.now.object }
{
    match statement.object() {
        None => false,
        Some(_) => true,
    }
}

/// A statement of these parts, performed once, with the usual limit of trials.
fn made(
    number: u32,
    rules: Arc<Rules>,
    pattern: Arc<Pattern>,
    object: Option<ByteObject>,
    name: TextName,
    anchored: bool,
) -> FileStatement
    requires { IsTrue (refs_below (length (arc_value rules).bodies) (tree_of (arc_value pattern))) }
    ensures { result ≡ record {
      number = number;
      rules = arc_value rules;
      pattern = tree_of (arc_value pattern);
      object = object;
      text = name;
      anchored = anchored;
      limit = USUAL_TRIALS;
      repeat = None;
      all = false;
    } }
{
    let search = Statement::sharing(number, rules, pattern, None, name, anchored);
    FileStatement::new(search, object)
}

/// Statement number `number`, performed once, with the usual limit of trials.
#[tactic(auto, unfolding(crate::specs::Document::usual_row))]
fn usual_statement<'t>(
    alloc: Global,
    rules: &Arc<Rules>,
    anchor: bool,
    number: usize,
    row: &StatementRow<'t>,
    last: &mut LastPattern<'t>,
) -> Result<FileStatement, DocumentFault>
    requires number { number < 2 ^ 32 }
    requires last { IsOfNames true (arc_value rules.now).names last.old }
    ensures row { Gives (λ s. s) result (usual_row true (arc_value rules.now) anchor number (statement_seen row.now)) }
    ensures once { IfOk result (λ s. s.all ≡ false) }
    ensures last { IsOfNames true (arc_value rules.now).names last.new }
{
    let name = text_name(alloc, number, row.text)?;
    let pattern = last.pattern(alloc, true, rules.names(), number, row.pattern)?;
    let object = object(alloc, rules.names(), number, row.object)?;
    let rules = Arc::try_clone(rules)?;
    let anchored = row.anchored.unwrap_or(anchor);
    Ok(made(number as u32, rules, pattern, object, name, anchored))
}

/// Statement number `number`, by the mode, and repeated or for all matches if it says so.
#[tactic(auto, unfolding(crate::specs::Document::task_row))]
fn statement<'t>(
    alloc: Global,
    rules: &Arc<Rules>,
    mode: Mode,
    number: usize,
    row: &StatementRow<'t>,
    last: &mut LastPattern<'t>,
) -> Result<FileStatement, DocumentFault>
    requires number { number < 2 ^ 32 }
    requires limit { IsLimit mode.trials }
    requires last { IsOfNames true (arc_value rules.now).names last.old }
    ensures row { Gives (λ s. s) result (task_row true (arc_value rules.now) mode number (statement_seen row.now)) }
    ensures last { IsOfNames true (arc_value rules.now).names last.new }
{
    let usual = usual_statement(alloc, rules, mode.anchor, number, row, last)?;
    let repeat = repeat(number, has_object(&usual), row.repeat)?;
    let all = for_all(number, repeat, row.all)?;
    let limited = usual.limited(mode.trials);
    match repeat {
        Some(rounds) => Ok(limited.repeated(rounds)),
        None if all => Ok(limited.for_all()),
        None => Ok(limited),
    }
}

/// The statements of rules for files.
#[tactic(auto, unfolding(crate::specs::Document::statements_of))]
pub(crate) fn file_statements(
    alloc: Global,
    rules: &Arc<Rules>,
    mode: Mode,
    rows: &[StatementRow<'_>],
) -> Result<Vec<FileStatement>, DocumentFault>
    requires { IsLimit mode.trials }
    ensures statements { Gives (λ v. v.items) result (statements_of true (arc_value rules.now) mode (map statement_seen rows.now)) }
    ensures few { IfOk result (λ v. length v.items ≤ MAX_STATEMENTS) }
{
    if rows.len() > MAX_STATEMENTS {
        return Err(DocumentFault::TooManyStatements);
    }
    let mut last = LastPattern::none();
    let mut statements = Vec::with_capacity(alloc, rows.len())?;
    for (place, row) in rows.iter().enumerate() {
        statements.push(statement(alloc, rules, mode, place + 1, row, &mut last)?)?;
    }
    Ok(statements)
}
