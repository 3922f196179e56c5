//! The statements of a document.
ghost use Rattle.std.specs.Prelude.{◌≡◌, ◌≤◌, ◌<◌, ◌^◌, ◌+◌, [], map, length, false, is_some, IfOk, IfSome, IsTrue, unwrap_or};
ghost use Rattle.std.specs.Option.{option_map};
ghost use Rattle.std.specs.Arc.{arc_value};
ghost use Rattle.sno_statement.specs.Statement.{IsLimit};
ghost use Rattle.sno_statement.specs.declared.statements.TheConstants.{MAX_ROUNDS};
ghost use Rattle.sno_document.specs.Faults.{Gives};
ghost use Rattle.sno_document.specs.LastPatterns.{IsOfNames};
ghost use Rattle.sno_document.specs.DocumentRows.{statement_seen};
ghost use Rattle.sno_document.specs.Document.{object_row, text_name_row, task_row, statements_from, statements_of, usual_row, repeat_row, all_row};
ghost use Rattle.sno_document.specs.Trees.{number_seen};

use crate::document_rows::StatementRow;
use crate::last_patterns::LastPattern;
use crate::rounds::rounds_in;
use crate::{DocumentFault, Mode};
use sno_pattern::{NameFault, Names, Rules, TextName};
use sno_read::{Object, ReadFault, read_object};
use sno_statement::Statement;
use std::alloc::Global;
use std::sync::Arc;

/// The most statements of a document.
pub const MAX_STATEMENTS: usize = 1_000_000;

/// The object of statement number `number`, if it has one.
pub(crate) fn object(
    alloc: Global,
    names: &Names,
    number: usize,
    text: Option<&str>,
) -> Result<Option<Object>, DocumentFault>
    ensures { Gives (λ o. o) result (object_row false names.now number (option_map (λ s. s.now) text.entry)) }
{
    let Some(text) = text else {
        return Ok(None);
    };
    match read_object(alloc, names, text.as_bytes()) {
        Ok(object) => Ok(Some(object)),
        Err(ReadFault::Memory) => Err(DocumentFault::Memory),
        Err(fault) => Err(DocumentFault::StatementObject(number, fault)),
    }
}

/// The name of the text of statement number `number`.
pub(crate) fn text_name(alloc: Global, number: usize, name: &str) -> Result<TextName, DocumentFault>
    ensures { Gives (λ n. n) result (text_name_row number name.now) }
{
    match TextName::new(alloc, name.as_bytes()) {
        Ok(name) => Ok(name),
        Err(NameFault::Bad) => Err(DocumentFault::StatementName(number)),
        Err(NameFault::Memory) => Err(DocumentFault::Memory),
    }
}

/// Whether the statement replaces.
pub(crate) fn has_object(statement: &Statement) -> bool
    ensures { result ≡ is_some statement.now.object }
{
    match statement.object() {
        None => false,
        Some(_) => true,
    }
}

/// How often statement number `number` is repeated at most, if it says so. It must have an object then.
pub(crate) fn repeat(
    number: usize,
    has_object: bool,
    written: Option<&str>,
) -> Result<Option<u32>, DocumentFault>
    ensures repeat { Gives (λ r. r) result (repeat_row number has_object (option_map (λ s. number_seen s.now) written.entry)) }
    ensures within { IfOk result (λ r. IfSome r (λ rounds. IsTrue has_object × (1 ≤ rounds) × (rounds ≤ MAX_ROUNDS))) }
{
    let Some(written) = written else {
        return Ok(None);
    };
    match rounds_in(written) {
        Some(rounds) if has_object => Ok(Some(rounds)),
        _ => Err(DocumentFault::StatementRepeat(number)),
    }
}

/// Whether statement number `number` is for all matches. It must not be repeated then.
pub(crate) fn for_all(
    number: usize,
    repeat: Option<u32>,
    written: Option<bool>,
) -> Result<bool, DocumentFault>
    ensures { Gives (λ a. a) result (all_row number repeat (unwrap_or written false)) }
{
    let all = written.unwrap_or(false);
    if all && repeat.is_some() {
        return Err(DocumentFault::StatementAll(number));
    }
    Ok(all)
}

/// Statement number `number`, performed once, with the usual limit of trials.
#[tactic(auto, unfolding(crate::specs::Document::usual_row))]
fn usual_statement<'t>(
    alloc: Global,
    rules: &Arc<Rules>,
    anchor: bool,
    number: usize,
    row: &StatementRow<'t>,
    last: &mut LastPattern<'t>,
) -> Result<Statement, DocumentFault>
    requires number { number < 2 ^ 32 }
    requires last { IsOfNames false (arc_value rules.now).names last.old }
    ensures row { Gives (λ s. s) result (usual_row false (arc_value rules.now) anchor number (statement_seen row.now)) }
    ensures last { IsOfNames false (arc_value rules.now).names last.new }
{
    let name = text_name(alloc, number, row.text)?;
    let pattern = last.pattern(alloc, false, rules.names(), number, row.pattern)?;
    let object = object(alloc, rules.names(), number, row.object)?;
    let rules = Arc::try_clone(rules)?;
    let anchored = row.anchored.unwrap_or(anchor);
    Ok(Statement::sharing(number as u32, rules, pattern, object, name, anchored))
}

/// Statement number `number`, by the mode, and repeated or for all matches if it says so.
#[tactic(auto, unfolding(crate::specs::Document::task_row))]
pub(crate) fn statement<'t>(
    alloc: Global,
    rules: &Arc<Rules>,
    mode: Mode,
    number: usize,
    row: &StatementRow<'t>,
    last: &mut LastPattern<'t>,
) -> Result<Statement, DocumentFault>
    requires number { number < 2 ^ 32 }
    requires limit { IsLimit mode.trials }
    requires last { IsOfNames false (arc_value rules.now).names last.old }
    ensures row { Gives (λ s. s) result (task_row false (arc_value rules.now) mode number (statement_seen row.now)) }
    ensures last { IsOfNames false (arc_value rules.now).names last.new }
{
    let usual = usual_statement(alloc, rules, mode.anchor, number, row, last)?;
    let repeat = repeat(number, has_object(&usual), row.repeat)?;
    let all = for_all(number, repeat, row.all)?;
    let limited = usual.limited(mode.trials);
    match repeat {
        Some(rounds) => Ok(limited.repeated(rounds)),
        None if all => Ok(limited.for_all()),
        None => Ok(limited),
    }
}

/// The statements of the document.
#[tactic(auto, unfolding(crate::specs::Document::statements_of))]
pub(crate) fn statements(
    alloc: Global,
    rules: &Arc<Rules>,
    mode: Mode,
    rows: &[StatementRow<'_>],
) -> Result<Vec<Arc<Statement>>, DocumentFault>
    requires { IsLimit mode.trials }
    ensures statements { Gives (λ v. map arc_value v.items) result (statements_of false (arc_value rules.now) mode (map statement_seen rows.now)) }
    ensures few { IfOk result (λ v. length v.items ≤ MAX_STATEMENTS) }
{
    if rows.len() > MAX_STATEMENTS {
        return Err(DocumentFault::TooManyStatements);
    }
    let mut last = LastPattern::none();
    let mut statements = Vec::with_capacity(alloc, rows.len())?;
    for (place, row) in rows.iter().enumerate() {
        let statement = statement(alloc, rules, mode, place + 1, row, &mut last)?;
        statements.push(Arc::new(alloc, statement)?)?;
    }
    Ok(statements)
}
