//! One statement alone.
ghost use Rattle.std.specs.Prelude.{◌≡◌, false, Some};
ghost use Rattle.std.specs.Arc.{arc_value};
ghost use Rattle.sno_statement.specs.Statement.{IsLimit};
ghost use Rattle.sno_document.specs.Document.{task_row};
ghost use Rattle.sno_document.specs.DocumentRows.{statement_seen};
ghost use Rattle.sno_document.specs.Faults.{Gives};
ghost use Rattle.sno_document.specs.Json.{json_of};
ghost use Rattle.sno_document.specs.Single.{statement_in};
ghost use Rattle.sno_document.specs.Trees.{tree_seen};

use crate::document_rows::{StatementRow, statement_row};
use crate::last_patterns::LastPattern;
use crate::statements::statement;
use crate::trees::value_in;
use crate::{DocumentFault, MAX_DOCUMENT, Mode};
use json::{Scratch, Value};
use sno_pattern::Rules;
use sno_statement::Statement;
use std::alloc::Global;
use std::sync::Arc;

/// The statement that a row is.
fn statement_of_row(
    alloc: Global,
    rules: &Arc<Rules>,
    mode: Mode,
    number: u32,
    row: &StatementRow<'_>,
) -> Result<Statement, DocumentFault>
    requires { IsLimit mode.trials }
    ensures { Gives (λ s. s) result (task_row false (arc_value rules.now) mode number (statement_seen row.now)) }
{
    let mut last = LastPattern::none();
    let statement = statement(alloc, rules, mode, number as usize, row, &mut last)?;
    Ok(statement)
}

/// Returns the statement that the JSON of the bytes is, with this number and for these definitions. It is read as a statement of a
/// document is, and other members are ignored. `mode` has what it doesn't say itself, with 1 to 1,000,000,000 trials.
///
/// Refused with the first fault, in this order, as `specs/Document.antt` checks a statement: `DocumentTooLong`, `NotJson`, `Shape`, `StatementName`,
/// `StatementPattern`, `StatementObject`, `StatementRepeat`, `StatementAll`. `Memory` may come instead of any result.
pub fn read_statement(
    alloc: Global,
    rules: &Arc<Rules>,
    mode: Mode,
    number: u32,
    bytes: &[u8],
) -> Result<Statement, DocumentFault>
    requires { IsLimit mode.trials }
    ensures { Gives (λ s. s) result (statement_in (arc_value rules.now) mode number bytes.now) }
{
    let mut scratch = Scratch::new(alloc);
    let value = value_in(alloc, bytes, &mut scratch)?;
    let row = statement_row(&value)?;
    drop(value);
    let statement = statement_of_row(alloc, rules, mode, number, &row)?;
    Ok(statement)
}

/// Returns the statement that the bytes are, whose JSON tree was read already by [`tree_in`](crate::tree_in), as [`read_statement`] does.
/// Refused as that is, with the same faults in the same order.
#[tactic(auto, unfolding(crate::specs::Document::value_in))]
pub fn statement_of_tree(
    alloc: Global,
    rules: &Arc<Rules>,
    mode: Mode,
    number: u32,
    bytes: &[u8],
    tree: &Value<'_>,
) -> Result<Statement, DocumentFault>
    requires limit { IsLimit mode.trials }
    requires tree { json_of bytes.now ≡ Some (tree_seen tree.now) }
    ensures { Gives (λ s. s) result (statement_in (arc_value rules.now) mode number bytes.now) }
{
    if bytes.len() > MAX_DOCUMENT {
        return Err(DocumentFault::DocumentTooLong);
    }
    let row = statement_row(tree)?;
    let statement = statement_of_row(alloc, rules, mode, number, &row)?;
    Ok(statement)
}
