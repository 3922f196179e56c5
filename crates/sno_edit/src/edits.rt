//! Statements on the text of one file.
ghost use Rattle.std.specs.Prelude.{◌≡◌, ◌≤◌, ◌<◌, ◌+◌, ◌^◌, Ok, IfOk};
ghost use Rattle.std.specs.Arc.{arc_value};
ghost use Rattle.std.specs.Str.{is_utf8};
ghost use Rattle.sno_statement.specs.Rewriting.{rewritten_seen};
ghost use Rattle.sno_edit.specs.Edits.{GivesEdited, IsKnown, edited, edited_seen, is_for, left_by, turn};
ghost use Rattle.sno_edit.specs.Rules.{rules_seen};

use crate::utf8::first_non_utf8;
use crate::{EditRules, FileFault, Position};
use sno_pattern::ByteText;
use sno_statement::{FileStatement, FileStatementFault, Rewritten, Statement, rewrite};
use std::alloc::{AllocError, Global};
use std::sync::Arc;

/// A text that statements left.
#[derive(Drop)]
pub(crate) struct EditedText {
    /// The text.
    pub(crate) text: Arc<ByteText>,
    /// How many matches the statements had. A repeated statement has one for each round that matched.
    pub(crate) matches: u64,
    /// Whether the text is UTF-8, if that was found out.
    pub(crate) utf8: Option<bool>,
}

/// A statement that was refused, with the reason.
#[derive(Clone, Copy, Debug, PartialEq, Eq)]
pub struct RefusedStatement {
    /// The number of the statement, from 1.
    pub statement: u32,
    /// Why it was refused.
    pub fault: FileStatementFault,
}

/// A statement that was refused since its text was UTF-8 and the text that it would leave is not.
#[derive(Clone, Copy, Debug, PartialEq, Eq)]
pub struct CutCharacter {
    /// The number of the statement, from 1.
    pub statement: u32,
    /// The first place at which the text that the statement would leave is not UTF-8.
    pub position: Position,
}

/// Whether the statement is for the file with this path.
pub fn is_for(statement: &Statement, path: &str) -> bool
    ensures { result ≡ is_for path.now statement.now }
{
    let name = statement.text().bytes();
    name == b"*".as_slice() || name == path.as_bytes()
}

/// Whether a text is UTF-8.
fn is_utf8(edited: &EditedText) -> bool
    requires { IsKnown edited.now }
    ensures { result ≡ is_utf8 (arc_value edited.now.text) }
{
    match edited.utf8 {
        Some(known) => known,
        None => first_non_utf8(edited.text.bytes()).is_none(),
    }
}

/// What is left of a text that this statement has rewritten. Refused with `Cut` if that cuts a character.
fn left_by(
    statement: &FileStatement,
    rewritten: Rewritten,
    before: EditedText,
) -> Result<EditedText, FileFault>
    requires known { IsKnown before }
    requires matches { before.matches < 2 ^ 63 }
    requires few { rewritten.matches < 2 ^ 32 }
    ensures left { GivesEdited result (left_by statement.now (edited_seen before) (Ok (rewritten_seen rewritten))) }
    ensures known { IfOk result (λ e. IsKnown e) }
    ensures few { IfOk result (λ e. e.matches ≤ before.matches + 2 ^ 32) }
{
    let matches = before.matches + rewritten.matches;
    let Some(text) = rewritten.after else {
        return Ok(EditedText {
            text: before.text,
            matches,
            utf8: before.utf8,
        });
    };
    if !is_utf8(&before) {
        let utf8 = None;
        return Ok(EditedText {
            text,
            matches,
            utf8,
        });
    }
    match first_non_utf8(text.bytes()) {
        None => Ok(EditedText {
            text,
            matches,
            utf8: Some(true),
        }),
        Some(place) => Err(FileFault::Cut(CutCharacter {
            statement: statement.search().number(),
            position: Position::of(text.bytes(), place),
        })),
    }
}

/// Performs a statement of these rules on a text, if it is for the file with this path.
pub(crate) fn turn(
    alloc: Global,
    rules: &EditRules,
    statement: &FileStatement,
    path: &str,
    before: EditedText,
) -> Result<EditedText, FileFault>
    requires known { IsKnown before }
    requires matches { before.matches < 2 ^ 63 }
    ensures turned { GivesEdited result (turn path.now (rules_seen rules.now).trials statement.now (edited_seen before)) }
    ensures known { IfOk result (λ e. IsKnown e) }
    ensures few { IfOk result (λ e. e.matches ≤ before.matches + 2 ^ 32) }
{
    if !is_for(statement.search(), path) {
        return Ok(before);
    }
    let trials = rules.trials().on(before.text.bytes().len());
    match rewrite(alloc, statement, &before.text, trials) {
        Ok(rewritten) => left_by(statement, rewritten, before),
        Err(fault) => {
            let statement = statement.search().number();
            Err(FileFault::from(RefusedStatement { statement, fault }))
        }
    }
}

/// Performs the statements that are for the file with this path on its text, in turn. Refused as the first of them that
/// is refused.
pub(crate) fn edited(
    alloc: Global,
    rules: &EditRules,
    path: &str,
    text: Arc<ByteText>,
) -> Result<EditedText, FileFault>
    ensures { GivesEdited result (edited (rules_seen rules.now) path.now (arc_value text)) }
{
    let mut edited = EditedText {
        text,
        matches: 0,
        utf8: None,
    };
    let statements = rules.statements();
    for statement in statements {
        edited = turn(alloc, rules, statement, path, edited)?;
    }
    Ok(edited)
}
