//! One statement of rules, performed on a text.
ghost use Rattle.std.specs.Arc.{arc_value};
ghost use Rattle.sno_edit.specs.Edits.{turn};
ghost use Rattle.sno_edit.specs.Rules.{rules_seen};
ghost use Rattle.sno_edit.specs.Turns.{GivesTurn, begun};

use crate::edits::{EditedText, turn};
use crate::{EditRules, FileFault};
use sno_pattern::ByteText;
use sno_statement::FileStatement;
use std::alloc::Global;
use std::sync::Arc;

/// What a statement leaves of a text.
#[derive(Drop)]
pub struct Turn {
    /// The text: the old one if the statement isn't for the file or replaces nothing.
    pub text: Arc<ByteText>,
    /// How many matches there were. A repeated statement has one for each round that matched.
    pub matches: u64,
}

/// Performs a statement on a text of the file with this path, if it is for that file, as [`crate::plan_file`] performs each of the
/// rules in turn. It may take the trials that the rules allow.
///
/// Refused with `Refused` or `Cut` if the statement is refused on the text, exactly then but for too long a history; with `Memory`.
pub fn turn_of(
    alloc: Global,
    rules: &EditRules,
    statement: &FileStatement,
    path: &str,
    text: Arc<ByteText>,
) -> Result<Turn, FileFault>
    ensures { GivesTurn result (turn path.now (rules_seen rules.now).trials statement.now (begun (arc_value text))) }
{
    let before = EditedText {
        text,
        matches: 0,
        utf8: None,
    };
    match turn(alloc, rules, statement, path, before) {
        Ok(EditedText { text, matches, .. }) => Ok(Turn { text, matches }),
        Err(fault) => Err(fault),
    }
}
