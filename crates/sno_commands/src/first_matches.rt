//! Whether rules match in a text at all.

use sno_edit::{EditRules, FileFault, RefusedStatement, Trials, is_for};
use sno_machine::compile;
use sno_pattern::ByteText;
use sno_statement::{FileStatement, FileStatementFault, first_match};
use std::alloc::Global;

/// Whether the statement matches in the text.
pub(crate) fn matches(
    alloc: Global,
    statement: &FileStatement,
    trials: Trials,
    text: &ByteText,
) -> Result<bool, FileStatementFault> {
    let code = compile(
        alloc,
        statement.search().rules(),
        statement.search().pattern(),
    )?;
    let most = trials.on(text.bytes().len());
    let found = first_match(alloc, statement, &code, text, most)?;
    Ok(found.is_some())
}

/// Whether one of the statements that are for the file with this path matches in its text. They are sought in order, each up to its
/// first match, and none after the first that matches. Refused as the first of them that is refused.
pub(crate) fn have_match(
    alloc: Global,
    rules: &EditRules,
    path: &str,
    text: &ByteText,
) -> Result<bool, FileFault> {
    for statement in rules.statements() {
        if !is_for(statement.search(), path) {
            continue;
        }
        match matches(alloc, statement, rules.trials(), text) {
            Ok(true) => return Ok(true),
            Ok(false) => {}
            Err(fault) => {
                let statement = statement.search().number();
                return Err(FileFault::from(RefusedStatement { statement, fault }));
            }
        }
    }
    Ok(false)
}
