//! Repeated rules that stop at the most rounds that a rule may have.

use crate::edit_reports::done_of;
use crate::editors::Editor;
use crate::faults::name_of;
use crate::first_matches::matches;
use sno_edit::{Done, EditRules, Folder, Plan, Tally, is_for};
use sno_files::ReadOnly;
use sno_pattern::{ByteText, MAX_BYTES};
use sno_statement::{FileStatement, MAX_ROUNDS};
use std::alloc::Global;
use std::fs::File;
use std::io::Write;
use std::rt::Files;

/// Whether the statement is for the file with this path and has as many rounds as a rule may have.
fn has_most_rounds(statement: &FileStatement, path: &str) -> bool {
    statement.repeat() == Some(MAX_ROUNDS) && is_for(statement.search(), path)
}

/// Whether this number of matches may be that of a statement that stopped at the most rounds.
pub(crate) fn may_stop(done: &Done) -> bool {
    done.matches >= u64::from(MAX_ROUNDS)
}

/// The number of the first statement that had the most rounds, and matches once more in the text that the rules left. One whose
/// search is refused is passed over.
fn stopped(alloc: Global, rules: &EditRules, path: &str, left: &ByteText) -> Option<u32> {
    for statement in rules.statements() {
        if !has_most_rounds(statement, path) {
            continue;
        }
        if let Ok(true) = matches(alloc, statement, rules.trials(), left) {
            return Some(statement.search().number());
        }
    }
    None
}

/// Says of a file in which the rules left this text which statement stopped at the most rounds, and matches once more. Such a file counts
/// as one on which a statement was refused.
fn report_left<E: Write>(
    alloc: Global,
    rules: &EditRules,
    path: &str,
    left: &ByteText,
    tally: &mut Tally,
    errors: &mut E,
) {
    if let Some(number) = stopped(alloc, rules, path, left) {
        tally.refused = true;
        let called = name_of(path);
        let _printed = errors.writeln(format_args!(
            "{called}: statement {number}: stopped after {MAX_ROUNDS} rounds, and matches once more"
        ));
    }
}

/// Says the same of a file that is planned.
pub(crate) fn report_stopped<E: Write>(
    alloc: Global,
    rules: &EditRules,
    path: &str,
    plan: &Plan,
    tally: &mut Tally,
    errors: &mut E,
) {
    if may_stop(&done_of(plan)) {
        report_left(alloc, rules, path, &plan.after, tally, errors);
    }
}

/// Whether one of the rules is for the file with this path and has as many rounds as a rule may have.
fn have_most_rounds(rules: &EditRules, path: &str) -> bool {
    rules.statements().iter().any(|s| has_most_rounds(s, path))
}

/// Says the same of a file that was written. It is read again, if it may be one.
pub(crate) fn report_stopped_in<R: Files<File = File>, E: Write>(
    editor: &Editor<'_, R>,
    path: &str,
    done: &Done,
    tally: &mut Tally,
    errors: &mut E,
) {
    let rt = editor.rt;
    if !may_stop(done) || !have_most_rounds(editor.rules, path) {
        return;
    }
    let Ok(bytes) = (ReadOnly { rt }).read(editor.alloc, path, MAX_BYTES) else {
        return;
    };
    if let Ok(left) = ByteText::new(bytes) {
        report_left(editor.alloc, editor.rules, path, &left, tally, errors);
    }
}
