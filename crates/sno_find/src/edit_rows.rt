//! What rules match in the text of a file that they edit, as rows of JSON.
ghost use Rattle.std.specs.Prelude.{◌≡◌, ◌++◌, not, map, false, None, IfOk, IfErr, OnOk};
ghost use Rattle.std.specs.Arc.{arc_value};
ghost use Rattle.std.specs.Io.KnownBytes.{Appends};
ghost use Rattle.std.specs.List.{flat_map};
ghost use Rattle.std.specs.Option.{option_map};
ghost use Rattle.sno_edit.specs.Edits.{turn};
ghost use Rattle.sno_edit.specs.Faults.{follows};
ghost use Rattle.sno_edit.specs.Rules.{rules_seen};
ghost use Rattle.sno_edit.specs.Turns.{begun, turn_seen};
ghost use Rattle.sno_find.specs.EditRows.{edit_json, left_of, matches_json, ok_of, rounds_json, rounds_row, statement_json, text_in, turn_json};
ghost use Rattle.sno_find.specs.Findings.{finding_of, hits_of, is_refused};
ghost use Rattle.sno_find.specs.Hits.{IsRefusal};
ghost use Rattle.sno_find.specs.Json.{finding_json};
ghost use Rattle.sno_find.specs.declared.edit_rows.RowsFault.TheVariants.{Write as WriteFailed};

use crate::findings::findings_of;
use crate::hits::add_hits;
use crate::json::{put_head, put_json, put_number_member};
use crate::lines::put_text;
use crate::{FindFault, Finding};
use sno_edit::{EditRules, FileFault, FileStatementFault, RefusedStatement, Trials, Turn, turn_of};
use sno_pattern::ByteText;
use sno_statement::{FileStatement, matches_are_in_order, the_first_is_the_plain_match};
use std::alloc::{AllocError, Global};
use std::io::Write;
use std::sync::Arc;
use thiserror::Error;

/// Why rows are not written.
#[derive(Clone, Copy, Debug, PartialEq, Eq, Error)]
pub enum RowsFault {
    /// The writer refused some bytes.
    #[error("write failed")]
    Write,
    /// A search of the statement with this number would have to keep more than [`sno_machine::MAX_KEPT`] entries in its history.
    #[error("statement {0}: history too long")]
    HistoryTooLong(u32),
    /// Out of memory.
    #[error("out of memory")]
    Memory,
}

impl From<AllocError> for RowsFault {
    ghost use Rattle.std.specs.Prelude.{◌≡◌};
    ghost use Rattle.sno_find.specs.declared.edit_rows.RowsFault.TheVariants.{Memory};

    ghost from_gives = { λ _ e. e ≡ Memory };

    fn from(_refused: AllocError) -> RowsFault {
        RowsFault::Memory
    }
}

/// What is found of one statement in the text of the file with this path, in the order of its matches.
fn found_of<'t>(
    alloc: Global,
    trials: Trials,
    statement: &FileStatement,
    path: &str,
    text: &'t ByteText,
) -> Result<Vec<Finding<'t>>, FindFault>
    ensures found { IfOk result (λ findings. findings.items ≡ map (finding_of text.now) (hits_of trials path.now text.now statement.now)) }
    ensures within { OnOk result (is_refused trials path.now text.now statement.now ≡ false) }
    ensures refused { IfErr result (IsRefusal (is_refused trials path.now text.now statement.now) statement.now.number) }
{
    // for the proof
    matches_are_in_order();
    the_first_is_the_plain_match();
    let mut hits = Vec::new(alloc);
    add_hits(alloc, trials, statement, path, text, &mut hits)?;
    let findings = findings_of(alloc, text, hits)?;
    Ok(findings)
}

/// Writes these bytes.
fn write_row<W: Write>(row: &[u8], writer: &mut W) -> Result<(), RowsFault>
    ensures written { OnOk result (Appends (W.contents writer.old) (W.contents writer.new) row.now) }
    ensures refused { IfErr result (λ e. e ≡ WriteFailed) }
{
    match writer.write_all(row) {
        Ok(()) => Ok(()),
        Err(_) => Err(RowsFault::Write),
    }
}

/// Writes a finding.
fn write_finding<W: Write>(
    alloc: Global,
    path: &str,
    text: &ByteText,
    finding: &Finding<'_>,
    writer: &mut W,
) -> Result<(), RowsFault>
    ensures { OnOk result (Appends (W.contents writer.old) (W.contents writer.new) (finding_json path.now text.now finding.now)) }
{
    let mut row = Vec::new(alloc);
    put_json(alloc, path, text, finding, &mut row)?;
    write_row(&row, writer)
}

/// Writes each of the findings.
fn write_findings<W: Write>(
    alloc: Global,
    path: &str,
    text: &ByteText,
    findings: &[Finding<'_>],
    writer: &mut W,
) -> Result<(), RowsFault>
    ensures { OnOk result (Appends (W.contents writer.old) (W.contents writer.new) (flat_map (finding_json path.now text.now) findings.now)) }
{
    for finding in findings {
        write_finding(alloc, path, text, finding, writer)?;
    }
    Ok(())
}

/// Writes each match of a statement that is performed once, and returns whether it isn't refused.
fn write_once<W: Write>(
    alloc: Global,
    trials: Trials,
    statement: &FileStatement,
    path: &str,
    text: &ByteText,
    writer: &mut W,
) -> Result<bool, RowsFault>
    ensures written { OnOk result (Appends (W.contents writer.old) (W.contents writer.new) (matches_json trials path.now text.now statement.now)) }
    ensures goes_on { IfOk result (λ goes_on. goes_on ≡ not (is_refused trials path.now text.now statement.now)) }
{
    match found_of(alloc, trials, statement, path, text) {
        Ok(findings) => {
            write_findings(alloc, path, text, &findings, writer)?;
            Ok(true)
        }
        Err(FindFault::TooManyTrials(_)) => Ok(false),
        Err(FindFault::HistoryTooLong(statement)) => Err(RowsFault::HistoryTooLong(statement)),
        Err(FindFault::Memory) => Err(RowsFault::Memory),
    }
}

/// Writes how many rounds of a repeated statement matched, if one did.
fn write_rounds<W: Write>(
    alloc: Global,
    path: &str,
    statement: u32,
    rounds: u64,
    writer: &mut W,
) -> Result<(), RowsFault>
    ensures { OnOk result (Appends (W.contents writer.old) (W.contents writer.new) (rounds_json path.now statement rounds)) }
{
    if rounds == 0 {
        return Ok(());
    }
    let mut row = Vec::new(alloc);
    put_rounds(alloc, path, statement, rounds, &mut row)?;
    write_row(&row, writer)
}

/// Appends a repeated statement with the number of its rounds that matched.
#[tactic(auto, unfolding(crate::specs::EditRows::rounds_row))]
fn put_rounds(
    alloc: Global,
    path: &str,
    statement: u32,
    rounds: u64,
    out: &mut Vec<u8>,
) -> Result<(), AllocError>
    ensures { OnOk result (out.new.items ≡ out.old.items ++ rounds_row path.now statement rounds) }
{
    put_head(alloc, path, statement, out)?;
    put_number_member(alloc, "rounds", rounds as usize, out)?;
    put_text("}\n", out)
}

/// Why a statement was refused, if that doesn't follow from its text.
fn unknown(fault: FileFault) -> Option<RowsFault>
    ensures { result ≡ None → follows fault }
{
    match fault {
        FileFault::Memory => Some(RowsFault::Memory),
        FileFault::Refused(RefusedStatement { statement, fault }) => match fault {
            FileStatementFault::Memory => Some(RowsFault::Memory),
            FileStatementFault::HistoryTooLong => Some(RowsFault::HistoryTooLong(statement)),
            FileStatementFault::TooManyTrials | FileStatementFault::TextTooLong => None,
        },
        FileFault::TooLong | FileFault::Cut(_) | FileFault::Unread(_) | FileFault::Unwritten(_) =>
            None,
    }
}

/// What a statement leaves of a text; `None` if it is refused.
fn left_in(
    alloc: Global,
    rules: &EditRules,
    statement: &FileStatement,
    path: &str,
    text: Arc<ByteText>,
) -> Result<Option<Turn>, RowsFault>
    ensures { IfOk result (λ left. option_map turn_seen left ≡ ok_of (turn path.now (rules_seen rules.now).trials statement.now (begun (arc_value text)))) }
{
    match turn_of(alloc, rules, statement, path, text) {
        Ok(turn) => Ok(Some(turn)),
        Err(fault) => match unknown(fault) {
            Some(fault) => Err(fault),
            None => Ok(None),
        },
    }
}

/// Performs a repeated statement, writes how many of its rounds matched, and returns the text that it leaves; `None` if it is refused.
fn write_repeated<W: Write>(
    alloc: Global,
    rules: &EditRules,
    statement: &FileStatement,
    path: &str,
    text: Arc<ByteText>,
    writer: &mut W,
) -> Result<Option<Arc<ByteText>>, RowsFault>
    ensures written { OnOk result (Appends (W.contents writer.old) (W.contents writer.new) (turn_json path.now statement.now.number (turn path.now (rules_seen rules.now).trials statement.now (begun (arc_value text))))) }
    ensures left { IfOk result (λ left. option_map arc_value left ≡ text_in (turn path.now (rules_seen rules.now).trials statement.now (begun (arc_value text)))) }
{
    match left_in(alloc, rules, statement, path, text)? {
        None => Ok(None),
        Some(Turn { text, matches }) => {
            write_rounds(alloc, path, statement.search().number(), matches, writer)?;
            Ok(Some(text))
        }
    }
}

/// Writes what a statement matches in a text, and returns the text that it leaves; `None` if it is refused.
fn write_turn<W: Write>(
    alloc: Global,
    rules: &EditRules,
    statement: &FileStatement,
    path: &str,
    text: Arc<ByteText>,
    writer: &mut W,
) -> Result<Option<Arc<ByteText>>, RowsFault>
    ensures written { OnOk result (Appends (W.contents writer.old) (W.contents writer.new) (statement_json (rules_seen rules.now).trials path.now (arc_value text) statement.now)) }
    ensures left { IfOk result (λ left. option_map arc_value left ≡ left_of (rules_seen rules.now).trials path.now (arc_value text) statement.now) }
{
    if statement.repeat().is_some() {
        return write_repeated(alloc, rules, statement, path, text, writer);
    }
    if !write_once(alloc, rules.trials(), statement, path, &text, writer)? {
        return Ok(None);
    }
    match left_in(alloc, rules, statement, path, text)? {
        None => Ok(None),
        Some(turn) => Ok(Some(turn.text)),
    }
}

/// Writes what the last statement matches in a text. It is performed only if it is repeated.
fn write_last<W: Write>(
    alloc: Global,
    rules: &EditRules,
    statement: &FileStatement,
    path: &str,
    text: Arc<ByteText>,
    writer: &mut W,
) -> Result<(), RowsFault>
    ensures { OnOk result (Appends (W.contents writer.old) (W.contents writer.new) (statement_json (rules_seen rules.now).trials path.now (arc_value text) statement.now)) }
{
    if statement.repeat().is_some() {
        let _left = write_repeated(alloc, rules, statement, path, text, writer)?;
        return Ok(());
    }
    let _goes_on = write_once(alloc, rules.trials(), statement, path, &text, writer)?;
    Ok(())
}

/// Writes what the rules match in the text of the file with this path while they are performed on it in turn: each match of a statement
/// in the text that those before it left, as [`put_json`] writes a finding. Of a statement for all matches these are all of them, of
/// any other the first. Of a repeated one that matched there is one row, with `path`, `statement` and `rounds`, the number of rounds
/// that matched. After a statement that is refused nothing is written.
///
/// No row is kept: each is written once its statement was sought. Of the text two copies are held at a time.
///
/// Refused with
///
/// - `Write` if the writer refuses some bytes;
/// - `HistoryTooLong` only if a search of the statement with that number would have to keep more than `sno_machine::MAX_KEPT` entries
///   in its history;
/// - `Memory` if out of memory.
///
/// Then some of the rows may be written.
pub fn write_edit_rows<W: Write>(
    alloc: Global,
    rules: &EditRules,
    path: &str,
    text: Arc<ByteText>,
    writer: &mut W,
) -> Result<(), RowsFault>
    ensures { OnOk result (Appends (W.contents writer.old) (W.contents writer.new) (edit_json (rules_seen rules.now).trials path.now (rules_seen rules.now).statements (arc_value text))) }
{
    let Some((last, before)) = rules.statements().split_last() else {
        return Ok(());
    };
    let mut text = text;
    for statement in before {
        match write_turn(alloc, rules, statement, path, text, writer)? {
            Some(left) => text = left,
            None => return Ok(()),
        }
    }
    write_last(alloc, rules, last, path, text, writer)
}
