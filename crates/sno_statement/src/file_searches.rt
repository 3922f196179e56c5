//! The first search of a statement in the content of a file.
ghost use Rattle.std.specs.Prelude.{◌≡◌, ◌<◌, ◌≤◌, IfOk, IfErr};
ghost use Rattle.sno_pattern.specs.CursorLaws.{SetsLie};
ghost use Rattle.sno_pattern.specs.Outcome.{outcome, trials};
ghost use Rattle.sno_statement.specs.declared.file_faults.FileStatementFault.TheVariants.{TextTooLong, TooManyTrials};

use crate::{FileStatementFault, StatementFault};
use sno_machine::{Code, MAX_KEPT, Workspace};
use sno_pattern::{ByteText, Found, cursors_lie_within_the_text};
use std::alloc::Global;

/// Searches the text from its first cursor on.
///
/// Refused:
/// - `TooManyTrials` exactly if the match takes more trials than the limit, unless one of the others comes first;
/// - `HistoryTooLong` if the history of the search would have more entries than its workspace allows;
/// - `Memory` if out of memory.
pub(crate) fn first_in<'a>(
    alloc: Global,
    code: &Code<'a>,
    workspace: &mut Workspace<'a>,
    text: &ByteText,
    anchored: bool,
    limit: u32,
) -> Result<Found, FileStatementFault>
    ensures found { IfOk result (λ found. found ≡ outcome text.now code.now.bodies code.now.pattern anchored) }
    ensures lies { IfOk result (λ found. SetsLie text.now found.sets) }
    ensures within { IfOk result (λ _. trials text.now code.now.bodies code.now.pattern anchored ≤ limit) }
    ensures refused { IfErr result (λ e. e ≡ TooManyTrials → limit < trials text.now code.now.bodies code.now.pattern anchored) }
    ensures never { IfErr result (λ e. e ≡ TextTooLong → ⊥) }
{
    // for the proof
    cursors_lie_within_the_text();
    match code.first_in_bytes(alloc, workspace, text, anchored, limit) {
        Ok(found) => Ok(found),
        Err(fault) => {
            let fault = StatementFault::from(fault);
            Err(FileStatementFault::of(fault, workspace.is_full()))
        }
    }
}

/// As [`first_in`], with a workspace for this search alone.
#[inline]
pub(crate) fn first_alone(
    alloc: Global,
    code: &Code<'_>,
    text: &ByteText,
    anchored: bool,
    limit: u32,
) -> Result<Found, FileStatementFault>
    ensures found { IfOk result (λ found. found ≡ outcome text.now code.now.bodies code.now.pattern anchored) }
    ensures lies { IfOk result (λ found. SetsLie text.now found.sets) }
    ensures within { IfOk result (λ _. trials text.now code.now.bodies code.now.pattern anchored ≤ limit) }
    ensures refused { IfErr result (λ e. e ≡ TooManyTrials → limit < trials text.now code.now.bodies code.now.pattern anchored) }
    ensures never { IfErr result (λ e. e ≡ TextTooLong → ⊥) }
{
    let mut workspace = Workspace::bounded(alloc, MAX_KEPT);
    first_in(alloc, code, &mut workspace, text, anchored, limit)
}
