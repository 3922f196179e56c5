//! What is written of the matches in edited files, as `sno_find` writes them.

use crate::edit_reports::{Form, Show};
use crate::faults::ProgramFault;
use crate::shared_files::Kept;
use crate::streams::write_all;
use sno_edit::{ByteText, EditRules, Plan};
use sno_find::{RowsFault, write_edit_rows};
use std::alloc::Global;
use std::io::{BufWriter, Write};
use std::sync::Arc;

/// How many bytes are gathered before they are written.
const PIECE: usize = 65_536;

/// Why rows are not written. The rules were performed on the text before, so no history is too long.
fn fault_of(fault: RowsFault) -> ProgramFault {
    match fault {
        RowsFault::Write => ProgramFault::Write,
        RowsFault::HistoryTooLong(_) | RowsFault::Memory => ProgramFault::Memory,
    }
}

/// Writes what the rules match in this text of a file while they are performed on it.
pub(crate) fn write_rows<W: Write>(
    alloc: Global,
    rules: &EditRules,
    path: &str,
    before: &Arc<ByteText>,
    output: &mut W,
) -> Result<(), ProgramFault> {
    let text = Arc::try_clone(before)?;
    let Ok(mut gathered) = BufWriter::with_capacity(alloc, PIECE, output) else {
        return Err(ProgramFault::Memory);
    };
    if let Err(fault) = write_edit_rows(alloc, rules, path, text, &mut gathered) {
        return Err(fault_of(fault));
    }
    match gathered.flush() {
        Ok(()) => Ok(()),
        Err(_) => Err(ProgramFault::Write),
    }
}

/// Whether the matches of files are shown.
fn shows_matches(show: Show) -> bool {
    matches!(show, Show::End(Form::Json))
}

/// Writes the matches in a file that is planned, if they are shown.
pub(crate) fn write_plan_rows<W: Write>(
    alloc: Global,
    rules: &EditRules,
    path: &str,
    show: Show,
    plan: &Plan,
    output: &mut W,
) -> Result<(), ProgramFault> {
    if plan.matches == 0 || !shows_matches(show) {
        return Ok(());
    }
    write_rows(alloc, rules, path, &plan.before, output)
}

/// The matches in a file: what is written of them, or the text that they are in, if that is too long to be kept.
#[derive(Drop)]
pub(crate) enum Rows {
    /// What is written of them.
    Kept(Vec<u8>),
    /// The text that they are in.
    Text(Arc<ByteText>),
}

/// The matches in a file that was edited, in the text that it held before. Without a match there is nothing to be written.
pub(crate) fn rows_of(
    alloc: Global,
    rules: &EditRules,
    path: &str,
    before: Arc<ByteText>,
    matches: u64,
) -> Rows {
    let mut kept = Kept {
        bytes: Vec::new(alloc),
    };
    if matches == 0 {
        return Rows::Kept(kept.bytes);
    }
    match write_rows(alloc, rules, path, &before, &mut kept) {
        Ok(()) => Rows::Kept(kept.bytes),
        Err(_) => Rows::Text(before),
    }
}

impl Rows {
    /// Writes them.
    pub(crate) fn write<W: Write>(
        &self,
        alloc: Global,
        rules: &EditRules,
        path: &str,
        output: &mut W,
    ) -> Result<(), ProgramFault> {
        match self {
            Rows::Kept(bytes) => write_all(output, bytes),
            Rows::Text(before) => write_rows(alloc, rules, path, before, output),
        }
    }
}
