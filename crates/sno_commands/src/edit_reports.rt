//! What is written of edited files.

use crate::faults::ProgramFault;
use crate::rounds_left::report_stopped;
use crate::streams::write_all;
use sno_edit::{Done, EditRules, FileFault, Plan, Tally, script_of, unified_diff};
use sno_files::Reason;
use sno_find::put_string;
use std::alloc::{AllocError, Global};
use std::io::Write;

/// How files are reported.
#[derive(Clone, Copy)]
pub(crate) enum Form {
    /// Each that changes by its path, in a line.
    Paths,
    /// Each as a JSON object, in a line.
    Json,
}

/// What is shown of a file that is not written.
#[derive(Clone, Copy)]
pub(crate) enum Show {
    /// What would become of it.
    End(Form),
    /// The diff of a file that would change.
    Diff {
        /// Whether it is coloured.
        coloured: bool,
    },
}

/// What becomes of a file that is planned, if it is written.
pub(crate) fn done_of(plan: &Plan) -> Done {
    Done {
        changed: plan.changes(),
        matches: plan.matches,
    }
}

/// Writes why a file stays as it was. If the line can't be written, the status is the same.
pub(crate) fn report_fault<E: Write>(errors: &mut E, path: &str, fault: FileFault) {
    let reason = Reason(fault);
    let _printed = errors.writeln(format_args!("{path}: {reason}"));
}

/// Counts a file that is planned, and reports a statement that stopped on it at the most rounds.
pub(crate) fn count_plan<E: Write>(
    alloc: Global,
    rules: &EditRules,
    path: &str,
    plan: &Plan,
    tally: &mut Tally,
    errors: &mut E,
) {
    tally.count(&Ok(done_of(plan)));
    report_stopped(alloc, rules, path, plan, tally, errors);
}

/// Counts a file that stays as it was for this cause, and reports it.
pub(crate) fn count_fault<E: Write>(
    path: &str,
    fault: FileFault,
    tally: &mut Tally,
    errors: &mut E,
) {
    tally.count(&Err(fault));
    report_fault(errors, path, fault);
}

/// Adds what became of a file as a JSON object: `path`, `changed`, `matches` and, if it stays as it was for a cause, `refused`.
fn put_object(
    alloc: Global,
    path: &str,
    end: &Result<Done, FileFault>,
    out: &mut Vec<u8>,
) -> Result<(), AllocError> {
    out.extend_from_slice(b"{\"path\":")?;
    put_string(alloc, path.as_bytes(), out)?;
    match end {
        Ok(Done { changed, matches }) => {
            let members = format!(in alloc; ",\"changed\":{changed},\"matches\":{matches}")?;
            out.extend_from_slice(members.as_bytes())?;
        }
        Err(fault) => {
            let reason = Reason(*fault);
            let reason = format!(in alloc; "{reason}")?;
            out.extend_from_slice(b",\"changed\":false,\"matches\":0,\"refused\":")?;
            put_string(alloc, reason.as_bytes(), out)?;
        }
    }
    out.extend_from_slice(b"}\n")
}

/// Adds what became of a file.
pub(crate) fn put_end(
    alloc: Global,
    form: Form,
    path: &str,
    end: &Result<Done, FileFault>,
    out: &mut Vec<u8>,
) -> Result<(), AllocError> {
    match form {
        Form::Json => put_object(alloc, path, end, out),
        Form::Paths => match end {
            Ok(done) if done.changed => {
                out.extend_from_slice(path.as_bytes())?;
                out.push(b'\n')?;
                Ok(())
            }
            _ => Ok(()),
        },
    }
}

/// Adds what is shown of a file that is not written. In a diff the file has the path `diff_path`.
pub(crate) fn put_shown(
    alloc: Global,
    show: Show,
    path: &str,
    diff_path: &str,
    plan: &Plan,
    out: &mut Vec<u8>,
) -> Result<(), AllocError> {
    match show {
        Show::End(form) => put_end(alloc, form, path, &Ok(done_of(plan)), out),
        Show::Diff { coloured } => {
            let script = script_of(alloc, plan.before.bytes(), plan.after.bytes())?;
            let diff = unified_diff(alloc, diff_path, &script, coloured)?;
            out.extend_from_slice(&diff)
        }
    }
}

/// The line that counts files and matches.
fn summary(alloc: Global, tally: &Tally, not_text: usize) -> Result<String, AllocError> {
    let changed = tally.changed;
    let total = tally.files;
    let matches = tally.matches;
    let files = if total == 1 { "file" } else { "files" };
    let ending = if matches == 1 { "match" } else { "matches" };
    let mut line = String::new(alloc);
    write!(
        line,
        "{changed} of {total} {files} changed, {matches} {ending}"
    )?;
    if not_text > 0 {
        write!(line, ", {not_text} not text")?;
    }
    writeln!(line)?;
    Ok(line)
}

/// Writes how many files changed, and how many matches there were. If the line can't be written, the status is the same.
pub(crate) fn report_tally<E: Write>(
    alloc: Global,
    tally: &Tally,
    not_text: usize,
    errors: &mut E,
) -> Result<(), ProgramFault> {
    let line = summary(alloc, tally, not_text)?;
    let _printed = write_all(errors, line.as_bytes());
    Ok(())
}
