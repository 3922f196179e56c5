//! `sno check`.

use crate::check_command::{CheckOptions, CheckRequest};
use crate::faults::{FAILED, ProgramFault};
use crate::given_lines::NoRules;
use crate::line_checks::{Checked, check_lines};
use crate::streams::{read_up_to, write_all};
use sno_check::{Report, check, check_rules, json_of, lines_of};
use sno_document::MAX_DOCUMENT;
use std::alloc::{AllocError, Global};
use std::fs;
use std::io::{Read, Write};
use std::rt::Files;

/// The bytes of the document that is named, or of the input; of one that is too long only the first.
pub(crate) fn document_bytes<R: Files, I: Read>(
    rt: &R,
    alloc: Global,
    input: &mut I,
    document: Option<&str>,
) -> Result<Vec<u8>, ProgramFault> {
    match document {
        None => read_up_to(alloc, input, MAX_DOCUMENT),
        Some(path) => match fs::open(rt, path) {
            Ok(mut file) => read_up_to(alloc, &mut file, MAX_DOCUMENT),
            Err(_) => Err(ProgramFault::Read),
        },
    }
}

/// The bytes that show the report.
fn shown(
    alloc: Global,
    report: &Report,
    options: &CheckOptions<'_>,
) -> Result<Vec<u8>, AllocError> {
    if options.json {
        json_of(alloc, report)
    } else {
        let lines = lines_of(alloc, report, options.document)?;
        Ok(lines.into_bytes())
    }
}

/// What is found in these bytes, as the options say what they are.
fn check_bytes(
    alloc: Global,
    options: &CheckOptions<'_>,
    bytes: &[u8],
) -> Result<Checked, AllocError> {
    let report = if options.rules {
        check_rules(alloc, bytes)?
    } else {
        check(alloc, bytes)?
    };
    let bytes = shown(alloc, &report, options)?;
    Ok(Checked {
        bytes,
        has_errors: !report.errors.is_empty(),
        has_warnings: !report.warnings.is_empty(),
    })
}

/// The status after a check: 1 if something was found that counts, and otherwise 0.
fn status_of(checked: &Checked, strict: bool) -> u8 {
    if checked.has_errors || (strict && checked.has_warnings) {
        1
    } else {
        0
    }
}

/// What is found in what is to be checked.
fn checked_of<R: Files + AllocGlobal, I: Read>(
    rt: &R,
    alloc: Global,
    request: &CheckRequest<'_>,
    input: &mut I,
) -> Result<Checked, NoRules> {
    let options = &request.options;
    if request.lines.has_any() {
        return check_lines(rt, alloc, &request.lines, options.json);
    }
    let bytes = document_bytes(rt, alloc, input, options.document)?;
    Ok(check_bytes(alloc, options, &bytes)?)
}

/// Checks a document or rules, writes what is found, and returns the status: 1 if there is an error or, if the check is strict, a
/// warning; otherwise 0. If a file of rules can't be read, `errors` says so, and the status is 4.
///
/// Refused with `Read`, `Memory` or `Write`. Unless it is `Write`, nothing was written to `output`.
pub(crate) fn run_check<R: Files + AllocGlobal, I: Read, W: Write, E: Write>(
    rt: &R,
    alloc: Global,
    request: &CheckRequest<'_>,
    input: &mut I,
    output: &mut W,
    errors: &mut E,
) -> Result<u8, ProgramFault> {
    match checked_of(rt, alloc, request, input) {
        Ok(checked) => {
            write_all(output, &checked.bytes)?;
            Ok(status_of(&checked, request.options.strict))
        }
        Err(NoRules::Fault(fault)) => Err(fault),
        Err(NoRules::Refused(text) | NoRules::Unread(text)) => {
            let _printed = write_all(errors, text.as_bytes());
            Ok(FAILED)
        }
    }
}
