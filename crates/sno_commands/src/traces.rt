//! `sno trace`.

use crate::checks::document_bytes;
use crate::faults::{FAILED, MISUSED, ProgramFault};
use crate::given_lines::NoRules;
use crate::rule_lines::file_rules_of_lines;
use crate::streams::{read_up_to, write_all};
use crate::trace_command::{TraceOptions, TraceRequest};
use crate::trace_modes::{document_mode, mode_on};
use sno_document::{DocumentFault, FileRules, read_document, read_rules};
use sno_edit::is_for;
use sno_findings::{Position, position_of};
use sno_pattern::{MAX_TEXT, Text, TextFault};
use sno_statement::{FileStatement, Statement};
use sno_trace::page_of;
use sno_traces::{NoTrace, TraceLines, Wanted, take_statement, trace_of_document, trace_on_text};
use std::alloc::{AllocError, AllocFailed, Global};
use std::fs;
use std::io::{Read, Write};
use std::rt::Files;
use std::sync::Arc;

/// The status after a document, rules or a text that are refused.
const INVALID: u8 = 2;

/// What is written if the text of the statement isn't there, or the rule isn't for the file.
const NO_TEXT: &[u8] = b"no text\n";

/// What is written, and the status after it.
#[derive(Drop)]
struct Written {
    bytes: Vec<u8>,
    status: u8,
}

/// Why nothing is shown.
#[derive(Drop)]
enum Unshown {
    /// There is no trace.
    NoTrace(NoTrace),
    /// What is written about what was given in place of a document, of rules or of a text.
    Refused(String),
    /// They can't be read, or memory ran out.
    Fault(ProgramFault),
}

impl From<AllocError> for Unshown {
    fn from(_refused: AllocError) -> Unshown {
        Unshown::Fault(ProgramFault::Memory)
    }
}

impl<T: Drop> From<AllocFailed<T>> for Unshown {
    fn from(_refused: AllocFailed<T>) -> Unshown {
        Unshown::Fault(ProgramFault::Memory)
    }
}

impl From<ProgramFault> for Unshown {
    fn from(fault: ProgramFault) -> Unshown {
        Unshown::Fault(fault)
    }
}

impl From<NoTrace> for Unshown {
    fn from(reason: NoTrace) -> Unshown {
        Unshown::NoTrace(reason)
    }
}

impl From<NoRules> for Unshown {
    fn from(reason: NoRules) -> Unshown {
        match reason {
            NoRules::Fault(fault) => Unshown::Fault(fault),
            NoRules::Refused(text) | NoRules::Unread(text) => Unshown::Refused(text),
        }
    }
}

/// What is written of a trace; `None` is a text that isn't there.
fn bytes_of(alloc: Global, shown: Option<TraceLines>, html: bool) -> Result<Written, AllocError> {
    let Some(shown) = shown else {
        let bytes = Vec::from_slice(alloc, NO_TEXT)?;
        return Ok(Written { bytes, status: 1 });
    };
    let TraceLines {
        pattern,
        text,
        lines,
        matched,
    } = shown;
    let status = if matched { 0 } else { 1 };
    let bytes = if html {
        page_of(alloc, &pattern, &text, &lines)?
    } else {
        lines
    };
    Ok(Written { bytes, status })
}

/// Which match is shown, and how much of it.
fn wanted(options: &TraceOptions<'_>) -> Wanted {
    Wanted {
        number: options.number,
        between: options.between,
        lines: options.lines,
    }
}

/// Why a document or rules that have this fault aren't traced.
fn refused_by(alloc: Global, fault: DocumentFault) -> Unshown {
    if fault == DocumentFault::Memory {
        return Unshown::from(AllocError);
    }
    match format!(in alloc; "{fault}\n") {
        Ok(text) => Unshown::Refused(text),
        Err(refused) => Unshown::from(refused),
    }
}

/// The trace of a document's statement, on the text as the statements before it leave it.
fn shown_of_document<R: Files, I: Read>(
    rt: &R,
    alloc: Global,
    options: &TraceOptions<'_>,
    input: &mut I,
) -> Result<Written, Unshown> {
    let bytes = document_bytes(rt, alloc, input, options.document)?;
    match read_document(alloc, &bytes, document_mode(options.mode)) {
        Ok(document) => {
            let shown = trace_of_document(alloc, document, options.statement, wanted(options))?;
            Ok(bytes_of(alloc, shown, options.html)?)
        }
        Err(fault) => Err(refused_by(alloc, fault)),
    }
}

/// The position of the first byte above 127, which has this place.
fn position_in(bytes: &[u8], place: usize) -> Position {
    let before = bytes.get(..place).unwrap_or(&[]);
    position_of(str::from_utf8(before).unwrap_or(""), place)
}

/// What is written of a file whose bytes are not a text.
fn refused_text(
    alloc: Global,
    path: &str,
    fault: TextFault,
    bytes: &[u8],
) -> Result<String, AllocError> {
    match fault {
        TextFault::TooLong => {
            format!(in alloc;
                "{path}: too long: a rule is traced on at most {MAX_TEXT} characters\n"
            )
        }
        TextFault::NonAscii(place) => {
            let Position { line, column, .. } = position_in(bytes, place);
            format!(in alloc;
                "{path}: not ASCII at line {line}, column {column}: a rule is traced on ASCII alone\n"
            )
        }
    }
}

/// The text of a file.
fn text_of_file<R: Files>(rt: &R, alloc: Global, path: &str) -> Result<Text, Unshown> {
    let Ok(mut file) = fs::open(rt, path) else {
        return Err(Unshown::Refused(format!(in alloc; "{path}: can't be read\n")?));
    };
    let bytes = read_up_to(alloc, &mut file, MAX_TEXT)?;
    let kept = Vec::from_slice(alloc, &bytes)?;
    match Text::new(bytes) {
        Ok(text) => Ok(text),
        Err(fault) => Err(Unshown::Refused(refused_text(alloc, path, fault, &kept)?)),
    }
}

/// The rules, which may take as many trials as on a file of this text.
fn rules_for<R: Files + AllocGlobal, I: Read>(
    rt: &R,
    alloc: Global,
    request: &TraceRequest<'_>,
    text: &Text,
    input: &mut I,
) -> Result<FileRules, Unshown> {
    let mode = mode_on(text.bytes().len(), request.options.mode);
    if request.lines.are_given() {
        return Ok(file_rules_of_lines(rt, alloc, &request.lines, mode)?);
    }
    let bytes = document_bytes(rt, alloc, input, request.options.document)?;
    match read_rules(alloc, &bytes, mode) {
        Ok(rules) => Ok(rules),
        Err(fault) => Err(refused_by(alloc, fault)),
    }
}

/// A rule as a statement on texts; `None` if a literal of its object is not a text.
fn shared_for_texts(alloc: Global, rule: FileStatement) -> Result<Option<Arc<Statement>>, Unshown> {
    let Some(statement) = rule.for_texts(alloc)? else {
        return Ok(None);
    };
    Ok(Some(Arc::new(alloc, statement)?))
}

/// What is said of a rule that can't be a statement on texts.
fn not_for_texts(alloc: Global, number: u32) -> Unshown {
    let said = format!(in alloc;
        "statement {number}: the object is not ASCII: a rule is traced on ASCII alone\n"
    );
    match said {
        Ok(said) => Unshown::Refused(said),
        Err(refused) => Unshown::from(refused),
    }
}

/// The rules as statements on texts. Refused with the first that has a literal in its object that is not a text.
fn statements_for_texts(
    alloc: Global,
    rules: Vec<FileStatement>,
) -> Result<Vec<Arc<Statement>>, Unshown> {
    let mut statements = Vec::with_capacity(alloc, rules.len())?;
    for rule in rules {
        let number = rule.search().number();
        match shared_for_texts(alloc, rule)? {
            Some(statement) => statements.push(statement)?,
            None => return Err(not_for_texts(alloc, number)),
        }
    }
    Ok(statements)
}

/// The trace of one of the rules on the text of a file; `None` if it isn't for the file.
fn trace_of_rule(
    alloc: Global,
    options: &TraceOptions<'_>,
    path: &str,
    text: Text,
    mut statements: Vec<Arc<Statement>>,
) -> Result<Option<TraceLines>, NoTrace> {
    let rule = take_statement(&mut statements, options.statement)?;
    if !is_for(&rule, path) {
        return Ok(None);
    }
    statements.retain(|earlier| is_for(earlier, path));
    let lines = trace_on_text(alloc, &statements, rule, text, wanted(options))?;
    Ok(Some(lines))
}

/// The trace of a rule on the text of a file, as the rules before it that are for the file leave it.
fn shown_of_rules<R: Files + AllocGlobal, I: Read>(
    rt: &R,
    alloc: Global,
    request: &TraceRequest<'_>,
    path: &str,
    input: &mut I,
) -> Result<Written, Unshown> {
    let options = &request.options;
    let text = text_of_file(rt, alloc, path)?;
    let FileRules { statements, .. } = rules_for(rt, alloc, request, &text, input)?;
    let statements = statements_for_texts(alloc, statements)?;
    let shown = trace_of_rule(alloc, options, path, text, statements)?;
    Ok(bytes_of(alloc, shown, options.html)?)
}

/// What is shown.
fn shown<R: Files + AllocGlobal, I: Read>(
    rt: &R,
    alloc: Global,
    request: &TraceRequest<'_>,
    input: &mut I,
) -> Result<Written, Unshown> {
    match request.options.on {
        Some(path) => shown_of_rules(rt, alloc, request, path, input),
        None => shown_of_document(rt, alloc, &request.options, input),
    }
}

/// Writes why there is no trace, and returns the status after it.
fn without_trace<E: Write>(reason: NoTrace, errors: &mut E) -> Result<u8, ProgramFault> {
    if reason == NoTrace::Memory {
        return Err(ProgramFault::Memory);
    }
    let _printed = errors.writeln(reason);
    match reason {
        NoTrace::NoStatement | NoTrace::NoMatch(_) | NoTrace::NoCursor(_) => Ok(MISUSED),
        NoTrace::TooDeep | NoTrace::Memory => Ok(FAILED),
    }
}

/// Shows how a match of a statement goes, or of a rule on the text of a file, and returns the status:
///
/// - 0 if the match that is asked for is there, and 1 if it isn't, or is refused;
/// - 2 if the document, the rules or the text of the file are refused, after the line of their fault in `errors`;
/// - 3 if there is no such statement or cursor, or the statement can't have such a match, which `errors` says;
/// - 4 if calls would nest too deep, which `errors` says.
///
/// Refused with `Read`, `Memory` or `Write`. Unless it is `Write`, nothing was written to `output`.
pub(crate) fn run_trace<R: Files + AllocGlobal, I: Read, W: Write, E: Write>(
    rt: &R,
    alloc: Global,
    request: &TraceRequest<'_>,
    input: &mut I,
    output: &mut W,
    errors: &mut E,
) -> Result<u8, ProgramFault> {
    match shown(rt, alloc, request, input) {
        Ok(written) => {
            write_all(output, &written.bytes)?;
            Ok(written.status)
        }
        Err(Unshown::Fault(fault)) => Err(fault),
        Err(Unshown::NoTrace(reason)) => without_trace(reason, errors),
        Err(Unshown::Refused(text)) => {
            let _printed = write_all(errors, text.as_bytes());
            Ok(INVALID)
        }
    }
}
