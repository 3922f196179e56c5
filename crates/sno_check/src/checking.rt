//! Checking a document.
ghost use Rattle.std.specs.Prelude.{◌≡◌, ◌≢◌, List, [], ◌∷◌, IfOk, Ok, Err, MatchOption};
ghost use Rattle.sno_document.specs.Document as document;
ghost use Rattle.sno_document.specs.Document.{IsDocument};
ghost use Rattle.sno_check.specs.declared.checking.TheConstants.{USUAL};
ghost use Rattle.sno_check.specs.Reports.{IsReported};

use crate::definitions::check_definitions;
use crate::members::check_members;
use crate::reach::Reach;
use crate::rows::{Kind, Rows, is_object, rows_of};
use crate::statements::{Surroundings, check_statements};
use crate::texts::check_texts;
use json::{Scratch, Value};
use sno_document::{DocumentFault, MAX_DOCUMENT, Mode, read_document};
use sno_findings::{
    Collector, Form, Mistake, Place, Report, Warning, advice_of, json_mistake, lines_of_elements,
};
use sno_statement::USUAL_TRIALS;
use std::alloc::{AllocError, Global};

/// How `sno_rewrite` performs statements without any option. No fault depends on it.
pub const USUAL: Mode = Mode {
    anchor: false,
    trials: USUAL_TRIALS,
};

/// The first fault of the bytes, if they are not a document.
fn first_fault(alloc: Global, bytes: &[u8]) -> Result<Option<DocumentFault>, AllocError>
    ensures { IfOk result (λ fault. MatchOption fault ((d : document.Document) × IsDocument USUAL bytes.now (Ok d)) (λ e. IsDocument USUAL bytes.now (Err e))) }
{
    match read_document(alloc, bytes, USUAL).err() {
        None => Ok(None),
        Some(DocumentFault::Memory) => Err(AllocError),
        Some(fault) => Ok(Some(fault)),
    }
}

/// Takes out the first error, if it is this fault.
fn take_first(errors: &mut Vec<Mistake>, fault: &DocumentFault) -> Option<Mistake> {
    if errors.is_empty() || errors[0].fault != *fault {
        return None;
    }
    Some(errors.remove(0))
}

/// The error of this fault, as it was found, or else by the fault alone.
fn first_error(
    alloc: Global,
    fault: DocumentFault,
    known: Option<Mistake>,
) -> Result<Mistake, AllocError>
    ensures { IfOk result (λ m. m.fault ≡ fault) }
{
    match known {
        Some(found) => {
            let Mistake {
                fault: _,
                place,
                line,
                excerpt,
                advice,
            } = found;
            Ok(Mistake {
                fault,
                place,
                line,
                excerpt,
                advice,
            })
        }
        None => {
            let advice = String::from_str(alloc, advice_of(&fault))?;
            let place = Place::of_fault(&fault);
            Ok(Mistake {
                fault,
                place,
                line: None,
                excerpt: None,
                advice,
            })
        }
    }
}

/// The errors, with this fault as the first of them.
pub(crate) fn led_by(
    alloc: Global,
    fault: DocumentFault,
    found: Vec<Mistake>,
) -> Result<Vec<Mistake>, AllocError>
    ensures { IfOk result (λ v. (m : Mistake) × (ms : List Mistake) × (v.items ≡ m ∷ ms) × (m.fault ≡ fault)) }
{
    let mut errors = found;
    let known = take_first(&mut errors, &fault);
    let first = first_error(alloc, fault, known)?;
    errors.insert(0, first)?;
    Ok(errors)
}

/// What is found in a document or in rules by their rows.
pub(crate) fn check_rows<'t>(findings: &mut Collector, rows: &Rows<'t>) -> Result<(), AllocError> {
    let definitions = check_definitions(findings, rows.wide, &rows.patterns)?;
    let texts = check_texts(findings, &rows.texts)?;
    let Some(definitions) = definitions else {
        return Ok(());
    };
    let reach = Reach::of(findings, &definitions.patterns(findings.alloc)?)?;
    let surroundings = Surroundings {
        definitions,
        reach,
        texts,
        has_texts: rows.has_texts,
    };
    check_statements(findings, &surroundings, rows)
}

/// What is found in a JSON value.
fn check_value(findings: &mut Collector, kind: Kind, value: &Value<'_>) -> Result<(), AllocError> {
    if !is_object(findings, Place::Document, value)? {
        return Ok(());
    }
    let rows = rows_of(findings, kind, value)?;
    check_members(findings, value)?;
    check_rows(findings, &rows)
}

/// What is found in a text of JSON.
fn check_text(findings: &mut Collector, kind: Kind, bytes: &[u8]) -> Result<(), AllocError> {
    let mut scratch = Scratch::new(findings.alloc);
    match Value::from_slice(findings.alloc, bytes, &mut scratch) {
        Ok(value) => check_value(findings, kind, &value),
        Err(json::Error::OutOfMemory) => Err(AllocError),
        Err(_) => Ok(()),
    }
}

/// Gives each finding in a text of JSON the line on which its part begins.
fn number_lines(findings: &mut Collector, bytes: &[u8]) -> Result<(), AllocError> {
    let lines = lines_of_elements(findings.alloc, str::from_utf8(bytes).unwrap_or(""))?;
    findings.number_errors(&lines);
    findings.number_warnings(&lines);
    Ok(())
}

/// What is found in bytes, whether they are what they are checked as or not.
pub(crate) fn findings_in(
    alloc: Global,
    kind: Kind,
    bytes: &[u8],
) -> Result<Collector, AllocError> {
    let mut findings = Collector::new(alloc, Form::Json);
    if bytes.len() > MAX_DOCUMENT {
        return Ok(findings);
    }
    match json_mistake(alloc, bytes)? {
        Some(mistake) => findings.errors.push(mistake)?,
        None => {
            check_text(&mut findings, kind, bytes)?;
            number_lines(&mut findings, bytes)?;
        }
    }
    Ok(findings)
}

/// Returns the warnings of members alone: of those that no object of their kind has, and of those that an object has twice. They may be
/// those of rules too, which are no document if they have no texts. Bytes that are not JSON have none.
///
/// Refused only if memory runs out.
pub fn member_warnings(alloc: Global, bytes: &[u8]) -> Result<Vec<Warning>, AllocError> {
    let mut findings = Collector::new(alloc, Form::Json);
    let mut scratch = Scratch::new(alloc);
    match Value::from_slice(alloc, bytes, &mut scratch) {
        Ok(value) => check_members(&mut findings, &value)?,
        Err(json::Error::OutOfMemory) => return Err(AllocError),
        Err(_) => {}
    }
    Ok(findings.warnings)
}

/// Returns what is found in the bytes of a document. The errors come in the order in which `sno_rewrite` would come to
/// them, and the warnings kind by kind.
///
/// Refused only if memory runs out.
pub fn check(alloc: Global, bytes: &[u8]) -> Result<Report, AllocError>
    // Without an error the bytes are a document. Otherwise they are not, and the first error is their first fault.
    ensures says { IfOk result (λ report. IsReported USUAL bytes.now report.errors.items) }
{
    let first = first_fault(alloc, bytes)?;
    let Collector {
        alloc: _,
        form: _,
        errors: found,
        warnings,
    } = findings_in(alloc, Kind::Document, bytes)?;
    let errors = match first {
        None => Vec::new(alloc),
        Some(fault) => led_by(alloc, fault, found)?,
    };
    Ok(Report { errors, warnings })
}
