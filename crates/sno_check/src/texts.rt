//! The texts of a document.

use crate::rows::Pair;
use sno_book::MAX_TEXTS;
use sno_document::DocumentFault;
use sno_findings::{Collector, Place, advice_of, around, position_of};
use sno_pattern::{MAX_TEXT, NameFault, TextName};
use std::alloc::{AllocError, Global};

/// Whether the name of a text is one, as `TextName` has it.
pub(crate) fn is_name(alloc: Global, name: &str) -> Result<bool, AllocError> {
    match TextName::new(alloc, name.as_bytes()) {
        Ok(_) => Ok(true),
        Err(NameFault::Bad) => Ok(false),
        Err(NameFault::Memory) => Err(AllocError),
    }
}

/// How many bytes come before the first one that the name of a text can't have.
fn first_strange(name: &str) -> usize {
    match name.as_bytes().iter().position(|c| !c.is_ascii_graphic()) {
        Some(place) => place,
        None => 0,
    }
}

/// A name that is not the name of a text.
pub(crate) fn refuse_name(
    findings: &mut Collector,
    fault: DocumentFault,
    name: &str,
) -> Result<(), AllocError> {
    let excerpt = around(findings.alloc, name, 0, first_strange(name))?;
    let advice = String::from_str(findings.alloc, advice_of(&fault))?;
    findings.refuse(fault, Some(excerpt), advice)
}

/// The first character that is not ASCII, with how many bytes come before it.
fn first_non_ascii(text: &str) -> Option<(usize, char)> {
    for (place, character) in text.char_indices() {
        if !character.is_ascii() {
            return Some((place, character));
        }
    }
    None
}

fn refuse_character(
    findings: &mut Collector,
    number: usize,
    text: &str,
    place: usize,
    character: char,
) -> Result<(), AllocError> {
    let alloc = findings.alloc;
    let found = position_of(text, place);
    let code = character as u32;
    let advice = format!(in alloc;
        "line {}, column {}: this is U+{code:04X}; texts are ASCII",
        found.line, found.column
    )?;
    let excerpt = around(alloc, text, found.start, place)?;
    findings.refuse(DocumentFault::TextNonAscii(number), Some(excerpt), advice)
}

/// The characters of a text: first their number, then that they are ASCII.
fn check_characters(findings: &mut Collector, number: usize, text: &str) -> Result<(), AllocError> {
    if text.len() > MAX_TEXT {
        let count = text.len();
        let advice = format!(in findings.alloc;
            "a text has at most {MAX_TEXT} bytes, and this one {count}; cut it into several"
        )?;
        return findings.refuse(DocumentFault::TextTooLong(number), None, advice);
    }
    match first_non_ascii(text) {
        Some((place, character)) => refuse_character(findings, number, text, place, character),
        None => Ok(()),
    }
}

fn check_text(findings: &mut Collector, number: usize, row: &Pair<'_>) -> Result<(), AllocError> {
    if let Some(name) = row.name {
        if !is_name(findings.alloc, name)? {
            refuse_name(findings, DocumentFault::TextName(number), name)?;
        }
    }
    match row.content {
        Some(text) => check_characters(findings, number, text),
        None => Ok(()),
    }
}

/// Each text: its name, its length, its characters.
fn check_each(findings: &mut Collector, rows: &[Pair<'_>]) -> Result<(), AllocError> {
    for (place, row) in rows.iter().enumerate() {
        check_text(findings, place.saturating_add(1), row)?;
    }
    Ok(())
}

/// What an earlier name is to a later one.
#[derive(Clone, Copy, Debug, PartialEq, Eq)]
enum Likeness {
    Same,
    /// Only letters of the other case differ.
    Alike(usize),
    Other,
}

/// How a name is like the first of the earlier ones that is like it; `Same` if one is the same.
fn likeness_to(earlier: &[&str], name: &str) -> Likeness {
    let mut found = Likeness::Other;
    for (place, other) in earlier.iter().enumerate() {
        if *other == name {
            return Likeness::Same;
        }
        if found == Likeness::Other && other.eq_ignore_ascii_case(name) {
            found = Likeness::Alike(place.saturating_add(1));
        }
    }
    found
}

/// The names of the texts. One that comes again is an error, one that is alike a warning.
fn check_names<'t>(
    findings: &mut Collector,
    rows: &[Pair<'t>],
) -> Result<Vec<&'t str>, AllocError> {
    let mut names = Vec::new(findings.alloc);
    for (place, row) in rows.iter().enumerate() {
        let number = place.saturating_add(1);
        let name = match row.name {
            Some(name) => name,
            None => "",
        };
        match likeness_to(&names, name) {
            Likeness::Same if !name.is_empty() => {
                refuse_name(findings, DocumentFault::TextDuplicate(number), name)?;
            }
            Likeness::Alike(other) => {
                let message = format!(in findings.alloc;
                    "its name differs from that of text {other} only by capitals"
                )?;
                findings.warn(Place::Text(number), message)?;
            }
            _ => {}
        }
        names.push(name)?;
    }
    Ok(names)
}

/// The first rows, as many as there may be texts.
fn checked_rows<'r, 't>(rows: &'r [Pair<'t>]) -> &'r [Pair<'t>] {
    let (first, _) = rows.split_at(rows.len().min(MAX_TEXTS));
    first
}

/// Checks the texts, and returns their names, sorted. Each fault of one is an error.
pub(crate) fn check_texts<'t>(
    findings: &mut Collector,
    rows: &[Pair<'t>],
) -> Result<Vec<&'t str>, AllocError> {
    if rows.len() > MAX_TEXTS {
        let fault = DocumentFault::TooManyTexts;
        findings.refuse_plainly(fault, advice_of(&fault))?;
    }
    let checked = checked_rows(rows);
    check_each(findings, checked)?;
    let mut names = check_names(findings, checked)?;
    names.sort_unstable();
    Ok(names)
}
