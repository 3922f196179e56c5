//! The names of the definitions, as far as they can be used.

use crate::rows::Pair;
use sno_document::DocumentFault;
use sno_findings::{Collector, advice_of, around, text_of};
use sno_pattern::{MAX_DEFINITIONS, Name, Names, NamesFault, is_letter, is_name_char};
use std::alloc::{AllocError, Global};

/// The words of the language.
pub(crate) const RESERVED: [&str; 16] = [
    "ABORT", "ANY", "ARB", "ARBNO", "BAL", "BREAK", "FAIL", "FENCE", "LEN", "NOTANY", "POS", "REM",
    "RPOS", "RTAB", "SPAN", "TAB",
];

/// The names of the definitions.
#[derive(Drop)]
pub(crate) struct Vocabulary<'t> {
    /// The names; a name that can't be used is replaced by another.
    pub(crate) names: Names,
    /// The names that can be used, as they are written.
    pub(crate) words: Vec<&'t str>,
    /// Whether no name was replaced.
    pub(crate) is_whole: bool,
    /// Whether literals may have any bytes, as in rules for files.
    pub(crate) wide: bool,
}

/// The first rows, as many as there may be definitions.
pub(crate) fn checked_rows<'r, 't>(rows: &'r [Pair<'t>]) -> &'r [Pair<'t>] {
    let (first, _) = rows.split_at(rows.len().min(MAX_DEFINITIONS));
    first
}

/// How many characters come before the first one that a name can't have there.
fn first_strange(name: &str) -> usize {
    for (place, character) in name.as_bytes().iter().enumerate() {
        let fits = if place == 0 {
            is_letter(*character)
        } else {
            is_name_char(*character)
        };
        if !fits {
            return place;
        }
    }
    0
}

fn refuse_name(
    findings: &mut Collector,
    fault: DocumentFault,
    name: &str,
    place: usize,
) -> Result<(), AllocError> {
    let excerpt = around(findings.alloc, name, 0, place)?;
    let advice = String::from_str(findings.alloc, advice_of(&fault))?;
    findings.refuse(fault, Some(excerpt), advice)
}

/// The names that are read; of the others each is an error.
fn read_names(
    findings: &mut Collector,
    rows: &[Pair<'_>],
) -> Result<Vec<Option<Name>>, AllocError> {
    let mut names = Vec::new(findings.alloc);
    for (place, row) in rows.iter().enumerate() {
        let mut read = None;
        if let Some(written) = row.name {
            read = Name::read(written.as_bytes());
            if read.is_none() {
                let fault = DocumentFault::PatternName(place.saturating_add(1));
                refuse_name(findings, fault, written, first_strange(written))?;
            }
        }
        names.push(read)?;
    }
    Ok(names)
}

/// The names that are not reserved; of the others each is an error.
fn free_names(
    findings: &mut Collector,
    names: &[Option<Name>],
) -> Result<Vec<Option<Name>>, AllocError> {
    let mut free = Vec::new(findings.alloc);
    for (place, name) in names.iter().enumerate() {
        match name {
            Some(reserved) if reserved.is_reserved() => {
                let fault = DocumentFault::PatternReserved(place.saturating_add(1));
                refuse_name(findings, fault, text_of(reserved.bytes()), 0)?;
                free.push(None)?;
            }
            other => free.push(*other)?,
        }
    }
    Ok(free)
}

fn has_name(names: &[Option<Name>], wanted: &Name) -> bool {
    for name in names {
        if let Some(name) = name {
            if name.bytes() == wanted.bytes() {
                return true;
            }
        }
    }
    false
}

/// The names that come for the first time; of the others each is an error.
fn distinct_names(
    findings: &mut Collector,
    names: &[Option<Name>],
) -> Result<Vec<Option<Name>>, AllocError> {
    let mut distinct = Vec::new(findings.alloc);
    for (place, name) in names.iter().enumerate() {
        match name {
            Some(repeated) if has_name(&distinct, repeated) => {
                let fault = DocumentFault::PatternDuplicate(place.saturating_add(1));
                refuse_name(findings, fault, text_of(repeated.bytes()), 0)?;
                distinct.push(None)?;
            }
            other => distinct.push(*other)?,
        }
    }
    Ok(distinct)
}

/// A name that no document is likely to have, for the definition at a place.
fn stand_in(alloc: Global, place: usize) -> Result<Option<Name>, AllocError> {
    let written = format!(in alloc; "Z..{place}")?;
    Ok(Name::read(written.as_bytes()))
}

/// The names, each that is missing replaced.
fn filled(alloc: Global, names: &[Option<Name>]) -> Result<Vec<Name>, AllocError> {
    let mut all = Vec::new(alloc);
    for (place, name) in names.iter().enumerate() {
        match name {
            Some(name) => all.push(*name)?,
            None => {
                if let Some(name) = stand_in(alloc, place)? {
                    all.push(name)?;
                }
            }
        }
    }
    Ok(all)
}

/// The names that are there, as they are written.
fn words_of<'t>(
    alloc: Global,
    rows: &[Pair<'t>],
    names: &[Option<Name>],
) -> Result<Vec<&'t str>, AllocError> {
    let mut words = Vec::new(alloc);
    for (row, name) in rows.iter().zip(names.iter()) {
        if let (Some(word), Some(_)) = (row.name, name) {
            words.push(word)?;
        }
    }
    Ok(words)
}

/// The names of the definitions. Each that can't be used is an error. `None` if a name can't be replaced.
pub(crate) fn vocabulary_of<'t>(
    findings: &mut Collector,
    wide: bool,
    rows: &[Pair<'t>],
) -> Result<Option<Vocabulary<'t>>, AllocError> {
    let alloc = findings.alloc;
    let read = read_names(findings, rows)?;
    let free = free_names(findings, &read)?;
    let names = distinct_names(findings, &free)?;
    let words = words_of(alloc, rows, &names)?;
    let is_whole = words.len() == rows.len();
    match Names::new(alloc, &filled(alloc, &names)?) {
        Ok(names) => Ok(Some(Vocabulary {
            names,
            words,
            is_whole,
            wide,
        })),
        Err(NamesFault::Memory) => Err(AllocError),
        Err(_) => Ok(None),
    }
}
