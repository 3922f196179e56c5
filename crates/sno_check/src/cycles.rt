//! Cycles of references in which no character is taken.
//!
//! They are found by `Rules::admit`, which takes names and patterns. Both are still needed after it, so they are made again.

use crate::expressions::read;
use crate::rows::Pair;
use crate::vocabulary::Vocabulary;
use sno_document::DocumentFault;
use sno_findings::{Collector, advice_of};
use sno_pattern::{Name, Names, NamesFault, Pattern, Rules, RulesFault};
use sno_read::ReadFault;
use std::alloc::{AllocError, Global};

/// These names, made again.
fn names_again(alloc: Global, names: &Names) -> Result<Option<Names>, AllocError> {
    let mut list = Vec::new(alloc);
    for number in 0..names.len() {
        if let Some(name) = names.get(number) {
            list.push(*name)?;
        }
    }
    match Names::new(alloc, &list) {
        Ok(names) => Ok(Some(names)),
        Err(NamesFault::Memory) => Err(AllocError),
        Err(_) => Ok(None),
    }
}

/// The patterns of the definitions, read again. `None` if one can't be read.
fn bodies_again(
    alloc: Global,
    vocabulary: &Vocabulary<'_>,
    rows: &[Pair<'_>],
) -> Result<Option<Vec<Pattern>>, AllocError> {
    let mut bodies = Vec::new(alloc);
    for (place, row) in rows.iter().enumerate() {
        let Some(written) = row.content else {
            return Ok(None);
        };
        match read(alloc, vocabulary, place, written) {
            Ok(pattern) => bodies.push(pattern)?,
            Err(ReadFault::Memory) => return Err(AllocError),
            Err(_) => return Ok(None),
        }
    }
    Ok(Some(bodies))
}

/// The first definition on a cycle of references in which no character is taken, by its number.
fn first_unguarded(
    alloc: Global,
    names: Names,
    bodies: Vec<Pattern>,
) -> Result<Option<usize>, AllocError> {
    if names.len() != bodies.len() {
        return Ok(None);
    }
    match Rules::admit(alloc, names, bodies) {
        Err(RulesFault::Unguarded(cycle)) => Ok(cycle.first().copied()),
        Err(RulesFault::Memory) => Err(AllocError),
        Ok(_) | Err(RulesFault::BadRef(_)) => Ok(None),
    }
}

/// The name of the definition that `sno_rewrite` reports, if all definitions can be read and some are in a cycle.
fn unguarded_name(
    alloc: Global,
    vocabulary: &Vocabulary<'_>,
    rows: &[Pair<'_>],
) -> Result<Option<Name>, AllocError> {
    if !vocabulary.is_whole {
        return Ok(None);
    }
    let Some(names) = names_again(alloc, &vocabulary.names)? else {
        return Ok(None);
    };
    let Some(bodies) = bodies_again(alloc, vocabulary, rows)? else {
        return Ok(None);
    };
    match first_unguarded(alloc, names, bodies)? {
        Some(number) => Ok(vocabulary.names.get(number).copied()),
        None => Ok(None),
    }
}

/// A cycle of references in which no character is taken. It is an error if all definitions can be read.
pub(crate) fn check_cycles(
    findings: &mut Collector,
    vocabulary: &Vocabulary<'_>,
    rows: &[Pair<'_>],
) -> Result<(), AllocError> {
    let Some(name) = unguarded_name(findings.alloc, vocabulary, rows)? else {
        return Ok(());
    };
    let fault = DocumentFault::Unguarded(name);
    findings.refuse_plainly(fault, advice_of(&fault))
}
