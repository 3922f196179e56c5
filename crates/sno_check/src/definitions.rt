//! The definitions of a document.

use crate::cycles::check_cycles;
use crate::expressions::pattern_in;
use crate::rows::Pair;
use crate::vocabulary::{Vocabulary, checked_rows, vocabulary_of};
use sno_document::DocumentFault;
use sno_findings::{Collector, Whose, advice_of};
use sno_pattern::{MAX_DEFINITIONS, Pattern};
use std::alloc::{AllocError, Global};

/// The definitions of a document.
#[derive(Drop)]
pub(crate) struct Definitions<'t> {
    pub(crate) vocabulary: Vocabulary<'t>,
    bodies: Vec<Option<Pattern>>,
}

impl<'t> Definitions<'t> {
    /// The pattern of each definition, if it can be read.
    pub(crate) fn patterns(&self, alloc: Global) -> Result<Vec<Option<&Pattern>>, AllocError> {
        let mut patterns = Vec::new(alloc);
        for body in &self.bodies {
            patterns.push(body.as_ref())?;
        }
        Ok(patterns)
    }
}

fn bodies_of(
    findings: &mut Collector,
    vocabulary: &Vocabulary<'_>,
    rows: &[Pair<'_>],
) -> Result<Vec<Option<Pattern>>, AllocError> {
    let mut bodies = Vec::new(findings.alloc);
    for (place, row) in rows.iter().enumerate() {
        let mut body = None;
        if let Some(written) = row.content {
            let whose = Whose::Definition(place.saturating_add(1));
            body = pattern_in(findings, vocabulary, whose, place, written)?;
        }
        bodies.push(body)?;
    }
    Ok(bodies)
}

/// The definitions. Each fault of one is an error, and so is a cycle of references if all definitions can be read. `None` if
/// the names can't be used.
pub(crate) fn check_definitions<'t>(
    findings: &mut Collector,
    wide: bool,
    rows: &[Pair<'t>],
) -> Result<Option<Definitions<'t>>, AllocError> {
    if rows.len() > MAX_DEFINITIONS {
        let fault = DocumentFault::TooManyPatterns;
        findings.refuse_plainly(fault, advice_of(&fault))?;
    }
    let checked = checked_rows(rows);
    let Some(vocabulary) = vocabulary_of(findings, wide, checked)? else {
        return Ok(None);
    };
    let bodies = bodies_of(findings, &vocabulary, checked)?;
    // Of too many definitions only the first ones are read.
    if checked.len() == rows.len() {
        check_cycles(findings, &vocabulary, checked)?;
    }
    Ok(Some(Definitions { vocabulary, bodies }))
}
