//! The statements of a document.

use crate::definitions::Definitions;
use crate::expressions::{object_in, pattern_in};
use crate::reach::{Reach, has};
use crate::rows::{Row, Rows};
use crate::texts::{is_name, refuse_name};
use sno_document::{DocumentFault, MAX_STATEMENTS};
use sno_findings::{
    Collector, Facts, Form, Place, Whose, advice_of, facts_of, warn_of_facts, warn_of_growth,
    warn_of_literals, warn_of_missing_text, warn_of_variables,
};
use sno_pattern::{MAX_DEFINITIONS, Pattern};
use sno_read::ByteObject;
use sno_statement::MAX_ROUNDS;
use std::alloc::AllocError;

/// What the statements are checked against.
#[derive(Drop)]
pub(crate) struct Surroundings<'t> {
    pub(crate) definitions: Definitions<'t>,
    pub(crate) reach: Reach,
    /// The names of the texts, sorted.
    pub(crate) texts: Vec<&'t str>,
    /// Whether the document has the member `texts`.
    pub(crate) has_texts: bool,
}

/// The name of a statement's text.
fn check_name<'t>(
    findings: &mut Collector,
    surroundings: &Surroundings<'t>,
    number: usize,
    row: &Row<'t>,
) -> Result<(), AllocError> {
    let Some(name) = row.text else {
        return Ok(());
    };
    if !is_name(findings.alloc, name)? {
        return refuse_name(findings, DocumentFault::StatementName(number), name);
    }
    if !surroundings.has_texts {
        return Ok(());
    }
    warn_of_missing_text(
        findings,
        Place::Statement(number),
        &surroundings.texts,
        name,
    )
}

fn pattern_of<'t>(
    findings: &mut Collector,
    surroundings: &Surroundings<'t>,
    number: usize,
    row: &Row<'t>,
) -> Result<Option<Pattern>, AllocError> {
    let Some(written) = row.pattern else {
        return Ok(None);
    };
    let vocabulary = &surroundings.definitions.vocabulary;
    let earlier = vocabulary.names.len();
    pattern_in(
        findings,
        vocabulary,
        Whose::Pattern(number),
        earlier,
        written,
    )
}

fn object_of<'t>(
    findings: &mut Collector,
    surroundings: &Surroundings<'t>,
    number: usize,
    row: &Row<'t>,
) -> Result<Option<ByteObject>, AllocError> {
    let Some(written) = row.object else {
        return Ok(None);
    };
    let vocabulary = &surroundings.definitions.vocabulary;
    object_in(findings, vocabulary, Whose::Object(number), written)
}

/// How often a statement is repeated at most, if its number is one that can be.
fn rounds_in(written: &str) -> Option<u32> {
    match written.parse::<u32>() {
        Ok(rounds) if 1 <= rounds && rounds <= MAX_ROUNDS => Some(rounds),
        _ => None,
    }
}

/// Returns whether the statement is performed more than once.
fn check_repeat<'t>(
    findings: &mut Collector,
    number: usize,
    row: &Row<'t>,
) -> Result<bool, AllocError> {
    let Some(written) = row.repeat else {
        return Ok(false);
    };
    match (row.object, rounds_in(written)) {
        (Some(_), Some(rounds)) => Ok(rounds > 1),
        _ => {
            let fault = DocumentFault::StatementRepeat(number);
            findings.refuse_plainly(fault, advice_of(&fault))?;
            Ok(false)
        }
    }
}

/// A statement for all matches isn't repeated.
fn check_all<'t>(findings: &mut Collector, number: usize, row: &Row<'t>) -> Result<(), AllocError> {
    if row.all && row.repeat.is_some() {
        let fault = DocumentFault::StatementAll(number);
        findings.refuse_plainly(fault, advice_of(&fault))?;
    }
    Ok(())
}

/// Warns of what a pattern probably doesn't mean, and returns what it says. `bodies` has the definitions, each if it can be read.
pub(crate) fn check_pattern(
    findings: &mut Collector,
    bodies: &[Option<&Pattern>],
    number: usize,
    pattern: &Pattern,
) -> Result<Facts, AllocError> {
    let facts = facts_of(findings.alloc, bodies, None, pattern)?;
    warn_of_facts(findings, Whose::Pattern(number), &facts)?;
    Ok(facts)
}

/// Warns of what an object probably doesn't mean.
pub(crate) fn check_object(
    findings: &mut Collector,
    reach: &Reach,
    number: usize,
    facts: Facts,
    object: &ByteObject,
) -> Result<(), AllocError> {
    warn_of_literals(findings, Whose::Object(number), object)?;
    let Facts {
        variables,
        references,
        range: _,
        escape: _,
        repeats_rounds: _,
        is_ambiguous: _,
        goes_on_ambiguously: _,
        blocked: _,
    } = facts;
    let reached = reach.from(references);
    if !reach.are_read(reached) {
        return Ok(());
    }
    let mut assigned = variables;
    reach.add_variables(reached, &mut assigned)?;
    warn_of_variables(findings, Place::Statement(number), &assigned, object)
}

/// Checks a statement, and returns the definitions to which its pattern refers.
fn check_statement<'t>(
    findings: &mut Collector,
    surroundings: &Surroundings<'t>,
    bodies: &[Option<&Pattern>],
    number: usize,
    row: &Row<'t>,
) -> Result<u64, AllocError> {
    check_name(findings, surroundings, number, row)?;
    let pattern = pattern_of(findings, surroundings, number, row)?;
    let object = object_of(findings, surroundings, number, row)?;
    let repeats = check_repeat(findings, number, row)?;
    check_all(findings, number, row)?;
    let Some(pattern) = pattern else {
        return Ok(u64::MAX);
    };
    let facts = check_pattern(findings, bodies, number, &pattern)?;
    let references = facts.references;
    if let Some(object) = object {
        check_object(findings, &surroundings.reach, number, facts, &object)?;
        if repeats {
            let place = Place::Statement(number);
            warn_of_growth(findings, place, bodies, &pattern, row.anchored, &object)?;
        }
    }
    Ok(references)
}

/// What an unused definition is not used by.
fn user(form: Form) -> &'static str {
    match form {
        Form::Json => "statement",
        Form::Lines => "rule",
    }
}

/// Warns of the definitions that no statement reaches.
fn warn_of_unused<'t>(
    findings: &mut Collector,
    surroundings: &Surroundings<'t>,
    rows: &Rows<'t>,
    used: u64,
) -> Result<(), AllocError> {
    let reached = surroundings.reach.from(used);
    for (place, row) in rows.patterns.iter().take(MAX_DEFINITIONS).enumerate() {
        if let Some(name) = row.name {
            if !has(reached, place) {
                let user = user(findings.form);
                let message = format!(in findings.alloc; "no {user} uses '{name}'")?;
                findings.warn(Place::Pattern(place.saturating_add(1)), message)?;
            }
        }
    }
    Ok(())
}

/// Checks the statements. Each fault of one is an error. A definition that none of them uses is a warning, if there are
/// statements and all their patterns can be read.
pub(crate) fn check_statements<'t>(
    findings: &mut Collector,
    surroundings: &Surroundings<'t>,
    rows: &Rows<'t>,
) -> Result<(), AllocError> {
    if rows.statements.len() > MAX_STATEMENTS {
        let fault = DocumentFault::TooManyStatements;
        return findings.refuse_plainly(fault, advice_of(&fault));
    }
    let bodies = surroundings.definitions.patterns(findings.alloc)?;
    let mut used = rows.used;
    for (place, row) in rows.statements.iter().enumerate() {
        let number = place.saturating_add(1);
        used = used | check_statement(findings, surroundings, &bodies, number, row)?;
    }
    if rows.statements.is_empty() {
        return Ok(());
    }
    warn_of_unused(findings, surroundings, rows, used)
}
