//! What one statement that was read probably doesn't mean.
ghost use Rattle.std.specs.Prelude.{◌≡◌, IfOk};
ghost use Rattle.std.specs.List.{All};
ghost use Rattle.sno_check.specs.Reports.{IsWarningOf};

use crate::reach::Reach;
use crate::statements::{check_object, check_pattern};
use sno_findings::{Collector, Form, Place, Warning, warn_of_growth};
use sno_pattern::{ByteText, Pattern};
use sno_read::{ByteObject, BytePart, Object, Part};
use sno_statement::Statement;
use std::alloc::{AllocError, Global};

/// The most characters that the literals of an expression have if they are written in it. Those of bound names may have more.
const MAX_LITERALS: usize = 4_096;

/// How many characters the literals of a pattern have.
fn pattern_length(pattern: &Pattern) -> usize {
    match pattern {
        Pattern::Lit(text) => text.bytes().len(),
        Pattern::Arbno(part) | Pattern::Cond(part, _) | Pattern::Imm(part, _) => {
            pattern_length(part)
        }
        Pattern::Seq(first, second) | Pattern::Alt(first, second) => {
            pattern_length(first).saturating_add(pattern_length(second))
        }
        _ => 0,
    }
}

/// How many characters the literals of an object have.
fn object_length(object: &ByteObject) -> usize {
    let mut length: usize = 0;
    for part in object.parts() {
        if let BytePart::Quoted(text) = part {
            length = length.saturating_add(text.bytes().len());
        }
    }
    length
}

/// A part of an object, for warnings.
fn byte_part(alloc: Global, part: &Part) -> Result<BytePart, AllocError> {
    match part {
        Part::Var(name) => Ok(BytePart::Var(*name)),
        Part::Quoted(text) => match ByteText::new(Vec::from_slice(alloc, text.bytes())?) {
            Ok(bytes) => Ok(BytePart::Quoted(bytes)),
            Err(_) => unreachable!(),
        },
    }
}

/// An object, for warnings.
fn byte_object(alloc: Global, object: &Object) -> Result<ByteObject, AllocError> {
    let mut parts = Vec::new(alloc);
    for part in object.parts() {
        parts.push(byte_part(alloc, part)?)?;
    }
    Ok(ByteObject::of(parts))
}

/// Warns of a repeated statement that may find again what it puts in. If bound names have long texts it isn't sought, since that
/// takes the time of the texts' product.
fn warn_if_repeated(
    findings: &mut Collector,
    bodies: &[Option<&Pattern>],
    statement: &Statement,
    object: &ByteObject,
) -> Result<(), AllocError> {
    let Some(rounds) = statement.repeat() else {
        return Ok(());
    };
    let pattern = statement.pattern();
    let is_short = pattern_length(pattern) <= MAX_LITERALS && object_length(object) <= MAX_LITERALS;
    if rounds <= 1 || !is_short {
        return Ok(());
    }
    let place = Place::Statement(statement.number() as usize);
    let anchored = statement.anchored();
    warn_of_growth(findings, place, bodies, pattern, anchored, object)
}

/// These warnings, as those of the statement with this number.
fn placed(alloc: Global, number: usize, found: Vec<Warning>) -> Result<Vec<Warning>, AllocError>
    ensures { IfOk result (λ warnings. All (IsWarningOf number) warnings.items) }
{
    let mut warnings = Vec::new(alloc);
    for Warning { message, .. } in found {
        warnings.push(Warning {
            place: Place::Statement(number),
            line: None,
            message,
        })?;
    }
    Ok(warnings)
}

/// The definitions of a statement, all read.
fn bodies_of<'p>(
    alloc: Global,
    statement: &'p Statement,
) -> Result<Vec<Option<&'p Pattern>>, AllocError> {
    let mut bodies = Vec::new(alloc);
    for body in statement.rules().bodies() {
        bodies.push(Some(body))?;
    }
    Ok(bodies)
}

/// Returns what a statement that was read probably doesn't mean: the warnings that [`check`](crate::check) has of the pattern and the
/// object of a document's statement with this number. Names that are bound to texts are literals. What its definitions mean
/// themselves, and that no text has the statement's name, isn't among them.
///
/// Refused only if memory runs out.
pub fn statement_warnings(alloc: Global, statement: &Statement) -> Result<Vec<Warning>, AllocError>
    // Each warning is one of this statement.
    ensures own { IfOk result (λ warnings. All (IsWarningOf statement.now.number) warnings.items) }
{
    let bodies = bodies_of(alloc, statement)?;
    // What is found in definitions is theirs.
    let mut of_definitions = Collector::new(alloc, Form::Json);
    let reach = Reach::of(&mut of_definitions, &bodies)?;
    let number = statement.number() as usize;
    let mut findings = Collector::new(alloc, Form::Json);
    let facts = check_pattern(&mut findings, &bodies, number, statement.pattern())?;
    if let Some(object) = statement.object() {
        let object = byte_object(alloc, object)?;
        check_object(&mut findings, &reach, number, facts, &object)?;
        warn_if_repeated(&mut findings, &bodies, statement, &object)?;
    }
    placed(alloc, number, findings.warnings)
}
