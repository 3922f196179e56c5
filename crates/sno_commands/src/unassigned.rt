//! Variables of objects that no part of a rule's pattern assigns. They would put in the null string, so they are misspelled.

use sno_edit::EditRules;
use sno_findings::{Collector, Form, Place, bit, warn_of_variables};
use sno_pattern::{Name, Pattern};
use sno_read::{ByteObject, BytePart};
use sno_statement::{FileStatement, Statement};
use std::alloc::{AllocError, Global};

/// What a match may assign, as far as it was gathered.
#[derive(Drop)]
struct Assigned {
    variables: Vec<Name>,
    /// The definitions that are referred to, a bit for each.
    referred: u64,
}

impl Assigned {
    /// Adds what the pattern assigns itself, and the definitions to which it refers.
    fn add(&mut self, pattern: &Pattern) -> Result<(), AllocError> {
        match pattern {
            Pattern::At(name) => self.variables.push(*name)?,
            Pattern::Ref(number) => self.referred = self.referred | bit(*number),
            Pattern::Arbno(part) => self.add(part)?,
            Pattern::Seq(first, second) | Pattern::Alt(first, second) => {
                self.add(first)?;
                self.add(second)?;
            }
            Pattern::Cond(part, name) | Pattern::Imm(part, name) => {
                self.add(part)?;
                self.variables.push(*name)?;
            }
            _ => {}
        }
        Ok(())
    }
}

/// The number of a definition that is referred to and was not looked at.
fn next_definition(count: usize, referred: u64, looked: u64) -> Option<usize> {
    (0..count).find(|number| referred & bit(*number) != 0 && looked & bit(*number) == 0)
}

/// The variables that a match may assign, in its definitions too.
fn assigned_by(alloc: Global, search: &Statement) -> Result<Vec<Name>, AllocError> {
    let mut assigned = Assigned {
        variables: Vec::new(alloc),
        referred: 0,
    };
    assigned.add(search.pattern())?;
    let bodies = search.rules().bodies();
    let mut looked = 0;
    // Each round looks at another definition.
    for _ in 0..bodies.len() {
        let Some(number) = next_definition(bodies.len(), assigned.referred, looked) else {
            break;
        };
        looked = looked | bit(number);
        if let Some(body) = bodies.get(number) {
            assigned.add(body)?;
        }
    }
    Ok(assigned.variables)
}

/// Whether the object has a variable.
fn has_variables(object: &ByteObject) -> bool {
    object
        .parts()
        .iter()
        .any(|part| matches!(part, BytePart::Var(_)))
}

/// What is said of the first variable of the statement's object that its pattern doesn't assign; `None` if it assigns all.
fn unassigned_by(alloc: Global, statement: &FileStatement) -> Result<Option<String>, AllocError> {
    let Some(object) = statement.object() else {
        return Ok(None);
    };
    if !has_variables(object) {
        return Ok(None);
    }
    let search = statement.search();
    let place = Place::Statement(search.number() as usize);
    let mut findings = Collector::new(alloc, Form::Lines);
    warn_of_variables(&mut findings, place, &assigned_by(alloc, search)?, object)?;
    Ok(
        findings
            .warnings
            .into_iter()
            .next()
            .map(|warning| warning.message),
    )
}

/// A rule whose object has a variable that no part of its pattern assigns.
#[derive(Drop)]
pub(crate) struct Unassigned {
    /// The number of the rule, from 1.
    pub(crate) number: usize,
    /// What is said of it, after the rule's number.
    pub(crate) message: String,
}

/// The first rule whose object has a variable that neither its pattern nor a definition assigns to which that refers; `None` if there
/// is none. Refused only if memory runs out.
pub(crate) fn unassigned_in(
    alloc: Global,
    rules: &EditRules,
) -> Result<Option<Unassigned>, AllocError> {
    for statement in rules.statements() {
        if let Some(message) = unassigned_by(alloc, statement)? {
            let number = statement.search().number() as usize;
            return Ok(Some(Unassigned { number, message }));
        }
    }
    Ok(None)
}
