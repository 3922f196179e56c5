//! Which definitions a pattern reaches, and what these assign.

use sno_findings::{Collector, Facts, Whose, bit, facts_of, warn_of_facts};
use sno_pattern::{Name, Pattern};
use std::alloc::{AllocError, Global};

/// What the definitions say, and which others they reach.
#[derive(Drop)]
pub(crate) struct Reach {
    /// What each definition says itself; `None` if it can't be read.
    facts: Vec<Option<Facts>>,
    /// The definitions that each one reaches, over any number of references.
    reached: Vec<u64>,
}

/// Whether the definition with this number is in the set.
pub(crate) fn has(set: u64, number: usize) -> bool {
    set & bit(number) != 0
}

fn direct_references(alloc: Global, facts: &[Option<Facts>]) -> Result<Vec<u64>, AllocError> {
    let mut direct = Vec::new(alloc);
    for facts in facts {
        direct.push(match facts {
            Some(facts) => facts.references,
            None => 0,
        })?;
    }
    Ok(direct)
}

/// Adds what is reached over the definition with this number.
fn reach_over(reached: &mut Vec<u64>, number: usize) {
    let over = match reached.get(number) {
        Some(set) => *set,
        None => 0,
    };
    for set in reached.iter_mut() {
        if has(*set, number) {
            *set = *set | over;
        }
    }
}

fn facts_of_bodies(
    findings: &mut Collector,
    bodies: &[Option<&Pattern>],
) -> Result<Vec<Option<Facts>>, AllocError> {
    let mut all = Vec::new(findings.alloc);
    for (place, body) in bodies.iter().enumerate() {
        let mut found = None;
        if let Some(pattern) = *body {
            let facts = facts_of(findings.alloc, bodies, Some(place), pattern)?;
            warn_of_facts(findings, Whose::Definition(place.saturating_add(1)), &facts)?;
            found = Some(facts);
        }
        all.push(found)?;
    }
    Ok(all)
}

impl Reach {
    /// What the definitions with these patterns say, with a warning for what is strange in them.
    pub(crate) fn of(
        findings: &mut Collector,
        bodies: &[Option<&Pattern>],
    ) -> Result<Reach, AllocError> {
        let facts = facts_of_bodies(findings, bodies)?;
        let mut reached = direct_references(findings.alloc, &facts)?;
        for number in 0..facts.len() {
            reach_over(&mut reached, number);
        }
        Ok(Reach { facts, reached })
    }

    /// The definitions that a pattern with these references reaches.
    pub(crate) fn from(&self, references: u64) -> u64 {
        let mut all = references;
        for (number, reached) in self.reached.iter().enumerate() {
            if has(references, number) {
                all = all | *reached;
            }
        }
        all
    }

    /// Whether each definition of the set can be read.
    pub(crate) fn are_read(&self, set: u64) -> bool {
        for (number, facts) in self.facts.iter().enumerate() {
            if has(set, number) && facts.is_none() {
                return false;
            }
        }
        true
    }

    /// Adds the variables that the definitions of the set assign.
    pub(crate) fn add_variables(
        &self,
        set: u64,
        variables: &mut Vec<Name>,
    ) -> Result<(), AllocError> {
        for (number, facts) in self.facts.iter().enumerate() {
            if let Some(facts) = facts {
                if has(set, number) {
                    variables.extend_from_slice(&facts.variables)?;
                }
            }
        }
        Ok(())
    }
}
