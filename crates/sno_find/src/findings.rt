//! What is found in a file.
ghost use Rattle.std.specs.Prelude.{◌≡◌, map, length, None, IfOk, IfErr};
ghost use Rattle.sno_edit.specs.Rules.{rules_seen};
ghost use Rattle.sno_find.specs.Findings.{AreFound, AreRising, HasCause, all_hits, finding_of, first_refused, hits_seen};

use crate::FindFault;
use crate::hits::{Hit, add_hits, put_in_order};
use crate::places::further;
use sno_edit::{EditRules, Position};
use sno_pattern::ByteText;
use sno_statement::{ByteBindings, matches_are_in_order, the_first_is_the_plain_match};
use std::alloc::{AllocError, Global};

/// A match of a statement in a file.
#[derive(Drop)]
pub struct Finding<'t> {
    /// The number of the statement, from 1.
    pub statement: u32,
    /// Where the match starts: its line, its column and its byte.
    pub start: Position,
    /// How many bytes come before its end.
    pub end: usize,
    /// The variables that the match assigned, with their values.
    pub bindings: ByteBindings<'t>,
}

/// Hits as findings, with the position of each start. They are in order, so the text is gone through once.
pub(crate) fn findings_of<'t>(
    alloc: Global,
    text: &ByteText,
    hits: Vec<Hit<'t>>,
) -> Result<Vec<Finding<'t>>, AllocError>
    requires { AreRising (length text.now) 0 (hits_seen hits.items) }
    ensures { IfOk result (λ findings. findings.items ≡ map (finding_of text.now) (hits_seen hits.entry.items)) }
{
    let bytes = text.bytes();
    let mut findings = Vec::with_capacity(alloc, hits.len())?;
    let mut start = Position {
        place: 0,
        line: 1,
        column: 1,
    };
    for hit in hits {
        start = further(bytes, start, hit.found.start);
        findings.push(Finding {
            statement: hit.statement,
            start,
            end: hit.found.end,
            bindings: hit.found.bindings,
        })?;
    }
    Ok(findings)
}

/// The hits of all statements of the rules, one statement after the other. Refused as the first statement that is refused.
fn hits_in<'t>(
    alloc: Global,
    rules: &EditRules,
    path: &str,
    text: &'t ByteText,
) -> Result<Vec<Hit<'t>>, FindFault>
    ensures found { IfOk result (λ hits. hits_seen hits.items ≡ all_hits (rules_seen rules.now).trials path.now text.now (rules_seen rules.now).statements) }
    ensures within { IfOk result (λ _. first_refused (rules_seen rules.now).trials path.now text.now (rules_seen rules.now).statements ≡ None) }
    ensures refused { IfErr result (HasCause (rules_seen rules.now) path.now text.now) }
{
    let mut hits = Vec::new(alloc);
    let trials = rules.trials();
    let statements = rules.statements();
    for statement in statements {
        add_hits(alloc, trials, statement, path, text, &mut hits)?;
    }
    Ok(hits)
}

/// Returns what the statements of the rules match in the text of the file with this path. No text is changed, and no object is
/// looked at.
///
/// A statement is sought if it is for the file: if the name of its text is the path, or `*`. Of a statement for all matches all of
/// them are found, of any other the first. Findings are in the order of their start, and those that start at one place in the order
/// of their statements' numbers. Their strings are lent from the text.
///
/// Refused with
///
/// - `TooManyTrials` as the first statement for the file that takes more trials than the rules allow on this text, exactly then;
/// - `HistoryTooLong` only if a search of the statement with that number would have to keep more than `sno_machine::MAX_KEPT`
///   entries in its history, and `Memory` if out of memory; each so instead of a refusal that would have come later.
pub fn find_in<'t>(
    alloc: Global,
    rules: &EditRules,
    path: &str,
    text: &'t ByteText,
) -> Result<Vec<Finding<'t>>, FindFault>
    ensures found { IfOk result (λ findings. AreFound (rules_seen rules.now) path.now text.now findings.items) }
    ensures within { IfOk result (λ _. first_refused (rules_seen rules.now).trials path.now text.now (rules_seen rules.now).statements ≡ None) }
    ensures refused { IfErr result (HasCause (rules_seen rules.now) path.now text.now) }
{
    // for the proof
    matches_are_in_order();
    the_first_is_the_plain_match();
    let mut hits = hits_in(alloc, rules, path, text)?;
    put_in_order(&mut hits)?;
    let findings = findings_of(alloc, text, hits)?;
    Ok(findings)
}
