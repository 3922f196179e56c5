//! Patterns that are read from lines.
ghost use Rattle.std.specs.Prelude.{◌≡◌, ◌∷◌, [], IfOk, IfSome};
ghost use Rattle.std.specs.Option.{option_map};
ghost use Rattle.sno_document.specs.Rules.{AreRules, rules_seen};
ghost use Rattle.sno_document.specs.DocumentRows.{pair_seen, statement_seen};
ghost use Rattle.sno_seek.specs.Opening.{IsOpened};

use crate::Seeker;
use sno_document::{DocumentFault, FileRules, Mode, rules_of_rows};
use sno_lines::{
    GivenLines, LineMistake, NoLines, SpelledLines, lines_of_mistake, mistake_of_fault, rows_of,
};
use sno_rules::{LineKind, RuleFileFault, lines_of};
use sno_statement::{FileStatement, USUAL_TRIALS};
use std::alloc::{AllocError, AllocFailed, Global};

/// How statements are performed; each search has a limit of its own.
const USUAL: Mode = Mode {
    anchor: false,
    trials: USUAL_TRIALS,
};

/// What the bytes of the definitions are called in a fault.
const DEFINITIONS: &str = "definitions";

/// Why there is no pattern.
#[derive(Debug, Drop)]
pub enum NoPattern {
    /// The fault of the rule or of a definition, in lines: the fault itself, the characters around its place if it has one, and what
    /// to write instead.
    Refused(String),
    /// Out of memory.
    Memory,
}

impl From<AllocError> for NoPattern {
    fn from(_refused: AllocError) -> NoPattern {
        NoPattern::Memory
    }
}

impl<T: Drop> From<AllocFailed<T>> for NoPattern {
    fn from(_refused: AllocFailed<T>) -> NoPattern {
        NoPattern::Memory
    }
}

/// A fault that has no place in a line.
fn refused(alloc: Global, why: &str) -> NoPattern {
    match String::from_str(alloc, why) {
        Ok(why) => NoPattern::Refused(why),
        Err(_) => NoPattern::Memory,
    }
}

/// The fault of a line.
fn mistaken(alloc: Global, mistake: &LineMistake<'_>) -> NoPattern {
    match lines_of_mistake(alloc, mistake) {
        Ok(lines) => NoPattern::Refused(lines),
        Err(_) => NoPattern::Memory,
    }
}

/// Why lines are no rules, if their rows have this fault.
fn faulty(alloc: Global, lines: &SpelledLines<'_>, fault: DocumentFault) -> NoPattern {
    if fault == DocumentFault::Memory {
        return NoPattern::Memory;
    }
    match mistake_of_fault(alloc, lines, fault) {
        Ok(mistake) => mistaken(alloc, &mistake),
        Err(_) => NoPattern::Memory,
    }
}

/// Refuses lines among which there is a rule. Other faults of them are found when they are read.
fn check_definitions(alloc: Global, definitions: &[u8]) -> Result<(), NoPattern> {
    match lines_of(alloc, definitions) {
        Err(RuleFileFault::Memory) => Err(NoPattern::Memory),
        Err(_) => Ok(()),
        Ok(lines) => {
            if lines.iter().any(|line| line.kind == LineKind::Rule) {
                Err(refused(
                    alloc,
                    "definitions: a line begins with a blank, as a rule does\n",
                ))
            } else {
                Ok(())
            }
        }
    }
}

/// The lines of the definitions and of the rule.
fn given<'l>(
    alloc: Global,
    definitions: &'l [u8],
    rule: &'l [u8],
) -> Result<GivenLines<'l>, NoPattern> {
    let Ok(rule) = str::from_utf8(rule) else {
        return Err(refused(alloc, "rule 1: not UTF-8\n"));
    };
    check_definitions(alloc, definitions)?;
    let mut lines = GivenLines::none(alloc);
    match lines.put_file(alloc, DEFINITIONS, true, definitions) {
        Ok(()) => {
            lines.put_rules(alloc, &[rule])?;
            Ok(lines)
        }
        Err(NoLines::Refused(mistake)) => Err(mistaken(alloc, &mistake)),
        Err(NoLines::Memory) => Err(NoPattern::Memory),
    }
}

/// The statement of rules that have only one.
fn only_statement(rules: FileRules) -> Option<FileStatement>
    ensures { IfSome result (λ s. (rules_seen rules).statements ≡ s ∷ []) }
{
    let FileRules { mut statements, .. } = rules;
    let statement = statements.pop()?;
    if statements.is_empty() {
        Some(statement)
    } else {
        None
    }
}

/// The pattern of lines that are spelled.
fn seeker_of(alloc: Global, lines: &SpelledLines<'_>) -> Result<Seeker, NoPattern>
    ensures { IfOk result IsOpened }
{
    if let Some(mistake) = lines.mistakes.first() {
        return Err(mistaken(alloc, mistake));
    }
    let (definitions, rules) = rows_of(alloc, lines)?;
    match rules_of_rows(alloc, definitions, rules, USUAL) {
        Err(fault) => Err(faulty(alloc, lines, fault)),
        Ok(rules) => match only_statement(rules) {
            Some(statement) => {
                let seeker = Seeker::new(alloc, statement)?;
                Ok(seeker)
            }
            None => Err(refused(alloc, "rule 1: not one rule\n")),
        },
    }
}

/// The pattern of lines that are given.
fn of_given(alloc: Global, lines: &GivenLines<'_>) -> Result<Seeker, NoPattern>
    ensures { IfOk result IsOpened }
{
    let spelled = SpelledLines::of(alloc, lines)?;
    seeker_of(alloc, &spelled)
}

/// Reads a rule in a line, as `sno edit -e` does, and the definitions that it may refer to, as a file of them has them: each on a
/// line of its own. Definitions that the rule doesn't need are not looked at.
///
/// Refused with the first fault:
///
/// - the rule or a definition is not UTF-8;
/// - a line of the definitions is none;
/// - a definition or the rule can't be read, as `sno edit` reports it;
///
/// or with `Memory`, which may come instead of any of these.
pub fn open(alloc: Global, definitions: &[u8], rule: &[u8]) -> Result<Seeker, NoPattern>
    ensures { IfOk result IsOpened }
{
    match given(alloc, definitions, rule) {
        Ok(lines) => of_given(alloc, &lines),
        Err(reason) => Err(reason),
    }
}
