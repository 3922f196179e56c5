//! Rules that are given in lines.
ghost use Rattle.sno_statement.specs.Statement.{IsLimit};

pub(crate) use crate::given_lines::RuleLines;
use crate::given_lines::{NoRules, no_rules, read_lines, rule_files};
use crate::unassigned::{Unassigned, unassigned_in};
use sno_document::{DocumentFault, FileRules, Mode, rules_of_rows};
use sno_edit::{EditRules, Trials};
use sno_lines::{
    GivenLines, LineMistake, PatternRows, RuleRows, Source, SpelledLines, lines_of_mistake,
    mistake_of_fault, rows_of,
};
use std::alloc::{AllocError, Global};
use std::rt::Files;

/// Why there are no rules, if the rows of the lines have this fault.
fn refused(alloc: Global, lines: &SpelledLines<'_>, fault: DocumentFault) -> NoRules {
    if fault == DocumentFault::Memory {
        return NoRules::from(AllocError);
    }
    let Ok(mistake) = mistake_of_fault(alloc, lines, fault) else {
        return NoRules::from(AllocError);
    };
    match lines_of_mistake(alloc, &mistake) {
        Ok(text) => NoRules::Refused(text),
        Err(refused) => NoRules::from(refused),
    }
}

/// The rows of the lines. Refused with the first line that can't be spelled.
fn whole_rows<'s>(
    alloc: Global,
    lines: &'s SpelledLines<'_>,
) -> Result<(PatternRows<'s>, RuleRows<'s>), NoRules> {
    match lines.mistakes.first() {
        Some(mistake) => Err(NoRules::Refused(lines_of_mistake(alloc, mistake)?)),
        None => Ok(rows_of(alloc, lines)?),
    }
}

/// Refuses rules if the object of one has a variable that its pattern doesn't assign.
fn refuse_unassigned(
    alloc: Global,
    lines: &SpelledLines<'_>,
    rules: &EditRules,
) -> Result<(), NoRules> {
    let Some(Unassigned { number, message }) = unassigned_in(alloc, rules)? else {
        return Ok(());
    };
    let source = match lines.rules.get(number.saturating_sub(1)) {
        Some(rule) => rule.line.source,
        None => Source::Option,
    };
    let mistake = LineMistake {
        source,
        fault: format!(in alloc; "statement {number}: {message}")?,
        excerpt: None,
        advice: String::new(alloc),
    };
    Err(NoRules::Refused(lines_of_mistake(alloc, &mistake)?))
}

fn rules_of_spelled(
    alloc: Global,
    lines: &SpelledLines<'_>,
    anchor: bool,
    trials: Trials,
) -> Result<EditRules, NoRules> {
    let (definitions, rules) = whole_rows(alloc, lines)?;
    match EditRules::of_rows(alloc, definitions, rules, anchor, trials) {
        Ok(rules) => {
            refuse_unassigned(alloc, lines, &rules)?;
            Ok(rules)
        }
        Err(fault) => Err(refused(alloc, lines, fault)),
    }
}

fn file_rules_of_spelled(
    alloc: Global,
    lines: &SpelledLines<'_>,
    mode: Mode,
) -> Result<FileRules, NoRules>
    requires { IsLimit mode.trials }
{
    let (definitions, rules) = whole_rows(alloc, lines)?;
    match rules_of_rows(alloc, definitions, rules, mode) {
        Ok(rules) => Ok(rules),
        Err(fault) => Err(refused(alloc, lines, fault)),
    }
}

fn rules_of_given(
    alloc: Global,
    lines: &GivenLines<'_>,
    anchor: bool,
    trials: Trials,
) -> Result<EditRules, NoRules> {
    let spelled = SpelledLines::of(alloc, lines)?;
    rules_of_spelled(alloc, &spelled, anchor, trials)
}

fn file_rules_of_given(
    alloc: Global,
    lines: &GivenLines<'_>,
    mode: Mode,
) -> Result<FileRules, NoRules>
    requires { IsLimit mode.trials }
{
    let spelled = SpelledLines::of(alloc, lines)?;
    file_rules_of_spelled(alloc, &spelled, mode)
}

/// The rules that are given in lines, by options and in files. Refused also if the object of one has a variable that no part of its
/// pattern assigns.
pub(crate) fn rules_of_lines<R: Files + AllocGlobal>(
    rt: &R,
    alloc: Global,
    given: &RuleLines<'_>,
    anchor: bool,
    trials: Trials,
) -> Result<EditRules, NoRules> {
    let files = rule_files(rt, alloc, given)?;
    match read_lines(alloc, &files, given) {
        Ok(lines) => rules_of_given(alloc, &lines, anchor, trials),
        Err(reason) => Err(no_rules(alloc, reason)),
    }
}

/// The rules that are given in lines, performed in this way.
pub(crate) fn file_rules_of_lines<R: Files + AllocGlobal>(
    rt: &R,
    alloc: Global,
    given: &RuleLines<'_>,
    mode: Mode,
) -> Result<FileRules, NoRules>
    requires { IsLimit mode.trials }
{
    let files = rule_files(rt, alloc, given)?;
    match read_lines(alloc, &files, given) {
        Ok(lines) => file_rules_of_given(alloc, &lines, mode),
        Err(reason) => Err(no_rules(alloc, reason)),
    }
}
