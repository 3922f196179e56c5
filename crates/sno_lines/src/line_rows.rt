//! The rows of rules and definitions in lines, as `sno_document` reads them.

use crate::spelled_lines::{SpelledDefinition, SpelledLines, SpelledRule};
use sno_document::StatementRow;
use sno_edit::{definition_row, rule_row};
use sno_rules::{LineDefinition, LineRule};
use std::alloc::{AllocError, Global};

/// The names and patterns of definitions.
pub type PatternRows<'s> = Vec<(&'s str, &'s str)>;

/// Rules.
pub type RuleRows<'s> = Vec<StatementRow<'s>>;

/// The row of a definition. What is spelled is UTF-8, as its line is; one that isn't would be refused as it is read.
fn pair_of<'s>(definition: &'s SpelledDefinition<'_>) -> (&'s str, &'s str) {
    let row = definition_row(LineDefinition {
        name: definition.name,
        pattern: definition.pattern.spelling.characters(),
    });
    row.unwrap_or(("", ""))
}

/// A rule without any characters, which is refused as it is read. It takes the place of one whose parts are not UTF-8; a line has
/// no such parts.
fn no_rule<'a>() -> StatementRow<'a> {
    StatementRow {
        text: "",
        pattern: "",
        object: None,
        anchored: None,
        repeat: None,
        all: None,
    }
}

/// The row of a rule.
fn row_of<'s>(rule: &'s SpelledRule<'_>) -> StatementRow<'s> {
    let object = match &rule.object {
        Some(object) => Some(object.spelling.characters()),
        None => None,
    };
    let row = rule_row(LineRule {
        pattern: rule.pattern.spelling.characters(),
        object,
        first: rule.rule.first,
        anchored: rule.rule.anchored,
        repeat: rule.rule.repeat,
        text: rule.rule.text,
    });
    row.unwrap_or(no_rule())
}

/// The rows of the definitions and of the rules, each at the place of its line. Refused only if memory runs out.
pub fn rows_of<'s>(
    alloc: Global,
    lines: &'s SpelledLines<'_>,
) -> Result<(PatternRows<'s>, RuleRows<'s>), AllocError> {
    let mut definitions = Vec::new(alloc);
    for definition in &lines.definitions {
        definitions.push(pair_of(definition))?;
    }
    let mut rules = Vec::new(alloc);
    for rule in &lines.rules {
        rules.push(row_of(rule))?;
    }
    Ok((definitions, rules))
}
