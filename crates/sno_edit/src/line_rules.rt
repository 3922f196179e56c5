//! Rules and definitions in lines, as the rows of a document have them.
ghost use Rattle.std.specs.Prelude.{◌≡◌, IfNone, IfSome, IsUtf8, MatchOption};
ghost use Rattle.std.specs.Option.{option_map};
ghost use Rattle.sno_document.specs.DocumentRows.{pair_seen, statement_seen};
ghost use Rattle.sno_edit.specs.LineRules.{row_of};

use sno_document::StatementRow;
use sno_rules::{LineDefinition, LineRule};

/// The characters as a text; `None` if they are not UTF-8.
fn text_of(characters: &[u8]) -> Option<&str>
    ensures { MatchOption result (IsUtf8 characters.now → ⊥) (λ s. s.now ≡ characters.now) }
{
    match str::from_utf8(characters) {
        Ok(text) => Some(text),
        Err(_) => None,
    }
}

/// A definition's name and pattern; `None` if one of them is not UTF-8.
pub fn definition_row<'t>(definition: LineDefinition<'t>) -> Option<(&'t str, &'t str)>
    ensures row { IfSome result (λ row. pair_seen row ≡ (definition.entry.name.now, definition.entry.pattern.now)) }
    ensures utf8 { IfNone result (IsUtf8 definition.entry.name.now → IsUtf8 definition.entry.pattern.now → ⊥) }
{
    let name = text_of(definition.name)?;
    let pattern = text_of(definition.pattern)?;
    Some((name, pattern))
}

/// A part that may be missing; `None` if it is there and not UTF-8.
fn optional_text<'t>(characters: Option<&'t [u8]>) -> Option<Option<&'t str>>
    ensures text { IfSome result (λ s. option_map (λ t. t.now) s ≡ option_map (λ t. t.now) characters.entry) }
    ensures utf8 { IfNone result (IfSome characters.entry (λ t. IsUtf8 t.now) → ⊥) }
{
    match characters {
        None => Some(None),
        Some(characters) => Some(Some(text_of(characters)?)),
    }
}

/// A rule as the row of a statement. It is for every file if it names none, and for all matches unless it says that it is for the
/// first alone or repeated.
///
/// `None` if one of its parts is not UTF-8.
pub fn rule_row<'t>(rule: LineRule<'t>) -> Option<StatementRow<'t>>
    ensures row { IfSome result (λ row. statement_seen row ≡ row_of rule.entry) }
    ensures utf8 { IfNone result (IsUtf8 rule.entry.pattern.now → IfSome rule.entry.object (λ t. IsUtf8 t.now) → IfSome rule.entry.repeat (λ t. IsUtf8 t.now) → IfSome rule.entry.text (λ t. IsUtf8 t.now) → ⊥) }
{
    let pattern = text_of(rule.pattern)?;
    let object = optional_text(rule.object)?;
    let repeat = optional_text(rule.repeat)?;
    let text = optional_text(rule.text)?;
    Some(StatementRow {
        text: text.unwrap_or("*"),
        pattern,
        object,
        anchored: if rule.anchored { Some(true) } else { None },
        repeat,
        all: Some(!rule.first && repeat.is_none()),
    })
}
