//! Rules and definitions in one line.
ghost use Rattle.std.specs.Prelude.{◌≡◌, length};
ghost use Rattle.std.specs.Option.{option_map};
ghost use Rattle.sno_rules.specs.Lines.{object_in};
ghost use Rattle.sno_rules.specs.Rules.{GivesDefinition, IsRule};

use crate::LineFault;
use crate::fields::{Fields, fields_in};
use crate::pieces::trimmed;
use crate::signs::split;

/// A rule as it is written: the characters of its parts.
#[derive(Clone, Copy)]
pub struct LineRule<'t> {
    /// The pattern. The line begins with it.
    pub pattern: &'t [u8],
    /// The object, if there is a `=`.
    pub object: Option<&'t [u8]>,
    /// Whether it is for the first match alone (`:first`).
    pub first: bool,
    /// Whether it is anchored (`:anchored`).
    pub anchored: bool,
    /// How often it is repeated, as it is written (`:repeat 20`).
    pub repeat: Option<&'t [u8]>,
    /// For which file it is (`:in 'NAME'`).
    pub text: Option<&'t [u8]>,
}

/// A definition as it is written.
#[derive(Clone, Copy)]
pub struct LineDefinition<'t> {
    /// The name, without blanks around it.
    pub name: &'t [u8],
    /// The pattern.
    pub pattern: &'t [u8],
}

/// The object after the pattern, if the text begins with the sign before it.
fn object_in(text: &[u8]) -> Option<&[u8]>
    ensures { option_map (λ s. s.now) result ≡ object_in text.now }
{
    let (_, object) = text.split_first()?;
    Some(object)
}

/// The rule that a line is. The first `=` in no quotes ends the pattern, and the first `:` in no quotes begins the fields. The line
/// takes no memory, and of its parts nothing is read.
///
/// Refused: `UnknownField` with the place of the first field other than `first`, `anchored`, `repeat N` and `in 'NAME'`.
pub fn read_rule(line: &[u8]) -> Result<LineRule<'_>, LineFault>
    ensures { IsRule line.now result }
{
    let (body, fields) = split(line, b':');
    let (pattern, rest) = split(body, b'=');
    let Fields {
        first,
        anchored,
        repeat,
        text,
    } = fields_in(line.len(), fields)?;
    Ok(LineRule {
        pattern,
        object: object_in(rest),
        first,
        anchored,
        repeat,
        text,
    })
}

/// The definition that a line is: a name, a `=` and a pattern.
///
/// Refused: `NoEqualsSign` for a line without a `=` in no quotes.
pub fn read_definition(line: &[u8]) -> Result<LineDefinition<'_>, LineFault>
    ensures { GivesDefinition result line.now }
{
    let (name, rest) = split(line, b'=');
    match rest.split_first() {
        None => Err(LineFault::NoEqualsSign),
        Some((_, pattern)) => Ok(LineDefinition {
            name: trimmed(name),
            pattern,
        }),
    }
}
