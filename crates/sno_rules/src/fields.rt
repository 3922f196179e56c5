//! The fields of a rule.
ghost use Rattle.std.specs.Prelude.{◌≡◌, ◌≤◌, ◌&&◌, length, not};
ghost use Rattle.std.specs.Option.{option_map};
ghost use Rattle.sno_rules.specs.Lines.{Gives, fields_seen, is_nothing, no_fields, same, with_field, with_text};
ghost use Rattle.sno_rules.specs.Rules.{FieldsGive};

use crate::LineFault;
use crate::pieces::{trimmed, unquoted, word_and_argument};
use crate::signs::split;

/// What the fields of a rule say.
#[derive(Clone, Copy)]
pub(crate) struct Fields<'t> {
    /// Whether it is for the first match alone.
    pub(crate) first: bool,
    /// Whether it is anchored.
    pub(crate) anchored: bool,
    /// How often it is repeated, as it is written.
    pub(crate) repeat: Option<&'t [u8]>,
    /// For which file it is.
    pub(crate) text: Option<&'t [u8]>,
}

/// The fields of a rule for the file with this name, if there is one.
fn with_text<'t>(
    fields: Fields<'t>,
    unknown: LineFault,
    name: Option<&'t [u8]>,
) -> Result<Fields<'t>, LineFault>
    ensures { Gives result (with_text (fields_seen fields.entry) unknown (option_map (λ s. s.now) name.entry)) }
{
    if name.is_none() {
        return Err(unknown);
    }
    let mut named = fields;
    named.text = name;
    Ok(named)
}

/// Whether the word is the wanted one, and nothing comes after it.
fn is_alone(word: &[u8], argument: &[u8], wanted: &[u8]) -> bool
    ensures { result ≡ same word.now wanted.now && is_nothing argument.now }
{
    word == wanted && argument.is_empty()
}

/// Whether the word is the wanted one, and something comes after it.
fn has_argument(word: &[u8], argument: &[u8], wanted: &[u8]) -> bool
    ensures { result ≡ same word.now wanted.now && not (is_nothing argument.now) }
{
    word == wanted && !argument.is_empty()
}

/// The fields with one more, which comes after this many characters of the line.
fn with_field<'t>(
    fields: Fields<'t>,
    place: usize,
    field: &'t [u8],
) -> Result<Fields<'t>, LineFault>
    ensures { Gives result (with_field (fields_seen fields.entry) place field.now) }
{
    let (word, argument) = word_and_argument(trimmed(field));
    let mut more = fields;
    if is_alone(word, argument, b"first") {
        more.first = true;
        return Ok(more);
    }
    if is_alone(word, argument, b"anchored") {
        more.anchored = true;
        return Ok(more);
    }
    if has_argument(word, argument, b"repeat") {
        more.repeat = Some(argument);
        return Ok(more);
    }
    if word == b"in".as_slice() {
        return with_text(fields, LineFault::UnknownField(place), unquoted(argument));
    }
    Err(LineFault::UnknownField(place))
}

/// The fields of the text, which is empty or begins with a colon. `total` is how many characters the line has.
pub(crate) fn fields_in<'t>(total: usize, text: &'t [u8]) -> Result<Fields<'t>, LineFault>
    requires { length text.now ≤ total }
    ensures { FieldsGive total no_fields text.now result }
{
    let mut fields = Fields {
        first: false,
        anchored: false,
        repeat: None,
        text: None,
    };
    let mut rest = text;
    while let Some((_, after)) = rest.split_first() {
        let (field, next) = split(after, b':');
        match with_field(fields, total - after.len(), field) {
            Err(fault) => return Err(fault),
            Ok(more) => fields = more,
        }
        rest = next;
    }
    Ok(fields)
}
