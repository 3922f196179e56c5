//! How many characters a new text has, which is known before any is copied.
ghost use Rattle.std.specs.Prelude.{◌≡◌, ◌+◌, ◌*◌, ◌≤◌, ◌<◌, IfSome, IfNone, length};
ghost use Rattle.std.specs.Fmt.{decimal};
ghost use Rattle.sno_statement.specs.Passes.{replaced};
ghost use Rattle.sno_statement.specs.Value.{part_value, value_of, new_text};

use crate::match_lists::Matches;
use crate::values::{back, between, front};
use crate::{BindingsRef, DatumRef};
use sno_pattern::{MAX_TEXT, Text};
use sno_read::Part;

/// How many digits a number has.
#[tactic(auto, using(crate::proofs::Decimals::one_digit, crate::proofs::Decimals::one_digit_more))]
pub(crate) fn decimal_length(number: u32) -> usize
    ensures { result ≡ length (decimal number) }
{
    if number < 10 {
        return 1;
    }
    decimal_length(number / 10) + 1
}

/// How many characters a part's value has.
#[tactic(auto, using(crate::proofs::Decimals::few_digits))]
fn part_length(part: &Part, bindings: &BindingsRef<'_>) -> usize
    ensures value { result ≡ length (part_value bindings.now part.now) }
    ensures short { result ≤ MAX_TEXT }
{
    match part {
        Part::Quoted(text) => text.bytes().len(),
        Part::Var(name) => match bindings.value(name) {
            None => 0,
            Some(DatumRef::Str(text)) => text.bytes().len(),
            Some(DatumRef::Int(number)) => decimal_length(number),
        },
    }
}

/// How many characters the text has when the object's value replaces the part between two cursors; `None` if they are more
/// than a text can have.
pub(crate) fn new_length(
    subject: &Text,
    start: usize,
    end: usize,
    parts: &[Part],
    bindings: &BindingsRef<'_>,
) -> Option<usize>
    ensures value { IfSome result (λ n. n ≡ length (new_text subject.now start end (value_of bindings.now parts.now))) }
    ensures short { IfSome result (λ n. n ≤ MAX_TEXT) }
    ensures long { IfNone result (MAX_TEXT < length (new_text subject.now start end (value_of bindings.now parts.now))) }
{
    let kept = front(subject.bytes(), start).len() + back(subject.bytes(), end).len();
    with_value(kept, parts, bindings)
}

/// This many characters and those of the object's value; `None` if they are more than a text can have.
pub(crate) fn with_value(
    already: usize,
    parts: &[Part],
    bindings: &BindingsRef<'_>,
) -> Option<usize>
    requires { already ≤ 2 * MAX_TEXT }
    ensures value { IfSome result (λ n. n ≡ already + length (value_of bindings.now parts.now)) }
    ensures short { IfSome result (λ n. n ≤ MAX_TEXT) }
    ensures long { IfNone result (MAX_TEXT < already + length (value_of bindings.now parts.now)) }
{
    let mut total = already;
    for part in parts {
        if total > MAX_TEXT {
            return None;
        }
        total += part_length(part, bindings);
    }
    if total > MAX_TEXT { None } else { Some(total) }
}

/// How many characters the text has when the object's value replaces each of these matches; `None` if they are more than a text
/// can have.
pub(crate) fn replaced_length(subject: &Text, parts: &[Part], matches: &Matches) -> Option<usize>
    ensures value { IfSome result (λ n. n ≡ length (replaced parts.now subject.now 0 matches.now)) }
    ensures short { IfSome result (λ n. n ≤ MAX_TEXT) }
    ensures long { IfNone result (MAX_TEXT < length (replaced parts.now subject.now 0 matches.now)) }
{
    let mut total = 0;
    let mut cursor = 0;
    for place in 0..matches.len() {
        let Some(m) = matches.get(place) else {
            unreachable!();
        };
        let kept = between(subject.bytes(), cursor, m.start).len();
        total = with_value(total + kept, parts, &m.bindings)?;
        cursor = m.end;
    }
    total += back(subject.bytes(), cursor).len();
    if total <= MAX_TEXT { Some(total) } else { None }
}
