//! Warnings of what patterns and objects probably don't mean.

use crate::ascii::text_of;
use crate::collector::Collector;
use crate::edges::{Blocked, always_matches};
use crate::facts::{Facts, escape_in, has_what_is_sought};
use crate::found_again::may_find_again;
use crate::spelling::nearest;
use crate::{Form, Place, Whose};
use sno_pattern::{Name, Pattern};
use sno_read::{ByteObject, BytePart};
use std::alloc::{AllocError, Global};

fn warn_of_escape(
    findings: &mut Collector,
    whose: Whose,
    escape: Option<u8>,
) -> Result<(), AllocError> {
    let Some(letter) = escape else {
        return Ok(());
    };
    let called = whose.called();
    let letter = char::from(letter);
    let instead = match findings.form {
        Form::Json => "JSON has the character if its string has one backslash",
        Form::Lines => "NL is a line end, CR a carriage return and HT a tab, outside of quotes",
    };
    let message = format!(in findings.alloc;
        "{called}: \\{letter} is a backslash and a letter here; {instead}"
    )?;
    findings.warn(whose.place(), message)
}

fn warn_of_range(
    findings: &mut Collector,
    whose: Whose,
    range: Option<(u8, u8)>,
) -> Result<(), AllocError> {
    let Some((first, last)) = range else {
        return Ok(());
    };
    let first = char::from(first);
    let last = char::from(last);
    let message = format!(in findings.alloc;
        "pattern: {first}-{last} in a set is three characters, not a range; write all of them"
    )?;
    findings.warn(whose.place(), message)
}

fn warn_of_rounds(
    findings: &mut Collector,
    whose: Whose,
    repeats_rounds: bool,
) -> Result<(), AllocError> {
    if !repeats_rounds {
        return Ok(());
    }
    let message = String::from_str(
        findings.alloc,
        "pattern: ARBNO in ARBNO tries each way to divide the text into rounds within rounds; write one ARBNO",
    )?;
    findings.warn(whose.place(), message)
}

fn warn_of_ambiguity(
    findings: &mut Collector,
    whose: Whose,
    what: &str,
    is_ambiguous: bool,
) -> Result<(), AllocError> {
    if !is_ambiguous {
        return Ok(());
    }
    let message = format!(in findings.alloc;
        "pattern: {what} can take the same characters in more than one way, so a match that fails may reach its limit of trials"
    )?;
    findings.warn(whose.place(), message)
}

/// Whether the name is that of a variable which other implementations print, or read from.
fn is_of_streams(name: &Name) -> bool {
    [b"OUTPUT".as_slice(), b"INPUT", b"TERMINAL"]
        .iter()
        .any(|word| name.bytes() == *word)
}

fn warn_of_streams(
    findings: &mut Collector,
    whose: Whose,
    variables: &[Name],
) -> Result<(), AllocError> {
    let Some(name) = variables.iter().find(|name| is_of_streams(name)) else {
        return Ok(());
    };
    let word = text_of(name.bytes());
    let message = format!(in findings.alloc;
        "pattern: {word} is a variable as any other: nothing is written or read; a statement for all matches lists each, and `sno trace` shows how one goes"
    )?;
    findings.warn(whose.place(), message)
}

/// A character as a warning has it. A byte above 127 is a part of one, and isn't shown.
fn character_shown(alloc: Global, character: u8) -> Result<String, AllocError> {
    if character > 127 {
        return String::from_str(alloc, "what isn't ASCII");
    }
    let character = char::from(character);
    format!(in alloc; "{character:?}")
}

fn warn_of_blocked(
    findings: &mut Collector,
    whose: Whose,
    blocked: Option<Blocked>,
) -> Result<(), AllocError> {
    let alloc = findings.alloc;
    let message = match blocked {
        None => return Ok(()),
        Some(Blocked::BySpan(character)) => {
            let character = character_shown(alloc, character)?;
            format!(in alloc;
                "pattern: no match goes on with {character} after SPAN, which takes all characters of its set and gives none back"
            )?
        }
        Some(Blocked::ByBreak(character)) => {
            let character = character_shown(alloc, character)?;
            format!(in alloc;
                "pattern: no match goes on with {character} after BREAK, which ends before a character of its set"
            )?
        }
    };
    findings.warn(whose.place(), message)
}

/// Warns of what is strange in a pattern itself. Refused only if memory runs out.
pub fn warn_of_facts(
    findings: &mut Collector,
    whose: Whose,
    facts: &Facts,
) -> Result<(), AllocError> {
    warn_of_range(findings, whose, facts.range)?;
    warn_of_escape(findings, whose, facts.escape)?;
    warn_of_rounds(findings, whose, facts.repeats_rounds)?;
    warn_of_ambiguity(findings, whose, "rounds of ARBNO", facts.is_ambiguous)?;
    warn_of_ambiguity(
        findings,
        whose,
        "a definition that goes on with itself",
        facts.goes_on_ambiguously,
    )?;
    warn_of_streams(findings, whose, &facts.variables)?;
    warn_of_blocked(findings, whose, facts.blocked)
}

fn words_of<'n>(alloc: Global, names: &'n [Name]) -> Result<Vec<&'n str>, AllocError> {
    let mut words = Vec::new(alloc);
    for name in names {
        words.push(text_of(name.bytes()))?;
    }
    Ok(words)
}

fn is_among(names: &[Name], wanted: &Name) -> bool {
    for name in names {
        if name.bytes() == wanted.bytes() {
            return true;
        }
    }
    false
}

fn warn_of_variable(
    findings: &mut Collector,
    place: Place,
    assigned: &[Name],
    variable: &Name,
) -> Result<(), AllocError> {
    let alloc = findings.alloc;
    let word = text_of(variable.bytes());
    let words = words_of(alloc, assigned)?;
    let message = match nearest(alloc, word, &words)? {
        Some(meant) => format!(in alloc;
            "object: no part of the pattern assigns {word}; did you mean {meant}?"
        )?,
        None => format!(in alloc;
            "object: no part of the pattern assigns {word}, so it is the null string; characters are written in quotes, as '{word}'"
        )?,
    };
    findings.warn(place, message)
}

/// Warns of each variable of the object that is not assigned, once. Refused only if memory runs out.
pub fn warn_of_variables(
    findings: &mut Collector,
    place: Place,
    assigned: &[Name],
    object: &ByteObject,
) -> Result<(), AllocError> {
    let mut seen = Vec::new(findings.alloc);
    for part in object.parts() {
        if let BytePart::Var(name) = part {
            if !is_among(assigned, name) && !is_among(&seen, name) {
                warn_of_variable(findings, place, assigned, name)?;
                seen.push(*name)?;
            }
        }
    }
    Ok(())
}

/// Warns of what looks like an escape in a literal of the object. Refused only if memory runs out.
pub fn warn_of_literals(
    findings: &mut Collector,
    whose: Whose,
    object: &ByteObject,
) -> Result<(), AllocError> {
    let mut escape = None;
    for part in object.parts() {
        if let BytePart::Quoted(text) = part {
            if escape.is_none() {
                escape = escape_in(text.bytes());
            }
        }
    }
    warn_of_escape(findings, whose, escape)
}

/// Whether the object has what the pattern seeks; in its first part if the match is anchored, since that comes first.
fn finds_itself_again(pattern: &Pattern, anchored: bool, object: &ByteObject) -> bool {
    let parts = object.parts();
    let parts = match parts.get(..1) {
        Some(front) if anchored => front,
        _ => parts,
    };
    for part in parts {
        if let BytePart::Quoted(text) = part {
            if has_what_is_sought(pattern, anchored, text.bytes()) {
                return true;
            }
        }
    }
    false
}

/// Warns of a repeated statement whose pattern matches every text, or may find again what its object puts in. `bodies` has the
/// definitions, each if it can be read.
///
/// Refused only if memory runs out.
pub fn warn_of_growth(
    findings: &mut Collector,
    place: Place,
    bodies: &[Option<&Pattern>],
    pattern: &Pattern,
    anchored: bool,
    object: &ByteObject,
) -> Result<(), AllocError> {
    let one_pass = match findings.form {
        Form::Json => "\"all\": true is one pass",
        Form::Lines => "without :repeat the rule is for all matches in one pass",
    };
    let alloc = findings.alloc;
    let message = if always_matches(pattern, anchored) {
        String::from_str(
            alloc,
            "repeat: the pattern matches every text, so there are as many rounds as it says",
        )?
    } else if finds_itself_again(pattern, anchored, object) {
        format!(in alloc;
            "repeat: the object has what the pattern seeks, so each round finds it again; {one_pass}"
        )?
    } else if !anchored && may_find_again(bodies, pattern, object) {
        format!(in alloc; "repeat: a round may find again what the object puts in; {one_pass}")?
    } else {
        return Ok(());
    };
    findings.warn(place, message)
}

/// Warns of a statement whose text the document doesn't have. The names are sorted. Refused only if memory runs out.
pub fn warn_of_missing_text<'t>(
    findings: &mut Collector,
    place: Place,
    names: &[&'t str],
    name: &'t str,
) -> Result<(), AllocError> {
    if names.binary_search(&name).is_ok() {
        return Ok(());
    }
    let alloc = findings.alloc;
    let mut meant = None;
    if !findings.has_many() {
        meant = nearest(alloc, name, names)?;
    }
    let message = match meant {
        Some(meant) => format!(in alloc; "no text is called '{name}'; did you mean '{meant}'?")?,
        None => format!(in alloc; "no text is called '{name}'")?,
    };
    findings.warn(place, message)
}
