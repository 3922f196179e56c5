//! Faults of lines and of their parts, with their places in the lines.

use crate::given_lines::{GivenLine, Source};
use crate::spelled_lines::{SpelledLines, SpelledPart};
use sno_document::DocumentFault;
use sno_findings::{
    Excerpt, Mistake, Place, WIDE_SET_ADVICE, advice_of, around, habit_advice, place_of,
    reading_advice,
};
use sno_read::ReadFault;
use sno_rules::{LineFault, SpellingFault};
use std::alloc::{AllocError, Global};
use std::fmt::Display;

/// What is wanted in place of a field that is unknown.
const FIELDS: &str = ":first, :anchored, :repeat N or :in 'NAME' is wanted here";

/// What is wanted in a definition without a sign.
const DEFINITION: &str = "a definition is NAME = PATTERN";

/// Why lines are no rules, at one place.
#[derive(Debug, Drop)]
pub struct LineMistake<'l> {
    /// From where the line comes that has the fault.
    pub source: Source<'l>,
    /// The line of the fault, as it is written.
    pub fault: String,
    /// The characters around the place of the fault, if it has one.
    pub excerpt: Option<Excerpt>,
    /// What to write instead.
    pub advice: String,
}

/// A line with its number among the definitions or among the rules, from 1.
#[derive(Clone, Copy)]
struct NumberedLine<'l> {
    /// Whether it is a rule.
    is_rule: bool,
    /// Its number.
    number: usize,
    /// The line as it is given.
    given: &'l GivenLine<'l>,
}

/// What a line is called in a fault.
fn called(is_rule: bool) -> &'static str {
    if is_rule { "rule" } else { "definition" }
}

/// The fault of a line, with the characters around its place and what is wanted there.
fn pointed<'l, F: Display + Drop>(
    alloc: Global,
    line: NumberedLine<'l>,
    fault: F,
    place: usize,
    wanted: &str,
) -> Result<LineMistake<'l>, AllocError> {
    let called = called(line.is_rule);
    let number = line.number;
    Ok(LineMistake {
        source: line.given.source,
        fault: format!(in alloc; "{called} {number}: {fault}")?,
        excerpt: Some(around(alloc, &line.given.text, 0, place)?),
        advice: String::from_str(alloc, wanted)?,
    })
}

/// A fault of all lines, or of all of a file.
pub(crate) fn whole_mistake<'l>(
    alloc: Global,
    source: Source<'l>,
    fault: &str,
    advice: &str,
) -> Result<LineMistake<'l>, AllocError> {
    Ok(LineMistake {
        source,
        fault: String::from_str(alloc, fault)?,
        excerpt: None,
        advice: String::from_str(alloc, advice)?,
    })
}

/// The fault of a line.
pub(crate) fn fault_of_line<'l>(
    alloc: Global,
    is_rule: bool,
    number: usize,
    line: &'l GivenLine<'l>,
    fault: LineFault,
) -> Result<LineMistake<'l>, AllocError> {
    let (place, wanted) = match fault {
        LineFault::UnknownField(place) => (place, FIELDS),
        LineFault::NoEqualsSign => (line.text.len(), DEFINITION),
    };
    let line = NumberedLine {
        is_rule,
        number,
        given: line,
    };
    pointed(alloc, line, fault, place, wanted)
}

/// How many characters come before the place of a fault of a set, and what is wanted there.
fn place_and_advice(fault: &SpellingFault) -> (usize, &'static str) {
    match fault {
        SpellingFault::NotAscii(place) => (*place, WIDE_SET_ADVICE),
        SpellingFault::OpenQuote(place) => (
            *place,
            "this quote isn't closed; characters with ' in them go between \" and \"",
        ),
        SpellingFault::UnknownSet(place) => (
            *place,
            "no set has this name; LETTER, UPPER, LOWER, DIGIT, HEX, BLANK, WORD, NL, CR and HT are ready",
        ),
        SpellingFault::NoSet(place) => (
            *place,
            "a set is written in quotes or by its name, as in SPAN(LETTER '_')",
        ),
        SpellingFault::OpenArgument(place) => (*place, "a ) is wanted after the set of this"),
        SpellingFault::Memory => (0, "there is too little memory"),
    }
}

/// The fault of a set in a part of a line that begins after `begin` characters.
pub(crate) fn fault_of_spelling<'l>(
    alloc: Global,
    is_rule: bool,
    number: usize,
    line: &'l GivenLine<'l>,
    begin: usize,
    fault: SpellingFault,
) -> Result<LineMistake<'l>, AllocError> {
    let (place, wanted) = place_and_advice(&fault);
    let place = begin.saturating_add(place);
    let line = NumberedLine {
        is_rule,
        number,
        given: line,
    };
    match fault {
        SpellingFault::Memory => Err(AllocError),
        _ => pointed(alloc, line, fault, place, wanted),
    }
}

/// How many characters of its line come before a character that is spelled, which has this many before it.
fn place_in_line(part: &SpelledPart, at: usize) -> usize {
    let place = match part.spelling.origin(at) {
        None => at,
        Some(mark) if mark.copied => mark.place.saturating_add(at.saturating_sub(mark.before)),
        Some(mark) => mark.place,
    };
    part.begin.saturating_add(place)
}

/// The fault with its place moved to this one.
fn moved(fault: ReadFault, place: usize) -> ReadFault {
    match fault {
        ReadFault::Empty(_) => ReadFault::Empty(place),
        ReadFault::OpenQuote(_) => ReadFault::OpenQuote(place),
        ReadFault::Unexpected(_) => ReadFault::Unexpected(place),
        ReadFault::BadNumber(_) => ReadFault::BadNumber(place),
        ReadFault::UnknownName(_) => ReadFault::UnknownName(place),
        ReadFault::EmptySet(_) => ReadFault::EmptySet(place),
        ReadFault::TooDeep(_) => ReadFault::TooDeep(place),
        ReadFault::TooLong(_) => ReadFault::TooLong(place),
        ReadFault::ReservedTarget(_) => ReadFault::ReservedTarget(place),
        ReadFault::NonAscii(_) => ReadFault::NonAscii(place),
        ReadFault::Memory => ReadFault::Memory,
    }
}

/// The fault of a document with this fault of reading in its place.
fn with_reading(fault: DocumentFault, read: ReadFault) -> DocumentFault {
    match fault {
        DocumentFault::PatternRead(number, _) => DocumentFault::PatternRead(number, read),
        DocumentFault::StatementPattern(number, _) => DocumentFault::StatementPattern(number, read),
        DocumentFault::StatementObject(number, _) => DocumentFault::StatementObject(number, read),
        other => other,
    }
}

/// A mistake of a part of a line.
fn in_part<'l>(
    alloc: Global,
    mistake: Mistake,
    read: ReadFault,
    line: &'l GivenLine<'l>,
    part: &SpelledPart,
) -> Result<LineMistake<'l>, AllocError> {
    let place = place_in_line(part, place_of(&read));
    let fault = with_reading(mistake.fault, moved(read, place.saturating_sub(part.begin)));
    Ok(LineMistake {
        source: line.source,
        fault: format!(in alloc; "{fault}")?,
        excerpt: Some(around(alloc, &line.text, 0, place)?),
        advice: mistake.advice,
    })
}

/// A mistake that has no place in a line.
fn without_place<'l>(
    alloc: Global,
    mistake: Mistake,
    source: Source<'l>,
) -> Result<LineMistake<'l>, AllocError> {
    let fault = mistake.fault;
    Ok(LineMistake {
        source,
        fault: format!(in alloc; "{fault}")?,
        excerpt: mistake.excerpt,
        advice: mistake.advice,
    })
}

/// The element with this number, from 1.
fn numbered<T>(elements: &[T], number: usize) -> Option<&T> {
    elements.get(number.checked_sub(1)?)
}

/// The line of a definition or a rule, and whether it can't be spelled.
pub(crate) fn line_of<'l>(
    lines: &SpelledLines<'l>,
    place: Place,
) -> Option<(&'l GivenLine<'l>, bool)> {
    match place {
        Place::Pattern(number) => match numbered(&lines.definitions, number) {
            Some(definition) => Some((definition.line, definition.broken)),
            None => None,
        },
        Place::Statement(number) => match numbered(&lines.rules, number) {
            Some(rule) => Some((rule.line, rule.broken)),
            None => None,
        },
        Place::Document | Place::Patterns | Place::Texts | Place::Text(_) | Place::Statements => {
            None
        }
    }
}

/// The part of a line in which this fault is, with its fault of reading and whether it is an object.
fn part_of<'s>(
    lines: &'s SpelledLines<'_>,
    fault: &DocumentFault,
) -> Option<(&'s SpelledPart, ReadFault, bool)> {
    match *fault {
        DocumentFault::PatternRead(number, read) => {
            let definition = numbered(&lines.definitions, number)?;
            Some((&definition.pattern, read, false))
        }
        DocumentFault::StatementPattern(number, read) => {
            let rule = numbered(&lines.rules, number)?;
            Some((&rule.pattern, read, false))
        }
        DocumentFault::StatementObject(number, read) => {
            match &numbered(&lines.rules, number)?.object {
                Some(object) => Some((object, read, true)),
                None => None,
            }
        }
        _ => None,
    }
}

/// The mistake by its place in the lines.
pub(crate) fn in_lines<'l>(
    alloc: Global,
    lines: &SpelledLines<'l>,
    mistake: Mistake,
) -> Result<LineMistake<'l>, AllocError> {
    let line = match line_of(lines, mistake.place) {
        None => return without_place(alloc, mistake, Source::Option),
        Some((line, _)) => line,
    };
    match part_of(lines, &mistake.fault) {
        None => without_place(alloc, mistake, line.source),
        Some((part, read, _)) => in_part(alloc, mistake, read, line, part),
    }
}

/// What to write instead, by the fault alone.
fn advice_in(lines: &SpelledLines<'_>, fault: &DocumentFault) -> &'static str {
    match part_of(lines, fault) {
        None => advice_of(fault),
        Some((part, read, is_object)) => {
            let written = str::from_utf8(part.spelling.characters()).unwrap_or("");
            match habit_advice(is_object, &read, written) {
                Some(advice) => advice,
                None => reading_advice(is_object, &read, written),
            }
        }
    }
}

/// Why lines are no rules since the rows of their rules have this fault. Refused only if memory runs out.
pub fn mistake_of_fault<'l>(
    alloc: Global,
    lines: &SpelledLines<'l>,
    fault: DocumentFault,
) -> Result<LineMistake<'l>, AllocError> {
    let mistake = Mistake {
        fault,
        place: Place::of_fault(&fault),
        line: None,
        excerpt: None,
        advice: String::from_str(alloc, advice_in(lines, &fault))?,
    };
    in_lines(alloc, lines, mistake)
}
