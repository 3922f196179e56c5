//! Reading patterns and objects, with what to write instead of one that can't be read.

use crate::vocabulary::{RESERVED, Vocabulary};
use sno_findings::{
    Collector, Form, WIDE_SET_ADVICE, Whose, around, habit_advice, nearest, place_of,
    reading_advice, shown, text_of,
};
use sno_pattern::{Pattern, is_name_char};
use sno_read::{
    ByteObject, ReadFault, read_object, read_pattern, read_rule_object, read_rule_pattern,
};
use std::alloc::{AllocError, Global};

/// The word that begins after `place` characters.
fn word_at(written: &str, place: usize) -> &str {
    let Some(rest) = written.as_bytes().get(place..) else {
        return "";
    };
    let count = rest.iter().take_while(|c| is_name_char(**c)).count();
    match rest.get(..count) {
        Some(word) => text_of(word),
        None => "",
    }
}

fn is_written(words: &[&str], word: &str) -> bool {
    words.iter().any(|other| *other == word)
}

/// Whether there are only blanks.
fn is_blank(characters: &[u8]) -> bool {
    characters.iter().all(|c| *c == b' ' || *c == b'\t')
}

/// Whether a name with this place may be meant as the subject of a rule: the pattern begins with it, and goes on.
fn may_be_subject(form: Form, whose: Whose, written: &str, place: usize, word: &str) -> bool {
    let bytes = written.as_bytes();
    let front = bytes.get(..place).unwrap_or(&[]);
    let after = bytes.get(place.saturating_add(word.len())..).unwrap_or(&[]);
    let is_rule = form == Form::Lines && matches!(whose, Whose::Pattern(_));
    is_rule && is_blank(front) && !is_blank(after)
}

/// What to write instead of a name that no definition has, and that is like no other.
fn advice_of_strange(
    findings: &Collector,
    whose: Whose,
    written: &str,
    place: usize,
    word: &str,
) -> Result<String, AllocError> {
    let alloc = findings.alloc;
    let seen = shown(alloc, word)?;
    if may_be_subject(findings.form, whose, written, place, word) {
        return format!(in alloc;
            "no definition is called {seen}; a rule has no subject, and characters are written in quotes, as '{seen}'"
        );
    }
    format!(in alloc;
        "no definition is called {seen}; characters are written in quotes, as '{seen}'"
    )
}

/// What to write instead of a name that no definition has.
fn advice_of_unknown(
    findings: &Collector,
    vocabulary: &Vocabulary<'_>,
    whose: Whose,
    written: &str,
    place: usize,
) -> Result<String, AllocError> {
    let word = word_at(written, place);
    let alloc = findings.alloc;
    if is_written(&vocabulary.words, word) {
        return format!(in alloc; "this definition comes later: *{word} refers to it");
    }
    if findings.has_many() {
        return String::from_str(alloc, "no definition has this name");
    }
    let seen = shown(alloc, word)?;
    if let Some(meant) = nearest(alloc, word, &vocabulary.words)? {
        return format!(in alloc; "no definition is called {seen}; did you mean {meant}?");
    }
    if let Some(meant) = nearest(alloc, word, &RESERVED)? {
        return format!(in alloc; "no definition is called {seen}; did you mean {meant}?");
    }
    advice_of_strange(findings, whose, written, place, word)
}

/// What to write instead of what has this fault: first for what other languages write.
fn advice_in(
    findings: &Collector,
    vocabulary: &Vocabulary<'_>,
    whose: Whose,
    written: &str,
    fault: &ReadFault,
) -> Result<String, AllocError> {
    let is_object = whose.is_object();
    if let Some(advice) = habit_advice(is_object, fault, written) {
        return String::from_str(findings.alloc, advice);
    }
    match fault {
        ReadFault::UnknownName(place) => {
            advice_of_unknown(findings, vocabulary, whose, written, *place)
        }
        ReadFault::NonAscii(_) if vocabulary.wide => {
            String::from_str(findings.alloc, WIDE_SET_ADVICE)
        }
        _ => String::from_str(findings.alloc, reading_advice(is_object, fault, written)),
    }
}

/// An expression that can't be read. An unknown name is no fault of its own if a definition's name can't be used.
fn refuse(
    findings: &mut Collector,
    vocabulary: &Vocabulary<'_>,
    whose: Whose,
    written: &str,
    fault: ReadFault,
) -> Result<(), AllocError> {
    let alloc = findings.alloc;
    let place = place_of(&fault);
    let advice = match fault {
        ReadFault::Memory => return Err(AllocError),
        ReadFault::UnknownName(_) if !vocabulary.is_whole => return Ok(()),
        _ => advice_in(findings, vocabulary, whose, written, &fault)?,
    };
    let excerpt = around(alloc, written, 0, place)?;
    findings.refuse(whose.fault(fault), Some(excerpt), advice)
}

/// The pattern that is written, as documents or as rules have it.
pub(crate) fn read(
    alloc: Global,
    vocabulary: &Vocabulary<'_>,
    earlier: usize,
    written: &str,
) -> Result<Pattern, ReadFault> {
    if vocabulary.wide {
        return read_rule_pattern(alloc, &vocabulary.names, earlier, written.as_bytes());
    }
    read_pattern(alloc, &vocabulary.names, earlier, written.as_bytes())
}

/// The pattern that is written, in which plain names refer to the first `earlier` definitions. One that can't be read is
/// an error.
pub(crate) fn pattern_in(
    findings: &mut Collector,
    vocabulary: &Vocabulary<'_>,
    whose: Whose,
    earlier: usize,
    written: &str,
) -> Result<Option<Pattern>, AllocError> {
    match read(findings.alloc, vocabulary, earlier, written) {
        Ok(pattern) => Ok(Some(pattern)),
        Err(fault) => {
            refuse(findings, vocabulary, whose, written, fault)?;
            Ok(None)
        }
    }
}

/// The object that is written, as documents or as rules have it. An object of a document means the same in a rule.
fn read_either(
    alloc: Global,
    vocabulary: &Vocabulary<'_>,
    written: &str,
) -> Result<ByteObject, ReadFault> {
    let bytes = written.as_bytes();
    if !vocabulary.wide {
        let _ = read_object(alloc, &vocabulary.names, bytes)?;
    }
    read_rule_object(alloc, &vocabulary.names, bytes)
}

/// The object that is written. One that can't be read is an error.
pub(crate) fn object_in(
    findings: &mut Collector,
    vocabulary: &Vocabulary<'_>,
    whose: Whose,
    written: &str,
) -> Result<Option<ByteObject>, AllocError> {
    match read_either(findings.alloc, vocabulary, written) {
        Ok(object) => Ok(Some(object)),
        Err(fault) => {
            refuse(findings, vocabulary, whose, written, fault)?;
            Ok(None)
        }
    }
}
