//! What a pattern assigns, refers to and seeks.

use crate::ambiguous::{goes_on_ambiguously, is_ambiguous, referred};
use crate::edges::{Blocked, blocked_after};
use sno_pattern::{Name, Pattern};
use std::alloc::{AllocError, Global};

/// The bit of a definition in a set of at most 64 definitions.
pub fn bit(number: usize) -> u64 {
    if number < 64 {
        1u64 << (number as u32)
    } else {
        0
    }
}

/// What a pattern says, without what the definitions say to which it refers.
#[derive(Drop)]
pub struct Facts {
    /// The variables that it assigns.
    pub variables: Vec<Name>,
    /// The definitions to which it refers, a bit for each.
    pub references: u64,
    /// The first of its sets that looks like a range.
    pub range: Option<(u8, u8)>,
    /// The letter after the first backslash of its literals and sets that looks like an escape.
    pub escape: Option<u8>,
    /// Whether an `ARBNO` in it repeats another `ARBNO`, perhaps by a definition.
    pub repeats_rounds: bool,
    /// Whether the rounds of an `ARBNO` in it can take the same characters in more than one way.
    pub is_ambiguous: bool,
    /// Whether it is a definition that goes on with itself, and then can take the same characters in more than one way.
    pub goes_on_ambiguously: bool,
    /// The first of its parts that never matches after the one before it.
    pub blocked: Option<Blocked>,
}

impl Facts {
    fn note_characters(&mut self, characters: &[u8]) {
        if self.escape.is_none() {
            self.escape = escape_in(characters);
        }
    }

    fn note_set(&mut self, members: &[u8]) {
        self.note_characters(members);
        if self.range.is_none() {
            self.range = range_in(members);
        }
    }

    fn note_repeated<'p>(
        &mut self,
        alloc: Global,
        bodies: &[Option<&'p Pattern>],
        part: &'p Pattern,
    ) -> Result<(), AllocError> {
        if let Pattern::Arbno(_) = referred(bodies, part) {
            self.repeats_rounds = true;
        }
        if is_ambiguous(alloc, bodies, part)? {
            self.is_ambiguous = true;
        }
        Ok(())
    }

    fn note_neighbours(&mut self, first: &Pattern, second: &Pattern) {
        if self.blocked.is_none() {
            self.blocked = blocked_after(first, second);
        }
    }

    fn gather<'p>(
        &mut self,
        alloc: Global,
        bodies: &[Option<&'p Pattern>],
        pattern: &'p Pattern,
    ) -> Result<(), AllocError> {
        match pattern {
            Pattern::Lit(text) => self.note_characters(text.bytes()),
            Pattern::Bytes(text) => self.note_characters(text.bytes()),
            Pattern::AnyOf(set) | Pattern::NoneOf(set) | Pattern::Span(set) | Pattern::Break(set) =>
                self.note_set(set.members()),
            Pattern::At(name) => self.variables.push(*name)?,
            Pattern::Ref(number) => self.references = self.references | bit(*number),
            Pattern::Seq(first, second) => {
                self.note_neighbours(first, second);
                self.gather(alloc, bodies, first)?;
                self.gather(alloc, bodies, second)?;
            }
            Pattern::Alt(first, second) => {
                self.gather(alloc, bodies, first)?;
                self.gather(alloc, bodies, second)?;
            }
            Pattern::Arbno(part) => {
                self.note_repeated(alloc, bodies, part)?;
                self.gather(alloc, bodies, part)?;
            }
            Pattern::Cond(part, name) | Pattern::Imm(part, name) => {
                self.gather(alloc, bodies, part)?;
                self.variables.push(*name)?;
            }
            _ => {}
        }
        Ok(())
    }
}

/// The letter after the first backslash that is followed by n, r or t.
pub(crate) fn escape_in(characters: &[u8]) -> Option<u8> {
    let mut previous = b' ';
    for character in characters {
        if previous == b'\\' && b"nrt".contains(character) {
            return Some(*character);
        }
        previous = *character;
    }
    None
}

/// Whether all characters from one to the other are letters of one case, or digits, and some lie between them.
fn spans(first: u8, last: u8) -> bool {
    let alike = (first.is_ascii_lowercase() && last.is_ascii_lowercase())
        || (first.is_ascii_uppercase() && last.is_ascii_uppercase())
        || (first.is_ascii_digit() && last.is_ascii_digit());
    alike && first < last && last - first > 1
}

/// The ends of the first range as a regular expression writes one, as `a-z`.
fn range_in(members: &[u8]) -> Option<(u8, u8)> {
    let mut before = b' ';
    let mut previous = b' ';
    for member in members {
        if previous == b'-' && spans(before, *member) {
            return Some((before, *member));
        }
        before = previous;
        previous = *member;
    }
    None
}

/// What the pattern says. `bodies` has the definitions, each if it can be read; `own` is the number of the definition whose body
/// the pattern is, if it is one. Refused only if memory runs out.
pub fn facts_of<'p>(
    alloc: Global,
    bodies: &[Option<&'p Pattern>],
    own: Option<usize>,
    pattern: &'p Pattern,
) -> Result<Facts, AllocError> {
    let mut facts = Facts {
        variables: Vec::new(alloc),
        references: 0,
        range: None,
        escape: None,
        repeats_rounds: false,
        is_ambiguous: false,
        goes_on_ambiguously: false,
        blocked: None,
    };
    facts.gather(alloc, bodies, pattern)?;
    if let Some(own) = own {
        facts.goes_on_ambiguously = goes_on_ambiguously(alloc, bodies, own, pattern)?;
    }
    Ok(facts)
}

/// Whether what is sought is in these characters; at their start if it is anchored. The null string is not.
fn is_in(sought: &[u8], anchored: bool, characters: &[u8]) -> bool {
    if sought.is_empty() {
        return false;
    }
    if anchored {
        return characters.starts_with(sought);
    }
    characters.windows(sought.len()).any(|part| part == sought)
}

/// Whether the pattern is a choice of literals, and one of them is in these characters; at their start if it is anchored.
pub(crate) fn has_what_is_sought(pattern: &Pattern, anchored: bool, characters: &[u8]) -> bool {
    match pattern {
        Pattern::Lit(text) => is_in(text.bytes(), anchored, characters),
        Pattern::Bytes(text) => is_in(text.bytes(), anchored, characters),
        Pattern::Alt(first, second) => {
            has_what_is_sought(first, anchored, characters)
                || has_what_is_sought(second, anchored, characters)
        }
        Pattern::Cond(part, _) | Pattern::Imm(part, _) => {
            has_what_is_sought(part, anchored, characters)
        }
        _ => false,
    }
}
