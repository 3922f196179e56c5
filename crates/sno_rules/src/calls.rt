//! The words that take a set, and what is spelled for each.
ghost use Rattle.std.specs.Prelude.{◌≡◌, ◌++◌, IfOk, OnOk};
ghost use Rattle.sno_rules.specs.Spelling.{call_begin, call_end, has, is_copied, in_quotes, quoted, set_text, set_word, without};

use std::alloc::{AllocError, Global};

/// A word that takes a set.
#[derive(Clone, Copy, Debug, PartialEq, Eq)]
pub(crate) enum SetWord {
    Any,
    NotAny,
    Span,
    Break,
    BreakX,
    NSpan,
}

/// The word with these letters that takes a set.
#[tactic(auto, unfolding(crate::specs::Spelling::set_word))]
pub(crate) fn set_word(word: &[u8]) -> Option<SetWord>
    ensures { result ≡ set_word word.now }
{
    if word == b"ANY".as_slice() {
        Some(SetWord::Any)
    } else if word == b"NOTANY".as_slice() {
        Some(SetWord::NotAny)
    } else if word == b"SPAN".as_slice() {
        Some(SetWord::Span)
    } else if word == b"BREAK".as_slice() {
        Some(SetWord::Break)
    } else if word == b"BREAKX".as_slice() {
        Some(SetWord::BreakX)
    } else if word == b"NSPAN".as_slice() {
        Some(SetWord::NSpan)
    } else {
        None
    }
}

/// Whether the text has this character.
fn has(character: u8, text: &[u8]) -> bool
    ensures { result ≡ has character text.now }
{
    text.iter().any(|other| character == *other)
}

fn in_quotes(alloc: Global, quote: u8, text: &[u8]) -> Result<Vec<u8>, AllocError>
    ensures { IfOk result (λ v. v.items ≡ in_quotes quote text.now) }
{
    let mut quoted = Vec::new(alloc);
    quoted.push(quote)?;
    quoted.extend_from_slice(text)?;
    quoted.push(quote)?;
    Ok(quoted)
}

/// The characters in single quotes.
pub(crate) fn literal(alloc: Global, text: &[u8]) -> Result<Vec<u8>, AllocError>
    ensures { IfOk result (λ v. v.items ≡ in_quotes 39 text.now) }
{
    in_quotes(alloc, b'\'', text)
}

/// The other characters of a text.
fn without(alloc: Global, character: u8, text: &[u8]) -> Result<Vec<u8>, AllocError>
    ensures { IfOk result (λ v. v.items ≡ without character text.now) }
{
    let mut others = Vec::new(alloc);
    for other in text {
        if *other != character {
            others.push(*other)?;
        }
    }
    Ok(others)
}

/// The members of a set in quotes of a kind that they don't have. If they have both kinds, the single quote comes last, in a
/// quotation of its own.
pub(crate) fn quoted(alloc: Global, members: &[u8]) -> Result<Vec<u8>, AllocError>
    ensures { IfOk result (λ v. v.items ≡ quoted members.now) }
{
    if !has(b'\'', members) {
        return in_quotes(alloc, b'\'', members);
    }
    if !has(b'"', members) {
        return in_quotes(alloc, b'"', members);
    }
    let others = without(alloc, b'\'', members)?;
    let mut quoted = in_quotes(alloc, b'\'', &others)?;
    quoted.extend_from_slice(b" \"'\"")?;
    Ok(quoted)
}

impl SetWord {
    /// Whether what is spelled before the set is what is written there.
    pub(crate) fn is_copied(self) -> bool
        ensures { result ≡ is_copied self }
    {
        !matches!(self, SetWord::BreakX | SetWord::NSpan)
    }

    /// What is spelled before the set.
    pub(crate) fn begin(self) -> &'static [u8]
        ensures { result.now ≡ call_begin self }
    {
        match self {
            SetWord::Any => b"ANY(",
            SetWord::NotAny => b"NOTANY(",
            SetWord::Span => b"SPAN(",
            SetWord::Break => b"BREAK(",
            SetWord::BreakX => b"(BREAK(",
            SetWord::NSpan => b"(SPAN(",
        }
    }

    /// Adds what is spelled after the set, which is in quotes.
    fn put_end(self, text: &mut Vec<u8>, set: &[u8]) -> Result<(), AllocError>
        ensures { OnOk result (text.new.items ≡ text.old.items ++ call_end self set.now) }
    {
        match self {
            SetWord::Any | SetWord::NotAny | SetWord::Span | SetWord::Break => {
                text.extend_from_slice(b")")?;
            }
            SetWord::BreakX => {
                text.extend_from_slice(b") ARBNO(LEN(1) BREAK(")?;
                text.extend_from_slice(set)?;
                text.extend_from_slice(b")))")?;
            }
            SetWord::NSpan => text.extend_from_slice(b") | '')")?,
        }
        Ok(())
    }

    /// What is spelled from the set on, which is in quotes.
    pub(crate) fn from_set(self, alloc: Global, set: &[u8]) -> Result<Vec<u8>, AllocError>
        ensures { IfOk result (λ v. v.items ≡ set_text self set.now) }
    {
        let mut text = Vec::new(alloc);
        text.extend_from_slice(set)?;
        self.put_end(&mut text, set)?;
        Ok(text)
    }
}
