//! Why bytes are not a document.

ghost use Rattle.std.specs.Prelude.{◌≡◌};
ghost use Rattle.sno_document.specs.declared.faults.DocumentFault.TheVariants.{Memory};

use sno_pattern::Name;
use sno_read::ReadFault;
use std::alloc::{AllocError, AllocFailed};
use thiserror::Error;

/// Why bytes are not a document. Its printed form is a line for standard error; numbers in it count from 1.
#[derive(Clone, Copy, Debug, PartialEq, Eq, Error)]
pub enum DocumentFault {
    /// The document has more than 16,777,216 bytes.
    #[error("input: longer than 16777216 bytes")]
    DocumentTooLong,
    /// The document is not JSON.
    #[error("input: not JSON")]
    NotJson,
    /// A member is missing or of another kind.
    #[error("input: wrong shape")]
    Shape,
    /// More than 64 definitions.
    #[error("patterns: too many")]
    TooManyPatterns,
    /// The name of this definition is invalid.
    #[error("pattern {0}: bad name")]
    PatternName(usize),
    /// The name of this definition is a reserved word.
    #[error("pattern {0}: reserved name")]
    PatternReserved(usize),
    /// An earlier definition has the name of this one, too.
    #[error("pattern {0}: duplicate")]
    PatternDuplicate(usize),
    /// The pattern of this definition can't be read.
    #[error("pattern {0}: {1}")]
    PatternRead(usize, ReadFault),
    /// Definitions refer to one another in a cycle without taking a character; this is the first of them.
    #[error("patterns: unguarded {0}")]
    Unguarded(Name),
    /// More than 1,024 texts.
    #[error("texts: too many")]
    TooManyTexts,
    /// The name of this text is invalid.
    #[error("text {0}: bad name")]
    TextName(usize),
    /// This text has more than 65,536 bytes.
    #[error("text {0}: too long")]
    TextTooLong(usize),
    /// This text has a byte above 127.
    #[error("text {0}: not ASCII")]
    TextNonAscii(usize),
    /// An earlier text has the name of this one, too.
    #[error("text {0}: duplicate")]
    TextDuplicate(usize),
    /// More than 1,000,000 statements.
    #[error("statements: too many")]
    TooManyStatements,
    /// The name of this statement's text is invalid.
    #[error("statement {0}: bad name")]
    StatementName(usize),
    /// The pattern of this statement can't be read.
    #[error("statement {0}: pattern: {1}")]
    StatementPattern(usize, ReadFault),
    /// The object of this statement can't be read.
    #[error("statement {0}: object: {1}")]
    StatementObject(usize, ReadFault),
    /// This statement is to be repeated, but its number of times is not one of 1 to 1,000, or it has no object.
    #[error("statement {0}: bad repeat")]
    StatementRepeat(usize),
    /// This statement is to be for all matches and to be repeated too.
    #[error("statement {0}: bad all")]
    StatementAll(usize),
    /// Out of memory.
    #[error("out of memory")]
    Memory,
}

impl From<AllocError> for DocumentFault {
    ghost from_gives = { λ _ e. e ≡ Memory };

    fn from(_refused: AllocError) -> DocumentFault {
        DocumentFault::Memory
    }
}

impl<T: Drop> From<AllocFailed<T>> for DocumentFault {
    ghost from_gives = { λ _ e. e ≡ Memory };

    fn from(_refused: AllocFailed<T>) -> DocumentFault {
        DocumentFault::Memory
    }
}
