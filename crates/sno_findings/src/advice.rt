//! What to write instead, by the fault alone.

use sno_document::DocumentFault;

/// What to write instead of what has this fault.
pub fn advice_of(fault: &DocumentFault) -> &'static str {
    match fault {
        DocumentFault::DocumentTooLong =>
            "make several documents of it, each with a part of the texts",
        DocumentFault::NotJson => "one JSON value in UTF-8 is wanted",
        DocumentFault::Shape => "a member is missing or of another kind",
        DocumentFault::TooManyPatterns => "a document has at most 64 definitions",
        DocumentFault::PatternName(_) => {
            "a name is a letter and then letters, digits, . and _, at most 64 characters in all"
        }
        DocumentFault::PatternReserved(_) => "this is a word of the language; take another name",
        DocumentFault::PatternDuplicate(_) => "an earlier definition has this name",
        DocumentFault::PatternRead(_, _) => "this pattern can't be read",
        DocumentFault::Unguarded(_) => {
            "the definition comes back to itself; put a part that takes a character before the reference"
        }
        DocumentFault::TooManyTexts => "a document has at most 1024 texts",
        DocumentFault::TextName(_) | DocumentFault::StatementName(_) => {
            "the name of a text is 1 to 255 characters from ! to ~, without blanks"
        }
        DocumentFault::TextTooLong(_) => "a text has at most 65536 characters; cut it into several",
        DocumentFault::TextNonAscii(_) => "texts are ASCII",
        DocumentFault::TextDuplicate(_) => "an earlier text has this name",
        DocumentFault::TooManyStatements => "a document has at most 1000000 statements",
        DocumentFault::StatementPattern(_, _) => "this pattern can't be read",
        DocumentFault::StatementObject(_, _) => "this object can't be read",
        DocumentFault::StatementRepeat(_) => {
            "a whole number from 1 to 1000 is wanted, and an object"
        }
        DocumentFault::StatementAll(_) => {
            "a statement for all matches is performed in one pass; take 'repeat' away, or 'all'"
        }
        DocumentFault::Memory => "there is too little memory",
    }
}
