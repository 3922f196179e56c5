//! What a check finds.

use sno_document::DocumentFault;
use std::fmt;

/// A part of a document. Its printed form is the one that the lines of faults begin with; numbers count from 1.
#[derive(Clone, Copy, Debug, PartialEq, Eq)]
pub enum Place {
    /// The document as a whole.
    Document,
    /// The array of the definitions.
    Patterns,
    /// The array of the texts.
    Texts,
    /// The array of the statements.
    Statements,
    /// This definition.
    Pattern(usize),
    /// This text.
    Text(usize),
    /// This statement.
    Statement(usize),
}

impl fmt::Display for Place {
    fn fmt<W: fmt::Write>(&self, f: &mut fmt::Formatter<W>) -> fmt::Result {
        match self {
            Place::Document => write!(f, "input"),
            Place::Patterns => write!(f, "patterns"),
            Place::Texts => write!(f, "texts"),
            Place::Statements => write!(f, "statements"),
            Place::Pattern(number) => write!(f, "pattern {number}"),
            Place::Text(number) => write!(f, "text {number}"),
            Place::Statement(number) => write!(f, "statement {number}"),
        }
    }
}

impl Place {
    /// The part of a document that has this fault.
    pub fn of_fault(fault: &DocumentFault) -> Place {
        match fault {
            DocumentFault::DocumentTooLong
            | DocumentFault::NotJson
            | DocumentFault::Shape
            | DocumentFault::Memory => Place::Document,
            DocumentFault::TooManyPatterns | DocumentFault::Unguarded(_) => Place::Patterns,
            DocumentFault::TooManyTexts => Place::Texts,
            DocumentFault::TooManyStatements => Place::Statements,
            DocumentFault::PatternName(number)
            | DocumentFault::PatternReserved(number)
            | DocumentFault::PatternDuplicate(number)
            | DocumentFault::PatternRead(number, _) => Place::Pattern(*number),
            DocumentFault::TextName(number)
            | DocumentFault::TextTooLong(number)
            | DocumentFault::TextNonAscii(number)
            | DocumentFault::TextDuplicate(number) => Place::Text(*number),
            DocumentFault::StatementName(number)
            | DocumentFault::StatementPattern(number, _)
            | DocumentFault::StatementObject(number, _)
            | DocumentFault::StatementRepeat(number)
            | DocumentFault::StatementAll(number) => Place::Statement(*number),
        }
    }
}

/// How what is checked is written, which says how advice is worded.
#[derive(Clone, Copy, Debug, PartialEq, Eq)]
pub enum Form {
    /// A document or rules in JSON.
    Json,
    /// Rules in lines.
    Lines,
}

/// Characters of a document around a place, in one line. What can't be printed is replaced by `?`.
#[derive(Debug, Drop)]
pub struct Excerpt {
    /// The characters.
    pub shown: String,
    /// How many of the characters come before the place.
    pub column: usize,
}

/// Why bytes are not a document, at one place.
#[derive(Debug, Drop)]
pub struct Mistake {
    /// The fault, whose printed form is the line that `sno_rewrite` writes.
    pub fault: DocumentFault,
    /// The part of the document that has it.
    pub place: Place,
    /// The line of the document on which that part begins, from 1, if it is known.
    pub line: Option<usize>,
    /// The characters around the place of the fault, if it has one.
    pub excerpt: Option<Excerpt>,
    /// What to write instead.
    pub advice: String,
}

/// What a document says, but probably doesn't mean.
#[derive(Debug, Drop)]
pub struct Warning {
    /// The part of the document that says it.
    pub place: Place,
    /// The line of the document on which that part begins, from 1, if it is known.
    pub line: Option<usize>,
    /// What is strange there, and what to write instead.
    pub message: String,
}

/// What is found in a document.
#[derive(Debug, Drop)]
pub struct Report {
    /// Why the bytes are not a document: first the fault that `sno_rewrite` reports, then those found independently
    /// of it, in the order in which `sno_rewrite` would come to them.
    pub errors: Vec<Mistake>,
    /// What is probably not meant, part by part in the document's order.
    pub warnings: Vec<Warning>,
}
