//! The expressions of a document.

use crate::Place;
use sno_document::DocumentFault;
use sno_read::ReadFault;

/// Which expression of the document is read. Numbers count from 1.
#[derive(Clone, Copy, Debug, PartialEq, Eq)]
pub enum Whose {
    /// The pattern of a definition.
    Definition(usize),
    /// The pattern of a statement.
    Pattern(usize),
    /// The object of a statement.
    Object(usize),
}

impl Whose {
    /// The fault of a document whose expression has this fault.
    pub fn fault(self, fault: ReadFault) -> DocumentFault {
        match self {
            Whose::Definition(number) => DocumentFault::PatternRead(number, fault),
            Whose::Pattern(number) => DocumentFault::StatementPattern(number, fault),
            Whose::Object(number) => DocumentFault::StatementObject(number, fault),
        }
    }

    /// Whether the expression is an object.
    pub fn is_object(self) -> bool {
        matches!(self, Whose::Object(_))
    }

    /// The part of the document that the expression is in.
    pub fn place(self) -> Place {
        match self {
            Whose::Definition(number) => Place::Pattern(number),
            Whose::Pattern(number) | Whose::Object(number) => Place::Statement(number),
        }
    }

    /// What the expression is called in a message.
    pub(crate) fn called(self) -> &'static str {
        if self.is_object() {
            "object"
        } else {
            "pattern"
        }
    }
}
