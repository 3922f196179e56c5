//! Why a service ended early, and why a line can't be read.
ghost use Rattle.std.specs.Prelude.{◌≡◌};
ghost use Rattle.sno_serve.specs.declared.faults.ServeFault.TheVariants.{Memory};

use sno_document::DocumentFault;
use std::alloc::{AllocError, AllocFailed};
use thiserror::Error;

/// Why a service ended early. The entries that were accepted are in the book.
#[derive(Clone, Copy, Debug, PartialEq, Eq, Error)]
pub enum ServeFault {
    /// Out of memory.
    #[error("out of memory")]
    Memory,
    /// A line could not be read.
    #[error("read failed")]
    Read,
    /// A reply could not be written.
    #[error("write failed")]
    Write,
    /// There was no place for a seat, or the desk could not be closed.
    #[error("desk failed")]
    Desk,
}

/// Why names can't be bound to texts.
#[derive(Clone, Copy, Debug, PartialEq, Eq)]
pub enum BindFault {
    /// The member `bind` is not an object, or a value of it is not a string.
    Shape,
    /// A key is not a name.
    Name,
    /// A name is a reserved word.
    Reserved,
    /// A name is that of a definition.
    Duplicate,
    /// There are more than 64 names, with those of the definitions.
    TooMany,
    /// A text has more than 65,536 characters.
    TooLong,
    /// A text is not ASCII.
    NonAscii,
}

/// Why a line can't be read.
#[derive(Clone, Copy, Debug, PartialEq, Eq)]
pub enum LineFault {
    /// As a document with this statement can't be read.
    Document(DocumentFault),
    /// The line's limit of trials is not one of 1 to 1,000,000,000.
    Trials,
    /// The line's limit of trials is above that of the service, which is this.
    TrialsAbove(u32),
    /// The member `bind` doesn't say which texts names represent.
    Bind(BindFault),
}

impl From<AllocError> for ServeFault {
    ghost from_gives = { λ _ e. e ≡ Memory };

    fn from(_refused: AllocError) -> ServeFault {
        ServeFault::Memory
    }
}

impl<T: Drop> From<AllocFailed<T>> for ServeFault {
    ghost from_gives = { λ _ e. e ≡ Memory };

    fn from(_refused: AllocFailed<T>) -> ServeFault {
        ServeFault::Memory
    }
}
