//! Why a book refuses.
ghost use Rattle.std.specs.Prelude.{◌≡◌};
ghost use Rattle.sno_book.specs.declared.faults.BookFault.TheVariants.{Memory};

use std::alloc::{AllocError, AllocFailed};
use thiserror::Error;

/// Why no book of some texts was made. The texts are dropped then.
#[derive(Clone, Copy, Debug, PartialEq, Eq, Error)]
pub enum BookFault {
    /// More than 1,024 texts.
    #[error("too many")]
    TooMany,
    /// The text at this place has the name of an earlier one. It is the first such place.
    #[error("duplicate at {0}")]
    Duplicate(usize),
    /// Out of memory.
    #[error("out of memory")]
    Memory,
}

impl From<AllocError> for BookFault {
    ghost from_gives = { λ _ e. e ≡ Memory };

    fn from(_refused: AllocError) -> BookFault {
        BookFault::Memory
    }
}

impl<T: Drop> From<AllocFailed<T>> for BookFault {
    ghost from_gives = { λ _ e. e ≡ Memory };

    fn from(_refused: AllocFailed<T>) -> BookFault {
        BookFault::Memory
    }
}

/// Why no snapshot was made. The book is as it was.
#[derive(Clone, Copy, Debug, PartialEq, Eq, Error)]
pub enum SnapshotFault {
    /// The book has no text of that name.
    #[error("no text")]
    NoText,
    /// Out of memory: the text could not be shared.
    #[error("out of memory")]
    Memory,
}

/// Why a proposal is not accepted. The book is as it was.
#[derive(Clone, Copy, Debug, PartialEq, Eq, Error)]
pub enum CommitFault {
    /// The book has no text of the statement's name, or has it at another place than the snapshot's.
    #[error("no text")]
    NoText,
    /// The text has another version than the snapshot.
    #[error("changed from version {seen} to {now}")]
    Changed {
        /// The version of the snapshot.
        seen: u64,
        /// The version of the text.
        now: u64,
    },
    /// The journal has as many entries as it may hold.
    #[error("full")]
    Full,
    /// Out of memory.
    #[error("out of memory")]
    Memory,
}
