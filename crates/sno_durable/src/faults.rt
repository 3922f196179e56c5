//! Why a durable service didn't begin, or ended early.
ghost use Rattle.std.specs.Prelude.{◌≡◌, false};
ghost use Rattle.sno_durable.specs.Faults.{is_of_record};
ghost use Rattle.sno_durable.specs.declared.faults.DurableFault.TheVariants.{Memory};

use crate::queue::QueueFault;
use sno_document::DocumentFault;
use sno_sealed::SealFault;
use sno_serve::ServeFault;
use sno_store::{LineFault, StoreFault};
use std::alloc::{AllocError, AllocFailed};
use thiserror::Error;

/// Why a durable service didn't begin, or ended early. What was shown is in the store.
#[derive(Clone, Copy, Debug, Error)]
pub enum DurableFault {
    /// Out of memory.
    #[error("out of memory")]
    Memory,
    /// A line could not be read.
    #[error("read failed")]
    Read,
    /// A reply could not be written.
    #[error("write failed")]
    Write,
    /// There was no place for the seat, or the desk could not be closed.
    #[error("desk failed")]
    Desk,
    /// The store failed. What was not shown yet may be in it or not.
    #[error("store: {0}")]
    Store(StoreFault),
    /// A line of the store could not be made.
    #[error("store: {0}")]
    Line(LineFault),
    /// The store is new, and no document was given.
    #[error("store: empty, and no document is given")]
    NoDocument,
    /// The document is refused.
    #[error("{0}")]
    Document(DocumentFault),
    /// The first line isn't that of a store of this format.
    #[error("store: line 1: not a store of this format")]
    Format,
    /// The store was made of another document than the one that is given.
    #[error("store: made of another document")]
    OtherDocument,
    /// The store was made with this other limit of trials.
    #[error("store: made with --trials {0}")]
    OtherTrials(u32),
    /// A document with the texts of the store would have more than 16,777,216 bytes, so no store goes on from it.
    #[error("store: its texts are too long for one document")]
    TextsTooLong,
    /// The line with this number, from 1, is damaged, or lines are missing before what comes there.
    #[error("store: line {0}: damaged")]
    Damaged(u64),
    /// The line with this number, from 1, isn't a record.
    #[error("store: line {0}: not a record")]
    Record(u64),
    /// The statement of the line with this number, from 1, has another outcome than the one that is stored.
    #[error("store: line {0}: another outcome")]
    Outcome(u64),
}

impl From<AllocError> for DurableFault {
    ghost from_gives = { λ _ e. e ≡ Memory };

    fn from(_refused: AllocError) -> DurableFault {
        DurableFault::Memory
    }
}

impl<T: Drop> From<AllocFailed<T>> for DurableFault {
    ghost from_gives = { λ _ e. e ≡ Memory };

    fn from(_refused: AllocFailed<T>) -> DurableFault {
        DurableFault::Memory
    }
}

impl From<StoreFault> for DurableFault {
    ghost from_gives = { λ _ e. is_of_record e ≡ false };

    fn from(fault: StoreFault) -> DurableFault {
        match fault {
            StoreFault::Memory => DurableFault::Memory,
            fault => DurableFault::Store(fault),
        }
    }
}

impl From<SealFault> for DurableFault {
    ghost from_gives = { λ _ e. is_of_record e ≡ false };

    fn from(fault: SealFault) -> DurableFault {
        match fault {
            SealFault::Damaged(line) => DurableFault::Damaged(line),
            SealFault::Memory => DurableFault::Memory,
            SealFault::Store(fault) => DurableFault::from(fault),
        }
    }
}

impl From<LineFault> for DurableFault {
    ghost from_gives = { λ _ e. is_of_record e ≡ false };

    fn from(fault: LineFault) -> DurableFault {
        match fault {
            LineFault::Memory => DurableFault::Memory,
            fault => DurableFault::Line(fault),
        }
    }
}

impl From<QueueFault> for DurableFault {
    ghost from_gives = { λ _ e. is_of_record e ≡ false };

    fn from(fault: QueueFault) -> DurableFault {
        match fault {
            QueueFault::Line(fault) => DurableFault::from(fault),
            QueueFault::Index => DurableFault::Desk,
        }
    }
}

impl From<ServeFault> for DurableFault {
    ghost from_gives = { λ _ e. is_of_record e ≡ false };

    fn from(fault: ServeFault) -> DurableFault {
        match fault {
            ServeFault::Memory => DurableFault::Memory,
            ServeFault::Read => DurableFault::Read,
            ServeFault::Write => DurableFault::Write,
            ServeFault::Desk => DurableFault::Desk,
        }
    }
}
