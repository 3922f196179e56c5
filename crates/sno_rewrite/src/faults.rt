//! Why a run fails.
ghost use Rattle.std.specs.Prelude.{◌≡◌};
ghost use Rattle.sno_rewrite.specs.Faults.{status, run_fault};
ghost use Rattle.sno_rewrite.specs.declared.faults.RunFault.TheVariants.{Memory};

use sno_document::DocumentFault;
use std::alloc::{AllocError, AllocFailed};
use thiserror::Error;

/// Why a run fails. Its printed form is the line for standard error.
#[derive(Clone, Copy, Debug, PartialEq, Eq, Error)]
pub enum RunFault {
    /// The bytes are not a document.
    #[error("{0}")]
    Document(DocumentFault),
    /// Out of memory.
    #[error("out of memory")]
    Memory,
    /// The document could not be read.
    #[error("read failed")]
    Read,
    /// The listing could not be written.
    #[error("write failed")]
    Write,
    /// A version could not be published, or nothing more was shown to a worker.
    #[error("versions stopped")]
    Stopped,
    /// There was no place for a worker's reader.
    #[error("no reader")]
    NoReader,
    /// The replies of a shared run don't agree with its journal.
    #[error("audit failed")]
    Audit,
    /// The desk could not be closed.
    #[error("closing failed")]
    Closing,
}

impl From<DocumentFault> for RunFault {
    ghost from_gives = { λ fault e. e ≡ run_fault fault };

    fn from(fault: DocumentFault) -> RunFault {
        match fault {
            DocumentFault::Memory => RunFault::Memory,
            _ => RunFault::Document(fault),
        }
    }
}

impl From<AllocError> for RunFault {
    ghost from_gives = { λ _ e. e ≡ Memory };

    fn from(_refused: AllocError) -> RunFault {
        RunFault::Memory
    }
}

impl<T: Drop> From<AllocFailed<T>> for RunFault {
    ghost from_gives = { λ _ e. e ≡ Memory };

    fn from(_refused: AllocFailed<T>) -> RunFault {
        RunFault::Memory
    }
}

/// The status with which a program ends on a fault: 2 for a fault of the document, and otherwise 4.
pub fn status_of(fault: &RunFault) -> u8
    ensures { result ≡ status fault.now }
{
    match fault {
        RunFault::Document(DocumentFault::Memory) => 4,
        RunFault::Document(_) => 2,
        _ => 4,
    }
}
