//! Why the program ends without its lines.
ghost use Rattle.std.specs.Prelude.{◌≡◌};
ghost use Rattle.bench_matches.specs.Faults.{status};

use sno_document::DocumentFault;
use std::alloc::AllocError;
use thiserror::Error;

/// Why the program ends without the line of each statement. Its text is the line for standard error.
#[derive(Clone, Copy, Debug, PartialEq, Eq, Error)]
pub enum Fault {
    /// The arguments are invalid.
    #[error("usage: bench_matches [--times N] < document.json, where N is how often each is timed: a number from 1 to 1000000")]
    Usage,
    /// The bytes are not a document.
    #[error("{0}")]
    Document(DocumentFault),
    /// Out of memory.
    #[error("out of memory")]
    Memory,
    /// The document could not be read.
    #[error("read failed")]
    Read,
    /// A line could not be written.
    #[error("write failed")]
    Write,
    /// The clock could not be read.
    #[error("clock failed")]
    Clock,
    /// What was timed did something other than before. No valid run comes to this.
    #[error("results differ")]
    Differs,
}

impl Fault {
    /// The status with which the program ends: 3 for invalid arguments, 2 for a fault of the document, and otherwise 4.
    pub fn status(&self) -> u8
        ensures { result ≡ status self.now }
    {
        match self {
            Fault::Usage => 3,
            Fault::Document(_) => 2,
            _ => 4,
        }
    }
}

impl From<DocumentFault> for Fault {
    fn from(fault: DocumentFault) -> Fault {
        match fault {
            DocumentFault::Memory => Fault::Memory,
            _ => Fault::Document(fault),
        }
    }
}

impl From<AllocError> for Fault {
    fn from(_refused: AllocError) -> Fault {
        Fault::Memory
    }
}
