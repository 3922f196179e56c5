//! Why nothing was done.

use std::alloc::{AllocError, AllocFailed};
use thiserror::Error;

/// The status after a fault of the machine.
pub(crate) const FAILED: u8 = 4;

/// The status after arguments that are refused.
pub(crate) const MISUSED: u8 = 3;

/// What standard input is called.
pub(crate) const INPUT: &str = "(standard input)";

/// What the file with this path is called; `-` is standard input.
pub(crate) fn name_of(path: &str) -> &str {
    if path == "-" { INPUT } else { path }
}

/// Why nothing was done. Its printed form is the line for standard error.
#[derive(Clone, Copy, Debug, PartialEq, Eq, Error)]
pub(crate) enum ProgramFault {
    /// Out of memory.
    #[error("out of memory")]
    Memory,
    /// The document could not be opened or read.
    #[error("read failed")]
    Read,
    /// A line of standard input could not be read.
    #[error("(standard input): read failed")]
    Input,
    /// The findings could not be written.
    #[error("write failed")]
    Write,
    /// There was no place for a seat of a service, or its desk could not be closed.
    #[error("closing failed")]
    Closing,
}

impl From<AllocError> for ProgramFault {
    fn from(_refused: AllocError) -> ProgramFault {
        ProgramFault::Memory
    }
}

impl<T: Drop> From<AllocFailed<T>> for ProgramFault {
    fn from(_refused: AllocFailed<T>) -> ProgramFault {
        ProgramFault::Memory
    }
}
