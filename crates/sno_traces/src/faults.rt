//! Why no trace is shown.

use sno_trace::TraceFault;
use std::alloc::{AllocError, AllocFailed};
use thiserror::Error;

/// Why no trace is shown. Its printed form is the line for standard error.
#[derive(Clone, Copy, Debug, PartialEq, Eq, Error)]
pub enum NoTrace {
    /// There is no statement with the number.
    #[error("error: the document has no such statement")]
    NoStatement,
    /// The statement can't have that many matches; this is the most.
    #[error("error: '--match' is too high: it is at most {0} for this statement")]
    NoMatch(u32),
    /// The cursors that are asked for begin past the end of the text, which is this cursor.
    #[error("error: '--from' is past the end of the text, which is cursor {0}")]
    NoCursor(usize),
    /// Calls would nest too deep.
    #[error("nested too deeply; try a smaller --lines")]
    TooDeep,
    /// Out of memory.
    #[error("out of memory")]
    Memory,
}

impl From<TraceFault> for NoTrace {
    fn from(fault: TraceFault) -> NoTrace {
        match fault {
            TraceFault::TooDeep => NoTrace::TooDeep,
            TraceFault::Memory => NoTrace::Memory,
        }
    }
}

impl From<AllocError> for NoTrace {
    fn from(_refused: AllocError) -> NoTrace {
        NoTrace::Memory
    }
}

impl<T: Drop> From<AllocFailed<T>> for NoTrace {
    fn from(_refused: AllocFailed<T>) -> NoTrace {
        NoTrace::Memory
    }
}
