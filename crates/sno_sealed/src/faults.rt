//! Why lines with sums aren't read.

use sno_store::StoreFault;
use std::alloc::AllocError;
use thiserror::Error;

/// Why a store's lines are refused.
#[derive(Clone, Copy, Debug, Error)]
pub enum SealFault {
    /// The line with this number, from 1, was changed, or lines are missing before what comes there.
    #[error("line {0}: damaged")]
    Damaged(u64),
    /// Out of memory.
    #[error("out of memory")]
    Memory,
    /// What comes after the lines could not be read.
    #[error("{0}")]
    Store(StoreFault),
}

impl From<AllocError> for SealFault {
    fn from(_refused: AllocError) -> SealFault {
        SealFault::Memory
    }
}

impl From<StoreFault> for SealFault {
    fn from(fault: StoreFault) -> SealFault {
        match fault {
            StoreFault::Memory => SealFault::Memory,
            fault => SealFault::Store(fault),
        }
    }
}
