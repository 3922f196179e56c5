//! Why a store isn't replaced.

use std::io;
use thiserror::Error;

/// Why a store isn't replaced by a new one.
#[derive(Clone, Copy, Debug, Error)]
pub enum ReplaceFault {
    /// The store has its place as before, on the disk too. Its file may have the name of the old one as well, which the next start removes.
    #[error("not replaced: {0}")]
    NotReplaced(io::Error),
    /// The new store has the place, but the system didn't say that this is on the disk: after a crash either of them may have it.
    #[error("replaced, but perhaps not on the disk: {0}")]
    InDoubt(io::Error),
}
