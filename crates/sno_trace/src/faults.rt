//! Why a match has no trace.
ghost use Rattle.std.specs.Prelude.{◌≡◌, ◌+◌, IfOk, IfErr};
ghost use Rattle.sno_trace.specs.declared.faults.TraceFault.TheVariants.{Memory};

use std::alloc::{AllocError, AllocFailed};
use thiserror::Error;

/// How deep parts, rounds and references may be nested in a trace. Each takes at most 2,900 bytes of the
/// stack as it is built today, so an ordinary one of 8 MiB holds them.
pub const MAX_DEPTH: usize = 2_500;

/// Why a match has no trace.
#[derive(Clone, Copy, Debug, PartialEq, Eq, Error)]
pub enum TraceFault {
    /// Parts, rounds and references are nested deeper than `MAX_DEPTH`.
    #[error("too deep")]
    TooDeep,
    /// Out of memory, in any allocation.
    #[error("out of memory")]
    Memory,
}

impl From<AllocError> for TraceFault {
    ghost from_gives = { λ _ e. e ≡ Memory };

    fn from(_refused: AllocError) -> TraceFault {
        TraceFault::Memory
    }
}

impl<T: Drop> From<AllocFailed<T>> for TraceFault {
    ghost from_gives = { λ _ e. e ≡ Memory };

    fn from(_refused: AllocFailed<T>) -> TraceFault {
        TraceFault::Memory
    }
}

// How much deeper a call within this one may go.
pub fn deeper(room: usize) -> Result<usize, TraceFault>
    ensures left { IfOk result (λ less. less + 1 ≡ room) }
    ensures used_up { IfErr result (λ _. room ≡ 0) }
{
    if room == 0 {
        return Err(TraceFault::TooDeep);
    }
    Ok(room - 1)
}
