//! Why a match has no outcome.
ghost use Rattle.std.specs.Prelude.{◌≡◌};
ghost use Rattle.sno_machine.specs.declared.faults.MatchFault.TheVariants.{Memory};

use std::alloc::{AllocError, AllocFailed};
use thiserror::Error;

/// Why a match has no outcome.
#[derive(Clone, Copy, Debug, PartialEq, Eq, Error)]
pub enum MatchFault {
    /// The match takes more trials than its limit.
    #[error("too many trials")]
    TooManyTrials,
    /// Out of memory, in any allocation.
    #[error("out of memory")]
    Memory,
}

impl From<AllocError> for MatchFault {
    ghost from_gives = { λ _ e. e ≡ Memory };

    fn from(_refused: AllocError) -> MatchFault {
        MatchFault::Memory
    }
}

impl<T: Drop> From<AllocFailed<T>> for MatchFault {
    ghost from_gives = { λ _ e. e ≡ Memory };

    fn from(_refused: AllocFailed<T>) -> MatchFault {
        MatchFault::Memory
    }
}
