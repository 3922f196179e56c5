//! Why nothing is found.
ghost use Rattle.std.specs.Prelude.{◌≡◌};
ghost use Rattle.sno_statement.specs.declared.file_faults.FileStatementFault.TheVariants.{TextTooLong};
ghost use Rattle.sno_find.specs.Faults.{of_statement};

use sno_statement::FileStatementFault;
use std::alloc::{AllocError, AllocFailed};
use thiserror::Error;

/// Why nothing is found in a file.
#[derive(Clone, Copy, Debug, PartialEq, Eq, Error)]
pub enum FindFault {
    /// The statement with this number takes more trials than it may.
    #[error("statement {0}: too many trials")]
    TooManyTrials(u32),
    /// A search of the statement with this number would have to keep more than [`sno_machine::MAX_KEPT`] entries in its history.
    #[error("statement {0}: history too long")]
    HistoryTooLong(u32),
    /// Out of memory.
    #[error("out of memory")]
    Memory,
}

/// Why the statement with this number finds nothing.
pub(crate) fn fault_of(statement: u32, fault: FileStatementFault) -> FindFault
    requires { fault ≡ TextTooLong → ⊥ }
    ensures { result ≡ of_statement statement fault }
{
    match fault {
        FileStatementFault::TooManyTrials => FindFault::TooManyTrials(statement),
        FileStatementFault::HistoryTooLong => FindFault::HistoryTooLong(statement),
        FileStatementFault::Memory => FindFault::Memory,
        FileStatementFault::TextTooLong => unreachable!(),
    }
}

impl From<AllocError> for FindFault {
    ghost use Rattle.std.specs.Prelude.{◌≡◌};
    ghost use Rattle.sno_find.specs.declared.faults.FindFault.TheVariants.{Memory};

    ghost from_gives = { λ _ e. e ≡ Memory };

    fn from(_refused: AllocError) -> FindFault {
        FindFault::Memory
    }
}

impl<T: Drop> From<AllocFailed<T>> for FindFault {
    ghost use Rattle.std.specs.Prelude.{◌≡◌};
    ghost use Rattle.sno_find.specs.declared.faults.FindFault.TheVariants.{Memory};

    ghost from_gives = { λ _ e. e ≡ Memory };

    fn from(_refused: AllocFailed<T>) -> FindFault {
        FindFault::Memory
    }
}
