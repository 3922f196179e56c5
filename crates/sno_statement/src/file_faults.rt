//! Why a statement is refused on the content of a file.
ghost use Rattle.std.specs.Prelude.{◌≡◌};
ghost use Rattle.sno_statement.specs.FileFaults.{plain};
ghost use Rattle.sno_statement.specs.declared.file_faults.FileStatementFault.TheVariants.{Memory};

use crate::StatementFault;
use std::alloc::{AllocError, AllocFailed};
use thiserror::Error;

/// Why a statement is refused on the content of a file. Statement and text are unchanged.
#[derive(Clone, Copy, Debug, PartialEq, Eq, Error)]
pub enum FileStatementFault {
    /// The new text would have more than 16,777,216 bytes.
    #[error("text too long")]
    TextTooLong,
    /// Out of memory, in any allocation.
    #[error("out of memory")]
    Memory,
    /// The match takes more trials than its limit.
    #[error("too many trials")]
    TooManyTrials,
    /// A search would have to keep more than [`sno_machine::MAX_KEPT`] entries in its history, which it may back up to.
    #[error("history too long")]
    HistoryTooLong,
}

impl FileStatementFault {
    /// The fault of a search, given whether its history was full. A search whose history isn't full ran out of memory.
    pub fn of(fault: StatementFault, is_full: bool) -> FileStatementFault
        ensures { plain result ≡ fault }
    {
        match fault {
            StatementFault::TextTooLong => FileStatementFault::TextTooLong,
            StatementFault::TooManyTrials => FileStatementFault::TooManyTrials,
            StatementFault::Memory => {
                if is_full {
                    FileStatementFault::HistoryTooLong
                } else {
                    FileStatementFault::Memory
                }
            }
        }
    }
}

impl From<AllocError> for FileStatementFault {
    ghost from_gives = { λ _ e. e ≡ Memory };

    fn from(_refused: AllocError) -> FileStatementFault {
        FileStatementFault::Memory
    }
}

impl<T: Drop> From<AllocFailed<T>> for FileStatementFault {
    ghost from_gives = { λ _ e. e ≡ Memory };

    fn from(_refused: AllocFailed<T>) -> FileStatementFault {
        FileStatementFault::Memory
    }
}
