//! Why a file stays as it was.
use crate::{CutCharacter, Position, ReadFault, RefusedStatement, WriteFault};
use sno_statement::FileStatementFault;
use std::alloc::{AllocError, AllocFailed};
use std::fmt;
use std::io::ErrorKind;

/// Why a file stays as it was. Its printed form is what a line for standard error says after the path.
#[derive(Clone, Copy, Debug, PartialEq, Eq)]
pub enum FileFault {
    /// The file has more than 16,777,216 bytes.
    TooLong,
    /// A statement was refused on its text, for another reason than memory.
    Refused(RefusedStatement),
    /// A statement was refused since it would make a text that is not UTF-8 of one that is.
    Cut(CutCharacter),
    /// The file could not be read.
    Unread(ErrorKind),
    /// The edited file could not be written.
    Unwritten(ErrorKind),
    /// Out of memory.
    Memory,
}

impl From<AllocError> for FileFault {
    ghost use Rattle.std.specs.Prelude.{◌≡◌};
    ghost use Rattle.sno_edit.specs.declared.faults.FileFault.TheVariants.{Memory};

    ghost from_gives = { λ _ e. e ≡ Memory };

    fn from(_refused: AllocError) -> FileFault {
        FileFault::Memory
    }
}

impl<T: Drop> From<AllocFailed<T>> for FileFault {
    ghost use Rattle.std.specs.Prelude.{◌≡◌};
    ghost use Rattle.sno_edit.specs.declared.faults.FileFault.TheVariants.{Memory};

    ghost from_gives = { λ _ e. e ≡ Memory };

    fn from(_refused: AllocFailed<T>) -> FileFault {
        FileFault::Memory
    }
}

impl From<ReadFault> for FileFault {
    ghost use Rattle.std.specs.Prelude.{◌≡◌};
    ghost use Rattle.sno_edit.specs.Faults.{of_read};

    ghost from_gives = { λ fault e. e ≡ of_read fault };

    fn from(fault: ReadFault) -> FileFault {
        match fault {
            ReadFault::TooLong => FileFault::TooLong,
            ReadFault::Failed(kind) => FileFault::Unread(kind),
            ReadFault::Memory => FileFault::Memory,
        }
    }
}

impl From<WriteFault> for FileFault {
    ghost use Rattle.std.specs.Prelude.{◌≡◌};
    ghost use Rattle.sno_edit.specs.Faults.{of_write};

    ghost from_gives = { λ fault e. e ≡ of_write fault };

    fn from(fault: WriteFault) -> FileFault {
        match fault {
            WriteFault::Failed(kind) => FileFault::Unwritten(kind),
            WriteFault::Memory => FileFault::Memory,
        }
    }
}

impl From<RefusedStatement> for FileFault {
    ghost use Rattle.std.specs.Prelude.{◌≡◌};
    ghost use Rattle.sno_edit.specs.Faults.{of_refused};

    ghost from_gives = { λ refused e. e ≡ of_refused refused };

    fn from(refused: RefusedStatement) -> FileFault {
        match refused.fault {
            FileStatementFault::Memory => FileFault::Memory,
            FileStatementFault::TextTooLong
            | FileStatementFault::TooManyTrials
            | FileStatementFault::HistoryTooLong => FileFault::Refused(refused),
        }
    }
}

impl fmt::Display for FileFault {
    fn fmt<W: fmt::Write>(&self, f: &mut fmt::Formatter<W>) -> fmt::Result {
        match self {
            FileFault::TooLong => f.write_str("longer than 16777216 bytes"),
            FileFault::Refused(refused) => {
                let number = refused.statement;
                let fault = refused.fault;
                write!(f, "statement {number}: {fault}")
            }
            FileFault::Cut(cut) => {
                let number = cut.statement;
                let Position { line, column, .. } = cut.position;
                write!(
                    f,
                    "statement {number}: cuts a character at line {line}, column {column}"
                )
            }
            FileFault::Unread(kind) => write!(f, "read failed: {kind}"),
            FileFault::Unwritten(kind) => write!(f, "write failed: {kind}"),
            FileFault::Memory => f.write_str("out of memory"),
        }
    }
}
