//! Why a desk refuses.
ghost use Rattle.std.specs.Prelude.{◌≡◌};
ghost use Rattle.sno_desk.specs.Faults.{of_view, of_book, of_snapshot, of_statement, of_commit};
ghost use Rattle.sno_desk.specs.declared.faults.SinceFault.TheVariants.{Memory as SinceMemory};
ghost use Rattle.sno_desk.specs.declared.faults.SubmitFault.TheVariants.{Memory as SubmitMemory};
ghost use Rattle.sno_desk.specs.declared.faults.WorkersFault.TheVariants.{Memory as WorkersMemory};

use sno_book::CommitFault as BookRefusal;
use sno_published::ViewFault;
use sno_statement::StatementFault;
use std::alloc::{AllocError, AllocFailed};
use thiserror::Error;

/// Why no desk was made. The book comes back as it was.
#[derive(Clone, Copy, Debug, PartialEq, Eq, Error)]
pub enum DeskFault {
    /// Out of memory.
    #[error("out of memory")]
    Memory,
    /// There was no place for a reader.
    #[error("no place for a reader")]
    NoReader,
}

/// Why a seat got no snapshot.
#[derive(Clone, Copy, Debug, PartialEq, Eq, Error)]
pub enum SnapshotFault {
    /// The desk's opening has no text of that name.
    #[error("no text")]
    NoText,
    /// Nothing is shown to the seat any more, or less than it has seen, which no legal run meets.
    #[error("stopped")]
    Stopped,
    /// Out of memory: the text could not be shared.
    #[error("out of memory")]
    Memory,
}

/// Why a seat didn't look at what is shown. Nothing more was seen.
#[derive(Clone, Copy, Debug, PartialEq, Eq, Error)]
pub enum LookFault {
    /// The desk's opening has no text of that name.
    #[error("no text")]
    NoText,
    /// Nothing is shown to the seat any more, or less than it has seen, which no legal run meets.
    #[error("stopped")]
    Stopped,
}

/// Why a desk shared no entries. Its journal is as it was.
#[derive(Clone, Copy, Debug, PartialEq, Eq, Error)]
pub enum SinceFault {
    /// Nothing is shown to the seat any more, or it has seen more than the journal has, which no legal run meets.
    #[error("stopped")]
    Stopped,
    /// Out of memory.
    #[error("out of memory")]
    Memory,
}

/// Why a proposal is not accepted at a desk. No entry was added.
#[derive(Clone, Copy, Debug, PartialEq, Eq, Error)]
pub enum CommitFault {
    /// An earlier publish was refused and stopped the desk, nothing is shown to the seat any more, or the seat has seen
    /// more than the journal has. No legal run meets the last.
    #[error("stopped")]
    Stopped,
    /// The opening has no text of the statement's name, or has it at another place than the snapshot's.
    #[error("no text")]
    NoText,
    /// The text has another version than the snapshot.
    #[error("changed from version {seen} to {now}")]
    Changed {
        /// The version of the snapshot.
        seen: u64,
        /// The version of the text.
        now: u64,
    },
    /// The journal has as many entries as it may hold.
    #[error("full")]
    Full,
    /// Out of memory. If the publish itself ran out of memory, the desk is stopped.
    #[error("out of memory")]
    Memory,
}

/// Why a statement was not accepted. No entry was added.
#[derive(Clone, Copy, Debug, PartialEq, Eq, Error)]
pub enum SubmitFault {
    /// The book has no text of the statement's name.
    #[error("no text")]
    NoText,
    /// The gate was shut for the statement at one of its attempts.
    #[error("gate shut")]
    GateShut,
    /// The new text would have had more than 65,536 characters.
    #[error("text too long")]
    TextTooLong,
    /// The desk was stopped, nothing is shown to the seat any more, or the seat has seen more than the journal has. No
    /// legal run meets the last.
    #[error("stopped")]
    Stopped,
    /// The journal has as many entries as it may hold.
    #[error("full")]
    Full,
    /// Out of memory.
    #[error("out of memory")]
    Memory,
    /// The text changed under the statement at each of its tries.
    #[error("tries spent at version {now}, seen {seen}")]
    TriesSpent {
        /// The version of the last try's snapshot.
        seen: u64,
        /// The version of the text at the last try's commit.
        now: u64,
    },
    /// The match takes more trials than the statement's limit.
    #[error("too many trials")]
    TooManyTrials,
}

/// Why a desk could not be closed as it should. The book comes back.
#[derive(Clone, Copy, Debug, PartialEq, Eq, Error)]
pub enum CloseFault {
    /// The book's opening is not the desk's. No legal run meets this.
    #[error("another opening")]
    Opening,
    /// The book's journal does not begin with what one of the seats has seen or was shown. No legal run meets this.
    #[error("another journal")]
    Journal,
}

/// Why a caller's work at a desk left no closed book. The book comes back.
#[derive(Clone, Copy, Debug, PartialEq, Eq, Error)]
pub enum AtDeskFault {
    /// No desk was made, and nobody has worked.
    #[error(transparent)]
    Desk(DeskFault),
    /// The desk could not be closed as it should. No legal run meets this.
    #[error(transparent)]
    Close(CloseFault),
}

/// Why workers returned no replies. Some jobs may have been accepted then. The desk and its seats are valid.
#[derive(Clone, Copy, Debug, PartialEq, Eq, Error)]
pub enum WorkersFault {
    /// Out of memory.
    #[error("out of memory")]
    Memory,
}

impl From<ViewFault> for SnapshotFault {
    ghost from_gives = { λ fault e. e ≡ of_view fault };

    fn from(fault: ViewFault) -> SnapshotFault {
        match fault {
            ViewFault::Ended | ViewFault::Older => SnapshotFault::Stopped,
            ViewFault::Memory => SnapshotFault::Memory,
        }
    }
}

impl From<AllocError> for SinceFault {
    ghost from_gives = { λ _ e. e ≡ SinceMemory };

    fn from(_refused: AllocError) -> SinceFault {
        SinceFault::Memory
    }
}

impl<T: Drop> From<AllocFailed<T>> for SinceFault {
    ghost from_gives = { λ _ e. e ≡ SinceMemory };

    fn from(_refused: AllocFailed<T>) -> SinceFault {
        SinceFault::Memory
    }
}

impl From<BookRefusal> for CommitFault {
    ghost from_gives = { λ fault e. e ≡ of_book fault };

    fn from(fault: BookRefusal) -> CommitFault {
        match fault {
            BookRefusal::NoText => CommitFault::NoText,
            BookRefusal::Changed { seen, now } => CommitFault::Changed { seen, now },
            BookRefusal::Full => CommitFault::Full,
            BookRefusal::Memory => CommitFault::Memory,
        }
    }
}

impl From<SnapshotFault> for SubmitFault {
    ghost from_gives = { λ fault e. e ≡ of_snapshot fault };

    fn from(fault: SnapshotFault) -> SubmitFault {
        match fault {
            SnapshotFault::NoText => SubmitFault::NoText,
            SnapshotFault::Stopped => SubmitFault::Stopped,
            SnapshotFault::Memory => SubmitFault::Memory,
        }
    }
}

impl From<StatementFault> for SubmitFault {
    ghost from_gives = { λ fault e. e ≡ of_statement fault };

    fn from(fault: StatementFault) -> SubmitFault {
        match fault {
            StatementFault::TextTooLong => SubmitFault::TextTooLong,
            StatementFault::Memory => SubmitFault::Memory,
            StatementFault::TooManyTrials => SubmitFault::TooManyTrials,
        }
    }
}

impl From<CommitFault> for SubmitFault {
    ghost from_gives = { λ fault e. e ≡ of_commit fault };

    fn from(fault: CommitFault) -> SubmitFault {
        match fault {
            CommitFault::Stopped => SubmitFault::Stopped,
            CommitFault::NoText => SubmitFault::NoText,
            CommitFault::Changed { seen, now } => SubmitFault::TriesSpent { seen, now },
            CommitFault::Full => SubmitFault::Full,
            CommitFault::Memory => SubmitFault::Memory,
        }
    }
}

impl From<AllocError> for SubmitFault {
    ghost from_gives = { λ _ e. e ≡ SubmitMemory };

    fn from(_refused: AllocError) -> SubmitFault {
        SubmitFault::Memory
    }
}

impl<T: Drop> From<AllocFailed<T>> for WorkersFault {
    ghost from_gives = { λ _ e. e ≡ WorkersMemory };

    fn from(_refused: AllocFailed<T>) -> WorkersFault {
        WorkersFault::Memory
    }
}

impl From<AllocError> for WorkersFault {
    ghost from_gives = { λ _ e. e ≡ WorkersMemory };

    fn from(_refused: AllocError) -> WorkersFault {
        WorkersFault::Memory
    }
}
