//! Why the program fails.
ghost use Rattle.std.specs.Prelude.{◌≡◌};
ghost use Rattle.bench_desk.specs.Faults.{status};

use sno_desk::{LookFault, SnapshotFault, SubmitFault};
use std::alloc::{AllocError, AllocFailed};
use thiserror::Error;

/// Why the program ends without its lines. Its printed form is the line for standard error.
#[derive(Clone, Copy, Debug, Error)]
pub enum Fault {
    /// The program doesn't know these arguments.
    #[error("usage: bench_desk [--submits N --writers W --readers R [--looks snapshots|eager|one|own] | --times N], where N is 1 to 1000000 submits or 1 to 100000 times, W is 1 to 16, and R is 0 to 16 - W")]
    Usage,
    /// A text or a statement of the load is invalid.
    #[error("no load")]
    NoLoad,
    /// No desk could be made.
    #[error("no desk")]
    NoDesk,
    /// Out of memory.
    #[error("out of memory")]
    Memory,
    /// The clock could not be read.
    #[error("clock failed")]
    Clock,
    /// A line could not be written.
    #[error("write failed")]
    Write,
    /// A statement was not accepted.
    #[error("a statement was refused: {0}")]
    Refused(SubmitFault),
    /// A reader got no snapshot.
    #[error("a snapshot was refused: {0}")]
    NoSnapshot(SnapshotFault),
    /// A reader could not read a text in place.
    #[error("a read was refused: {0}")]
    NoRead(LookFault),
    /// A reader saw a lower version than before.
    #[error("a version went down")]
    WentDown,
    /// A receipt's entry is not the journal's at its index.
    #[error("a receipt is not in the journal")]
    Elsewhere,
    /// Two receipts have the same index.
    #[error("two receipts for one entry")]
    Twice,
    /// A seat has accepted more or fewer statements than it has receipts.
    #[error("a seat counted wrong")]
    Miscounted,
    /// The desk's book came back with another opening.
    #[error("close failed")]
    Close,
}

impl Fault {
    /// The status with which the program ends: 3 for its arguments, 1 for a finding that is not as it should be, and
    /// otherwise 4.
    pub fn status(&self) -> u8
        ensures { result ≡ status self.now }
    {
        match self {
            Fault::Usage => 3,
            Fault::NoLoad | Fault::NoDesk | Fault::Memory | Fault::Clock | Fault::Write => 4,
            Fault::Refused(_)
            | Fault::NoSnapshot(_)
            | Fault::NoRead(_)
            | Fault::WentDown
            | Fault::Elsewhere
            | Fault::Twice
            | Fault::Miscounted
            | Fault::Close => 1,
        }
    }
}

impl From<AllocError> for Fault {
    fn from(_refused: AllocError) -> Fault {
        Fault::Memory
    }
}

impl<T: Drop> From<AllocFailed<T>> for Fault {
    fn from(_refused: AllocFailed<T>) -> Fault {
        Fault::Memory
    }
}

impl From<SnapshotFault> for Fault {
    fn from(fault: SnapshotFault) -> Fault {
        Fault::NoSnapshot(fault)
    }
}

impl From<LookFault> for Fault {
    fn from(fault: LookFault) -> Fault {
        Fault::NoRead(fault)
    }
}

impl From<SubmitFault> for Fault {
    fn from(fault: SubmitFault) -> Fault {
        Fault::Refused(fault)
    }
}
