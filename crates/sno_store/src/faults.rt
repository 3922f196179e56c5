//! Why a store or its lines refuse.
ghost use Rattle.std.specs.Prelude.{◌≡◌};
ghost use Rattle.sno_store.specs.Faults.{of_write, of_sync};

use sqlite_disk::is_no_room;
use sqlite_std_file::OpenError;
use std::alloc::AllocError;
use std::io;
use thiserror::Error;

/// Why a call of a store fails.
#[derive(Clone, Copy, Debug, Error)]
pub enum StoreFault {
    /// The store isn't loaded, or an earlier call failed and what it wrote is unknown. Load it again, or open its file again.
    #[error("the store is closed")]
    Closed,
    /// A crash of this disk may leave other bytes than the old and the new ones.
    #[error("the disk isn't supported: a torn write may leave any bytes")]
    Unsupported,
    /// The file would have more than 2^62 bytes.
    #[error("the store is too long")]
    TooLong,
    /// Out of memory.
    #[error("out of memory")]
    Memory,
    /// The disk is full, or a quota is used up.
    #[error("no room on the disk")]
    NoRoom,
    /// The disk failed to read or to measure the file.
    #[error("reading failed: {0}")]
    Read(io::Error),
    /// The disk failed to write.
    #[error("writing failed: {0}")]
    Write(io::Error),
    /// The disk failed to say that what was written is on it.
    #[error("waiting for the disk failed: {0}")]
    Sync(io::Error),
}

/// The fault of a write that failed.
pub(crate) fn write_fault(error: io::Error) -> StoreFault
    ensures { result ≡ of_write error }
{
    if is_no_room(&error) {
        StoreFault::NoRoom
    } else {
        StoreFault::Write(error)
    }
}

/// The fault of a sync that failed.
pub(crate) fn sync_fault(error: io::Error) -> StoreFault
    ensures { result ≡ of_sync error }
{
    if is_no_room(&error) {
        StoreFault::NoRoom
    } else {
        StoreFault::Sync(error)
    }
}

/// Why bytes are not added to lines.
#[derive(Clone, Copy, Debug, PartialEq, Eq, Error)]
pub enum LineFault {
    /// They don't begin with `{`.
    #[error("a line has to begin with '{{'")]
    NoBrace,
    /// There is a line feed among them.
    #[error("a line feed inside a line")]
    LineFeed,
    /// There is a NUL among them.
    #[error("a NUL inside a line")]
    Nul,
    /// Out of memory.
    #[error("out of memory")]
    Memory,
}

/// Why the store of a file isn't opened.
#[derive(Clone, Copy, Debug, Error)]
pub enum OpenFault {
    /// Another file took its place while it was opened.
    #[error("the file was replaced while it was opened")]
    Replaced,
    /// Another process has the file open, or this one.
    #[error("the file is in use")]
    Busy,
    /// The file is a database of SQLite that only SQLite can put right, or has a file with its name and `-journal` beside it.
    #[error("the file has a rollback journal beside it")]
    Journal,
    /// The file can't be made, opened, locked or synced, or isn't a regular file with one name.
    #[error("{0}")]
    Io(io::Error),
    /// Out of memory.
    #[error("out of memory")]
    Memory,
    /// The file was opened, and its lines weren't loaded.
    #[error("{0}")]
    Load(StoreFault),
}

impl From<OpenError> for OpenFault {
    fn from(error: OpenError) -> OpenFault {
        match error {
            OpenError::Io(error) => OpenFault::Io(error),
            OpenError::OutOfMemory => OpenFault::Memory,
            OpenError::Busy => OpenFault::Busy,
            OpenError::HotJournal => OpenFault::Journal,
        }
    }
}

impl From<io::Error> for OpenFault {
    fn from(error: io::Error) -> OpenFault {
        OpenFault::Io(error)
    }
}

impl From<AllocError> for OpenFault {
    fn from(_refused: AllocError) -> OpenFault {
        OpenFault::Memory
    }
}

impl From<StoreFault> for OpenFault {
    fn from(fault: StoreFault) -> OpenFault {
        OpenFault::Load(fault)
    }
}
