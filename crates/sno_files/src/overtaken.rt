//! Files that are to be edited anew.

use sno_edit::{Done, FileFault};
use std::io::ErrorKind;

/// What an edit fails with if another program changed the file meanwhile. A file that is gone on a server fails with it too.
pub(crate) const OVERTAKEN: ErrorKind = ErrorKind::StaleNetworkFileHandle;

/// What an edit fails with if another program wrote to the file just before the new text took its place, and the file can't be put back.
/// No call on a file fails with it.
pub(crate) const LOST: ErrorKind = ErrorKind::Deadlock;

/// Whether this is [`LOST`].
pub(crate) fn is_of_lost(kind: ErrorKind) -> bool {
    matches!(kind, ErrorKind::Deadlock)
}

/// The fault of a file that has its new text. A file with such a fault is not edited anew.
pub(crate) fn of_edited(kind: ErrorKind) -> ErrorKind {
    match kind {
        ErrorKind::StaleNetworkFileHandle | ErrorKind::StorageFull | ErrorKind::OutOfMemory => {
            ErrorKind::Other
        }
        kind => kind,
    }
}

/// Whether this is [`OVERTAKEN`].
pub(crate) fn is_of_overtaken(kind: ErrorKind) -> bool {
    matches!(kind, ErrorKind::StaleNetworkFileHandle)
}

/// What a read or a write of a file failed with.
fn failed_with(fault: FileFault) -> Option<ErrorKind> {
    match fault {
        FileFault::Unread(kind) => Some(kind),
        FileFault::Unwritten(kind) => Some(kind),
        _ => None,
    }
}

/// Whether another program changed the file while it was edited.
pub(crate) fn is_overtaken<X>(end: &Result<X, FileFault>) -> bool {
    match end {
        Ok(_) => false,
        Err(fault) => match failed_with(*fault) {
            Some(kind) => is_of_overtaken(kind),
            None => false,
        },
    }
}

/// Whether there was no room for the new file.
pub fn lacks_room<X>(end: &Result<X, FileFault>) -> bool {
    match end {
        Ok(_) => false,
        Err(fault) => match failed_with(*fault) {
            Some(kind) => matches!(kind, ErrorKind::StorageFull),
            None => false,
        },
    }
}

/// Whether the file is to be edited anew, alone: another program changed it, or there was no room for it while the old files of
/// others were held.
pub(crate) fn is_left(end: &Result<Done, FileFault>) -> bool {
    is_overtaken(end) || lacks_room(end)
}
