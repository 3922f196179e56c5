//! What is under a name beside a store.

use sno_durable::StoreFacts;
use sno_store::LinesIter;
use std::alloc::{AllocError, Global};
use std::fs::OpenOptions;
use std::io::{ErrorKind, Read};
use std::rt::Files;
use std::{fs, io};

/// How the first line of a store begins.
const BEGINNING: &[u8] = b"{\"document\":";

/// What is under a name beside a store.
#[derive(Drop)]
pub(crate) enum Beside {
    /// There is nothing.
    Nothing,
    /// A store, which says this of itself.
    Store(StoreFacts),
    /// A store whose first line was cut while it was written: nothing of it was ever shown.
    Cut,
    /// Something else.
    Other,
}

/// Whether a file of these bytes, without a whole line, is what a crash leaves of a store's first line: a beginning of it, and zeros.
fn is_cut_store(bytes: &[u8]) -> bool {
    let front = match bytes.get(..BEGINNING.len()) {
        Some(front) => front,
        None => bytes,
    };
    let written = front.iter().take_while(|byte| **byte != 0).count();
    front.get(..written) == BEGINNING.get(..written)
        && front.iter().skip(written).all(|byte| *byte == 0)
}

/// The bytes of a regular file.
pub(crate) fn bytes_of<R: Files>(rt: &R, alloc: Global, path: &str) -> io::Result<Vec<u8>> {
    if !fs::metadata(rt, path)?.is_file() {
        return Err(io::Error::from(ErrorKind::InvalidInput));
    }
    let mut file = OpenOptions::new().read(true).open(rt, path)?;
    let mut bytes = Vec::new(alloc);
    file.read_to_end(&mut bytes)?;
    Ok(bytes)
}

/// What a file of these bytes is.
fn seen_in(alloc: Global, bytes: &[u8]) -> Result<Beside, AllocError> {
    if LinesIter::of_file(bytes).next().is_none() {
        return Ok(if is_cut_store(bytes) {
            Beside::Cut
        } else {
            Beside::Other
        });
    }
    match StoreFacts::of(alloc, LinesIter::of_file(bytes))? {
        Some(facts) => Ok(Beside::Store(facts)),
        None => Ok(Beside::Other),
    }
}

/// What is under this name. What can't be read is something else.
pub(crate) fn look_beside<R: Files>(
    rt: &R,
    alloc: Global,
    path: &str,
) -> Result<Beside, AllocError> {
    match rt.symlink_metadata(path) {
        Ok(found) if found.is_file() => {}
        Err(error) if error.kind() == ErrorKind::NotFound => return Ok(Beside::Nothing),
        _ => return Ok(Beside::Other),
    }
    match bytes_of(rt, alloc, path) {
        Ok(bytes) => seen_in(alloc, &bytes),
        Err(error) if error.kind() == ErrorKind::OutOfMemory => Err(AllocError),
        Err(_) => Ok(Beside::Other),
    }
}
