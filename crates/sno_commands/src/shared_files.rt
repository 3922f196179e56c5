//! Files that several threads share.
ghost use Rattle.std.specs.Prelude.{◌≡◌, length, vec_len, IfOk};

use sno_files::Place;
use std::alloc::{AllocError, Global};
use std::io;
use std::io::{ErrorKind, Write};

/// How many files a thread takes before what became of them is written. To begin threads takes as long as to read some forty files.
pub(crate) const SHARE: usize = 512;

/// The most bytes that are kept of what is shown of a file, until what comes before it is written. So a thread keeps at most 64 MiB.
pub(crate) const KEPT: usize = 131_072;

/// Bytes that are kept until what comes before them is written. No more than [`KEPT`] are taken.
#[derive(Drop)]
pub(crate) struct Kept {
    pub(crate) bytes: Vec<u8>,
}

impl Write for Kept {
    fn write(&mut self, bytes: &[u8]) -> io::Result<usize> {
        if bytes.len() > KEPT.saturating_sub(self.bytes.len()) {
            return Err(io::Error::from(ErrorKind::FileTooLarge));
        }
        self.bytes.extend_from_slice(bytes)?;
        Ok(bytes.len())
    }

    fn flush(&mut self) -> io::Result<()> {
        Ok(())
    }
}

/// A place for each of the paths.
pub(crate) fn places_of<'p, X: Drop>(
    alloc: Global,
    paths: &[&'p str],
) -> Result<Vec<Place<'p, X>>, AllocError>
    ensures { IfOk result (λ places. vec_len places ≡ length paths.now) }
{
    let mut places = Vec::with_capacity(alloc, paths.len())?;
    for path in paths {
        places.push(Place { path, result: None })?;
    }
    Ok(places)
}
