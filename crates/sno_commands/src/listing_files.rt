//! The file of a listing, which is opened before there is anything to list.

use crate::faults::ProgramFault;
use crate::streams::write_all;
use std::alloc::Global;
use std::fs::OpenOptions;
use std::io;
use std::rt::Files;

/// Where a listing goes.
#[derive(Drop)]
pub(crate) enum ListingFile<F> {
    /// It isn't asked for.
    Nowhere,
    /// To a new file, which takes the place of another one once it is whole.
    Beside {
        file: F,
        path: String,
        target: String,
    },
    /// To what is no regular file, as a pipe.
    Through(F),
}

/// A new file beside the one with this path, or beside the one that it links to.
fn beside<R: Files>(rt: &R, alloc: Global, path: &str) -> io::Result<ListingFile<R::File>> {
    let target = match rt.canonicalize(alloc, path) {
        Ok(target) => format!(in alloc; "{}", target.as_path().as_str())?,
        Err(_) => String::from_str(alloc, path)?,
    };
    let path = format!(in alloc; "{target}.new")?;
    let file = OpenOptions::new()
        .write(true)
        .create(true)
        .truncate(true)
        .open(rt, path.as_str())?;
    Ok(ListingFile::Beside { file, path, target })
}

/// What has this path and is no regular file.
fn through<R: Files>(rt: &R, path: &str) -> io::Result<ListingFile<R::File>> {
    let file = OpenOptions::new().write(true).open(rt, path)?;
    Ok(ListingFile::Through(file))
}

/// Opens the file of a listing. Refused with `Write`.
pub(crate) fn open_listing<R: Files>(
    rt: &R,
    alloc: Global,
    path: Option<&str>,
) -> Result<ListingFile<R::File>, ProgramFault> {
    let Some(path) = path else {
        return Ok(ListingFile::Nowhere);
    };
    let opened = match rt.metadata(path) {
        Ok(found) if !found.is_file() => through(rt, path),
        _ => beside(rt, alloc, path),
    };
    match opened {
        Ok(file) => Ok(file),
        Err(_) => Err(ProgramFault::Write),
    }
}

/// Writes the listing. If it can't be written whole, the file that was there stays as it was.
///
/// Refused with `Write`.
pub(crate) fn write_listing<R: Files>(
    rt: &R,
    file: ListingFile<R::File>,
    listing: &[u8],
) -> Result<(), ProgramFault> {
    match file {
        ListingFile::Nowhere => Ok(()),
        ListingFile::Through(mut file) => write_all(&mut file, listing),
        ListingFile::Beside {
            mut file,
            path,
            target,
        } => {
            let written = write_all(&mut file, listing);
            if written.is_err() || rt.rename(&path, &target).is_err() {
                let _left = rt.remove_file(&path);
                return Err(ProgramFault::Write);
            }
            Ok(())
        }
    }
}
