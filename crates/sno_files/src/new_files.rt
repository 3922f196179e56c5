//! New files: how they are made, and what they get of the old ones.

use crate::folders::folder_of;
use crate::held::HeldFile;
use crate::owners::give_owner;
use sno_edit::WriteFault;
use std::alloc::Global;
use std::fs::{File, Metadata, OpenOptions};
use std::io;
use std::io::{ErrorKind, Read, Write};
use std::os::unix::fs::{MetadataExt, OpenOptionsExt, PermissionsExt};
use std::rt::Files;

/// How many names are tried for a new file.
const NAMES: u32 = 1_000;

/// With what the name of each new file begins, as `leftovers` has it too.
const PREFIX: &str = ".sno-edit-";

/// Where numbers come from that can't be foretold.
const RANDOM: &str = "/dev/urandom";

/// The permissions of a new file until it has its owner: nobody else may read it.
const UNFINISHED: u32 = 0o600;

/// How new texts are written.
#[derive(Clone, Copy, Debug, PartialEq, Eq)]
pub struct Writing<'o> {
    /// Whether a new file has to be on the disk before it takes the old one's place.
    pub sync: bool,
    /// What is added to the path of the old file, which is kept under that path; without it the old file goes.
    pub backup: Option<&'o str>,
}

/// A new file that is to take a place. It is open, and locked unless its file system has no locks: one that nobody has locked was
/// left by a run that was killed.
#[derive(Drop)]
pub(crate) struct NewFile {
    pub(crate) path: String,
    file: File,
}

impl NewFile {
    /// Whether its path still leads to it, and not to what another program has put there.
    pub(crate) fn is_there<R: Files>(&self, rt: &R) -> bool {
        leads_to(rt, self.path.as_str(), &self.file)
    }

    /// Waits until its bytes are on the disk.
    pub(crate) fn sync(&self) -> io::Result<()> {
        self.file.sync_all()
    }
}

/// Whether both are of one file.
pub(crate) fn is_same_file(a: &Metadata, b: &Metadata) -> bool {
    a.dev() == b.dev() && a.ino() == b.ino()
}

/// Whether the path leads to this open file, and not through a symbolic link.
pub(crate) fn leads_to<R: Files>(rt: &R, path: &str, file: &File) -> bool {
    match (rt.symlink_metadata(path), file.metadata()) {
        (Ok(named), Ok(own)) => is_same_file(&named, &own),
        _ => false,
    }
}

/// A number that can't be foretold.
fn random_number<R: Files<File = File>>(rt: &R) -> io::Result<u64> {
    let mut source = OpenOptions::new().read(true).open(rt, RANDOM)?;
    let mut bytes = [0u8; 8];
    source.read_exact(&mut bytes)?;
    Ok(u64::from_le_bytes(bytes))
}

/// Makes a file with this path, which nobody else may read; `None` if there is one.
fn create<R: Files<File = File>>(rt: &R, path: &str) -> io::Result<Option<File>> {
    match OpenOptions::new()
        .write(true)
        .create_new(true)
        .mode(UNFINISHED)
        .open(rt, path)
    {
        Ok(file) => Ok(Some(file)),
        Err(e) => match e.kind() {
            ErrorKind::AlreadyExists => Ok(None),
            _ => Err(e),
        },
    }
}

/// A new file in the folder; `None` if its name is taken, or another run removed it before it was locked.
fn made<R: Files<File = File>>(rt: &R, alloc: Global, folder: &str) -> io::Result<Option<NewFile>> {
    let number = random_number(rt)?;
    let path = format!(in alloc; "{folder}/{PREFIX}{number:016x}")?;
    let Some(file) = create(rt, path.as_str())? else {
        return Ok(None);
    };
    let _without_locks = file.lock();
    let new = NewFile { path, file };
    if new.is_there(rt) {
        Ok(Some(new))
    } else {
        Ok(None)
    }
}

/// A new file in the folder.
fn new_file<R: Files<File = File>>(rt: &R, alloc: Global, folder: &str) -> io::Result<NewFile> {
    for _ in 0..NAMES {
        if let Some(new) = made(rt, alloc, folder)? {
            return Ok(new);
        }
    }
    Err(io::Error::from(ErrorKind::AlreadyExists))
}

/// Refuses a file that isn't as long as it was written. On a server this look lets bytes be written that waited for the file to be closed.
fn check_length(file: &File, bytes: &[u8]) -> io::Result<()> {
    if file.metadata()?.len() == bytes.len() as u64 {
        Ok(())
    } else {
        Err(io::Error::from(ErrorKind::WriteZero))
    }
}

/// Gives a new file the owner of the old one, the bytes, and then the permissions: a change of the owner and a write take some away.
fn fill(file: &File, old: &Metadata, bytes: &[u8]) -> io::Result<()> {
    let mode = give_owner(file, old)?;
    let mut writer = file;
    writer.write_all(bytes)?;
    file.set_permissions(PermissionsExt::from_mode(mode))?;
    check_length(file, bytes)
}

/// Removes a new file that is not to take a place.
pub(crate) fn discard<R: Files>(rt: &R, path: &str) {
    let _left = rt.remove_file(path);
}

/// Makes a new file with these bytes beside the one that is held. If that fails, no new file is left.
pub(crate) fn stage<R: Files<File = File>>(
    rt: &R,
    alloc: Global,
    held: &HeldFile<'_>,
    bytes: &[u8],
) -> io::Result<NewFile> {
    let new = new_file(rt, alloc, folder_of(held.target.as_str()))?;
    match fill(&new.file, &held.old, bytes) {
        Ok(()) => Ok(new),
        Err(e) => {
            discard(rt, new.path.as_str());
            Err(e)
        }
    }
}

/// Why a file is not written.
pub(crate) fn write_fault(e: io::Error) -> WriteFault {
    match e.kind() {
        ErrorKind::OutOfMemory => WriteFault::Memory,
        kind => WriteFault::Failed(kind),
    }
}
