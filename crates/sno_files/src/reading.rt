//! Files that are read.
ghost use Rattle.std.specs.Prelude.{◌≡◌, ◌<◌, ◌≤◌, length, Err, IfOk, IfSome};
ghost use Rattle.sno_edit.specs.declared.folders.ReadFault.TheVariants.{TooLong};

use crate::texts::{LOOKED_AT, is_text};
use sno_edit::{Folder, NewText, ReadFault, WriteFault};
use std::alloc::{AllocError, Global};
use std::fs::{File, Metadata, OpenOptions};
use std::io;
use std::io::{ErrorKind, Read};
use std::rt::Files;

/// The metadata of a file, through symbolic links. Only a regular file is taken.
pub(crate) fn regular<R: Files>(rt: &R, path: &str) -> io::Result<Metadata> {
    let metadata = rt.metadata(path)?;
    if metadata.is_dir() {
        return Err(io::Error::from(ErrorKind::IsADirectory));
    }
    if !metadata.is_file() {
        return Err(io::Error::from(ErrorKind::InvalidInput));
    }
    Ok(metadata)
}

/// Opens a regular file.
pub(crate) fn open_regular<R: Files<File = File>>(rt: &R, path: &str) -> io::Result<File> {
    let _regular = regular(rt, path)?;
    open(rt, path)
}

/// Opens a file.
fn open<R: Files<File = File>>(rt: &R, path: &str) -> io::Result<File> {
    OpenOptions::new().read(true).open(rt, path)
}

/// Memory for the bytes of a file: for as many as it says that it has, at most `most`, and one more.
fn room_for(alloc: Global, metadata: &Metadata, most: usize) -> io::Result<Vec<u8>> {
    let room = metadata.len().min(most as u64).saturating_add(1) as usize;
    Ok(Vec::with_capacity(alloc, room)?)
}

/// Adds the bytes of an open file, up to its end, or only the first ones if there are then more than `most`: then one more.
fn read_on(file: &File, most: usize, bytes: &mut Vec<u8>) -> io::Result<()> {
    let left = most.saturating_add(1).saturating_sub(bytes.len());
    let mut reader = file.take(left as u64);
    let _count = reader.read_to_end(bytes)?;
    Ok(())
}

/// The bytes of an open file up to its end, or only the first ones if there are more than `most`: then one more.
pub(crate) fn bytes_of(
    alloc: Global,
    file: &File,
    metadata: &Metadata,
    most: usize,
) -> io::Result<Vec<u8>> {
    let mut bytes = room_for(alloc, metadata, most)?;
    read_on(file, most, &mut bytes)?;
    Ok(bytes)
}

/// The bytes of a regular file up to its end, or only the first ones if there are more than `most`: then one more.
fn bytes_at<R: Files<File = File>>(
    rt: &R,
    alloc: Global,
    path: &str,
    most: usize,
) -> io::Result<Vec<u8>> {
    let metadata = regular(rt, path)?;
    let file = open(rt, path)?;
    bytes_of(alloc, &file, &metadata, most)
}

/// As [`bytes_at`], if the file is text; otherwise `None`, and no more than its first bytes were read.
fn text_at<R: Files<File = File>>(
    rt: &R,
    alloc: Global,
    path: &str,
    most: usize,
) -> io::Result<Option<Vec<u8>>> {
    let metadata = regular(rt, path)?;
    let file = open(rt, path)?;
    let mut bytes = room_for(alloc, &metadata, most)?;
    read_on(&file, LOOKED_AT - 1, &mut bytes)?;
    if !is_text(&bytes) {
        return Ok(None);
    }
    if bytes.len() == LOOKED_AT {
        read_on(&file, most, &mut bytes)?;
    }
    Ok(Some(bytes))
}

/// The fault of a read.
pub(crate) fn read_fault(e: io::Error) -> ReadFault
    ensures { result ≡ TooLong → ⊥ }
{
    match e.kind() {
        ErrorKind::OutOfMemory => ReadFault::Memory,
        kind => ReadFault::Failed(kind),
    }
}

/// These bytes, unless there are more than `most`.
pub(crate) fn not_too_long(bytes: Vec<u8>, most: usize) -> Result<Vec<u8>, ReadFault>
    ensures short { IfOk result (λ bytes. length bytes.items ≤ most) }
    ensures long { result ≡ Err TooLong → most < length bytes.items }
{
    if bytes.len() > most {
        return Err(ReadFault::TooLong);
    }
    Ok(bytes)
}

/// The bytes of a regular file, through symbolic links, if it is text; `None` if it has a NUL in its first 8,192 bytes. Then no more
/// of them are read.
///
/// Refused as [`ReadOnly`] refuses to read it.
pub fn text_bytes<R: Files<File = File>>(
    rt: &R,
    alloc: Global,
    path: &str,
    most: usize,
) -> Result<Option<Vec<u8>>, ReadFault>
    ensures { IfOk result (λ read. IfSome read (λ bytes. length bytes.items ≤ most)) }
{
    match text_at(rt, alloc, path, most) {
        Ok(None) => Ok(None),
        Ok(Some(bytes)) => Ok(Some(not_too_long(bytes, most)?)),
        Err(e) => Err(read_fault(e)),
    }
}

/// The files of the system, for those who only read them. They are not locked, and each replacement is refused.
#[derive(Drop)]
pub struct ReadOnly<'a, R: Files<File = File>> {
    /// The system.
    pub rt: &'a R,
}

impl<R: Files<File = File>> Folder for ReadOnly<'_, R> {
    ghost holds = { λ _ _ _. Unit {0} };

    /// The bytes of a regular file, through symbolic links.
    ///
    /// Refused with `TooLong` if there are more than `most`; with `Failed` if it can't be opened or read, if it is a folder
    /// (`IsADirectory`) or no regular file (`InvalidInput`); with `Memory`.
    fn read(&self, alloc: Global, path: &str, most: usize) -> Result<Vec<u8>, ReadFault> {
        match bytes_at(self.rt, alloc, path, most) {
            Ok(bytes) => not_too_long(bytes, most),
            Err(e) => Err(read_fault(e)),
        }
    }

    /// Refused with `Failed`. No file is changed.
    fn replace(&mut self, _alloc: Global, _path: &str, _bytes: &[u8]) -> Result<(), WriteFault> {
        Err(WriteFault::Failed(ErrorKind::Unsupported))
    }

    /// Refused. No file is changed.
    fn replace_all(
        &mut self,
        _alloc: Global,
        _files: &[NewText<'_>],
    ) -> Result<Vec<Result<(), WriteFault>>, AllocError> {
        Err(AllocError)
    }
}
