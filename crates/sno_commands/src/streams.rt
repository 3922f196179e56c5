//! Bytes from a reader and to a writer.

use crate::faults::ProgramFault;
use std::alloc::Global;
use std::fs::{OpenFile, OpenOptions};
use std::io;
use std::io::{ErrorKind, Read, Write};
use std::os::unix::fs::OpenOptionsExt;
use std::rt::Files;

const PIECE: usize = 4_096;

/// Adds at most one piece of the reader after the bytes already read, and returns whether the end was not reached.
fn read_piece<R: Read>(reader: &mut R, bytes: &mut Vec<u8>) -> Result<bool, ProgramFault> {
    let mut piece = [0; PIECE];
    match reader.read(&mut piece) {
        Ok(count) => {
            bytes.extend_from_slice(&piece[..count])?;
            Ok(count > 0)
        }
        Err(_) => Err(ProgramFault::Read),
    }
}

/// The bytes of the reader up to its end, or only the first ones if there are more than `most`: then more than `most` of
/// them. `Read` if a read fails, even if it was only interrupted.
pub(crate) fn read_up_to<R: Read>(
    alloc: Global,
    reader: &mut R,
    most: usize,
) -> Result<Vec<u8>, ProgramFault> {
    let mut bytes = Vec::new(alloc);
    for _ in 0..u64::MAX {
        if bytes.len() > most || !read_piece(reader, &mut bytes)? {
            break;
        }
    }
    Ok(bytes)
}

/// Writes all bytes, as `sno_rewrite` does.
pub(crate) fn write_all<W: Write>(writer: &mut W, bytes: &[u8]) -> Result<(), ProgramFault> {
    match sno_rewrite::write_all(writer, bytes) {
        Ok(()) => Ok(()),
        Err(_) => Err(ProgramFault::Write),
    }
}

/// Makes a file of these bytes, which its owner alone may read and write, and waits until they are on the disk. Refused if something has the
/// name.
pub(crate) fn put_new<R: Files>(rt: &R, path: &str, bytes: &[u8]) -> io::Result<()> {
    let mut file = OpenOptions::new()
        .write(true)
        .create_new(true)
        .mode(0o600)
        .open(rt, path)?;
    match write_all(&mut file, bytes) {
        Ok(()) => file.sync_all(),
        Err(_) => Err(io::Error::from(ErrorKind::WriteZero)),
    }
}
