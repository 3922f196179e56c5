//! A store in a file of the system.
ghost use Rattle.std.specs.Prelude.{◌≡◌, true, false, IsTrue, IfOk};
ghost use Rattle.sqlite_std_file.specs.File.{IsFresh};
ghost use Rattle.sno_store.specs.Lines.{recovered};
ghost use Rattle.sno_store.specs.Shown.{lines_in};
ghost use Rattle.sno_store.specs.Store.{takes_lines, is_clean, file_of, lines_of, IsOnDisk};

use crate::{Lines, OpenFault, Store};
use sqlite_disk::{Disk, Files, Start, Unknown};
use sqlite_std_file::{File, FileFrom};
use std::fs::{self, Metadata, OpenOptions};
use std::io;
use std::os::unix::fs::{MetadataExt, OpenOptionsExt};

/// How many times a file is opened that another one replaces each time.
const OPENINGS: u32 = 1_000;

/// Opens the store in the file at `path`, or makes one of no lines. Returns it with its lines, which are on the disk then.
///
/// A new file may be read and written by its owner alone. Its folder is waited for too. The file is locked until the store is dropped,
/// against other processes and against this one. A torn tail stays as it is until the first write: see [`Store::is_torn`].
/// While the file is opened, an empty file whose name ends with `-wal` is made beside it and removed again, so the folder has to be one
/// in which files can be made. If a crash leaves it there, the next call removes it. A file that another one replaces before it is
/// locked is left, and the other one opened. The refusals, in their order:
///
/// - `Replaced`: that happened 1,000 times.
/// - `Io`: the file can't be made, opened, locked or waited for, or is a link, a device or a file with a second name.
/// - `Busy`: the file is in use.
/// - `Journal`: SQLite left a rollback journal beside the file.
/// - `Memory`: out of memory.
/// - `Load`: what [`Store::load`] returned.
///
/// After each refusal the file has what it had. A missing one may have been made, empty.
pub fn open(rt: &HostRuntime, path: &str) -> Result<(Store<File>, Lines), OpenFault>
    ensures open { IfOk result (λ it. takes_lines it.0 ≡ true) }
    ensures lines { IfOk result (λ it. IsTrue (is_clean it.0) → lines_in it.1 ≡ lines_of it.0) }
{
    for _ in 0..OPENINGS {
        match open_from(rt, path, Unknown) {
            Err(OpenFault::Replaced) => {}
            opened => return opened,
        }
    }
    Err(OpenFault::Replaced)
}

/// Opens the file at `path` as [`open`] does, but once: `Replaced` if another one has its place then. The type `S` says what the file
/// held before, and how a crash is read, for code that is proved for all contents; `start` is a value of it, which no other file is
/// opened with.
pub fn open_from<S: Start>(
    rt: &HostRuntime,
    path: &str,
    start: S,
) -> Result<(Store<FileFrom<S>>, Lines), OpenFault>
    ensures open { IfOk result (λ it. takes_lines it.0 ≡ true) }
    ensures file { IfOk result (λ it. file_of it.0 ≡ S.Start.db) }
    ensures lines { IfOk result (λ it. IsTrue (is_clean it.0) → lines_in it.1 ≡ recovered S.Start.db) }
    ensures durable { IfOk result (λ it. IsTrue (is_clean it.0) → IsOnDisk it.0) }
{
    let mut store = Store::new(open_in_place(rt, path, start)?);
    let lines = store.load(rt.alloc())?;
    Ok((store, lines))
}

/// Opens and locks the file, and makes it if it is missing. What has its place when it is locked is the file that was opened.
fn open_in_place<S: Start>(rt: &HostRuntime, path: &str, start: S) -> Result<FileFrom<S>, OpenFault>
    ensures { IfOk result (λ file. IsFresh false file) }
{
    make_if_missing(rt, path)?;
    // While it is open its number isn't another file's.
    let first = open_regular(rt, path)?;
    let old = first.metadata()?;
    let opened = open_alone(rt, path, start);
    if !has_place(rt, path, &old) {
        return Err(OpenFault::Replaced);
    }
    opened
}

/// Opens a regular file. To open what is none may mean to wait.
fn open_regular(rt: &HostRuntime, path: &str) -> io::Result<fs::File> {
    if !fs::metadata(rt, path)?.is_file() {
        return Err(io::Error::from(io::ErrorKind::Unsupported));
    }
    fs::File::open(rt, path)
}

/// Whether the path leads to this file.
fn has_place(rt: &HostRuntime, path: &str, file: &Metadata) -> bool {
    match fs::metadata(rt, path) {
        Ok(found) => found.dev() == file.dev() && found.ino() == file.ino(),
        Err(_) => false,
    }
}

/// Opens and locks the file.
fn open_alone<S: Start>(rt: &HostRuntime, path: &str, start: S) -> Result<FileFrom<S>, OpenFault>
    ensures { IfOk result (λ file. IsFresh false file) }
{
    let Files { log, db } = sqlite_std_file::open(rt, path, start)?;
    remove_log(rt, path, log)?;
    Ok(db)
}

/// Makes an empty file that only its owner may read and write.
fn make_if_missing(rt: &HostRuntime, path: &str) -> io::Result<()> {
    match OpenOptions::new()
        .write(true)
        .create_new(true)
        .mode(0o600)
        .open(rt, path)
    {
        Ok(_made) => Ok(()),
        Err(error) if error.kind() == io::ErrorKind::AlreadyExists => Ok(()),
        Err(error) => Err(error),
    }
}

/// Removes the file that the library makes beside a database, if it is empty: a store has no use for it.
fn remove_log<D: Disk + Drop>(rt: &HostRuntime, path: &str, mut log: D) -> Result<(), OpenFault>
    requires { IsTrue (D.Disk.is_usable log) }
{
    let is_empty = log.len()? == 0;
    drop(log);
    if is_empty {
        let real = fs::canonicalize(rt, path)?;
        fs::remove_file(
            rt,
            format!(in rt.alloc(); "{}-wal", real.as_str())?.as_str(),
        )?;
    }
    Ok(())
}
