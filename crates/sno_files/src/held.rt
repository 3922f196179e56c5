//! Files that are held while they are edited.
ghost use Rattle.std.specs.Prelude.{◌≡◌, ◌≤◌, ◌<◌, ◌+◌, length, vec_len, vec_capacity, is_some, true, IfOk, OnOk};

use crate::new_files::{Writing, is_same_file, stage, write_fault};
use crate::overtaken::OVERTAKEN;
use crate::reading::{bytes_of, not_too_long, open_regular, read_fault};
use crate::synced::{replace_synced, replace_together};
use crate::taking_places::put_in_place;
use sno_edit::{Folder, NewText, ReadFault, WriteFault};
use std::alloc::{AllocError, Global};
use std::fs::{File, Metadata, TryLockError};
use std::io;
use std::io::ErrorKind;
use std::os::unix::fs::MetadataExt;
use std::rt::Files;

/// How many times a file is opened that has another's place each time.
const OPENINGS: u32 = 1_000;

/// A file that is open and locked, unless its file system has no locks.
#[derive(Drop)]
pub(crate) struct HeldFile<'p> {
    /// The path by which it was named.
    path: &'p str,
    /// Its own path: of a symbolic link what it leads to.
    pub(crate) target: String,
    file: File,
    /// What it was before it was read.
    pub(crate) old: Metadata,
}

/// Whether both are of one file that was not written between them. Its names and permissions may have changed.
fn is_same_text(a: &Metadata, b: &Metadata) -> bool {
    is_same_file(a, b)
        && a.len() == b.len()
        && (a.mtime(), a.mtime_nsec()) == (b.mtime(), b.mtime_nsec())
}

/// Whether both are of one file that did not change between them.
fn is_unchanged_between(a: &Metadata, b: &Metadata) -> bool {
    is_same_text(a, b) && (a.ctime(), a.ctime_nsec()) == (b.ctime(), b.ctime_nsec())
}

impl HeldFile<'_> {
    /// Whether its paths still lead to it, and it has the length and the times that it had before it was read.
    pub(crate) fn is_unchanged<R: Files>(&self, rt: &R) -> bool {
        match (rt.metadata(self.path), rt.metadata(self.target.as_str())) {
            (Ok(named), Ok(own)) => is_unchanged_between(&named, &self.old)
                && is_unchanged_between(&own, &self.old),
            _ => false,
        }
    }

    /// Whether this path leads to it, and not through a symbolic link.
    pub(crate) fn is_at<R: Files>(&self, rt: &R, path: &str) -> bool {
        match rt.symlink_metadata(path) {
            Ok(named) => is_same_file(&named, &self.old),
            Err(_) => false,
        }
    }

    /// Whether it has the length and the time of its text that it had before it was read, wherever its paths lead.
    pub(crate) fn has_its_text(&self) -> bool {
        match self.file.metadata() {
            Ok(now) => is_same_text(&now, &self.old),
            Err(_) => false,
        }
    }
}

/// The path of the file that a path leads to: of a symbolic link its target.
fn target_of<R: Files>(rt: &R, alloc: Global, path: &str) -> io::Result<String> {
    if rt.symlink_metadata(path)?.is_symlink() {
        let target = rt.canonicalize(alloc, path)?;
        return format!(in alloc; "{}", target.as_path().as_str()).map_err(io::Error::from);
    }
    format!(in alloc; "{path}").map_err(io::Error::from)
}

/// Locks a file, and returns whether another run does not hold it. If `waits`, that is waited for. A file system without locks
/// has no other run hold it.
fn lock(file: &File, waits: bool) -> bool
    ensures { waits ≡ true → result ≡ true }
{
    if waits {
        let _without_locks = file.lock();
        return true;
    }
    !matches!(file.try_lock(), Err(TryLockError::WouldBlock))
}

/// Opens a file and locks it; `None` if another run holds it.
fn hold_once<'p, R: Files<File = File>>(
    rt: &R,
    alloc: Global,
    path: &'p str,
    waits: bool,
) -> io::Result<Option<HeldFile<'p>>>
    ensures { IfOk result (λ held. waits ≡ true → is_some held ≡ true) }
{
    let file = open_regular(rt, path)?;
    if !lock(&file, waits) {
        return Ok(None);
    }
    let target = target_of(rt, alloc, path)?;
    let old = file.metadata()?;
    Ok(Some(HeldFile {
        path,
        target,
        file,
        old,
    }))
}

/// Opens a file and locks it; `None` if another run holds it and that is not to be waited for. While it is waited for, another
/// file may take its place: then that is opened.
fn hold<'p, R: Files<File = File>>(
    rt: &R,
    alloc: Global,
    path: &'p str,
    waits: bool,
) -> io::Result<Option<HeldFile<'p>>>
    ensures { IfOk result (λ held. waits ≡ true → is_some held ≡ true) }
{
    for _ in 0..OPENINGS {
        match hold_once(rt, alloc, path, waits)? {
            None => return Ok(None),
            Some(held) if held.is_unchanged(rt) => return Ok(Some(held)),
            Some(_) => {}
        }
    }
    Err(io::Error::from(OVERTAKEN))
}

/// A path, and the file that is held for it, or why there is none.
#[derive(Drop)]
struct Slot<'p> {
    path: &'p str,
    held: Result<HeldFile<'p>, ErrorKind>,
}

/// Holds the file at a path; `None` if another run holds it and that is not to be waited for.
fn held_at<'p, R: Files<File = File>>(
    rt: &R,
    alloc: Global,
    path: &'p str,
    waits: bool,
) -> Option<Slot<'p>>
    ensures { waits ≡ true → is_some result ≡ true }
{
    match hold(rt, alloc, path, waits) {
        Ok(Some(file)) => Some(Slot {
            path,
            held: Ok(file),
        }),
        Ok(None) => None,
        Err(e) => Some(Slot {
            path,
            held: Err(e.kind()),
        }),
    }
}

/// Files that are held, each under its path.
#[derive(Drop)]
pub(crate) struct HeldFiles<'a, R: Files<File = File>> {
    pub(crate) rt: &'a R,
    pub(crate) writing: Writing<'a>,
    slots: Vec<Slot<'a>>,
}

impl<'a, R: Files<File = File>> HeldFiles<'a, R> {
    /// Holds the first of the files, at most `most`. Only for the first file another run is waited for; one that another run
    /// holds ends them. So no two runs wait for each other.
    pub(crate) fn of(
        rt: &'a R,
        alloc: Global,
        writing: Writing<'a>,
        paths: &[&'a str],
        most: usize,
    ) -> Result<HeldFiles<'a, R>, AllocError>
        ensures few { IfOk result (λ held. (length held.slots.items ≤ length paths.now) × (length held.slots.items ≤ most)) }
        ensures some { IfOk result (λ held. 0 < most → 0 < length paths.now → 0 < length held.slots.items) }
    {
        let mut slots = Vec::new(alloc);
        for place in 0..most.min(paths.len()) {
            let Some(held) = held_at(rt, alloc, paths[place], place == 0) else {
                break;
            };
            slots.push(held)?;
        }
        Ok(HeldFiles { rt, writing, slots })
    }

    /// How many paths there are.
    pub(crate) fn len(&self) -> usize
        ensures { result ≡ length self.now.slots.items }
    {
        self.slots.len()
    }

    /// The file that is held for this path, or why there is none.
    pub(crate) fn file(&self, path: &str) -> Result<&HeldFile<'a>, ErrorKind> {
        match self.slots.iter().find(|slot| slot.path == path) {
            Some(slot) => slot.held.as_ref().map_err(|kind| *kind),
            None => Err(ErrorKind::NotFound),
        }
    }

    /// The bytes of the file that is held for this path, or only the first ones if there are more than `most`: then one more.
    fn bytes(&self, alloc: Global, path: &str, most: usize) -> io::Result<Vec<u8>> {
        let held = self.file(path).map_err(io::Error::from)?;
        bytes_of(alloc, &held.file, &held.old, most)
    }

    /// Puts a new file with these bytes in place of the one that is held for this path.
    fn replace_one(&self, alloc: Global, path: &str, bytes: &[u8]) -> io::Result<()> {
        let held = self.file(path).map_err(io::Error::from)?;
        let backup = self.writing.backup;
        if self.writing.sync {
            return replace_synced(self.rt, alloc, backup, held, bytes);
        }
        let new = stage(self.rt, alloc, held, bytes)?;
        put_in_place(self.rt, alloc, backup, held, &new)
    }
}

/// Replaces each of the files, one after the other, and adds its result.
fn replace_each<R: Files<File = File>>(
    alloc: Global,
    held: &HeldFiles<'_, R>,
    files: &[NewText<'_>],
    results: &mut Vec<Result<(), WriteFault>>,
)
    requires room { vec_len results.now + length files.now ≤ vec_capacity results.now }
    ensures len { length results.new.items ≡ length results.old.items + length files.now }
{
    for file in files {
        let replaced = held.replace_one(alloc, file.path, file.text.bytes());
        match results.push(replaced.map_err(write_fault)) {
            Ok(()) => {}
            Err(_) => unreachable!(),
        }
    }
}

/// Replaces each of the files, and adds its result. Refused only if out of memory. Then no file is changed.
fn replace_files<R: Files<File = File>>(
    alloc: Global,
    held: &HeldFiles<'_, R>,
    files: &[NewText<'_>],
    results: &mut Vec<Result<(), WriteFault>>,
) -> Result<(), AllocError>
    requires room { vec_len results.now + length files.now ≤ vec_capacity results.now }
    ensures len { OnOk result (length results.new.items ≡ length results.old.items + length files.now) }
{
    if held.writing.sync {
        return replace_together(alloc, held, files, results);
    }
    replace_each(alloc, held, files, results);
    Ok(())
}

impl<R: Files<File = File>> Folder for HeldFiles<'_, R> {
    ghost holds = { λ _ _ _. Unit {0} };

    fn read(&self, alloc: Global, path: &str, most: usize) -> Result<Vec<u8>, ReadFault> {
        match self.bytes(alloc, path, most) {
            Ok(bytes) => not_too_long(bytes, most),
            Err(e) => Err(read_fault(e)),
        }
    }

    fn replace(&mut self, alloc: Global, path: &str, bytes: &[u8]) -> Result<(), WriteFault> {
        match self.replace_one(alloc, path, bytes) {
            Ok(()) => Ok(()),
            Err(e) => Err(write_fault(e)),
        }
    }

    fn replace_all(
        &mut self,
        alloc: Global,
        files: &[NewText<'_>],
    ) -> Result<Vec<Result<(), WriteFault>>, AllocError> {
        let mut results = Vec::with_capacity(alloc, files.len())?;
        replace_files(alloc, self, files, &mut results)?;
        Ok(results)
    }
}
