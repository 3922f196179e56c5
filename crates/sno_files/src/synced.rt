//! New files that have to be on the disk before they take a place, so that files are whole after a crash of the machine too.
ghost use Rattle.std.specs.Prelude.{◌≡◌, ◌≤◌, ◌<◌, ◌+◌, length, vec_len, vec_capacity, OnOk};

use crate::folders::{SyncedFolders, folder_of};
use crate::held::{HeldFile, HeldFiles};
use crate::new_files::{NewFile, discard, stage, write_fault};
use crate::overtaken::of_edited;
use crate::taking_places::put_in_place;
use sno_edit::{NewText, WriteFault};
use std::alloc::{AllocError, Global};
use std::fs::File;
use std::io;
use std::rt::Files;

/// Puts a new file with these bytes in place of the one that is held, once they are on the disk. Its name may not be there yet.
fn replace_on_disk<R: Files<File = File>>(
    rt: &R,
    alloc: Global,
    backup: Option<&str>,
    held: &HeldFile<'_>,
    bytes: &[u8],
) -> io::Result<()> {
    let file = stage(rt, alloc, held, bytes)?;
    match file.sync() {
        Ok(()) => put_in_place(rt, alloc, backup, held, &file),
        Err(e) => {
            discard(rt, file.path.as_str());
            Err(e)
        }
    }
}

/// Waits until the new name of a file that was replaced is on the disk.
fn sync_name<R: Files<File = File>>(
    rt: &R,
    alloc: Global,
    folders: &mut SyncedFolders,
    held: &HeldFile<'_>,
) -> io::Result<()> {
    match folders.sync(rt, alloc, folder_of(held.target.as_str())) {
        Ok(()) => Ok(()),
        Err(e) => Err(io::Error::from(of_edited(e.kind()))),
    }
}

/// Puts a new file with these bytes in place of the one that is held, once they are on the disk, and waits for its name. If that wait
/// fails, it has its place.
pub(crate) fn replace_synced<R: Files<File = File>>(
    rt: &R,
    alloc: Global,
    backup: Option<&str>,
    held: &HeldFile<'_>,
    bytes: &[u8],
) -> io::Result<()> {
    replace_on_disk(rt, alloc, backup, held, bytes)?;
    sync_name(rt, alloc, &mut SyncedFolders::none(alloc), held)
}

/// A new file for a file that is held; without one if it can't be made.
fn staged<R: Files<File = File>>(
    alloc: Global,
    held: &HeldFiles<'_, R>,
    file: &NewText<'_>,
) -> Option<NewFile> {
    let old = held.file(file.path).ok()?;
    stage(held.rt, alloc, old, file.text.bytes()).ok()
}

/// Makes a new file for each of the files. If that fails for one, no new file of it is left.
fn stage_all<R: Files<File = File>>(
    alloc: Global,
    held: &HeldFiles<'_, R>,
    files: &[NewText<'_>],
    new: &mut Vec<Option<NewFile>>,
)
    requires room { vec_len new.now + length files.now ≤ vec_capacity new.now }
    ensures len { vec_len new.new ≡ vec_len new.old + length files.now }
{
    for file in files {
        match new.push(staged(alloc, held, file)) {
            Ok(()) => {}
            Err(_) => unreachable!(),
        }
    }
}

/// Whether there is a new file and its bytes are on the disk, after a wait. If not, no new file is left.
fn is_on_disk<R: Files<File = File>>(rt: &R, staged: &Option<NewFile>) -> bool {
    let Some(file) = staged else {
        return false;
    };
    let synced = file.sync().is_ok();
    if !synced {
        discard(rt, file.path.as_str());
    }
    synced
}

/// Waits for each new file until it is on the disk. Since all are written, the first wait is for most of them.
fn sync_all<R: Files<File = File>>(rt: &R, staged: &[Option<NewFile>], on_disk: &mut Vec<bool>)
    requires room { vec_len on_disk.now + length staged.now ≤ vec_capacity on_disk.now }
    ensures len { vec_len on_disk.new ≡ vec_len on_disk.old + length staged.now }
{
    for file in staged {
        match on_disk.push(is_on_disk(rt, file)) {
            Ok(()) => {}
            Err(_) => unreachable!(),
        }
    }
}

/// Puts a new file in its place if it is on the disk. If not, the file is replaced alone: after the others there may be
/// room for it.
fn finish<R: Files<File = File>>(
    alloc: Global,
    held: &HeldFiles<'_, R>,
    file: &NewText<'_>,
    staged: &Option<NewFile>,
    on_disk: bool,
) -> io::Result<()> {
    let backup = held.writing.backup;
    let old = held.file(file.path).map_err(io::Error::from)?;
    match staged {
        Some(new) if on_disk => put_in_place(held.rt, alloc, backup, old, new),
        _ => replace_on_disk(held.rt, alloc, backup, old, file.text.bytes()),
    }
}

/// Finishes each of the files, and adds its result.
fn finish_all<R: Files<File = File>>(
    alloc: Global,
    held: &HeldFiles<'_, R>,
    files: &[NewText<'_>],
    staged: &[Option<NewFile>],
    on_disk: &[bool],
    results: &mut Vec<Result<(), WriteFault>>,
)
    requires staged { length staged.now ≡ length files.now }
    requires on_disk { length on_disk.now ≡ length files.now }
    requires room { vec_len results.now + length files.now ≤ vec_capacity results.now }
    ensures len { length results.new.items ≡ length results.old.items + length files.now }
{
    for i in 0..files.len() {
        let result = finish(alloc, held, &files[i], &staged[i], on_disk[i]);
        match results.push(result.map_err(write_fault)) {
            Ok(()) => {}
            Err(_) => unreachable!(),
        }
    }
}

/// Waits until the new name of a file is on the disk, if it was replaced; the result is that of both.
fn settle<R: Files<File = File>>(
    alloc: Global,
    held: &HeldFiles<'_, R>,
    folders: &mut SyncedFolders,
    file: &NewText<'_>,
    replaced: &Result<(), WriteFault>,
) -> Result<(), WriteFault> {
    let Ok(()) = *replaced else {
        return *replaced;
    };
    match held.file(file.path) {
        Ok(old) => sync_name(held.rt, alloc, folders, old).map_err(write_fault),
        Err(kind) => Err(WriteFault::Failed(kind)),
    }
}

/// Waits for the names of all files that were replaced, once for each folder. `results` ends with those of these files.
fn settle_all<R: Files<File = File>>(
    alloc: Global,
    held: &HeldFiles<'_, R>,
    files: &[NewText<'_>],
    before: usize,
    results: &mut Vec<Result<(), WriteFault>>,
)
    requires all { length results.now.items ≡ before + length files.now }
    ensures len { length results.new.items ≡ length results.old.items }
{
    let mut folders = SyncedFolders::none(alloc);
    for i in 0..files.len() {
        results[before + i] = settle(alloc, held, &mut folders, &files[i], &results[before + i]);
    }
}

/// Replaces each of the files, and adds its result. New files are written, then each is waited for, then each takes its
/// place, and then the names in each folder are waited for: a wait after all writes can serve several of them. If that last wait
/// fails, the files of the folder have their places, and the fault.
///
/// Refused only if out of memory. Then no file is changed.
pub(crate) fn replace_together<R: Files<File = File>>(
    alloc: Global,
    held: &HeldFiles<'_, R>,
    files: &[NewText<'_>],
    results: &mut Vec<Result<(), WriteFault>>,
) -> Result<(), AllocError>
    requires room { vec_len results.now + length files.now ≤ vec_capacity results.now }
    ensures len { OnOk result (length results.new.items ≡ length results.old.items + length files.now) }
{
    let mut staged = Vec::with_capacity(alloc, files.len())?;
    let mut on_disk = Vec::with_capacity(alloc, files.len())?;
    stage_all(alloc, held, files, &mut staged);
    sync_all(held.rt, &staged, &mut on_disk);
    let before = results.len();
    finish_all(alloc, held, files, &staged, &on_disk, results);
    settle_all(alloc, held, files, before, results);
    Ok(())
}
