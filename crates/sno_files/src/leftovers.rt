//! New files that runs left which were killed.

ghost use Rattle.std.specs.Prelude.{◌≡◌, ◌⊎◌, ◌++◌, true};
ghost use Rattle.sno_files.specs.Leftovers.{is_of_number, IsOfRun};
ghost use Rattle.sno_files.specs.declared.leftovers.TheConstants.{OLD};
ghost use Rattle.std.specs.List.{list_all};

use crate::folders::folder_of;
use crate::new_files::{discard, leads_to};
use std::alloc::{AllocError, Global};
use std::fs::{File, OpenOptions};
use std::io;
use std::io::Read;
use std::rt::Files;

/// How many bytes of names are read at once. No name has as many.
const PIECE: usize = 4_096;

/// With what the name of a new file begins.
const START: &[u8] = b".sno-edit-";

/// With what the name of an old file ends that is to be put back.
const OLD: &[u8] = b"-old";

/// Whether the character is one of those after the first ones of a new file's name.
fn is_of_number(character: &u8) -> bool
    ensures { result ≡ is_of_number character.now }
{
    matches!(*character, b'0'..=b'9' | b'a'..=b'f' | b'-')
}

/// Whether these are all characters of a new file's number.
fn are_of_number(characters: &[u8]) -> bool
    ensures { result ≡ list_all is_of_number characters.now }
{
    characters.iter().all(|character| is_of_number(character))
}

/// What comes before the end of the name of an old file that is to be put back; all, if the name has no such end.
#[tactic(auto, using(crate::proofs::NameLemmas::end_kept))]
fn before_old(name: &[u8]) -> &[u8]
    ensures { (name.now ≡ result.now) ⊎ (name.now ≡ result.now ++ OLD.now) }
{
    match name.strip_suffix(OLD) {
        Some(before) => before,
        None => name,
    }
}

/// Whether a file with this name is a new file of a run, or an old one that such a run would put back.
fn is_of_run(name: &[u8]) -> bool
    ensures { result ≡ true → IsOfRun name.now }
{
    let Some(rest) = name.strip_prefix(START) else {
        return false;
    };
    let number = before_old(rest);
    !number.is_empty() && are_of_number(number)
}

/// Removes a regular file, if it is one that nobody has locked. On a file system without locks nothing is known of it, and it stays.
fn remove_unlocked<R: Files<File = File>>(rt: &R, path: &str) {
    let is_regular = match rt.symlink_metadata(path) {
        Ok(metadata) => metadata.is_file(),
        Err(_) => false,
    };
    if !is_regular {
        return;
    }
    let Ok(file) = OpenOptions::new().read(true).open(rt, path) else {
        return;
    };
    if file.try_lock().is_ok() && leads_to(rt, path, &file) {
        discard(rt, path);
    }
}

/// Removes what is left among these names of a folder, each ended by a NUL.
fn remove_named<R: Files<File = File>>(
    rt: &R,
    alloc: Global,
    folder: &str,
    names: &[u8],
) -> Result<(), AllocError> {
    for name in names.split(|byte| *byte == 0) {
        if is_of_run(name) {
            let name = str::from_utf8(name).unwrap_or("");
            let path = format!(in alloc; "{folder}/{name}")?;
            remove_unlocked(rt, path.as_str());
        }
    }
    Ok(())
}

/// Removes what is left in a folder. One that can't be read stays as it is.
fn remove_in<R: Files<File = File>>(rt: &R, alloc: Global, folder: &str) -> Result<(), AllocError> {
    let path = if folder.is_empty() { "/" } else { folder };
    let Ok(mut dir) = rt.open_dir(path) else {
        return Ok(());
    };
    let mut names = [0u8; PIECE];
    for _ in 0..u64::MAX {
        match dir.read(&mut names) {
            Ok(0) | Err(_) => break,
            Ok(count) => remove_named(rt, alloc, folder, &names[..count])?,
        }
    }
    Ok(())
}

/// The folders of these files, sorted, each once.
fn folders_of<'p>(alloc: Global, paths: &[&'p str]) -> Result<Vec<&'p str>, AllocError> {
    let mut folders = Vec::new(alloc);
    for path in paths {
        let folder = folder_of(path);
        if folders.last() != Some(&folder) {
            folders.push(folder)?;
        }
    }
    folders.sort()?;
    folders.dedup();
    Ok(folders)
}

/// Removes from the folders of these files the new files that killed runs left there: those with such a name that nobody has locked.
/// What can't be removed stays. Of a path that is a symbolic link it is the folder that has the link.
///
/// Refused only if memory runs out. Then some may be removed.
pub fn remove_leftovers<R: Files<File = File>>(
    rt: &R,
    alloc: Global,
    paths: &[&str],
) -> Result<(), AllocError> {
    for folder in folders_of(alloc, paths)? {
        remove_in(rt, alloc, folder)?;
    }
    Ok(())
}
