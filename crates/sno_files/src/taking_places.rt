//! How new files take the places of old ones.

use crate::held::HeldFile;
use crate::new_files::{NewFile, discard};
use crate::overtaken::{LOST, OVERTAKEN};
use std::alloc::Global;
use std::io;
use std::io::ErrorKind;
use std::rt::Files;

/// The path under which the old file is kept until the new one has its place.
fn link_path(alloc: Global, new: &NewFile) -> io::Result<String> {
    let path = new.path.as_str();
    Ok(format!(in alloc; "{path}-old")?)
}

/// Keeps the old file under its path with the suffix, in place of what was there. It keeps its own path too, so that there is
/// a file at each moment.
fn keep_old<R: Files>(
    rt: &R,
    alloc: Global,
    new: &NewFile,
    target: &str,
    suffix: &str,
) -> io::Result<()> {
    let link = link_path(alloc, new)?;
    let kept = format!(in alloc; "{target}{suffix}")?;
    rt.hard_link(target, link.as_str())?;
    let renamed = rt.rename(link.as_str(), kept.as_str());
    // It is still there if nothing was renamed, since the file had both names before.
    discard(rt, link.as_str());
    renamed
}

/// A second path of the file that is held, by which it can be put back; `None` if it can have none. If its own path no longer leads to
/// it, another program has changed that.
fn second_path<R: Files>(
    rt: &R,
    alloc: Global,
    held: &HeldFile<'_>,
    new: &NewFile,
) -> io::Result<Option<String>> {
    let link = link_path(alloc, new)?;
    if rt.hard_link(held.target.as_str(), link.as_str()).is_err() {
        return Ok(None);
    }
    if held.is_at(rt, link.as_str()) {
        return Ok(Some(link));
    }
    discard(rt, link.as_str());
    // Some file systems give each name of a file another number.
    if held.is_at(rt, held.target.as_str()) {
        Ok(None)
    } else {
        Err(io::Error::from(OVERTAKEN))
    }
}

/// Puts the old file back, which another program has changed before the new one took its place. Returns why the new text is not there:
/// then the file may be edited anew, or else the other program's text is lost.
fn put_back<R: Files>(rt: &R, target: &str, link: Option<&str>) -> ErrorKind {
    match link {
        Some(link) if rt.rename(link, target).is_ok() => OVERTAKEN,
        _ => LOST,
    }
}

/// Puts the new file in place of the one that is held, whose second path is this. If another program wrote to that just before, it is
/// put back.
fn exchange<R: Files>(
    rt: &R,
    held: &HeldFile<'_>,
    new: &NewFile,
    link: Option<&str>,
) -> io::Result<()> {
    let target = held.target.as_str();
    let renamed = rt.rename(new.path.as_str(), target);
    if renamed.is_ok() && !held.has_its_text() {
        return Err(io::Error::from(put_back(rt, target, link)));
    }
    if let Some(link) = link {
        discard(rt, link);
    }
    renamed
}

/// Puts a new file in place of the one that is held, unless another program has changed that or the new one.
fn take_place<R: Files>(
    rt: &R,
    alloc: Global,
    backup: Option<&str>,
    held: &HeldFile<'_>,
    new: &NewFile,
) -> io::Result<()> {
    if !held.is_unchanged(rt) || !new.is_there(rt) {
        return Err(io::Error::from(OVERTAKEN));
    }
    if let Some(suffix) = backup {
        keep_old(rt, alloc, new, held.target.as_str(), suffix)?;
    }
    let link = second_path(rt, alloc, held, new)?;
    exchange(rt, held, new, link.as_ref().map(|link| link.as_str()))
}

/// Puts a new file in place of the one that is held. If that fails, it is removed, and the old one has its place.
pub(crate) fn put_in_place<R: Files>(
    rt: &R,
    alloc: Global,
    backup: Option<&str>,
    held: &HeldFile<'_>,
    new: &NewFile,
) -> io::Result<()> {
    let placed = take_place(rt, alloc, backup, held, new);
    if placed.is_err() {
        discard(rt, new.path.as_str());
    }
    placed
}
