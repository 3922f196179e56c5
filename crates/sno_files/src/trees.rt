//! Folders, as the files in them.
ghost use Rattle.std.specs.Prelude.{◌<◌};

use crate::in_threads::{Place, places_of, side_by_side};
use crate::names::is_named;
use crate::paths::{Paths, lent};
use std::alloc::{AllocError, Global};
use std::fs::{File, Metadata};
use std::io::{ErrorKind, Write};
use std::rt::Files;
use std::thread::Threads;
use std::{fs, io, mem};

/// Files that were named one after the other, or the files of one folder.
#[derive(Drop)]
pub struct Part {
    /// Their paths: those of a folder in order.
    pub files: Vec<String>,
    /// Whether they are of a folder. Then those among them that are not text are to be left out.
    pub in_folder: bool,
}

impl Part {
    /// The paths of the files, in order. Refused only if memory runs out.
    pub fn lent(&self, alloc: Global) -> Result<Vec<&str>, AllocError> {
        let paths = lent(alloc, &self.files)?;
        Ok(paths)
    }
}

/// The files that are named, and those in the folders that are named. Nothing was read of them.
#[derive(Drop)]
pub struct Listed {
    /// The files, in the order in which they and their folders were named.
    pub parts: Vec<Part>,
    /// The folders that could not be read, with the reason.
    pub unread: Vec<(String, ErrorKind)>,
}

/// What is in a folder: the paths of its folders, and those of its files with a wanted name. Names that begin with a dot are left
/// out, and so are links to folders.
#[derive(Drop)]
struct Inside {
    folders: Vec<String>,
    files: Vec<String>,
}

/// The path of what has this name in a folder.
fn path_in(alloc: Global, folder: &str, name: &str) -> Result<String, AllocError> {
    if folder.ends_with('/') {
        format!(in alloc; "{folder}{name}")
    } else {
        format!(in alloc; "{folder}/{name}")
    }
}

/// Whether the path leads to a file, through symbolic links too. `metadata` is of the path itself.
fn is_file<R: Files>(rt: &R, path: &str, metadata: &Metadata) -> bool {
    if !metadata.is_symlink() {
        return metadata.is_file();
    }
    match rt.metadata(path) {
        Ok(target) => target.is_file(),
        Err(_) => false,
    }
}

fn list_folder<R: Files + AllocGlobal + Clone + Drop>(
    rt: &R,
    alloc: Global,
    folder: &str,
    names: &[&str],
) -> io::Result<Inside> {
    let mut found = Inside {
        folders: Vec::new(alloc),
        files: Vec::new(alloc),
    };
    for entry in fs::read_dir(rt, folder)? {
        let entry = entry?;
        let name = entry.file_name();
        if name.starts_with('.') {
            continue;
        }
        let path = path_in(alloc, folder, name)?;
        let metadata = entry.metadata()?;
        if metadata.is_dir() {
            found.folders.push(path)?;
        } else if is_named(name, names) && is_file(rt, path.as_str(), &metadata) {
            found.files.push(path)?;
        }
    }
    Ok(found)
}

/// Adds what is in a folder. Returns why it can't be read, if it can't.
fn put_inside<R: Files + AllocGlobal + Clone + Drop>(
    rt: &R,
    alloc: Global,
    folder: &str,
    names: &[&str],
    found: &mut Inside,
) -> Result<Option<ErrorKind>, AllocError> {
    match list_folder(rt, alloc, folder, names) {
        Ok(mut inside) => {
            found.folders.append(&mut inside.folders)?;
            found.files.append(&mut inside.files)?;
            Ok(None)
        }
        Err(e) => match e.kind() {
            ErrorKind::OutOfMemory => Err(AllocError),
            kind => Ok(Some(kind)),
        },
    }
}

/// How many folders a thread lists before those in them are left to the next thread that is free. To list them takes longer than to
/// begin threads, and a tree has more parts of this size than there are threads.
const TOGETHER: u64 = 16;

/// What was found below a folder: the files so far, in no order, the folders that are not listed yet, and those that can't be read.
#[derive(Drop)]
struct Below {
    inside: Inside,
    unread: Vec<(String, ErrorKind)>,
}

/// Lists at most this many of the folders in `inside`, and of those in them. What was found is added to it.
fn list_some<R: Files + AllocGlobal + Clone + Drop>(
    rt: &R,
    alloc: Global,
    names: &[&str],
    most: u64,
    inside: &mut Inside,
    unread: &mut Vec<(String, ErrorKind)>,
) -> Result<(), AllocError> {
    for _ in 0..most {
        let Some(folder) = inside.folders.pop() else {
            break;
        };
        if let Some(kind) = put_inside(rt, alloc, folder.as_str(), names, inside)? {
            unread.push((folder, kind))?;
        }
    }
    Ok(())
}

/// What is in this folder and no other yet.
fn only_folder(alloc: Global, folder: &str) -> Result<Inside, AllocError> {
    let mut folders = Vec::new(alloc);
    folders.push(String::from_str(alloc, folder)?)?;
    Ok(Inside {
        folders,
        files: Vec::new(alloc),
    })
}

/// Lists a folder, and some of those in it.
fn list_below<R: Files + AllocGlobal + Clone + Drop>(
    rt: &R,
    alloc: Global,
    folder: &str,
    names: &[&str],
) -> Result<Below, AllocError> {
    let mut inside = only_folder(alloc, folder)?;
    let mut unread = Vec::new(alloc);
    list_some(rt, alloc, names, TOGETHER, &mut inside, &mut unread)?;
    Ok(Below { inside, unread })
}

/// Lists each of these folders, and some of those in it, in at most `threads` threads.
fn list_each<'f, R: Files<File = File, Dir: Send> + AllocGlobal + Clone + Drop + Threads + Sync>(
    rt: &R,
    alloc: Global,
    names: &[&str],
    threads: usize,
    folders: &'f [String],
) -> Result<Vec<Place<'f, Result<Below, AllocError>>>, AllocError>
    requires { 0 < threads }
{
    let mut places = places_of(alloc, folders)?;
    side_by_side(
        rt,
        alloc,
        threads,
        &mut places,
        &|path: &str| list_below(rt, alloc, path, names),
    );
    Ok(places)
}

impl Listed {
    /// Writes a line for each folder that could not be read. If a line can't be written, the others are.
    pub fn report_unread<E: Write>(&self, errors: &mut E) {
        for (folder, kind) in &self.unread {
            let _printed = errors.writeln(format_args!("{folder}: read failed: {kind}"));
        }
    }

    /// How many files there are.
    pub fn count(&self) -> usize {
        self.parts.iter().fold(
            0_usize,
            |count, part| count.saturating_add(part.files.len()),
        )
    }

    /// Adds a file that was named.
    fn put_named(&mut self, alloc: Global, path: &str) -> Result<(), AllocError> {
        let path = String::from_str(alloc, path)?;
        if self.parts.last().is_none_or(|part| part.in_folder) {
            self.parts.push(Part {
                files: Vec::new(alloc),
                in_folder: false,
            })?;
        }
        if let Some(part) = self.parts.last_mut() {
            part.files.push(path)?;
        }
        Ok(())
    }

    /// Lists the folders in `found`, and some of those in them, in at most `threads` threads. What was found is added to it.
    fn put_round<R: Files<File = File, Dir: Send> + AllocGlobal + Clone + Drop + Threads + Sync>(
        &mut self,
        rt: &R,
        alloc: Global,
        names: &[&str],
        threads: usize,
        found: &mut Inside,
    ) -> Result<(), AllocError>
        requires { 0 < threads }
    {
        let folders = mem::replace(&mut found.folders, Vec::new(alloc));
        for place in list_each(rt, alloc, names, threads, &folders)? {
            let Some(below) = place.result else {
                return Err(AllocError);
            };
            let Below {
                mut inside,
                mut unread,
            } = below?;
            found.folders.append(&mut inside.folders)?;
            found.files.append(&mut inside.files)?;
            self.unread.append(&mut unread)?;
        }
        Ok(())
    }

    /// Adds the files in a folder, at any depth, in the order of their paths. Its folders are listed in at most `threads` threads.
    fn put_folder<R: Files<File = File, Dir: Send> + AllocGlobal + Clone + Drop + Threads + Sync>(
        &mut self,
        rt: &R,
        alloc: Global,
        folder: &str,
        names: &[&str],
        threads: usize,
    ) -> Result<(), AllocError>
        requires { 0 < threads }
    {
        let mut found = only_folder(alloc, folder)?;
        for _ in 0..u64::MAX {
            if found.folders.is_empty() {
                break;
            }
            self.put_round(rt, alloc, names, threads, &mut found)?;
        }
        let mut files = found.files;
        files.sort()?;
        self.parts.push(Part {
            files,
            in_folder: true,
        })?;
        Ok(())
    }

    /// The files at these paths, and in the folders among them. Of files in folders only those count whose name is like one of
    /// `names`, if there are any; in those `*` means any characters and `?` one.
    ///
    /// Left out of a folder are names that begin with a dot, and links to folders. A folder that can't be read is noted. A path of
    /// nothing is kept: what is wrong with it is found later. Folders are listed in at most `threads` threads. Refused only if memory
    /// runs out.
    pub fn at<R: Files<File = File, Dir: Send> + AllocGlobal + Clone + Drop + Threads + Sync>(
        rt: &R,
        alloc: Global,
        paths: &[&str],
        names: &[&str],
        threads: usize,
    ) -> Result<Listed, AllocError>
        requires { 0 < threads }
    {
        let mut listed = Listed {
            parts: Vec::new(alloc),
            unread: Vec::new(alloc),
        };
        for path in paths {
            match rt.metadata(path) {
                Ok(metadata) if metadata.is_dir() => listed.put_folder(
                    rt, alloc, path, names, threads,
                )?,
                _ => listed.put_named(alloc, path)?,
            }
        }
        Ok(listed)
    }

    /// Takes the files without those of folders that are not text: those with a NUL in their first 8,192 bytes, which are counted. They
    /// are looked at in at most `threads` threads. One that can't be read counts as text. Refused only if memory runs out.
    pub fn take_texts<R: Files<File = File, Dir: Send> + Threads + Sync>(
        &mut self,
        rt: &R,
        alloc: Global,
        threads: usize,
    ) -> Result<Paths, AllocError>
        requires { 0 < threads }
    {
        let mut paths = Paths::new(alloc);
        for part in self.parts.iter_mut() {
            paths.put(rt, alloc, threads, part)?;
        }
        Ok(paths)
    }
}
