//! The files that the arguments name, and those in folders and lists that they name.
ghost use Rattle.std.specs.Prelude.{◌<◌};

use crate::faults::{ProgramFault, name_of};
use crate::file_options::NamedFiles;
use crate::streams::read_up_to;
use sno_files::{ListFault, Listed, paths_in};
use std::alloc::Global;
use std::fs;
use std::fs::File;
use std::io::{Read, Write};
use std::rt::Files;
use std::thread::Threads;

/// A list of paths that was read.
#[derive(Clone, Copy)]
struct ReadList<'l> {
    /// What it is called.
    called: &'l str,
    /// Its bytes.
    bytes: &'l [u8],
    /// The byte that ends each path.
    end: u8,
}

/// The bytes of a list.
fn read_list<R: Files, I: Read>(
    rt: &R,
    alloc: Global,
    path: &str,
    input: &mut I,
) -> Result<Vec<u8>, ProgramFault> {
    if path == "-" {
        return read_up_to(alloc, input, usize::MAX);
    }
    match fs::open(rt, path) {
        Ok(mut file) => read_up_to(alloc, &mut file, usize::MAX),
        Err(_) => Err(ProgramFault::Read),
    }
}

/// The bytes of the list with this path. `None` if it can't be read, which `errors` then says.
fn list_bytes<R: Files, I: Read, E: Write>(
    rt: &R,
    alloc: Global,
    path: &str,
    input: &mut I,
    errors: &mut E,
) -> Result<Option<Vec<u8>>, ProgramFault> {
    match read_list(rt, alloc, path, input) {
        Ok(bytes) => Ok(Some(bytes)),
        Err(ProgramFault::Memory) => Err(ProgramFault::Memory),
        Err(fault) => {
            let called = name_of(path);
            let _printed = errors.writeln(format_args!("{called}: {fault}"));
            Ok(None)
        }
    }
}

/// The path of a list as that of a file: `-` is one there.
fn as_file<'x>(path: &'x str) -> &'x str {
    if path == "-" { "./-" } else { path }
}

/// The paths that are named, and after them those of the list.
fn all_paths<'x>(
    alloc: Global,
    named: &[&'x str],
    list: ReadList<'x>,
) -> Result<Vec<&'x str>, ListFault> {
    let mut paths = Vec::from_slice(alloc, named)?;
    for path in paths_in(alloc, list.bytes, list.end)? {
        paths.push(as_file(path))?;
    }
    Ok(paths)
}

/// The files at the paths that are named, and at those of the list.
fn listed_files<R: Files<File = File, Dir: Send> + AllocGlobal + Clone + Drop + Threads + Sync>(
    rt: &R,
    alloc: Global,
    named: &NamedFiles<'_>,
    threads: usize,
    list: ReadList<'_>,
) -> Result<Listed, ListFault>
    requires { 0 < threads }
{
    let paths = all_paths(alloc, &named.paths, list)?;
    Ok(Listed::at(rt, alloc, &paths, &named.names, threads)?)
}

/// The files of a list, with those that are named. `None` if one of its paths isn't UTF-8, which `errors` then says.
fn files_of_list<
    R: Files<File = File, Dir: Send> + AllocGlobal + Clone + Drop + Threads + Sync,
    E: Write,
>(
    rt: &R,
    alloc: Global,
    named: &NamedFiles<'_>,
    threads: usize,
    list: ReadList<'_>,
    errors: &mut E,
) -> Result<Option<Listed>, ProgramFault>
    requires { 0 < threads }
{
    match listed_files(rt, alloc, named, threads, list) {
        Ok(found) => Ok(Some(found)),
        Err(ListFault::Memory) => Err(ProgramFault::Memory),
        Err(ListFault::NotUtf8(number)) => {
            let called = list.called;
            let _printed = errors.writeln(format_args!("{called}: path {number}: not UTF-8"));
            Ok(None)
        }
    }
}

/// The files that are named, and those in the folders that are named; `errors` says which folders could not be read. `None` if a
/// list of files can't be read, which `errors` says too. Folders are listed in at most `threads` threads.
pub(crate) fn found_files<
    R: Files<File = File, Dir: Send> + AllocGlobal + Clone + Drop + Threads + Sync,
    I: Read,
    E: Write,
>(
    rt: &R,
    alloc: Global,
    named: &NamedFiles<'_>,
    threads: usize,
    input: &mut I,
    errors: &mut E,
) -> Result<Option<Listed>, ProgramFault>
    requires { 0 < threads }
{
    let found = match named.list {
        None => Some(Listed::at(rt, alloc, &named.paths, &named.names, threads)?),
        Some(list) => match list_bytes(rt, alloc, list.path, input, errors)? {
            None => None,
            Some(bytes) => {
                let list = ReadList {
                    called: name_of(list.path),
                    bytes: &bytes,
                    end: list.end,
                };
                files_of_list(rt, alloc, named, threads, list, errors)?
            }
        },
    };
    if let Some(paths) = &found {
        paths.report_unread(errors);
    }
    Ok(found)
}
