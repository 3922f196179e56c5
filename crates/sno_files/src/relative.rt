//! Paths of files from the current folder.

use std::alloc::Global;
use std::io;
use std::rt::Files;

/// What comes after a folder and a slash in a path; `None` if it doesn't begin so.
pub(crate) fn below<'p>(folder: &str, path: &'p str) -> Option<&'p str> {
    path.strip_prefix(folder)?.strip_prefix('/')
}

/// The path of a file from the current folder: without links, `.` and `..`, and without a slash before it. `None` if the file is not
/// in that folder, at any depth. Refused if a part of the path isn't there or can't be read, or if memory runs out.
pub fn path_from_here<R: Files>(rt: &R, alloc: Global, path: &str) -> io::Result<Option<String>> {
    let here = rt.canonicalize(alloc, ".")?;
    let file = rt.canonicalize(alloc, path)?;
    let folder = here.as_path().as_str().trim_end_matches('/');
    match below(folder, file.as_path().as_str()) {
        Some(path) => Ok(Some(String::from_str(alloc, path)?)),
        None => Ok(None),
    }
}
