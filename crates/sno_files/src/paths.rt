//! The texts among files that were named or found.
ghost use Rattle.std.specs.Prelude.{◌<◌};

use crate::in_threads::{Place, places_of, side_by_side};
use crate::repeats::without_repeats;
use crate::texts::is_text_at;
use crate::trees::Part;
use std::alloc::{AllocError, Global};
use std::fs::File;
use std::rt::Files;
use std::thread::Threads;

/// The files that are named, and those in the folders that are named that are text.
#[derive(Drop)]
pub struct Paths {
    /// Their paths: those of a folder in order, where the folder was named.
    pub files: Vec<String>,
    /// How many files of folders were left out since they are not text.
    pub not_text: usize,
}

/// The paths, lent.
pub(crate) fn lent(alloc: Global, files: &[String]) -> Result<Vec<&str>, AllocError> {
    let mut paths = Vec::with_capacity(alloc, files.len())?;
    for file in files {
        paths.push(file.as_str())?;
    }
    Ok(paths)
}

/// Looks at each of these files in threads, and says at its place whether it is text.
fn look_at<'f, R: Files<File = File, Dir: Send> + Threads + Sync>(
    rt: &R,
    alloc: Global,
    threads: usize,
    files: &'f [String],
) -> Result<Vec<Place<'f, bool>>, AllocError>
    requires { 0 < threads }
{
    let mut places = places_of(alloc, files)?;
    side_by_side(
        rt,
        alloc,
        threads,
        &mut places,
        &|path: &str| is_text_at(rt, path),
    );
    Ok(places)
}

impl Paths {
    /// No files.
    pub(crate) fn new(alloc: Global) -> Paths {
        Paths {
            files: Vec::new(alloc),
            not_text: 0,
        }
    }

    /// The paths of the files, in order. Refused only if memory runs out.
    pub fn lent(&self, alloc: Global) -> Result<Vec<&str>, AllocError> {
        let paths = lent(alloc, &self.files)?;
        Ok(paths)
    }

    /// Adds this file of a folder if it is text.
    fn put_file(&mut self, alloc: Global, path: &str, is_text: bool) -> Result<(), AllocError> {
        if is_text {
            let file = String::from_str(alloc, path)?;
            self.files.push(file)?;
        } else {
            self.not_text = self.not_text.saturating_add(1);
        }
        Ok(())
    }

    /// Adds the files of a folder that are text.
    fn put_texts<R: Files<File = File, Dir: Send> + Threads + Sync>(
        &mut self,
        rt: &R,
        alloc: Global,
        threads: usize,
        files: &[String],
    ) -> Result<(), AllocError>
        requires { 0 < threads }
    {
        let looked_at = look_at(rt, alloc, threads, files)?;
        for place in &looked_at {
            self.put_file(alloc, place.path, place.result.unwrap_or(true))?;
        }
        Ok(())
    }

    /// Adds files that were named, and those of a folder that are text.
    pub(crate) fn put<R: Files<File = File, Dir: Send> + Threads + Sync>(
        &mut self,
        rt: &R,
        alloc: Global,
        threads: usize,
        part: &mut Part,
    ) -> Result<(), AllocError>
        requires { 0 < threads }
    {
        if part.in_folder {
            return self.put_texts(rt, alloc, threads, &part.files);
        }
        self.files.append(&mut part.files)?;
        Ok(())
    }

    /// The same files without those paths that lead to the file of an earlier one: through a symbolic link, another spelling, or a
    /// name that is given twice. Names of one file that are hard links are kept.
    ///
    /// The paths are followed in at most `threads` threads. Refused only if memory runs out.
    pub fn without_repeats<R: Files<File = File, Dir: Send> + Threads + Sync>(
        self,
        rt: &R,
        alloc: Global,
        threads: usize,
    ) -> Result<Paths, AllocError>
        requires { 0 < threads }
    {
        let kept = without_repeats(rt, alloc, threads, &self.files)?;
        Ok(Paths {
            files: kept,
            not_text: self.not_text,
        })
    }
}
