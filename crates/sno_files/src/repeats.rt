//! Paths that lead to a file that another path leads to.
ghost use Rattle.std.specs.Prelude.{◌<◌};

use crate::in_threads::{Place, places_of, side_by_side};
use std::alloc::{AllocError, Global};
use std::collections::BTreeSet;
use std::fs::File;
use std::io::ErrorKind;
use std::rt::Files;
use std::thread::Threads;

/// The name without links of the file that a path leads to; `None` if it leads to no file.
type Name = Result<Option<String>, AllocError>;

fn name_of<R: Files>(rt: &R, alloc: Global, path: &str) -> Name {
    match rt.canonicalize(alloc, path) {
        Ok(name) => {
            let name = String::from_str(alloc, name.as_path().as_str())?;
            Ok(Some(name))
        }
        Err(e) => match e.kind() {
            ErrorKind::OutOfMemory => Err(AllocError),
            _ => Ok(None),
        },
    }
}

/// The files that paths lead to so far, by their names without links. Their numbers would not do: while other programs replace
/// files, a new file may have the number of one that was there a moment before.
#[derive(Drop)]
struct Reached<'p> {
    names: BTreeSet<&'p str>,
}

impl<'p> Reached<'p> {
    /// Adds the file that a path leads to, and returns whether no path so far leads to it. A path of no file leads to one of its own.
    /// Names of one file (hard links) count as files: each of them can be replaced.
    fn add(&mut self, name: &'p Option<Name>) -> Result<bool, AllocError> {
        match name {
            Some(Ok(Some(name))) => {
                let is_new = self.names.insert(name.as_str())?;
                Ok(is_new)
            }
            Some(Err(_)) => Err(AllocError),
            _ => Ok(true),
        }
    }
}

/// Those of the paths that don't lead to the file of an earlier one.
fn kept_of(alloc: Global, named: &[Place<'_, Name>]) -> Result<Vec<String>, AllocError> {
    let mut reached = Reached {
        names: BTreeSet::new(alloc),
    };
    let mut kept = Vec::new(alloc);
    for place in named {
        if reached.add(&place.result)? {
            let path = String::from_str(alloc, place.path)?;
            kept.push(path)?;
        }
    }
    Ok(kept)
}

/// Those of the paths that don't lead to the file of an earlier one. They are followed in at most `threads` threads. Refused only if
/// memory runs out.
pub(crate) fn without_repeats<R: Files<File = File, Dir: Send> + Threads + Sync>(
    rt: &R,
    alloc: Global,
    threads: usize,
    paths: &[String],
) -> Result<Vec<String>, AllocError>
    requires { 0 < threads }
{
    let mut places = places_of(alloc, paths)?;
    side_by_side(
        rt,
        alloc,
        threads,
        &mut places,
        &|path: &str| name_of(rt, alloc, path),
    );
    let kept = kept_of(alloc, &places)?;
    Ok(kept)
}
