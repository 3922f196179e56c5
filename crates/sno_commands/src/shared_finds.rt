//! `sno find` by several threads.

use crate::faults::ProgramFault;
use crate::find_options::Shown;
use crate::finds::{NotFound, Sought, find_file, find_named, keep};
use crate::searches::Search;
use crate::shared_files::{Kept, places_of};
use crate::streams::write_all;
use sno_edit::FileFault;
use sno_files::{Place, side_by_side};
use std::fs::File;
use std::io::{Read, Write};
use std::rt::Files;
use std::thread::Threads;

/// What is shown of a file, and whether it has a match.
#[derive(Drop)]
struct Sight {
    bytes: Vec<u8>,
    found: bool,
}

/// What a thread knows of a file: what is shown of it. `None` if that is too long to be kept, or if the file is standard input; then
/// it is sought again, when what comes before it is written.
type Seen = Result<Option<Sight>, FileFault>;

/// Seeks the rules in a file.
fn see<R: Files<File = File>>(search: &Search<'_, R>, path: &str) -> Seen {
    if path == "-" {
        return Ok(None);
    }
    let mut kept = Kept {
        bytes: Vec::new(search.alloc),
    };
    match find_file(search, path, false, &mut kept) {
        Ok(found) => Ok(Some(Sight {
            bytes: kept.bytes,
            found,
        })),
        Err(NotFound::File(fault)) => Err(fault),
        Err(NotFound::Program(_)) => Ok(None),
    }
}

/// Writes what is shown of a file, and returns whether it has a match. `grouped` says whether there were lines of other files before.
fn write_sight<W: Write>(
    shown: Shown<'_>,
    sight: &Sight,
    grouped: bool,
    output: &mut W,
) -> Result<bool, NotFound> {
    if grouped && sight.found && matches!(shown, Shown::Lines(Some(_))) {
        write_all(output, b"--\n")?;
    }
    write_all(output, &sight.bytes)?;
    Ok(sight.found)
}

/// Writes what is shown of each of the files.
fn write_each<R: Files<File = File>, I: Read, W: Write, E: Write>(
    search: &Search<'_, R>,
    places: &[Place<'_, Seen>],
    sought: &mut Sought,
    input: &mut I,
    output: &mut W,
    errors: &mut E,
) -> Result<(), ProgramFault> {
    for place in places {
        let path = place.path;
        let grouped = sought.found;
        let found = match &place.result {
            Some(Ok(Some(sight))) => write_sight(search.shown, sight, grouped, output),
            Some(Err(fault)) => Err(NotFound::File(*fault)),
            _ => find_named(search, path, grouped, input, output),
        };
        keep(path, found, sought, errors)?;
    }
    Ok(())
}

/// Seeks the rules in each of these files, by threads, and writes what is shown of it, in the order of the paths.
pub(crate) fn find_shared<
    R: Files<File = File, Dir: Send> + Threads + Sync,
    I: Read,
    W: Write,
    E: Write,
>(
    search: &Search<'_, R>,
    paths: &[&str],
    sought: &mut Sought,
    input: &mut I,
    output: &mut W,
    errors: &mut E,
) -> Result<(), ProgramFault> {
    let Search {
        rt,
        alloc,
        rules,
        shown,
        threads,
        in_folder,
    } = *search;
    let mut places = places_of(alloc, paths)?;
    side_by_side(
        rt,
        alloc,
        threads,
        &mut places,
        &|path: &str| {
            let alone = Search {
                rt,
                alloc,
                rules,
                shown,
                threads: 1,
                in_folder,
            };
            see(&alone, path)
        },
    );
    write_each(search, &places, sought, input, output, errors)
}
