//! `sno edit` by several threads.

use crate::edit_reports::{Show, done_of};
use crate::editors::Editor;
use crate::edits::put_file;
use crate::match_rows::write_plan_rows;
use crate::rounds_left::may_stop;
use crate::shared_files::{KEPT, Kept, places_of};
use sno_edit::{Done, FileFault};
use sno_files::{Place, Writing, edit_one, lacks_room, side_by_side};
use std::alloc::AllocError;
use std::fs::File;
use std::rt::Files;
use std::thread::Threads;

/// Edits the file with this path.
fn edit_path<R: Files<File = File>>(
    editor: &Editor<'_, R>,
    writing: Writing<'_>,
    path: &str,
) -> Result<Done, FileFault> {
    edit_one(editor.rt, editor.alloc, editor.rules, writing, path)
}

/// What became of a file at a place. If there was no room for it while other threads wrote theirs, it is edited once more.
fn end_at<R: Files<File = File>>(
    editor: &Editor<'_, R>,
    writing: Writing<'_>,
    place: &Place<'_, Result<Done, FileFault>>,
) -> Result<Done, FileFault> {
    match &place.result {
        Some(end) if !lacks_room(end) => *end,
        _ => edit_path(editor, writing, place.path),
    }
}

/// Edits these files by threads, and returns what became of each, in the order of the paths. Refused only if out of memory.
/// Then files may have been edited.
pub(crate) fn edit_shared<R: Files<File = File, Dir: Send> + Threads + Sync>(
    editor: &Editor<'_, R>,
    writing: Writing<'_>,
    paths: &[&str],
) -> Result<Vec<Result<Done, FileFault>>, AllocError> {
    let Editor {
        rt,
        alloc,
        rules,
        threads,
    } = *editor;
    let mut places = places_of(alloc, paths)?;
    let mut ends = Vec::with_capacity(alloc, paths.len())?;
    side_by_side(
        rt,
        alloc,
        threads,
        &mut places,
        &|path: &str| edit_one(rt, alloc, rules, writing, path),
    );
    for place in &places {
        ends.push(end_at(editor, writing, place))?;
    }
    Ok(ends)
}

/// What is shown of a file that is not written.
#[derive(Drop)]
pub(crate) struct Sight {
    /// The bytes that are shown.
    pub(crate) bytes: Vec<u8>,
    /// What would become of the file.
    pub(crate) done: Done,
}

/// What a thread knows of a file. `None` if it is to be planned again, when what comes before it is written: what is shown of it is too
/// long to be kept, or more is to be said of it.
pub(crate) type Seen = Result<Option<Sight>, FileFault>;

/// Plans a file.
fn see<R: Files<File = File>>(editor: &Editor<'_, R>, show: Show, path: &str) -> Seen {
    let mut bytes = Vec::new(editor.alloc);
    let Some(plan) = put_file(editor, path, show, &mut bytes)? else {
        return Ok(None);
    };
    let done = done_of(&plan);
    if bytes.len() > KEPT || may_stop(&done) {
        return Ok(None);
    }
    let mut kept = Kept { bytes };
    match write_plan_rows(editor.alloc, editor.rules, path, show, &plan, &mut kept) {
        Ok(()) => Ok(Some(Sight {
            bytes: kept.bytes,
            done,
        })),
        Err(_) => Ok(None),
    }
}

/// Plans these files by threads: what is known of each, in the order of the paths.
pub(crate) fn see_shared<'p, R: Files<File = File, Dir: Send> + Threads + Sync>(
    editor: &Editor<'_, R>,
    show: Show,
    paths: &[&'p str],
) -> Result<Vec<Place<'p, Seen>>, AllocError> {
    let Editor {
        rt,
        alloc,
        rules,
        threads,
    } = *editor;
    let mut places = places_of(alloc, paths)?;
    side_by_side(
        rt,
        alloc,
        threads,
        &mut places,
        &|path: &str| {
            let alone = Editor {
                rt,
                alloc,
                rules,
                threads: 1,
            };
            see(&alone, show, path)
        },
    );
    Ok(places)
}
