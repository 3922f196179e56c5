//! `sno edit --json`: files that are edited, with what is written of each and of its matches.

use crate::edit_reports::{Form, put_end, report_fault};
use crate::editors::Editor;
use crate::faults::ProgramFault;
use crate::match_rows::{Rows, rows_of};
use crate::progress::Progress;
use crate::rounds_left::report_stopped_in;
use crate::shared_files::places_of;
use crate::streams::write_all;
use sno_edit::{Done, EditRules, FileFault, Tally};
use sno_files::{EditedFile, Place, Writing, edit_with_text, lacks_room, side_by_side};
use std::alloc::{AllocError, Global};
use std::fs::File;
use std::io::Write;
use std::rt::Files;
use std::thread::Threads;

/// How many files a thread takes before what became of them is written. Of each its old text may be kept.
const SHARE: usize = 8;

/// What became of a file, with its matches.
#[derive(Drop)]
struct Edit {
    done: Done,
    rows: Rows,
}

/// Edits a file, and seeks its matches in the text that it held.
fn edit_file<R: Files<File = File>>(
    editor: &Editor<'_, R>,
    writing: Writing<'_>,
    path: &str,
) -> Result<Edit, FileFault> {
    match edit_with_text(editor.rt, editor.alloc, editor.rules, writing, path) {
        Ok(EditedFile { done, before }) => {
            let rows = rows_of(editor.alloc, editor.rules, path, before, done.matches);
            Ok(Edit { done, rows })
        }
        Err(fault) => Err(fault),
    }
}

/// Where what becomes of files is written. After a write that failed nothing more is, and the files are still edited.
#[derive(Drop)]
struct Outlet<'w, W: Write> {
    output: &'w mut W,
    fault: Option<ProgramFault>,
}

impl<W: Write> Outlet<'_, W> {
    /// Writes what became of a file, and its matches.
    fn put(
        &mut self,
        alloc: Global,
        rules: &EditRules,
        path: &str,
        end: &Result<Edit, FileFault>,
    ) -> Result<(), ProgramFault> {
        let mut row = Vec::new(alloc);
        put_end(alloc, Form::Json, path, &done_in(end), &mut row)?;
        write_all(self.output, &row)?;
        match end {
            Ok(edit) => edit.rows.write(alloc, rules, path, self.output),
            Err(_) => Ok(()),
        }
    }

    /// The same, unless something has failed.
    fn take(
        &mut self,
        alloc: Global,
        rules: &EditRules,
        path: &str,
        end: &Result<Edit, FileFault>,
    ) {
        if self.fault.is_none() {
            self.fault = self.put(alloc, rules, path, end).err();
        }
    }
}

/// What became of a file, without its matches.
fn done_in(end: &Result<Edit, FileFault>) -> Result<Done, FileFault> {
    match end {
        Ok(edit) => Ok(edit.done),
        Err(fault) => Err(*fault),
    }
}

/// Counts what became of a file, and reports it.
fn report_end<R: Files<File = File>, W: Write, E: Write>(
    editor: &Editor<'_, R>,
    path: &str,
    end: &Result<Edit, FileFault>,
    tally: &mut Tally,
    outlet: &mut Outlet<'_, W>,
    errors: &mut E,
) {
    let done = done_in(end);
    tally.count(&done);
    match &done {
        Ok(done) => report_stopped_in(editor, path, done, tally, errors),
        Err(fault) => report_fault(errors, path, *fault),
    }
    outlet.take(editor.alloc, editor.rules, path, end);
}

/// Reports what became of the file at a place. If there was no room for it while other threads wrote theirs, it is edited once more.
fn report_place<R: Files<File = File>, W: Write, E: Write>(
    editor: &Editor<'_, R>,
    writing: Writing<'_>,
    place: &Place<'_, Result<Edit, FileFault>>,
    tally: &mut Tally,
    outlet: &mut Outlet<'_, W>,
    errors: &mut E,
) {
    let path = place.path;
    match &place.result {
        Some(end) if !lacks_room(end) => {
            report_end(editor, path, end, tally, outlet, errors);
        }
        _ => {
            let end = edit_file(editor, writing, path);
            report_end(editor, path, &end, tally, outlet, errors);
        }
    }
}

/// Edits these files by threads, and reports what became of each, in the order of the paths.
fn edit_share<R: Files<File = File, Dir: Send> + Threads + Sync, W: Write, E: Write>(
    editor: &Editor<'_, R>,
    paths: &[&str],
    writing: Writing<'_>,
    tally: &mut Tally,
    outlet: &mut Outlet<'_, W>,
    errors: &mut E,
) -> Result<(), AllocError> {
    let Editor {
        rt,
        alloc,
        rules,
        threads,
    } = *editor;
    let mut places = places_of(alloc, paths)?;
    side_by_side(
        rt,
        alloc,
        threads,
        &mut places,
        &|path: &str| {
            let alone = Editor {
                rt,
                alloc,
                rules,
                threads: 1,
            };
            edit_file(&alone, writing, path)
        },
    );
    for place in &places {
        report_place(editor, writing, place, tally, outlet, errors);
    }
    Ok(())
}

/// Edits the files by threads, and writes an object for each file, and one for each of its matches.
pub(crate) fn edit_with_rows<R: Files<File = File, Dir: Send> + Threads + Sync, W: Write, E: Write>(
    editor: &Editor<'_, R>,
    paths: &[&str],
    writing: Writing<'_>,
    output: &mut W,
    errors: &mut Progress<'_, E>,
) -> Result<Tally, ProgramFault> {
    let mut tally = Tally::of(paths.len());
    let mut outlet = Outlet {
        output,
        fault: None,
    };
    errors.begin(paths.len());
    for share in paths.chunks(editor.threads.saturating_mul(SHARE).max(1)) {
        edit_share(editor, share, writing, &mut tally, &mut outlet, errors)?;
        errors.add(share.len());
    }
    match outlet.fault {
        Some(fault) => Err(fault),
        None => Ok(tally),
    }
}
