//! Files, edited by rules.
ghost use Rattle.std.specs.Prelude.{◌<◌, ◌≤◌, length, map, IfOk};
ghost use Rattle.sno_edit.specs.Files.{IsFileEnd};
ghost use Rattle.sno_edit.specs.Rules.{rules_seen};
ghost use Rattle.sno_files.specs.Editing.{AreFirstEnds, IsEditedFile, any_bytes};
ghost use Rattle.sno_files.specs.declared.editing.TheConstants.{HELD};

use crate::held::HeldFiles;
use crate::new_files::Writing;
use crate::overtaken::{is_left, is_overtaken};
use sno_edit::{ByteText, Done, EditRules, FileFault, Folder, Plan, edit_files, plan_file};
use std::alloc::{AllocError, Global};
use std::fs::File;
use std::rt::Files;
use std::sync::Arc;

/// The most files that are held together.
const HELD: usize = 64;

/// How many times a file is edited anew that another program changes meanwhile.
const TRIES: u32 = 10;

/// A file that was edited, with the text that it held.
#[derive(Drop)]
pub struct EditedFile {
    /// What became of the file.
    pub done: Done,
    /// The text that it held before.
    pub before: Arc<ByteText>,
}

/// Edits a file that is held.
fn edit_in<R: Files<File = File>>(
    alloc: Global,
    held: &mut HeldFiles<'_, R>,
    rules: &EditRules,
    path: &str,
) -> Result<EditedFile, FileFault>
    ensures { IsEditedFile (rules_seen rules.now) path.now result }
{
    let plan = plan_file(alloc, held, rules, path)?;
    let changed = plan.changes();
    if changed {
        held.replace(alloc, path, plan.after.bytes())?;
    }
    let Plan {
        before,
        matches,
        ..
    } = plan;
    Ok(EditedFile {
        done: Done { changed, matches },
        before,
    })
}

/// Edits a file once.
fn edit_once<R: Files<File = File>>(
    rt: &R,
    alloc: Global,
    rules: &EditRules,
    writing: Writing<'_>,
    path: &str,
) -> Result<EditedFile, FileFault>
    ensures { IsEditedFile (rules_seen rules.now) path.now result }
{
    let mut held = HeldFiles::of(rt, alloc, writing, &[path], 1)?;
    let end = edit_in(alloc, &mut held, rules, path);
    end
}

/// Edits a file by the rules, and returns what became of it with the text that it held before. It is held while it is edited: a run
/// that would edit it waits. If another program changes it meanwhile, it is edited anew, up to ten times.
///
/// The refusals are those of `edit_file` of `sno_edit`, with `Unread` also if the path doesn't lead to a regular file, and
/// `Unwritten` also if another program changed it each time; `Reason` says both in words. Then it stays as it was.
pub fn edit_with_text<R: Files<File = File>>(
    rt: &R,
    alloc: Global,
    rules: &EditRules,
    writing: Writing<'_>,
    path: &str,
) -> Result<EditedFile, FileFault>
    ensures { IsEditedFile (rules_seen rules.now) path.now result }
{
    let mut end = edit_once(rt, alloc, rules, writing, path);
    for _ in 1..TRIES {
        if !is_overtaken(&end) {
            break;
        }
        end = edit_once(rt, alloc, rules, writing, path);
    }
    end
}

/// Edits a file by the rules, as [`edit_with_text`] does, and returns what became of it. The refusals are the same.
pub fn edit_one<R: Files<File = File>>(
    rt: &R,
    alloc: Global,
    rules: &EditRules,
    writing: Writing<'_>,
    path: &str,
) -> Result<Done, FileFault>
    ensures { IsFileEnd (rules_seen rules.now) path.now any_bytes any_bytes result }
{
    match edit_with_text(rt, alloc, rules, writing, path) {
        Ok(edited) => Ok(edited.done),
        Err(fault) => Err(fault),
    }
}

/// Edits the first of these files together, up to 64 of them, and returns what became of each.
fn edit_held<R: Files<File = File>>(
    rt: &R,
    alloc: Global,
    rules: &EditRules,
    writing: Writing<'_>,
    paths: &[&str],
) -> Result<Vec<Result<Done, FileFault>>, AllocError>
    ensures ends { IfOk result (λ ends. AreFirstEnds (rules_seen rules.now) (map (λ p. p.now) paths.now) ends.items) }
    ensures most { IfOk result (λ ends. length ends.items ≤ HELD) }
    ensures some { IfOk result (λ ends. 0 < length paths.now → 0 < length ends.items) }
{
    let mut held = HeldFiles::of(rt, alloc, writing, paths, HELD)?;
    let (files, _) = paths.split_at(held.len());
    let ends = edit_files(alloc, &mut held, rules, files);
    ends
}

/// Edits the first of these files by the rules, up to 64 of them, and returns what became of each, in their order. Of the first file
/// there is always a report. They are held together while they are edited, so that one wait for the disk may serve several. A
/// file that another program changes meanwhile is edited anew, and one for which there was no room once more, after the others.
///
/// Of one file the refusals are those of [`edit_one`]. Refused only if out of memory. Then files may have been edited.
pub fn edit_some<R: Files<File = File>>(
    rt: &R,
    alloc: Global,
    rules: &EditRules,
    writing: Writing<'_>,
    paths: &[&str],
) -> Result<Vec<Result<Done, FileFault>>, AllocError>
    ensures ends { IfOk result (λ ends. AreFirstEnds (rules_seen rules.now) (map (λ p. p.now) paths.now) ends.items) }
    ensures most { IfOk result (λ ends. length ends.items ≤ HELD) }
    ensures some { IfOk result (λ ends. 0 < length paths.now → 0 < length ends.items) }
{
    let mut ends = edit_held(rt, alloc, rules, writing, paths)?;
    for place in 0..ends.len() {
        if is_left(&ends[place]) {
            ends[place] = edit_one(rt, alloc, rules, writing, paths[place]);
        }
    }
    Ok(ends)
}
