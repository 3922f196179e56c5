//! Files that are planned one after the other and then written together.
ghost use Rattle.std.specs.Prelude.{◌≡◌, ◌≤◌, ◌<◌, ◌+◌, ◌++◌, ◌∷◌, [], ℕ, Bool, List, length, map, take, vec_len, vec_capacity};
ghost use Rattle.std.specs.List.{list_any};
ghost use Rattle.sno_edit.specs.declared.folders.NewText.{NewText};
ghost use Rattle.sno_pattern.specs.Identifiers.{same};
ghost use Rattle.sno_edit.specs.Batches.{ArePlanned, Differ, settle, settled};
ghost use Rattle.sno_edit.specs.Files.{AreFilesEnds};
ghost use Rattle.sno_edit.specs.Rules.{rules_seen};

use crate::{Done, EditRules, FileFault, Folder, NewText, Plan, WriteFault, plan_file};
use sno_pattern::MAX_BYTES;
use std::alloc::Global;

/// The most files of a batch: the texts of small files, of 65,536 bytes each, are 16 MiB together.
pub(crate) const BATCH: usize = 256;

/// A batch ends with the file that makes its new texts together longer than this.
const BATCH_BYTES: usize = MAX_BYTES;

/// Whether this path is one of the paths.
fn has(paths: &[&str], path: &str) -> bool
    ensures { result ≡ list_any (λ p. same p.now path.now) paths.now }
{
    paths.iter().any(|p| p.as_bytes() == path.as_bytes())
}

/// How many of the first paths are a batch: all of them different, and at most [`BATCH`]. A path that comes a second
/// time begins another batch, since its file is read after it was written.
pub(crate) fn batch_len(paths: &[&str]) -> usize
    ensures few { (result ≤ length paths.now) × (result ≤ BATCH) }
    ensures some { 0 < length paths.now → 0 < result }
    ensures differ { Differ (map (λ p. p.now) (take result paths.now)) }
{
    let most = paths.len().min(BATCH);
    for count in 0..most {
        if has(&paths[..count], paths[count]) {
            return count;
        }
    }
    most
}

/// Plans a file, and adds its new text to those that are to be written if it changes. Returns what becomes of it if
/// that is written.
fn plan_one<'a, F: Folder>(
    alloc: Global,
    folder: &F,
    rules: &EditRules,
    path: &'a str,
    writes: &mut Vec<NewText<'a>>,
) -> Result<Done, FileFault>
    ensures { (added : List NewText) × (writes.new.items ≡ writes.old.items ++ added) × ArePlanned (rules_seen rules.now) (F.holds folder.now) (path.now ∷ []) (result ∷ []) added }
{
    let plan = plan_file(alloc, folder, rules, path)?;
    let changed = plan.changes();
    let Plan { after, matches, .. } = plan;
    if !changed {
        return Ok(Done { changed, matches });
    }
    writes.push(NewText { path, text: after })?;
    Ok(Done { changed, matches })
}

/// Whether these new texts end a batch: they are longer together than [`BATCH_BYTES`].
fn is_full(writes: &[NewText<'_>]) -> bool {
    let mut bytes = 0usize;
    for file in writes {
        bytes = bytes.saturating_add(file.text.bytes().len());
    }
    bytes > BATCH_BYTES
}

/// Plans the first of these files, up to the one that ends their batch: what becomes of each if it is written, and what
/// is to be written.
fn plan_files<'a, F: Folder>(
    alloc: Global,
    folder: &F,
    rules: &EditRules,
    paths: &[&'a str],
    planned: &mut Vec<Result<Done, FileFault>>,
    writes: &mut Vec<NewText<'a>>,
)
    requires empty { (planned.now.items ≡ []) × (writes.now.items ≡ []) }
    requires room { vec_len planned.now + length paths.now ≤ vec_capacity planned.now }
    ensures planned { ArePlanned (rules_seen rules.now) (F.holds folder.now) (map (λ p. p.now) (take (vec_len planned.new) paths.now)) planned.new.items writes.new.items }
    ensures few { vec_len planned.new ≤ length paths.now }
    ensures some { 0 < length paths.now → 0 < vec_len planned.new }
    ensures capacity { vec_capacity planned.old ≤ vec_capacity planned.new }
{
    for path in paths {
        match planned.push(plan_one(alloc, folder, rules, path, writes)) {
            Ok(()) => {}
            Err(_) => unreachable!(),
        }
        if is_full(writes) {
            return;
        }
    }
}

/// What becomes of a file, by the results of those that were to be written and are not yet reported; and the results
/// that are left then.
fn settle(
    planned: Result<Done, FileFault>,
    results: &[Result<(), WriteFault>],
) -> (Result<Done, FileFault>, &[Result<(), WriteFault>])
    ensures { (result.0, result.1.now) ≡ settle planned results.now }
{
    match planned {
        Err(fault) => (Err(fault), results),
        Ok(done) => {
            if !done.changed {
                return (Ok(done), results);
            }
            match results.split_first() {
                None => (Err(FileFault::Memory), results),
                Some((Ok(()), rest)) => (Ok(done), rest),
                Some((Err(fault), rest)) => (Err(FileFault::from(*fault)), rest),
            }
        }
    }
}

/// Adds what became of each file to the reports, and returns how many there are.
fn settle_all(
    planned: &[Result<Done, FileFault>],
    results: &[Result<(), WriteFault>],
    ends: &mut Vec<Result<Done, FileFault>>,
) -> usize
    requires room { vec_len ends.now + length planned.now ≤ vec_capacity ends.now }
    ensures count { result ≡ length planned.now }
    ensures settled { ends.new.items ≡ ends.old.items ++ settled planned.now results.now }
    ensures len { vec_len ends.new ≡ vec_len ends.old + length planned.now }
    ensures capacity { vec_capacity ends.old ≤ vec_capacity ends.new }
{
    let mut left = results;
    for file in planned {
        let (end, rest) = settle(*file, left);
        match ends.push(end) {
            Ok(()) => {}
            Err(_) => unreachable!(),
        }
        left = rest;
    }
    planned.len()
}

/// Edits the first of these files, up to the one that ends their batch, and adds a report for each: plans each, and has
/// those that change written together. Returns how many there were, at least one. The paths are different; `planned` is
/// room for the plans.
pub(crate) fn edit_batch<F: Folder>(
    alloc: Global,
    folder: &mut F,
    rules: &EditRules,
    paths: &[&str],
    planned: &mut Vec<Result<Done, FileFault>>,
    ends: &mut Vec<Result<Done, FileFault>>,
) -> usize
    requires differ { Differ (map (λ p. p.now) paths.now) }
    requires plans { length paths.now ≤ vec_capacity planned.now }
    requires room { vec_len ends.now + length paths.now ≤ vec_capacity ends.now }
    ensures ends { (first : F) → (sofar : List (List ℕ)) → AreFilesEnds F.holds (rules_seen rules.now) first sofar folder.old ends.old.items → AreFilesEnds F.holds (rules_seen rules.now) first (sofar ++ map (λ p. p.now) (take result paths.now)) folder.new ends.new.items }
    ensures few { result ≤ length paths.now }
    ensures some { 0 < length paths.now → 0 < result }
    ensures len { vec_len ends.new ≡ vec_len ends.old + result }
    ensures capacity { vec_capacity ends.old ≤ vec_capacity ends.new }
    ensures plans { vec_capacity planned.old ≤ vec_capacity planned.new }
{
    planned.clear();
    let mut writes = Vec::new(alloc);
    plan_files(alloc, folder, rules, paths, planned, &mut writes);
    match folder.replace_all(alloc, &writes) {
        Ok(results) => settle_all(planned, &results, ends),
        Err(_) => settle_all(planned, &[], ends),
    }
}
