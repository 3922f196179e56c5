//! Files, edited.
ghost use Rattle.std.specs.Prelude.{◌≡◌, map, not, IsUtf8, IfOk, IfErr, OnErr, Ok};
ghost use Rattle.std.specs.Arc.{arc_value};
ghost use Rattle.sno_pattern.specs.Identifiers.{same};
ghost use Rattle.sno_pattern.specs.Texts.{byte_text_of};
ghost use Rattle.sno_edit.specs.Held.{Kept};
ghost use Rattle.sno_edit.specs.Files.{AreFilesEnds, HasCause, HasTextCause, IsFileEnd, IsPlan};
ghost use Rattle.sno_edit.specs.Rules.{rules_seen};

use crate::batches::{BATCH, batch_len, edit_batch};
use crate::edits::edited;
use crate::{EditRules, FileFault, Folder};
use sno_pattern::{ByteText, ByteTextFault, MAX_BYTES};
use std::alloc::{AllocError, Global};
use std::sync::Arc;

/// What the rules make of a file, before anything is written.
#[derive(Drop)]
pub struct Plan {
    /// The text that the file holds.
    pub before: Arc<ByteText>,
    /// The text that the rules leave.
    pub after: Arc<ByteText>,
    /// How many matches there were.
    pub matches: u64,
}

impl Plan {
    /// Whether the text that the rules leave is another one.
    pub fn changes(&self) -> bool
        ensures { result ≡ not (same (arc_value self.now.before) (arc_value self.now.after)) }
    {
        self.before.bytes() != self.after.bytes()
    }
}

/// What became of a file that was edited.
#[derive(Clone, Copy, Debug, PartialEq, Eq)]
pub struct Done {
    /// Whether it holds another text than before. If not, it was not written.
    pub changed: bool,
    /// How many matches there were.
    pub matches: u64,
}

/// The text that these bytes are. Refused with `TooLong`, exactly then; with `Memory`.
fn text_in(alloc: Global, bytes: Vec<u8>) -> Result<Arc<ByteText>, FileFault>
    ensures text { IfOk result (λ text. byte_text_of bytes.items ≡ Ok (arc_value text)) }
    ensures same { IfOk result (λ text. arc_value text ≡ bytes.items) }
    ensures cause { IfErr result (λ e. HasTextCause bytes.items e) }
{
    match ByteText::new(bytes) {
        Ok(text) => Ok(Arc::new(alloc, text)?),
        Err(ByteTextFault::TooLong) => Err(FileFault::TooLong),
    }
}

/// Returns what the rules make of the file with this path. No file is changed.
///
/// Refused with
///
/// - `Unread` if the file can't be read;
/// - `TooLong` for more than 16,777,216 bytes, exactly then;
/// - `Refused` or `Cut` as the first statement that is refused on the text, exactly then: `Cut` if it would make a text
///   that is not UTF-8 of one that is;
/// - `Memory`.
pub fn plan_file<F: Folder>(
    alloc: Global,
    folder: &F,
    rules: &EditRules,
    path: &str,
) -> Result<Plan, FileFault>
    ensures planned { IfOk result (λ plan. IsPlan (rules_seen rules.now) path.now (F.holds folder.now) plan) }
    ensures utf8 { IfOk result (λ plan. IsUtf8 (arc_value plan.before) → IsUtf8 (arc_value plan.after)) }
    ensures cause { IfErr result (λ e. HasCause (rules_seen rules.now) path.now (F.holds folder.now) e) }
{
    let bytes = folder.read(alloc, path, MAX_BYTES)?;
    let before = text_in(alloc, bytes)?;
    let text = Arc::try_clone(&before)?;
    match edited(alloc, rules, path, text) {
        Ok(edited) => Ok(Plan {
            before,
            after: edited.text,
            matches: edited.matches,
        }),
        Err(fault) => Err(fault),
    }
}

/// Edits the file with this path by the rules. It is written only if its text changes.
///
/// Refused as [`plan_file`] is, or with `Unwritten` if the new text can't be written. Then each file holds what it held.
pub fn edit_file<F: Folder>(
    alloc: Global,
    folder: &mut F,
    rules: &EditRules,
    path: &str,
) -> Result<Done, FileFault>
    ensures { IsFileEnd (rules_seen rules.now) path.now (F.holds folder.old) (F.holds folder.new) result }
{
    let plan = plan_file(alloc, folder, rules, path)?;
    let changed = plan.changes();
    if changed {
        folder.replace(alloc, path, plan.after.bytes())?;
    }
    Ok(Done {
        changed,
        matches: plan.matches,
    })
}

/// Edits the files with these paths by the rules, in order, and returns a report for each, in the same order. A file
/// that is refused stays as it was, and the others go on. Files are written a batch at a time, by
/// [`Folder::replace_all`]; what they hold afterwards is as if each were edited before the next.
///
/// Refused only if there is no memory for the reports. Then no file was touched.
pub fn edit_files<F: Folder>(
    alloc: Global,
    folder: &mut F,
    rules: &EditRules,
    paths: &[&str],
) -> Result<Vec<Result<Done, FileFault>>, AllocError>
    ensures edited { IfOk result (λ ends. AreFilesEnds F.holds (rules_seen rules.now) folder.old (map (λ p. p.now) paths.now) folder.new ends.items) }
    ensures untouched { OnErr result (folder.new ≡ folder.old) }
{
    let mut ends = Vec::with_capacity(alloc, paths.len())?;
    let mut planned = Vec::with_capacity(alloc, BATCH)?;
    let mut begin = 0;
    while begin < paths.len() {
        let (_, rest) = paths.split_at(begin);
        let (batch, _) = rest.split_at(batch_len(rest));
        begin += edit_batch(alloc, folder, rules, batch, &mut planned, &mut ends);
    }
    Ok(ends)
}
