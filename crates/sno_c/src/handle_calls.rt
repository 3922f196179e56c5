//! What C calls with handles.
ghost use Rattle.std.specs.Prelude.{◌≡◌, ◌≢◌, ◌<◌, ◌≤◌, ◌↔◌, ◌⊎◌, None, Some, drop, length};
ghost use Rattle.sno_pattern.specs.declared.byte_texts.TheConstants.{MAX_BYTES};
ghost use Rattle.sno_c.specs.Assignments.{IsAssignmentCall};
ghost use Rattle.sno_c.specs.Gatherings.{IsGatherCall, IsTakeCall};
ghost use Rattle.sno_c.specs.Openings.{HasOpened};
ghost use Rattle.sno_c.specs.Patterns.{IsSearchCall};
ghost use Rattle.sno_c.specs.Replacements.{IsReplacementCall};
ghost use Rattle.sno_c.specs.declared.held.Held.TheVariants.{Text};

use crate::assignments::{FoundAssignment, assignment_held};
use crate::gatherings::{gather_held, take_held};
use crate::handle::Handle;
use crate::openings::opened;
use crate::replacements::{Replaced, replace_held};
use crate::searches::{FoundMatch, search_held};
use crate::statuses::{DONE, NO_MEMORY, TOO_LONG};
use crate::texts::held_text;
use sno_pattern::MAX_BYTES;
use std::alloc::Global;

/// Reads a rule and the definitions that it may refer to, as [`sno_seek::open`] does, and puts the pattern into a handle. What the
/// handle held before is closed first. It takes memory by `malloc`, and [`sno_handle_close`] frees it.
///
/// It returns a status, and sets `line_length` to a number of bytes:
///
/// - 0: the handle holds the pattern. `line_length` is 0.
/// - 2: the rule or a definition has a fault. The first `line_length` bytes of the buffer are its lines, as much of them as there is
///   room for. The handle is closed.
/// - 4: out of memory. `line_length` is 0, and the handle is closed.
///
/// After the first `line_length` bytes the buffer is unchanged.
#[unsafe(no_mangle)]
pub extern "C" fn sno_handle_open_pattern(
    alloc: Global,
    definitions: &[u8],
    rule: &[u8],
    line: &mut [u8],
    line_length: &mut usize,
    pattern: &mut Handle,
) -> u8
    ensures opened { result ≡ 0 → HasOpened pattern.new.kept.value × (line_length.new ≡ 0) }
    ensures closed { result ≢ 0 → pattern.new.kept.value ≡ None }
    ensures rest { drop line_length.new line.new ≡ drop line_length.new line.old }
    ensures inside { line_length.new ≤ length line.old }
    ensures known { (result ≡ 0) ⊎ (result ≡ 2) ⊎ (result ≡ 4) }
{
    drop(pattern.take(alloc));
    match opened(alloc, definitions, rule, line, line_length) {
        Ok(held) => {
            pattern.put(Some(held));
            DONE
        }
        Err(status) => status,
    }
}

/// Copies bytes into a handle, as a text. What it held before is closed first. It takes memory by `malloc`, and
/// [`sno_handle_close`] frees it.
///
/// It returns a status:
///
/// - 0: the handle holds the text.
/// - 4: out of memory. The handle is closed.
/// - 9: there are more than 16,777,216 bytes. The handle is closed.
#[unsafe(no_mangle)]
pub extern "C" fn sno_handle_open_text(alloc: Global, bytes: &[u8], text: &mut Handle) -> u8
    ensures copied { result ≡ 0 → text.new.kept.value ≡ Some (Text bytes.now) }
    ensures closed { result ≢ 0 → text.new.kept.value ≡ None }
    ensures long { result ≡ 9 ↔ (MAX_BYTES < length bytes.now) }
    ensures known { (result ≡ 0) ⊎ (result ≡ 4) ⊎ (result ≡ 9) }
{
    drop(text.take(alloc));
    if bytes.len() > MAX_BYTES {
        return TOO_LONG;
    }
    let Ok(held) = held_text(alloc, bytes) else {
        return NO_MEMORY;
    };
    text.put(Some(held));
    DONE
}

/// Seeks the pattern of a handle in the text of another one, from a cursor on. The search may take `trials` trials, 1 to
/// 1,000,000,000. What it found is kept with the pattern.
///
/// It returns a status, and sets `found` to what was found:
///
/// - 0: there is a match. `found` has its cursors, the cursor at which the next search of a pass begins, and how many assignments
///   the search did.
/// - 1: there is no match. `found` has how many assignments the search did.
/// - 7: the handles don't hold a pattern and a text. Nothing is changed.
///
/// Else nothing was found, and with the pattern nothing is kept. The first that applies of these:
///
/// - 3: the limit of trials is invalid.
/// - 10: the cursor lies past the end of the text.
/// - 8: the search takes more trials than the limit.
///
/// 4 may come instead of 0, 1 and 8: out of memory, or the search would have to keep too much.
#[unsafe(no_mangle)]
pub extern "C" fn sno_handle_next(
    alloc: Global,
    pattern: &mut Handle,
    text: &mut Handle,
    from: usize,
    trials: u32,
    found: &mut FoundMatch,
) -> u8
    ensures call { IsSearchCall from trials pattern.old.kept.value text.old.kept.value pattern.new.kept.value found.new result }
    ensures text { text.new.kept.value ≡ text.old.kept.value }
{
    let mut sought = pattern.take(alloc);
    let held = text.take(alloc);
    let status = search_held(alloc, &mut sought, &held, from, trials, found);
    pattern.put(sought);
    text.put(held);
    status
}

/// Does up to `most` searches for the pattern of a handle in the text of another one, each from where the match of the one before
/// leaves off, and gathers what they find: the same as that many calls of [`sno_handle_next`], each with its cursor from
/// `next` of the one before. A search without a match is the last one. All of them together may take `trials` trials, 1 to
/// 1,000,000,000. What was gathered with the pattern before is dropped.
///
/// It returns a status:
///
/// - 0: the searches are gathered. [`sno_handle_take`] takes them, one after the other.
/// - 7: the handles don't hold a pattern and a text. Nothing is changed.
///
/// Else nothing is gathered. The first that applies of these:
///
/// - 3: the limit of trials is invalid.
/// - 10: the cursor lies past the end of the text.
/// - 8: the searches together take more trials than the limit.
///
/// 4 may come instead of 0 and 8: out of memory; so may 11: a search would have to keep too much.
#[unsafe(no_mangle)]
pub extern "C" fn sno_handle_gather(
    alloc: Global,
    pattern: &mut Handle,
    text: &mut Handle,
    from: usize,
    trials: u32,
    most: usize,
) -> u8
    ensures call { IsGatherCall from trials most pattern.old.kept.value text.old.kept.value pattern.new.kept.value result }
    ensures text { text.new.kept.value ≡ text.old.kept.value }
{
    let mut sought = pattern.take(alloc);
    let held = text.take(alloc);
    let status = gather_held(alloc, &mut sought, &held, from, trials, most);
    pattern.put(sought);
    text.put(held);
    status
}

/// Takes the first of the searches that were gathered with the pattern of a handle. It is the pattern's last search from then on, whose
/// assignments [`sno_handle_assignment`] reports.
///
/// It returns a status, and sets `found` as [`sno_handle_next`] does:
///
/// - 0: the search found a match.
/// - 1: it found none.
/// - 12: no search is gathered, and nothing is changed.
/// - 7: the handle doesn't hold a pattern.
#[unsafe(no_mangle)]
pub extern "C" fn sno_handle_take(alloc: Global, pattern: &mut Handle, found: &mut FoundMatch) -> u8
    ensures call { IsTakeCall pattern.old.kept.value pattern.new.kept.value found.new result }
{
    let mut sought = pattern.take(alloc);
    let status = take_held(&mut sought, found);
    pattern.put(sought);
    status
}

/// Reports an assignment of the last search for the pattern of a handle, by its place: first those that were done at once, in their
/// order and also if the match then backed up, and after them the conditional ones of the match, in the order in which their parts
/// ended. A variable has the value of its last assignment.
///
/// It returns a status, and sets `found`:
///
/// - 0: `found` has the assignment, and the buffer begins with the name of its variable.
/// - 1: there is no assignment at this place.
/// - 5: as 0, but the buffer is too short for the name, and unchanged. A name has at most 64 bytes.
/// - 7: the handle doesn't hold a pattern.
#[unsafe(no_mangle)]
pub extern "C" fn sno_handle_assignment(
    alloc: Global,
    pattern: &mut Handle,
    place: usize,
    name: &mut [u8],
    found: &mut FoundAssignment,
) -> u8
    ensures call { IsAssignmentCall place pattern.old.kept.value name.old name.new found.new result }
    ensures kept { pattern.new.kept.value ≡ pattern.old.kept.value }
{
    let sought = pattern.take(alloc);
    let status = assignment_held(&sought, place, name, found);
    pattern.put(sought);
    status
}

/// Puts what the rule of a pattern makes of a text in a buffer: the text in which each match is replaced, or only the first if the
/// rule says so, or round after round. Each search, or all together if the rule is for all matches, may take `trials` trials, 1 to
/// 1,000,000,000. The text stays as it is.
///
/// It returns a status, and sets `done` to the length of the new text and to the number of matches:
///
/// - 0: the buffer begins with the new text.
/// - 1: there is no new text, since there was no match or the rule has no object. The length is 0.
/// - 5: the buffer is too short for the new text.
/// - 7: the handles don't hold a pattern and a text. Both numbers are 0, as for each further status.
/// - 3: the limit of trials is invalid.
/// - 8: too many trials.
/// - 9: the new text would have more than 16,777,216 bytes.
/// - 4: out of memory, which may come instead of each but 3 and 7; or a search would have to keep too much.
///
/// If the status isn't 0, the buffer is unchanged.
#[unsafe(no_mangle)]
pub extern "C" fn sno_handle_replace(
    alloc: Global,
    pattern: &mut Handle,
    text: &mut Handle,
    trials: u32,
    buffer: &mut [u8],
    done: &mut Replaced,
) -> u8
    ensures call { IsReplacementCall trials pattern.old.kept.value text.old.kept.value buffer.old buffer.new done.new result }
    ensures pattern { pattern.new.kept.value ≡ pattern.old.kept.value }
    ensures text { text.new.kept.value ≡ text.old.kept.value }
{
    let mut sought = pattern.take(alloc);
    let held = text.take(alloc);
    let status = replace_held(alloc, &mut sought, &held, trials, buffer, done);
    pattern.put(sought);
    text.put(held);
    status
}

/// Closes a handle, and frees what it held. One that is closed stays so.
#[unsafe(no_mangle)]
pub extern "C" fn sno_handle_close(alloc: Global, handle: &mut Handle)
    ensures { handle.new.kept.value ≡ None }
{
    drop(handle.take(alloc));
}
