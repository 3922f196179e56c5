//! Searches that are done many at once, and then taken one by one.
ghost use Rattle.std.specs.Prelude.{◌≡◌, ◌≢◌, ◌<◌, ◌≤◌, ◌↔◌, ◌⊎◌, length, None, Some, [], ◌∷◌};
ghost use Rattle.std.specs.Option.{option_map};
ghost use Rattle.sno_compiled.specs.Gathered.{gathered, gathered_trials};
ghost use Rattle.sno_statement.specs.Statement.{IsLimit};
ghost use Rattle.sno_c.specs.Gatherings.{IsGatherCall, IsGathered, IsTakeCall, IsTakenOf, found_seen};
ghost use Rattle.sno_c.specs.Kept.{held_in};

use crate::held::Held;
use crate::searches::{FoundMatch, text_of};
use crate::statuses::{
    BAD_LIMIT, CLOSED, DONE, HISTORY_TOO_LONG, NO_MEMORY, NOTHING, NOTHING_GATHERED, PAST_END,
    TOO_MANY_TRIALS,
};
use sno_pattern::{ByteText, Hit};
use sno_seek::Seeker;
use sno_statement::{FileStatementFault, MAX_TRIALS};
use std::alloc::Global;

/// Does up to `most` searches of a pattern in a text that follow one another, the first of them from a cursor on.
fn gather(
    alloc: Global,
    seeker: &mut Seeker,
    text: &ByteText,
    from: usize,
    trials: u32,
    most: usize,
) -> u8
    ensures { IsGathered from trials most text.now seeker.old seeker.new result }
{
    seeker.ahead.clear();
    if trials == 0 || trials > MAX_TRIALS {
        return BAD_LIMIT;
    }
    if from > text.bytes().len() {
        return PAST_END;
    }
    match seeker.gather(alloc, text, from, trials, most) {
        Ok(()) => DONE,
        Err(FileStatementFault::TooManyTrials) => TOO_MANY_TRIALS,
        Err(FileStatementFault::HistoryTooLong) => HISTORY_TOO_LONG,
        Err(FileStatementFault::Memory) => NO_MEMORY,
        Err(FileStatementFault::TextTooLong) => unreachable!(),
    }
}

/// As [`gather`], of the pattern and the text that are held. Refused if they are something else.
pub(crate) fn gather_held(
    alloc: Global,
    pattern: &mut Option<Box<Held>>,
    text: &Option<Box<Held>>,
    from: usize,
    trials: u32,
    most: usize,
) -> u8
    ensures { IsGatherCall from trials most (held_in pattern.old) (held_in text.now) (held_in pattern.new) result }
{
    let Some(text) = text_of(text) else {
        return CLOSED;
    };
    match pattern {
        Some(held) => match &mut **held {
            Held::Pattern(seeker) => gather(alloc, seeker, text, from, trials, most),
            Held::Text(_) | Held::Book(_) => CLOSED,
        },
        None => CLOSED,
    }
}

/// What is reported of what a search found.
fn reported(assignments: usize, next: usize, end: Option<&Hit>) -> FoundMatch
    ensures none { end.entry ≡ None → result ≡ record { start = 0; end = 0; next = next; assignments = assignments } }
    ensures some { (hit : _) → end.entry ≡ Some hit → result ≡ record { start = hit.now.start; end = hit.now.end; next = next; assignments = assignments } }
{
    match end {
        None => FoundMatch {
            next,
            assignments,
            ..FoundMatch::none()
        },
        Some(hit) => FoundMatch {
            start: hit.start,
            end: hit.end,
            next,
            assignments,
        },
    }
}

/// Takes the first of the searches that a pattern has gathered.
fn take(seeker: &mut Seeker, found: &mut FoundMatch) -> u8
    ensures { IsTakenOf seeker.old seeker.new found.new result }
{
    *found = FoundMatch::none();
    let Some(next) = seeker.take() else {
        return NOTHING_GATHERED;
    };
    match &seeker.found {
        None => unreachable!(),
        Some(last) => {
            *found = reported(seeker.assignments(), next, last.end.as_ref());
            if last.end.is_some() { DONE } else { NOTHING }
        }
    }
}

/// As [`take`], of the pattern that is held. Refused if it is something else.
pub(crate) fn take_held(pattern: &mut Option<Box<Held>>, found: &mut FoundMatch) -> u8
    ensures { IsTakeCall (held_in pattern.old) (held_in pattern.new) found.new result }
{
    *found = FoundMatch::none();
    match pattern {
        Some(held) => match &mut **held {
            Held::Pattern(seeker) => take(seeker, found),
            Held::Text(_) | Held::Book(_) => CLOSED,
        },
        None => CLOSED,
    }
}
