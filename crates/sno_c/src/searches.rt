//! Searches for a pattern in a text.
ghost use Rattle.std.specs.Prelude.{◌≡◌, ◌<◌, ◌≤◌, ◌↔◌, ◌⊎◌, ◌+◌, length, None, Some, IfSome};
ghost use Rattle.std.specs.Option.{option_copied};
ghost use Rattle.sno_pattern.specs.declared.byte_texts.TheConstants.{MAX_BYTES};
ghost use Rattle.sno_statement.specs.Passes.{next_search, search, search_trials};
ghost use Rattle.sno_statement.specs.Statement.{IsLimit};
ghost use Rattle.sno_c.specs.Kept.{held_in};
ghost use Rattle.sno_c.specs.Patterns.{IsSearchCall, IsSearched, match_seen, no_match, text_in};
ghost use Rattle.sno_compiled.specs.Gathered.{cursor_or_past};

use crate::held::Held;
use crate::statuses::{
    BAD_LIMIT, CLOSED, DONE, HISTORY_TOO_LONG, NO_MEMORY, NOTHING, PAST_END, TOO_MANY_TRIALS,
};
use sno_pattern::{ByteText, Hit, searches_lie_within_the_text};
use sno_seek::Seeker;
use sno_statement::{FileStatementFault, MAX_TRIALS, next_cursor};
use std::alloc::Global;

/// What a search found.
#[repr(C)]
#[derive(Clone, Copy, Debug, PartialEq, Eq)]
pub struct FoundMatch {
    /// The cursor from which the match began; 0 without a match.
    pub start: usize,
    /// The cursor at which it ended; 0 without a match.
    pub end: usize,
    /// The cursor from which the next search of a pass begins; one past the end of the text if there is none.
    pub next: usize,
    /// How many assignments the search did.
    pub assignments: usize,
}

impl FoundMatch {
    /// What is reported of nothing.
    pub(crate) fn none() -> FoundMatch
        ensures { result ≡ no_match }
    {
        FoundMatch {
            start: 0,
            end: 0,
            next: 0,
            assignments: 0,
        }
    }
}

/// The cursor from which the next search of a pass begins; one past the end of the text if there is none.
fn next_of(anchored: bool, text: &ByteText, hit: &Hit) -> usize
    requires { hit.now.end ≤ length text.now }
    ensures { result ≡ cursor_or_past text.now (next_search anchored text.now hit.now) }
{
    let characters = text.bytes();
    match next_cursor(anchored, characters, hit) {
        Some(cursor) => cursor,
        None => characters.len() + 1,
    }
}

/// What the match of a search is reported as. Without one, nothing of a match is.
fn reported(anchored: bool, text: &ByteText, assignments: usize, end: Option<&Hit>) -> FoundMatch
    requires { IfSome end (λ hit. hit.now.end ≤ length text.now) }
    ensures none { end.entry ≡ None → result ≡ record { start = 0; end = 0; next = length text.now + 1; assignments = assignments } }
    ensures some { IfSome end.entry (λ hit. result ≡ record { start = hit.now.start; end = hit.now.end; next = cursor_or_past text.now (next_search anchored text.now hit.now); assignments = assignments }) }
{
    match end {
        None => FoundMatch {
            next: text.bytes().len() + 1,
            assignments,
            ..FoundMatch::none()
        },
        Some(hit) => FoundMatch {
            start: hit.start,
            end: hit.end,
            next: next_of(anchored, text, hit),
            assignments,
        },
    }
}

/// What the last search of a pattern found in the text. Without one there is nothing.
fn seen(seeker: &Seeker, text: &ByteText) -> FoundMatch
    requires { IfSome seeker.now.found (λ f. IfSome f.end (λ hit. hit.end ≤ length text.now)) }
    ensures { IfSome seeker.now.found (λ f. result ≡ match_seen seeker.now.statement text.now f f.end) }
{
    match &seeker.found {
        None => FoundMatch::none(),
        Some(last) => {
            reported(
                seeker.anchored,
                text,
                seeker.assignments(),
                last.end.as_ref(),
            )
        }
    }
}

/// Seeks a pattern in a text from a cursor on.
pub(crate) fn search(
    alloc: Global,
    seeker: &mut Seeker,
    text: &ByteText,
    from: usize,
    trials: u32,
    found: &mut FoundMatch,
) -> u8
    ensures { IsSearched from trials text.now seeker.old seeker.new found.new result }
{
    *found = FoundMatch::none();
    if trials == 0 || trials > MAX_TRIALS {
        seeker.found = None;
        return BAD_LIMIT;
    }
    if from > text.bytes().len() {
        seeker.found = None;
        return PAST_END;
    }
    // for the proof
    searches_lie_within_the_text();
    match seeker.next(alloc, text, from, trials) {
        Ok(matched) => {
            *found = seen(seeker, text);
            if matched { DONE } else { NOTHING }
        }
        Err(FileStatementFault::TooManyTrials) => TOO_MANY_TRIALS,
        Err(FileStatementFault::HistoryTooLong) => HISTORY_TOO_LONG,
        Err(FileStatementFault::Memory) => NO_MEMORY,
        Err(FileStatementFault::TextTooLong) => unreachable!(),
    }
}

/// The text that is held, if it is one.
pub(crate) fn text_of(held: &Option<Box<Held>>) -> Option<&ByteText>
    ensures { option_copied result ≡ text_in (held_in held.now) }
{
    match held {
        Some(held) => match &**held {
            Held::Text(text) => Some(text),
            Held::Pattern(_) | Held::Book(_) => None,
        },
        None => None,
    }
}

/// Seeks the pattern that is held in the text that is held, from a cursor on. Refused if they are something else.
pub(crate) fn search_held(
    alloc: Global,
    pattern: &mut Option<Box<Held>>,
    text: &Option<Box<Held>>,
    from: usize,
    trials: u32,
    found: &mut FoundMatch,
) -> u8
    ensures { IsSearchCall from trials (held_in pattern.old) (held_in text.now) (held_in pattern.new) found.new result }
{
    *found = FoundMatch::none();
    let Some(text) = text_of(text) else {
        return CLOSED;
    };
    match pattern {
        Some(held) => match &mut **held {
            Held::Pattern(seeker) => search(alloc, seeker, text, from, trials, found),
            Held::Text(_) | Held::Book(_) => CLOSED,
        },
        None => CLOSED,
    }
}
