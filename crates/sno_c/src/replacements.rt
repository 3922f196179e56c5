//! Texts that a statement leaves.
ghost use Rattle.std.specs.Prelude.{◌≡◌, ◌<◌, ◌≤◌, ◌↔◌, ◌⊎◌, ◌++◌, length, drop, None, Some, Ok, Err};
ghost use Rattle.sno_pattern.specs.declared.byte_texts.TheConstants.{MAX_BYTES};
ghost use Rattle.sno_statement.specs.Perform.{perform_within};
ghost use Rattle.sno_statement.specs.Rewriting.{rewriting};
ghost use Rattle.sno_statement.specs.Statement.{IsLimit, with_limit};
ghost use Rattle.sno_statement.specs.declared.outcomes.StatementFault.TheVariants.{TextTooLong, TooManyTrials};
ghost use Rattle.sno_c.specs.Kept.{held_in};
ghost use Rattle.sno_c.specs.Patterns.{both_in};
ghost use Rattle.sno_c.specs.Replacements.{IsReplaced, IsReplacementCall, nothing_replaced, rewritten_by};

use crate::buffers::write;
use crate::held::Held;
use crate::searches::text_of;
use crate::statuses::{
    BAD_LIMIT, CLOSED, HISTORY_TOO_LONG, NO_MEMORY, NOTHING, TOO_LONG, TOO_MANY_TRIALS,
};
use sno_pattern::ByteText;
use sno_seek::Seeker;
use sno_statement::{FileStatementFault, MAX_TRIALS};
use std::alloc::Global;

/// What was replaced.
#[repr(C)]
#[derive(Clone, Copy, Debug, PartialEq, Eq)]
pub struct Replaced {
    /// How many bytes the new text has.
    pub length: usize,
    /// How many matches there were.
    pub matches: u64,
}

impl Replaced {
    /// What is reported of nothing.
    pub(crate) fn none() -> Replaced
        ensures { result ≡ nothing_replaced }
    {
        Replaced {
            length: 0,
            matches: 0,
        }
    }
}

/// Puts what the statement of the pattern makes of the text in the buffer, if there is room for it.
fn replace(
    alloc: Global,
    seeker: &mut Seeker,
    text: &ByteText,
    trials: u32,
    buffer: &mut [u8],
    done: &mut Replaced,
) -> u8
    ensures replaced { IsReplaced trials text.now seeker.old buffer.old buffer.new done.new result }
    ensures same { seeker.new ≡ seeker.old }
{
    *done = Replaced::none();
    if trials == 0 || trials > MAX_TRIALS {
        return BAD_LIMIT;
    }
    match seeker.replaced(alloc, text, trials) {
        Ok(rewritten) => {
            done.matches = rewritten.matches;
            match &rewritten.after {
                None => NOTHING,
                Some(after) => {
                    done.length = after.bytes().len();
                    write(after.bytes(), buffer)
                }
            }
        }
        Err(FileStatementFault::TooManyTrials) => TOO_MANY_TRIALS,
        Err(FileStatementFault::TextTooLong) => TOO_LONG,
        Err(FileStatementFault::HistoryTooLong) => HISTORY_TOO_LONG,
        Err(FileStatementFault::Memory) => NO_MEMORY,
    }
}

/// Puts what the pattern that is held makes of the text that is held in the buffer. Refused if they are something else.
pub(crate) fn replace_held(
    alloc: Global,
    pattern: &mut Option<Box<Held>>,
    text: &Option<Box<Held>>,
    trials: u32,
    buffer: &mut [u8],
    done: &mut Replaced,
) -> u8
    ensures call { IsReplacementCall trials (held_in pattern.old) (held_in text.now) buffer.old buffer.new done.new result }
    ensures same { held_in pattern.new ≡ held_in pattern.old }
{
    *done = Replaced::none();
    let Some(text) = text_of(text) else {
        return CLOSED;
    };
    match pattern {
        Some(held) => match &mut **held {
            Held::Pattern(seeker) => replace(alloc, seeker, text, trials, buffer, done),
            Held::Text(_) | Held::Book(_) => CLOSED,
        },
        None => CLOSED,
    }
}
