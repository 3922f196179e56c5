//! The search of a pass that finds the match with a number.
ghost use Rattle.std.specs.Prelude.{◌≡◌, ◌<◌, ◌≤◌, ◌-◌, length, Some, IfOk};
ghost use Rattle.sno_pattern.specs.declared.byte_texts.TheConstants.{MAX_BYTES};
ghost use Rattle.sno_statement.specs.Passes.{search_trials};
ghost use Rattle.sno_statement.specs.Perform.{IsCodeOf};
ghost use Rattle.sno_traces.specs.Searches.{GoesOn, after_found, after_search, first_search, next_after, sought_in};

use sno_machine::{Code, MatchFault, SearchOutcome, Searched, compile};
use sno_pattern::{Hit, Text, searches_lie_within_the_text};
use sno_statement::{Statement, counts, next_cursor};
use std::alloc::{AllocError, Global};

/// One search of a pass over a text.
#[derive(Clone, Copy, Debug, PartialEq, Eq)]
pub(crate) struct PassSearch {
    /// The end of the match before it, if there is one.
    pub(crate) before: Option<usize>,
    /// The cursor from which it goes on.
    pub(crate) from: usize,
    /// How many trials it may take: what the searches before it left of the statement's limit.
    pub(crate) left: u32,
    /// How many matches that count the searches before it found.
    pub(crate) matches: u32,
}

/// What comes after a search.
#[derive(Clone, Copy, Debug, PartialEq, Eq)]
pub(crate) enum AfterSearch {
    /// The next search.
    Next(PassSearch),
    /// No search that is looked for: it found the match that is sought, or the pass ended with it. And whether it found a match
    /// that counts.
    Done(bool),
}

/// The search that was sought, or the last one of the pass.
#[derive(Clone, Copy, Debug, PartialEq, Eq)]
pub(crate) struct Sought {
    pub(crate) search: PassSearch,
    /// Whether it found a match that counts.
    pub(crate) counts: bool,
}

/// What comes after a search that found this match with this number of trials.
fn after_hit(
    statement: &Statement,
    text: &[u8],
    search: PassSearch,
    earlier: u32,
    trials: u32,
    hit: &Hit,
) -> AfterSearch
    requires matches { search.matches ≤ earlier }
    requires trials { trials ≡ search_trials statement.now text.now search.from }
    requires left { trials ≤ search.left }
    requires inside { hit.now.end ≤ length text.now }
    requires short { length text.now ≤ MAX_BYTES }
    ensures after { result ≡ after_found statement.now text.now earlier search (Some hit.now) }
    ensures goes_on { GoesOn text.now earlier result }
{
    let found = counts(search.before, hit);
    if found && search.matches == earlier {
        return AfterSearch::Done(true);
    }
    let Some(from) = next_cursor(statement.anchored(), text, hit) else {
        return AfterSearch::Done(found);
    };
    AfterSearch::Next(PassSearch {
        before: Some(hit.end),
        from,
        left: search.left - trials,
        matches: if found {
            search.matches + 1
        } else {
            search.matches
        },
    })
}

/// What comes after a search of the pass.
fn after_search<'a>(
    alloc: Global,
    code: &Code<'a>,
    statement: &Statement,
    text: &mut Searched<'_, 'a>,
    search: PassSearch,
    earlier: u32,
) -> Result<AfterSearch, AllocError>
    requires code { IsCodeOf code.now statement.now }
    requires inside { search.from ≤ length text.old }
    requires matches { search.matches ≤ earlier }
    ensures after { IfOk result (λ after. after ≡ after_search statement.now text.old earlier search) }
    ensures goes_on { IfOk result (λ after. GoesOn text.old earlier after) }
    ensures same { text.new ≡ text.old }
{
    // for the proof
    searches_lie_within_the_text();
    let searched = code.first_from(alloc, text, statement.anchored(), search.from, search.left);
    match searched {
        Ok(SearchOutcome { found, trials }) => match &found.end {
            None => Ok(AfterSearch::Done(false)),
            Some(hit) => Ok(after_hit(statement, text.characters(), search, earlier, trials, hit)),
        },
        Err(MatchFault::TooManyTrials) => Ok(AfterSearch::Done(false)),
        Err(MatchFault::Memory) => Err(AllocError),
    }
}

/// The search of the statement's pass over the text that finds the match after `earlier` others that count. If there is none, it
/// is the last search: one that fails, one after which no cursor is left, or one that takes more trials than are left.
pub(crate) fn seek_match(
    alloc: Global,
    statement: &Statement,
    text: &Text,
    earlier: u32,
) -> Result<Sought, AllocError>
    ensures sought { IfOk result (λ found. found ≡ sought_in statement.now text.now earlier) }
    ensures inside { IfOk result (λ found. found.search.from ≤ length text.now) }
{
    let code = compile(alloc, statement.rules(), statement.pattern())?;
    let mut searched = Searched::new(alloc, text);
    let mut search = PassSearch {
        before: None,
        from: 0,
        left: statement.limit(),
        matches: 0,
    };
    for _passed in 0..text.bytes().len() + 1 {
        match after_search(alloc, &code, statement, &mut searched, search, earlier)? {
            AfterSearch::Next(next) => search = next,
            AfterSearch::Done(counts) => return Ok(Sought { search, counts }),
        }
    }
    Ok(Sought {
        search,
        counts: false,
    })
}
