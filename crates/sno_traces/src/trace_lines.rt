//! The lines of a trace: of a match, of a round, or of a search of a pass.
ghost use Rattle.std.specs.Prelude.{◌≡◌, ◌≤◌, length};
ghost use Rattle.std.specs.Arc.{arc_value};

use crate::rounds::round_after;
use crate::searches::seek_match;
use sno_machine::{MatchFault, SearchOutcome, Searched, compile};
use sno_pattern::Text;
use sno_statement::Statement;
use sno_trace::{MatchTrace, Noted, Search, TraceFault, lines_of, pattern_text, trace_from};
use std::alloc::{AllocError, Global};
use std::sync::Arc;

/// What is shown.
#[derive(Drop)]
pub struct TraceLines {
    /// The pattern of the statement, as it is written.
    pub pattern: Vec<u8>,
    /// The text in which the match is sought.
    pub text: Arc<Text>,
    /// The lines of its trace.
    pub lines: Vec<u8>,
    /// Whether the match that was asked for is there.
    pub matched: bool,
}

/// The cursors at which a search may find a match.
#[derive(Clone, Copy, Debug, PartialEq, Eq)]
pub(crate) struct Starts {
    /// The first one.
    pub(crate) from: usize,
    /// The last one that is shown.
    pub(crate) to: usize,
}

/// Every cursor of a text from this one on.
fn starts_from(text: &Text, from: usize) -> Starts
    ensures { result.from ≡ from }
{
    Starts {
        from,
        to: text.bytes().len(),
    }
}

/// The lines of one search, and whether it found a match; `None` if they were cut off.
#[derive(Drop)]
struct SearchLines {
    lines: Vec<u8>,
    matched: Option<bool>,
}

/// What the trace says of the search; `None` if it was cut off.
fn outcome_in(trace: &MatchTrace<'_>, is_refused: bool) -> Option<bool> {
    match trace.events.last() {
        Some((_, Noted::End(_, _))) => Some(true),
        Some((_, Noted::Stop)) => { if is_refused { Some(false) } else { None } }
        _ => Some(false),
    }
}

/// The lines of a search that may take `limit` trials, at most `most` of them.
fn search_lines(
    alloc: Global,
    statement: &Statement,
    text: &Text,
    starts: Starts,
    limit: u32,
    most: u32,
) -> Result<SearchLines, TraceFault>
    requires { starts.from ≤ length text.now }
{
    let is_refused = limit <= most;
    let trials = if is_refused { limit } else { most };
    let search = Search {
        rules: statement.rules(),
        pattern: statement.pattern(),
        text,
        anchored: statement.anchored(),
        from: starts.from,
    };
    let found = trace_from(alloc, search, trials as usize)?.up_to(starts.to);
    let lines = lines_of(
        alloc,
        statement.rules(),
        text,
        &found,
        most as usize,
        is_refused,
    )?;
    Ok(SearchLines {
        lines,
        matched: outcome_in(&found, is_refused),
    })
}

/// Whether the search finds a match. One that takes more trials than the statement may doesn't.
fn succeeds(
    alloc: Global,
    statement: &Statement,
    text: &Text,
    starts: Starts,
) -> Result<bool, AllocError>
    requires { starts.from ≤ length text.now }
{
    let code = compile(alloc, statement.rules(), statement.pattern())?;
    let mut searched = Searched::new(alloc, text);
    let limit = statement.limit();
    match code.first_from(
        alloc,
        &mut searched,
        statement.anchored(),
        starts.from,
        limit,
    ) {
        Ok(SearchOutcome { found, .. }) => match &found.end {
            Some(hit) => Ok(hit.start <= starts.to),
            None => Ok(false),
        },
        Err(MatchFault::TooManyTrials) => Ok(false),
        Err(MatchFault::Memory) => Err(AllocError),
    }
}

/// The match of a search that the whole limit of the statement is for.
fn first_lines(
    alloc: Global,
    statement: &Statement,
    text: Arc<Text>,
    starts: Starts,
    most: u32,
) -> Result<TraceLines, TraceFault>
    requires { starts.from ≤ length (arc_value text) }
{
    let found = search_lines(alloc, statement, &text, starts, statement.limit(), most)?;
    let matched = match found.matched {
        Some(matched) => matched,
        None => succeeds(alloc, statement, &text, starts)?,
    };
    Ok(TraceLines {
        pattern: pattern_text(alloc, statement.rules(), statement.pattern())?,
        text,
        lines: found.lines,
        matched,
    })
}

/// The match of a statement at one of these cursors, after a line that names them.
pub(crate) fn lines_between(
    alloc: Global,
    statement: &Statement,
    text: Arc<Text>,
    starts: Starts,
    most: u32,
) -> Result<TraceLines, TraceFault>
    requires { starts.from ≤ length (arc_value text) }
{
    let Starts { from, to } = starts;
    let head = format!(in alloc; "search from cursor {from} to {to}\n")?;
    let mut lines = Vec::from_slice(alloc, head.as_bytes())?;
    let shown = first_lines(alloc, statement, text, starts, most)?;
    lines.extend_from_slice(&shown.lines)?;
    Ok(TraceLines {
        pattern: shown.pattern,
        text: shown.text,
        lines,
        matched: shown.matched,
    })
}

/// The match of a statement that is performed once.
pub(crate) fn match_lines(
    alloc: Global,
    statement: &Statement,
    text: Arc<Text>,
    most: u32,
) -> Result<TraceLines, TraceFault> {
    let starts = starts_from(&text, 0);
    let shown = first_lines(alloc, statement, text, starts, most)?;
    Ok(shown)
}

/// Adds the line of how many matches there are, if there are fewer than were asked for, and returns whether there are as many.
fn put_matches(
    alloc: Global,
    lines: &mut Vec<u8>,
    earlier: u32,
    matches: u32,
) -> Result<bool, AllocError> {
    if matches > earlier {
        return Ok(true);
    }
    let line = format!(in alloc; "matches {matches}\n")?;
    lines.extend_from_slice(line.as_bytes())?;
    Ok(false)
}

/// How many matches there are with another one, if it counts.
fn matches_with(matches: u32, counts: bool) -> u32 {
    if counts {
        matches.saturating_add(1)
    } else {
        matches
    }
}

/// The round after `earlier` others of a repeated statement, or the one that ended the rounds. `once` is the statement in one round.
pub(crate) fn round_lines(
    alloc: Global,
    once: &Statement,
    text: Arc<Text>,
    earlier: u32,
    most: u32,
) -> Result<TraceLines, TraceFault> {
    let round = round_after(alloc, once, text, earlier)?;
    let matches = round.matches;
    let number = matches.saturating_add(1);
    let head = format!(in alloc; "round {number}\n")?;
    let mut lines = Vec::from_slice(alloc, head.as_bytes())?;
    let shown = match_lines(alloc, once, round.text, most)?;
    lines.extend_from_slice(&shown.lines)?;
    let matches = matches_with(matches, shown.matched);
    let matched = put_matches(alloc, &mut lines, earlier, matches)?;
    Ok(TraceLines {
        pattern: shown.pattern,
        text: shown.text,
        lines,
        matched,
    })
}

/// The search that finds the match after `earlier` others of a statement for all matches, or the last search of its pass.
pub(crate) fn pass_lines(
    alloc: Global,
    statement: &Statement,
    text: Arc<Text>,
    earlier: u32,
    most: u32,
) -> Result<TraceLines, TraceFault> {
    let found = seek_match(alloc, statement, &text, earlier)?;
    let search = found.search;
    let from = search.from;
    let number = search.matches.saturating_add(1);
    let head = format!(in alloc; "search for match {number} from cursor {from}\n")?;
    let mut lines = Vec::from_slice(alloc, head.as_bytes())?;
    let starts = starts_from(&text, from);
    let shown = search_lines(alloc, statement, &text, starts, search.left, most)?;
    lines.extend_from_slice(&shown.lines)?;
    let matches = matches_with(search.matches, found.counts);
    let matched = put_matches(alloc, &mut lines, earlier, matches)?;
    Ok(TraceLines {
        pattern: pattern_text(alloc, statement.rules(), statement.pattern())?,
        text,
        lines,
        matched,
    })
}
