//! A trace in lines.

use crate::events::{Landmark, Marked, Noted, Trial};
use crate::scanning::enough_depth;
use crate::spelling::{put, put_escaped, put_leaf, put_number};
use crate::tracing::MatchTrace;
use sno_pattern::{Assign, Name, Rules, Text, What};
use std::alloc::{AllocError, Global};

/// The most lines of a trace that may be asked for.
pub const MAX_LINES: u32 = 10_000;

/// How many lines of a trace are shown if no number is given. A trace that nests too deep is refused, and few trials nest less.
pub const USUAL_LINES: u32 = 1_000;

/// The most references for which a line is moved to the right.
const DEEPEST: usize = 30;

/// Lines; only the first ones are kept.
#[derive(Drop)]
struct Page {
    out: Vec<u8>,
    /// How many lines there are, also those that aren't kept.
    count: usize,
    most: usize,
    /// How many references are nested around what is shown.
    depth: usize,
}

impl Page {
    /// Counts one more line, and returns whether it is kept.
    fn counts(&mut self) -> bool {
        self.count = self.count.saturating_add(1);
        self.count <= self.most
    }

    /// Adds a line that is kept.
    fn add(&mut self, line: &[u8]) -> Result<(), AllocError> {
        for _ in 0..self.depth.min(DEEPEST) {
            put(&mut self.out, b"  ")?;
        }
        put(&mut self.out, line)?;
        put(&mut self.out, b"\n")
    }
}

/// The characters between two cursors; none if there are no such cursors.
fn part(characters: &[u8], start: usize, end: usize) -> &[u8] {
    if start <= end && end <= characters.len() {
        &characters[start..end]
    } else {
        &[]
    }
}

/// Adds a word, a blank and a number.
fn put_counted(out: &mut Vec<u8>, word: &[u8], number: usize) -> Result<(), AllocError> {
    put(out, word)?;
    put(out, b" ")?;
    put_number(out, number)
}

/// Where a trial or a definition ends, such as ` -> 4`.
fn put_end(out: &mut Vec<u8>, end: Option<usize>) -> Result<(), AllocError> {
    match end {
        Some(end) => put_counted(out, b" ->", end),
        None => put(out, b" fails"),
    }
}

/// A trial, such as `try 'a' 3 -> 4`, or `back to ARB 3 -> 5` if the leaf is backed into.
fn put_tried(out: &mut Vec<u8>, trial: &Trial<'_>) -> Result<(), AllocError> {
    let word: &[u8] = if trial.again { b"back to " } else { b"try " };
    put(out, word)?;
    put_leaf(out, trial.leaf.pattern())?;
    put_counted(out, b"", trial.cursor)?;
    put_end(out, trial.end)
}

/// A definition that is entered or left at a cursor, such as `enter P 3`.
fn put_crossed(
    out: &mut Vec<u8>,
    word: &[u8],
    rules: &Rules,
    number: usize,
    cursor: usize,
) -> Result<(), AllocError> {
    put(out, word)?;
    if let Some(name) = rules.name(number) {
        put(out, name.bytes())?;
    }
    put_counted(out, b"", cursor)
}

/// A mark, such as `leave P 3 -> 4` or `null round 3`.
fn put_mark(out: &mut Vec<u8>, rules: &Rules, mark: &Marked) -> Result<(), AllocError> {
    match mark.what {
        Landmark::Enter(number) => put_crossed(out, b"enter ", rules, number, mark.cursor),
        Landmark::Leave(number, end) => {
            put_crossed(out, b"leave ", rules, number, mark.cursor)?;
            put_end(out, Some(end))
        }
        Landmark::Fail(number) => {
            put_crossed(out, b"leave ", rules, number, mark.cursor)?;
            put_end(out, None)
        }
        Landmark::NullRound => put_counted(out, b"null round", mark.cursor),
    }
}

/// A part of the text, escaped, such as `|abc|`.
fn put_part(
    out: &mut Vec<u8>,
    characters: &[u8],
    start: usize,
    end: usize,
) -> Result<(), AllocError> {
    put(out, b"|")?;
    put_escaped(out, part(characters, start, end))?;
    put(out, b"|")
}

/// An assignment, such as `set V = |abc|`, or `set V = 3` for a cursor.
fn put_set(out: &mut Vec<u8>, characters: &[u8], assign: &Assign) -> Result<(), AllocError> {
    put(out, b"set ")?;
    put(out, assign.name.bytes())?;
    match assign.what {
        What::Part(start, end) => {
            put(out, b" = ")?;
            put_part(out, characters, start, end)
        }
        What::Cursor(cursor) => put_counted(out, b" =", cursor),
    }
}

/// The line of an event, from its word on; nothing for an event that ends the match.
fn put_event(
    out: &mut Vec<u8>,
    rules: &Rules,
    characters: &[u8],
    event: &Noted<'_>,
) -> Result<(), AllocError> {
    match event {
        Noted::Try(trial) => put_tried(out, trial),
        Noted::Set(assign) => put_set(out, characters, assign),
        Noted::Mark(mark) => put_mark(out, rules, mark),
        Noted::End(_, _) | Noted::Halt | Noted::Stop => Ok(()),
    }
}

/// How many references are nested around an event, if `most` may be. An assignment is as deep as what comes before it.
fn depth_of(most: u128, event: &Noted<'_>, before: usize) -> usize {
    let below = match event {
        Noted::Try(trial) => trial.below,
        Noted::Mark(mark) => mark.below,
        Noted::Set(_) | Noted::End(_, _) | Noted::Halt | Noted::Stop => return before,
    };
    let depth = most.saturating_sub(below);
    if depth < DEEPEST as u128 {
        depth as usize
    } else {
        DEEPEST
    }
}

/// The line of an event.
fn add_event(
    alloc: Global,
    page: &mut Page,
    rules: &Rules,
    characters: &[u8],
    event: &Noted<'_>,
) -> Result<(), AllocError> {
    if page.counts() {
        let mut line = Vec::new(alloc);
        put_event(&mut line, rules, characters, event)?;
        page.add(&line)?;
    }
    Ok(())
}

/// A line such as `start 3`.
fn add_start(alloc: Global, page: &mut Page, start: usize) -> Result<(), AllocError> {
    page.depth = 0;
    if page.counts() {
        let mut line = Vec::new(alloc);
        put_counted(&mut line, b"start", start)?;
        page.add(&line)?;
    }
    Ok(())
}

/// A line for each assignment that is made since the match succeeds, such as `. V = |abc|`.
fn add_conditionals(
    alloc: Global,
    page: &mut Page,
    characters: &[u8],
    conditionals: &[(Name, usize, usize)],
) -> Result<(), AllocError> {
    page.depth = 0;
    for (name, start, end) in conditionals {
        if page.counts() {
            let mut line = Vec::new(alloc);
            put(&mut line, b". ")?;
            put(&mut line, name.bytes())?;
            put(&mut line, b" = ")?;
            put_part(&mut line, characters, *start, *end)?;
            page.add(&line)?;
        }
    }
    Ok(())
}

/// How a trace ends.
#[derive(Drop)]
enum Ending {
    Matched(usize, usize),
    Halted,
    Failed,
    /// A limit was reached.
    Stopped,
}

/// The lines of the events, up to the one that ends the match, and how it ends.
fn add_events(
    alloc: Global,
    page: &mut Page,
    rules: &Rules,
    text: &Text,
    trace: &MatchTrace<'_>,
) -> Result<Ending, AllocError> {
    let most = enough_depth(text, rules);
    let mut last_start = None;
    for (start, event) in trace.events.iter() {
        if last_start != Some(*start) && !matches!(event, Noted::Stop) {
            add_start(alloc, page, *start)?;
            last_start = Some(*start);
        }
        match event {
            Noted::Try(_) | Noted::Set(_) | Noted::Mark(_) => {
                page.depth = depth_of(most, event, page.depth);
                add_event(alloc, page, rules, text.bytes(), event)?;
            }
            Noted::End(end, conditionals) => {
                add_conditionals(alloc, page, text.bytes(), conditionals.as_slice())?;
                return Ok(Ending::Matched(*start, *end));
            }
            Noted::Halt => return Ok(Ending::Halted),
            Noted::Stop => return Ok(Ending::Stopped),
        }
    }
    Ok(Ending::Failed)
}

/// How many trials a trace has.
fn trials_in(trace: &MatchTrace<'_>) -> usize {
    trace
        .events
        .iter()
        .filter(|shown| matches!(shown.1, Noted::Try(_)))
        .count()
}

fn put_ending(out: &mut Vec<u8>, ending: Ending) -> Result<(), AllocError> {
    match ending {
        Ending::Matched(start, end) => {
            put_counted(out, b"matched", start)?;
            put_counted(out, b"", end)?;
            put(out, b"\n")
        }
        Ending::Halted => put(out, b"halt\nfailed\n"),
        Ending::Failed => put(out, b"failed\n"),
        Ending::Stopped => put(out, b"too many trials\n"),
    }
}

/// What comes after the lines that are kept: how many more there are, how the match ends, and its trials.
fn put_rest(
    out: &mut Vec<u8>,
    more: usize,
    ending: Ending,
    trials: usize,
) -> Result<(), AllocError> {
    if more > 0 {
        put_number(out, more)?;
        put(out, b" more lines\n")?;
    }
    put_ending(out, ending)?;
    put_counted(out, b"trials", trials)?;
    put(out, b"\n")
}

/// The lines of a trace: `start C` for each start, a line for each trial, each immediate assignment, each definition that is entered or
/// left and each round that is dropped, a line for each conditional assignment if the match succeeds, how it ended, and `trials N`. A
/// line is moved to the right by two blanks for each reference around it, 30 at most.
///
/// At most `most` of the lines before the last ones are shown. If there are more, a line says how many. If the trace ends with a Stop,
/// the match is refused for its trials if `is_refused` says so; otherwise the lines end with `more lines follow`.
///
/// `trace` has to be one of this text with these definitions. Refused only if out of memory.
pub fn lines_of(
    alloc: Global,
    rules: &Rules,
    text: &Text,
    trace: &MatchTrace<'_>,
    most: usize,
    is_refused: bool,
) -> Result<Vec<u8>, AllocError> {
    let mut page = Page {
        out: Vec::new(alloc),
        count: 0,
        most,
        depth: 0,
    };
    let ending = add_events(alloc, &mut page, rules, text, trace)?;
    let Page { mut out, count, .. } = page;
    if matches!(ending, Ending::Stopped) && !is_refused {
        put(&mut out, b"more lines follow\n")?;
    } else {
        put_rest(
            &mut out,
            count.saturating_sub(most),
            ending,
            trials_in(trace),
        )?;
    }
    Ok(out)
}
