//! The lines around those on which matches start.

use std::alloc::{AllocError, Global};

/// How many lines are shown before and after a line on which a match starts.
#[derive(Clone, Copy)]
pub(crate) struct Context {
    /// How many before.
    pub(crate) before: usize,
    /// How many after.
    pub(crate) after: usize,
}

/// The last line of a file that was shown: its number, or 0 if none was, and where the next one begins.
#[derive(Clone, Copy)]
pub(crate) struct Last {
    pub(crate) line: usize,
    pub(crate) end: usize,
}

/// A line: its number, and where it begins.
#[derive(Clone, Copy)]
pub(crate) struct LineStart {
    pub(crate) line: usize,
    pub(crate) start: usize,
}

/// What comes after the first bytes.
fn rest(bytes: &[u8], start: usize) -> &[u8] {
    bytes.get(start..).unwrap_or(&[])
}

/// The first line, without its line feed.
fn first_line(bytes: &[u8]) -> &[u8] {
    match bytes.iter().position(|byte| *byte == b'\n') {
        Some(end) => bytes.get(..end).unwrap_or(bytes),
        None => bytes,
    }
}

/// Where the line begins on which a place is.
pub(crate) fn line_start(bytes: &[u8], place: usize) -> usize {
    let before = bytes.get(..place).unwrap_or(bytes);
    match before.iter().rposition(|byte| *byte == b'\n') {
        Some(feed) => feed.saturating_add(1),
        None => 0,
    }
}

/// Where the line after the one that begins at `start` begins.
pub(crate) fn line_end(bytes: &[u8], start: usize) -> usize {
    let line = first_line(rest(bytes, start));
    start.saturating_add(line.len()).saturating_add(1)
}

/// Where the line begins that is this many lines before the one that begins at `start`.
fn lines_back(bytes: &[u8], start: usize, count: usize) -> usize {
    let mut start = start;
    for _ in 0..count {
        start = line_start(bytes, start.saturating_sub(1));
    }
    start
}

/// A file whose lines are shown around those on which matches start.
#[derive(Clone, Copy)]
pub(crate) struct Around<'t> {
    /// What the file is called.
    pub(crate) path: &'t str,
    /// Its text.
    pub(crate) bytes: &'t [u8],
    /// How many lines are shown.
    pub(crate) context: Context,
}

impl Around<'_> {
    /// Adds a line that is shown for those around it, as `path-line-text`.
    fn put_line(
        self,
        alloc: Global,
        number: usize,
        line: &[u8],
        out: &mut Vec<u8>,
    ) -> Result<(), AllocError> {
        let path = self.path;
        let place = format!(in alloc; "{path}-{number}-")?;
        out.extend_from_slice(place.as_bytes())?;
        out.extend_from_slice(line)?;
        out.push(b'\n')?;
        Ok(())
    }

    /// Adds the lines after the last that was shown, as many as the text has of `count`.
    fn put_next(
        self,
        alloc: Global,
        last: Last,
        count: usize,
        out: &mut Vec<u8>,
    ) -> Result<(), AllocError> {
        let mut last = last;
        for _ in 0..count {
            if last.end >= self.bytes.len() {
                break;
            }
            let line = first_line(rest(self.bytes, last.end));
            last.line = last.line.saturating_add(1);
            last.end = last.end.saturating_add(line.len()).saturating_add(1);
            self.put_line(alloc, last.line, line, out)?;
        }
        Ok(())
    }

    /// Adds the lines that are shown after the last.
    pub(crate) fn put_after(
        self,
        alloc: Global,
        last: Last,
        out: &mut Vec<u8>,
    ) -> Result<(), AllocError> {
        self.put_next(alloc, last, self.context.after, out)
    }

    /// Adds what comes between the last line that was shown and the next: lines after the one, a line `--` if lines are left out or if
    /// this is another group, and lines before the other. `grouped` says whether a group was shown before, of this file or of another.
    pub(crate) fn put_between(
        self,
        alloc: Global,
        last: Last,
        next: LineStart,
        grouped: bool,
        out: &mut Vec<u8>,
    ) -> Result<(), AllocError> {
        let is_first = last.line == 0;
        let gap = next.line.saturating_sub(last.line).saturating_sub(1);
        let after = if is_first {
            0
        } else {
            self.context.after.min(gap)
        };
        let before = self.context.before.min(gap.saturating_sub(after));
        self.put_next(alloc, last, after, out)?;
        if grouped && (is_first || after.saturating_add(before) < gap) {
            out.extend_from_slice(b"--\n")?;
        }
        let from = Last {
            line: next.line.saturating_sub(before).saturating_sub(1),
            end: lines_back(self.bytes, next.start, before),
        };
        self.put_next(alloc, from, before, out)
    }
}
