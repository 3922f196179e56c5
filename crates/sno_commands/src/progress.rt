//! How many files are done, on a terminal.

use std::io;
use std::io::Write;

/// Puts the line that counts files away: back to its start, and clear to its end.
const CLEAR: &[u8] = b"\r\x1b[K";

/// Standard error, with a line that counts files if that is wanted. The line is rewritten in its place, and put away before anything
/// else is written.
#[derive(Drop)]
pub(crate) struct Progress<'e, E: Write> {
    errors: &'e mut E,
    wanted: bool,
    shown: bool,
    done: usize,
    files: usize,
}

impl<'e, E: Write> Progress<'e, E> {
    /// Standard error before anything is done.
    pub(crate) fn of(errors: &'e mut E, wanted: bool) -> Progress<'e, E> {
        Progress {
            errors,
            wanted,
            shown: false,
            done: 0,
            files: 0,
        }
    }

    /// Begins to count: none of this many files is done.
    pub(crate) fn begin(&mut self, files: usize) {
        self.done = 0;
        self.files = files;
    }

    /// Counts this many files more that are done, and shows how many they are if some are left.
    pub(crate) fn add(&mut self, files: usize) {
        self.done = self.done.saturating_add(files);
        let done = self.done;
        let files = self.files;
        if self.wanted && done < files {
            self.shown = true;
            let _printed = self
                .errors
                .write_fmt(format_args!("\r{done} of {files} files\x1b[K"));
        }
    }

    /// Puts the line away. If that can't be written, nothing is lost.
    pub(crate) fn end(&mut self) {
        if self.shown {
            self.shown = false;
            let _cleared = self.errors.write_all(CLEAR);
        }
    }
}

impl<E: Write> Write for Progress<'_, E> {
    fn write(&mut self, bytes: &[u8]) -> io::Result<usize> {
        self.end();
        self.errors.write(bytes)
    }

    fn flush(&mut self) -> io::Result<()> {
        self.errors.flush()
    }
}
