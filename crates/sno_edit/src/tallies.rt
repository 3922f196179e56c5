//! What became of files, counted, and the status to end with.
ghost use Rattle.std.specs.Prelude.{◌≡◌, ◌+◌, ◌-◌, ◌^◌, ◌||◌, false, min};
ghost use Rattle.sno_edit.specs.Statuses.{changed_in, edit_status, is_failed, is_refused, matches_in};

use crate::{Done, FileFault};

/// What is done with the texts that rules leave.
#[derive(Clone, Copy, Debug, PartialEq, Eq)]
pub enum Purpose {
    /// The files that change are written.
    Write,
    /// What would change is written as a diff, and no file.
    Diff,
    /// The files that would change are named.
    Check,
}

/// What became of files so far.
#[derive(Clone, Copy, Debug, PartialEq, Eq)]
pub struct Tally {
    /// How many files there are.
    pub files: usize,
    /// How many of them changed.
    pub changed: usize,
    /// How many matches there were in those that were taken.
    pub matches: u64,
    /// Whether a statement was refused on a file.
    pub refused: bool,
    /// Whether a file could not be taken or written, or memory ran out.
    pub failed: bool,
}

fn changed_in(end: &Result<Done, FileFault>) -> usize
    ensures { result ≡ changed_in end.now }
{
    match end {
        Ok(done) if done.changed => 1,
        _ => 0,
    }
}

fn matches_in(end: &Result<Done, FileFault>) -> u64
    ensures { result ≡ matches_in end.now }
{
    match end {
        Ok(done) => done.matches,
        Err(_) => 0,
    }
}

fn is_refused(end: &Result<Done, FileFault>) -> bool
    ensures { result ≡ is_refused end.now }
{
    matches!(end, Err(FileFault::Refused(_) | FileFault::Cut(_)))
}

fn is_failed(end: &Result<Done, FileFault>) -> bool
    ensures { result ≡ is_failed end.now }
{
    end.is_err() && !is_refused(end)
}

impl Tally {
    /// The tally before anything is done with this number of files.
    pub fn of(files: usize) -> Tally
        ensures { result ≡ record { files = files; changed = 0; matches = 0; refused = false; failed = false } }
    {
        Tally {
            files,
            changed: 0,
            matches: 0,
            refused: false,
            failed: false,
        }
    }

    /// Counts what became of a file. No count goes past 2^64 - 1.
    pub fn count(&mut self, end: &Result<Done, FileFault>)
        ensures files { self.new.files ≡ self.old.files }
        ensures changed { self.new.changed ≡ min (self.old.changed + changed_in end.now) (2 ^ 64 - 1) }
        ensures matches { self.new.matches ≡ min (self.old.matches + matches_in end.now) (2 ^ 64 - 1) }
        ensures refused { self.new.refused ≡ self.old.refused || is_refused end.now }
        ensures failed { self.new.failed ≡ self.old.failed || is_failed end.now }
    {
        self.changed = self.changed.saturating_add(changed_in(end));
        self.matches = self.matches.saturating_add(matches_in(end));
        self.refused = self.refused || is_refused(end);
        self.failed = self.failed || is_failed(end);
    }

    /// The status to end with: 4 if a file failed, otherwise 1 if a statement was refused, if nothing matched or, if
    /// files are only checked, if one would change; otherwise 0.
    pub fn status(&self, purpose: Purpose) -> u8
        ensures { result ≡ edit_status purpose self.now }
    {
        let is_missed = match purpose {
            Purpose::Check => self.changed > 0,
            Purpose::Write | Purpose::Diff => self.matches == 0,
        };
        if self.failed {
            4
        } else if self.refused || is_missed {
            1
        } else {
            0
        }
    }
}
