//! Rules that are sought in the files of the system.
ghost use Rattle.std.specs.Prelude.{◌<◌};

use crate::find_options::Shown;
use sno_edit::EditRules;
use std::alloc::Global;
use std::fs::File;
use std::rt::Files;

/// Rules, with what seeks them in files, and what is shown of their matches. By its type there is a thread.
#[derive(Drop)]
pub(crate) struct Search<'s, R: Files<File = File>> {
    /// The system that has the files.
    pub(crate) rt: &'s R,
    /// From where memory comes.
    pub(crate) alloc: Global,
    /// The rules.
    pub(crate) rules: &'s EditRules,
    /// What is shown of the matches.
    pub(crate) shown: Shown<'s>,
    /// How many threads share the files.
    pub(crate) threads: usize,
    /// Whether the files are of a folder. Then those that are not text are left out.
    pub(crate) in_folder: bool,
    ghost some: { 0 < threads },
}

impl<'s, R: Files<File = File>> Search<'s, R> {
    /// The same search in files of a folder, or in others.
    pub(crate) fn in_part(&self, in_folder: bool) -> Search<'s, R> {
        Search {
            rt: self.rt,
            alloc: self.alloc,
            rules: self.rules,
            shown: self.shown,
            threads: self.threads,
            in_folder,
        }
    }
}
