//! Rules that are performed on the files of the system.
ghost use Rattle.std.specs.Prelude.{◌<◌};

use sno_edit::EditRules;
use std::alloc::Global;
use std::fs::File;
use std::rt::Files;

/// Rules, with what performs them on files. By its type there is a thread.
#[derive(Drop)]
pub(crate) struct Editor<'e, R: Files<File = File>> {
    /// The system that has the files.
    pub(crate) rt: &'e R,
    /// From where memory comes.
    pub(crate) alloc: Global,
    /// The rules.
    pub(crate) rules: &'e EditRules,
    /// How many threads share the files.
    pub(crate) threads: usize,
    ghost some: { 0 < threads },
}
