//! The option that says how many threads share the files.
ghost use Rattle.std.specs.Prelude.{◌≡◌, ◌≤◌, ◌<◌};
ghost use Rattle.sno_commands.specs.declared.thread_options.TheConstants.{MAX_THREADS};

use crate::arguments::is_up_to;
use clap::{Arg, ArgMatches};
use sno_rewrite::numeric;
use std::alloc::Global;
use std::thread;
use std::thread::Threads;

/// The most threads.
pub(crate) const MAX_THREADS: u32 = 16;

const THREADS_HELP: &str =
    "How many threads share the files, 1 to 16; by default as many as there are processors";

/// What is written if the number is not in its range.
pub(crate) const THREADS_OUT_OF_RANGE: &str =
    "error: '--threads' takes 1 to 16\n\nFor more information, try '--help'.\n";

/// The option.
pub(crate) fn threads_option<'a>(alloc: Global) -> Arg<'a> {
    numeric(alloc, "threads", THREADS_HELP)
}

/// How many threads are asked for.
pub(crate) fn threads_asked_for(matches: &ArgMatches<'_>) -> Option<u32> {
    matches.get_one::<u32>("threads")
}

/// Whether the number that is asked for is in its range.
pub(crate) fn are_threads_in_range(matches: &ArgMatches<'_>) -> bool {
    match threads_asked_for(matches) {
        Some(count) => is_up_to(MAX_THREADS, count),
        None => true,
    }
}

/// This number, or the nearest one that is in the range.
fn in_range(count: usize) -> usize
    ensures { (0 < result) × (result ≤ MAX_THREADS) }
{
    count.max(1).min(MAX_THREADS as usize)
}

/// How many threads share the files: those that are asked for, or as many as there are processors, at most 16.
pub(crate) fn thread_count<R: Threads>(rt: &R, asked: Option<u32>) -> usize
    ensures { (0 < result) × (result ≤ MAX_THREADS) }
{
    match asked {
        Some(count) => in_range(count as usize),
        None => match thread::available_parallelism(rt) {
            Ok(count) => in_range(count.get()),
            Err(_) => 1,
        },
    }
}
