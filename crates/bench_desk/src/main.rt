//! Puts a desk under load, and ends on its own.
//!
//! ```text
//! bench_desk
//! bench_desk --submits N --writers W --readers R [--looks HOW]
//! bench_desk --times N
//! ```
//!
//! - Without arguments 8 seats submit 8,000 statements on 4 texts, while 8 others take snapshots all the time. Half of
//!   the statements replace the text's only character, the other half only match. When all are submitted the desk is
//!   closed. Then the program checks the receipts, the counts and the readers, and prints how many entries, receipts
//!   and snapshots there were. It checks that each receipt's entry is in the journal at its index, and only there; that
//!   each seat has accepted as many statements as it has receipts; and that no reader saw a version lower than an
//!   earlier one.
//! - With `--submits N`, 1 to 1,000,000, W seats, 1 to 16, submit N statements alongside R readers, 0 to 16 - W. It
//!   also prints how long that took, and the number of submits and snapshots per second. HOW is `snapshots`; `eager`,
//!   if no reader gives its core away; `one`, if all readers read one text in place; or `own`, if each reads its own.
//! - With `--times N`, 1 to 100,000, it prints the nanoseconds, to a tenth, of one snapshot and of one commit. The
//!   desks have 10 and 1,000 texts, and their journals begin with no entries and with 100,000. Each time is the least
//!   of five runs, and a run does the work N times.
//!
//! The status is 0 if all was found as it should be, and otherwise 1. It is 3 for other arguments. It is 4 if memory
//! ran out, or if the clock or a write failed. A fault is one line on standard error.
//!
//! | File | What it does |
//! |---|---|
//! | `words` | what the arguments ask for |
//! | `texts` | the texts and the statements of a load |
//! | `posts` | what a writer and a reader do at their seats |
//! | `load` | a desk under load, from its opening to its close |
//! | `findings` | what the closed journal says of the receipts |
//! | `timing` | how long a snapshot and a commit take |
//! | `faults` | why the program fails |
#![tactic(auto)]

mod faults;
mod findings;
mod load;
mod posts;
mod printing;
mod texts;
mod timing;
mod words;

use crate::faults::Fault;
use crate::printing::{print_load, print_times};
use crate::words::{Task, task_in};
use std::env::Args;
use std::process::ExitCode;
use std::sync::Wait;
use std::thread::Threads;
use std::time::Clock;
use std::{env, io};

/// Does what the arguments ask for.
fn perform<R: Print + Threads + Wait + Clock + AllocGlobal + Sync>(
    rt: &R,
    words: io::Result<Args>,
) -> Result<(), Fault> {
    match task_in(words)? {
        Task::Load { load, is_timed } => print_load(rt, load, is_timed),
        Task::Times(times) => print_times(rt, times),
    }
}

fn main(rt: HostRuntime) -> ExitCode {
    match perform(&rt, env::args(&rt)) {
        Ok(()) => ExitCode::SUCCESS,
        Err(fault) => {
            let _printed = eprintln!(rt; "{fault}");
            ExitCode::from(fault.status())
        }
    }
}
