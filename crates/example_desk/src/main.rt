//! The library at work in a caller's threads, as docs/LIBRARY.md explains it step by step.
//!
//! Four seats at one desk share a page. Two of them propose and commit on their own, one submits at a gate that pauses,
//! and one only reads. Then the desk is closed and its journal is read. Last, a pattern is compiled once and matched
//! with several texts, without any desk.
//!
//! | File | What it shows |
//! |---|---|
//! | `statements` | definitions are read and admitted, and statements are made of patterns and objects |
//! | `day` | a book, its desk, the threads, and the close |
//! | `seats` | what the seats do: snapshot, propose, commit; submit; only read |
//! | `pauses` | a gate |
//! | `journal` | the journal and the texts of the closed book |
//! | `matching` | the matcher on its own |
//! | `faults` | why the program ends early |
#![tactic(auto)]

mod day;
mod faults;
mod journal;
mod matching;
mod pauses;
mod seats;
mod statements;

use crate::day::run_day;
use crate::faults::Fault;
use crate::journal::print_journal;
use crate::matching::print_matches;
use crate::statements::Edits;
use std::process::ExitCode;
use std::sync::Wait;
use std::thread::Threads;
use std::time::Clock;

/// A day at the desk, what it leaves, and some matches.
fn example<R: Threads + Wait + Clock + Print + AllocGlobal + Sync>(rt: &R) -> Result<(), Fault> {
    let alloc = rt.alloc();
    let edits = Edits::new(alloc)?;
    let book = run_day(rt, alloc, &edits)?;
    print_journal(rt, &book)?;
    print_matches(rt, alloc)
}

fn main(rt: HostRuntime) -> ExitCode {
    match example(&rt) {
        Ok(()) => ExitCode::SUCCESS,
        Err(fault) => {
            let _printed = eprintln!(&rt; "{fault}");
            ExitCode::FAILURE
        }
    }
}
