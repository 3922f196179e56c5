//! As many workers as a desk may have, all at work at once.
use crate::compare::check_eq;
use crate::day::{Day, Orders, run_day};
use crate::flags::Flag;
use crate::jobs::{book, matching};
use sno_desk::Gate;
use sno_statement::Statement;
use std::alloc::Global;
use std::process::Abort;
use std::sync::atomic::{AtomicU32, Ordering};
use std::sync::{Arc, Wait};
use std::test::Fail;
use std::thread::Threads;
use std::time::Clock;

/// How many workers there are, each with one statement.
const WORKERS: u32 = 16;

/// Holds each statement until all have come. So it is shut if fewer workers than that are at work at once.
#[derive(Drop)]
struct ForAll<'a, C: Clock> {
    clock: &'a C,
    came: AtomicU32,
    all_came: Flag,
}

impl<C: Clock> Gate for ForAll<'_, C> {
    ghost shuts = { λ _ _ _. Unit {0} };

    fn pass<R: Wait>(&self, _rt: &R, _number: u32, _attempt: u32) -> bool {
        let before = self.came.fetch_add(1, Ordering::SeqCst);
        if before.wrapping_add(1) == WORKERS {
            self.all_came.raise();
        }
        self.all_came.wait(self.clock)
    }

    fn done<R: Wait>(&self, _rt: &R, _number: u32, _accepted: bool) {}
}

/// As many statements as there are workers. They change nothing, so none overtakes another.
fn jobs(rt: &impl Abort, alloc: Global) -> Result<Vec<Arc<Statement>>, Fail> {
    let mut jobs = Vec::new(alloc);
    for number in 0..WORKERS {
        jobs.push(matching(rt, alloc, number, "T", "'x'")?)?;
    }
    Ok(jobs)
}

fn work<R: Threads + Wait + Clock + Abort + Sync>(rt: &R, alloc: Global) -> Result<Day, Fail> {
    let gate = ForAll {
        clock: rt,
        came: AtomicU32::new(0),
        all_came: Flag::new(),
    };
    let jobs = jobs(rt, alloc)?;
    let book = book(alloc, &[("T", b"x")], 1_000_000)?;
    let orders = Orders {
        jobs: jobs.as_slice(),
        tries: 1,
        gate: &gate,
    };
    run_day(rt, alloc, book, 16, &orders)
}

#[test]
fn all_workers_are_at_work_at_once(rt: HostRuntime) -> Result<(), Fail> {
    let day = work(&rt, rt.alloc())?;
    check_eq(&rt, &day.shares.as_slice(), &[1u64; 16].as_slice());
    check_eq(&rt, &day.book.journal().len(), &16);
    Ok(())
}
