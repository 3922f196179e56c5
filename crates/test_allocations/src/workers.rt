//! Two workers with three jobs.
ghost use Rattle.std.specs.Prelude.{◌≡◌, []};

use crate::call_ends::{CallEnd, check_eq, tell, tell_ready};
use crate::jobs::{book, statement};
use sno_book::Book;
use sno_desk::{
    Blank, Desk, Naming, OpenGate, Reply, Seat, SubmitFault, WorkersFault, close, run_workers,
};
use sno_statement::Statement;
use std::alloc::Global;
use std::marker::Brand;
use std::process::Abort;
use std::sync::{Arc, Wait};
use std::test::Fail;
use std::thread::Threads;

/// What the workers came to: all replies are receipts, or the call or a reply says that memory was refused. Then others may say that the desk was
/// stopped.
fn end_of(rt: &impl Abort, replies: Result<Vec<Reply>, WorkersFault>) -> CallEnd {
    let Ok(replies) = replies else {
        return CallEnd::Refused;
    };
    check_eq(rt, &replies.len(), &3);
    let mut end = CallEnd::Given;
    let mut is_stopped = false;
    for reply in &replies {
        match reply {
            Ok(_) => {}
            Err(SubmitFault::Memory) => end = CallEnd::Refused,
            Err(SubmitFault::Stopped) => is_stopped = true,
            Err(fault) => assert!(rt; false, "{fault}"),
        }
    }
    assert!(rt; !is_stopped || end == CallEnd::Refused);
    end
}

/// What the workers came to, and how many each seat has accepted.
fn work_at<L: Naming + Send + Sync, R: Threads + Wait + Abort + Print + Sync>(
    rt: &R,
    alloc: Global,
    desk: &Desk<L>,
    seats: &mut [Seat<L>],
    jobs: &[Arc<Statement>],
) -> Result<(CallEnd, (u64, u64)), Fail> {
    assert!(rt; seats.len() == 2);
    tell_ready(rt)?;
    let replies = run_workers(rt, alloc, desk, seats, jobs, 100, &OpenGate);
    let end = end_of(rt, replies);
    Ok((end, (seats[0].accepted(), seats[1].accepted())))
}

/// What the workers came to, how many each seat has accepted, and the closed book.
fn work<L: Naming + Send + Sync, R: Threads + Wait + Abort + Print + Sync>(
    rt: &R,
    alloc: Global,
    blank: Blank,
    book: Book,
    jobs: &[Arc<Statement>],
) -> Result<(CallEnd, (u64, u64), Book), Fail>
    requires name { (blank.ledger.name ≡ L.name) × (blank.ledger.parts ≡ L.parts) }
    requires histories { (blank.history ≡ record { history = L.book; entries = [] }) × (blank.attempts.history ≡ L.tries) }
    requires opening { book.opening ≡ L.opening }
    requires two { blank.ledger.parts ≡ 2 }
    requires empty { book.journal ≡ [] }
{
    let (desk, mut seats) = Desk::<L>::new(rt, alloc, blank, book, 2).map_err(|(fault, _)| fault)?;
    let done = work_at(rt, alloc, &desk, seats.as_mut_slice(), jobs);
    let closed = close(rt, desk, seats).map_err(|(fault, _)| fault);
    let (end, shares) = done?;
    Ok((end, shares, closed?))
}

fn work_at_own_desk<R: Threads + Wait + Abort + Print + Sync>(
    rt: &R,
    alloc: Global,
    book: Book,
    jobs: &[Arc<Statement>],
) -> Result<(CallEnd, (u64, u64), Book), Fail>
    requires { book.journal ≡ [] }
{
    work::<Brand, R>(rt, alloc, Blank::new(2), book, jobs)
}

/// A statement for each of these texts, whose letter it replaces.
fn jobs(
    rt: &impl Abort,
    alloc: Global,
    rows: &[(&'static str, &'static str)],
) -> Result<Vec<Arc<Statement>>, Fail> {
    let mut jobs = Vec::new(alloc);
    for (text, pattern) in rows {
        jobs.push(statement(rt, alloc, text, pattern, "'x'")?)?;
    }
    Ok(jobs)
}

/// Three jobs on three texts.
fn work_on_letters<R: Threads + Wait + Abort + Print + Sync>(
    rt: &R,
    alloc: Global,
) -> Result<(CallEnd, (u64, u64), Book), Fail> {
    let jobs = jobs(rt, alloc, &[("A", "'a'"), ("B", "'b'"), ("C", "'c'")])?;
    let book = book(alloc, &[("A", "a"), ("B", "b"), ("C", "c")])?;
    work_at_own_desk(rt, alloc, book, jobs.as_slice())
}

/// The journal has as many entries as the seats have accepted: all three where every reply is a receipt.
#[test]
fn jobs_are_done_by_workers(rt: HostRuntime) -> Result<(), Fail> {
    let (end, (first, second), book) = work_on_letters(&rt, rt.alloc())?;
    check_eq(
        &rt,
        &(book.journal().len() as u64),
        &first.saturating_add(second),
    );
    if end == CallEnd::Given {
        check_eq(&rt, &(first, second), &(2, 1));
    }
    tell(&rt, end)
}
