//! Three texts of one letter each, replaced by three jobs of two seats; and the same with a gate that is shut for one of them.
ghost use Rattle.std.specs.Prelude.{◌≤◌};
ghost use Rattle.sno_desk.specs.declared.desk.TheConstants.{MAX_TRIES};

use crate::compare::check_eq;
use crate::day::{Day, check_first_refused, check_text, run_rows};
use crate::gates::ShutFor;
use crate::jobs::Row;
use sno_book::Book;
use sno_desk::{Gate, OpenGate, Reply, SubmitFault};
use std::alloc::Global;
use std::process::Abort;
use std::sync::Wait;
use std::test::Fail;
use std::thread::Threads;

static JOBS: [Row; 3] = [
    (1, "A", "'a'", Some("'x'")),
    (2, "B", "'b'", Some("'x'")),
    (3, "C", "'c'", Some("'x'")),
];

/// The texts of the jobs, a letter each, and what two seats do with them.
fn run_letters<G: Gate + Sync, R: Threads + Wait + Abort + Sync>(
    rt: &R,
    alloc: Global,
    tries: u32,
    gate: &G,
) -> Result<Day, Fail>
    requires { (1 ≤ tries) × (tries ≤ MAX_TRIES) }
{
    let texts: [(&str, &[u8]); 3] = [("A", b"a"), ("B", b"b"), ("C", b"c")];
    run_rows(rt, alloc, &texts, JOBS.as_slice(), tries, gate)
}

/// The reply is a receipt for this job.
fn check_reply(rt: &impl Abort, reply: &Reply, number: u32) {
    match reply {
        Ok(receipt) => check_eq(rt, &receipt.entry.statement.number(), &number),
        Err(fault) => assert!(rt; false, "{fault}"),
    }
}

/// Each reply is a receipt for the job at its place.
fn check_replies(rt: &impl Abort, replies: &[Reply]) {
    assert!(rt; replies.len() == 3);
    check_reply(rt, &replies[0], 1);
    check_reply(rt, &replies[1], 2);
    check_reply(rt, &replies[2], 3);
}

fn check_texts(rt: &impl Abort, book: &Book) {
    for place in 0..3 {
        check_text(rt, book, place, "x", 1);
    }
}

#[test]
fn jobs_are_replied_to_in_order(rt: HostRuntime) -> Result<(), Fail> {
    let day = run_letters(&rt, rt.alloc(), 1, &OpenGate)?;
    check_replies(&rt, day.replies.as_slice());
    check_eq(&rt, &day.shares.as_slice(), &[2u64, 1].as_slice());
    check_eq(&rt, &day.book.journal().len(), &3);
    check_texts(&rt, &day.book);
    Ok(())
}

#[test]
fn a_shut_gate_turns_one_away(rt: HostRuntime) -> Result<(), Fail> {
    let gate = ShutFor::new(1);
    let day = run_letters(&rt, rt.alloc(), 3, &gate)?;
    check_first_refused(&rt, day.replies.as_slice(), 3, SubmitFault::GateShut);
    check_eq(&rt, &gate.counts(), &(2u32, 100u32));
    check_eq(&rt, &day.shares.as_slice(), &[1u64, 1].as_slice());
    check_text(&rt, &day.book, 0, "a", 0);
    Ok(())
}
