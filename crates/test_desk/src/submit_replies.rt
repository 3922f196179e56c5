//! The replies to a submit, through one seat.
ghost use Rattle.std.specs.Prelude.{◌≡◌, [], IfOk};

use crate::compare::check_eq;
use crate::day::{Day, Orders, check_entry, check_text, run_day};
use crate::gates::ShutFor;
use crate::jobs::{Row, book, statements};
use sno_book::Book;
use sno_desk::Reply;
use std::alloc::Global;
use std::process::Abort;
use std::sync::Wait;
use std::test::Fail;
use std::thread::Threads;

static JOBS: [Row; 6] = [
    (1, "T", "'x'", Some("'yz'")),
    (2, "U", "'x'", Some("'y'")),
    (3, "L", "'a'", Some("'aa'")),
    (4, "T", "'a'", Some("'b'")),
    (5, "T", "'q'", Some("'b'")),
    (6, "T", "'a'", Some("'b'")),
];

/// The reply to each: the index of its entry, or why it is refused. The journal has room for two entries, the gate is shut for statement 4, and the
/// text L is as long as a text may be.
static LINES: [&str; 6] = ["0", "no text", "text too long", "gate shut", "1", "full"];

fn open(alloc: Global) -> Result<Book, Fail>
    ensures { IfOk result (λ b. b.journal ≡ []) }
{
    let long = vec![in alloc; b'a'; 65_536]?;
    book(alloc, &[("T", b"axb"), ("L", long.as_slice())], 2)
}

fn submit<R: Threads + Wait + Abort + Sync>(
    rt: &R,
    alloc: Global,
    gate: &ShutFor,
) -> Result<Day, Fail> {
    let jobs = statements(rt, alloc, JOBS.as_slice())?;
    let orders = Orders {
        jobs: jobs.as_slice(),
        tries: 3,
        gate,
    };
    run_day(rt, alloc, open(alloc)?, 1, &orders)
}

/// The index of the receipt's entry, or the line of the refusal.
pub(crate) fn line_of(alloc: Global, reply: &Reply) -> Result<String, Fail> {
    match reply {
        Ok(receipt) => Ok(receipt.index.to_string(alloc)?),
        Err(fault) => Ok(fault.to_string(alloc)?),
    }
}

fn check_reply(rt: &impl Abort, alloc: Global, reply: &Reply, line: &str) -> Result<(), Fail> {
    check_eq(rt, &line_of(alloc, reply)?.as_str(), &line);
    Ok(())
}

fn check_replies(
    rt: &impl Abort,
    alloc: Global,
    replies: &[Reply],
    lines: &[&'static str],
) -> Result<(), Fail> {
    check_eq(rt, &replies.len(), &lines.len());
    for (reply, line) in replies.iter().zip(lines.iter()) {
        check_reply(rt, alloc, reply, line)?;
    }
    Ok(())
}

fn check_book(rt: &impl Abort, book: &Book) {
    check_eq(rt, &book.journal().len(), &2);
    check_entry(rt, book, 0, 1, 0);
    check_entry(rt, book, 1, 5, 1);
    check_text(rt, book, 0, "ayzb", 1);
}

#[test]
fn each_reply_to_a_submit(rt: HostRuntime) -> Result<(), Fail> {
    let gate = ShutFor::new(4);
    let day = submit(&rt, rt.alloc(), &gate)?;
    check_eq(&rt, &gate.counts(), &(2u32, 103u32));
    check_eq(&rt, &day.shares.as_slice(), &[2u64].as_slice());
    check_book(&rt, &day.book);
    check_replies(&rt, rt.alloc(), day.replies.as_slice(), LINES.as_slice())
}
