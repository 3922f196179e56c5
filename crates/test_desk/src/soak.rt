//! Many seats over few texts. A text is replaced fewer times than a statement has tries, so all are accepted; no two receipts are of one entry.
ghost use Rattle.std.specs.Prelude.{◌≡◌, [], IfOk};

use crate::compare::check_eq;
use crate::day::{Day, Orders, run_day};
use crate::jobs::{book, statement};
use sno_book::{Book, Receipt};
use sno_desk::{OpenGate, Reply};
use sno_statement::Statement;
use std::alloc::Global;
use std::process::Abort;
use std::slice;
use std::sync::{Arc, Wait};
use std::test::Fail;
use std::thread::Threads;

static TEXTS: [&str; 4] = ["A", "B", "C", "D"];

const ROUNDS: u32 = 1_000;

/// Round after round, each text with its first character put between brackets.
fn jobs(rt: &impl Abort, alloc: Global) -> Result<Vec<Arc<Statement>>, Fail> {
    let mut jobs = Vec::new(alloc);
    let mut number = 0u32;
    for _round in 0..ROUNDS {
        for text in TEXTS {
            number = number.wrapping_add(1);
            let job = statement(rt, alloc, number, text, "LEN(1) . L", "'<' L '>'")?;
            jobs.push(job)?;
        }
    }
    Ok(jobs)
}

/// The four texts, a letter each.
fn letters(alloc: Global) -> Result<Book, Fail>
    ensures { IfOk result (λ b. b.journal ≡ []) }
{
    let texts: [(&str, &[u8]); 4] = [("A", b"a"), ("B", b"b"), ("C", b"c"), ("D", b"d")];
    let book = book(alloc, &texts, 1_000_000)?;
    Ok(book)
}

/// The receipt's entry is, by value, the journal's at its index, which no receipt was of before.
fn mark(rt: &impl Abort, book: &Book, receipt: &Receipt, marks: &mut [bool]) {
    assert!(rt;
        book.audit(slice::from_ref(receipt)).is_ok(),
        "another entry"
    );
    let mark = marks.get_mut(receipt.index).expect(rt, "there is a mark");
    assert!(rt; !*mark, "one entry for two receipts");
    *mark = true;
}

/// The reply is a receipt for the job, and its entry its own.
fn check_reply(rt: &impl Abort, book: &Book, job: &Statement, reply: &Reply, marks: &mut [bool]) {
    match reply {
        Ok(receipt) => {
            check_eq(rt, &receipt.entry.statement.number(), &job.number());
            mark(rt, book, receipt, marks);
        }
        Err(fault) => assert!(rt; false, "{fault}"),
    }
}

/// Each job has a receipt, each entry is of one of them.
fn check_replies(
    rt: &impl Abort,
    alloc: Global,
    day: &Day,
    jobs: &[Arc<Statement>],
) -> Result<(), Fail> {
    check_eq(rt, &day.replies.len(), &jobs.len());
    check_eq(rt, &day.book.journal().len(), &jobs.len());
    let mut marks = vec![in alloc; false; jobs.len()]?;
    for (job, reply) in jobs.iter().zip(day.replies.iter()) {
        check_reply(rt, &day.book, job, reply, marks.as_mut_slice());
    }
    Ok(())
}

/// The jobs done by sixteen seats.
fn work<R: Threads + Wait + Abort + Sync>(
    rt: &R,
    alloc: Global,
    jobs: &[Arc<Statement>],
) -> Result<Day, Fail> {
    let orders = Orders {
        jobs,
        tries: 1_000,
        gate: &OpenGate,
    };
    run_day(rt, alloc, letters(alloc)?, 16, &orders)
}

/// Each text is as long as its rounds make it.
fn check_texts(rt: &impl Abort, book: &Book) {
    for place in 0..4 {
        let (_, text, version) = book.text(place).expect(rt, "there is a text");
        check_eq(rt, &text.bytes().len(), &2_001);
        check_eq(rt, &version, &1_000);
    }
}

#[test]
fn many_seats_over_few_texts(rt: HostRuntime) -> Result<(), Fail> {
    let alloc = rt.alloc();
    let jobs = jobs(&rt, alloc)?;
    let day = work(&rt, alloc, jobs.as_slice())?;
    check_eq(&rt, &day.shares.as_slice(), &[250u64; 16].as_slice());
    check_texts(&rt, &day.book);
    check_replies(&rt, alloc, &day, jobs.as_slice())
}
