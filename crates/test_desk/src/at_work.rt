//! A desk at which each seat works in a thread of its own.

use crate::compare::check_eq;
use crate::day::check_text;
use crate::jobs::book;
use sno_book::Entry;
use sno_desk::{Desk, DeskWork, Naming, OpenGate, Seat, Statement, TextName, at_desk};
use sno_pattern::{Names, Rules};
use sno_read::{read_object, read_pattern};
use std::alloc::Global;
use std::process::Abort;
use std::sync::atomic::{AtomicU32, Ordering};
use std::sync::{Arc, Wait};
use std::test::Fail;

const SEATS: u32 = 4;

/// How many statements each seat submits.
const TIMES: usize = 5;

/// Each seat replaces an `a` by a `b`, five times.
#[derive(Drop)]
struct Replaces<'a, R: Abort> {
    rt: &'a R,
    /// How many seats have done so.
    done: AtomicU32,
}

/// The statement with this number, which replaces an `a` of the text T by a `b`.
fn job(rt: &impl Abort, alloc: Global, number: u32) -> Arc<Statement> {
    let names = Names::new(alloc, &[]).expect(rt, "there are no names");
    let pattern = read_pattern(alloc, &names, 0, b"'a'").expect(rt, "it is a pattern");
    let object = read_object(alloc, &names, b"'b'").expect(rt, "it is an object");
    let text = TextName::new(alloc, b"T").expect(rt, "it is a name");
    assert!(rt; names.len() == 0);
    let rules = Rules::admit(alloc, names, Vec::new(alloc)).expect(rt, "there are no definitions");
    assert!(rt; rules.covers(&pattern));
    let rules = Arc::new(alloc, rules).expect(rt, "there is memory");
    let statement = Statement::new(number, rules, pattern, Some(object), text, false);
    Arc::new(alloc, statement).expect(rt, "there is memory")
}

impl<R: Abort> Replaces<'_, R> {
    fn replace<L: Naming, W: Wait>(
        &self,
        rt: &W,
        alloc: Global,
        desk: &Desk<L>,
        seat: &mut Seat<L>,
        number: u32,
    ) {
        let job = job(self.rt, alloc, number);
        for _ in 0..TIMES {
            let job = Arc::try_clone(&job).expect(self.rt, "there is memory");
            let reply = desk.submit(rt, alloc, seat, job, 1_000, &OpenGate);
            let receipt = reply.expect(self.rt, "it is accepted");
            check_eq(self.rt, &receipt.entry.statement.number(), &number);
        }
        check_eq(self.rt, &seat.accepted(), &(TIMES as u64));
    }
}

impl<R: Abort> DeskWork for Replaces<'_, R> {
    ghost takes = { λ _ _ _. Unit {0} };

    fn work<L: Naming, W: Wait>(
        &self,
        rt: &W,
        alloc: Global,
        desk: &Desk<L>,
        seat: &mut Seat<L>,
        number: usize,
    ) {
        let Ok(number) = u32::try_from(number) else {
            return;
        };
        self.replace(rt, alloc, desk, seat, number);
        let _before = self.done.fetch_add(1, Ordering::SeqCst);
    }
}

/// How many of the entries have a statement with this number.
fn count_of(entries: &[Entry], number: u32) -> usize {
    entries
        .iter()
        .filter(|entry| entry.statement.number() == number)
        .count()
}

#[test]
fn each_seat_works_in_a_thread(rt: HostRuntime) -> Result<(), Fail> {
    let alloc = rt.alloc();
    let work = Replaces {
        rt: &rt,
        done: AtomicU32::new(0),
    };
    let book = book(alloc, &[("T", b"aaaaaaaaaaaaaaaaaaaaa")], 1_000_000)?;
    let closed = at_desk(&rt, alloc, book, SEATS as usize, &work).map_err(|(fault, _)| fault)?;
    check_eq(&rt, &work.done.load(Ordering::SeqCst), &SEATS);
    check_eq(&rt, &closed.journal().len(), &20);
    for number in 0..SEATS {
        check_eq(&rt, &count_of(closed.journal(), number), &TIMES);
    }
    check_text(&rt, &closed, 0, "bbbbbbbbbbbbbbbbbbbba", 20);
    Ok(())
}
