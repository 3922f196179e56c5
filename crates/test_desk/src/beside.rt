//! A seat that goes on reading in one thread while a submit on the same text waits at its gate in another.
ghost use Rattle.std.specs.Prelude.{◌≡◌, []};
ghost use Rattle.std.specs.Thread.{IsSend};
ghost use Rattle.sno_book.specs.contracts.entries.Entry as EntryType;

use crate::compare::check_eq;
use crate::day::{check_entry, check_text};
use crate::flags::{Flag, TURNS};
use crate::jobs::{book, statement};
use sno_book::{Book, Entry};
use sno_desk::{Blank, Desk, Gate, Naming, Seat, TextName, close, may_cross};
use sno_statement::Statement;
use std::alloc::Global;
use std::marker::Brand;
use std::process::Abort;
use std::sync::{Arc, Wait};
use std::test::Fail;
use std::thread;
use std::thread::Threads;
use std::time::{Clock, Duration};

/// How often the reader looks in a turn.
const LOOKS: usize = 100;

/// Holds the submit until the reader has read, and lets the reader know that it came and that it has its reply.
#[derive(Drop)]
struct Held<'a, C: Clock> {
    clock: &'a C,
    came: Flag,
    read: Flag,
    done: Flag,
}

impl<C: Clock> Gate for Held<'_, C> {
    ghost shuts = { λ _ _ _. Unit {0} };

    fn pass<R: Wait>(&self, _rt: &R, _number: u32, _attempt: u32) -> bool {
        self.came.raise();
        self.read.wait(self.clock)
    }

    fn done<R: Wait>(&self, _rt: &R, _number: u32, _accepted: bool) {
        self.done.raise();
    }
}

/// Reads for a turn. The last version, or none where there was no snapshot, or one whose version was lower than that before.
fn look<L: Naming>(seat: &mut Seat<L>, name: &TextName, first: u64) -> Option<u64> {
    let mut last = first;
    for _ in 0..LOOKS {
        match seat.snapshot(name) {
            Ok(snapshot) if snapshot.version >= last => last = snapshot.version,
            _ => return None,
        }
    }
    Some(last)
}

/// Reads until the submit has its reply, and then for a last turn.
fn look_on<L: Naming, C: Clock>(
    seat: &mut Seat<L>,
    name: &TextName,
    gate: &Held<'_, C>,
    first: u64,
) -> Option<u64> {
    let mut last = first;
    for _ in 0..TURNS {
        let done = gate.done.is_up();
        last = look(seat, name, last)?;
        if done {
            return Some(last);
        }
        thread::sleep(gate.clock, Duration::from_millis(10));
    }
    None
}

/// Who reads a text beside a submit.
trait Reads {
    /// Reads while the gate holds the submit, and goes on until after its reply. The last version of each part; none where a version went down.
    fn read<C: Clock>(&mut self, name: &TextName, gate: &Held<'_, C>) -> Option<(u64, u64)>;
}

impl<L: Naming> Reads for Seat<L> {
    fn read<C: Clock>(&mut self, name: &TextName, gate: &Held<'_, C>) -> Option<(u64, u64)> {
        if !gate.came.wait(gate.clock) {
            return None;
        }
        let held = look(self, name, 0);
        gate.read.raise();
        let last = look_on(self, name, gate, held?)?;
        Some((held?, last))
    }
}

/// A job, with the name of its text.
#[derive(Drop)]
struct Named<'a> {
    job: Arc<Statement>,
    name: &'a TextName,
}

/// The job submitted in this thread while the reader reads its text in another: the versions that the reader saw, and whether the job was accepted.
fn submit_beside<L: Naming, S: Reads + Send, R: Threads + Wait + Clock + Sync>(
    rt: &R,
    alloc: Global,
    desk: &Desk<L>,
    writer: &mut Seat<L>,
    reader: &mut S,
    named: Named<'_>,
) -> (Option<(u64, u64)>, bool) {
    let Named { job, name } = named;
    let gate = Held {
        clock: rt,
        came: Flag::new(),
        read: Flag::new(),
        done: Flag::new(),
    };
    thread::join(
        rt,
        || reader.read(name, &gate),
        || desk.submit(rt, alloc, writer, job, 1, &gate).is_ok(),
    )
}

/// That an entry may go to another thread. It is found out where little else is known.
fn entries_may_cross()
    ensures sends { IsSend EntryType.the_row }
{
    may_cross::<Entry>();
}

/// The first seat submits the job while the second reads its text.
fn use_seats<L: Naming + Send + Sync, R: Threads + Wait + Clock + Abort + Sync>(
    rt: &R,
    alloc: Global,
    desk: &Desk<L>,
    seats: &mut [Seat<L>],
    job: Arc<Statement>,
    name: &TextName,
) {
    entries_may_cross();
    assert!(rt; seats.len() == 2);
    let (first, second) = seats.split_at_mut(1);
    let named = Named { job, name };
    let seen = submit_beside(rt, alloc, desk, &mut first[0], &mut second[0], named);
    check_eq(rt, &seen, &(Some((0, 1)), true));
    check_eq(rt, &(second[0].accepted(), second[0].seen()), &(0, 1));
}

/// One seat submits the job while the other reads its text. The book, as it is closed.
fn read_beside<L: Naming + Send + Sync, R: Threads + Wait + Clock + Abort + Sync>(
    rt: &R,
    alloc: Global,
    blank: Blank,
    book: Book,
    job: Arc<Statement>,
    name: &TextName,
) -> Result<Book, Fail>
    requires name { (blank.ledger.name ≡ L.name) × (blank.ledger.parts ≡ L.parts) }
    requires histories { (blank.history ≡ record { history = L.book; entries = [] }) × (blank.attempts.history ≡ L.tries) }
    requires opening { book.opening ≡ L.opening }
    requires two { blank.ledger.parts ≡ 2 }
    requires empty { book.journal ≡ [] }
{
    let (desk, mut seats) = Desk::<L>::new(rt, alloc, blank, book, 2).map_err(|(fault, _)| fault)?;
    use_seats(rt, alloc, &desk, seats.as_mut_slice(), job, name);
    Ok(close(rt, desk, seats).map_err(|(fault, _)| fault)?)
}

/// The same at a desk of its own.
fn share<R: Threads + Wait + Clock + Abort + Sync>(
    rt: &R,
    alloc: Global,
    book: Book,
    job: Arc<Statement>,
    name: &TextName,
) -> Result<Book, Fail>
    requires { book.journal ≡ [] }
{
    read_beside::<Brand, R>(rt, alloc, Blank::new(2), book, job, name)
}

/// A statement on a text of one letter.
fn replace<R: Threads + Wait + Clock + Abort + Sync>(rt: &R, alloc: Global) -> Result<Book, Fail> {
    let job = statement(rt, alloc, 1, "T", "'x'", "'z'")?;
    let name = TextName::new(alloc, b"T".as_slice())?;
    share(
        rt,
        alloc,
        book(alloc, &[("T", b"x")], 1_000_000)?,
        job,
        &name,
    )
}

#[test]
fn a_reader_goes_on_while_a_submit_is_held(rt: HostRuntime) -> Result<(), Fail> {
    let book = replace(&rt, rt.alloc())?;
    check_eq(&rt, &book.journal().len(), &1);
    check_entry(&rt, &book, 0, 1, 0);
    check_text(&rt, &book, 0, "z", 1);
    Ok(())
}
