//! A day at a desk: it is opened, its seats work through the jobs, and it is closed.
ghost use Rattle.std.specs.Prelude.{◌≡◌, ◌≤◌, [], IfOk};
ghost use Rattle.sno_desk.specs.declared.desk.TheConstants.{MAX_SEATS, MAX_TRIES};

use crate::compare::check_eq;
use crate::jobs::{Row, book, statements};
use sno_book::Book;
use sno_desk::{Blank, Desk, Gate, Naming, Reply, Seat, SubmitFault, close, run_workers};
use sno_statement::Statement;
use std::alloc::{AllocError, Global};
use std::marker::Brand;
use std::process::Abort;
use std::sync::{Arc, Wait};
use std::test::Fail;
use std::thread::Threads;

/// What a day leaves: the book, the replies, and how many each seat had accepted.
#[derive(Drop)]
pub(crate) struct Day {
    pub book: Book,
    pub replies: Vec<Reply>,
    pub shares: Vec<u64>,
}

/// What the seats are to do: these jobs, with this many tries for each, at this gate.
#[derive(Drop)]
pub(crate) struct Orders<'a, G: Gate> {
    pub jobs: &'a [Arc<Statement>],
    pub tries: u32,
    pub gate: &'a G,
}

/// How many each seat has accepted.
fn accepted<L: Naming>(alloc: Global, seats: &[Seat<L>]) -> Result<Vec<u64>, AllocError> {
    let mut shares = Vec::with_capacity(alloc, seats.len())?;
    for seat in seats {
        shares.push(seat.accepted()).map_err(|_| AllocError)?;
    }
    Ok(shares)
}

fn spend<L: Naming + Send + Sync, G: Gate + Sync, R: Threads + Wait + Sync>(
    rt: &R,
    alloc: Global,
    blank: Blank,
    book: Book,
    seats: usize,
    orders: &Orders<'_, G>,
) -> Result<Day, Fail>
    requires name { (blank.ledger.name ≡ L.name) × (blank.ledger.parts ≡ L.parts) }
    requires histories { (blank.history ≡ record { history = L.book; entries = [] }) × (blank.attempts.history ≡ L.tries) }
    requires opening { book.opening ≡ L.opening }
    requires one_each { blank.ledger.parts ≡ seats }
    requires few { (1 ≤ seats) × (seats ≤ MAX_SEATS) }
    requires empty { book.journal ≡ [] }
    requires valid { (1 ≤ orders.now.tries) × (orders.now.tries ≤ MAX_TRIES) }
{
    let (desk, mut seats) = Desk::<L>::new(rt, alloc, blank, book, seats).map_err(|(
        fault,
        _,
    )| fault)?;
    let Orders { jobs, tries, gate } = *orders;
    let replies = run_workers(rt, alloc, &desk, seats.as_mut_slice(), jobs, tries, gate);
    let shares = accepted(alloc, seats.as_slice());
    let book = close(rt, desk, seats).map_err(|(fault, _)| fault)?;
    Ok(Day {
        book,
        replies: replies?,
        shares: shares?,
    })
}

/// A day of this many seats, with a ledger of its own.
pub(crate) fn run_day<G: Gate + Sync, R: Threads + Wait + Sync>(
    rt: &R,
    alloc: Global,
    book: Book,
    seats: usize,
    orders: &Orders<'_, G>,
) -> Result<Day, Fail>
    requires few { (1 ≤ seats) × (seats ≤ MAX_SEATS) }
    requires empty { book.journal ≡ [] }
    requires valid { (1 ≤ orders.now.tries) × (orders.now.tries ≤ MAX_TRIES) }
{
    let blank = Blank::new(seats as u64);
    spend::<Brand, G, R>(rt, alloc, blank, book, seats, orders)
}

/// A day on which workers at two seats do these jobs, as they are written, on these texts.
pub(crate) fn run_rows<G: Gate + Sync, R: Threads + Wait + Abort + Sync>(
    rt: &R,
    alloc: Global,
    texts: &[(&str, &[u8])],
    rows: &[Row],
    tries: u32,
    gate: &G,
) -> Result<Day, Fail>
    requires { (1 ≤ tries) × (tries ≤ MAX_TRIES) }
{
    let jobs = statements(rt, alloc, rows)?;
    let orders = Orders {
        jobs: jobs.as_slice(),
        tries,
        gate,
    };
    run_day(rt, alloc, book(alloc, texts, 1_000_000)?, 2, &orders)
}

/// Why the job was refused; none where it was accepted.
fn fault_of(reply: &Reply) -> Option<SubmitFault> {
    match reply {
        Ok(_) => None,
        Err(fault) => Some(*fault),
    }
}

/// There are this many replies; the first job was refused for this, and the others were accepted.
pub(crate) fn check_first_refused(
    rt: &impl Abort,
    replies: &[Reply],
    count: usize,
    fault: SubmitFault,
) {
    check_eq(rt, &replies.len(), &count);
    let (first, others) = replies.split_first().expect(rt, "there is a reply");
    check_eq(rt, &fault_of(first), &Some(fault));
    for reply in others {
        assert!(rt; reply.is_ok());
    }
}

/// Compares the text at a place of the book, and its version.
pub(crate) fn check_text(rt: &impl Abort, book: &Book, place: usize, text: &str, version: u64) {
    let (_, characters, at) = book.text(place).expect(rt, "there is a text");
    check_eq(rt, &characters.bytes(), &text.as_bytes());
    check_eq(rt, &at, &version);
}

/// Compares the journal's entry at an index by its statement's number and its version.
pub(crate) fn check_entry(rt: &impl Abort, book: &Book, index: usize, number: u32, version: u64) {
    let entry = book.journal().get(index).expect(rt, "there is an entry");
    check_eq(rt, &entry.statement.number(), &number);
    check_eq(rt, &entry.version, &version);
}
