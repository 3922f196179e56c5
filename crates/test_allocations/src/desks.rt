//! A desk that is opened, and one seat of it that commits and submits.
ghost use Rattle.std.specs.Prelude.{◌≡◌, [], IfErr};

use crate::call_ends::{CallEnd, check_bytes, check_eq, tell, tell_ready};
use crate::jobs::{book, check_book, statement};
use sno_book::{Book, Proposal, Receipt};
use sno_desk::{Blank, CommitFault, Desk, DeskFault, Naming, OpenGate, Seat, SubmitFault, close};
use sno_statement::Statement;
use std::alloc::Global;
use std::marker::Brand;
use std::process::Abort;
use std::sync::{Arc, Wait};
use std::test::Fail;

/// A desk over the book, closed again; where memory is refused the book comes back.
fn open_and_close<L: Naming, R: Wait + Abort>(
    rt: &R,
    alloc: Global,
    blank: Blank,
    book: Book,
) -> Result<(), Book>
    requires name { (blank.ledger.name ≡ L.name) × (blank.ledger.parts ≡ L.parts) }
    requires histories { (blank.history ≡ record { history = L.book; entries = [] }) × (blank.attempts.history ≡ L.tries) }
    requires opening { book.opening ≡ L.opening }
    requires two { blank.ledger.parts ≡ 2 }
    requires empty { book.journal ≡ [] }
    ensures { IfErr result (λ b. b ≡ book) }
{
    match Desk::<L>::new(rt, alloc, blank, book, 2) {
        Ok((desk, seats)) => {
            check_eq(rt, &seats.len(), &2);
            let closed = close(rt, desk, seats);
            let book = closed.ok().expect(rt, "it is closed");
            check_book(rt, &book, b"x".as_slice(), 0, 0);
            Ok(())
        }
        Err((fault, book)) => {
            check_eq(rt, &fault, &DeskFault::Memory);
            check_book(rt, &book, b"x".as_slice(), 0, 0);
            Err(book)
        }
    }
}

fn open<R: Wait + Abort>(rt: &R, alloc: Global, book: Book) -> Result<(), Book>
    requires { book.journal ≡ [] }
    ensures { IfErr result (λ b. b ≡ book) }
{
    open_and_close::<Brand, R>(rt, alloc, Blank::new(2), book)
}

#[test]
fn a_desk(rt: HostRuntime) -> Result<(), Fail> {
    let alloc = rt.alloc();
    let book = book(alloc, &[("T", "x")])?;
    tell_ready(&rt)?;
    let Err(book) = open(&rt, alloc, book) else {
        return tell(&rt, CallEnd::Given);
    };
    tell(&rt, CallEnd::Refused)?;
    tell(
        &rt,
        match open(&rt, alloc, book) {
            Ok(()) => CallEnd::Given,
            Err(_) => CallEnd::Refused,
        },
    )
}

/// What is done at a seat of a desk.
trait Turn {
    /// What the call came to. All that it needs is made before `tell_ready`.
    fn take<L: Naming, R: Wait + Abort + Print>(
        &self,
        rt: &R,
        alloc: Global,
        desk: &Desk<L>,
        seat: &mut Seat<L>,
    ) -> Result<CallEnd, Fail>;
}

/// That the seat has accepted this many, and sees its text so.
fn check_seat<L: Naming>(
    rt: &impl Abort,
    seat: &mut Seat<L>,
    job: &Statement,
    accepted: u64,
    text: &[u8],
) {
    check_eq(rt, &seat.accepted(), &accepted);
    let snapshot = seat.snapshot(job.text()).ok().expect(rt, "it is shown");
    check_eq(rt, &snapshot.version, &accepted);
    check_bytes(rt, snapshot.text.bytes(), text);
}

/// What there is after the call, as it came out.
fn check_end<L: Naming>(
    rt: &impl Abort,
    seat: &mut Seat<L>,
    job: &Statement,
    end: CallEnd,
) -> CallEnd {
    match end {
        CallEnd::Given => check_seat(rt, seat, job, 1, b"z".as_slice()),
        CallEnd::Refused => check_seat(rt, seat, job, 0, b"x".as_slice()),
    }
    end
}

/// What a commit came to.
fn end_of(rt: &impl Abort, committed: &Result<Receipt, (CommitFault, Proposal)>) -> CallEnd {
    match committed {
        Ok(receipt) => {
            check_eq(rt, &receipt.index, &0);
            CallEnd::Given
        }
        Err((fault, back)) => {
            check_eq(rt, fault, &CommitFault::Memory);
            check_eq(rt, &back.version(), &0);
            CallEnd::Refused
        }
    }
}

/// The statement is proposed, and its proposal committed. If memory is refused, this is done once more: the desk goes
/// on, so a second commit is accepted if there is memory again.
#[derive(Drop)]
struct Commits(Arc<Statement>);

impl Turn for Commits {
    fn take<L: Naming, R: Wait + Abort + Print>(
        &self,
        rt: &R,
        alloc: Global,
        desk: &Desk<L>,
        seat: &mut Seat<L>,
    ) -> Result<CallEnd, Fail> {
        let proposal = seat.propose(alloc, &self.0)?;
        tell_ready(rt)?;
        let end = end_of(rt, &desk.commit(rt, seat, proposal));
        let end = check_end(rt, seat, &self.0, end);
        if end == CallEnd::Given {
            return Ok(end);
        }
        tell(rt, end)?;
        let Ok(proposal) = seat.propose(alloc, &self.0) else {
            return Ok(CallEnd::Refused);
        };
        let again = end_of(rt, &desk.commit(rt, seat, proposal));
        Ok(check_end(rt, seat, &self.0, again))
    }
}

/// The statement is submitted.
#[derive(Drop)]
struct Submits(Arc<Statement>);

impl Turn for Submits {
    fn take<L: Naming, R: Wait + Abort + Print>(
        &self,
        rt: &R,
        alloc: Global,
        desk: &Desk<L>,
        seat: &mut Seat<L>,
    ) -> Result<CallEnd, Fail> {
        let shared = Arc::try_clone(&self.0)?;
        tell_ready(rt)?;
        let end = match desk.submit(rt, alloc, seat, shared, 100, &OpenGate) {
            Ok(receipt) => {
                check_eq(rt, &receipt.index, &0);
                CallEnd::Given
            }
            Err(fault) => {
                check_eq(rt, &fault, &SubmitFault::Memory);
                CallEnd::Refused
            }
        };
        Ok(check_end(rt, seat, &self.0, end))
    }
}

fn at_seat<L: Naming, T: Turn, R: Wait + Abort + Print>(
    rt: &R,
    alloc: Global,
    blank: Blank,
    book: Book,
    turn: &T,
) -> Result<(CallEnd, Book), Fail>
    requires name { (blank.ledger.name ≡ L.name) × (blank.ledger.parts ≡ L.parts) }
    requires histories { (blank.history ≡ record { history = L.book; entries = [] }) × (blank.attempts.history ≡ L.tries) }
    requires opening { book.opening ≡ L.opening }
    requires one { blank.ledger.parts ≡ 1 }
    requires empty { book.journal ≡ [] }
{
    let (desk, mut seats) = Desk::<L>::new(rt, alloc, blank, book, 1).map_err(|(fault, _)| fault)?;
    let (first, _) = seats.as_mut_slice().split_at_mut(1);
    let taken = turn.take(rt, alloc, &desk, &mut first[0]);
    let closed = close(rt, desk, seats).map_err(|(fault, _)| fault);
    Ok((taken?, closed?))
}

fn at_own_desk<T: Turn, R: Wait + Abort + Print>(
    rt: &R,
    alloc: Global,
    book: Book,
    turn: &T,
) -> Result<(CallEnd, Book), Fail>
    requires { book.journal ≡ [] }
{
    at_seat::<Brand, T, R>(rt, alloc, Blank::new(1), book, turn)
}

/// The turn at a seat. The closed journal has the entry if the call returned what it has to, and none if it was out of memory.
fn check_turn<T: Turn, R: Wait + Abort + Print>(
    rt: &R,
    alloc: Global,
    turn: &T,
) -> Result<(), Fail> {
    let book = book(alloc, &[("T", "x")])?;
    let (end, book) = at_own_desk(rt, alloc, book, turn)?;
    match end {
        CallEnd::Given => check_book(rt, &book, b"z".as_slice(), 1, 1),
        CallEnd::Refused => check_book(rt, &book, b"x".as_slice(), 0, 0),
    }
    tell(rt, end)
}

#[test]
fn a_proposal_is_committed_at_a_desk(rt: HostRuntime) -> Result<(), Fail> {
    let job = statement(&rt, rt.alloc(), "T", "'x'", "'z'")?;
    check_turn(&rt, rt.alloc(), &Commits(job))
}

#[test]
fn a_statement_is_submitted(rt: HostRuntime) -> Result<(), Fail> {
    let job = statement(&rt, rt.alloc(), "T", "'x'", "'z'")?;
    check_turn(&rt, rt.alloc(), &Submits(job))
}
