//! A desk at whose seats a test works itself: it is opened, the test does its work, and it is closed.
ghost use Rattle.std.specs.Prelude.{◌≡◌, ◌≤◌, []};
ghost use Rattle.sno_desk.specs.declared.desk.TheConstants.{MAX_SEATS};

use sno_book::Book;
use sno_desk::{Blank, Desk, Naming, Seat, close};
use std::alloc::Global;
use std::marker::Brand;
use std::process::Abort;
use std::sync::Wait;
use std::test::Fail;

/// What is done at a desk through its seats.
pub(crate) trait Work {
    fn work<L: Naming, R: Wait + Abort>(
        &self,
        rt: &R,
        alloc: Global,
        desk: &Desk<L>,
        seats: &mut [Seat<L>],
    ) -> Result<(), Fail>;
}

fn spend<L: Naming, W: Work, R: Wait + Abort>(
    rt: &R,
    alloc: Global,
    blank: Blank,
    book: Book,
    seats: usize,
    work: &W,
) -> Result<Book, Fail>
    requires name { (blank.ledger.name ≡ L.name) × (blank.ledger.parts ≡ L.parts) }
    requires histories { (blank.history ≡ record { history = L.book; entries = [] }) × (blank.attempts.history ≡ L.tries) }
    requires opening { book.opening ≡ L.opening }
    requires one_each { blank.ledger.parts ≡ seats }
    requires few { (1 ≤ seats) × (seats ≤ MAX_SEATS) }
    requires empty { book.journal ≡ [] }
{
    let (desk, mut seats) = Desk::<L>::new(rt, alloc, blank, book, seats).map_err(|(
        fault,
        _,
    )| fault)?;
    let worked = work.work(rt, alloc, &desk, seats.as_mut_slice());
    let closed = close(rt, desk, seats).map_err(|(fault, _)| fault);
    worked?;
    Ok(closed?)
}

/// The work done at a desk of this many seats over this book, with a ledger of its own. The book, as it is closed.
pub(crate) fn at_desk<W: Work, R: Wait + Abort>(
    rt: &R,
    alloc: Global,
    book: Book,
    seats: usize,
    work: &W,
) -> Result<Book, Fail>
    requires few { (1 ≤ seats) × (seats ≤ MAX_SEATS) }
    requires empty { book.journal ≡ [] }
{
    spend::<Brand, W, R>(rt, alloc, Blank::new(seats as u64), book, seats, work)
}
