//! A desk for a caller's own threads: it is opened over a book, each seat does its part, and it is closed.
ghost use Rattle.std.specs.Prelude.{◌≡◌, ◌<◌, ◌≤◌, ℕ, [], IfOk, IfErr, length, slice_index_or};
ghost use Rattle.std.specs.Arc.{arc_value};
ghost use Rattle.sno_book.specs.Books.{view_of};
ghost use Rattle.sno_book.specs.Views.{IsValid};
ghost use Rattle.sno_desk.specs.Turns.{Position, position};
ghost use Rattle.sno_desk.specs.Worked.{HasWorkedAt, IsBackWith};
ghost use Rattle.sno_desk.specs.declared.desk.TheConstants.{MAX_SEATS};

use crate::workers::may_cross;
use crate::{AtDeskFault, Blank, Desk, Seat, close};
use sno_book::{Book, Entry, Receipt};
use sno_published::Naming;
use std::alloc::Global;
use std::marker::Brand;
use std::sync::Wait;
use std::thread;
use std::thread::Threads;

/// What a caller does at a desk: one call for each seat, in a thread of its own. The result is kept by the type
/// itself, such as in a `Mutex` or an atomic count.
pub trait DeskWork {
    /// From which position to which a call may take its seat.
    ghost takes: { Self → Position → Position → Type 0 };

    /// Works at the seat with this number, from 0.
    fn work<L: Naming, R: Wait>(
        &self,
        rt: &R,
        alloc: Global,
        desk: &Desk<L>,
        seat: &mut Seat<L>,
        number: usize,
    )
        ensures { takes self.now (position seat.old.accepted seat.old.seen) (position seat.new.accepted seat.new.seen) };
}

/// Lets all seats work, each in a thread of its own.
fn work_each<L: Naming + Send + Sync, W: DeskWork + Sync, R: Threads + Wait + Sync>(
    rt: &R,
    alloc: Global,
    desk: &Desk<L>,
    seats: &mut [Seat<L>],
    work: &W,
)
    requires { 1 ≤ length seats.old }
    ensures { (k : ℕ) (d : Seat L) → k < length seats.old → W.takes work.now
        (position (slice_index_or seats.old k d).accepted (slice_index_or seats.old k d).seen) (position (slice_index_or seats.new k d).accepted (slice_index_or seats.new k d).seen) }
{
    may_cross::<Entry>();
    may_cross::<Book>();
    may_cross::<Receipt>();
    let count = seats.len();
    let worker = |number: usize, seat: &mut Seat<L>|
        ensures { W.takes work.entry.now (position seat.old.accepted seat.old.seen) (position seat.new.accepted seat.new.seen) }
    {
        work.work(rt, alloc, desk, seat, number);
    };
    thread::for_each_mut(rt, seats, count, &worker);
}

/// Opens a desk with this blank, lets all seats work, and closes it.
fn at_named_desk<L: Naming + Send + Sync, W: DeskWork + Sync, R: Threads + Wait + Sync>(
    rt: &R,
    alloc: Global,
    blank: Blank,
    book: Book,
    seats: usize,
    work: &W,
) -> Result<Book, (AtDeskFault, Book)>
    requires name { (blank.ledger.name ≡ L.name) × (blank.ledger.parts ≡ L.parts) }
    requires histories { (blank.history ≡ record { history = L.book; entries = [] }) × (blank.attempts.history ≡ L.tries) }
    requires opening { book.opening ≡ L.opening }
    requires one_each { blank.ledger.parts ≡ seats }
    requires few { (1 ≤ seats) × (seats ≤ MAX_SEATS) }
    requires empty { book.journal ≡ [] }
    ensures opening { IfOk result (λ left. left.opening ≡ book.opening) }
    ensures valid { IfOk result (λ left. IsValid (view_of left)) }
    ensures worked { IfOk result (λ left. HasWorkedAt (W.takes work.now) seats left.journal) }
    ensures back { IfErr result (λ r. IsBackWith r.0 r.1 book) }
{
    let (desk, mut seats) = match Desk::<L>::new(rt, alloc, blank, book, seats) {
        Ok(made) => made,
        Err((fault, book)) => return Err((AtDeskFault::Desk(fault), book)),
    };
    work_each(rt, alloc, &desk, seats.as_mut_slice(), work);
    match close(rt, desk, seats) {
        Ok(book) => Ok(book),
        Err((fault, book)) => Err((AtDeskFault::Close(fault), book)),
    }
}

/// Opens a desk over the book, lets each of its seats work in a thread of its own, closes the desk and returns the
/// book. The threads run one after the other if no thread can be made. The call waits for all of them.
///
/// Requires from 1 to 16 seats, and a book without entries.
///
/// On `Ok` the book has the opening that it had, and its journal is legal. Each call of `work` took its seat from
/// nothing accepted and nothing seen to a position that it may leave. The journal begins with what each seat has seen,
/// and has as many entries as all seats have accepted.
///
/// Refused:
///
/// - `Desk`, as by [`Desk::new`]: nobody has worked, and the book comes back as it was;
/// - `Close`, as by [`close`], which no legal run meets: the book comes back as the seats left it, and its journal is
///   legal.
pub fn at_desk<W: DeskWork + Sync, R: Threads + Wait + Sync>(
    rt: &R,
    alloc: Global,
    book: Book,
    seats: usize,
    work: &W,
) -> Result<Book, (AtDeskFault, Book)>
    requires few { (1 ≤ seats) × (seats ≤ MAX_SEATS) }
    requires empty { book.journal ≡ [] }
    ensures opening { IfOk result (λ left. left.opening ≡ book.opening) }
    ensures valid { IfOk result (λ left. IsValid (view_of left)) }
    ensures worked { IfOk result (λ left. HasWorkedAt (W.takes work.now) seats left.journal) }
    ensures back { IfErr result (λ r. IsBackWith r.0 r.1 book) }
{
    let blank = Blank::new(seats as u64);
    at_named_desk::<Brand, W, R>(rt, alloc, blank, book, seats, work)
}
