//! A day at the desk: a book, its desk with four seats, their threads, and the close.
ghost use Rattle.std.specs.Prelude.{◌≡◌, ◌≤◌, [], IfOk};

use crate::faults::Fault;
use crate::seats::{read, submit, write};
use crate::statements::Edits;
use sno_desk::{Book, Desk, DeskWork, Naming, Seat, Statement, Text, TextName, at_desk, may_cross};
use std::alloc::Global;
use std::sync::Wait;
use std::sync::atomic::{AtomicUsize, Ordering};
use std::thread::Threads;
use std::time::Clock;

/// How many entries the journal has room for.
const ROOM: u32 = 1_000;

/// The text PAGE, with its name.
fn page(alloc: Global) -> Result<(TextName, Text), Fault> {
    let text = Text::new(Vec::from_slice(alloc, b"lines".as_slice())?)?;
    Ok((TextName::new(alloc, b"PAGE".as_slice())?, text))
}

/// A book of that text, without entries.
fn book(alloc: Global) -> Result<Book, Fault>
    ensures { IfOk result (λ book. book.journal ≡ []) }
{
    let mut texts = Vec::new(alloc);
    texts.push(page(alloc)?)?;
    let book = Book::new(alloc, texts, ROOM)?;
    Ok(book)
}

/// What all seats share.
#[derive(Drop)]
struct Day<'a, C: Clock> {
    clock: &'a C,
    edits: &'a Edits,
    /// How many seats were refused something.
    refused: AtomicUsize,
}

impl<C: Clock> DeskWork for Day<'_, C> {
    ghost takes = { λ _ _ _. Unit {0} };

    fn work<L: Naming, R: Wait>(
        &self,
        rt: &R,
        alloc: Global,
        desk: &Desk<L>,
        seat: &mut Seat<L>,
        number: usize,
    ) {
        let done = match number {
            0 | 1 => write(rt, alloc, desk, seat, self.edits),
            2 => submit(rt, self.clock, alloc, desk, seat, self.edits),
            _ => read(seat, self.edits),
        };
        if done.is_err() {
            self.refused.fetch_add(1, Ordering::SeqCst);
        }
    }
}

/// Spends a day at a new desk, and returns the book that it leaves.
pub(crate) fn run_day<R: Threads + Wait + Clock + Sync>(
    rt: &R,
    alloc: Global,
    edits: &Edits,
) -> Result<Book, Fault> {
    // for the proof
    may_cross::<Statement>();
    let day = Day {
        clock: rt,
        edits,
        refused: AtomicUsize::new(0),
    };
    let book = at_desk(rt, alloc, book(alloc)?, 4, &day).map_err(|(fault, _)| fault)?;
    match day.refused.load(Ordering::SeqCst) {
        0 => Ok(book),
        refused => Err(Fault::Seats(refused)),
    }
}
