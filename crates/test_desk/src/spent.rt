//! A statement that is overtaken at each of its two tries, by workers in threads.
use crate::compare::check_eq;
use crate::day::{Day, check_entry, check_first_refused, check_text, run_rows};
use crate::flags::Flag;
use crate::jobs::Row;
use sno_book::Book;
use sno_desk::{Gate, SubmitFault};
use std::alloc::Global;
use std::process::Abort;
use std::sync::Wait;
use std::test::Fail;
use std::thread::Threads;
use std::time::Clock;

/// Holds statement 1 at its first attempt until statement 2 is accepted, and at its second until statement 4 is; and these two until statement 1
/// has come to that attempt.
#[derive(Drop)]
struct TwoOvertake<'a, C: Clock> {
    clock: &'a C,
    first_attempt: Flag,
    second_attempt: Flag,
    second_done: Flag,
    fourth_done: Flag,
}

impl<C: Clock> Gate for TwoOvertake<'_, C> {
    ghost shuts = { λ _ _ attempt. Unit {0} };

    fn pass<R: Wait>(&self, _rt: &R, number: u32, attempt: u32) -> bool {
        match (number, attempt) {
            (1, 1) => {
                self.first_attempt.raise();
                self.second_done.wait(self.clock)
            }
            (1, 2) => {
                self.second_attempt.raise();
                self.fourth_done.wait(self.clock)
            }
            (2, 1) => self.first_attempt.wait(self.clock),
            (4, 1) => self.second_attempt.wait(self.clock),
            _ => true,
        }
    }

    fn done<R: Wait>(&self, _rt: &R, number: u32, _accepted: bool) {
        match number {
            2 => self.second_done.raise(),
            4 => self.fourth_done.raise(),
            _ => {}
        }
    }
}

/// Four statements of two seats: the first and the third go to the first seat, the others to the second.
static JOBS: [Row; 4] = [
    (1, "T", "LEN(1)", Some("'w'")),
    (2, "T", "'x'", Some("'y'")),
    (3, "U", "'u'", None),
    (4, "T", "'y'", Some("'x'")),
];

/// The jobs with two tries each.
fn overtake<R: Threads + Wait + Clock + Abort + Sync>(rt: &R, alloc: Global) -> Result<Day, Fail> {
    let gate = TwoOvertake {
        clock: rt,
        first_attempt: Flag::new(),
        second_attempt: Flag::new(),
        second_done: Flag::new(),
        fourth_done: Flag::new(),
    };
    let texts: [(&str, &[u8]); 2] = [("T", b"x"), ("U", b"u")];
    run_rows(rt, alloc, &texts, JOBS.as_slice(), 2, &gate)
}

fn check_book(rt: &impl Abort, book: &Book) {
    check_eq(rt, &book.journal().len(), &3);
    check_entry(rt, book, 0, 2, 0);
    check_entry(rt, book, 1, 4, 1);
    check_entry(rt, book, 2, 3, 0);
    check_text(rt, book, 0, "x", 2);
    check_text(rt, book, 1, "u", 0);
}

#[test]
fn the_versions_are_those_of_the_last_try(rt: HostRuntime) -> Result<(), Fail> {
    let day = overtake(&rt, rt.alloc())?;
    let spent = SubmitFault::TriesSpent { seen: 1, now: 2 };
    check_first_refused(&rt, day.replies.as_slice(), 4, spent);
    check_eq(&rt, &day.shares.as_slice(), &[1u64, 2].as_slice());
    check_book(&rt, &day.book);
    Ok(())
}
