//! Two statements on one text. A gate holds one back until the other is accepted.
ghost use Rattle.std.specs.Prelude.{◌≤◌};
ghost use Rattle.sno_desk.specs.declared.desk.TheConstants.{MAX_TRIES};

use crate::compare::check_eq;
use crate::day::{Day, check_entry, check_first_refused, check_text, run_rows};
use crate::flags::Flag;
use crate::jobs::Row;
use sno_book::Book;
use sno_desk::{Gate, SubmitFault};
use sno_statement::{Datum, Outcome};
use std::alloc::Global;
use std::process::Abort;
use std::sync::Wait;
use std::sync::atomic::{AtomicU32, Ordering};
use std::test::Fail;
use std::thread::Threads;
use std::time::Clock;

/// Holds statement 2 at attempt 1 until statement 1 has come to attempt 1, and statement 1 there until statement 2 has its reply. It notes what
/// it is passed: the attempts of statement 1, a digit each; and how many replies were receipts and how many refusals, ones for statement 1 and
/// hundreds for statement 2.
#[derive(Drop)]
struct Hold<'a, C: Clock> {
    clock: &'a C,
    first_came: Flag,
    second_done: Flag,
    attempts: AtomicU32,
    accepted: AtomicU32,
    refused: AtomicU32,
}

/// What the gate noted.
#[derive(Clone, Copy)]
struct Notes {
    attempts: u32,
    accepted: u32,
    refused: u32,
}

impl<'a, C: Clock> Hold<'a, C> {
    /// The gate, passed nothing.
    fn new(clock: &'a C) -> Hold<'a, C> {
        Hold {
            clock,
            first_came: Flag::new(),
            second_done: Flag::new(),
            attempts: AtomicU32::new(0),
            accepted: AtomicU32::new(0),
            refused: AtomicU32::new(0),
        }
    }

    /// Notes one more attempt of statement 1.
    fn note(&self, attempt: u32) {
        let earlier = self.attempts.load(Ordering::SeqCst);
        let attempts = earlier.wrapping_mul(10).wrapping_add(attempt);
        self.attempts.store(attempts, Ordering::SeqCst);
    }

    /// What it noted.
    fn notes(&self) -> Notes {
        Notes {
            attempts: self.attempts.load(Ordering::SeqCst),
            accepted: self.accepted.load(Ordering::SeqCst),
            refused: self.refused.load(Ordering::SeqCst),
        }
    }
}

impl<C: Clock> Gate for Hold<'_, C> {
    ghost shuts = { λ _ _ attempt. Unit {0} };

    fn pass<R: Wait>(&self, _rt: &R, number: u32, attempt: u32) -> bool {
        if number == 1 {
            self.note(attempt);
        }
        match (number, attempt) {
            (1, 1) => {
                self.first_came.raise();
                self.second_done.wait(self.clock)
            }
            (2, 1) => self.first_came.wait(self.clock),
            _ => true,
        }
    }

    fn done<R: Wait>(&self, _rt: &R, number: u32, accepted: bool) {
        let one = if number == 1 { 1 } else { 100 };
        if accepted {
            self.accepted.fetch_add(one, Ordering::SeqCst);
        } else {
            self.refused.fetch_add(one, Ordering::SeqCst);
        }
        if number == 2 {
            self.second_done.raise();
        }
    }
}

static JOBS: [Row; 2] = [
    (1, "T", "LEN(1) . C", Some("C C")),
    (2, "T", "'x'", Some("'z'")),
];

/// Both statements submitted by two seats, and what the gate noted.
fn overlap<R: Threads + Wait + Clock + Abort + Sync>(
    rt: &R,
    alloc: Global,
    tries: u32,
) -> Result<(Day, Notes), Fail>
    requires { (1 ≤ tries) × (tries ≤ MAX_TRIES) }
{
    let gate = Hold::new(rt);
    let day = run_rows(rt, alloc, &[("T", b"x")], JOBS.as_slice(), tries, &gate)?;
    Ok((day, gate.notes()))
}

fn check_bound(rt: &impl Abort, datum: Option<&Datum>, wanted: &str) {
    match datum {
        Some(Datum::Str(text)) => check_eq(rt, &text.bytes(), &wanted.as_bytes()),
        Some(Datum::Int(_)) | None => assert!(rt; false, "no string"),
    }
}

fn check_notes(rt: &impl Abort, notes: Notes, attempts: u32, accepted: u32, refused: u32) {
    check_eq(rt, &notes.attempts, &attempts);
    check_eq(rt, &notes.accepted, &accepted);
    check_eq(rt, &notes.refused, &refused);
}

/// The statement matched, and assigned this string to its variable.
fn check_matched(rt: &impl Abort, outcome: &Outcome, wanted: &str) {
    match outcome {
        Outcome::Matched { bindings, .. } => {
            check_bound(rt, bindings.get(0).map(|b| b.1), wanted);
        }
        Outcome::Failed { .. } => assert!(rt; false, "it failed"),
        Outcome::Repeated { .. } => assert!(rt; false, "it was repeated"),
        Outcome::All { .. } => assert!(rt; false, "it was for all matches"),
    }
}

/// Two entries. The second saw what the first left.
fn check_both(rt: &impl Abort, book: &Book) {
    check_text(rt, book, 0, "zz", 2);
    check_eq(rt, &book.journal().len(), &2);
    check_entry(rt, book, 0, 2, 0);
    check_entry(rt, book, 1, 1, 1);
    let entry = book.journal().get(1).expect(rt, "there is an entry");
    check_matched(rt, &entry.outcome, "z");
}

#[test]
fn a_text_that_changed_is_matched_again(rt: HostRuntime) -> Result<(), Fail> {
    let (day, notes) = overlap(&rt, rt.alloc(), 2)?;
    assert!(rt; day.replies.len() == 2);
    assert!(rt; day.replies[0].is_ok() && day.replies[1].is_ok());
    check_notes(&rt, notes, 12, 101, 0);
    check_both(&rt, &day.book);
    Ok(())
}

/// One entry, of the second statement.
fn check_second(rt: &impl Abort, book: &Book) {
    check_text(rt, book, 0, "z", 1);
    check_eq(rt, &book.journal().len(), &1);
    check_entry(rt, book, 0, 2, 0);
}

#[test]
fn tries_are_spent(rt: HostRuntime) -> Result<(), Fail> {
    let (day, notes) = overlap(&rt, rt.alloc(), 1)?;
    let spent = SubmitFault::TriesSpent { seen: 0, now: 1 };
    check_first_refused(&rt, day.replies.as_slice(), 2, spent);
    check_notes(&rt, notes, 1, 100, 1);
    check_eq(&rt, &day.shares.as_slice(), &[0u64, 1].as_slice());
    check_second(&rt, &day.book);
    Ok(())
}
