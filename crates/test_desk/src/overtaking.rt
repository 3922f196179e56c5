//! A submit whose gate accepts another statement through another seat at each attempt: so its text changes under each of its tries.
use crate::compare::check_eq;
use crate::day::{check_entry, check_text};
use crate::desks::{Work, at_desk};
use crate::jobs::{book, statement};
use sno_book::Book;
use sno_desk::{Desk, Gate, Naming, OpenGate, Seat, SubmitFault};
use sno_statement::Statement;
use std::alloc::Global;
use std::process::Abort;
use std::sync::{Arc, Mutex, Wait};
use std::test::Fail;

/// A gate that submits a job of its own at each attempt, and is shut where that is refused.
#[derive(Drop)]
struct Overtaking<'a, L: Naming> {
    alloc: Global,
    desk: &'a Desk<L>,
    seat: Mutex<&'a mut Seat<L>>,
    job: &'a Arc<Statement>,
}

impl<L: Naming> Gate for Overtaking<'_, L> {
    ghost shuts = { λ _ _ _. Unit {0} };

    fn pass<R: Wait>(&self, rt: &R, _number: u32, _attempt: u32) -> bool {
        let Ok(job) = Arc::try_clone(self.job) else {
            return false;
        };
        let mut seat = self.seat.lock(rt);
        self.desk
            .submit(rt, self.alloc, &mut seat, job, 1, &OpenGate)
            .is_ok()
    }

    fn done<R: Wait>(&self, _rt: &R, _number: u32, _accepted: bool) {}
}

/// The first job is submitted with `tries` tries. The second job overtakes each of them.
#[derive(Drop)]
struct Overtaken {
    first: Arc<Statement>,
    second: Arc<Statement>,
    tries: u32,
}

impl Overtaken {
    /// On a text of one letter: the first job replaces it, the second puts it twice.
    fn one_letter(rt: &impl Abort, alloc: Global, tries: u32) -> Result<Overtaken, Fail> {
        Ok(Overtaken {
            first: statement(rt, alloc, 1, "T", "LEN(1)", "'w'")?,
            second: statement(rt, alloc, 2, "T", "LEN(1) . C", "C C")?,
            tries,
        })
    }

    /// Why the first job is refused to one seat, while its gate submits the second through the other.
    fn submit<L: Naming, R: Wait + Abort>(
        &self,
        rt: &R,
        alloc: Global,
        desk: &Desk<L>,
        seat: &mut Seat<L>,
        other: &mut Seat<L>,
    ) -> Result<Option<SubmitFault>, Fail> {
        let job = Arc::try_clone(&self.first)?;
        assert!(rt; 1 <= self.tries && self.tries <= 1000);
        let gate = Overtaking {
            alloc,
            desk,
            seat: Mutex::new(other),
            job: &self.second,
        };
        Ok(desk.submit(rt, alloc, seat, job, self.tries, &gate).err())
    }

    /// All tries are spent, and each was overtaken by one entry.
    fn check<L: Naming>(
        &self,
        rt: &impl Abort,
        refused: Option<SubmitFault>,
        seat: &Seat<L>,
        other: &Seat<L>,
    ) {
        let now = u64::from(self.tries);
        let seen = now.saturating_sub(1);
        check_eq(rt, &refused, &Some(SubmitFault::TriesSpent { seen, now }));
        check_eq(rt, &(seat.accepted(), other.accepted()), &(0, now));
    }
}

impl Work for Overtaken {
    fn work<L: Naming, R: Wait + Abort>(
        &self,
        rt: &R,
        alloc: Global,
        desk: &Desk<L>,
        seats: &mut [Seat<L>],
    ) -> Result<(), Fail> {
        assert!(rt; seats.len() == 2);
        let (first, second) = seats.split_at_mut(1);
        let refused = self.submit(rt, alloc, desk, &mut first[0], &mut second[0])?;
        self.check(rt, refused, &first[0], &second[0]);
        Ok(())
    }
}

/// The book that `tries` tries leave.
fn overtake<R: Wait + Abort>(rt: &R, alloc: Global, tries: u32) -> Result<Book, Fail> {
    let overtaken = Overtaken::one_letter(rt, alloc, tries)?;
    at_desk(
        rt,
        alloc,
        book(alloc, &[("T", b"x")], 1_000_000)?,
        2,
        &overtaken,
    )
}

/// After `tries` tries the second job has left this text.
fn check_overtaken<R: Wait + Abort>(
    rt: &R,
    alloc: Global,
    tries: u32,
    text: &str,
) -> Result<(), Fail> {
    let book = overtake(rt, alloc, tries)?;
    let now = u64::from(tries);
    let last = (tries as usize).saturating_sub(1);
    check_eq(rt, &book.journal().len(), &(tries as usize));
    check_entry(rt, &book, last, 2, now.saturating_sub(1));
    check_text(rt, &book, 0, text, now);
    Ok(())
}

#[test]
fn each_try_is_overtaken(rt: HostRuntime) -> Result<(), Fail> {
    let alloc = rt.alloc();
    check_overtaken(&rt, alloc, 1, "xx")?;
    check_overtaken(&rt, alloc, 2, "xxx")?;
    check_overtaken(&rt, alloc, 5, "xxxxxx")
}
