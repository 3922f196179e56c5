//! Seats that work alone: one overtakes another's proposal, adds entries between two of its own, and sees what nobody showed it.
ghost use Rattle.sno_book.specs.Views.{IsPrefix};
ghost use Rattle.sno_desk.specs.Seen.{view_after};

use crate::compare::check_eq;
use crate::day::{check_entry, check_text};
use crate::desks::{Work, at_desk};
use crate::jobs::{book, matching, statement};
use sno_book::Book;
use sno_desk::{
    CommitFault, Desk, Naming, OpenGate, Outcome, Proposal, Seat, SnapshotFault, TextName,
};
use sno_statement::Statement;
use std::alloc::Global;
use std::process::Abort;
use std::sync::{Arc, Wait};
use std::test::Fail;

/// What three seats do at a desk, with the statements and the memory of this value.
trait Turns {
    fn take<L: Naming, R: Wait + Abort>(
        &self,
        rt: &R,
        desk: &Desk<L>,
        first: &mut Seat<L>,
        second: &mut Seat<L>,
        third: &mut Seat<L>,
    ) -> Result<(), Fail>;
}

/// The statement proposed and committed. The index of its entry.
fn commit<L: Naming, R: Wait + Abort>(
    rt: &R,
    alloc: Global,
    desk: &Desk<L>,
    seat: &mut Seat<L>,
    job: &Arc<Statement>,
) -> Result<usize, Fail> {
    let proposal = seat.propose(alloc, job)?;
    let receipt = desk.commit(rt, seat, proposal).map_err(|(fault, _)| fault)?;
    Ok(receipt.index)
}

/// The statement submitted: its entry is the first one, for this text.
fn submit_first<L: Naming, R: Wait + Abort>(
    rt: &R,
    alloc: Global,
    desk: &Desk<L>,
    seat: &mut Seat<L>,
    job: &Arc<Statement>,
    text: &str,
) -> Result<(), Fail> {
    let job = Arc::try_clone(job)?;
    let receipt = desk.submit(rt, alloc, seat, job, 1, &OpenGate)?;
    check_eq(rt, &receipt.index, &0);
    check_eq(rt, &receipt.text.bytes(), &text.as_bytes());
    Ok(())
}

/// The statement submitted: its entry is the first one, and it failed.
fn submit_failing<L: Naming, R: Wait + Abort>(
    rt: &R,
    alloc: Global,
    desk: &Desk<L>,
    seat: &mut Seat<L>,
    job: &Arc<Statement>,
) -> Result<(), Fail> {
    let receipt = desk.submit(rt, alloc, seat, Arc::try_clone(job)?, 1, &OpenGate)?;
    check_eq(rt, &receipt.index, &0);
    assert!(rt; matches!(&*receipt.entry.outcome, Outcome::Failed { .. }));
    Ok(())
}

/// The proposal comes back, since one entry changed its text.
fn check_overtaken<L: Naming, R: Wait + Abort>(
    rt: &R,
    desk: &Desk<L>,
    seat: &mut Seat<L>,
    late: Proposal,
)
    requires { IsPrefix late.origin (view_after L.opening seat.old.seen) }
{
    let refused = desk.commit(rt, seat, late).err();
    let (fault, back) = refused.expect(rt, "it was overtaken");
    check_eq(rt, &fault, &CommitFault::Changed { seen: 0, now: 1 });
    check_eq(rt, &back.version(), &0);
}

/// The proposal is the fourth entry, at version 1, for the text `z`.
fn check_fourth<L: Naming, R: Wait + Abort>(
    rt: &R,
    desk: &Desk<L>,
    seat: &mut Seat<L>,
    late: Proposal,
) -> Result<(), Fail>
    requires { IsPrefix late.origin (view_after L.opening seat.old.seen) }
{
    let receipt = desk.commit(rt, seat, late).map_err(|(fault, _)| fault)?;
    check_eq(rt, &receipt.index, &3);
    check_eq(rt, &receipt.entry.statement.number(), &4);
    check_eq(rt, &receipt.entry.version, &1);
    check_eq(rt, &receipt.text.bytes(), &b"z".as_slice());
    Ok(())
}

/// Compares how many entries the seat has accepted, and how many it has seen.
fn check_counts<L: Naming>(rt: &impl Abort, seat: &Seat<L>, accepted: u64, seen: u64) {
    check_eq(rt, &(seat.accepted(), seat.seen()), &(accepted, seen));
}

/// Compares the text of this name, as the seat sees it, and its version.
fn check_seen<L: Naming>(
    rt: &impl Abort,
    seat: &mut Seat<L>,
    name: &TextName,
    text: &str,
    version: u64,
) -> Result<(), Fail> {
    let snapshot = seat.snapshot(name)?;
    check_eq(rt, &snapshot.version, &version);
    check_eq(rt, &snapshot.text.bytes(), &text.as_bytes());
    Ok(())
}

/// The second seat proposes on a snapshot that is older than the first seat's entry, which neither it nor the third seat was shown.
#[derive(Drop)]
struct Overtakes {
    alloc: Global,
    late: Arc<Statement>,
    first: Arc<Statement>,
}

impl Turns for Overtakes {
    fn take<L: Naming, R: Wait + Abort>(
        &self,
        rt: &R,
        desk: &Desk<L>,
        first: &mut Seat<L>,
        second: &mut Seat<L>,
        third: &mut Seat<L>,
    ) -> Result<(), Fail> {
        let late = second.propose(self.alloc, &self.late)?;
        check_eq(rt, &late.version(), &0);
        submit_first(rt, self.alloc, desk, first, &self.first, "x")?;
        check_counts(rt, first, 1, 1);
        check_counts(rt, second, 0, 0);
        check_counts(rt, third, 0, 0);
        check_overtaken(rt, desk, second, late);
        check_seen(rt, second, self.late.text(), "z", 1)?;
        check_seen(rt, third, self.late.text(), "z", 1)?;
        check_counts(rt, first, 1, 1);
        check_counts(rt, second, 0, 1);
        check_counts(rt, third, 0, 1);
        Ok(())
    }
}

/// The second seat adds two entries between two of the first.
#[derive(Drop)]
struct Interleaves {
    alloc: Global,
    first: Arc<Statement>,
    elsewhere: Arc<Statement>,
    unmatched: Arc<Statement>,
    again: Arc<Statement>,
}

impl Interleaves {
    /// The second and the third entry.
    fn add_between<L: Naming, R: Wait + Abort>(
        &self,
        rt: &R,
        desk: &Desk<L>,
        seat: &mut Seat<L>,
    ) -> Result<(), Fail> {
        check_eq(
            rt,
            &commit(rt, self.alloc, desk, seat, &self.elsewhere)?,
            &1,
        );
        check_eq(
            rt,
            &commit(rt, self.alloc, desk, seat, &self.unmatched)?,
            &2,
        );
        Ok(())
    }
}

impl Turns for Interleaves {
    fn take<L: Naming, R: Wait + Abort>(
        &self,
        rt: &R,
        desk: &Desk<L>,
        first: &mut Seat<L>,
        second: &mut Seat<L>,
        _third: &mut Seat<L>,
    ) -> Result<(), Fail> {
        check_eq(rt, &commit(rt, self.alloc, desk, first, &self.first)?, &0);
        let late = first.propose(self.alloc, &self.again)?;
        check_eq(rt, &late.version(), &1);
        self.add_between(rt, desk, second)?;
        check_fourth(rt, desk, first, late)?;
        check_counts(rt, first, 2, 4);
        check_counts(rt, second, 2, 3);
        Ok(())
    }
}

/// The first seat's statement fails, which is an entry that changes nothing; a text that isn't there no seat sees.
#[derive(Drop)]
struct Fails {
    alloc: Global,
    unmatched: Arc<Statement>,
    elsewhere: TextName,
}

impl Turns for Fails {
    fn take<L: Naming, R: Wait + Abort>(
        &self,
        rt: &R,
        desk: &Desk<L>,
        first: &mut Seat<L>,
        second: &mut Seat<L>,
        _third: &mut Seat<L>,
    ) -> Result<(), Fail> {
        submit_failing(rt, self.alloc, desk, first, &self.unmatched)?;
        check_seen(rt, first, self.unmatched.text(), "x", 0)?;
        let missing = second.snapshot(&self.elsewhere).err();
        check_eq(rt, &missing, &Some(SnapshotFault::NoText));
        check_counts(rt, first, 1, 1);
        check_counts(rt, second, 0, 0);
        Ok(())
    }
}

/// What three seats do, as the work of a desk.
#[derive(Drop)]
struct ByThree<'a, T: Turns>(&'a T);

impl<T: Turns> Work for ByThree<'_, T> {
    fn work<L: Naming, R: Wait + Abort>(
        &self,
        rt: &R,
        _alloc: Global,
        desk: &Desk<L>,
        seats: &mut [Seat<L>],
    ) -> Result<(), Fail> {
        assert!(rt; seats.len() == 3);
        let (first, others) = seats.split_at_mut(1);
        let (second, third) = others.split_at_mut(1);
        self.0
            .take(rt, desk, &mut first[0], &mut second[0], &mut third[0])
    }
}

/// What is done by three seats at a desk over these texts. The book, as it is closed.
fn share<T: Turns, R: Wait + Abort>(
    rt: &R,
    alloc: Global,
    texts: &[(&str, &[u8])],
    turns: &T,
) -> Result<Book, Fail> {
    let book = book(alloc, texts, 1_000_000)?;
    at_desk(rt, alloc, book, 3, &ByThree(turns))
}

#[test]
fn an_overtaken_proposal_comes_back_and_each_seat_sees_why(rt: HostRuntime) -> Result<(), Fail> {
    let alloc = rt.alloc();
    let turns = Overtakes {
        alloc,
        late: statement(&rt, alloc, 1, "T", "'x'", "'y'")?,
        first: statement(&rt, alloc, 2, "T", "'x'", "'z'")?,
    };
    let book = share(&rt, alloc, &[("T", b"x")], &turns)?;
    check_eq(&rt, &book.journal().len(), &1);
    check_entry(&rt, &book, 0, 2, 0);
    check_text(&rt, &book, 0, "z", 1);
    Ok(())
}

/// The book of the four entries.
fn interleave(rt: &(impl Wait + Abort), alloc: Global) -> Result<Book, Fail> {
    let turns = Interleaves {
        alloc,
        first: statement(rt, alloc, 1, "T", "'x'", "'z'")?,
        elsewhere: statement(rt, alloc, 2, "U", "'u'", "'v'")?,
        unmatched: statement(rt, alloc, 3, "T", "'x'", "'w'")?,
        again: statement(rt, alloc, 4, "T", "'z'", "'zz'")?,
    };
    share(rt, alloc, &[("T", b"x"), ("U", b"u")], &turns)
}

#[test]
fn a_seat_commits_at_a_later_version(rt: HostRuntime) -> Result<(), Fail> {
    let book = interleave(&rt, rt.alloc())?;
    check_eq(&rt, &book.journal().len(), &4);
    check_entry(&rt, &book, 0, 1, 0);
    check_entry(&rt, &book, 1, 2, 0);
    check_entry(&rt, &book, 2, 3, 1);
    check_entry(&rt, &book, 3, 4, 1);
    check_text(&rt, &book, 0, "zz", 2);
    check_text(&rt, &book, 1, "v", 1);
    Ok(())
}

#[test]
fn a_failure_is_an_entry_and_changes_no_text(rt: HostRuntime) -> Result<(), Fail> {
    let alloc = rt.alloc();
    let turns = Fails {
        alloc,
        unmatched: matching(&rt, alloc, 1, "T", "'q'")?,
        elsewhere: TextName::new(alloc, b"U".as_slice())?,
    };
    let book = share(&rt, alloc, &[("T", b"x")], &turns)?;
    check_eq(&rt, &book.journal().len(), &1);
    check_entry(&rt, &book, 0, 1, 0);
    check_text(&rt, &book, 0, "x", 0);
    Ok(())
}
