//! Seats that look at what is shown, read texts in place, and propose; and the journal's entries while the desk is open.
use crate::compare::check_eq;
use crate::desks::{Work, at_desk};
use crate::jobs::{book, statement};
use sno_desk::{Desk, Entry, LookFault, Naming, Seat, SnapshotFault, SubmitFault, TextName};
use sno_statement::Statement;
use std::alloc::Global;
use std::process::Abort;
use std::sync::{Arc, Wait};
use std::test::Fail;

/// One seat commits two statements; another one looks on.
#[derive(Drop)]
struct LooksOn {
    first: Arc<Statement>,
    second: Arc<Statement>,
    elsewhere: Arc<Statement>,
}

/// The statement proposed and committed.
fn commit<L: Naming, R: Wait + Abort>(
    rt: &R,
    alloc: Global,
    desk: &Desk<L>,
    seat: &mut Seat<L>,
    job: &Arc<Statement>,
) -> Result<(), Fail> {
    let proposal = seat.propose(alloc, job)?;
    let receipt = desk.commit(rt, seat, proposal).map_err(|(fault, _)| fault)?;
    check_eq(rt, &receipt.entry.statement.number(), &job.number());
    Ok(())
}

/// Compares the text of this name, read in place, and its version.
fn check_read<L: Naming>(
    rt: &impl Abort,
    seat: &mut Seat<L>,
    name: &TextName,
    expected: &str,
    expected_version: u64,
) -> Result<(), Fail> {
    let (is_equal, version) = seat.read(
        name,
        |text, version| (text.bytes() == expected.as_bytes(), version),
    )?;
    assert!(rt; is_equal, "not {expected}");
    check_eq(rt, &version, &expected_version);
    Ok(())
}

/// Compares snapshots of the text twice, and of no text; one name that is missing refuses all.
fn check_snapshots<L: Naming>(
    rt: &impl Abort,
    alloc: Global,
    seat: &mut Seat<L>,
    there: &Arc<Statement>,
    missing: &Arc<Statement>,
) -> Result<(), Fail> {
    let taken = seat.snapshots(alloc, &[there.text(), there.text()])?;
    check_eq(rt, &taken.len(), &2);
    for snapshot in taken.iter() {
        assert!(rt; snapshot.text.bytes() == b"c".as_slice());
        check_eq(rt, &snapshot.version, &2);
    }
    check_eq(rt, &seat.snapshots(alloc, &[])?.len(), &0);
    let refused = seat.snapshots(alloc, &[there.text(), missing.text()]).err();
    check_eq(rt, &refused, &Some(SnapshotFault::NoText));
    let refused = seat.snapshots(alloc, &[missing.text(), there.text()]).err();
    check_eq(rt, &refused, &Some(SnapshotFault::NoText));
    Ok(())
}

/// Compares the numbers of the entries' statements.
fn check_numbers(rt: &impl Abort, entries: &[Entry], expected: &[u32]) {
    check_eq(rt, &entries.len(), &expected.len());
    for (entry, number) in entries.iter().zip(expected) {
        check_eq(rt, &entry.statement.number(), number);
    }
}

impl Work for LooksOn {
    fn work<L: Naming, R: Wait + Abort>(
        &self,
        rt: &R,
        alloc: Global,
        desk: &Desk<L>,
        seats: &mut [Seat<L>],
    ) -> Result<(), Fail> {
        assert!(rt; seats.len() == 2);
        let (writers, readers) = seats.split_at_mut(1);
        let (writer, reader) = (&mut writers[0], &mut readers[0]);
        commit(rt, alloc, desk, writer, &self.first)?;
        check_eq(rt, &reader.seen(), &0);
        check_eq(rt, &reader.look()?, &1);
        commit(rt, alloc, desk, writer, &self.second)?;
        check_read(rt, reader, self.first.text(), "c", 2)?;
        check_eq(rt, &reader.seen(), &2);
        self.check_missing(rt, alloc, reader);
        check_snapshots(rt, alloc, reader, &self.first, &self.elsewhere)?;
        check_numbers(rt, &desk.since(rt, reader, 0)?, &[1, 2]);
        check_numbers(rt, &desk.since(rt, reader, 1)?, &[2]);
        check_numbers(rt, &desk.since(rt, reader, 2)?, &[]);
        check_numbers(rt, &desk.since(rt, reader, 9)?, &[]);
        Ok(())
    }
}

impl LooksOn {
    /// A text that isn't there is neither read nor proposed on.
    fn check_missing<L: Naming>(&self, rt: &impl Abort, alloc: Global, seat: &mut Seat<L>) {
        let version = seat.read(self.elsewhere.text(), |_text, version| version);
        check_eq(rt, &version, &Err(LookFault::NoText));
        let proposed = seat.propose(alloc, &self.elsewhere).err();
        check_eq(rt, &proposed, &Some(SubmitFault::NoText));
    }
}

/// One seat commits; another one, which hasn't looked, asks for the entries, and proposes on the text that it sees now.
#[derive(Drop)]
struct Asks {
    first: Arc<Statement>,
    second: Arc<Statement>,
}

impl Work for Asks {
    fn work<L: Naming, R: Wait + Abort>(
        &self,
        rt: &R,
        alloc: Global,
        desk: &Desk<L>,
        seats: &mut [Seat<L>],
    ) -> Result<(), Fail> {
        assert!(rt; seats.len() == 2);
        let (writers, askers) = seats.split_at_mut(1);
        let (writer, asker) = (&mut writers[0], &mut askers[0]);
        commit(rt, alloc, desk, writer, &self.first)?;
        check_eq(rt, &asker.seen(), &0);
        check_numbers(rt, &desk.since(rt, asker, 0)?, &[1]);
        check_eq(rt, &asker.seen(), &1);
        commit(rt, alloc, desk, writer, &self.second)?;
        check_eq(rt, &asker.seen(), &1);
        let proposal = asker.propose(alloc, &self.second)?;
        check_eq(rt, &proposal.version(), &2);
        check_eq(rt, &asker.seen(), &2);
        Ok(())
    }
}

#[test]
fn a_seat_that_has_not_looked_gets_all_entries(rt: HostRuntime) -> Result<(), Fail> {
    let alloc = rt.alloc();
    let work = Asks {
        first: statement(&rt, alloc, 1, "T", "'a'", "'b'")?,
        second: statement(&rt, alloc, 2, "T", "'b'", "'c'")?,
    };
    let book = book(alloc, &[("T", b"a")], 1_000_000)?;
    let closed = at_desk(&rt, alloc, book, 2, &work)?;
    check_eq(&rt, &closed.journal().len(), &2);
    Ok(())
}

#[test]
fn a_seat_looks_on(rt: HostRuntime) -> Result<(), Fail> {
    let alloc = rt.alloc();
    let work = LooksOn {
        first: statement(&rt, alloc, 1, "T", "'a'", "'b'")?,
        second: statement(&rt, alloc, 2, "T", "'b'", "'c'")?,
        elsewhere: statement(&rt, alloc, 3, "U", "'b'", "'c'")?,
    };
    let book = book(alloc, &[("T", b"a")], 1_000_000)?;
    let closed = at_desk(&rt, alloc, book, 2, &work)?;
    check_eq(&rt, &closed.journal().len(), &2);
    Ok(())
}
