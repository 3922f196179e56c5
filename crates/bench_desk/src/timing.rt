//! How long a snapshot and a commit take.
ghost use Rattle.std.specs.Prelude.{◌≡◌, []};

use crate::faults::Fault;
use crate::load::now;
use crate::texts::{book_of, name_of, no_rules, statement_of};
use crate::words::Times;
use sno_book::Book;
use sno_desk::{Blank, Desk, Naming, Seat, SubmitFault, TextName, close};
use sno_statement::Statement;
use std::alloc::Global;
use std::fmt;
use std::marker::Brand;
use std::sync::{Arc, Wait};
use std::time::{Clock, Duration};

/// How many runs there are. The quickest counts, because other work of the machine only makes a run longer.
const RUNS: u32 = 5;

/// A time in tenths of a nanosecond. It is printed in nanoseconds.
#[derive(Clone, Copy)]
pub struct Tenths(u128);

impl fmt::Display for Tenths {
    fn fmt<W: fmt::Write>(&self, f: &mut fmt::Formatter<W>) -> fmt::Result {
        let whole = self.0 / 10;
        let tenth = self.0 % 10;
        write!(f, "{whole}.{tenth}")
    }
}

/// What one repetition took on average.
fn one_of(took: Duration, times: Times) -> Tenths {
    Tenths(took.as_nanos().saturating_mul(10) / u128::from(times.number))
}

/// What is timed at one desk: commits of these jobs, and snapshots, after this many entries.
#[derive(Drop)]
struct Series<'a> {
    jobs: &'a [Arc<Statement>],
    entries: u32,
    times: Times,
}

/// What a snapshot and a commit take at one desk.
#[derive(Clone, Copy)]
pub struct DeskTimes {
    pub snapshot: Tenths,
    pub commit: Tenths,
}

/// How long it takes to take this many snapshots and to drop them.
fn time_snapshots<L: Naming, C: Clock>(
    clock: &C,
    seat: &mut Seat<L>,
    name: &TextName,
    times: Times,
) -> Result<Duration, Fault> {
    let begun = now(clock)?;
    for _ in 0..times.number {
        let _snapshot = seat.snapshot(name)?;
    }
    Ok(now(clock)?.duration_since(begun))
}

/// How long the commit of one statement takes, including one reading of the clock.
fn time_commit<L: Naming, R: Wait + Clock>(
    rt: &R,
    alloc: Global,
    desk: &Desk<L>,
    seat: &mut Seat<L>,
    job: &Arc<Statement>,
) -> Result<Duration, Fault> {
    let proposal = seat.propose(alloc, job)?;
    let begun = now(rt)?;
    let committed = desk.commit(rt, seat, proposal);
    let took = now(rt)?.duration_since(begun);
    match committed {
        Ok(_) => Ok(took),
        Err((fault, _)) => Err(Fault::from(SubmitFault::from(fault))),
    }
}

/// How long this many commits take, one text after the other.
fn time_commits<L: Naming, R: Wait + Clock>(
    rt: &R,
    alloc: Global,
    desk: &Desk<L>,
    seat: &mut Seat<L>,
    jobs: &[Arc<Statement>],
    count: u32,
) -> Result<Duration, Fault> {
    let mut took = Duration::ZERO;
    for job in jobs.iter().cycle().take(count as usize) {
        took = took.saturating_add(time_commit(rt, alloc, desk, seat, job)?);
    }
    Ok(took)
}

/// The least times of some runs, after the entries of the series were committed.
fn least_times<L: Naming, R: Wait + Clock>(
    rt: &R,
    alloc: Global,
    desk: &Desk<L>,
    seat: &mut Seat<L>,
    series: &Series<'_>,
) -> Result<DeskTimes, Fault> {
    let Series {
        jobs,
        entries,
        times,
    } = *series;
    let name = name_of(alloc, 0)?;
    time_commits(rt, alloc, desk, seat, jobs, entries)?;
    let mut snapshot = Duration::MAX;
    let mut commit = Duration::MAX;
    for _ in 0..RUNS {
        snapshot = snapshot.min(time_snapshots(rt, seat, &name, times)?);
        commit = commit.min(time_commits(rt, alloc, desk, seat, jobs, times.number)?);
    }
    Ok(DeskTimes {
        snapshot: one_of(snapshot, times),
        commit: one_of(commit, times),
    })
}

/// A statement for each text, which replaces its character.
fn jobs_on(alloc: Global, texts: usize) -> Result<Vec<Arc<Statement>>, Fault> {
    let rules = no_rules(alloc)?;
    let mut jobs = Vec::with_capacity(alloc, texts)?;
    for place in 0..texts {
        jobs.push(statement_of(alloc, &rules, place, Some("'b'"))?)?;
    }
    Ok(jobs)
}

/// The times at a desk over this book, through its one seat.
fn time_at<L: Naming, R: Wait + Clock>(
    rt: &R,
    alloc: Global,
    blank: Blank,
    book: Book,
    series: &Series<'_>,
) -> Result<DeskTimes, Fault>
    requires name { (blank.ledger.name ≡ L.name) × (blank.ledger.parts ≡ L.parts) }
    requires histories { (blank.history ≡ record { history = L.book; entries = [] }) × (blank.attempts.history ≡ L.tries) }
    requires opening { book.opening ≡ L.opening }
    requires one { blank.ledger.parts ≡ 1 }
    requires empty { book.journal ≡ [] }
{
    let (desk, mut seats) = Desk::<L>::new(rt, alloc, blank, book, 1).map_err(|_| Fault::NoDesk)?;
    let (first, _) = seats.as_mut_slice().split_at_mut(1);
    let timed = least_times(rt, alloc, &desk, &mut first[0], series);
    let _book = close(rt, desk, seats).map_err(|_| Fault::Close)?;
    timed
}

/// What a snapshot and a commit take at a new desk with this many texts, whose journal begins with this many entries.
pub(crate) fn time_desk<R: Wait + Clock>(
    rt: &R,
    alloc: Global,
    texts: usize,
    entries: u32,
    times: Times,
) -> Result<DeskTimes, Fault> {
    let book = book_of(alloc, texts)?;
    let jobs = jobs_on(alloc, texts)?;
    let series = Series {
        jobs: &jobs,
        entries,
        times,
    };
    time_at::<Brand, R>(rt, alloc, Blank::new(1), book, &series)
}
