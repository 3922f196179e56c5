//! What a viewer sees of a screen, before and after an entry and beside it.
ghost use Rattle.std.specs.Prelude.{◌≡◌, [], true, IfOk};
ghost use Rattle.sno_book.specs.Books.{view_of};
ghost use Rattle.sno_book.specs.Views.{IsPrefix};

use crate::compare::check_eq;
use crate::jobs::{book, statement};
use sno_book::{Book, Entry, Proposal, Receipt, Statement, Text, propose};
use sno_published::{History, Naming, Screen, ViewFault, Viewer};
use std::alloc::Global;
use std::marker::Brand;
use std::process::Abort;
use std::sync::{Arc, Wait};
use std::test::Fail;
use std::thread;
use std::thread::Threads;

/// A book with one text, `x`, whose name is `T`.
fn one_text(alloc: Global) -> Result<Book, Fail>
    ensures { IfOk result (λ b. b.journal ≡ []) }
{
    let book = book(alloc, &[("T", b"x")], 10)?;
    Ok(book)
}

/// A statement that puts a `y` before the text.
fn adding(rt: &impl Abort, alloc: Global) -> Result<Arc<Statement>, Fail> {
    statement(rt, alloc, 1, "T", "''", "'y'")
}

/// That statement on the text as it is.
fn added(rt: &impl Abort, alloc: Global, book: &Book) -> Result<Proposal, Fail>
    ensures { IfOk result (λ p. IsPrefix p.origin (view_of book.now)) }
{
    proposal(alloc, book, &adding(rt, alloc)?)
}

/// The statement on the text as it is.
fn proposal(alloc: Global, book: &Book, job: &Arc<Statement>) -> Result<Proposal, Fail>
    ensures { IfOk result (λ p. IsPrefix p.origin (view_of book.now)) }
{
    let snapshot = book.snapshot(job.text())?;
    let proposal = propose(alloc, Arc::try_clone(job)?, snapshot)?;
    Ok(proposal)
}

/// Commits the proposal to the book, and publishes the entry. Returns whether both were done.
#[tactic(auto, using(sno_book::proofs::Kinship::is_related))]
fn follow<L: Naming, R: Wait>(
    rt: &R,
    screen: &mut Screen<L>,
    book: &mut Book,
    proposal: Proposal,
) -> bool
    requires open { screen.old.is_open ≡ true }
    requires level { screen.old.shown ≡ book.old.journal }
    requires opening { book.old.opening ≡ L.opening }
    requires view { IsPrefix proposal.origin (view_of book.old) }
    ensures opening { book.new.opening ≡ L.opening }
{
    let room = u64::from(book.opening().room());
    if screen.count() > 9 || screen.count() >= room {
        return false;
    }
    let Ok(receipt) = book.commit(proposal) else {
        return false;
    };
    let Some(place) = book.opening().place(receipt.entry.statement.text()) else {
        return false;
    };
    screen.publish(rt, place, &receipt.entry).is_ok()
}

/// The receipt of the statement on a book of its own.
#[tactic(auto, using(sno_book::proofs::Kinship::is_related))]
fn receipt(rt: &impl Abort, alloc: Global) -> Result<Receipt, Fail> {
    let mut book = one_text(alloc)?;
    let proposal = added(rt, alloc, &book)?;
    Ok(book.commit(proposal).map_err(|(fault, _)| fault)?)
}

/// Two entries are added to a history, and a front of the time before is shown them.
fn check_growth(rt: &impl Abort, entry: &Entry) {
    let mut history = History::new();
    let first = history.front().again();
    assert!(rt; history.add(entry));
    assert!(rt; history.add(entry));
    let second = history.front().again();
    first.learn(&second);
    check_eq(rt, &(first.count(), second.count()), &(0, 2));
}

#[test]
fn a_history_grows(rt: HostRuntime) -> Result<(), Fail> {
    let receipt = receipt(&rt, rt.alloc())?;
    check_growth(&rt, &receipt.entry);
    Ok(())
}

/// What a viewer saw at one place.
type Sight = Result<Option<(Arc<Text>, u64)>, ViewFault>;

/// Whether it was this text with this version.
fn is_text(sight: Sight, text: &[u8], version: u64) -> bool {
    match sight {
        Ok(Some((found, at))) => found.bytes() == text && at == version,
        _ => false,
    }
}

/// What a viewer sees once an entry is published: whether it was level, whether it sees the new text and is level then, and whether there is no
/// second text.
fn look<L: Naming>(viewer: &mut Viewer<L>, screen: &Screen<L>) -> [bool; 4] {
    let was_level = viewer.is_level(screen.table());
    let is_new = is_text(viewer.text(0), b"yx".as_slice(), 1);
    let is_level = viewer.is_level(screen.table());
    let is_alone = matches!(viewer.text(1), Ok(None));
    viewer.learn(screen.table());
    [was_level, is_new, is_level, is_alone]
}

/// A screen of the book's texts, with a viewer.
fn open<L: Naming, R: Wait>(
    rt: &R,
    alloc: Global,
    book: &Book,
    history: History,
    attempts: History,
) -> Result<(Screen<L>, Viewer<L>), Fail>
    requires history { (history.history ≡ L.book) × (history.entries ≡ []) }
    requires attempts { attempts.history ≡ L.tries }
    requires book { book.now.opening ≡ L.opening }
    ensures { IfOk result (λ s. s.0 ≡ record { shown = []; is_open = true }) }
{
    let screen = Screen::<L>::new(alloc, book.opening(), history, attempts, 2)?;
    match screen.viewer() {
        Ok(viewer) => Ok((screen, viewer)),
        Err(fault) => {
            screen.end(rt);
            Err(fault.into())
        }
    }
}

/// What one viewer sees before and after an entry is published, and after the screen has ended.
fn watch<L: Naming, R: Wait + Abort>(
    rt: &R,
    alloc: Global,
    book: &mut Book,
    proposal: Proposal,
    history: History,
    attempts: History,
) -> Result<(), Fail>
    requires view { IsPrefix proposal.origin (view_of book.old) }
    requires history { (history.history ≡ L.book) × (history.entries ≡ []) }
    requires attempts { attempts.history ≡ L.tries }
    requires book { (book.old.opening ≡ L.opening) × (book.old.journal ≡ []) }
{
    let (mut screen, mut viewer) = open::<L, R>(rt, alloc, book, history, attempts)?;
    let was_first = is_text(viewer.text(0), b"x".as_slice(), 0);
    let is_shown = follow(rt, &mut screen, book, proposal);
    let sights = look(&mut viewer, &screen);
    screen.end(rt);
    check_eq(
        rt,
        &(was_first, is_shown, sights),
        &(true, true, [false, true, true, true]),
    );
    check_eq(rt, &viewer.seen(), &1);
    check_eq(rt, &viewer.enter(), &Err(ViewFault::Ended));
    Ok(())
}

fn watched<R: Wait + Abort>(rt: &R, alloc: Global, book: &mut Book) -> Result<(), Fail>
    requires { book.old.journal ≡ [] }
{
    let proposal = added(rt, alloc, book)?;
    watch::<Brand, R>(rt, alloc, book, proposal, History::new(), History::new())
}

fn watched_beside<R: Threads + Wait + Abort>(
    rt: &R,
    alloc: Global,
    book: &mut Book,
) -> Result<(), Fail>
    requires { book.old.journal ≡ [] }
{
    let proposal = added(rt, alloc, book)?;
    watch_beside::<Brand, R>(rt, alloc, book, proposal, History::new(), History::new())
}

#[test]
fn a_viewer_sees_what_is_published(rt: HostRuntime) -> Result<(), Fail> {
    let alloc = rt.alloc();
    let mut book = one_text(alloc)?;
    watched(&rt, alloc, &mut book)?;
    check_eq(&rt, &book.journal().len(), &1);
    Ok(())
}

/// Reads this many times, and says whether no version was lower than the one before it.
fn never_goes_back<L: Naming>(mut viewer: Viewer<L>, times: u32) -> bool {
    let mut last = 0;
    for _ in 0..times {
        match viewer.text(0) {
            Ok(Some((_, version))) if version >= last => last = version,
            Err(ViewFault::Ended) => return true,
            _ => return false,
        }
    }
    true
}

/// A viewer reads in a thread of its own while an entry is published.
fn watch_beside<L: Naming + Send + Sync + 'static, R: Threads + Wait + Abort>(
    rt: &R,
    alloc: Global,
    book: &mut Book,
    proposal: Proposal,
    history: History,
    attempts: History,
) -> Result<(), Fail>
    requires view { IsPrefix proposal.origin (view_of book.old) }
    requires history { (history.history ≡ L.book) × (history.entries ≡ []) }
    requires attempts { attempts.history ≡ L.tries }
    requires book { (book.old.opening ≡ L.opening) × (book.old.journal ≡ []) }
{
    let (mut screen, viewer) = open::<L, R>(rt, alloc, book, history, attempts)?;
    let Ok(reader) = thread::spawn(rt, move || never_goes_back(viewer, 1000)) else {
        screen.end(rt);
        return Err("no thread".into());
    };
    let is_shown = follow(rt, &mut screen, book, proposal);
    let never = reader.join(rt);
    let count = screen.count();
    screen.end(rt);
    check_eq(rt, &(never, is_shown, count), &(true, true, 1));
    Ok(())
}

#[test]
fn a_viewer_reads_while_entries_are_published(rt: HostRuntime) -> Result<(), Fail> {
    let alloc = rt.alloc();
    let mut book = one_text(alloc)?;
    watched_beside(&rt, alloc, &mut book)?;
    check_eq(&rt, &book.journal().len(), &1);
    Ok(())
}
