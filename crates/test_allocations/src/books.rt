//! Performing, proposing, and committing to a book.
ghost use Rattle.std.specs.Prelude.{IfErr};
ghost use Rattle.sno_book.specs.Books.{view_of};
ghost use Rattle.sno_book.specs.Views.{IsPrefix};

use crate::call_ends::{CallEnd, check_bytes, check_eq, tell, tell_both, tell_ready, tell_twice};
use crate::jobs::{
    book, check_book, check_exchange, check_performed, exchange, exchange_all, exchange_twice,
    proposed, rows,
};
use sno_book::{
    Book, BookFault, CommitFault, Proposal, Snapshot, StatementFault, Text, TextName, propose,
};
use sno_statement::{ByteText, FileStatement, FileStatementFault, Statement, perform, rewrite};
use std::alloc::Global;
use std::process::Abort;
use std::sync::Arc;
use std::test::Fail;

const BEFORE: &[u8] = b"k=v";

const AFTER: &[u8] = b"v=k";

fn open(rt: &impl Abort, alloc: Global, texts: Vec<(TextName, Text)>) -> CallEnd {
    match Book::new(alloc, texts, 1_000_000) {
        Ok(book) => {
            check_book(rt, &book, BEFORE, 0, 0);
            CallEnd::Given
        }
        Err(fault) => {
            check_eq(rt, &fault, &BookFault::Memory);
            CallEnd::Refused
        }
    }
}

fn open_twice(
    rt: &impl Abort,
    alloc: Global,
    first: Vec<(TextName, Text)>,
    second: Vec<(TextName, Text)>,
) -> (CallEnd, CallEnd) {
    (open(rt, alloc, first), open(rt, alloc, second))
}

#[test]
fn a_book(rt: HostRuntime) -> Result<(), Fail> {
    let alloc = rt.alloc();
    let first = rows(alloc, &[("T", "k=v")])?;
    let second = rows(alloc, &[("T", "k=v")])?;
    tell_ready(&rt)?;
    tell_both(&rt, open_twice(&rt, alloc, first, second))
}

fn perform_once(rt: &impl Abort, alloc: Global, statement: &Statement, text: &Text) -> CallEnd {
    match perform(alloc, statement, text) {
        Ok(outcome) => {
            check_performed(rt, statement, &outcome);
            CallEnd::Given
        }
        Err(fault) => {
            check_eq(rt, &fault, &StatementFault::Memory);
            CallEnd::Refused
        }
    }
}

fn perform_twice(
    rt: &(impl Abort + Print),
    alloc: Global,
    statement: &Statement,
    characters: &[u8],
) -> Result<(), Fail> {
    let text = Text::new(Vec::from_slice(alloc, characters)?)?;
    tell_twice(rt, || perform_once(rt, alloc, statement, &text))
}

#[test]
fn a_statement_is_performed(rt: HostRuntime) -> Result<(), Fail> {
    let statement = exchange(&rt, rt.alloc())?;
    perform_twice(&rt, rt.alloc(), &statement, BEFORE)
}

#[test]
fn a_statement_for_all_matches_is_performed(rt: HostRuntime) -> Result<(), Fail> {
    let statement = exchange_all(&rt, rt.alloc())?;
    perform_twice(&rt, rt.alloc(), &statement, b"k=v;m=n;")
}

/// Two matches, which leave this text.
fn rewrite_once(
    rt: &impl Abort,
    alloc: Global,
    statement: &FileStatement,
    text: &ByteText,
    left: &[u8],
) -> CallEnd {
    match rewrite(alloc, statement, text, 1_000) {
        Ok(rewritten) => {
            check_eq(rt, &rewritten.matches, &2);
            let after = rewritten.after.as_ref().expect(rt, "there is a new text");
            check_bytes(rt, after.bytes(), left);
            CallEnd::Given
        }
        Err(fault) => {
            check_eq(rt, &fault, &FileStatementFault::Memory);
            CallEnd::Refused
        }
    }
}

fn rewrite_twice(
    rt: &(impl Abort + Print),
    alloc: Global,
    statement: &FileStatement,
    bytes: &[u8],
    left: &[u8],
) -> Result<(), Fail> {
    let text = ByteText::new(Vec::from_slice(alloc, bytes)?)?;
    tell_twice(rt, || rewrite_once(rt, alloc, statement, &text, left))
}

#[test]
fn a_text_is_rewritten(rt: HostRuntime) -> Result<(), Fail> {
    let alloc = rt.alloc();
    let statement = FileStatement::of(alloc, exchange_all(&rt, alloc)?)?;
    rewrite_twice(&rt, alloc, &statement, b"k=v;m=n;", b"v=k;n=m;")
}

#[test]
fn a_text_is_rewritten_in_rounds(rt: HostRuntime) -> Result<(), Fail> {
    let alloc = rt.alloc();
    let statement = FileStatement::of(alloc, exchange_twice(&rt, alloc)?)?;
    rewrite_twice(&rt, alloc, &statement, BEFORE, BEFORE)
}

/// A share of a statement, and one of its text.
#[derive(Drop)]
struct Task {
    statement: Arc<Statement>,
    snapshot: Snapshot,
}

fn share(book: &Book, statement: &Arc<Statement>) -> Result<Task, Fail> {
    Ok(Task {
        statement: Arc::try_clone(statement)?,
        snapshot: book.snapshot(statement.text())?,
    })
}

/// Two tasks, of one statement and one text.
fn tasks(rt: &impl Abort, alloc: Global) -> Result<(Task, Task), Fail> {
    let statement = exchange(rt, alloc)?;
    let book = book(alloc, &[("T", "k=v")])?;
    let first = share(&book, &statement)?;
    Ok((first, share(&book, &statement)?))
}

fn propose_once(rt: &impl Abort, alloc: Global, task: Task) -> CallEnd {
    let Task {
        statement,
        snapshot,
    } = task;
    match propose(alloc, statement, snapshot) {
        Ok(proposal) => {
            check_exchange(rt, proposal.outcome());
            check_eq(rt, &(proposal.place(), proposal.version()), &(0, 0));
            CallEnd::Given
        }
        Err(fault) => {
            check_eq(rt, &fault, &StatementFault::Memory);
            CallEnd::Refused
        }
    }
}

/// The caller's own statement is unchanged, so the call can be made again.
#[test]
fn a_statement_is_proposed(rt: HostRuntime) -> Result<(), Fail> {
    let alloc = rt.alloc();
    let (first, second) = tasks(&rt, alloc)?;
    tell_ready(&rt)?;
    tell(&rt, propose_once(&rt, alloc, first))?;
    tell(&rt, propose_once(&rt, alloc, second))
}

/// Prepares the proposal, and takes it back. The book is as it was, whatever comes back.
#[tactic(auto, using(sno_book::proofs::Kinship::is_related, sno_book::proofs::Kinship::held, sno_book::proofs::Kinship::still))]
fn prepare(rt: &impl Abort, book: &mut Book, proposal: Proposal) -> (CallEnd, Proposal)
    requires { IsPrefix proposal.origin (view_of book.old) }
    ensures { IsPrefix result.1.origin (view_of book.new) }
{
    match book.prepare(proposal) {
        Ok(ready) => {
            assert!(rt; book.has_spare());
            check_book(rt, book, BEFORE, 0, 0);
            (CallEnd::Given, ready.back())
        }
        Err((fault, back)) => {
            check_eq(rt, &fault, &CommitFault::Memory);
            check_book(rt, book, BEFORE, 0, 0);
            (CallEnd::Refused, back)
        }
    }
}

/// Prepares the proposal, and once more what came back.
fn prepare_twice(rt: &impl Abort, mut book: Book, proposal: Proposal) -> (CallEnd, CallEnd)
    requires { IsPrefix proposal.origin (view_of book) }
{
    let (first, back) = prepare(rt, &mut book, proposal);
    check_exchange(rt, back.outcome());
    let (second, back) = prepare(rt, &mut book, back);
    check_exchange(rt, back.outcome());
    (first, second)
}

#[test]
fn a_commit_is_prepared(rt: HostRuntime) -> Result<(), Fail> {
    let (book, proposal) = proposed(&rt, rt.alloc())?;
    tell_ready(&rt)?;
    tell_both(&rt, prepare_twice(&rt, book, proposal))
}

/// Commits the proposal; where memory is refused the book is as it was, and the proposal comes back.
#[tactic(auto, using(sno_book::proofs::Kinship::is_related, sno_book::proofs::Kinship::still))]
fn commit(rt: &impl Abort, book: &mut Book, proposal: Proposal) -> Result<(), Proposal>
    requires { IsPrefix proposal.origin (view_of book.old) }
    ensures { IfErr result (λ p. IsPrefix p.origin (view_of book.new)) }
{
    match book.commit(proposal) {
        Ok(receipt) => {
            check_eq(rt, &receipt.index, &0);
            check_book(rt, book, AFTER, 1, 1);
            Ok(())
        }
        Err((fault, back)) => {
            check_eq(rt, &fault, &CommitFault::Memory);
            check_book(rt, book, BEFORE, 0, 0);
            check_exchange(rt, back.outcome());
            Err(back)
        }
    }
}

/// Commits the proposal. Where it comes back it is committed once more, after the first end was written.
fn commit_again(
    rt: &(impl Abort + Print),
    mut book: Book,
    proposal: Proposal,
) -> Result<CallEnd, Fail>
    requires { IsPrefix proposal.origin (view_of book) }
{
    let Err(back) = commit(rt, &mut book, proposal) else {
        return Ok(CallEnd::Given);
    };
    tell(rt, CallEnd::Refused)?;
    Ok(match commit(rt, &mut book, back) {
        Ok(()) => CallEnd::Given,
        Err(_) => CallEnd::Refused,
    })
}

#[test]
fn a_proposal_is_committed(rt: HostRuntime) -> Result<(), Fail> {
    let (book, proposal) = proposed(&rt, rt.alloc())?;
    tell_ready(&rt)?;
    tell(&rt, commit_again(&rt, book, proposal)?)
}
