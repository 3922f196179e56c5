//! A statement on a book.
ghost use Rattle.std.specs.Arc.{arc_value};
ghost use Rattle.sno_book.specs.Books.{view_of};
ghost use Rattle.sno_held_book.specs.Lines.{GivesAttempt, GivesTaken, IsDone, IsDoneAt};

use sno_book::{Book, SnapshotFault as BookFault};
use sno_desk::{
    CommitFault, Proposal, Receipt, Reply, Snapshot, SnapshotFault, Statement, SubmitFault,
    TextName, propose,
};
use sno_serve::AtFault;
use std::alloc::Global;
use std::sync::Arc;

/// A snapshot of the text of this name.
pub(crate) fn snapshot(book: &Book, name: &TextName) -> Result<Snapshot, SnapshotFault>
    ensures { GivesTaken result (view_of book.now) name.now }
{
    match book.snapshot(name) {
        Ok(taken) => Ok(taken),
        Err(BookFault::NoText) => Err(SnapshotFault::NoText),
        Err(BookFault::Memory) => Err(SnapshotFault::Memory),
    }
}

/// What a statement would do to the text of its name. The book is unchanged.
#[tactic(auto, using(crate::proofs::Performing::untaken, crate::proofs::Performing::unperformed, crate::proofs::Performing::unshared, crate::proofs::Performing::attempted))]
pub(crate) fn attempt(
    alloc: Global,
    book: &Book,
    statement: &Arc<Statement>,
) -> Result<Proposal, SubmitFault>
    ensures { GivesAttempt result (view_of book.now) (arc_value statement.now) }
{
    let taken = match snapshot(book, statement.text()) {
        Ok(taken) => taken,
        Err(fault) => return Err(SubmitFault::from(fault)),
    };
    let Ok(shared) = Arc::try_clone(statement) else {
        return Err(SubmitFault::Memory);
    };
    match propose(alloc, shared, taken) {
        Ok(proposal) => Ok(proposal),
        Err(fault) => Err(SubmitFault::from(fault)),
    }
}

/// Performs a statement on the text of its name, and accepts it.
#[tactic(auto, using(crate::proofs::Performing::accepted, crate::proofs::Performing::uncommitted, crate::proofs::Performing::related))]
pub(crate) fn submit(alloc: Global, book: &mut Book, statement: &Arc<Statement>) -> Reply
    ensures { IsDone (view_of book.old) (view_of book.new) (arc_value statement.now) result }
{
    let proposal = match attempt(alloc, book, statement) {
        Ok(proposal) => proposal,
        Err(fault) => return Err(fault),
    };
    match book.commit(proposal) {
        Ok(receipt) => Ok(receipt),
        Err((fault, _)) => Err(SubmitFault::from(CommitFault::from(fault))),
    }
}

/// Performs a statement if its text has this version, and accepts it.
#[tactic(auto, using(crate::proofs::Performing::untaken, crate::proofs::Performing::changed, crate::proofs::Performing::done_at))]
pub(crate) fn submit_at(
    alloc: Global,
    book: &mut Book,
    statement: &Arc<Statement>,
    version: u64,
) -> Result<Receipt, AtFault>
    ensures { IsDoneAt (view_of book.old) (view_of book.new) (arc_value statement.now) version result }
{
    let taken = match snapshot(book, statement.text()) {
        Ok(taken) => taken,
        Err(fault) => return Err(AtFault::Refused(SubmitFault::from(fault))),
    };
    let is_other = taken.version != version;
    if is_other {
        return Err(AtFault::Changed(taken.version));
    }
    match submit(alloc, book, statement) {
        Ok(receipt) => Ok(receipt),
        Err(fault) => Err(AtFault::Refused(fault)),
    }
}
