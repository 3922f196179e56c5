//! The shared run of a document.
ghost use Rattle.std.specs.Prelude.{◌≡◌, ◌≤◌, [], length, map, IfOk, IfErr};
ghost use Rattle.std.specs.Arc.{arc_value};
ghost use Rattle.std.specs.List.{All};
ghost use Rattle.sno_book.specs.Views.{IsValid};
ghost use Rattle.sno_book.specs.Books.{view_of};
ghost use Rattle.sno_desk.specs.Replies.{IsReply};
ghost use Rattle.sno_desk.specs.Turns.{AreReplies};
ghost use Rattle.sno_desk.specs.declared.desk.TheConstants.{MAX_TRIES};
ghost use Rattle.sno_rewrite.specs.declared.options.TheConstants.{MAX_WORKERS};
ghost use Rattle.sno_rewrite.specs.Histories.{history_seen};
ghost use Rattle.sno_document.specs.Reads.{document_seen, IsReady};
ghost use Rattle.sno_rewrite.specs.Owners.{AreInTurn, IsAlone, IsReplyWithin};
ghost use Rattle.sno_rewrite.specs.Runs.{IsOwn};
ghost use Rattle.sno_rewrite.specs.Shared.{IsShared};

use crate::RunFault;
use crate::replies::{is_any_short, settle_replies};
use crate::serial::BookWithRefusals;
use sno_book::Book;
use sno_desk::{
    Blank, Desk, DeskFault, Naming, OpenGate, Reply, Seat, WorkersFault, close, run_workers,
};
use sno_document::Document;
use sno_statement::Statement;
use std::alloc::Global;
use std::marker::Brand;
use std::sync::{Arc, Wait};
use std::thread::Threads;

/// Puts the book of a document on a desk with this many seats.
fn open_desk<L: Naming, R: Wait>(
    rt: &R,
    alloc: Global,
    blank: Blank,
    book: Book,
    workers: usize,
) -> Result<(Desk<L>, Vec<Seat<L>>), RunFault>
    requires name { (blank.ledger.name ≡ L.name) × (blank.ledger.parts ≡ L.parts) }
    requires histories { (blank.history ≡ record { history = L.book; entries = [] }) × (blank.attempts.history ≡ L.tries) }
    requires opening { book.opening ≡ L.opening }
    requires one_each { blank.ledger.parts ≡ workers }
    requires few { (1 ≤ workers) × (workers ≤ MAX_WORKERS) }
    requires empty { book.journal ≡ [] }
    ensures opening { IfOk result (λ d. arc_value d.0.opening ≡ book.opening) }
    ensures count { IfOk result (λ d. length d.1.items ≡ workers) }
    ensures none { IfOk result (λ d. All (λ s. (s.accepted ≡ 0) × (s.seen ≡ [])) d.1.items) }
    ensures fault { IfErr result IsOwn }
{
    match Desk::new(rt, alloc, blank, book, workers) {
        Ok(made) => Ok(made),
        Err((DeskFault::Memory, _)) => Err(RunFault::Memory),
        Err((DeskFault::NoReader, _)) => Err(RunFault::NoReader),
    }
}

/// Lets all seats work on the statements, and then closes the desk.
fn work<L: Naming + Send + Sync, R: Threads + Wait + Sync>(
    rt: &R,
    alloc: Global,
    desk: Desk<L>,
    seats: Vec<Seat<L>>,
    statements: &[Arc<Statement>],
    tries: u32,
) -> Result<(Book, Vec<Reply>), RunFault>
    requires opening { arc_value desk.opening ≡ L.opening }
    requires all { length seats.items ≡ L.parts }
    requires few { (1 ≤ length seats.items) × (length seats.items ≤ MAX_WORKERS) }
    requires none { All (λ s. (s.accepted ≡ 0) × (s.seen ≡ [])) seats.items }
    requires tries { (1 ≤ tries) × (tries ≤ MAX_TRIES) }
    ensures opening { IfOk result (λ r. r.0.opening ≡ arc_value desk.opening) }
    ensures valid { IfOk result (λ r. IsValid (view_of r.0)) }
    ensures allowed { IfOk result (λ r. AreReplies (IsReply (λ _ _. ⊥) tries r.0.opening) (map arc_value statements.now) r.1.items) }
    ensures within { IfOk result (λ r. AreReplies (IsReplyWithin tries (view_of r.0)) (map arc_value statements.now) r.1.items) }
    ensures in_turn { IfOk result (λ r. AreInTurn (length seats.items) r.1.items) }
    ensures alone { IfOk result (λ r. length seats.items ≡ 1 → IsAlone tries (view_of r.0) (map arc_value statements.now) r.1.items) }
    ensures fault { IfErr result IsOwn }
{
    let mut seats = seats;
    let replies = match run_workers(rt, alloc, &desk, &mut seats, statements, tries, &OpenGate) {
        Ok(replies) => replies,
        Err(WorkersFault::Memory) => {
            desk.end(rt);
            return Err(RunFault::Memory);
        }
    };
    match close(rt, desk, seats) {
        Ok(book) => Ok((book, replies)),
        Err(_) if is_any_short(&replies) => Err(RunFault::Memory),
        Err(_) => Err(RunFault::Closing),
    }
}

/// Performs the statements of the document on its texts by this many workers.
#[tactic(auto, using(crate::proofs::ReplyLemmas::shares))]
fn perform_at_desk<L: Naming + Send + Sync, R: Threads + Wait + Sync>(
    rt: &R,
    alloc: Global,
    blank: Blank,
    document: Document,
    workers: usize,
    tries: u32,
) -> Result<BookWithRefusals, RunFault>
    requires name { (blank.ledger.name ≡ L.name) × (blank.ledger.parts ≡ L.parts) }
    requires histories { (blank.history ≡ record { history = L.book; entries = [] }) × (blank.attempts.history ≡ L.tries) }
    requires opening { document.book.opening ≡ L.opening }
    requires one_each { blank.ledger.parts ≡ workers }
    requires few { (1 ≤ workers) × (workers ≤ MAX_WORKERS) }
    requires tries { (1 ≤ tries) × (tries ≤ MAX_TRIES) }
    requires ready { IsReady document }
    ensures shared { IfOk result (λ p. IsShared workers tries (document_seen document) (history_seen p)) }
    ensures fault { IfErr result IsOwn }
{
    let (desk, seats) = open_desk::<L, R>(rt, alloc, blank, document.book, workers)?;
    let (book, replies) = work(rt, alloc, desk, seats, &document.statements, tries)?;
    let performed = settle_replies(alloc, book, &document.statements, &replies, tries)?;
    Ok(performed)
}

/// Performs the statements of the document on its texts by 1 to 16 workers with 1 to 1,000 tries each, and returns what
/// they did.
///
/// Refused:
///
/// - `NoReader` if there was no place for a seat's reader;
/// - `Memory`;
/// - `Stopped` if nothing more was shown to a seat;
/// - `Audit` if the replies and the journal don't agree;
/// - `Closing` if the desk does not close.
///
/// No legal run meets the last three.
pub(crate) fn perform_shared<R: Threads + Wait + Sync>(
    rt: &R,
    alloc: Global,
    document: Document,
    workers: u32,
    tries: u32,
) -> Result<BookWithRefusals, RunFault>
    requires few { (1 ≤ workers) × (workers ≤ MAX_WORKERS) }
    requires tries { (1 ≤ tries) × (tries ≤ MAX_TRIES) }
    requires ready { IsReady document }
    ensures shared { IfOk result (λ p. IsShared workers tries (document_seen document) (history_seen p)) }
    ensures fault { IfErr result IsOwn }
{
    let blank = Blank::new(u64::from(workers));
    perform_at_desk::<Brand, R>(rt, alloc, blank, document, workers as usize, tries)
}
