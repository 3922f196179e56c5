//! The desk: a book under one lock, at which many threads work at once. Its texts are read without the lock.
//!
//! A [`Desk`] holds a [`Book`], its texts and its journal, under a lock. It publishes each accepted entry, so that
//! texts are read without the lock. Each caller that wants to change a text has a [`Seat`] and does three things: take
//! a snapshot of the text, perform a statement on that snapshot, and commit the result. Only the commit takes the lock.
//! It is accepted only if the text still has the snapshot's version; otherwise the three things are done again.
//! [`Desk::submit`] does all this for one statement, and [`run_workers`] for many, with a thread for each seat.
//! [`close`] takes the desk and all its seats, and returns the book.
//!
//! # What is promised, and which call says it
//!
//! - **Entries and counts agree.** What is under the lock (`src/locked.rt`) keeps by its type that the journal is as
//!   long as the total of a ledger. Each seat (`src/seats.rt`) keeps that its share of that ledger is the number that
//!   [`Seat::accepted`] returns. A share rises only together with the total. So the book that [`close`]
//!   (`src/desk.rt`) returns has exactly as many entries as its seats have accepted.
//! - **The book is valid whenever the lock is free.** By its type each entry of its journal is a step from the texts as
//!   the entries before it leave them, and its texts are the replay of the journal. What is shown is the journal, even
//!   if the desk is stopped. [`close`] returns the book with the opening that the desk began with.
//! - **Readers don't wait.** [`Seat::snapshot`] (`src/seats.rt`, `specs/Seen.antt`) takes no handle that may wait. It
//!   returns the text as the entries that the seat has then seen leave it. What a seat has seen only grows: it is the
//!   seat's view. [`Seat::snapshots`] returns several texts after one view.
//! - **A receipt is for what was passed.** [`Desk::commit`] (`src/desk.rt`, `specs/Receipts.antt`) returns the
//!   proposal's entry, which is at the receipt's index in the seat's view, and the text that the proposal was made for.
//!   A refused proposal comes back as it was. Each refusal except `Stopped` is the one that the book's own rule gives
//!   after the seat's view. `Memory` comes only if the rule gives no refusal.
//! - **[`Desk::submit`]** (`src/submissions.rt`, `specs/Replies.antt`): a receipt's entry has the statement. By the
//!   receipt's type its outcome is what the statement does to the receipt's text. The refusals have these causes:
//!   - `NoText` comes exactly if the opening has no text of that name.
//!   - `TriesSpent` comes only if the text's version has risen at least once for each try. It names a
//!     version that the text had on the way.
//!   - `TextTooLong` and `TooManyTrials` come only if performing the statement on the text gets this refusal, and
//!     `Full` and `TriesSpent` only if performing it is not refused.
//!   - `GateShut` comes only if the gate may be shut for the statement's number at one of its attempts. A [`Gate`]
//!     (`src/gates.rt`) says by its ghost member when that is, and for [`OpenGate`] it never is.
//! - **[`run_workers`]** (`src/workers.rt`, `src/reply_queues.rt`, `specs/Turns.antt`): there are as many replies as jobs,
//!   in the order of the jobs. Each is a result of `submit` for its job. Those of one seat are the results of its
//!   submits one after the other, with all that a submit promises, so the indexes of its receipts rise. Each share
//!   rises by the number of receipts among its seat's replies, and all shares together by the number of all receipts.
//!
//! The lemmas:
//!
//! - `proofs/Turns.antt` is about dealing out jobs and putting replies in order.
//! - `proofs/Causes.antt` is about what a book's refusal says of the proposal.
//! - `proofs/Viewings.antt` is about what is seen. It uses `sno_book`'s `proofs/Standing.antt`: which texts there are
//!   after it.
//! - `proofs/Attempts.antt` is about one try after the other.
//! - `proofs/OpeningLemmas.antt` compares openings.
//! - `proofs/Crossings.antt` shows which types may go to another thread.
//!
//! # How to begin
//!
//! Write a type with the trait [`DeskWork`], whose `work` is what each seat does, and call [`at_desk`]
//! (`src/desk_work.rt`, `specs/Worked.antt`) with a book. It opens the desk, lets each seat work in a thread of its own,
//! and closes the desk.
//!
//! For threads of another kind, make a [`Blank`] with as many parts as you want seats, and do all the work in one
//! function that is generic over `L: Naming`: the desk's type has the names of its ledger, its histories and its opening.
//! The function requires that `L` names the blank and the book, and has no `L` in its result. Call it with `Brand`
//! for `L`. A desk isn't dropped: [`close`] it, or end it by [`Desk::end`].
//!
//! # What is not promised
//!
//! - That a call with `rt` returns: it may wait for the lock for ever. No lock is held at a gate, while a text is read
//!   or while a statement is performed. No call takes a second lock while it holds one. Tests show that two statements
//!   overlap.
//! - That a snapshot is the newest, or that nothing is refused as `Stopped` without cause. With ample memory no legal
//!   run meets `Stopped`.
//! - How many tries are made beyond the versions that `TriesSpent` names, and which of the versions that a text had on
//!   the way the last try saw. What the gate is passed isn't promised either. Tests show these.
//! - Which seat made an entry: that isn't kept.
//! - That there is enough memory.
#![tactic(auto)]

mod blanks;
mod desk;
mod desk_work;
mod faults;
mod gates;
mod locked;
mod openings;
mod reply_queues;
mod seats;
mod submissions;
mod workers;

pub use blanks::Blank;
pub use desk::{Desk, MAX_SEATS, MAX_TRIES, close};
pub use desk_work::{DeskWork, at_desk};
pub use faults::{
    AtDeskFault, CloseFault, CommitFault, DeskFault, LookFault, SinceFault, SnapshotFault,
    SubmitFault, WorkersFault,
};
pub use gates::{Gate, OpenGate};
pub use seats::{Reply, Seat};
pub use sno_book::{Book, Entry, Opening, Proposal, Receipt, Snapshot, propose};
pub use sno_pattern::{Text, TextName};
pub use sno_published::Naming;
pub use sno_statement::{Outcome, Statement, StatementFault};
pub use workers::{may_cross, run_workers};
