//! The book: named texts with versions, and a journal of the statements that were accepted on them.
//!
//! A [`Book`] begins with texts at version 0 and an empty journal. A [`Snapshot`] shares a text as it is when the
//! snapshot is taken. [`propose`] performs a statement on a snapshot and makes a [`Proposal`]. It takes no lock, and
//! the book needn't be at hand. [`Book::commit`] accepts the proposal only if the text still has the snapshot's
//! version. It then appends one [`Entry`] to the journal. If the statement replaced something, it puts the new text in
//! place and raises that text's version by one. A [`Receipt`] says at which index of the journal the entry is.
//! [`Book::prepare`] and [`Book::finish`] are the two halves of a commit: all that can be refused, and then the step.
//!
//! # What is promised, and which call says it
//!
//! - **Each entry is a step.** By its type a book's journal is `Legal` from its opening (`specs/Journals.antt`). Among
//!   the texts that the earlier entries leave, the text of an entry's statement has the entry's version. The entry's
//!   outcome is what the statement does to that text. The texts and versions are the `replay` of the journal.
//!   [`Book::journal`] and [`Book::text`] say so.
//! - **A commit is one step, and a refusal changes nothing** (`Book::commit`, `specs/Commits.antt`). `accepted`: the
//!   proposal's entry is appended, it has a step from the texts as they were, and the texts are what the step leaves.
//!   `refused`: which refusal comes is exact, the book is what it was, and the same proposal comes back. `Memory` is
//!   returned only if no other refusal holds.
//! - **A prepared commit isn't refused** (`Book::prepare`, `Book::finish`). A [`Ready`] holds every share that the
//!   commit needs, and the book keeps memory for its entry. So `finish` has no refusal and takes no memory. `prepare`
//!   changes only the memory that the book keeps.
//! - **The version decides.** A [`Snapshot`] and a [`Proposal`] keep the view from which they come, an opening with the
//!   entries that followed it, without bytes ([`Origin`]). A commit requires that the proposal's view begins the book's
//!   view, or the other way round (`AreRelated`, `specs/Views.antt`). If a text has one version after both, it has the same
//!   characters ([`related_agree`]), so no characters are compared.
//! - **Nothing is made up.** By its type a [`Proposal`]'s outcome is what its statement does to the text at its place
//!   after its view. The outcome of a [`Receipt`]'s entry is what the statement does to the receipt's text.
//! - **Receipts can be audited.** [`Book::audit`] compares entries by value, wherever they lie in memory.
//! - **Laws**: [`versions_only_rise`], [`versions_only_rise_in_place`], [`related_agree`], [`versions_count_entries`],
//!   [`fresh_is_free`], [`fresh_is_related`] (`specs/Laws.antt`).
//!
//! What each file has:
//!
//! - `src/books.rt`: [`Book`] and its calls. `src/start.rt`: how it begins. `src/audits.rt`: the audit.
//! - `src/openings.rt`: [`Opening`], the texts and the room that a book was given.
//! - `src/origins.rt`: [`Origin`], a view that is kept without bytes.
//! - `src/snapshots.rt`, `src/proposals.rt`, `src/entries.rt`: [`Snapshot`], [`Proposal`], [`Entry`] and [`Receipt`].
//! - `src/ready.rt`: [`Ready`], what a commit needs, made before it changes anything. `src/versioned_texts.rt`: the texts at their places.
//! - `src/same_patterns.rt`, `src/same_statements.rt`, `src/same_outcomes.rt`: equality by value.
//! - `src/faults.rt`: the refusals. `src/laws.rt`: the laws.
//!
//! # What is not promised
//!
//! That there is enough memory. A commit costs a look-up of one name and a push. Neither the number of texts nor the
//! journal's length matters; the benchmark shows that, and no clause says it. Nothing is shared between threads here.
#![tactic(auto)]

mod audits;
mod books;
mod entries;
mod faults;
mod laws;
mod openings;
mod origins;
mod proposals;
mod ready;
mod same_outcomes;
mod same_patterns;
mod same_statements;
mod snapshots;
mod start;
mod versioned_texts;

pub use books::Book;
pub use entries::{Entry, Receipt};
pub use faults::{BookFault, CommitFault, SnapshotFault};
pub use laws::{
    fresh_is_free, fresh_is_related, related_agree, versions_count_entries, versions_only_rise,
    versions_only_rise_in_place,
};
pub use openings::{MAX_ENTRIES, MAX_TEXTS, Opening};
pub use origins::{Origin, ViewSource};
pub use proposals::{Proposal, propose};
pub use ready::Ready;
pub use snapshots::Snapshot;
pub use sno_pattern::{Text, TextName};
pub use sno_statement::{Outcome, Statement, StatementFault};
