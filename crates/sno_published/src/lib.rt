//! What a desk publishes: the texts as all entries so far leave them. Readers see them without a lock and without
//! waiting.
//!
//! A [`Screen`] shows a [`Table`] of texts. The owner of the screen publishes one entry after the other. Each entry is
//! shown at once with all that it changes. A [`Viewer`] reads the table in any thread. It takes no lock and waits for
//! nobody, and what it sees never goes back. The entries after which it sees the texts begin with all entries that it
//! has seen before or was shown.
//!
//! # How it is kept
//!
//! There are two copies of the table (the crate `left_right`). Readers see one; the writer changes the other one and
//! then exchanges them. A [`History`] (the crate `logbook`) keeps that what is seen only grows. It is a list of entries
//! that exists in proofs alone: the program keeps its length. A [`Front`] is a beginning of a history that was seen. Of
//! two fronts of one history the shorter begins the longer. Each copy of the table and each viewer has a front.
//!
//! An entry goes into the writer's log before it goes into the history. The log may need memory, and a refusal must
//! change nothing. So an [`Operation`] in the log has no front with its entry yet. The copy that takes it in first adds
//! the entry to the history, and keeps the front. The other copy takes the front from there. That it belongs to the same
//! entry is known by a second history, that of the attempts: both have the front that ends in this attempt.
//!
//! By its type, `L` ([`Naming`]), all that belongs to one desk agrees on both histories and on the opening.
//!
//! # What is promised, and which call says it
//!
//! - **What is shown is legal and is a replay.** By its type the entries of a [`Table`] (`src/tables.rt`,
//!   `specs/StoredTexts.antt`) are legal from the opening, and its texts and versions are what these entries leave.
//!   [`Table::text`] and [`Viewer::text`] return exactly these.
//! - **A publish is one step, and a refusal changes nothing.** [`Screen::publish`] (`src/screens.rt`): on `Ok`
//!   the entry is shown after those that were shown. After each refusal readers see what they saw. After `Memory` more
//!   can be published, as before.
//! - **A view never goes back.** By the rule over the two copies (`src/view_rule.rt`, `specs/ViewRule.antt`), what each
//!   reader has seen begins what is shown. On `Ok` [`Viewer::enter`] and [`Viewer::text`] (`src/viewers.rt`,
//!   `specs/Viewings.antt`) leave a view that is what is shown, and that begins with the old one. [`Viewer::learn`]
//!   lets a viewer learn what a table shows. [`Viewer::is_level`] returns whether it has seen just that, and
//!   [`Viewer::is_within`] whether all that it has seen is shown there.
//! - **`Older` and `Memory` have their causes.** `Older` comes only to a viewer that was shown more than it had
//!   found shown itself. `Memory` comes only after what is shown was seen. For `Ended` no cause is promised.
//!
//! # How to begin
//!
//! Make two histories. Do all the work in one function that is generic over `L: Naming`, takes them and the opening,
//! and requires that `L` names these. Call it with `Brand` for `L`. `test_desk` has such functions
//! (`src/viewers.rt`).
//!
//! # What is not promised
//!
//! - That there is enough memory.
//! - That a publish returns: it waits for readers that still read what was shown before the last entry.
//! - That no call is refused as `Ended`, `Older` or `Stopped`. Tests of `test_desk` run one viewer after one
//!   writer and alongside it.
#![tactic(auto)]

mod faults;
mod fronts;
mod histories;
mod naming;
mod operations;
mod rule;
mod screens;
mod snapshots;
mod stored_texts;
mod tables;
mod view_rule;
mod viewers;

pub use faults::{PublishFault, ViewFault};
pub use fronts::Front;
pub use histories::History;
pub use naming::Naming;
pub use operations::Operation;
pub use screens::Screen;
pub use sno_book::{Entry, Opening};
pub use sno_pattern::Text;
pub use tables::Table;
pub use view_rule::{FullView, SeenEntries, ViewRule};
pub use viewers::Viewer;
