//! A book that one caller holds: a line of JSON at a time, and a JSON object in reply.
//!
//! [`HeldBook::open`] performs the statements of a document, [`HeldBook::reply`] does what a line asks for, and
//! [`HeldBook::listing`] has the book's listing. The lines and the replies are those of `sno_serve`, whose definitions say what a
//! line asks for and how a reply is made. Nothing waits here: a caller alone needs no lock, no seat and no second try.
//!
//! What a line does to the book, and which reply it gets, is said by `specs/Lines.antt`.
//!
//! | File | What it does |
//! |---|---|
//! | `held_book` | [`HeldBook`]: the book, what its lines are read by, and what the listing has |
//! | `calls` | [`HeldBook::open`], [`HeldBook::reply`], [`HeldBook::listing`] |
//! | `lines` | [`reply_to`]: what a line asks for, with its reply |
//! | `attempts` | a statement on a book: tried, performed, performed at one version of its text |
//! | `reads` | texts, a text as it was at a version, entries |
#![tactic(auto)]

mod attempts;
mod calls;
mod held_book;
mod lines;
mod reads;

pub use held_book::HeldBook;
pub use lines::reply_to;
pub use sno_document::{DocumentFault, Mode};
pub use sno_serve::{MAX_LINE, Replied};
