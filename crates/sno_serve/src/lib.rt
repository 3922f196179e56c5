//! A desk that is served over streams: a JSON value a line, and a JSON object a line in reply.
//!
//! [`line_in`] reads one line, [`reply_to`] returns its reply, and [`serve`] reads lines until there are no more and writes the replies. What a
//! line asks for is said by `asked_in` of `specs/Asked.antt`, and the replies by `specs/Replies.antt`.
//!
//! | File | What it does |
//! |---|---|
//! | `asked`, `asked_statements` | what a line asks for |
//! | `plain_lines` | lines that are a statement and nothing else |
//! | `binds` | the texts that names represent in one statement |
//! | `replies` | the JSON of each reply |
//! | `reply_lines` | replies as lines |
//! | `content`, `listed` | what a reply says, which is written without a value; entries that are listed in part |
//! | `at_seat` | a line with its reply, at a seat |
//! | `at_desk` | what a call at a desk takes |
//! | `at_version` | a statement that is accepted only at one version of its text |
//! | `versions` | texts at one moment, and as they were at a version; a statement that is only tried |
//! | `excerpt` | which entries a line asks for |
//! | `findings` | what is found in a statement that is only tried |
//! | `ignored` | members of a line that mean nothing there |
//! | `intake`, `outlet` | lines of a reader; lines to a writer, and what was refused |
//! | `service` | seats that take lines until there are no more |
//! | `faults` | why a service ended early, and why a line can't be read |
#![tactic(auto)]

mod asked;
mod asked_statements;
mod at_desk;
mod at_seat;
mod at_version;
mod binds;
mod content;
mod excerpt;
mod faults;
mod findings;
mod ignored;
mod intake;
mod listed;
mod outlet;
mod plain_lines;
mod replies;
mod reply_lines;
mod service;
mod versions;

pub use asked::{Asked, Line, line_in};
pub use at_desk::AtDesk;
pub use at_seat::{Replied, at_refusal, capped, refusal_in, reply_to, submit};
pub use at_version::AtFault;
pub use content::{Content, Id};
pub use excerpt::Excerpt;
pub use faults::{BindFault, LineFault, ServeFault};
pub use ignored::with_ignored;
pub use intake::{Intake, MAX_LINE, Next};
pub use listed::Listed;
pub use outlet::MAX_REFUSED;
pub use replies::{
    at_reply, entries_reply, fault_reply, look_reason, read_at_reply, read_reply, row_value,
    rows_reply, submit_reply, too_long_reply,
};
pub use reply_lines::{line_of, line_with};
pub use service::{Served, Terms, serve};
pub use sno_desk::{Desk, Entry, Naming, Seat};
pub use sno_document::{Document, Mode, Rules};
pub use sno_listing::{Reason, Refusal};
pub use versions::{text_at, tried_reply};
