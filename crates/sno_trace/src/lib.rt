//! What happens in a match, step by step.
//!
//! [`trace`] lists the events of a match with notes: of each trial the leaf, the cursor at which it is tried, and where it ends. Marks
//! between them say where definitions are entered and left, and which rounds of `ARBNO` are dropped. The contract of `trace` says that
//! the list is the definition's, up to a limit of trials.
//!
//! # What is promised, and where
//!
//! - `specs/Noted.antt` has the definitions of `sno_pattern` once more, with notes on the events, and marks. [`notes_come_off`]: without
//!   these they are `results`. `specs/Examples.antt` has rows that are worked out.
//! - [`notes_are_honest`]: a trial ends at an end that its leaf has at its cursor, in their order; it fails only if there is none.
//! - [`what_is_shown_is_the_match`]: if the trials of the match fit into the limit, what is shown is the match up to the event that ends
//!   it, with its outcome and its trials.
//! - [`what_is_shown_begins_the_match`], [`a_limit_is_used_up`]: if they don't fit, what is shown is a front of the match, with as many
//!   trials as the limit.
//!
//! The clauses of [`trace`] are these promises of its result. [`trace_from`] is the trace of a search from a cursor on, with the same
//! promises by the definitions from that cursor on; `trace` is one from cursor 0. [`MatchTrace::up_to`] keeps what is shown of the
//! first starts.
//!
//! # What is not promised
//!
//! What [`lines_of`], [`pattern_text`] and [`page_of`] write is tested, not proved. No clause says how much memory and stack a trace takes. `TooDeep` is
//! pinned one way: it comes only if parts, rounds and references nest deeper than [`MAX_DEPTH`].
//!
//! | File | What it holds |
//! |---|---|
//! | `events` | the noted events, and marks |
//! | `faults` | why a match has no trace, and the greatest depth |
//! | `lists` | lists of them: cut, counted, changed by assignments |
//! | `leaves` | what a leaf does |
//! | `walking` | what a pattern does from a cursor |
//! | `scanning` | the starts, one after the other |
//! | `tracing` | `trace`, `trace_from` |
//! | `laws` | laws, each the contract of a function that does nothing |
//! | `spelling`, `lines`, `pages` | patterns as they are written; a trace in lines, how many may be asked for, and a page of HTML |
#![tactic(auto)]

mod events;
mod faults;
mod laws;
mod leaves;
mod lines;
mod lists;
mod pages;
mod scanning;
mod spelling;
mod tracing;
mod walking;

pub use events::{Landmark, Leaf, Marked, Noted, Trial};
pub use faults::{MAX_DEPTH, TraceFault};
pub use laws::{
    a_limit_is_used_up, notes_are_honest, notes_come_off, what_is_shown_begins_the_match,
    what_is_shown_is_the_match,
};
pub use lines::{MAX_LINES, USUAL_LINES, lines_of};
pub use pages::page_of;
pub use scanning::Search;
pub use spelling::pattern_text;
pub use tracing::{MatchTrace, trace, trace_from};
