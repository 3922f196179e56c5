//! The trace of one match of a statement: of a match, of a round, or of a search of a pass.
//!
//! [`trace_of_document`] shows a statement of a document on the text that those before it leave, and [`trace_on_text`] a statement
//! on a text from elsewhere: the match with a number, or the first match at some cursors. Which search of a pass and which round a
//! number asks for is proved (`specs/Searches.antt`, `specs/Rounds.antt`). What is shown of a search is said by `sno_trace`. That the
//! statements before it are performed is tested.
//!
//! | File | What it does |
//! |---|---|
//! | `traces` | the statement with a number, and the text that those before it leave |
//! | `trace_lines` | the lines of a match, of a round, or of a search of a pass |
//! | `searches`, `rounds` | the search of a pass, or the round of a repeated statement, that a number asks for |
//! | `faults` | `NoTrace`: why no trace is shown |
#![tactic(auto)]

mod faults;
mod rounds;
mod searches;
mod trace_lines;
mod traces;

pub use faults::NoTrace;
pub use trace_lines::TraceLines;
pub use traces::{Between, Wanted, take_statement, trace_of_document, trace_on_text};
