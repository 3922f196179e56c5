//! Patterns that are read once and sought in any number of texts.
//!
//! [`open`] reads a rule in a line, with the definitions that it may refer to, and returns a [`Seeker`], or the lines of the first
//! fault. [`Seeker::next`] seeks the pattern in a text from a cursor on, and keeps what it found. [`Seeker::assignment`] returns the
//! assignments of that search one by one, and [`Seeker::replaced`] what the statement makes of a text. [`Seeker::gather`] does many
//! searches that follow one another at once, and [`Seeker::take`] goes through them.
//!
//! What a search finds is by the definitions of `sno_pattern` and `sno_statement`; `specs/Assignments.antt` puts its assignments in
//! one list. `specs/Opening.antt` says what is opened: the only statement of some rows. Which rows a line spells is tested, not
//! proved, as in `sno_lines`.
//!
//! | File | What it holds |
//! |---|---|
//! | `seeker` | [`Seeker`] |
//! | `opening` | [`open`] and [`NoPattern`] |
#![tactic(auto)]

mod opening;
mod seeker;

pub use opening::{NoPattern, open};
pub use seeker::Seeker;
pub use sno_compiled::{CompiledStatement, Gathered};
pub use sno_pattern::{Assign, ByteText, Found, Hit, Name, What};
pub use sno_statement::{FileStatement, FileStatementFault, Rewritten};
