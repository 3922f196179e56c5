//! Statements whose patterns are compiled once and sought in any number of texts.
//!
//! [`sno_machine::Code`] borrows from the pattern of which it is compiled. A [`CompiledStatement`] owns a statement and such a code
//! together, with the memory that searches use one after the other. [`CompiledStatement::search`] and
//! [`CompiledStatement::gather`] seek its pattern in a text, and [`CompiledStatement::replaced`] returns what it makes of one. A
//! [`Loose`] is a box as its pointer, for those who keep values by their pointers too.
//!
//! What a search finds is by the definitions of `sno_pattern` and `sno_statement`. `specs/Gathered.antt` says what searches find
//! that follow one another. `specs/Owned.antt` says what a compiled statement owns: while a lifetime lasts, the statement is lent,
//! and what is compiled may borrow from it; when that is freed, the lifetime ends and the statement is whole again.
//!
//! | File | What it holds |
//! |---|---|
//! | `compiled` | [`CompiledStatement`] |
//! | `tied` | a statement and what borrows from it, by their addresses |
//! | `ready` | what is compiled, which borrows: its searches |
//! | `gathered` | [`Gathered`]: what searches that follow one another find |
//! | `loose` | a box as its pointer |
#![tactic(auto)]

mod compiled;
mod gathered;
mod loose;
mod ready;
mod tied;

pub use compiled::CompiledStatement;
pub use gathered::Gathered;
pub use loose::Loose;
