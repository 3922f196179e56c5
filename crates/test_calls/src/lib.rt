//! Public calls of the crates below the book, each alone, on what a caller constructs.
//!
//! The crate has no function to call. Its tests are apart from the crates that they call, so that these are proved once, and not a second
//! time with their tests. What patterns are read as, the results of matches, and what a book accepts and refuses, is shown by the examples of
//! `test_examples`, which need no code.
//!
//! - `src/admission.rt`: names, and which definitions are admitted.
//! - `src/reading.rt`: the limits of what is written, and the parts of an object.
//! - `src/primitives.rt`: where primitives end.
//! - `src/evaluating.rt`: all that the plain evaluator assigns.
//! - `src/byte_texts.rt`: texts of bytes, and matches in them.
//! - `src/machine.rt`: one code on many texts, and the deepest references.
//! - `src/statements.rt`: what a statement is given.
//! - `src/printing.rt`: what each fault prints.
//! - `src/written.rt`: definitions, patterns and texts of what is written.
#![tactic(auto)]

#[cfg(test)]
mod admission;
#[cfg(test)]
mod byte_texts;
#[cfg(test)]
mod evaluating;
#[cfg(test)]
mod machine;
#[cfg(test)]
mod primitives;
#[cfg(test)]
mod printing;
#[cfg(test)]
mod reading;
#[cfg(test)]
mod statements;
#[cfg(test)]
mod written;
