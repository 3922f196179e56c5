//! Lines with sums, in a store.
//!
//! A sealed line is a line with two further members at its end: `{..,"batch":[N,F,L],"sum":"0123456789abcdef"}`. N is its number from 1, and
//! F and L are those of the first and the last line that were written with it. The sum is over the sum of the line before it, and the line
//! up to its own sum (`specs/Seals.antt`). So a changed, lost, doubled or moved line is found by its sum, and lines that were cut off by
//! damage by their batch, which isn't the one that a crash has torn.
//!
//! | File | What it does |
//! |---|---|
//! | `faults` | why lines are refused |
//! | `numbers` | numbers as they are written, and sums |
//! | `seals` | one line is sealed, and its parts are found |
//! | `batches` | lines are sealed as one batch |
//! | `chain`, `reader`, `reading` | how far lines have come; one line, and all lines of a store, are read |
//! | `tails` | what comes after the lines |
//! | `sealed` | `Sealed`: a store of lines with sums |
//! | `fronts` | the bytes of a file are looked at without a store |
#![tactic(auto)]

mod batches;
mod chain;
mod faults;
mod fronts;
mod numbers;
mod reader;
mod reading;
mod sealed;
mod seals;
mod tails;

pub use faults::SealFault;
pub use fronts::{Front, undamaged};
pub use sealed::Sealed;
