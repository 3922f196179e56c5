//! Runs over documents: their statements are performed, in order or by workers, and listed.
//!
//! `run_serial` takes the bytes of a document to its listing, and `run_shared` does so with workers. `run` does either
//! between a reader and a writer. `IsDocument` of `sno_document` says what bytes represent, or which fault of them is
//! the first. What the statements do is said by `serial` of `specs/Serial.antt`, and with workers by `IsShared` of
//! `specs/Shared.antt`. The lines and the JSON are those of `listing_by` of `sno_listing`.
//!
//! | File | What it does |
//! |---|---|
//! | `options`, `command_line` | `Options`; `options_of` the command-line arguments |
//! | `faults` | `RunFault`, with the line of each, and `status_of` |
//! | `serial` | the statements performed in order on a book, each by snapshot, proposal and commit |
//! | `owners`, `replies` | the replies of workers: to which entries they belong, and which refusals they become |
//! | `shared` | the statements performed by workers at a desk |
//! | `streams`, `runs` | bytes in and out; `Report`, `run_serial`, `run_shared` and `run` |
//! | `program` | `run_program`, from the arguments and the streams of the program to its status |
//! | `laws` | what follows from the definitions |
//!
//! The program `sno` has its arguments, its help and its output by the same functions: `flag`, `numeric`, `numeric_or`,
//! `fault_of_error`, `words_after_name`, `explain` and `write_all`.
//!
//! `Mode` and `DocumentFault` are those of `sno_document`, `Reason` and `Refusal` those of `sno_listing`, `Name` that of
//! `sno_pattern`, `ReadFault` that of `sno_read`, `MAX_TRIES` that of `sno_desk` and `MAX_TRIALS` that of
//! `sno_statement`.
#![tactic(auto)]

mod command_line;
mod faults;
mod laws;
mod options;
mod owners;
mod program;
mod replies;
mod runs;
mod serial;
mod shared;
mod streams;

pub use command_line::{OptionsFault, fault_of_error, flag, numeric, numeric_or, options_of};
pub use faults::{RunFault, status_of};
pub use laws::each_document_has_a_serial_run;
pub use options::{MAX_WORKERS, Options};
pub use program::{explain, run_program, words_after_name};
pub use runs::{Report, run, run_serial, run_shared};
pub use serial::{BookWithRefusals, perform_serial};
pub use sno_desk::MAX_TRIES;
pub use sno_document::{DocumentFault, Mode};
pub use sno_listing::{Reason, Refusal};
pub use sno_pattern::Name;
pub use sno_read::ReadFault;
pub use sno_statement::MAX_TRIALS;
pub use streams::write_all;
