//! A store of lines: a file that keeps whole lines through crashes.
//!
//! A file holds lines and then zeros (`specs/Lines.antt`). A line begins with `{`, has neither a line feed nor a NUL, and ends with a
//! line feed. The zeros are on the disk before lines are written over them. So a batch that a crash cuts leaves the first of its
//! lines, and needs no sum and one wait for the disk.
//!
//! | File | What it does |
//! |---|---|
//! | `faults` | why a store or its lines refuse |
//! | `lines` | `Lines`: whole lines in memory |
//! | `splitting` | the first line of some bytes, and where their whole lines end |
//! | `disk_calls` | a whole file is read; bytes are written and waited for |
//! | `store` | `Store`: lines on a disk |
//! | `files` | `open`: a store in a file of the system |
#![tactic(auto)]

mod content;
mod disk_calls;
mod faults;
mod files;
mod lines;
mod splitting;
mod store;

pub use faults::{LineFault, OpenFault, StoreFault};
pub use files::{open, open_from};
pub use lines::{Lines, LinesIter};
pub use sqlite_disk::{Disk, Start, Unknown};
pub use sqlite_std_file::{File, FileFrom};
pub use store::Store;
