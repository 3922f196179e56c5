//! How a new file takes the place of a store in its folder, so that a crash at any moment leaves a whole store.
//!
//! A store uses three names in a folder: its own, that of the new store which goes on from it, and that of the old one which is left.
//! [`Folder`] makes the calls of the system one by one and notes those that succeeded. `specs/Folders.antt` says which files the names
//! lead to after such calls, and what a crash may leave: each call that wasn't waited for may be lost, also if a later one isn't. The
//! contracts say what holds of everything that a crash may leave. That a file system keeps to this is taken as given.
//!
//! | File | What it does |
//! |---|---|
//! | `calls` | `Calls`: what is asked of the system; `Done`: which calls succeeded |
//! | `folder` | `Folder`: the three names, with what was done to them |
//! | `faults` | why a store isn't replaced |
//! | `replacing` | a new store takes the place of the old one; what a crash has left of that is put right |
#![tactic(auto)]

mod calls;
mod faults;
mod folder;
mod replacing;
#[cfg(test)]
mod tests;

pub use calls::{Calls, Done};
pub use faults::ReplaceFault;
pub use folder::Folder;
