//! Stores of lines, tested: over a disk in memory that can crash, and over files of the system.
#![tactic(auto)]

#[cfg(test)]
mod crashes;
#[cfg(test)]
mod files;
#[cfg(test)]
mod puts;
#[cfg(test)]
mod seals;
mod slate;

pub use slate::Slate;
