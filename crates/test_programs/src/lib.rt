//! Rules on files and served documents, tested. The files are in memory, in a folder whose contents the definitions can
//! name: so the clauses of `sno_edit` are about real contents here.
#![tactic(auto)]

#[cfg(test)]
mod diffs;
#[cfg(test)]
mod edits;
#[cfg(test)]
mod findings;
#[cfg(test)]
mod full;
#[cfg(test)]
mod held;
mod memory;
#[cfg(test)]
mod seekers;
#[cfg(test)]
mod served;

pub use memory::Memory;
