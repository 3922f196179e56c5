//! Calls to which memory is refused, tested: each returns what it has to or is out of memory, and leaves its arguments as they were.
//!
//! `rt ci` runs these tests as they are, and then each call returns what it has to. `tests/refused_growths` runs them again and again, and refuses one
//! growth after the other.
#![tactic(auto)]

#[cfg(test)]
mod books;
#[cfg(test)]
mod call_ends;
#[cfg(test)]
mod desks;
#[cfg(test)]
mod jobs;
#[cfg(test)]
mod patterns;
#[cfg(test)]
mod runs;
#[cfg(test)]
mod without_memory;
#[cfg(test)]
mod workers;
