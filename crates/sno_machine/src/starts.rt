//! Starts at which no match can begin.

pub(crate) mod beginnings;
pub(crate) mod front_search;
pub(crate) mod fronts;
pub(crate) mod head_tables;
pub(crate) mod heads;
pub(crate) mod needles;
pub(crate) mod passing;
pub(crate) mod run_starts;
pub(crate) mod sought;
pub(crate) mod unmarking;
pub(crate) mod words;
