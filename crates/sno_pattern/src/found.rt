//! The outcome of a match.
use crate::{Assigns, Conds};

/// A success.
#[derive(Debug, Drop)]
pub struct Hit {
    /// The cursor from which the match began.
    pub start: usize,
    /// The cursor at which it ended.
    pub end: usize,
    /// Its conditional assignments, in the order in which their parts ended.
    pub conds: Conds,
}

/// The outcome of a match: the immediate assignments that were done, in order, and the success, if there is one.
#[derive(Debug, Drop)]
pub struct Found {
    /// The assignments that were done at once, including those that were backed over.
    pub sets: Assigns,
    /// The success; `None` if the match failed.
    pub end: Option<Hit>,
}
