//! What a call at a desk takes.
use sno_desk::{Desk, Naming};
use std::alloc::Global;
use std::sync::Wait;

/// The desk at which a line gets its reply, and what each call at it takes.
#[derive(Drop)]
pub struct AtDesk<'a, L: Naming, R: Wait> {
    /// The handle for what may wait.
    pub rt: &'a R,
    /// Where memory comes from.
    pub alloc: Global,
    /// The desk.
    pub desk: &'a Desk<L>,
}
