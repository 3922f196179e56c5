//! A gate that pauses.
use sno_desk::Gate;
use std::sync::Wait;
use std::thread;
use std::time::{Clock, Duration};

/// A gate that holds each attempt for a millisecond, between its snapshot and its match, and is never shut. No lock is
/// held meanwhile, so other seats can go on.
#[derive(Drop)]
pub(crate) struct Pause<'a, C: Clock> {
    pub(crate) clock: &'a C,
}

impl<C: Clock> Gate for Pause<'_, C> {
    ghost shuts = { λ _ _ _. ⊥ };

    fn pass<R: Wait>(&self, _rt: &R, _number: u32, _attempt: u32) -> bool {
        thread::sleep(self.clock, Duration::from_millis(1));
        true
    }

    fn done<R: Wait>(&self, _rt: &R, _number: u32, _accepted: bool) {}
}
