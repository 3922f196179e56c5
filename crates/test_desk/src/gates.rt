//! Gates for the tests.
use sno_desk::Gate;
use std::sync::Wait;
use std::sync::atomic::{AtomicU32, Ordering};

/// A gate that is shut for the statement with this number. It counts the results that it is passed: ones for the other statements, hundreds for this.
#[derive(Drop)]
pub(crate) struct ShutFor {
    pub(crate) number: u32,
    accepted: AtomicU32,
    refused: AtomicU32,
}

impl ShutFor {
    /// The gate, passed no result.
    pub(crate) fn new(number: u32) -> ShutFor {
        ShutFor {
            number,
            accepted: AtomicU32::new(0),
            refused: AtomicU32::new(0),
        }
    }

    /// What it counted: receipts, and refusals.
    pub(crate) fn counts(&self) -> (u32, u32) {
        let accepted = self.accepted.load(Ordering::SeqCst);
        (accepted, self.refused.load(Ordering::SeqCst))
    }
}

impl Gate for ShutFor {
    ghost use Rattle.std.specs.Prelude.{◌≡◌};

    ghost shuts = { λ gate number _. number ≡ gate.number };

    fn pass<R: Wait>(&self, _rt: &R, number: u32, _attempt: u32) -> bool {
        number != self.number
    }

    fn done<R: Wait>(&self, _rt: &R, number: u32, accepted: bool) {
        let one = if number == self.number { 100 } else { 1 };
        if accepted {
            self.accepted.fetch_add(one, Ordering::SeqCst);
        } else {
            self.refused.fetch_add(one, Ordering::SeqCst);
        }
    }
}
