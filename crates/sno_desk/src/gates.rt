//! Gates, at which each attempt may be held or turned away.
ghost use Rattle.std.specs.Prelude.{◌≡◌, ℕ, true, false};

use std::sync::Wait;

/// A gate that each attempt of a statement has to pass, after its snapshot and before its match. No lock is held there,
/// so a gate may wait.
pub trait Gate {
    /// For which statements, by their numbers, and at which of their attempts the gate may be shut.
    ghost shuts: { Self → ℕ → ℕ → Type 0 };

    /// Whether the statement with this number may go on with this attempt; attempts count from 1.
    fn pass<R: Wait>(&self, rt: &R, number: u32, attempt: u32) -> bool
        ensures { result ≡ false → shuts self.now number attempt };

    /// Is called when the statement with this number has its reply, with whether it was accepted.
    fn done<R: Wait>(&self, rt: &R, number: u32, accepted: bool);
}

/// A gate that is never shut, and does nothing else.
#[derive(Clone, Copy, Debug)]
pub struct OpenGate;

impl Gate for OpenGate {
    ghost shuts = { λ _ _ _. ⊥ };

    fn pass<R: Wait>(&self, _rt: &R, _number: u32, _attempt: u32) -> bool {
        true
    }

    fn done<R: Wait>(&self, _rt: &R, _number: u32, _accepted: bool) {}
}
