//! What a caller chooses for a run.

use sno_desk::MAX_SEATS;
use sno_document::Mode;

/// The most workers of a run.
pub const MAX_WORKERS: u32 = MAX_SEATS;

/// What a caller chooses for a run.
#[derive(Clone, Copy, Debug, PartialEq, Eq)]
pub struct Options {
    /// Whether statements that don't say otherwise are anchored.
    pub anchor: bool,
    /// How many workers share the texts, 1 to 16. `None` for the serial run.
    pub workers: Option<u32>,
    /// How many times a worker tries a statement at most, 1 to 1,000.
    pub tries: u32,
    /// Whether the listing is JSON.
    pub json: bool,
    /// How many trials a match of any statement may take: 1 to 1,000,000,000.
    pub trials: u32,
}

impl Options {
    ghost use Rattle.std.specs.Prelude.{◌≡◌};
    ghost use Rattle.sno_rewrite.specs.Modes.{mode_of};

    /// How to perform statements that don't say it themselves.
    pub fn mode(&self) -> Mode
        ensures { result ≡ mode_of self.now }
    {
        Mode {
            anchor: self.anchor,
            trials: self.trials,
        }
    }
}
