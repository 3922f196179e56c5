//! How many trials a statement may take.
ghost use Rattle.std.specs.Prelude.{◌≡◌};
ghost use Rattle.sno_edit.specs.Trials.{trials_for, usual_trials};

use sno_pattern::MAX_BYTES;

/// How many trials are usual for a byte of a text, and for its end.
const TRIALS_PER_BYTE: u32 = 256;

/// How many trials are usual at least.
const LEAST_USUAL_TRIALS: u32 = 1_000_000;

/// How many trials a statement may take on a text: a match, or all searches together.
#[derive(Clone, Copy, Debug, PartialEq, Eq)]
pub enum Trials {
    /// Enough for any plain statement: 256 for each byte and for the end, but at least 1,000,000 and at most
    /// 4,294,967,295. It takes at most 64 trials to pass over a place at which a match doesn't begin.
    Usual,
    /// This many, on any text.
    AtMost(u32),
}

/// How many trials are usual on a text of this many bytes.
fn usual_trials(bytes: usize) -> u32
    ensures { result ≡ usual_trials bytes }
{
    if bytes < MAX_BYTES - 1 {
        (TRIALS_PER_BYTE * (bytes as u32 + 1)).max(LEAST_USUAL_TRIALS)
    } else {
        u32::MAX
    }
}

impl Trials {
    /// How many trials a statement may take on a text of this many bytes.
    pub fn on(self, bytes: usize) -> u32
        ensures { result ≡ trials_for self bytes }
    {
        match self {
            Trials::Usual => usual_trials(bytes),
            Trials::AtMost(trials) => trials,
        }
    }
}
