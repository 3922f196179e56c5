//! How statements and rules are performed that are traced.
ghost use Rattle.sno_statement.specs.Statement.{IsLimit};

use crate::arguments::is_up_to;
use sno_document::Mode;
use sno_edit::Trials;
use sno_statement::{MAX_TRIALS, USUAL_TRIALS};

/// How the statements of a document or rules are performed, as the options say it.
#[derive(Clone, Copy)]
pub(crate) struct TraceMode {
    /// Whether a statement is anchored that doesn't say whether it is.
    pub(crate) anchor: bool,
    /// How many trials a match may take, 1 to 1,000,000,000. Without a number as many as usual.
    pub(crate) trials: Option<u32>,
}

/// The trials that are asked for, or as many as usual.
fn trials_or(asked: Option<u32>, usual: u32) -> u32
    ensures { IsLimit result }
{
    let trials = asked.unwrap_or(usual);
    if is_up_to(MAX_TRIALS, trials) {
        trials
    } else {
        USUAL_TRIALS
    }
}

/// How the statements of a document are performed.
pub(crate) fn document_mode(mode: TraceMode) -> Mode
    ensures { IsLimit result.trials }
{
    let trials = trials_or(mode.trials, USUAL_TRIALS);
    Mode {
        anchor: mode.anchor,
        trials,
    }
}

/// How rules are performed on a text of this many bytes: usually with as many trials as on a file.
pub(crate) fn mode_on(bytes: usize, mode: TraceMode) -> Mode
    ensures { IsLimit result.trials }
{
    let trials = trials_or(mode.trials, Trials::Usual.on(bytes));
    Mode {
        anchor: mode.anchor,
        trials,
    }
}
