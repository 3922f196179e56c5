//! The round of a repeated statement with a number.
ghost use Rattle.std.specs.Prelude.{◌≡◌, IfOk};
ghost use Rattle.std.specs.Arc.{arc_value};
ghost use Rattle.std.specs.Option.{option_map};
ghost use Rattle.sno_statement.specs.Perform.{perform};
ghost use Rattle.sno_traces.specs.Rounds.{round_from, text_left};

use sno_pattern::Text;
use sno_statement::{Statement, StatementFault, perform};
use std::alloc::{AllocError, Global};
use std::sync::Arc;

/// One round of a repeated statement.
#[derive(Drop)]
pub(crate) struct Round {
    /// How many rounds before it matched.
    pub(crate) matches: u32,
    /// The text that it is performed on.
    pub(crate) text: Arc<Text>,
}

/// The new text that a round leaves; `None` if it fails or is refused. `once` is the statement in one round.
fn text_after(alloc: Global, once: &Statement, text: &Text) -> Result<Option<Arc<Text>>, AllocError>
    ensures { IfOk result (λ after. option_map arc_value after ≡ text_left (perform once.now text.now)) }
{
    match perform(alloc, once, text) {
        Ok(outcome) => match outcome.after() {
            Some(after) => Ok(Some(Arc::try_clone(after)?)),
            None => Ok(None),
        },
        Err(StatementFault::Memory) => Err(AllocError),
        Err(StatementFault::TextTooLong) | Err(StatementFault::TooManyTrials) => Ok(None),
    }
}

/// The round after `earlier` others, each after the first on the new text of the round before. If one of those fails or is refused,
/// it is that one. `once` is the statement in one round.
pub(crate) fn round_after(
    alloc: Global,
    once: &Statement,
    text: Arc<Text>,
    earlier: u32,
) -> Result<Round, AllocError>
    ensures { IfOk result (λ round. (round.matches, arc_value round.text) ≡ round_from once.now earlier 0 (arc_value text)) }
{
    let mut round = Round { matches: 0, text };
    for matches in 0..earlier {
        match text_after(alloc, once, &round.text)? {
            None => return Ok(round),
            Some(text) => {
                round = Round {
                    matches: matches + 1,
                    text,
                };
            }
        }
    }
    Ok(round)
}
