//! The outcome of a statement.
ghost use Rattle.std.specs.Prelude.{◌≡◌};
ghost use Rattle.std.specs.Option.{option_map};
ghost use Rattle.std.specs.Arc.{arc_value};
ghost use Rattle.sno_statement.specs.Perform.{after_of, outcome_seen, of_match};
ghost use Rattle.sno_statement.specs.declared.outcomes.StatementFault.TheVariants.{Memory};

use crate::Bindings;
use crate::match_lists::Matches;
use sno_machine::MatchFault;
use sno_pattern::Text;
use std::alloc::{AllocError, AllocFailed};
use std::sync::Arc;
use thiserror::Error;

/// The outcome of a statement on a text.
#[derive(Drop)]
pub enum Outcome {
    /// The pattern matched between two cursors of the text.
    Matched {
        /// The cursor from which the match began.
        start: usize,
        /// The cursor at which it ended.
        end: usize,
        /// The variables that were assigned: first those assigned at once, then those of the conditional assignments.
        bindings: Bindings,
        /// The new text, exactly if the statement has an object; also if it equals the old one.
        after: Option<Arc<Text>>,
    },
    /// The pattern did not match; if the statement is repeated, not in its first round. Nothing is replaced. Of a statement for all
    /// matches, no match was found.
    Failed {
        /// The variables that were assigned at once on the way.
        bindings: Bindings,
    },
    /// A repeated statement matched at least once.
    Repeated {
        /// How many rounds matched: 1 to 1,000, and no more than the statement's number of rounds.
        matches: u32,
        /// The variables that the last match assigned. If a round failed after it, that round's variables aren't here.
        bindings: Bindings,
        /// The new text of the last match.
        after: Arc<Text>,
    },
    /// A statement for all matches matched at least once.
    All {
        /// The matches, from left to right. They don't overlap. There are at most 65,537 of them, one more than characters.
        matches: Matches,
        /// The new text, exactly if the statement has an object; also if it equals the old one.
        after: Option<Arc<Text>>,
    },
}

impl Outcome {
    /// The new text, if there is one: of a match with an object, of a repeated statement, or of all matches with an object. It
    /// takes no memory.
    pub fn after(&self) -> Option<&Arc<Text>>
        ensures { option_map (λ text. arc_value text.now) result ≡ after_of (outcome_seen self.now) }
    {
        match self {
            Outcome::Matched { after, .. } => after.as_ref(),
            Outcome::Failed { .. } => None,
            Outcome::Repeated { after, .. } => Some(after),
            Outcome::All { after, .. } => after.as_ref(),
        }
    }
}

/// Why a statement is refused on a text. Statement and text are unchanged.
#[derive(Clone, Copy, Debug, PartialEq, Eq, Error)]
pub enum StatementFault {
    /// The new text would have more than 65,536 characters.
    #[error("text too long")]
    TextTooLong,
    /// Out of memory, in any allocation.
    #[error("out of memory")]
    Memory,
    /// The match takes more trials than the statement's limit.
    #[error("too many trials")]
    TooManyTrials,
}

impl From<MatchFault> for StatementFault {
    ghost from_gives = { λ fault e. e ≡ of_match fault };

    fn from(fault: MatchFault) -> StatementFault {
        match fault {
            MatchFault::TooManyTrials => StatementFault::TooManyTrials,
            MatchFault::Memory => StatementFault::Memory,
        }
    }
}

impl From<AllocError> for StatementFault {
    ghost from_gives = { λ _ e. e ≡ Memory };

    fn from(_refused: AllocError) -> StatementFault {
        StatementFault::Memory
    }
}

impl<T: Drop> From<AllocFailed<T>> for StatementFault {
    ghost from_gives = { λ _ e. e ≡ Memory };

    fn from(_refused: AllocFailed<T>) -> StatementFault {
        StatementFault::Memory
    }
}
