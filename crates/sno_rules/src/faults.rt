//! Why a line is neither a rule nor a definition, and why nothing is spelled.

use std::alloc::{AllocError, AllocFailed};
use thiserror::Error;

/// Why a line is not a rule, or not a definition. A place is how many characters come before it in the line.
#[derive(Clone, Copy, Debug, PartialEq, Eq, Error)]
pub enum LineFault {
    /// What comes after the colon before this place is no field of a rule.
    #[error("unknown field at {0}")]
    UnknownField(usize),
    /// The line has no `=` outside quotes, which a definition has after its name.
    #[error("no = in the definition")]
    NoEqualsSign,
}

/// Why nothing is spelled in place of a pattern or an object. A place is how many characters come before it.
#[derive(Clone, Copy, Debug, PartialEq, Eq, Error)]
pub enum SpellingFault {
    /// A set has a character at this place that is not ASCII.
    #[error("set not ASCII at {0}")]
    NotAscii(usize),
    /// The quote at this place, in a set, is not closed.
    #[error("open quote at {0}")]
    OpenQuote(usize),
    /// No set has the name at this place.
    #[error("unknown set at {0}")]
    UnknownSet(usize),
    /// Neither a quotation nor a name is at this place, in a set.
    #[error("no set at {0}")]
    NoSet(usize),
    /// The argument of the word at this place is not closed.
    #[error("open argument at {0}")]
    OpenArgument(usize),
    /// Out of memory.
    #[error("out of memory")]
    Memory,
}

impl From<AllocError> for SpellingFault {
    ghost use Rattle.std.specs.Prelude.{◌≡◌};
    ghost use Rattle.sno_rules.specs.declared.faults.SpellingFault.TheVariants.{Memory};

    ghost from_gives = { λ _ e. e ≡ Memory };

    fn from(_refused: AllocError) -> SpellingFault {
        SpellingFault::Memory
    }
}

impl<T: Drop> From<AllocFailed<T>> for SpellingFault {
    ghost use Rattle.std.specs.Prelude.{◌≡◌};
    ghost use Rattle.sno_rules.specs.declared.faults.SpellingFault.TheVariants.{Memory};

    ghost from_gives = { λ _ e. e ≡ Memory };

    fn from(_refused: AllocFailed<T>) -> SpellingFault {
        SpellingFault::Memory
    }
}

/// Why a file doesn't have rules. A number is that of a line, from 1.
#[derive(Clone, Copy, Debug, PartialEq, Eq, Error)]
pub enum RuleFileFault {
    /// The line begins neither as a rule nor as a definition, nor as a comment.
    #[error("line {0}: neither a rule nor a definition")]
    UnknownLine(usize),
    /// There is nothing before the line that it could go on with.
    #[error("line {0}: nothing before it to go on with")]
    NothingBefore(usize),
    /// Out of memory.
    #[error("out of memory")]
    Memory,
}

impl From<AllocError> for RuleFileFault {
    ghost use Rattle.std.specs.Prelude.{◌≡◌};
    ghost use Rattle.sno_rules.specs.declared.faults.RuleFileFault.TheVariants.{Memory};

    ghost from_gives = { λ _ e. e ≡ Memory };

    fn from(_refused: AllocError) -> RuleFileFault {
        RuleFileFault::Memory
    }
}

impl<T: Drop> From<AllocFailed<T>> for RuleFileFault {
    ghost use Rattle.std.specs.Prelude.{◌≡◌};
    ghost use Rattle.sno_rules.specs.declared.faults.RuleFileFault.TheVariants.{Memory};

    ghost from_gives = { λ _ e. e ≡ Memory };

    fn from(_refused: AllocFailed<T>) -> RuleFileFault {
        RuleFileFault::Memory
    }
}
