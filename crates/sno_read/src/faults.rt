//! Why a text is not read.
ghost use Rattle.std.specs.Prelude.{◌≡◌};
ghost use Rattle.sno_read.specs.declared.faults.Stop.TheVariants.{Memory};

use std::alloc::{AllocError, AllocFailed};
use thiserror::Error;

/// Why a text is not read. A place is a number of characters: those before the point of the fault.
#[derive(Clone, Copy, Debug, PartialEq, Eq, Error)]
pub enum ReadFault {
    /// A pattern's text has blanks alone. The place is its length.
    #[error("empty at {0}")]
    Empty(usize),
    /// A quote without a closing one.
    #[error("open quote at {0}")]
    OpenQuote(usize),
    /// A character that can't come here, or the end of the text when more is due.
    #[error("unexpected at {0}")]
    Unexpected(usize),
    /// No digit when a number is due, or a number above 65,536.
    #[error("bad number at {0}")]
    BadNumber(usize),
    /// A name of no definition that may be named here.
    #[error("unknown name at {0}")]
    UnknownName(usize),
    /// Empty literals alone when a set of characters is due, the first of them here.
    #[error("empty set at {0}")]
    EmptySet(usize),
    /// A parenthesis that would be the 101st open one; or, at the text's length, a tree deeper than 1,000.
    #[error("too deep at {0}")]
    TooDeep(usize),
    /// A text of more than 4,096 characters, at 4,096; or a name of more than 64, at its first letter.
    #[error("too long at {0}")]
    TooLong(usize),
    /// A reserved name or the name of a definition when a variable is due.
    #[error("reserved name at {0}")]
    ReservedTarget(usize),
    /// A byte above 127; in a rule, one in a set.
    #[error("not ASCII at {0}")]
    NonAscii(usize),
    /// Out of memory.
    #[error("out of memory")]
    Memory,
}

/// Why reading stops: out of memory, or a fault of the text.
#[derive(Clone, Copy)]
pub enum Stop {
    /// Out of memory.
    Memory,
    /// The text has this fault.
    Fault(ReadFault),
}

impl From<AllocError> for Stop {
    ghost from_gives = { λ _ e. e ≡ Memory };

    fn from(_refused: AllocError) -> Stop {
        Stop::Memory
    }
}

impl<T: Drop> From<AllocFailed<T>> for Stop {
    ghost from_gives = { λ _ e. e ≡ Memory };

    fn from(_refused: AllocFailed<T>) -> Stop {
        Stop::Memory
    }
}
