//! Refused statements.

/// Why a statement is refused.
#[derive(Clone, Copy, Debug, PartialEq, Eq)]
pub enum Reason {
    /// The document has no text of that name.
    NoText,
    /// The new text would have more than 65,536 characters.
    TextTooLong,
    /// The text changed during each of its tries. A serial run never meets this.
    TriesSpent {
        /// The version that the last try saw.
        seen: u64,
        /// The version of the text when that try was committed.
        now: u64,
    },
    /// The match takes more trials than the statement's limit.
    TooManyTrials,
    /// The journal has as many entries as there is room for. A run never meets this, only a service.
    Full,
}

/// A statement that is refused.
#[derive(Clone, Copy, Debug, PartialEq, Eq)]
pub struct Refusal {
    /// The number of the statement, from 1.
    pub number: u32,
    /// Why it is refused.
    pub reason: Reason,
}
