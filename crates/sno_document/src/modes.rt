//! How to perform statements that don't say it themselves.

/// How to perform statements that don't say it themselves.
#[derive(Clone, Copy, Debug, PartialEq, Eq)]
pub struct Mode {
    /// Whether a match begins only at cursor 0, for a statement without `anchored`.
    pub anchor: bool,
    /// How many trials a match of any statement may take: from 1 to 1,000,000,000.
    pub trials: u32,
}
