//! What the calls with handles return.

/// It is done; of a search, it found a match.
pub const DONE: u8 = 0;

/// There is no match, no assignment at the place, nothing to replace, or no reply.
pub const NOTHING: u8 = 1;

/// The rule or a definition has a fault; of a book, its document.
pub const FAULT: u8 = 2;

/// The limit of trials is not one of 1 to 1,000,000,000.
pub const BAD_LIMIT: u8 = 3;

/// Out of memory.
pub const NO_MEMORY: u8 = 4;

/// The buffer is too short.
pub const TOO_SHORT: u8 = 5;

/// A handle is closed, or holds something else.
pub const CLOSED: u8 = 7;

/// The search takes more trials than the limit.
pub const TOO_MANY_TRIALS: u8 = 8;

/// A text would have more than 16,777,216 bytes.
pub const TOO_LONG: u8 = 9;

/// The cursor lies past the end of the text.
pub const PAST_END: u8 = 10;

/// A search would have to keep more than 4,194,304 entries in its history, which it may back up to.
pub const HISTORY_TOO_LONG: u8 = 11;

/// No search is gathered.
pub const NOTHING_GATHERED: u8 = 12;
