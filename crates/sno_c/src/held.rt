//! What a handle holds.
use sno_held_book::HeldBook;
use sno_seek::{ByteText, Seeker};

/// A book, with the reply to its last line.
#[derive(Drop)]
pub struct BookWithReply {
    /// The book.
    pub book: HeldBook,
    /// The reply; `None` if there was no line yet, or if memory ran out.
    pub reply: Option<Vec<u8>>,
}

/// What a handle holds.
#[derive(Drop)]
pub enum Held {
    /// A pattern.
    Pattern(Seeker),
    /// A text.
    Text(ByteText),
    /// A book.
    Book(BookWithReply),
}
