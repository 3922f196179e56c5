//! A book with what its lines are read by. Its calls are in a file of their own, since their definitions name it.
ghost use Rattle.sno_statement.specs.Statement.{IsLimit};

use sno_book::Book;
use sno_document::{Mode, Rules};
use sno_listing::Refusal;
use std::sync::Arc;

/// A book that one caller holds, with what its lines are read by and what its listing has.
#[derive(Drop)]
pub struct HeldBook {
    /// The texts and the journal.
    pub book: Book,
    /// The definitions that statements may refer to.
    pub rules: Arc<Rules>,
    /// Whether statements that don't say otherwise are anchored, and how many trials each may take.
    pub mode: Mode,
    /// The number that the next statement gets.
    pub number: u32,
    /// The refused statements, in their order.
    pub refused: Vec<Refusal>,
    ghost limit: { IsLimit mode.trials },
}
