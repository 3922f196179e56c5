//! Why the program ends early.
use sno_book::BookFault;
use sno_desk::{AtDeskFault, CommitFault, LookFault, SubmitFault};
use sno_machine::MatchFault;
use sno_pattern::{NameFault, NamesFault, RulesFault, TextFault};
use sno_read::ReadFault;
use std::alloc::AllocError;
use thiserror::Error;

/// Why the program ends early: a refusal of the library, which says itself why, or a fault of the program's own.
#[derive(Debug, Drop, Error)]
pub(crate) enum Fault {
    #[error(transparent)]
    Name(#[from] NameFault),
    #[error(transparent)]
    Names(#[from] NamesFault),
    #[error(transparent)]
    Rules(#[from] RulesFault),
    #[error(transparent)]
    Read(#[from] ReadFault),
    #[error(transparent)]
    Text(#[from] TextFault),
    #[error(transparent)]
    Book(#[from] BookFault),
    #[error(transparent)]
    Desk(#[from] AtDeskFault),
    #[error(transparent)]
    Look(#[from] LookFault),
    #[error(transparent)]
    Commit(#[from] CommitFault),
    #[error(transparent)]
    Submit(#[from] SubmitFault),
    #[error(transparent)]
    Match(#[from] MatchFault),
    #[error("out of memory")]
    Memory(#[from(alloc)] AllocError),
    #[error("write failed")]
    Write,
    /// Other seats were quicker, each time.
    #[error("overtaken too often")]
    Overtaken,
    /// The number of bodies of definitions is not the number of names.
    #[error("names without definitions")]
    Unequal,
    /// The pattern has a reference without a definition.
    #[error("bad reference")]
    Uncovered,
    /// This many seats were refused something.
    #[error("{0} seats were refused")]
    Seats(usize),
    /// A reader saw a lower version after a higher one.
    #[error("a version went down")]
    WentBack,
}
