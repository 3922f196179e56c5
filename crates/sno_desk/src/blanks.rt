//! What a desk begins with.
ghost use Rattle.std.specs.Prelude.{◌≡◌, []};

use sno_published::History;
use std::sync::ledger;

/// A ledger, a history and the attempts at it: what a desk begins with. All that belongs to one desk has their names by
/// its type. It takes no memory.
#[derive(Drop)]
pub struct Blank {
    pub(crate) ledger: ledger::Blank,
    pub(crate) history: History,
    pub(crate) attempts: History,
}

impl Blank {
    /// A blank for a ledger of `parts` parts, one for each seat.
    pub fn new(parts: u64) -> Blank
        ensures parts { result.ledger.parts ≡ parts }
        ensures fresh { result.history.entries ≡ [] }
    {
        Blank {
            ledger: ledger::Blank::new(parts),
            history: History::new(),
            attempts: History::new(),
        }
    }
}
