//! What a commit leaves.
ghost use Rattle.std.specs.Prelude.{◌≡◌, Ok, IfOk};
ghost use Rattle.sno_statement.specs.Perform.{perform};

use sno_pattern::Text;
use sno_statement::{Outcome, Statement};
use std::alloc::AllocError;
use std::marker::Model;
use std::sync::Arc;

/// An accepted statement. Two entries are equal if their statements, versions and outcomes are, wherever these lie in
/// memory.
#[derive(Drop)]
pub struct Entry {
    /// The statement.
    pub statement: Arc<Statement>,
    /// The version that its text had when the statement was performed.
    pub version: u64,
    /// The outcome of the statement.
    pub outcome: Arc<Outcome>,
}

impl Model for Entry {
    ghost use Rattle.std.specs.Arc.{arc_value};
    ghost use Rattle.sno_statement.specs.Perform.{outcome_seen};
    ghost use Rattle.sno_book.specs.Entries.{Entry, entry_code};

    ghost Value = { Entry };

    ghost coded = { entry_code };

    ghost view = { λ s. record { statement = arc_value s.statement; version = s.version; outcome = outcome_seen (arc_value s.outcome) } };
}

impl Entry {
    /// Returns an equal entry, which shares the statement and the outcome. The entry is unchanged.
    ///
    /// Refused only if memory runs out.
    pub fn share(&self) -> Result<Entry, AllocError>
        ensures { IfOk result (λ entry. entry ≡ self.now) }
    {
        Ok(Entry {
            statement: Arc::try_clone(&self.statement)?,
            version: self.version,
            outcome: Arc::try_clone(&self.outcome)?,
        })
    }
}

/// What a caller gets for an accepted proposal. Its entry's outcome is always that of the entry's statement performed
/// on the receipt's text.
#[derive(Drop)]
pub struct Receipt {
    /// The index of the entry in the journal, from 0.
    pub index: usize,
    /// The entry.
    pub entry: Entry,
    /// The text that the statement was performed on.
    pub text: Arc<Text>,
}

impl Model for Receipt {
    ghost use Rattle.std.specs.Prelude.{◌≡◌, Ok};
    ghost use Rattle.std.specs.Arc.{arc_value};
    ghost use Rattle.sno_statement.specs.Perform.{perform};
    ghost use Rattle.sno_book.specs.Proposals.{Receipt, receipt_code};

    ghost Value = { Receipt };

    ghost coded = { receipt_code };

    ghost view = { λ s. record { index = s.index; entry = s.entry; text = arc_value s.text } };

    ghost invariant = { λ s. perform s.entry.statement (arc_value s.text) ≡ Ok s.entry.outcome };
}

impl Receipt {
    /// The entry's outcome is what its statement does to the text.
    pub fn check(&self)
        ensures { perform self.now.entry.statement self.now.text ≡ Ok self.now.entry.outcome }
    {
        // for the proof
        let _ = &self.entry;
    }
}
