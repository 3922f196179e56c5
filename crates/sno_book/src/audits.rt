//! Receipts compared with a journal.
ghost use Rattle.std.specs.Prelude.{◌≡◌, Decides};
ghost use Rattle.sno_book.specs.Audits.{Agrees, Audits};

use crate::same_outcomes::same_outcome;
use crate::same_statements::same_statement;
use crate::{Book, Entry, Receipt};

/// Whether two entries are equal: the versions, the statements and the outcomes.
fn same_entry(one: &Entry, other: &Entry) -> bool
    ensures { Decides result (one.now ≡ other.now) }
{
    one.version == other.version
        && same_statement(&one.statement, &other.statement)
        && same_outcome(&one.outcome, &other.outcome)
}

/// Whether the receipt's entry is equal to the journal's entry at the receipt's index.
fn agrees(journal: &[Entry], receipt: &Receipt) -> bool
    ensures { Decides result (Agrees journal.now receipt.now) }
{
    matches!(journal.get(receipt.index), Some(entry) if same_entry(entry, &receipt.entry))
}

impl Book {
    /// Compares each receipt's entry, by value, with the journal's entry at the receipt's index. `Ok` means that all
    /// are equal. It takes no memory, and the book and the receipts are unchanged.
    ///
    /// Refused with the first place among the receipts, from 0, whose entry differs, or for whose index the journal has
    /// no entry.
    pub fn audit(&self, receipts: &[Receipt]) -> Result<(), usize>
        ensures { Audits result self.now.journal receipts.now }
    {
        let journal = self.journal();
        for (place, receipt) in receipts.iter().enumerate() {
            if !agrees(journal, receipt) {
                return Err(place);
            }
        }
        Ok(())
    }
}
