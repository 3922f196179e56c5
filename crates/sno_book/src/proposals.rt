//! Proposals: statements performed on snapshots.
ghost use Rattle.std.specs.Prelude.{◌≡◌, Ok};
ghost use Rattle.std.specs.Arc.{arc_value};
ghost use Rattle.sno_statement.specs.Perform.{perform, outcome_seen};
ghost use Rattle.sno_book.specs.Origins.{IsPerformed};
ghost use Rattle.sno_book.specs.Proposals.{GivesProposal, entry_of};

use crate::{Entry, Origin, Receipt, Snapshot};
use sno_pattern::Text;
use sno_statement::{Outcome, Statement, StatementFault, perform_shared};
use std::alloc::Global;
use std::marker::Model;
use std::sync::Arc;

/// A statement with its outcome, and the place and version of the text that it was performed on. By its type the
/// outcome is what the statement does to the text at that place after the view from which the snapshot came. A book of
/// that view accepts it if the text still has that version.
#[derive(Drop)]
pub struct Proposal {
    pub(crate) entry: Entry,
    pub(crate) place: usize,
    pub(crate) origin: Origin,
}

impl Model for Proposal {
    ghost use Rattle.sno_book.specs.Origins.{IsPerformed};
    ghost use Rattle.sno_book.specs.Proposals.{Proposal, proposal_code};

    ghost Value = { Proposal };

    ghost coded = { proposal_code };

    ghost view = { λ s. record {
      statement = s.entry.statement;
      place = s.place;
      version = s.entry.version;
      origin = s.origin;
      outcome = s.entry.outcome;
    } };

    ghost invariant = { λ s. IsPerformed s.origin s.place s.entry.version s.entry.statement s.entry.outcome };
}

impl Proposal {
    /// The statement.
    pub fn statement(&self) -> &Statement
        ensures statement { result.now ≡ self.now.statement }
        ensures performed { IsPerformed self.now.origin self.now.place self.now.version self.now.statement self.now.outcome }
    {
        &self.entry.statement
    }

    /// The version that the text had when the statement was performed.
    pub fn version(&self) -> u64
        ensures { result ≡ self.now.version }
    {
        self.entry.version
    }

    /// The place of that text.
    pub fn place(&self) -> usize
        ensures place { result ≡ self.now.place }
        ensures performed { IsPerformed self.now.origin self.now.place self.now.version self.now.statement self.now.outcome }
    {
        self.place
    }

    /// The outcome of the statement.
    pub fn outcome(&self) -> &Outcome
        ensures { outcome_seen result.now ≡ self.now.outcome }
    {
        &self.entry.outcome
    }

    /// The entry that is made of it if it is accepted.
    pub fn entry(&self) -> &Entry
        ensures { result.now ≡ entry_of self.now }
    {
        &self.entry
    }

    /// The receipt of an entry at this index, with the text that the statement was performed on.
    pub(crate) fn receipt(self, index: usize, text: Arc<Text>) -> Receipt
        requires { perform self.statement (arc_value text) ≡ Ok self.outcome }
        ensures { result ≡ record { index = index; entry = entry_of self; text = arc_value text } }
    {
        Receipt {
            index,
            entry: self.entry,
            text,
        }
    }
}

/// Performs a statement on a snapshot's text and returns the proposal. It takes no lock and waits for nobody.
///
/// Refused as `perform` refuses:
///
/// - `TooManyTrials` exactly if the match takes more trials than the statement's limit;
/// - `TextTooLong` exactly if the new text would have more than 65,536 characters;
/// - `Memory`.
///
/// Statement and snapshot are dropped then; the caller's own share of the statement stays.
pub fn propose(
    alloc: Global,
    statement: Arc<Statement>,
    snapshot: Snapshot,
) -> Result<Proposal, StatementFault>
    ensures { GivesProposal result (arc_value statement) snapshot }
{
    let outcome = perform_shared(alloc, &statement, &snapshot.text)?;
    Ok(Proposal {
        entry: Entry {
            statement,
            version: snapshot.version,
            outcome: Arc::new(alloc, outcome)?,
        },
        place: snapshot.place,
        origin: snapshot.origin,
    })
}
