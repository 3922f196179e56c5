//! Proposals that were prepared: what a commit needs, made before it changes anything.
ghost use Rattle.std.specs.Prelude.{◌≡◌, IfOk, IfErr};
ghost use Rattle.std.specs.Option.{option_map};
ghost use Rattle.std.specs.Arc.{arc_value};
ghost use Rattle.sno_statement.specs.Perform.{outcome_seen};
ghost use Rattle.sno_book.specs.Entries.{after_of};
ghost use Rattle.sno_book.specs.Origins.{HoldsText};
ghost use Rattle.sno_book.specs.Proposals.{entry_of};

use crate::{Entry, Proposal};
use sno_pattern::Text;
use sno_statement::Outcome;
use std::alloc::AllocError;
use std::marker::Model;
use std::sync::Arc;

/// A proposal with every share that its commit needs: its entry for the journal, its new text for the book, and the
/// text that its statement was performed on for the receipt.
#[derive(Drop)]
pub struct Ready {
    pub(crate) proposal: Proposal,
    pub(crate) entry: Entry,
    pub(crate) after: Option<Arc<Text>>,
    pub(crate) text: Arc<Text>,
}

impl Model for Ready {
    ghost use Rattle.std.specs.Option.{option_map};
    ghost use Rattle.std.specs.Arc.{arc_value};
    ghost use Rattle.sno_book.specs.Proposals.{Proposal, proposal_code, IsPrepared};

    ghost Value = { Proposal };

    ghost coded = { proposal_code };

    ghost view = { λ s. s.proposal };

    ghost invariant = { λ s. IsPrepared s.proposal s.entry (option_map arc_value s.after) (arc_value s.text) };
}

/// The new text of an outcome, shared.
fn after(outcome: &Outcome) -> Result<Option<Arc<Text>>, AllocError>
    ensures { IfOk result (λ o. option_map arc_value o ≡ after_of (outcome_seen outcome.now)) }
{
    match outcome.after() {
        Some(text) => Ok(Some(Arc::try_clone(text)?)),
        None => Ok(None),
    }
}

impl Ready {
    /// Returns the proposal with all that its commit needs. If memory runs out, the proposal alone comes back. The text
    /// is the one that its statement was performed on.
    pub(crate) fn of(proposal: Proposal, text: &Arc<Text>) -> Result<Ready, Proposal>
        requires { HoldsText proposal.origin proposal.place proposal.version (arc_value text.now) }
        ensures ready { IfOk result (λ ready. ready ≡ proposal) }
        ensures back { IfErr result (λ p. p ≡ proposal) }
    {
        let Ok(entry) = proposal.entry.share() else {
            return Err(proposal);
        };
        let Ok(after) = after(proposal.outcome()) else {
            return Err(proposal);
        };
        let Ok(text) = Arc::try_clone(text) else {
            return Err(proposal);
        };
        Ok(Ready {
            proposal,
            entry,
            after,
            text,
        })
    }

    /// The place of the text that the statement was performed on.
    pub fn place(&self) -> usize
        ensures { result ≡ self.now.place }
    {
        self.proposal.place()
    }

    /// The entry that the commit appends.
    pub fn entry(&self) -> &Entry
        ensures { result.now ≡ entry_of self.now }
    {
        &self.entry
    }

    /// The proposal as it was before it was prepared. It takes no memory; the shares are dropped.
    pub fn back(self) -> Proposal
        ensures { result ≡ self }
    {
        self.proposal
    }
}
