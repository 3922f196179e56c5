//! A statement that is accepted only at one version of its text.
ghost use Rattle.std.specs.Prelude.{◌≡◌, ◌+◌, IfErr};
ghost use Rattle.std.specs.Arc.{arc_value};
ghost use mathlib.Core.List.{IsPrefix as Begins};
ghost use Rattle.sno_desk.specs.Faults.{of_snapshot, of_statement};
ghost use Rattle.sno_desk.specs.Turns.{position};
ghost use Rattle.sno_desk.specs.declared.faults.SubmitFault.TheVariants.{Memory as OutOfMemory};
ghost use Rattle.sno_serve.specs.Accepted.{HasTaken};
ghost use Rattle.sno_serve.specs.AtVersion.{IsResultAt, at_commit, receipts_at};
ghost use Rattle.sno_serve.specs.declared.at_version.AtFault.TheVariants.{Refused};

use sno_desk::{
    CommitFault, Desk, Naming, Receipt, Seat, SnapshotFault, StatementFault, SubmitFault, propose,
};
use sno_statement::Statement;
use std::alloc::{AllocError, Global};
use std::sync::{Arc, Wait};

/// Why a statement was not accepted at a version of its text.
#[derive(Clone, Copy)]
pub enum AtFault {
    /// The text has this version, which is another one.
    Changed(u64),
    /// A submit is refused so.
    Refused(SubmitFault),
}

impl From<SnapshotFault> for AtFault {
    ghost from_gives = { λ fault e. e ≡ Refused (of_snapshot fault) };

    fn from(fault: SnapshotFault) -> AtFault {
        AtFault::Refused(SubmitFault::from(fault))
    }
}

impl From<StatementFault> for AtFault {
    ghost from_gives = { λ fault e. e ≡ Refused (of_statement fault) };

    fn from(fault: StatementFault) -> AtFault {
        AtFault::Refused(SubmitFault::from(fault))
    }
}

impl From<AllocError> for AtFault {
    ghost from_gives = { λ _ e. e ≡ Refused OutOfMemory };

    fn from(_memory: AllocError) -> AtFault {
        AtFault::Refused(SubmitFault::Memory)
    }
}

/// A commit's refusal at a version of the text.
fn at_commit(fault: CommitFault) -> AtFault
    ensures { result ≡ at_commit fault }
{
    match fault {
        CommitFault::Changed { now, .. } => AtFault::Changed(now),
        fault => AtFault::Refused(SubmitFault::from(fault)),
    }
}

/// Performs a statement once, if its text has this version, and commits it.
pub(crate) fn submit_at<L: Naming, R: Wait>(
    rt: &R,
    alloc: Global,
    desk: &Desk<L>,
    seat: &mut Seat<L>,
    statement: &Arc<Statement>,
    version: u64,
) -> Result<Receipt, AtFault>
    ensures result { IsResultAt L.opening seat.old.seen seat.new.seen (arc_value statement.now) version result }
    ensures begins { Begins seat.old.seen seat.new.seen }
    ensures counted { seat.new.accepted ≡ seat.old.accepted + receipts_at result }
{
    let snapshot = seat.snapshot(statement.text())?;
    let is_other = snapshot.version != version;
    if is_other {
        return Err(AtFault::Changed(snapshot.version));
    }
    let shared = Arc::try_clone(statement)?;
    let proposal = propose(alloc, shared, snapshot)?;
    match desk.commit(rt, seat, proposal) {
        Ok(receipt) => Ok(receipt),
        Err((fault, _)) => Err(at_commit(fault)),
    }
}
