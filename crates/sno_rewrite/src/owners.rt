//! To which statement each entry of a journal belongs.
ghost use Rattle.std.specs.Prelude.{◌≡◌, length, set, slice_get, IfOk, IfErr, IsSome, OnOk, Some, None};
ghost use Rattle.std.specs.List.{All};
ghost use Rattle.sno_rewrite.specs.Owners.{Owns, IsAuditOrMemory};
ghost use Rattle.sno_rewrite.specs.declared.faults.RunFault.TheVariants.{Audit};

use crate::RunFault;
use sno_desk::Reply;
use std::alloc::Global;

/// Notes that the entry at an index is that of the statement at a place. `Audit` if there is no such entry, or another
/// statement owns it.
fn note(owners: &mut [Option<usize>], index: usize, place: usize) -> Result<(), RunFault>
    ensures free { OnOk result (slice_get owners.old index ≡ Some None) }
    ensures noted { OnOk result (owners.new ≡ set owners.old index (Some place)) }
    ensures fault { IfErr result (λ e. e ≡ Audit) }
{
    let Some(None) = owners.get(index) else {
        return Err(RunFault::Audit);
    };
    owners[index] = Some(place);
    Ok(())
}

/// Returns, for each of the journal's entries, the place of the statement whose reply is its receipt.
///
/// Refused: `Audit` if a receipt has no entry, if two receipts have one entry, or if an entry has no receipt; `Memory`.
#[tactic(auto, using(crate::proofs::OwnerLemmas::owns_none))]
pub(crate) fn owners(
    alloc: Global,
    entries: usize,
    replies: &[Reply],
) -> Result<Vec<Option<usize>>, RunFault>
    ensures owns { IfOk result (λ v. Owns entries replies.now (length replies.now) v.items) }
    ensures all { IfOk result (λ v. All (λ o. IsSome o) v.items) }
    ensures fault { IfErr result IsAuditOrMemory }
{
    let mut owners = vec![in alloc; None; entries]?;
    for (place, reply) in replies.iter().enumerate() {
        match reply {
            Ok(receipt) => note(&mut owners, receipt.index, place)?,
            Err(_) => {}
        }
    }
    if owners.iter().all(|owner| owner.is_some()) {
        Ok(owners)
    } else {
        Err(RunFault::Audit)
    }
}
