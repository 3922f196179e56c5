//! From the replies to the statements of a document to its entries and refusals.
ghost use Rattle.std.specs.Prelude.{◌≡◌, ◌<◌, ◌+◌, ℕ, length, map, take, IfOk, IfErr, OnOk, Some, true, false};
ghost use Rattle.std.specs.List.{list_any};
ghost use Rattle.std.specs.Arc.{arc_value};
ghost use Rattle.sno_book.specs.Books.{view_of};
ghost use Rattle.sno_desk.specs.Replies.{IsReply};
ghost use Rattle.sno_desk.specs.Turns.{AreReplies};
ghost use Rattle.sno_rewrite.specs.Histories.{history_seen};
ghost use Rattle.sno_rewrite.specs.Owners.{AreInTurn, IsAlone, IsReplyWithin, IsAuditOrMemory, IsListed, IsUnsettled, Lists, is_short, is_stopped, reason_in};
ghost use Rattle.sno_rewrite.specs.Serial.{run_from};
ghost use Rattle.sno_rewrite.specs.Shared.{Settles};
ghost use Rattle.sno_rewrite.specs.declared.faults.RunFault.TheVariants.{Audit as AuditFailed, Memory as MemoryRefused, Stopped as StoppedThere};

use crate::RunFault;
use crate::owners::owners;
use crate::serial::{BookWithRefusals, refuse};
use sno_book::Book;
use sno_desk::{Reply, SubmitFault};
use sno_listing::{Reason, Refusal};
use sno_statement::Statement;
use std::alloc::Global;
use std::sync::Arc;

/// The reason for which the statement is listed as refused, if the fault is one.
fn reason(fault: &SubmitFault) -> Option<Reason>
    ensures { result ≡ reason_in fault.now }
{
    match *fault {
        SubmitFault::NoText => Some(Reason::NoText),
        SubmitFault::TextTooLong => Some(Reason::TextTooLong),
        SubmitFault::TooManyTrials => Some(Reason::TooManyTrials),
        SubmitFault::TriesSpent { seen, now } => Some(Reason::TriesSpent { seen, now }),
        SubmitFault::GateShut | SubmitFault::Stopped | SubmitFault::Full | SubmitFault::Memory =>
            None,
    }
}

/// Takes one reply. A refusal is listed after the earlier ones. `Audit` if the reply is neither a receipt nor a refusal.
fn list(statement: &Statement, reply: &Reply, refused: &mut Vec<Refusal>) -> Result<(), RunFault>
    ensures listed { OnOk result (IsListed statement.now reply.now refused.old.items refused.new.items) }
    ensures fault { IfErr result IsAuditOrMemory }
{
    match reply {
        Ok(_) => Ok(()),
        Err(fault) => match reason(fault) {
            Some(reason) => {
                refuse(refused, statement, reason)?;
                Ok(())
            }
            None => Err(RunFault::Audit),
        },
    }
}

/// The refused statements, in their order.
fn refusals_of(
    alloc: Global,
    statements: &[Arc<Statement>],
    replies: &[Reply],
) -> Result<Vec<Refusal>, RunFault>
    requires { length replies.now ≡ length statements.now }
    ensures lists { IfOk result (λ v. Lists (map arc_value statements.now) replies.now v.items) }
    ensures fault { IfErr result IsAuditOrMemory }
{
    let mut refused = Vec::new(alloc);
    for (statement, reply) in statements.iter().zip(replies.iter()) {
        list(statement, reply, &mut refused)?;
    }
    Ok(refused)
}

/// Whether memory ran out for one of the statements.
pub(crate) fn is_any_short(replies: &[Reply]) -> bool
    ensures { result ≡ list_any is_short replies.now }
{
    replies
        .iter()
        .any(|reply| matches!(reply, Err(SubmitFault::Memory)))
}

/// Whether nothing more was shown to the seat of one of the statements.
fn is_any_stopped(replies: &[Reply]) -> bool
    ensures { result ≡ list_any is_stopped replies.now }
{
    replies
        .iter()
        .any(|reply| matches!(reply, Err(SubmitFault::Stopped)))
}

/// Returns the book that the statements left, with those that were refused. Each entry of its journal must belong to
/// one receipt.
///
/// Refused, in this order:
///
/// - `Memory` if a reply is `Memory`;
/// - `Stopped` if a reply is `Stopped`;
/// - `Audit` if a reply can't be that of a legal run, or an entry doesn't belong to one receipt; or `Memory`.
///
/// The book is dropped then.
#[tactic(auto, using(crate::proofs::ReplyLemmas::settles, crate::proofs::ReplyLemmas::replied))]
pub(crate) fn settle_replies(
    alloc: Global,
    book: Book,
    statements: &[Arc<Statement>],
    replies: &[Reply],
    tries: u32,
) -> Result<BookWithRefusals, RunFault>
    requires allowed { AreReplies (IsReply (λ _ _. ⊥) tries book.opening) (map arc_value statements.now) replies.now }
    requires within { AreReplies (IsReplyWithin tries (view_of book)) (map arc_value statements.now) replies.now }
    ensures book { IfOk result (λ p. p.book ≡ book) }
    ensures settles { IfOk result (λ p. (workers : ℕ) → AreInTurn workers replies.now → Settles workers tries book.opening (map arc_value statements.now) (history_seen p)) }
    ensures alone { IfOk result (λ p. IsAlone tries (view_of book) (map arc_value statements.now) replies.now → run_from book.opening (map arc_value statements.now) ≡ Some (history_seen p)) }
    ensures memory { list_any is_short replies.now ≡ true → IfErr result (λ e. e ≡ MemoryRefused) }
    ensures stopped { list_any is_short replies.now ≡ false → list_any is_stopped replies.now ≡ true → IfErr result (λ e. e ≡ StoppedThere) }
    ensures fault { IfErr result IsUnsettled }
{
    if is_any_short(replies) {
        return Err(RunFault::Memory);
    }
    if is_any_stopped(replies) {
        return Err(RunFault::Stopped);
    }
    let refused = refusals_of(alloc, statements, replies)?;
    let _owners = owners(alloc, book.journal().len(), replies)?; // for the proof
    Ok(BookWithRefusals { book, refused })
}
