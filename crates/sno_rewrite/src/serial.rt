//! The serial run of a document.
ghost use Rattle.std.specs.Prelude.{◌≡◌, ◌≢◌, ◌≤◌, ◌+◌, ◌++◌, ◌∷◌, [], length, map, OnOk, IfOk, IfErr, Some};
ghost use Rattle.std.specs.Arc.{arc_value};
ghost use Rattle.sno_document.specs.Reads.{document_seen, IsReady};
ghost use Rattle.sno_rewrite.specs.Serial.{refuse, advance, run, serial};
ghost use Rattle.sno_listing.specs.History.{history_of};
ghost use Rattle.sno_document.specs.Document.{room};
ghost use Rattle.sno_rewrite.specs.Histories.{history_seen, HasRoom};

use sno_book::{Book, CommitFault, SnapshotFault, fresh_is_free, fresh_is_related, propose};
use sno_document::Document;
use sno_listing::{Reason, Refusal};
use sno_statement::{Statement, StatementFault};
use std::alloc::{AllocError, Global};
use std::sync::Arc;

/// A book on which statements were performed, and those that were refused.
#[derive(Drop)]
pub struct BookWithRefusals {
    /// The book.
    pub book: Book,
    /// The refused statements, in their order.
    pub refused: Vec<Refusal>,
}

/// Refuses the statement. It is listed after the earlier refused ones.
pub(crate) fn refuse(
    refused: &mut Vec<Refusal>,
    statement: &Statement,
    reason: Reason,
) -> Result<(), AllocError>
    ensures refused { OnOk result (refused.new.items ≡ refused.old.items ++ record { number = statement.now.number; reason = reason } ∷ []) }
{
    let number = statement.number();
    refused.push(Refusal { number, reason })?;
    Ok(())
}

/// Performs one statement on the current text of its name.
fn advance(
    alloc: Global,
    performed: &mut BookWithRefusals,
    statement: &Arc<Statement>,
) -> Result<(), AllocError>
    requires { HasRoom performed.old.book 1 }
    ensures advanced { OnOk result (advance (history_seen performed.old) (arc_value statement.now) ≡ Some (history_seen performed.new)) }
    ensures opening { OnOk result (performed.new.book.opening ≡ performed.old.book.opening) }
    ensures grown { OnOk result (length performed.new.book.journal ≤ length performed.old.book.journal + 1) }
{
    let snapshot = match performed.book.snapshot(statement.text()) {
        Ok(snapshot) => snapshot,
        Err(SnapshotFault::NoText) => {
            refuse(&mut performed.refused, statement, Reason::NoText)?;
            return Ok(());
        }
        Err(SnapshotFault::Memory) => return Err(AllocError),
    };
    let proposal = match propose(alloc, Arc::try_clone(statement)?, snapshot) {
        Ok(proposal) => proposal,
        Err(StatementFault::TextTooLong) => {
            refuse(&mut performed.refused, statement, Reason::TextTooLong)?;
            return Ok(());
        }
        Err(StatementFault::TooManyTrials) => {
            refuse(&mut performed.refused, statement, Reason::TooManyTrials)?;
            return Ok(());
        }
        Err(StatementFault::Memory) => return Err(AllocError),
    };
    // for the proof
    fresh_is_free();
    fresh_is_related();
    match performed.book.commit(proposal) {
        Ok(_) => Ok(()),
        Err((CommitFault::Memory, _)) => Err(AllocError),
        Err(_) => unreachable!(),
    }
}

/// Performs the statements in order.
fn run(
    alloc: Global,
    performed: &mut BookWithRefusals,
    statements: &[Arc<Statement>],
) -> Result<(), AllocError>
    requires { HasRoom performed.old.book (length statements.now) }
    ensures run { OnOk result (run (history_seen performed.old) (map arc_value statements.now) ≡ Some (history_seen performed.new)) }
{
    for statement in statements {
        advance(alloc, performed, statement)?;
    }
    Ok(())
}

/// Performs the statements of the document in order on its texts, and returns what they did. Each is performed by
/// snapshot, proposal and commit. Refused only if memory runs out.
pub fn perform_serial(alloc: Global, document: Document) -> Result<BookWithRefusals, AllocError>
    requires { IsReady document }
    ensures serial { IfOk result (λ p. serial (document_seen document) ≡ Some (history_seen p)) }
{
    let mut performed = BookWithRefusals {
        book: document.book,
        refused: Vec::new(alloc),
    };
    run(alloc, &mut performed, &document.statements)?;
    Ok(performed)
}
