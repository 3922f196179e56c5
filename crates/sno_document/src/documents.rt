//! Documents.
ghost use Rattle.std.specs.Prelude.{map, IfOk};
ghost use Rattle.sno_statement.specs.Statement.{IsLimit};
ghost use Rattle.sno_document.specs.Faults.{Gives};
ghost use Rattle.sno_document.specs.DocumentRows.{rows_seen};
ghost use Rattle.sno_document.specs.Document.{document_with};
ghost use Rattle.sno_document.specs.Reads.{document_seen, Reads, IsReady};

use crate::definitions::{admit, definitions};
use crate::document_rows::{Rows, rows_of};
use crate::statements::statements;
use crate::texts::texts;
use crate::trees::value_in;
use crate::{DocumentFault, Mode};
use json::Scratch;
use sno_book::Book;
use sno_pattern::Rules;
use sno_statement::Statement;
use std::alloc::Global;
use std::sync::Arc;

/// The most bytes that a document may have.
pub const MAX_DOCUMENT: usize = 16_777_216;

/// What a document represents, with its texts in a book.
#[derive(Drop)]
pub struct Document {
    /// The definitions, admitted.
    pub rules: Arc<Rules>,
    /// The texts, in a book without entries.
    pub book: Book,
    /// The statements, in the document's order, numbered from 1.
    pub statements: Vec<Arc<Statement>>,
}

/// What comes after the definitions, once they are admitted.
#[tactic(auto, unfolding(crate::specs::Document::document_with))]
pub(crate) fn document_with(
    alloc: Global,
    rules: Rules,
    mode: Mode,
    rows: &Rows<'_>,
) -> Result<Document, DocumentFault>
    requires { IsLimit mode.trials }
    ensures document { Gives document_seen result (document_with rules mode (rows_seen rows.now)) }
    ensures ready { IfOk result (λ d. IsReady d) }
{
    let rules = Arc::new(alloc, rules)?;
    let book = texts(alloc, &rows.texts)?;
    let statements = statements(alloc, &rules, mode, &rows.statements)?;
    Ok(Document {
        rules,
        book,
        statements,
    })
}

/// Returns the document that the bytes are. Its book has no entries yet, and room for 1,000,000. `mode` has what the
/// document's statements don't say themselves, with 1 to 1,000,000,000 trials.
///
/// Refused with the first fault, in this order, each as `specs/Document.antt` checks it:
///
/// - `DocumentTooLong`, `NotJson`, `Shape`;
/// - the faults of the definitions, `Unguarded` last;
/// - those of the texts;
/// - those of the statements.
///
/// `Memory` may come instead of any result. After a refusal nothing is left of the document.
pub fn read_document(alloc: Global, bytes: &[u8], mode: Mode) -> Result<Document, DocumentFault>
    requires { IsLimit mode.trials }
    ensures document { Reads mode bytes.now result }
    ensures ready { IfOk result (λ d. IsReady d) }
{
    let mut scratch = Scratch::new(alloc);
    let value = value_in(alloc, bytes, &mut scratch)?;
    let rows = rows_of(alloc, &value)?;
    drop(value);
    let drafted = definitions(alloc, false, &rows.patterns)?;
    let rules = admit(alloc, drafted)?;
    let document = document_with(alloc, rules, mode, &rows)?;
    Ok(document)
}
