//! A book, and what is done to it.
ghost use Rattle.std.specs.Prelude.{◌≡◌, IfOk, IfErr};
ghost use Rattle.sno_book.specs.Books.{view_of};
ghost use Rattle.sno_book.specs.Views.{IsPrefix, View};

use crate::row::{Heading, Row, admit, outcome_line, statement, tell_text, text_of};
use sno_book::{Book, CommitFault, Opening, Proposal, Receipt, SnapshotFault, propose};
use sno_pattern::{Text, TextName};
use sno_statement::{Statement, StatementFault};
use std::alloc::Global;
use std::marker::Model;
use std::mem;
use std::sync::Arc;
use std::test::Fail;
use thiserror::Error;

/// A text as it is written: its name, its characters, and how many times they are written.
pub(crate) type NamedText<'l> = (&'l str, &'l str, u32);

/// A statement that is proposed: its number, the name of the text whose snapshot it is proposed on, and what it does to
/// the text that its row names.
#[derive(Clone, Copy)]
pub(crate) struct Job<'l> {
    pub number: u32,
    pub on: &'l str,
    pub row: Row<'l>,
}

/// A book, the proposal that is kept for later, if there is one, the receipts of what the book accepted, and those of the book before it.
#[derive(Drop)]
pub(crate) struct Shelf {
    book: Book,
    kept: Option<Proposal>,
    receipts: Vec<Receipt>,
    earlier: Vec<Receipt>,
}

impl Model for Shelf {
    ghost use Rattle.std.specs.Prelude.{IfSome};
    ghost use Rattle.sno_book.specs.Books.{Book, book_code, view_of};
    ghost use Rattle.sno_book.specs.Views.{IsPrefix};

    ghost Value = { Book };

    ghost coded = { book_code };

    ghost view = { λ s. s.book };

    ghost invariant = { λ s. IfSome s.kept (λ p. IsPrefix p.origin (view_of s.book)) };
}

fn text_name(alloc: Global, name: &str) -> Result<TextName, Fail> {
    Ok(TextName::new(alloc, name.as_bytes())?)
}

/// The texts, each with its name.
fn named_texts(alloc: Global, texts: &[NamedText<'_>]) -> Result<Vec<(TextName, Text)>, Fail> {
    let mut rows = Vec::new(alloc);
    for (name, characters, times) in texts {
        rows.push((text_name(alloc, name)?, text_of(alloc, characters, *times)?))?;
    }
    Ok(rows)
}

/// A book of these texts. Its journal has room for `room` entries.
fn book_of(alloc: Global, texts: &[NamedText<'_>], room: u32) -> Result<Book, Fail> {
    let texts = named_texts(alloc, texts)?;
    if room <= 1_000_000 {
        Ok(Book::new(alloc, texts, room)?)
    } else {
        Err("too much room".into())
    }
}

fn heading<'l>(alloc: Global, job: &Job<'l>) -> Result<Heading<'l>, Fail> {
    Ok(Heading {
        number: job.number,
        text: text_name(alloc, job.row.text)?,
        task: job.row.task,
    })
}

fn job_statement(alloc: Global, job: &Job<'_>) -> Result<Arc<Statement>, Fail> {
    let rules = admit(alloc, &[])??;
    let heading = heading(alloc, job)?;
    let statement = statement(alloc, rules, heading)??;
    Ok(Arc::new(alloc, Box::into_inner(statement))?)
}

/// Why a statement isn't proposed.
#[derive(Drop, Debug, Error)]
enum NotProposed {
    #[error(transparent)]
    Snapshot(SnapshotFault),
    #[error(transparent)]
    Statement(StatementFault),
}

/// Proposes the statement on the current text of this name.
#[tactic(auto, using(sno_book::proofs::Kinship::of_snapshot, sno_book::proofs::Kinship::of_proposal, sno_book::proofs::Kinship::begins_itself))]
fn propose_on(
    alloc: Global,
    book: &Book,
    name: &TextName,
    statement: Arc<Statement>,
) -> Result<Proposal, NotProposed>
    ensures { IfOk result (λ p. IsPrefix p.origin (view_of book.now)) }
{
    match book.snapshot(name) {
        Err(fault) => Err(NotProposed::Snapshot(fault)),
        Ok(snapshot) => {
            propose(alloc, statement, snapshot).map_err(|fault| NotProposed::Statement(fault))
        }
    }
}

/// The result of proposing the statement of the job.
fn propose_job(
    alloc: Global,
    book: &Book,
    job: &Job<'_>,
) -> Result<Result<Proposal, NotProposed>, Fail>
    ensures { IfOk result (λ given. IfOk given (λ p. IsPrefix p.origin (view_of book.now))) }
{
    let statement = job_statement(alloc, job)?;
    Ok(propose_on(alloc, book, &text_name(alloc, job.on)?, statement))
}

/// Writes a text with its name.
fn tell_named(alloc: Global, name: &TextName, text: &Text, line: &mut String) -> Result<(), Fail> {
    line.push_str(str::from_utf8(name.bytes())?)?;
    line.push_str(" ")?;
    tell_text(alloc, text, line)
}

/// Writes the text at a place of the book, with its name and version.
fn tell_place(alloc: Global, book: &Book, place: usize, line: &mut String) -> Result<(), Fail> {
    let (name, text, version) = book.text(place).ok_or("no text")?;
    tell_named(alloc, name, text, line)?;
    Ok(line.push_str(format!(in alloc; " {version}, ")?.as_str())?)
}

/// Writes the text at a place of the opening, with its name.
fn tell_opening(
    alloc: Global,
    opening: &Opening,
    place: usize,
    line: &mut String,
) -> Result<(), Fail> {
    let (name, text) = opening.row(place).ok_or("no text")?;
    line.push_str(", ")?;
    tell_named(alloc, name, text, line)
}

/// The version that the statement was performed on, and its outcome.
fn proposal_line(alloc: Global, proposal: &Proposal) -> Result<String, Fail> {
    let outcome = outcome_line(alloc, proposal.outcome())?;
    Ok(format!(in alloc; "version {}, {outcome}", proposal.version())?)
}

/// The index of the entry, the version and the text that its statement was performed on, and the outcome.
fn receipt_line(alloc: Global, receipt: &Receipt) -> Result<String, Fail> {
    let outcome = outcome_line(alloc, &receipt.entry.outcome)?;
    let version = receipt.entry.version;
    Ok(format!(in alloc; "{}: version {version}, {outcome}", receipt.index)?)
}

/// Prepares the proposal and accepts it. A view that began the book's view still begins it.
#[tactic(auto, using(sno_book::proofs::Kinship::is_related, sno_book::proofs::Kinship::related_after, sno_book::proofs::Kinship::grows))]
fn prepare_and_finish(
    book: &mut Book,
    proposal: Proposal,
) -> Result<Result<Receipt, CommitFault>, Fail>
    requires { IsPrefix proposal.origin (view_of book.old) }
    ensures { (v : View) → IsPrefix v (view_of book.old) → IsPrefix v (view_of book.new) }
{
    match book.prepare(proposal) {
        Err((fault, _)) => Ok(Err(fault)),
        Ok(ready) => {
            let entry = ready.entry().share()?;
            let receipt = book.finish(ready);
            if entry.statement.number() == receipt.entry.statement.number()
                && entry.version == receipt.entry.version
            {
                Ok(Ok(receipt))
            } else {
                Err("another entry was prepared".into())
            }
        }
    }
}

/// Prepares the proposal and takes it back, or returns why it is refused. The same proposal comes back.
#[tactic(auto, using(sno_book::proofs::Kinship::is_related, sno_book::proofs::Kinship::held, sno_book::proofs::Kinship::still))]
fn prepare_and_take_back(book: &mut Book, proposal: Proposal) -> (Option<CommitFault>, Proposal)
    requires { IsPrefix proposal.origin (view_of book.old) }
    ensures kept { IsPrefix result.1.origin (view_of book.new) }
{
    match book.prepare(proposal) {
        Ok(ready) => (None, ready.back()),
        Err((fault, back)) => (Some(fault), back),
    }
}

/// Accepts the proposal, or returns it with the reason why it is refused.
#[tactic(auto, using(sno_book::proofs::Kinship::is_related, sno_book::proofs::Kinship::still))]
fn commit(book: &mut Book, proposal: Proposal) -> Result<Receipt, (CommitFault, Proposal)>
    requires { IsPrefix proposal.origin (view_of book.old) }
    ensures { IfErr result (λ r. IsPrefix r.1.origin (view_of book.new)) }
{
    book.commit(proposal)
}

impl Shelf {
    /// A shelf with a book that has no texts.
    pub(crate) fn new(alloc: Global) -> Result<Shelf, Fail> {
        Ok(Shelf {
            book: book_of(alloc, &[], 0)?,
            kept: None,
            receipts: Vec::new(alloc),
            earlier: Vec::new(alloc),
        })
    }

    /// Opens another book, which replaces the book of the shelf.
    pub(crate) fn open(
        &mut self,
        alloc: Global,
        texts: &[NamedText<'_>],
        room: u32,
    ) -> Result<(), Fail> {
        let book = book_of(alloc, texts, room)?;
        let earlier = mem::replace(&mut self.receipts, Vec::new(alloc));
        *self = Shelf {
            book,
            kept: None,
            receipts: Vec::new(alloc),
            earlier,
        };
        Ok(())
    }

    /// Proposes the statement, and keeps the proposal.
    pub(crate) fn keep(&mut self, alloc: Global, job: &Job<'_>) -> Result<String, Fail> {
        match propose_job(alloc, &self.book, job)? {
            Err(fault) => Ok(fault.to_string(alloc)?),
            Ok(proposal) => {
                let line = proposal_line(alloc, &proposal)?;
                self.kept = Some(proposal);
                Ok(line)
            }
        }
    }

    /// Proposes the statement, prepares the proposal, and accepts it.
    pub(crate) fn perform(&mut self, alloc: Global, job: &Job<'_>) -> Result<String, Fail> {
        match propose_job(alloc, &self.book, job)? {
            Err(fault) => Ok(fault.to_string(alloc)?),
            Ok(proposal) => self.finish(alloc, proposal),
        }
    }

    fn finish(&mut self, alloc: Global, proposal: Proposal) -> Result<String, Fail>
        requires { IsPrefix proposal.origin (view_of self.old) }
    {
        match prepare_and_finish(&mut self.book, proposal)? {
            Err(fault) => Ok(fault.to_string(alloc)?),
            Ok(receipt) => self.record(alloc, receipt),
        }
    }

    fn record(&mut self, alloc: Global, receipt: Receipt) -> Result<String, Fail> {
        let line = receipt_line(alloc, &receipt)?;
        self.receipts.push(receipt)?;
        Ok(line)
    }

    /// Prepares the proposal that is kept, and takes it back.
    pub(crate) fn take_back(&mut self, alloc: Global) -> Result<String, Fail> {
        let proposal = self.kept.take().ok_or("none is kept")?;
        let (fault, proposal) = prepare_and_take_back(&mut self.book, proposal);
        let line = proposal_line(alloc, &proposal)?;
        self.kept = Some(proposal);
        match fault {
            None => Ok(line),
            Some(fault) => Ok(fault.to_string(alloc)?),
        }
    }

    /// Accepts the proposal that is kept. If it is refused, it is still kept.
    pub(crate) fn commit(&mut self, alloc: Global) -> Result<String, Fail> {
        let proposal = self.kept.take().ok_or("none is kept")?;
        match commit(&mut self.book, proposal) {
            Ok(receipt) => self.record(alloc, receipt),
            Err((fault, back)) => {
                self.kept = Some(back);
                Ok(fault.to_string(alloc)?)
            }
        }
    }

    /// Whether memory is kept for one entry more.
    pub(crate) fn spare_line(&self, alloc: Global) -> Result<String, Fail> {
        Ok(format!(in alloc; "{}", self.book.has_spare())?)
    }

    /// The texts, each with its name and version, and how many entries there are.
    pub(crate) fn texts_line(&self, alloc: Global) -> Result<String, Fail> {
        let mut line = String::new(alloc);
        for place in 0..self.book.len() {
            tell_place(alloc, &self.book, place, &mut line)?;
        }
        let count = self.book.journal().len();
        line.push_str(format!(in alloc; "{count} entries")?.as_str())?;
        Ok(line)
    }

    /// What the book began with: how many entries there is room for, and the texts, each with its name.
    pub(crate) fn opening_line(&self, alloc: Global) -> Result<String, Fail> {
        let opening = self.book.opening();
        let mut line = opening.room().to_string(alloc)?;
        for place in 0..opening.len() {
            tell_opening(alloc, opening, place, &mut line)?;
        }
        Ok(line)
    }

    /// The place of the first receipt that isn't the book's, if there is one: among those that it gave, and among those
    /// of the book before it.
    pub(crate) fn audit_line(&self, alloc: Global) -> Result<String, Fail> {
        let own = self.book.audit(&self.receipts);
        let earlier = self.book.audit(&self.earlier);
        Ok(format!(in alloc; "{:?}, {:?}", own.err(), earlier.err())?)
    }
}
