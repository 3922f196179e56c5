//! What is asked of a book that one caller holds.
ghost use Rattle.std.specs.Prelude.{◌≡◌, ◌≢◌, Err, IfErr, IfOk, OnErr, OnOk};
ghost use Rattle.sno_book.specs.Books.{view_of};
ghost use Rattle.sno_document.specs.Document.{IsDocument};
ghost use Rattle.sno_document.specs.declared.faults.DocumentFault.TheVariants.{Memory};
ghost use Rattle.sno_listing.specs.History.{history_of};
ghost use Rattle.sno_listing.specs.JsonListing.{json_listing};
ghost use Rattle.sno_serve.specs.Accepted.{AsksFor};
ghost use Rattle.sno_serve.specs.Replies.{IsLine, too_long_reply};
ghost use Rattle.sno_statement.specs.Statement.{IsLimit};
ghost use Rattle.sno_held_book.specs.Lines.{HasTaken};
ghost use Rattle.sno_held_book.specs.Held.{IsLineReply, IsOpened, IsReplyTo, SameTerms, asked_of, listed_with, number_after};

use crate::{HeldBook, reply_to};
use sno_document::{DocumentFault, Mode, read_document};
use sno_listing::{Refusal, listing_of};
use sno_rewrite::perform_serial;
use sno_serve::{
    Asked, MAX_LINE, MAX_REFUSED, Replied, line_in, line_of, line_with, too_long_reply,
};
use std::alloc::{AllocError, Global};
use std::sync::Arc;

/// The number after a line that asks for this.
fn number_after(asked: &Asked, number: u32) -> u32
    ensures { result ≡ number_after asked.now number }
{
    match asked {
        Asked::Perform(_) | Asked::PerformAt(_, _) => number.saturating_add(1),
        _ => number,
    }
}

/// Lists a refused statement, if there is one and there are no more than may be listed.
fn list_refusal(refused: &mut Vec<Refusal>, refusal: Option<Refusal>) -> Result<(), AllocError>
    ensures listed { OnOk result (refused.new.items ≡ listed_with refused.old.items refusal) }
    ensures same { OnErr result (refused.new.items ≡ refused.old.items) }
{
    let Some(refusal) = refusal else {
        return Ok(());
    };
    if refused.len() < MAX_REFUSED {
        refused.push(refusal)?;
    }
    Ok(())
}

/// The reply to a line that is too long.
fn too_long(alloc: Global) -> Result<Vec<u8>, AllocError>
    ensures { IfOk result (λ v. IsLine too_long_reply v.items) }
{
    let reply = too_long_reply(alloc)?;
    line_of(alloc, &reply)
}

impl HeldBook {
    /// Returns a book of the document that the bytes are. The document's statements were performed on it, in their order.
    ///
    /// Refused as [`read_document`] refuses; with `Memory` also if memory runs out while the statements are performed.
    #[tactic(auto, using(crate::proofs::Replying::opened))]
    pub fn open(alloc: Global, document: &[u8], mode: Mode) -> Result<HeldBook, DocumentFault>
        requires { IsLimit mode.trials }
        ensures opened { IfOk result (λ b. IsOpened mode document.now b) }
        ensures refused { IfErr result (λ e. e ≢ Memory → IsDocument mode document.now (Err e)) }
    {
        let document = read_document(alloc, document, mode)?;
        let rules = Arc::try_clone(&document.rules)?;
        let number = document.statements.len() as u32 + 1;
        let performed = perform_serial(alloc, document)?;
        Ok(HeldBook {
            book: performed.book,
            rules,
            mode,
            number,
            refused: performed.refused,
        })
    }

    /// The reply to a line that isn't too long.
    #[tactic(auto, using(crate::proofs::Replying::line_taken))]
    fn reply_within(&mut self, alloc: Global, line: &[u8]) -> Result<Vec<u8>, AllocError>
        ensures replied { IfOk result (λ v. IsLineReply self.old self.new line.now v.items) }
        ensures taken { HasTaken (AsksFor (asked_of self.old line.now)) (view_of self.old.book) (view_of self.new.book) }
        ensures terms { SameTerms self.old self.new }
        ensures refused { OnErr result (self.new.refused.items ≡ self.old.refused.items) }
    {
        let mut line = line_in(alloc, &self.rules, self.mode, self.number, line)?;
        self.number = number_after(&line.asked, self.number);
        let ignored = line.take_ignored(alloc);
        let Replied { reply, refused } = reply_to(alloc, &mut self.book, line)?;
        let bytes = line_with(alloc, reply, ignored)?;
        list_refusal(&mut self.refused, refused)?;
        Ok(bytes)
    }

    /// Does what a line asks for, and returns the reply, which ends in a line feed. Both are as with `sno serve` at one seat. A line
    /// has at most 16,777,216 bytes; a longer one gets a reply that says so, and nothing is done.
    ///
    /// Refused only if memory runs out. Texts and journal are unchanged then, or the journal has one entry more, of the line's
    /// statement. The listing has no more refused statements than before.
    #[tactic(auto, using(crate::proofs::Replying::too_long, crate::proofs::Replying::within))]
    pub fn reply(&mut self, alloc: Global, line: &[u8]) -> Result<Vec<u8>, AllocError>
        ensures replied { IfOk result (λ v. IsReplyTo self.old self.new line.now v.items) }
        ensures taken { HasTaken (AsksFor (asked_of self.old line.now)) (view_of self.old.book) (view_of self.new.book) }
        ensures terms { SameTerms self.old self.new }
        ensures refused { OnErr result (self.new.refused.items ≡ self.old.refused.items) }
    {
        if line.len() > MAX_LINE {
            let bytes = too_long(alloc)?;
            return Ok(bytes);
        }
        let bytes = self.reply_within(alloc, line)?;
        Ok(bytes)
    }

    /// The JSON listing of the texts, of the journal and of the refused statements, as `sno serve --listing` writes it. It ends in a
    /// line feed. Refused only if memory runs out.
    pub fn listing(&self, alloc: Global) -> Result<Vec<u8>, AllocError>
        ensures { IfOk result (λ v. v.items ≡ json_listing (history_of (view_of self.now.book) self.now.refused.items)) }
    {
        listing_of(alloc, &self.book, &self.refused, true)
    }
}
