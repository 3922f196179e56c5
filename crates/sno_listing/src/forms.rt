//! The listing of a book.
ghost use Rattle.std.specs.Prelude.{◌≡◌, IfOk};
ghost use Rattle.sno_book.specs.Books.{view_of};
ghost use Rattle.sno_listing.specs.History.{history_of};
ghost use Rattle.sno_listing.specs.Forms.{listing_by};

use crate::Refusal;
use crate::json_listing::json_listing;
use crate::listing::listing;
use sno_book::Book;
use std::alloc::{AllocError, Global};

/// Returns the listing of a book's texts, of its journal, and of the refused statements: as JSON if `json` is true,
/// otherwise in lines. Refused only if memory runs out.
pub fn listing_of(
    alloc: Global,
    book: &Book,
    refused: &[Refusal],
    json: bool,
) -> Result<Vec<u8>, AllocError>
    ensures { IfOk result (λ v. v.items ≡ listing_by json (history_of (view_of book.now) refused.now)) }
{
    if json {
        json_listing(alloc, book, refused)
    } else {
        listing(alloc, book, refused)
    }
}
