//! Listings of a book: its texts, its journal and the statements that were refused, in lines or as JSON.
//!
//! [`listing_of`] writes either, by `listing` of `specs/Listing.antt` and `json_listing` of `specs/JsonListing.antt`.
//! The JSON as a value: [`listing_value`]. Parts of it: [`done_members`], [`entry_values`], [`text_members`],
//! [`text_values`], [`reason_value`], [`text_name_value`]. An entry alone, token by token: [`put_entry`], or [`put_head`] and [`put_tail`].
//!
//! | File | What it does |
//! |---|---|
//! | `refusals` | `Refusal`, with its `Reason` |
//! | `listing`, `json_listing` | the lines, and the same as JSON |
//! | `entry_tokens` | entries as JSON, without a value |
//! | `forms` | either of them for a book |
#![tactic(auto)]

mod entry_tokens;
mod forms;
mod json_listing;
mod listing;
mod refusals;

pub use entry_tokens::{put_entry, put_head, put_tail};
pub use forms::listing_of;
pub use json_listing::{
    done_members, entry_values, listing_value, reason_value, text_members, text_name_value,
    text_values,
};
pub use refusals::{Reason, Refusal};
pub use sno_book::Book;
