//! Texts under other numbers of their characters.
//!
//! A match goes by which characters are equal, in a set, or parentheses, and by nothing else of them. So a text of any characters may be
//! matched by its image, which has a byte for each. The laws here say which numbers change nothing, and that those of an image do not
//! (`specs/Renumbering.antt`).
#![tactic(auto)]

mod laws;

pub use laws::{MAX_NAMED, image_numbers_are_faithful, renumbering_keeps_matches};
