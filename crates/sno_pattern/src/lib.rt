//! Patterns, names, texts and definitions, and what it means to match.
//!
//! The definitions that everything rests on are in `specs/`, in this order:
//! - `Tree`: patterns by value;
//! - `Ends`: where the primitives end;
//! - `Events`: lists of what happens;
//! - `Results`: what a pattern does from a cursor;
//! - `Outcome`: the outcome of a match, and how many trials it takes;
//! - `Beginnings`: what a match begins with;
//! - `Guard` and `Admission`: which definitions are admitted.
//!
//! `Examples` has examples that are computed from them.
//!
//! | File | What it holds, and what its functions promise |
//! |---|---|
//! | `identifiers` | `Name`: read exactly if bytes are a name; the sixteen reserved words |
//! | `text_names` | `TextName`: made exactly if bytes are 1 to 255 characters from `!` to `~` |
//! | `texts` | `Text`: made exactly if bytes are at most 65,536 ASCII characters; otherwise the first fault |
//! | `byte_texts` | `ByteText`: made exactly if bytes are at most 16,777,216 |
//! | `classes`, `tables` | `Class`: made exactly if a list is not empty and all ASCII; membership, by a table |
//! | `tree` | `Pattern`: the tree, with 23 variants |
//! | `name_list` | `Names`: at most 64, none reserved, none repeated; the place of a name |
//! | `definitions`, `admission` | `Rules`: admitted exactly if each reference has a definition and each cycle takes a character |
//! | `events`, `found` | what happens while a pattern is matched; the outcome of a match |
//! | `laws`, `cursor_laws` | laws of the definitions, each the contract of a function that does nothing |
#![tactic(auto)]

mod admission;
mod byte_texts;
mod classes;
mod cursor_laws;
mod definitions;
mod events;
mod found;
mod identifiers;
mod laws;
mod name_list;
mod search_laws;
mod tables;
mod text_names;
mod texts;
mod tree;

pub use byte_texts::{ByteText, ByteTextFault, MAX_BYTES};
pub use classes::Class;
pub use cursor_laws::cursors_lie_within_the_text;
pub use definitions::{Rules, RulesFault};
pub use events::{Assign, Assigns, Conds, Event, What};
pub use found::{Found, Hit};
pub use identifiers::{MAX_NAME, Name, is_letter, is_name_char};
pub use laws::{
    a_greater_depth_changes_no_outcome, a_greater_depth_gives_nothing_more,
    a_greater_depth_takes_no_more_trials, a_literal_that_stands_nowhere_costs_one_trial_a_start,
    a_missing_literal_costs_one_trial, a_part_that_takes_ends_past_its_cursor,
    a_repetition_is_null_or_goes_on, definitions_with_a_cycle_are_not_guarded,
    ends_lie_at_or_past_the_cursor, repeats_are_found,
};
pub use name_list::{MAX_DEFINITIONS, Names, NamesFault};
pub use search_laws::{a_search_from_the_first_cursor_is_a_match, searches_lie_within_the_text};
pub use text_names::{MAX_TEXT_NAME, NameFault, TextName};
pub use texts::{MAX_TEXT, Text, TextFault, first_non_ascii};
pub use tree::Pattern;
