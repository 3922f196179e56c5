//! What a document's bytes, patterns and objects say, each for itself, and what to write instead.
//!
//! `sno_check` goes over a document and collects what is found here in a [`Collector`]. A finding is an error, which is a
//! [`Mistake`], or a [`Warning`], and a [`Report`] has all of them. Each call ends and is safe; which findings there are
//! and what they say is tested, not proved.
//!
//! | File | What it does |
//! |---|---|
//! | `findings` | `Report`, `Mistake`, `Warning`, `Place`, `Excerpt` |
//! | `collector` | findings, as they are collected |
//! | `lines`, `json_lines` | `lines_of` and `json_of`: a report in lines and as JSON |
//! | `json_walk`, `json_places` | where bytes stop being JSON, and what is wanted there |
//! | `whose` | the expressions of a document: patterns and objects |
//! | `element_lines` | the lines of a document on which its parts begin |
//! | `facts`, `edges` | what a pattern assigns, refers to and seeks, and what can't come after its parts |
//! | `warnings` | what patterns and objects probably don't mean |
//! | `ambiguous` | repetitions that can take the same characters in more than one way |
//! | `found_again` | whether a repeated statement may find again what its object puts in |
//! | `advice`, `reading` | what to write instead, by a fault of the document or of an expression |
//! | `habits` | what other languages write, and what is written here instead |
//! | `spelling` | the known name that is nearest to a word |
//! | `excerpts`, `ascii` | the characters around a place; ASCII characters as text |
#![tactic(auto)]

mod advice;
mod ambiguous;
mod ascii;
mod collector;
mod edges;
mod element_lines;
mod excerpts;
mod facts;
mod findings;
mod found_again;
mod habits;
mod json_lines;
mod json_places;
mod json_walk;
mod lines;
mod reading;
mod spelling;
mod warnings;
mod whose;

pub use advice::advice_of;
pub use ascii::text_of;
pub use collector::Collector;
pub use edges::Blocked;
pub use element_lines::{ElementLines, lines_of_elements};
pub use excerpts::{Position, around, position_of, shown};
pub use facts::{Facts, bit, facts_of};
pub use findings::{Excerpt, Form, Mistake, Place, Report, Warning};
pub use habits::habit_advice;
pub use json_lines::json_of;
pub use json_places::json_mistake;
pub use lines::{lines_of, put_mistake, put_pointed, put_source};
pub use reading::{WIDE_SET_ADVICE, place_of, reading_advice};
pub use sno_document::DocumentFault;
pub use spelling::nearest;
pub use warnings::{
    warn_of_facts, warn_of_growth, warn_of_literals, warn_of_missing_text, warn_of_variables,
};
pub use whose::Whose;
