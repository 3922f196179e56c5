//! Documents: JSON with definitions, texts and statements, checked in a fixed order, and the first fault of input that
//! is not a document.
//!
//! [`read_document`] takes the bytes to a [`Document`], whose texts are in a book, or to the first fault of the bytes,
//! by `IsDocument` of `specs/Document.antt`. Bytes have only one such result ([`one_result`]). `DocumentFault::Memory` is a
//! further result. [`read_rules`] reads statements for files, whose literals may have any bytes (`IsRules` of `specs/Rules.antt`).
//! [`read_statement`] reads one statement alone, for definitions that are there (`specs/Single.antt`), and
//! [`read_bound_statement`] one in which names represent texts (`specs/Bound.antt`). [`tree_in`], [`member`], [`whole_in`] and
//! [`statement_of_tree`] do so in steps, for a caller that wants more of the JSON.
//!
//! | File | What it does |
//! |---|---|
//! | `faults` | `DocumentFault`, with the line of each |
//! | `trees`, `members`, `document_rows` | the JSON tree of the bytes; its members; the rows of the document as it is written |
//! | `definitions`, `texts`, `statements`, `documents` | the checks, in the order of the document |
//! | `last_patterns` | one pattern for statements in a row that are written alike |
//! | `patterns` | a pattern, in the characters that it may have |
//! | `rules`, `file_statements`, `file_rules` | statements that are read for files |
//! | `single`, `bound` | one statement alone; one in which names represent texts |
//! | `rounds` | how often a statement is to be repeated |
//! | `laws` | what follows from the definitions |
//!
//! `Book` is that of `sno_book`, `Statement` that of `sno_statement`, `Name` and `Rules` those of `sno_pattern`, and `ReadFault` that of
//! `sno_read`.
#![tactic(auto)]

mod bound;
mod definitions;
mod document_rows;
mod documents;
mod faults;
mod file_rules;
mod file_statements;
mod last_patterns;
mod laws;
mod members;
mod modes;
mod patterns;
mod rounds;
mod rules;
mod single;
mod statements;
mod texts;
mod trees;

pub use bound::{Bound, read_bound_statement};
pub use document_rows::StatementRow;
pub use documents::{Document, MAX_DOCUMENT, read_document};
pub use faults::DocumentFault;
pub use file_rules::FileRules;
pub use laws::one_result;
pub use members::member;
pub use modes::Mode;
pub use rules::{read_rules, rules_of_rows};
pub use single::{read_statement, statement_of_tree};
pub use sno_book::Book;
pub use sno_pattern::{Name, Rules};
pub use sno_read::ReadFault;
pub use sno_statement::{FileStatement, Statement};
pub use statements::MAX_STATEMENTS;
pub use trees::{MAX_DEPTH, tree_in, whole_in};
