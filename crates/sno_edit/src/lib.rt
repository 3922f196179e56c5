//! Statements performed on files.
//!
//! Rules are statements that are performed on each of several files, in order. A [`Folder`] holds the files. What a file
//! holds after [`edit_files`] is the text that the rules leave of it, or what it held; its report says which
//! (`specs/Files.antt`).
//!
//! - A statement is for the file whose path is the name of its text. If that is `*`, it is for every file.
//! - The statements that are for a file are performed on it in turn, each on the text that those before it left. If one
//!   of them is refused, the file stays as it was.
//! - A statement that would make a text that is not UTF-8 of one that is, is refused: so UTF-8 stays UTF-8. Other texts
//!   are edited as the bytes that they are.
//! - A file that doesn't change isn't written.
//! - [`script_of`] compares two texts line by line; its clause says that the script takes one to the other.
//! - [`unified_diff`] writes a script as hunks; its clause says that they take the old lines to the new ones.
//!
//! | File | What it does |
//! |---|---|
//! | `rules` | `EditRules`: the statements, read from JSON or from rows |
//! | `line_rules` | rules and definitions in lines as rows |
//! | `trials` | `Trials`: how many trials a statement may take on a text |
//! | `edits` | the statements on one text |
//! | `turns` | one of them on a text |
//! | `utf8` | whether a text is UTF-8 |
//! | `positions` | `Position`: the line and the column of a place |
//! | `folders` | `Folder`, and why a file is not read or written |
//! | `faults` | `FileFault`: why a file stays as it was |
//! | `files` | `plan_file`, `edit_file`, `edit_files` |
//! | `batches` | files that are planned one after the other and then written together |
//! | `tallies` | what became of files, counted, and the status to end with |
//! | `scripts` | the lines that two texts share, and those that only one has |
//! | `hunks` | a script as a unified diff |
#![tactic(auto)]

mod batches;
mod edits;
mod faults;
mod files;
mod folders;
mod hunks;
mod line_rules;
mod positions;
mod rules;
mod scripts;
mod tallies;
mod trials;
mod turns;
mod utf8;

pub use edits::{CutCharacter, RefusedStatement, is_for};
pub use faults::FileFault;
pub use files::{Done, Plan, edit_file, edit_files, plan_file};
pub use folders::{Folder, NewText, ReadFault, WriteFault};
pub use hunks::unified_diff;
pub use line_rules::{definition_row, rule_row};
pub use positions::{Position, next_column, next_line};
pub use rules::EditRules;
pub use scripts::{DiffLine, Mark, script_of};
pub use sno_document::{DocumentFault, StatementRow};
pub use sno_pattern::ByteText;
pub use sno_statement::{FileStatementFault, MAX_TRIALS, Statement};
pub use tallies::{Purpose, Tally};
pub use trials::Trials;
pub use turns::{Turn, turn_of};
