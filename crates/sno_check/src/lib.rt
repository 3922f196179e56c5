//! What is wrong with a document, everything at once, and what in it is probably not meant.
//!
//! [`check`] takes the bytes of a document to a [`Report`]: its errors, each with its place and with what to write
//! instead, and its warnings. There is an error exactly if `read_document` of `sno_document` has a fault, and the first
//! error is that fault (`IsReported` of `specs/Reports.antt`). [`statement_warnings`] has the warnings of one statement that was read.
//! What else is found is tested, not proved. What a finding is, and what single patterns and bytes say, is in `sno_findings`.
//!
//! | File | What it does |
//! |---|---|
//! | `checking` | `check`, `member_warnings` |
//! | `rules` | `check_rules`, `check_rule_rows`: the same of rules |
//! | `rows`, `members` | the document as it is written, with wrong shapes; unknown and repeated members |
//! | `vocabulary`, `definitions`, `texts`, `statements` | the faults of each part, found independently |
//! | `single` | `statement_warnings`: what one statement that was read probably doesn't mean |
//! | `cycles` | definitions that refer to one another in a cycle |
//! | `reach` | which definitions a pattern reaches, and what these assign |
//! | `expressions` | patterns and objects that can't be read |
#![tactic(auto)]

mod checking;
mod cycles;
mod definitions;
mod expressions;
mod members;
mod reach;
mod rows;
mod rules;
mod single;
mod statements;
mod texts;
mod vocabulary;

pub use checking::{USUAL, check, member_warnings};
pub use rules::{check_rule_rows, check_rules};
pub use single::statement_warnings;
pub use sno_document::{DocumentFault, StatementRow};
pub use sno_findings::{Excerpt, Form, Mistake, Place, Report, Warning, json_of, lines_of};
