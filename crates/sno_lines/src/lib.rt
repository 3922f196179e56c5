//! Rules in lines that are given, by options and in files: their parts as they are spelled, and what is found in them.
//!
//! [`GivenLines`] holds the lines, and [`SpelledLines`] what `sno_rules` spells for them, each definition that is needed and each
//! rule. What can't be spelled is a [`LineMistake`]. What `sno_check` finds in the rows of the rules is brought back to the lines by
//! [`report_in_lines`]. Each call ends and is safe; what is found and how it is shown is tested, not proved.
//!
//! | File | What it does |
//! |---|---|
//! | `given_lines` | definitions and rules, each in a line, with where it comes from |
//! | `spelled_lines` | the lines as they are spelled, and those that can't be |
//! | `line_rows` | the rows of the lines, for `sno_document` |
//! | `used_sets` | the definitions that sets use |
//! | `line_faults` | faults of lines and of their parts, with their places in the lines |
//! | `reports` | what a check finds in rules, by their lines |
//! | `report_lines`, `report_json` | a report in lines and as JSON |
#![tactic(auto)]

mod given_lines;
mod line_faults;
mod line_rows;
mod report_json;
mod report_lines;
mod reports;
mod spelled_lines;
mod used_sets;

pub use given_lines::{GivenLine, GivenLines, NoLines, Source};
pub use line_faults::{LineMistake, mistake_of_fault};
pub use line_rows::{PatternRows, RuleRows, rows_of};
pub use report_json::json_of_report;
pub use report_lines::{lines_of_mistake, lines_of_report};
pub use reports::{LineReport, LineWarning, report_in_lines};
pub use spelled_lines::{SpelledDefinition, SpelledLines, SpelledPart, SpelledRule};
pub use used_sets::used_by_sets;
