//! What statements match in a file.
//!
//! [`find_in`] seeks rules in the text of one file, without changing it. What it finds is said by `specs/Findings.antt`:
//!
//! - A statement is sought if it is for the file: if the name of its text is the file's path, or `*`. Its object isn't looked at.
//! - Of a statement for all matches all of them are found, of any other, also a repeated one, the first.
//! - Findings are in the order of their start, and those that start at one place in the order of their statements' numbers.
//! - Each statement may take the trials that the rules allow on a text of this length. The first that takes more is refused, and
//!   nothing is found then.
//!
//! [`put_line`] writes a finding as `path:line:column:` with the whole line on which it starts, and [`put_count`] how many there
//! are (`specs/Lines.antt`). [`put_json`] writes a finding as a JSON object, with the values of its variables, and
//! [`put_string`] a string (`specs/Json.antt`). [`write_edit_rows`] writes so what rules match that are performed in turn, each in the
//! text that those before it left (`specs/EditRows.antt`).
//!
//! | File | What it does |
//! |---|---|
//! | `faults` | `FindFault`: why nothing is found |
//! | `hits` | the matches of each statement, and their order |
//! | `places` | the position of a place that comes after another |
//! | `findings` | `Finding`, `find_in` |
//! | `counts` | `count_in`: how many there are; none is kept |
//! | `lines`, `json` | findings as lines, and as JSON |
//! | `edit_rows` | what rules match that are performed in turn, as JSON |
//!
//! How long a search takes, and what memory it needs, is as for `sno_statement::BytePass`. The text is gone through once more, to
//! count lines, however many findings there are; no clause says so.
#![tactic(auto)]

mod counts;
mod edit_rows;
mod faults;
mod findings;
mod hits;
mod json;
mod lines;
mod places;

pub use counts::count_in;
pub use edit_rows::{RowsFault, write_edit_rows};
pub use faults::FindFault;
pub use findings::{Finding, find_in};
pub use json::{put_json, put_string};
pub use lines::{put_count, put_line};
pub use sno_edit::{EditRules, Position};
pub use sno_pattern::ByteText;
pub use sno_statement::{ByteBindings, SpanValue};
