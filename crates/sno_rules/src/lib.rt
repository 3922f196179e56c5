//! Rules in one line, and definitions in one line.
//!
//! A rule is a pattern and, after a `=`, an object, as in a statement without its subject. Fields come after it, each with a
//! colon before it. So a line is split at signs that are in no quotes; the grammar of patterns and objects has neither sign.
//!
//! ```text
//! 'colour' = 'color'
//! 'same(' BAL . WANTED ', ' BAL . FOUND ')' = 'expect(' FOUND ').to_be(' WANTED ')'
//! SPAN(' ') RPOS(0) =
//! 'x' = 'y' :first
//! ```
//!
//! What the parts spell is for `sno_read`; here it is only found where they are. `specs/Lines.antt` says what a line is.
//!
//! A hand may write sets by name, as `SPAN(LETTER DIGIT '_')`. [`spelled`] writes them out; `specs/Spelling.antt` says how.
//!
//! | File | What it holds |
//! |---|---|
//! | `signs` | the first sign of a text that is in no quotes |
//! | `pieces` | blanks, words and quotations |
//! | `fields` | the fields of a rule |
//! | `rules` | [`read_rule`] and [`read_definition`] |
//! | `rule_files` | [`lines_of`]: the rules and definitions of a file, with its comments and lines that go on |
//! | `names` | names of sets, and names that mean a literal |
//! | `arguments` | the argument of a set: its parts, joined |
//! | `calls` | the words that take a set, and what is spelled for each |
//! | `spelling` | [`spelled`]: a pattern or an object as `sno_read` reads it |
//! | `faults` | [`LineFault`], [`SpellingFault`], [`RuleFileFault`] |
#![tactic(auto)]

mod arguments;
mod calls;
mod faults;
mod fields;
mod names;
mod pieces;
mod rule_files;
mod rules;
mod signs;
mod spelling;

pub use faults::{LineFault, RuleFileFault, SpellingFault};
pub use names::SetName;
pub use rule_files::{FileLine, LineKind, lines_of};
pub use rules::{LineDefinition, LineRule, read_definition, read_rule};
pub use spelling::{Mark, Spelling, first_piece, set_of, spelled};
