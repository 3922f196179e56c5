//! Statements: a match, its assignments and the replacement.
//!
//! A [`Statement`] has
//!
//! - a pattern to be sought in a text, with the definitions that it refers to;
//! - whether a match begins at cursor 0 alone;
//! - the object whose value replaces the matched part, if that is to be replaced.
//!
//! A statement that replaces may be repeated, each round on the new text of the round before. Any statement may be for all
//! matches, in one pass over its text. [`perform`] performs it on one text and returns the [`Outcome`]: a new text beside the
//! old one, which stays as it is. [`perform_shared`] takes a shared text, which the matches of a statement for all matches then
//! share. A [`Pass`] goes from match to match and keeps none. [`rewrite`] takes the content of a file, a [`ByteText`]: any bytes, up
//! to 16,777,216. It returns only the new text and the number of matches; a [`BytePass`] goes from match to match in one. Nothing is
//! waited for. The newer versions of a text are not this crate's concern.
//!
//! # What is promised, and where
//!
//! The contract of `perform` is one equation: its result, by value, is `perform` of `specs/Perform.antt` for the
//! statement and the text, or `Memory`. That definition is composed of these, each in the language's own terms. None of
//! them is the program written again:
//!
//! - **The match** is `outcome` of `sno_pattern` (its `specs/Outcome.antt`): the first success in the order of starts and
//!   alternatives, and the assignments that were done at once before it, including those that were backed over.
//! - **The bindings** (`specs/Bindings.antt`): first what was assigned at once, in the order in which it was done. Then, only
//!   after a success, the conditional assignments in the order in which their parts ended. A variable keeps the place of its
//!   first assignment and has the value of its last. Both kinds of assignment share the variables.
//! - **The value of the object** (`specs/Value.antt`) is taken from the bindings after all these assignments. A literal is
//!   itself, a string itself, a number its decimal text, and a variable that was never assigned the null string.
//! - **The replacement** (`specs/Perform.antt`): that value replaces the part between the two cursors of the match; what comes
//!   before and after it in the text stays. After a failed match nothing is replaced and the object is not evaluated, but what
//!   was assigned at once stays bound. A statement with no object replaces nothing.
//! - **The rounds of a repeated statement** (`specs/Perform.antt`): the first is performed on the text, each later one on the
//!   new text of the round before, with every variable the null string again. They end after as many matches as are allowed, or
//!   with the first round that fails. The result has the number of matches, with the bindings and the new text of the last one.
//!   If the first round fails, its failure is the result. A round that is refused refuses the statement.
//! - **The matches of a statement for all matches** (`specs/Passes.antt`): the first search begins at cursor 0, each later one at
//!   the end of the match before, or one further if that was the null string. The null string at the end of the match before
//!   doesn't count. Each match has bindings of its own, and the object is evaluated for each. If none counts, the statement fails
//!   with the bindings of its first search. The limit of trials is for all searches together. `specs/Laws.antt` has what follows:
//!   matches are in order and don't overlap, the first is that of the plain statement, and it fails exactly if that does.
//! - **The limits** (`specs/Perform.antt`), in each round: `TooManyTrials` comes exactly if the match takes more trials than the
//!   statement's limit. `TextTooLong` comes exactly if it doesn't, succeeds, and the new text would have more than 65,536 characters.
//!
//! The contract of `rewrite` is the same equation for the longest text of a file and a limit of trials of the caller's
//! (`perform_within` of `specs/Perform.antt`), without the matches and the bindings. A file may also be refused since a search would
//! have to keep too long a history (`HistoryTooLong`): that comes where `perform` would run out of memory, and no clause says when.
//!
//! What each file has:
//!
//! - `src/statements.rt`: [`Statement`], by value the record `Statement` of `specs/Statement.antt`. Each method that reads returns what
//!   `new` was given. The type ensures that the definitions cover the pattern.
//! - `src/statement_patterns.rt`: the pattern of a statement, its own or one that statements share.
//! - `src/performing.rt`: [`perform`], with the bindings and the rounds.
//! - `src/passes.rt`: [`Pass`], the matches of a statement for all matches one after the other; `src/searches.rt`: the searches of a
//!   pass.
//! - `src/byte_passes.rt`: [`BytePass`], the same in the content of a file, and [`first_match`] alone; each has a [`ByteMatch`].
//! - `src/match_lists.rt`: [`Match`], [`Matches`] and [`MatchRef`]; `src/gathered.rt`: matches as they are found, and
//!   `src/assigned.rt`: what one search assigned.
//! - `src/rewriting.rt`: [`rewrite`] and [`rewrite_with`]; `src/spans.rt`: the values of one search, as spans of its bytes.
//! - `src/laws.rt`: what follows of matches, for callers' proofs.
//! - `src/last_assignments.rt`: the last assignment of each variable, for a match that assigns often.
//! - `src/lengths.rt`: how many characters the new text has, counted before any is copied.
//! - `src/values.rt`: the object's value, and cutting and joining texts.
//! - `src/binding.rt`: [`Bindings`], by value a list of distinct variables with their values, and [`Datum`].
//! - `src/binding_refs.rt`: [`BindingsRef`], bindings that are lent, whether they are kept or are those of one of all matches.
//! - `src/outcomes.rt`: [`Outcome`] and [`StatementFault`]; `src/file_faults.rt`: [`FileStatementFault`], why a statement is refused
//!   on the content of a file; `src/file_searches.rt`: its first search there.
//! - `specs/Rewriting.antt`: what `rewrite` leaves; `specs/MatchLists.antt`, `specs/BindingRefs.antt` and `specs/Spans.antt`: what
//!   is lent, by value.
//! - `proofs/Ascii.antt`: what is joined from ASCII is ASCII, so a new text is refused for its length alone.
//! - `proofs/Rounds.antt` and `proofs/RewritingRounds.antt`: the result of one more round; `proofs/NotMemory.antt`: by its definition no statement runs out of memory.
//!
//! # What is not promised
//!
//! `perform` may return `Memory` at any allocation, and no clause says that there is memory; tests show that it doesn't always
//! come. How long a match takes, and how much memory and stack it needs, is as for `sno_machine::Code::first`. A pattern is
//! compiled once for all rounds, and one text and its new text are held at a time; no clause says so.
#![tactic(auto)]

mod assigned;
mod binding;
mod binding_refs;
mod byte_passes;
mod file_faults;
mod file_searches;
mod file_statements;
mod gathered;
mod last_assignments;
mod laws;
mod lengths;
mod match_lists;
mod outcomes;
mod passes;
mod performing;
mod rewriting;
mod searches;
mod spans;
mod statement_patterns;
mod statements;
mod values;

pub use binding::{Bindings, Datum};
pub use binding_refs::{BindingsRef, DatumRef, TextPart};
pub use byte_passes::{ByteBindings, ByteMatch, BytePass, first_match};
pub use file_faults::FileStatementFault;
pub use file_statements::FileStatement;
pub use laws::{kept_matches_keep_the_text, matches_are_in_order, the_first_is_the_plain_match};
pub use match_lists::{Match, MatchRef, Matches};
pub use outcomes::{Outcome, StatementFault};
pub use passes::{Pass, counts, next_cursor, next_search};
pub use performing::{perform, perform_shared};
pub use rewriting::{Rewritten, rewrite, rewrite_with};
pub use sno_machine::MatchFault;
pub use sno_pattern::{ByteText, Name, Pattern, Rules, Text, TextName};
pub use sno_read::{ByteObject, BytePart, Object, Part};
pub use spans::SpanValue;
pub use statements::{MAX_ROUNDS, MAX_TRIALS, Statement, USUAL_TRIALS};
