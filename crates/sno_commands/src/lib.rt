//! The subcommands of the program `sno`, whose first argument says what it does: `sno run` performs a document, `sno check` checks one,
//! `sno edit` edits files, `sno find` seeks in them, `sno trace` shows how a match goes, `sno serve` serves a document over its streams,
//! and `sno store` looks at a store.
//!
//! | File | What it does |
//! |---|---|
//! | `command_line` | what the arguments ask for |
//! | `arguments` | arguments that several subcommands have |
//! | `command_options` | options of subcommands, listed in tables |
//! | `faults` | why nothing was done, with the line and the status of each reason |
//! | `streams` | bytes in and out |
//! | `check_command`, `checks` | `sno check`: its arguments; a document or rules in JSON are checked by `sno_check`, and the report written |
//! | `line_checks` | `sno check` of rules in lines |
//! | `edit_options`, `edits` | `sno edit`: its arguments; files are edited by `sno_edit` |
//! | `editors` | rules, with what performs them on files |
//! | `colours` | whether what is written is coloured |
//! | `filters` | `sno edit` of standard input |
//! | `edit_reports` | what is written of edited files |
//! | `match_rows`, `row_edits` | what is written of the matches in edited files; `sno edit --json` of files that are written |
//! | `find_options`, `finds` | `sno find`: its arguments; rules are sought in files by `sno_find` |
//! | `searches` | rules, with what seeks them in files |
//! | `thread_options`, `shared_files` | the option for threads; files that several threads share |
//! | `shared_finds`, `shared_edits` | `sno find` and `sno edit` by several threads |
//! | `contexts` | the lines around those on which matches start |
//! | `first_matches`, `variables` | whether rules match at all; the variables of rules |
//! | `unassigned` | variables of objects that no part of a rule's pattern assigns |
//! | `rounds_left` | repeated rules that stop at the most rounds that a rule may have |
//! | `rule_options` | the options that give rules in lines, and say how they are performed |
//! | `rule_lines` | rules in lines, which `sno_lines` spells, as statements |
//! | `given_lines`, `ready_files` | the lines that options and files give; where the files of ready definitions are |
//! | `file_options`, `found_files` | the options that say which files are taken; the files that they name |
//! | `trace_command`, `trace_modes`, `traces` | `sno trace`: its arguments; a statement or a rule is traced by `sno_traces` |
//! | `serve_command`, `serves` | `sno serve`: its arguments; a document is served by `sno_serve`, and the listing written |
//! | `listing_files` | the file of a listing |
//! | `stored` | `sno serve --store`: a document is served over a store by `sno_durable` |
//! | `store_command`, `looks` | `sno store`: its arguments; a store is looked at, made short or saved |
//! | `read_only` | the bytes of a file, as a disk to which nothing can be written |
//! | `store_names`, `beside` | the names that a store uses in its folder; what is under one of them |
//! | `compactions` | a store that replaces the one from which it goes on |
//! | `starts` | what a crash has left beside a store is put right |
//! | `progress` | how many files are done, on a terminal |
//! | `program` | from the arguments and the streams to the status |
#![tactic(auto)]

mod arguments;
mod beside;
mod check_command;
mod checks;
mod colours;
mod command_line;
mod command_options;
mod compactions;
mod contexts;
mod edit_options;
mod edit_reports;
mod editors;
mod edits;
mod faults;
mod file_options;
mod filters;
mod find_options;
mod finds;
mod first_matches;
mod found_files;
mod given_lines;
mod line_checks;
mod listing_files;
mod looks;
mod match_rows;
mod program;
mod progress;
mod read_only;
mod ready_files;
mod rounds_left;
mod row_edits;
mod rule_lines;
mod rule_options;
mod searches;
mod serve_command;
mod serves;
mod shared_edits;
mod shared_files;
mod shared_finds;
mod starts;
mod store_command;
mod store_names;
mod stored;
mod streams;
mod thread_options;
mod trace_command;
mod trace_modes;
mod traces;
mod unassigned;
mod variables;

pub use program::{System, run};
pub use stored::Stores;
