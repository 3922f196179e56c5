//! The library for callers in C, C++, Rust and Python: a static library.
//!
//! [`sno_rewrite_list`] takes the bytes of a document and a buffer, and puts the listing of its serial run in the buffer. The calls
//! with handles read a pattern once, seek it in any number of texts, and replace its matches; or they keep a book, and do what lines
//! ask of it. No call makes a thread or waits for anybody, and several threads may call at once, each with handles of its own. The
//! header `embed/sno_rewrite.h` declares the calls; `embed/` has callers in C, C++, Rust and Python.
//!
//! | File | What it holds |
//! |---|---|
//! | `listing` | [`sno_rewrite_list`] |
//! | `handle_calls` | the calls with handles |
//! | `book_calls`, `books` | the calls with books; a book that is held, with the reply to its last line |
//! | `held` | what a handle holds: a pattern, a text or a book |
//! | `handle` | handles, which are places in the caller's memory |
//! | `kept` | a box as its pointer, without its type |
//! | `openings`, `texts` | patterns and texts that are put into handles |
//! | `searches`, `assignments`, `replacements` | what is reported of a search, of an assignment, of a new text |
//! | `gatherings` | searches that are done many at once, and then taken one by one |
//! | `buffers` | buffers of callers |
//! | `statuses` | what the calls with handles return |
#![tactic(auto)]

mod assignments;
mod book_calls;
mod books;
mod buffers;
mod gatherings;
mod handle;
mod handle_calls;
mod held;
mod kept;
mod listing;
mod openings;
mod replacements;
mod searches;
mod statuses;
mod texts;
