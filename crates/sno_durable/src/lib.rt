//! A service whose accepted entries are on the disk before anyone is shown them.
//!
//! [`serve_durably`] serves the document of a store. The store's first line says what it was made of, and each further one is
//! the record of an entry: the line of a client as it came, and its reply (`specs/Records.antt`). Begun again, the service
//! performs them once more, and compares each reply with the stored one.
//!
//! So a store that grows takes ever longer to begin, and a journal has room for 1,000,000 entries. [`Kept::compacted`] is the first line
//! of a store that goes on from another one: it has the texts as they are, and indices of entries, versions and numbers of
//! statements go on.
//!
//! | File | What it does |
//! |---|---|
//! | `records` | the lines of a store, as JSON |
//! | `past` | what came before the first entry of a store, and the numbers that a client is shown |
//! | `first_lines` | whether a file has a first line that was cut while it was written |
//! | `relations` | what a store beside another one is to it |
//! | `sought` | what a line asks of a desk whose numbers begin at 0, and its reply as the client is shown it |
//! | `compacted` | the first line of a store that goes on from another one |
//! | `replies` | the lines that a client gets |
//! | `earlier` | what lines mean, and what is performed before the first of them |
//! | `keeper` | lines with their replies, at one seat |
//! | `seats`, `queue` | lines with their replies, at several seats; what these leave for the disk |
//! | `shelf` | the store, and the writer of the replies that wait for it |
//! | `outlet` | that writer: nothing comes to it before it is on the disk |
//! | `service` | from a store and its document to the book that is left |
//! | `faults` | why a service didn't begin, or ended early |
#![tactic(auto)]

mod compacted;
mod earlier;
mod faults;
mod first_lines;
mod keeper;
mod outlet;
mod past;
mod queue;
mod records;
mod relations;
mod replies;
mod seats;
mod service;
mod shelf;
mod sought;

pub use faults::DurableFault;
pub use relations::{Relation, StoreFacts};
pub use service::{Client, Ended, Given, Kept, Seats, serve_durably, serve_durably_at};
