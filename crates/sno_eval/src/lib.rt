//! The plain evaluator: the outcome of a match, by whole lists of events.
//!
//! [`first`] returns exactly what the definitions of `sno_pattern` say of a match: `outcome` of its `specs/Outcome.antt`. It has
//! - the success with the least start that comes first in the order of the alternatives;
//! - its conditional assignments;
//! - the immediate assignments that were done before it, in order.
//!
//! [`trials`] returns how many trials the match takes. [`first_from`] and [`trials_from`] are of a search from a cursor on. All are
//! refused only if out of memory.
#![tactic(auto)]

mod counting;
mod endings;
mod events;
mod leaves;
mod results;
mod starts;

pub use counting::{trials, trials_from};
pub use sno_pattern::{Assign, Assigns, Conds, Found, Hit, Name, Pattern, Rules, Text, What};
pub use starts::{first, first_from};
