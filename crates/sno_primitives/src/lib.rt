//! Where the primitives end.
//!
//! | Function | What it promises |
//! |---|---|
//! | [`literal_end`], [`len_end`], [`pos_end`], [`rpos_end`], [`tab_end`], [`rtab_end`] | the one end of that primitive |
//! | [`any_end`], [`notany_end`], [`span_end`], [`break_end`] | the one end of that primitive, which has a set |
//! | [`first_in`] | the first character that is in a set |
//! | [`near_run_end`], [`whole_run_end`] | where a run of characters of a set ends, or of the other characters |
//! | [`RunEnds`] | where all such runs of a text end, by a table |
//! | [`Rows`] | a set of ASCII characters, by which sixteen characters are looked up at once; how long a run is |
//! | [`leaf_end`] | the one end of a primitive that has at most one, by its pattern |
//! | [`first_balanced`] | the first end of `BAL`; from each end, the next one is the first |
//! | [`walk_balanced`] | as [`first_balanced`], if the end is near |
//! | [`Mates`] | as [`first_balanced`], from each cursor of a text, by a table |
//! | [`arbitrary_ends_follow_one_another`] | the ends of `ARB` are the cursor and the ends from the next cursor |
//!
//! With `leaf_end`, `first_balanced` and the last one a matcher goes through the ends of any primitive in order, one at a time. It
//! takes no memory for them; only the two tables do.
//! The ends themselves are defined in `specs/Ends.antt` of `sno_pattern`; `specs/Leaves.antt` gives them by the tree.
#![tactic(auto)]

mod balance;
mod laws;
mod leaves;
mod mates;
mod primitives;
mod rows;
mod run_ends;
mod runs;

pub use balance::{Walk, first_balanced, walk_balanced};
pub use laws::arbitrary_ends_follow_one_another;
pub use leaves::leaf_end;
pub use mates::Mates;
pub use primitives::{
    any_end, len_end, literal_end, notany_end, pos_end, rpos_end, rtab_end, tab_end,
};
pub use rows::Rows;
pub use run_ends::{RunEnds, near_run_end, whole_run_end};
pub use runs::{break_end, first_in, span_end};
pub use sno_pattern::{Class, Pattern};
