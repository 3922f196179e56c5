//! The patterns without parts that may have several ends, or do more than end.
use sno_pattern::Name;

/// A pattern without parts that isn't a primitive with at most one end.
#[derive(Clone, Copy)]
pub enum OtherLeaf<'a> {
    Arb,
    Bal,
    Fence,
    Abort,
    Fail,
    At(&'a Name),
}
