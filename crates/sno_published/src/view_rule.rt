//! The rule of what is published.
use crate::{Naming, Table};
use crossbeam_utils::rule::{Outcome, Protocol};
use sno_book::Entry;
use std::marker::PhantomData;

/// What one reader has seen: a list of entries. No value of this type is made; a clause reads an array as a list of any
/// length.
pub type SeenEntries = [Entry; 0];

/// What each reader has seen begins what is shown.
pub struct ViewRule<L: Naming> {
    of: PhantomData<L>,
}

impl<L: Naming> Protocol<Table<L>, SeenEntries> for ViewRule<L> {
    ghost use Rattle.std.specs.Prelude.{[]};
    ghost use Rattle.sno_published.specs.ViewRule.{Keeps};

    ghost holds = { Keeps };

    ghost first = { [] };
}

/// A step after which all that is shown has been seen.
pub struct FullView;

impl<L: Naming> Outcome<Table<L>, SeenEntries> for FullView {
    ghost use Rattle.sno_published.specs.ViewRule.{Sees};

    ghost then = { Sees };
}
