//! The rule of a history, and the step that adds an entry.
use logbook::{Gain, Plain, Play, Rule, Word};
use sno_book::Entry;
use std::snapshot::Snapshot;

/// The history's word is the number of its entries.
pub struct CountRule;

impl Rule<Entry, u64> for CountRule {
    ghost use Rattle.std.specs.Prelude.{[]};
    ghost use base.Fml.{ftrue};
    ghost use Rattle.sno_published.specs.HistoryRule.{IsCounted};

    ghost holds = { λ cells log. IsCounted cells log };

    ghost first = { [] };

    ghost hinted = { λ n log. Unit {0} };

    ghost shows = { λ log. [] };

    ghost keeps = { λ names log. ftrue };

    ghost moves = { λ ask before after result. Unit {0} };
}

/// The number of a history's entries.
pub(crate) type Length = Word<Entry, u64, CountRule>;

/// Nothing is kept with a history, so nothing is gained.
pub struct NoGain;

impl Gain<Entry, u64> for NoGain {
    ghost use base.Fml.{ftrue};

    ghost after = { λ names about result. ftrue };
}

/// The step that adds an entry.
pub struct Addition;

impl Play<Entry, u64> for Addition {
    ghost use Rattle.sno_published.specs.HistoryRule.{Adds};

    ghost then = { Adds };
}

/// The step takes the entry.
impl Plain<Snapshot<Entry>, Entry, u64> for Addition {
    ghost use Rattle.std.specs.Prelude.{None};

    ghost ask = { λ entry. entry.value };

    ghost state = { λ entry. None };
}
