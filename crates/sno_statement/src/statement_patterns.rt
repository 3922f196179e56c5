//! The pattern of a statement.
ghost use Rattle.std.specs.Prelude.{◌≡◌};
ghost use Rattle.sno_pattern.specs.Tree.{tree_of};
ghost use Rattle.sno_statement.specs.StatementPatterns.{tree_in};

use sno_pattern::Pattern;
use std::sync::Arc;

/// The pattern of a statement: its own, or one that several statements share.
#[derive(Drop)]
pub(crate) enum StatementPattern {
    Own(Pattern),
    Shared(Arc<Pattern>),
}

impl StatementPattern {
    pub(crate) fn as_pattern(&self) -> &Pattern
        ensures { tree_of result.now ≡ tree_in self.now }
    {
        match self {
            StatementPattern::Own(pattern) => pattern,
            StatementPattern::Shared(pattern) => pattern,
        }
    }
}
