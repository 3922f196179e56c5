//! Reading a pattern in the characters that its document may have.
ghost use Rattle.std.specs.Prelude.{length, IfOk, IsTrue};
ghost use Rattle.sno_pattern.specs.Tree.{tree_of, refs_below};
ghost use Rattle.sno_read.specs.Gives.{Returns};
ghost use Rattle.sno_document.specs.Document.{pattern_in};

use sno_pattern::{Names, Pattern};
use sno_read::{ReadFault, read_pattern, read_rule_pattern};
use std::alloc::Global;

/// The pattern that the text spells, whose literals may have any bytes if it is `wide`. Its references are to definitions. Refused
/// as `read_pattern` and `read_rule_pattern` are.
#[tactic(auto, using(crate::proofs::References::spelled_covered, crate::proofs::References::rule_covered))]
pub(crate) fn pattern_in(
    alloc: Global,
    wide: bool,
    names: &Names,
    earlier: usize,
    text: &str,
) -> Result<Pattern, ReadFault>
    ensures read { Returns tree_of result (pattern_in wide names.now earlier text.now) }
    ensures covered { IfOk result (λ p. IsTrue (refs_below (length names.now) (tree_of p))) }
{
    if wide {
        read_rule_pattern(alloc, names, earlier, text.as_bytes())
    } else {
        read_pattern(alloc, names, earlier, text.as_bytes())
    }
}
