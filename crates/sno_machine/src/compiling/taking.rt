//! Parts that take a character wherever they end.
ghost use Rattle.std.specs.Prelude.{◌≡◌};
ghost use Rattle.sno_pattern.specs.Tree.{tree_of};
ghost use Rattle.sno_machine.specs.Plans.{takes};

use sno_pattern::Pattern;

/// Whether the pattern takes a character wherever it ends, as far as the pattern alone shows. A reference and a repetition
/// count as parts that may take none.
pub fn takes(pattern: &Pattern) -> bool
    ensures { result ≡ takes (tree_of pattern.now) }
{
    match pattern {
        Pattern::Lit(text) => !text.bytes().is_empty(),
        Pattern::Bytes(text) => !text.bytes().is_empty(),
        Pattern::Len(count) => *count != 0,
        Pattern::AnyOf(_) | Pattern::NoneOf(_) | Pattern::Span(_) => true,
        Pattern::Bal | Pattern::Fail | Pattern::Abort => true,
        Pattern::Seq(first, second) => takes(first) || takes(second),
        Pattern::Alt(first, second) => takes(first) && takes(second),
        Pattern::Cond(part, _) | Pattern::Imm(part, _) => takes(part),
        _ => false,
    }
}
