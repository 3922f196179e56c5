//! How deep a pattern is.
ghost use Rattle.std.specs.Prelude.{◌≡◌, nat_le};
ghost use Rattle.sno_pattern.specs.Tree.{tree_of};
ghost use Rattle.sno_read.specs.Depth.{depth};

use sno_pattern::Pattern;

/// Whether the depth of the pattern's tree is at most `limit`.
#[tactic(auto, using(crate::proofs::Depths::depths), unfolding(crate::specs::Depth::depth))]
pub fn fits(pattern: &Pattern, limit: usize) -> bool
    ensures { result ≡ nat_le (depth (tree_of pattern.now)) limit }
{
    if limit == 0 {
        return false;
    }
    match pattern {
        Pattern::Seq(first, second) | Pattern::Alt(first, second) => fits(first, limit - 1)
            && fits(second, limit - 1),
        Pattern::Arbno(part) | Pattern::Cond(part, _) | Pattern::Imm(part, _) => fits(
            part,
            limit - 1,
        ),
        _ => true,
    }
}
