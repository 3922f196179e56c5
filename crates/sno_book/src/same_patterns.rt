//! Equality of patterns, wherever their parts lie in memory.
ghost use Rattle.std.specs.Prelude.{◌≡◌};
ghost use Rattle.sno_pattern.specs.Tree.{tree_of};
ghost use Rattle.sno_book.specs.SamePatterns.{same_leaf, same_tree};

use sno_pattern::Pattern;

/// Whether two patterns are the same, if the first has no parts.
fn same_leaf(one: &Pattern, other: &Pattern) -> bool
    ensures { result ≡ same_leaf (tree_of one.now) (tree_of other.now) }
{
    match (one, other) {
        (Pattern::Lit(s), Pattern::Lit(t)) => s == t,
        (Pattern::Bytes(s), Pattern::Bytes(t)) => s == t,
        (Pattern::Lit(s), Pattern::Bytes(t)) => s.bytes() == t.bytes(),
        (Pattern::Bytes(s), Pattern::Lit(t)) => s.bytes() == t.bytes(),
        (Pattern::Len(m), Pattern::Len(n))
        | (Pattern::Pos(m), Pattern::Pos(n))
        | (Pattern::Rpos(m), Pattern::Rpos(n))
        | (Pattern::Tab(m), Pattern::Tab(n))
        | (Pattern::Rtab(m), Pattern::Rtab(n)) => m == n,
        (Pattern::AnyOf(s), Pattern::AnyOf(t))
        | (Pattern::NoneOf(s), Pattern::NoneOf(t))
        | (Pattern::Span(s), Pattern::Span(t))
        | (Pattern::Break(s), Pattern::Break(t)) => s == t,
        (Pattern::Arb, Pattern::Arb)
        | (Pattern::Bal, Pattern::Bal)
        | (Pattern::Rem, Pattern::Rem)
        | (Pattern::Fence, Pattern::Fence)
        | (Pattern::Abort, Pattern::Abort)
        | (Pattern::Fail, Pattern::Fail) => true,
        (Pattern::At(v), Pattern::At(w)) => v == w,
        (Pattern::Ref(i), Pattern::Ref(j)) => i == j,
        _ => false,
    }
}

/// Whether two patterns are the same.
pub(crate) fn same_pattern(one: &Pattern, other: &Pattern) -> bool
    ensures { result ≡ same_tree (tree_of one.now) (tree_of other.now) }
{
    match (one, other) {
        (Pattern::Arbno(p), Pattern::Arbno(q)) => same_pattern(p, q),
        (Pattern::Seq(p, r), Pattern::Seq(q, s)) | (Pattern::Alt(p, r), Pattern::Alt(q, s)) => {
            same_pattern(p, q) && same_pattern(r, s)
        }
        (Pattern::Cond(p, v), Pattern::Cond(q, w)) | (Pattern::Imm(p, v), Pattern::Imm(q, w)) => {
            v == w && same_pattern(p, q)
        }
        _ => same_leaf(one, other),
    }
}
