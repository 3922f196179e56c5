//! The end of a primitive that has at most one.
ghost use Rattle.std.specs.Prelude.{◌≡◌, ◌≤◌, length, option_to_list, IfSome, IsTrue};
ghost use Rattle.sno_pattern.specs.Tree.{tree_of};
ghost use Rattle.sno_primitives.specs.Leaves.{is_single, leaf_ends};

use crate::primitives::{
    any_end, len_end, literal_end, notany_end, pos_end, rpos_end, rtab_end, tab_end,
};
use crate::runs::{break_end, span_end};
use sno_pattern::Pattern;

/// Where the primitive ends from the cursor; `None` if it fails there.
///
/// The primitive has at most one end, and `c` is at most the text's length. The end is at or past `c`, and within the text.
/// The call takes no memory.
#[inline(always)]
pub fn leaf_end(text: &[u8], pattern: &Pattern, c: usize) -> Option<usize>
    requires within { c ≤ length text.now }
    requires single { IsTrue (is_single (tree_of pattern.now)) }
    ensures exact { option_to_list result ≡ leaf_ends text.now (tree_of pattern.now) c }
    ensures past { IfSome result (λ e. (c ≤ e) × (e ≤ length text.now)) }
{
    match pattern {
        Pattern::Lit(literal) => literal_end(text, literal.bytes(), c),
        Pattern::Bytes(literal) => literal_end(text, literal.bytes(), c),
        Pattern::Len(n) => len_end(text, *n as usize, c),
        Pattern::Pos(n) => pos_end(*n as usize, c),
        Pattern::Rpos(n) => rpos_end(text, *n as usize, c),
        Pattern::Tab(n) => tab_end(text, *n as usize, c),
        Pattern::Rtab(n) => rtab_end(text, *n as usize, c),
        Pattern::AnyOf(set) => any_end(text, set, c),
        Pattern::NoneOf(set) => notany_end(text, set, c),
        Pattern::Span(set) => span_end(text, set, c),
        Pattern::Break(set) => break_end(text, set, c),
        Pattern::Rem => Some(text.len()),
        Pattern::Arb
        | Pattern::Arbno(_)
        | Pattern::Bal
        | Pattern::Fence
        | Pattern::Abort
        | Pattern::Fail
        | Pattern::At(_)
        | Pattern::Ref(_)
        | Pattern::Seq(_, _)
        | Pattern::Alt(_, _)
        | Pattern::Cond(_, _)
        | Pattern::Imm(_, _) => unreachable!(),
    }
}
