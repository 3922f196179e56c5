//! Starts within a run that fails: the match would fail from each of its cursors.
ghost use Rattle.std.specs.Prelude.{◌≡◌, ◌<◌, ◌≤◌, List, length, IfSome};
ghost use Rattle.sno_pattern.specs.Tree.{Tree, tree_of};
ghost use Rattle.sno_machine.specs.Leaves.{single_tree};
ghost use Rattle.sno_machine.specs.Beginnings.{EndsInVain, IsRunStart, IsSpan};

use crate::run::singles::Single;
use crate::run::subject::Subject;
use crate::starts::heads::first_part;
use sno_pattern::{Class, Pattern};

/// How a match begins that begins with `SPAN` of a set and goes on with a primitive that has at most one end, but with no other
/// `SPAN` and no `BREAK`.
#[derive(Clone, Copy)]
pub struct RunStart<'a> {
    pub set: &'a Class,
    pub next: Single<'a>,
}

impl<'a> RunStart<'a> {
    /// How a match of the pattern begins, if it begins so. `SPAN` may be the part of a `.`.
    pub fn of(pattern: &'a Pattern) -> Option<RunStart<'a>>
        ensures { (bodies : List Tree) → IfSome result (IsRunStart bodies (tree_of pattern.now)) }
    {
        match pattern {
            Pattern::Seq(first, second) => match set_of_span(first) {
                None => RunStart::of(first),
                Some(set) => {
                    let next = near_single(first_part(second))?;
                    Some(RunStart { set, next })
                }
            },
            Pattern::Cond(part, _) => RunStart::of(part),
            _ => None,
        }
    }

    /// Where the run from the cursor ends, if the primitive fails there. Then the match fails from each cursor of the run, each at
    /// the cost of two trials.
    pub fn end_in_vain(&self, text: &Subject<'_, '_, 'a>, c: usize) -> Option<usize>
        requires { c ≤ length text.now }
        ensures { IfSome result (λ e. (c < e) × (e ≤ length text.now) × EndsInVain text.now self.now c e) }
    {
        let end = text.span_end(self.set, c)?;
        match self.next.end(text, end) {
            None => Some(end),
            Some(_) => None,
        }
    }
}

// The pattern as a primitive that has at most one end. `None` if it is any other pattern, or one that may go over the whole text:
// where each run ends, nothing would be learnt of that.
fn near_single(pattern: &Pattern) -> Option<Single<'_>>
    ensures { IfSome result (λ single. single_tree single ≡ tree_of pattern.now) }
{
    match Single::of(pattern) {
        None | Some(Single::Span(_)) | Some(Single::Break(_)) => None,
        Some(single) => Some(single),
    }
}

// The set, if the pattern is `SPAN` of it, also as the part of a `.`.
fn set_of_span(pattern: &Pattern) -> Option<&Class>
    ensures { IfSome result (λ set. IsSpan set.now (tree_of pattern.now)) }
{
    match pattern {
        Pattern::Span(set) => Some(set),
        Pattern::Cond(part, _) => set_of_span(part),
        _ => None,
    }
}
