//! The first ends of `BAL` in a text, found once for all cursors.
ghost use Rattle.std.specs.Prelude.{◌≡◌, ◌+◌, ◌<◌, ◌≤◌, ◌∷◌, ℕ, List, [], length, reverse, IfOk, IfSome, MatchOption};
ghost use Rattle.std.proofs.Math.ListN.{get_or};
ghost use Rattle.sno_pattern.specs.Ends.{bal_ends};
ghost use Rattle.sno_pattern.specs.declared.byte_texts.TheConstants.{MAX_BYTES};
ghost use Rattle.sno_primitives.specs.Mates.{ends_from};
ghost use Rattle.sno_primitives.specs.Walks.{IsStack};
ghost use Rattle.sno_primitives.specs.MateTables.{AreOfText};

use std::alloc::{AllocError, Global};

/// The first end of `BAL` from each cursor of a text: past the mate of a `(`, and past a character that is no parenthesis.
///
/// It takes four bytes for each character.
#[derive(Drop)]
pub struct Mates {
    // 0 where there is no end.
    ends: Vec<u32>,
}

impl Mates {
    /// Goes once through the text, which has at most 16,777,216 characters, from its end. Refused only if out of memory.
    pub fn of(alloc: Global, text: &[u8]) -> Result<Mates, AllocError>
        requires { length text.now ≤ MAX_BYTES }
        ensures { IfOk result (AreOfText text.now) }
    {
        let mut ends = vec![in alloc; 0; text.len()]?;
        let mut closed = Vec::new(alloc);
        for c in (0..text.len()).rev() {
            let end = end_before(text[c], c, &mut closed)?;
            ends[c] = end;
        }
        Ok(Mates { ends })
    }

    /// As [`first_balanced`](crate::first_balanced), in the text for which the ends were found.
    pub fn first_end(&self, text: &[u8], c: usize) -> Option<usize>
        requires right { AreOfText text.now self.now }
        requires within { c ≤ length text.now }
        ensures exact { MatchOption result (bal_ends text.now c ≡ []) (λ e. bal_ends text.now c ≡ e ∷ bal_ends text.now e) }
        ensures past { IfSome result (λ e. (c < e) × (e ≤ length text.now)) }
    {
        match self.ends.get(c) {
            None | Some(0) => None,
            Some(end) => Some(*end as usize),
        }
    }
}

// The first end from the character at `c`, or 0. Each `)` that is still without its `(` has left the cursor past it: a `(` takes
// the nearest one.
fn end_before(character: u8, c: usize, closed: &mut Vec<u32>) -> Result<u32, AllocError>
    requires { c < MAX_BYTES }
    ensures stack { (t : List ℕ) → c < length t → get_or t c 0 ≡ character → IsStack t (c + 1) (reverse closed.old.items)
        → IfOk result (λ _. IsStack t c (reverse closed.new.items)) }
    ensures exact { (t : List ℕ) → c < length t → get_or t c 0 ≡ character → IsStack t (c + 1) (reverse closed.old.items)
        → IfOk result (λ end. bal_ends t c ≡ ends_from t end) }
{
    let past = c as u32 + 1;
    match character {
        b'(' => match closed.pop() {
            Some(end) => Ok(end),
            None => Ok(0),
        },
        b')' => {
            closed.push(past)?;
            Ok(0)
        }
        _ => Ok(past),
    }
}
