//! `BAL`, one end at a time.
ghost use Rattle.std.specs.Prelude.{◌≡◌, ◌+◌, ◌<◌, ◌≤◌, ◌^◌, ◌∷◌, [], length, MatchOption, IfSome};
ghost use Rattle.sno_pattern.specs.Ends.{bal_ends};
ghost use Rattle.sno_primitives.specs.Depth.{depth_after};
ghost use Rattle.sno_primitives.specs.MateTables.{HasFound};

/// The first cursor past `c` up to which the text from `c` on is balanced in parentheses; `None` if there is no such cursor.
///
/// `c` is at most the text's length. Called again from an end that it returned, it gives the next end of `BAL` from `c`. It
/// takes no memory, and reads no character past the end.
#[inline]
pub fn first_balanced(text: &[u8], c: usize) -> Option<usize>
    requires { c ≤ length text.now }
    ensures exact { MatchOption result (bal_ends text.now c ≡ []) (λ e. bal_ends text.now c ≡ e ∷ bal_ends text.now e) }
    ensures past { IfSome result (λ e. (c < e) × (e ≤ length text.now)) }
{
    let (_, rest) = text.split_at(c);
    let mut depth = 0;
    for (passed, character) in rest.iter().enumerate() {
        depth = depth_after(depth, *character)?;
        if depth == 0 {
            return Some(c + passed + 1);
        }
    }
    None
}

/// What a walk over a few characters finds of `BAL`.
#[derive(Clone, Copy)]
pub enum Walk {
    /// This first end.
    Ended(usize),
    /// That there is no end.
    Never,
    /// Nothing yet: the walk would go on.
    Further,
}

/// As [`first_balanced`], but the walk goes no further than this many characters.
#[inline]
pub fn walk_balanced(text: &[u8], c: usize, most: usize) -> Walk
    requires { c ≤ length text.now }
    ensures { HasFound text.now c result }
{
    let (_, rest) = text.split_at(c);
    let mut depth = 0;
    for (passed, character) in rest.iter().enumerate() {
        if passed == most {
            return Walk::Further;
        }
        depth = match depth_after(depth, *character) {
            None => return Walk::Never,
            Some(after) => after,
        };
        if depth == 0 {
            return Walk::Ended(c + passed + 1);
        }
    }
    Walk::Never
}

// How many parentheses are open after the character; `None` if it closes one that isn't open.
#[inline(always)]
fn depth_after(depth: usize, character: u8) -> Option<usize>
    requires { depth + 1 < 2 ^ 64 }
    ensures exact { result ≡ depth_after depth character }
    ensures few { IfSome result (λ after. after ≤ depth + 1) }
{
    match character {
        b'(' => Some(depth + 1),
        b')' => depth.checked_sub(1),
        _ => Some(depth),
    }
}
