//! Literals of more than one character with which a match can begin.
ghost use Rattle.std.specs.Prelude.{◌≡◌, nat_eq, slice_get, Some, IfSome};
ghost use Rattle.std.specs.List.{starts_with};
ghost use Rattle.sno_pattern.specs.Tree.{Lit, tree_of};

use sno_pattern::Pattern;

/// A literal of more than one character, and its first one.
#[derive(Clone, Copy)]
pub struct Word<'a> {
    pub first: u8,
    pub letters: &'a [u8],
    ghost starts: { Some first ≡ slice_get letters.now 0 },
}

impl<'a> Word<'a> {
    /// The pattern as such a literal, if it is one.
    pub fn of(leaf: &'a Pattern) -> Option<Word<'a>>
        ensures { IfSome result (λ word. tree_of leaf.now ≡ Lit word.letters.now) }
    {
        match leaf {
            Pattern::Lit(literal) => Word::long(literal.bytes()),
            Pattern::Bytes(literal) => Word::long(literal.bytes()),
            _ => None,
        }
    }

    fn long(letters: &'a [u8]) -> Option<Word<'a>>
        ensures { IfSome result (λ word. word.letters.now ≡ letters.now) }
    {
        match letters.first() {
            Some(first) if letters.len() > 1 => Some(Word {
                first: *first,
                letters,
            }),
            _ => None,
        }
    }

    /// Whether the text begins with the word.
    pub fn begins(self, text: &[u8]) -> bool
        ensures { result ≡ starts_with nat_eq text.now self.entry.letters.now }
    {
        text.starts_with(self.letters)
    }
}
