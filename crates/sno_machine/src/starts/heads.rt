//! The characters with which a leaf can begin.
ghost use Rattle.std.specs.Prelude.{◌≡◌, ℕ, List, slice_get, IfSome};
ghost use Rattle.sno_pattern.specs.Tree.{Tree, tree_of};
ghost use Rattle.sno_machine.specs.Beginnings.{begins, first_part, IsHeadOf};

use sno_pattern::{Class, Pattern};

/// A leaf with which a match can begin, by its first character. The leaf doesn't match before another character or at
/// the end of the text.
#[derive(Clone, Copy)]
pub enum Head<'a> {
    /// A literal of one character: this one. Also the first one of a longer literal.
    Byte(u8),
    /// `ANY` or `SPAN`: a character of the set.
    OneOf(&'a Class),
    /// `NOTANY`: a character that is not in the set.
    NoneOf(&'a Class),
}

impl<'a> Head<'a> {
    /// Whether the leaf can begin with the character.
    pub fn begins_with(self, character: u8) -> bool
        ensures { result ≡ begins self.entry character }
    {
        match self {
            Head::Byte(byte) => byte == character,
            Head::OneOf(class) => class.has(character),
            Head::NoneOf(class) => !class.has(character),
        }
    }
}

/// The head of the leaf, if it has one that says all of where it can begin.
pub fn head_of(leaf: &Pattern) -> Option<Head<'_>>
    ensures { (known : List Tree) (depth : ℕ) → IfSome result (IsHeadOf known depth (tree_of leaf.now)) }
{
    match leaf {
        Pattern::Lit(literal) => match only_byte(literal.bytes()) {
            None => None,
            Some(byte) => Some(Head::Byte(byte)),
        },
        Pattern::Bytes(literal) => match only_byte(literal.bytes()) {
            None => None,
            Some(byte) => Some(Head::Byte(byte)),
        },
        Pattern::AnyOf(class) | Pattern::Span(class) => Some(Head::OneOf(class)),
        Pattern::NoneOf(class) => Some(Head::NoneOf(class)),
        _ => None,
    }
}

// The byte of a literal that has only one.
fn only_byte(literal: &[u8]) -> Option<u8>
    ensures { IfSome result (λ byte. Some byte ≡ slice_get literal.now 0) }
{
    match literal.first() {
        Some(first) if literal.len() == 1 => Some(*first),
        _ => None,
    }
}

/// The part with which the pattern begins.
pub fn first_part(pattern: &Pattern) -> &Pattern
    ensures { tree_of result.now ≡ first_part (tree_of pattern.now) }
{
    match pattern {
        Pattern::Seq(part, _) | Pattern::Cond(part, _) | Pattern::Imm(part, _) => first_part(part),
        _ => pattern,
    }
}
