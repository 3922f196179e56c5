//! A few heads that are sought together in a text.
ghost use Rattle.std.specs.Prelude.{◌≡◌, ◌≤◌, ◌∷◌, [], not, length, slice_get, IfOk, IfSome};
ghost use Rattle.memchr.specs.Find.{IsFirstByte};
ghost use Rattle.sno_pattern.specs.Classes.{has};
ghost use Rattle.sno_pattern.specs.Tree.{tree_of};
ghost use Rattle.sno_machine.specs.declared.starts.heads.Head.TheVariants.{Byte};
ghost use Rattle.sno_machine.specs.Beginnings.{any_begins, heads_in, AreHeads};

use crate::starts::fronts::fronts_of;
use crate::starts::heads::Head;
use memchr::{memchr, memchr2, memchr3};
use sno_pattern::{Class, Pattern};
use sno_primitives::first_in;
use std::alloc::{AllocError, Global};

/// One head, or two or three that are bytes. It takes no more room than a primitive, so that a node has 32 bytes.
#[derive(Clone, Copy)]
pub enum Needle<'a> {
    /// This byte.
    Byte(u8),
    /// One character of the set.
    OneOf(&'a Class),
    /// One character that is not in the set.
    NoneOf(&'a Class),
    /// One of two bytes.
    Two(u8, u8),
    /// One of three bytes.
    Three(u8, u8, u8),
}

impl<'a> Needle<'a> {
    /// The heads of the pattern, without going into definitions. `None` if a leaf with which it can begin has no head, or if there
    /// are more than three, or several that aren't all bytes. Refused only if out of memory.
    pub fn of(alloc: Global, pattern: &'a Pattern) -> Result<Option<Needle<'a>>, AllocError>
        ensures { IfOk result (λ found. IfSome found (λ needle. AreHeads [] 0 (tree_of pattern.now) (heads_in needle))) }
    {
        match fronts_of(alloc, &[], 0, pattern)? {
            Some(fronts) if fronts.places.is_empty() => {
                let heads = fronts.all_heads(alloc)?;
                Ok(together(&heads))
            }
            _ => Ok(None),
        }
    }

    /// The heads of the second pattern, if `ARB` may come last in the first one; otherwise `None`.
    pub fn after(
        alloc: Global,
        first: &Pattern,
        second: &'a Pattern,
    ) -> Result<Option<Needle<'a>>, AllocError>
        ensures { IfOk result (λ found. IfSome found (λ needle. AreHeads [] 0 (tree_of second.now) (heads_in needle))) }
    {
        if !ends_in_arb(first) {
            return Ok(None);
        }
        let needle = Needle::of(alloc, second)?;
        Ok(needle)
    }

    /// How many heads there are.
    pub fn count(self) -> usize
        ensures count { result ≡ length (heads_in self.entry) }
        ensures few { result ≤ 3 }
    {
        match self {
            Needle::Byte(_) | Needle::OneOf(_) | Needle::NoneOf(_) => 1,
            Needle::Two(_, _) => 2,
            Needle::Three(_, _, _) => 3,
        }
    }

    /// Whether it is sought as bytes: one, two or three, or a set that was made of as many.
    pub fn is_bytes(self) -> bool {
        match self {
            Needle::Byte(_) | Needle::Two(_, _) | Needle::Three(_, _, _) => true,
            Needle::OneOf(class) => class.members().len() <= 3,
            Needle::NoneOf(_) => false,
        }
    }

    /// Whether one of the heads can begin with the character. A set isn't looked at.
    #[inline(always)]
    pub fn begins_with(self, character: u8) -> bool {
        match self {
            Needle::Byte(byte) => byte == character,
            Needle::Two(first, second) => first == character || second == character,
            Needle::Three(first, second, third) => {
                first == character || second == character || third == character
            }
            Needle::OneOf(_) | Needle::NoneOf(_) => false,
        }
    }

    /// The index of the first character of the text with which one of the heads can begin, if there is one.
    pub fn first(self, text: &[u8]) -> Option<usize>
        ensures { IsFirstByte (any_begins (heads_in self.entry)) text.now result }
    {
        match self {
            Needle::Byte(byte) => memchr(byte, text),
            Needle::OneOf(class) => first_in(text, class),
            Needle::NoneOf(class) => first_outside(text, class),
            Needle::Two(first, second) => memchr2(first, second, text),
            Needle::Three(first, second, third) => memchr3(first, second, third, text),
        }
    }
}

// The index of the first character that is not in the set, if there is one.
fn first_outside(text: &[u8], class: &Class) -> Option<usize>
    ensures { IsFirstByte (λ x. not (has class.now x)) text.now result }
{
    text.iter().position(|character| !class.has(*character))
}

// The byte of the head at this place, if it is a byte.
fn byte_at(heads: &[Head], place: usize) -> Option<u8>
    ensures { IfSome result (λ byte. slice_get heads.now place ≡ Some (Byte byte)) }
{
    match heads.get(place) {
        Some(Head::Byte(byte)) => Some(*byte),
        _ => None,
    }
}

// Whether `ARB` may come last in the pattern, so that it can jump to what comes after it.
fn ends_in_arb(pattern: &Pattern) -> bool {
    match pattern {
        Pattern::Arb => true,
        Pattern::Seq(_, last) => ends_in_arb(last),
        Pattern::Alt(first, second) => ends_in_arb(first) || ends_in_arb(second),
        Pattern::Cond(part, _) => ends_in_arb(part),
        _ => false,
    }
}

// The head as a needle.
fn needle_of<'a>(head: Head<'a>) -> Needle<'a>
    ensures { heads_in result ≡ head.entry ∷ [] }
{
    match head {
        Head::Byte(byte) => Needle::Byte(byte),
        Head::OneOf(class) => Needle::OneOf(class),
        Head::NoneOf(class) => Needle::NoneOf(class),
    }
}

/// The heads as a needle, if they are one head, or two or three bytes.
pub fn together<'a>(heads: &[Head<'a>]) -> Option<Needle<'a>>
    ensures { IfSome result (λ needle. heads_in needle ≡ heads.now) }
{
    match (
        heads.len(),
        byte_at(heads, 0),
        byte_at(heads, 1),
        byte_at(heads, 2),
    ) {
        (1, _, _, _) => Some(needle_of(heads[0])),
        (2, Some(first), Some(second), _) => Some(Needle::Two(first, second)),
        (3, Some(first), Some(second), Some(third)) => Some(Needle::Three(first, second, third)),
        _ => None,
    }
}
