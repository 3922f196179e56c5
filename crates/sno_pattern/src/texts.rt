//! Texts.
ghost use Rattle.std.specs.Prelude.{◌≡◌, nat_eq, length, ◌≤◌, IsTrue};
ghost use Rattle.std.specs.Cmp.{partial_equiv_from_equiv};
ghost use Rattle.std.specs.Cmp.Lexicographic.{pointwise, nat_list_eq_equiv};
ghost use Rattle.std.specs.List.{list_all};
ghost use Rattle.sno_pattern.specs.Texts.{text_of, first_non_ascii};
ghost use Rattle.std.specs.Char.{is_ascii};

use std::marker::Model;
use thiserror::Error;

/// The most characters that a text can have.
pub const MAX_TEXT: usize = 65_536;

/// A text: at most 65,536 ASCII characters, with a cursor before, between and after them.
#[derive(Debug, Drop)]
pub struct Text {
    characters: Vec<u8>,
}

impl Model for Text {
    ghost use Rattle.std.specs.Prelude.{ℕ, List, length, ◌≤◌, IsTrue};
    ghost use Rattle.std.specs.List.{list_all};
    ghost use Rattle.std.specs.Char.{is_ascii};
    ghost use Rattle.sno_pattern.specs.declared.texts.TheConstants.{MAX_TEXT};

    ghost Value = { List ℕ };

    ghost view = { λ s. s.characters.items };

    ghost invariant = { λ s. (length s.characters.items ≤ MAX_TEXT) × IsTrue (list_all is_ascii s.characters.items) };
}

/// Why bytes are not a text.
#[derive(Clone, Copy, Debug, PartialEq, Eq, Error)]
pub enum TextFault {
    /// More than 65,536 bytes.
    #[error("too long")]
    TooLong,
    /// A byte above 127, the first one, at this place.
    #[error("not ASCII at {0}")]
    NonAscii(usize),
}

impl Text {
    /// The text of these characters. It takes no memory.
    ///
    /// Refused, in this order: `TooLong` for more than 65,536 bytes, `NonAscii` with the place of the first byte above 127. If
    /// refused, the bytes are dropped.
    pub fn new(characters: Vec<u8>) -> Result<Text, TextFault>
        ensures { result ≡ text_of characters.items }
    {
        if characters.len() > MAX_TEXT {
            return Err(TextFault::TooLong);
        }
        match first_non_ascii(&characters) {
            Some(place) => Err(TextFault::NonAscii(place)),
            None => Ok(Text { characters }),
        }
    }

    /// The characters.
    #[inline(always)]
    pub fn bytes(&self) -> &[u8]
        ensures value { result.now ≡ self.now }
        ensures short { length self.now ≤ MAX_TEXT }
        ensures ascii { IsTrue (list_all is_ascii self.now) }
    {
        self.characters.as_slice()
    }
}

/// The place of the first byte above 127, if there is one. If there is no such byte, that is seen a word at a time.
#[tactic(auto, using(crate::proofs::TextLemmas::ascii_none))]
pub fn first_non_ascii(characters: &[u8]) -> Option<usize>
    ensures { result ≡ first_non_ascii characters.now }
{
    if characters.is_ascii() {
        return None;
    }
    characters.iter().position(|c| !c.is_ascii())
}

impl PartialEq for Text {
    ghost eq = { λ s t. pointwise nat_eq s t };

    ghost laws = { partial_equiv_from_equiv nat_list_eq_equiv };

    fn eq(&self, other: &Text) -> bool {
        self.bytes() == other.bytes()
    }
}

impl Eq for Text {
    ghost laws = { nat_list_eq_equiv };
}
