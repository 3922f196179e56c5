//! Names of texts.
ghost use Rattle.std.specs.Prelude.{◌≡◌, nat_eq, IsTrue};
ghost use Rattle.std.specs.Cmp.{partial_equiv_from_equiv};
ghost use Rattle.std.specs.Cmp.Lexicographic.{pointwise, nat_list_eq_equiv};
ghost use Rattle.std.specs.Cmp.Rules.{hashing};
ghost use Rattle.std.specs.List.{list_all};
ghost use Rattle.std.specs.Char.{is_ascii_graphic};
ghost use Rattle.std.specs.Hash as fed;
ghost use Rattle.std.proofs.Common.{rules};
ghost use Rattle.sno_pattern.specs.TextNames.{is_text_name, IsTextName};

use std::alloc::Global;
use std::hash::{Hash, Hasher};
use std::marker::Model;
use thiserror::Error;

/// The most characters that the name of a text can have.
pub const MAX_TEXT_NAME: usize = 255;

/// The name of a text: 1 to 255 characters, each from `!` to `~`.
#[derive(Debug, Drop)]
pub struct TextName {
    characters: Vec<u8>,
}

impl Model for TextName {
    ghost use Rattle.std.specs.Prelude.{ℕ, List, IsTrue};
    ghost use Rattle.sno_pattern.specs.TextNames.{is_text_name};

    ghost Value = { List ℕ };

    ghost view = { λ s. s.characters.items };

    ghost invariant = { λ s. IsTrue (is_text_name s.characters.items) };
}

/// Why bytes can't be made a name of a text.
#[derive(Clone, Copy, Debug, PartialEq, Eq, Error)]
pub enum NameFault {
    /// The bytes are not a name: empty, more than 255, or not all from 33 to 126.
    #[error("bad name")]
    Bad,
    /// Out of memory.
    #[error("out of memory")]
    Memory,
}

impl TextName {
    /// The name that the bytes are, copied.
    ///
    /// Refused, in this order: `Bad` if they are not a name, `Memory`.
    pub fn new(alloc: Global, bytes: &[u8]) -> Result<TextName, NameFault>
        ensures { IsTextName result bytes.now }
    {
        if !is_text_name(bytes) {
            return Err(NameFault::Bad);
        }
        match Vec::from_slice(alloc, bytes) {
            Ok(characters) => Ok(TextName { characters }),
            Err(_) => Err(NameFault::Memory),
        }
    }

    /// The characters, 1 to 255 of them.
    #[inline(always)]
    pub fn bytes(&self) -> &[u8]
        ensures value { result.now ≡ self.now }
        ensures name { IsTrue (is_text_name self.now) }
    {
        self.characters.as_slice()
    }
}

fn is_text_name(bytes: &[u8]) -> bool
    ensures { result ≡ is_text_name bytes.now }
{
    !bytes.is_empty() && (bytes.len() <= MAX_TEXT_NAME && are_graphic(bytes))
}

fn are_graphic(bytes: &[u8]) -> bool
    ensures { result ≡ list_all is_ascii_graphic bytes.now }
{
    bytes.iter().all(|c| c.is_ascii_graphic())
}

impl PartialEq for TextName {
    ghost eq = { λ s t. pointwise nat_eq s t };

    ghost laws = { partial_equiv_from_equiv nat_list_eq_equiv };

    fn eq(&self, other: &TextName) -> bool {
        self.bytes() == other.bytes()
    }
}

impl Eq for TextName {
    ghost laws = { nat_list_eq_equiv };
}

impl Hash for TextName {
    ghost hash_input = { λ s. fed.slice fed.u8 s };

    ghost respects_eq = { Prim.search (hashing, rules) };

    fn hash<H: Hasher>(&self, state: &mut H) {
        self.bytes().hash(state);
    }
}
