//! Texts of any bytes, as files have them.
ghost use Rattle.std.specs.Prelude.{◌≡◌, nat_eq, length, ◌≤◌};
ghost use Rattle.std.specs.Cmp.{partial_equiv_from_equiv};
ghost use Rattle.std.specs.Cmp.Lexicographic.{pointwise, nat_list_eq_equiv};
ghost use Rattle.sno_pattern.specs.Texts.{byte_text_of};

use std::marker::Model;
use thiserror::Error;

/// The most bytes that a text of bytes can have.
pub const MAX_BYTES: usize = 16_777_216;

/// A text of bytes: at most 16,777,216, each from 0 to 255, with a cursor before, between and after them. A match takes each
/// byte as a character.
///
/// It is for the content of a file. Documents and books have a [`Text`](crate::Text).
#[derive(Debug, Drop)]
pub struct ByteText {
    bytes: Vec<u8>,
}

impl Model for ByteText {
    ghost use Rattle.std.specs.Prelude.{ℕ, List, length, ◌≤◌};
    ghost use Rattle.sno_pattern.specs.declared.byte_texts.TheConstants.{MAX_BYTES};

    ghost Value = { List ℕ };

    ghost view = { λ s. s.bytes.items };

    ghost invariant = { λ s. length s.bytes.items ≤ MAX_BYTES };
}

/// Why bytes are not a text of bytes.
#[derive(Clone, Copy, Debug, PartialEq, Eq, Error)]
pub enum ByteTextFault {
    /// More than 16,777,216 bytes.
    #[error("too long")]
    TooLong,
}

impl ByteText {
    /// The text of these bytes. It takes no memory.
    ///
    /// Refused: `TooLong` for more than 16,777,216 bytes. If refused, the bytes are dropped.
    pub fn new(bytes: Vec<u8>) -> Result<ByteText, ByteTextFault>
        ensures { result ≡ byte_text_of bytes.items }
    {
        if bytes.len() > MAX_BYTES {
            return Err(ByteTextFault::TooLong);
        }
        Ok(ByteText { bytes })
    }

    /// The bytes.
    #[inline(always)]
    pub fn bytes(&self) -> &[u8]
        ensures value { result.now ≡ self.now }
        ensures short { length self.now ≤ MAX_BYTES }
    {
        self.bytes.as_slice()
    }
}

impl PartialEq for ByteText {
    ghost eq = { λ s t. pointwise nat_eq s t };

    ghost laws = { partial_equiv_from_equiv nat_list_eq_equiv };

    fn eq(&self, other: &ByteText) -> bool {
        self.bytes() == other.bytes()
    }
}

impl Eq for ByteText {
    ghost laws = { nat_list_eq_equiv };
}
