//! Pieces of the text that is being read.
ghost use Rattle.std.specs.Prelude.{◌≡◌, ◌≤◌, ◌+◌, length, take, drop};
ghost use Rattle.sno_pattern.specs.Identifiers.{is_name_char};
ghost use Rattle.sno_read.specs.Characters.{rest_after, skip};
ghost use Rattle.sno_read.specs.declared.reading.TheConstants.{MAX_WRITTEN};

use crate::characters;

/// A piece of the text that is being read: at most 4,096 characters.
#[derive(Clone, Copy)]
pub struct Piece<'a> {
    pub characters: &'a [u8],
    ghost short: { length characters.now ≤ MAX_WRITTEN },
}

impl<'a> Piece<'a> {
    /// The first `count` characters, and the rest.
    pub fn split(self, count: usize) -> (Piece<'a>, Piece<'a>)
        requires { count ≤ length self.characters.now }
        ensures front { result.0.characters.now ≡ take count self.entry.characters.now }
        ensures back { result.1.characters.now ≡ drop count self.entry.characters.now }
        ensures size { length result.1.characters.now + count ≡ length self.entry.characters.now }
    {
        let (front, back) = self.characters.split_at(count);
        (Piece { characters: front }, Piece { characters: back })
    }

    /// The rest after the blanks.
    #[tactic(auto, using(crate::proofs::Runs::runs))]
    pub fn after_blanks(self) -> Piece<'a>
        ensures value { result.characters.now ≡ skip self.entry.characters.now }
        ensures size { length result.characters.now ≤ length self.entry.characters.now }
    {
        let (_blanks, rest) = self.split(characters::count_blanks(self.characters));
        rest
    }

    /// The rest after the characters of names.
    #[tactic(auto, using(crate::proofs::Runs::runs))]
    pub fn after_name(self) -> Piece<'a>
        ensures value { result.characters.now ≡ rest_after is_name_char self.entry.characters.now }
        ensures size { length result.characters.now ≤ length self.entry.characters.now }
    {
        let (_name, rest) = self.split(characters::count_name_chars(self.characters));
        rest
    }
}
