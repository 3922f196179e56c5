//! Literals, numbers, names, parentheses and blanks.
ghost use Rattle.std.specs.Prelude.{◌≡◌, ◌||◌, ◌<◌, ◌≤◌, length, IfOk, IsTrue, OnOk, Ok};
ghost use Rattle.std.specs.Option.{is_some};
ghost use Rattle.std.specs.List.{list_all};
ghost use Rattle.std.specs.Char.{is_ascii};
ghost use Rattle.sno_pattern.specs.Identifiers.{is_name_char, is_reserved};
ghost use Rattle.sno_pattern.specs.NameList.{place_of};
ghost use Rattle.sno_read.specs.Gives.{Gives};
ghost use Rattle.sno_read.specs.Characters.{rest_after, skip};
ghost use Rattle.sno_read.specs.Reading.{place, literal_at, number_at, name_at, variable_at, opening_at, closing_at, blanks_at, sign_at};
ghost use Rattle.sno_read.specs.Views.{env_of};
ghost use Rattle.sno_read.specs.declared.faults.ReadFault.TheVariants.{Unexpected};
ghost use Rattle.sno_read.specs.declared.faults.Stop.TheVariants.{Fault};

use crate::characters;
use crate::faults::{ReadFault, Stop};
use crate::piece::Piece;
use crate::reader::Reader;
use sno_pattern::{ByteText, Name, Text};

impl<'a> Reader<'a> {
    /// The place where this rest of the text begins.
    pub fn place(&self, rest: Piece) -> usize
        ensures { result ≡ place (env_of self.now) rest.entry.characters.now }
    {
        self.total.saturating_sub(rest.characters.len())
    }

    /// The fault that this rest begins with what can't come there.
    pub fn unexpected(&self, rest: Piece) -> Stop
        ensures { result ≡ Fault (Unexpected (place (env_of self.now) rest.entry.characters.now)) }
    {
        Stop::Fault(ReadFault::Unexpected(self.place(rest)))
    }

    /// The characters of a literal, from its opening quote.
    #[tactic(auto, using(crate::proofs::Runs::runs), unfolding(crate::specs::Reading::literal_at))]
    pub fn literal(&self, rest: Piece<'a>) -> Result<(Piece<'a>, Piece<'a>), Stop>
        ensures read { Gives (λ p. (p.0.characters.now, p.1.characters.now)) result (literal_at (env_of self.now) rest.entry.characters.now) }
        ensures shorter { IfOk result (λ p. length p.1.characters.now < length rest.entry.characters.now) }
    {
        let Some(quote) = characters::quote_of(rest.characters) else {
            return Err(self.unexpected(rest));
        };
        let (_quote, inside) = rest.split(1);
        let count = characters::count_quoted(inside.characters, quote);
        if count >= inside.characters.len() {
            return Err(Stop::Fault(ReadFault::OpenQuote(self.place(rest))));
        }
        let (content, closing) = inside.split(count);
        let (_quote, rest_after) = closing.split(1);
        Ok((content, rest_after))
    }

    /// A text of these characters, which are ASCII.
    #[tactic(auto, using(crate::proofs::Ascii::text_ok))]
    pub fn text(&self, content: Piece<'a>) -> Result<Text, Stop>
        requires { IsTrue (list_all is_ascii content.characters.now) }
        ensures { Gives (λ text. text) result (Ok content.entry.characters.now) }
    {
        let characters = Vec::from_slice(self.alloc, content.characters)?;
        match Text::new(characters) {
            Ok(text) => Ok(text),
            Err(_) => unreachable!(),
        }
    }

    /// A text of these bytes.
    #[tactic(auto, using(crate::proofs::Ascii::bytes_ok))]
    pub fn bytes(&self, content: Piece<'a>) -> Result<ByteText, Stop>
        ensures { Gives (λ text. text) result (Ok content.entry.characters.now) }
    {
        let bytes = Vec::from_slice(self.alloc, content.characters)?;
        match ByteText::new(bytes) {
            Ok(text) => Ok(text),
            Err(_) => unreachable!(),
        }
    }

    /// The number of all the digits that begin this rest.
    #[tactic(auto, using(crate::proofs::Runs::runs), unfolding(crate::specs::Reading::number_at))]
    pub fn number(&self, rest: Piece<'a>) -> Result<(u32, Piece<'a>), Stop>
        ensures read { Gives (λ p. (p.0, p.1.characters.now)) result (number_at (env_of self.now) rest.entry.characters.now) }
        ensures shorter { IfOk result (λ p. length p.1.characters.now < length rest.entry.characters.now) }
    {
        let (digits, rest_after) = rest.split(characters::count_digits(rest.characters));
        match characters::value_of(digits.characters) {
            Some(number) => Ok((number, rest_after)),
            None => Err(Stop::Fault(ReadFault::BadNumber(self.place(rest)))),
        }
    }

    /// The longest name that begins this rest.
    #[tactic(auto, using(crate::proofs::Runs::runs), unfolding(crate::specs::Reading::name_at))]
    pub fn name(&self, rest: Piece<'a>) -> Result<Name, Stop>
        ensures read { Gives (λ name. (name, rest_after is_name_char rest.entry.characters.now)) result (name_at (env_of self.now) rest.entry.characters.now) }
        ensures shorter { OnOk result (length (rest_after is_name_char rest.entry.characters.now) < length rest.entry.characters.now) }
    {
        if !characters::begins_letter(rest.characters) {
            return Err(self.unexpected(rest));
        }
        let (letters, _behind) = rest.split(characters::count_name_chars(rest.characters));
        match Name::read(letters.characters) {
            Some(name) => Ok(name),
            None => Err(Stop::Fault(ReadFault::TooLong(self.place(rest)))),
        }
    }

    /// Whether a name is reserved or names a definition.
    pub fn is_taken(&self, name: &Name) -> bool
        ensures { result ≡ (is_reserved name.now || is_some (place_of self.now.names.now name.now)) }
    {
        name.is_reserved() || self.names.place(name).is_some()
    }

    /// The name of a variable.
    #[tactic(auto, unfolding(crate::specs::Reading::variable_at))]
    pub fn variable(&self, rest: Piece<'a>) -> Result<Name, Stop>
        ensures read { Gives (λ name. (name, rest_after is_name_char rest.entry.characters.now)) result (variable_at (env_of self.now) rest.entry.characters.now) }
        ensures shorter { OnOk result (length (rest_after is_name_char rest.entry.characters.now) < length rest.entry.characters.now) }
    {
        let name = self.name(rest)?;
        if self.is_taken(&name) {
            return Err(Stop::Fault(ReadFault::ReservedTarget(self.place(rest))));
        }
        Ok(name)
    }

    /// An opening parenthesis and blanks. `room` is how many more parentheses may be opened.
    #[tactic(auto, unfolding(crate::specs::Reading::opening_at))]
    pub fn open_parenthesis(&self, room: usize, rest: Piece<'a>) -> Result<Piece<'a>, Stop>
        ensures read { Gives (λ p. p.characters.now) result (opening_at (env_of self.now) room rest.entry.characters.now) }
        ensures shorter { IfOk result (λ p. length p.characters.now < length rest.entry.characters.now) }
        ensures more { OnOk result (0 < room) }
    {
        if !characters::begins_with(rest.characters, b'(') {
            return Err(self.unexpected(rest));
        }
        if room == 0 {
            return Err(Stop::Fault(ReadFault::TooDeep(self.place(rest))));
        }
        let (_parenthesis, rest_after) = rest.split(1);
        Ok(rest_after.after_blanks())
    }

    /// Blanks and a closing parenthesis.
    #[tactic(auto, unfolding(crate::specs::Reading::closing_at))]
    pub fn close_parenthesis(&self, rest: Piece<'a>) -> Result<Piece<'a>, Stop>
        ensures read { Gives (λ p. p.characters.now) result (closing_at (env_of self.now) rest.entry.characters.now) }
        ensures shorter { IfOk result (λ p. length p.characters.now < length rest.entry.characters.now) }
    {
        let rest = rest.after_blanks();
        if !characters::begins_with(rest.characters, b')') {
            return Err(self.unexpected(rest));
        }
        let (_parenthesis, rest_after) = rest.split(1);
        Ok(rest_after)
    }

    /// Blanks, at least one.
    #[tactic(auto, unfolding(crate::specs::Reading::blanks_at))]
    pub fn some_blanks(&self, rest: Piece<'a>) -> Result<Piece<'a>, Stop>
        ensures read { Gives (λ p. p.characters.now) result (blanks_at (env_of self.now) rest.entry.characters.now) }
        ensures shorter { IfOk result (λ p. length p.characters.now ≤ length rest.entry.characters.now) }
    {
        if !characters::begins_blank(rest.characters) {
            return Err(self.unexpected(rest));
        }
        Ok(rest.after_blanks())
    }

    /// The rest after blanks, a sign and blanks again.
    #[tactic(auto, using(crate::proofs::Runs::runs), unfolding(crate::specs::Reading::sign_at))]
    pub fn sign(&self, rest: Piece<'a>) -> Result<Piece<'a>, Stop>
        requires { 0 < length (skip rest.characters.now) }
        ensures read { Gives (λ p. p.characters.now) result (sign_at (env_of self.now) rest.entry.characters.now) }
        ensures shorter { IfOk result (λ p. length p.characters.now < length rest.entry.characters.now) }
    {
        let (_sign, rest) = rest.after_blanks().split(1);
        let rest = self.some_blanks(rest)?;
        Ok(rest)
    }
}
