//! The arguments of calls with sets.
ghost use Rattle.std.specs.Prelude.{◌≡◌, ℕ, ◌<◌, length, drop, suc, Some, None, IfOk, IsTrue};
ghost use Rattle.std.specs.List.{list_all};
ghost use Rattle.std.specs.Char.{is_ascii};
ghost use Rattle.sno_pattern.specs.Texts.{first_non_ascii};
ghost use Rattle.sno_read.specs.Gives.{Gives, ◌>>=◌ as ◌and_then◌};
ghost use Rattle.sno_read.specs.Reading.{place, ascii_literal_at, literals_at, set_at, unless_empty};
ghost use Rattle.sno_read.specs.Views.{env_of};
ghost use Rattle.sno_read.specs.declared.faults.ReadFault.TheVariants.{EmptySet, NonAscii};
ghost use Rattle.sno_read.specs.declared.faults.Stop.TheVariants.{Fault};

use crate::characters;
use crate::faults::{ReadFault, Stop};
use crate::piece::Piece;
use crate::reader::Reader;
use sno_pattern::{Class, first_non_ascii};

impl<'a> Reader<'a> {
    // The fault that a literal, which begins this rest, has a byte above 127 after `before` other bytes.
    #[tactic(auto, using(crate::proofs::Runs::drops))]
    fn above(&self, rest: Piece, before: usize) -> Stop
        ensures { result ≡ Fault (NonAscii (place (env_of self.now) (drop before (drop 1 rest.entry.characters.now)))) }
    {
        let inside = rest.characters.len().saturating_sub(1);
        let left = inside.saturating_sub(before);
        Stop::Fault(ReadFault::NonAscii(self.total.saturating_sub(left)))
    }

    // The fault that all literals of a set are empty; the set begins this rest.
    fn empty_set(&self, rest: Piece) -> Stop
        ensures { result ≡ Fault (EmptySet (place (env_of self.now) rest.entry.characters.now)) }
    {
        Stop::Fault(ReadFault::EmptySet(self.place(rest)))
    }

    // A literal of ASCII characters.
    #[tactic(auto, using(sno_pattern::proofs::TextLemmas::all_ascii), unfolding(crate::specs::Reading::ascii_literal_at))]
    fn ascii_literal(&self, rest: Piece<'a>) -> Result<(Piece<'a>, Piece<'a>), Stop>
        ensures read { Gives (λ p. (p.0.characters.now, p.1.characters.now)) result (ascii_literal_at (env_of self.now) rest.entry.characters.now) }
        ensures ascii { IfOk result (λ p. IsTrue (list_all is_ascii p.0.characters.now)) }
        ensures shorter { IfOk result (λ p. length p.1.characters.now < length rest.entry.characters.now) }
    {
        let (content, rest_after) = self.literal(rest)?;
        match first_non_ascii(content.characters) {
            Some(before) => Err(self.above(rest, before)),
            None => Ok((content, rest_after)),
        }
    }

    // Why the content of a literal, which begins this rest, makes no set.
    fn refused(&self, rest: Piece, content: Piece) -> Stop
        ensures some { (i : ℕ) → first_non_ascii content.entry.characters.now ≡ Some i → result ≡ Fault (NonAscii (place (env_of self.now) (drop i (drop 1 rest.entry.characters.now)))) }
        ensures none { first_non_ascii content.entry.characters.now ≡ None → result ≡ Fault (EmptySet (place (env_of self.now) rest.entry.characters.now)) }
    {
        match first_non_ascii(content.characters) {
            Some(before) => self.above(rest, before),
            None => self.empty_set(rest),
        }
    }

    // The members of a set of a document: those of a literal.
    #[tactic(auto, unfolding(crate::specs::Reading::ascii_literal_at))]
    fn one_literal(&self, rest: Piece<'a>) -> Result<(Class, Piece<'a>), Stop>
        ensures read { Gives (λ p. (p.0, p.1.characters.now)) result (ascii_literal_at (env_of self.now) rest.entry.characters.now and_then unless_empty (EmptySet (place (env_of self.now) rest.entry.characters.now))) }
        ensures shorter { IfOk result (λ p. length p.1.characters.now < length rest.entry.characters.now) }
    {
        let (content, rest_after) = self.literal(rest)?;
        let members = Vec::from_slice(self.alloc, content.characters)?;
        match Class::new(members) {
            Some(class) => Ok((class, rest_after)),
            None => Err(self.refused(rest, content)),
        }
    }

    // Literals with blanks between them, joined.
    fn joined(&self, start: Piece<'a>) -> Result<(Vec<u8>, Piece<'a>), Stop>
        ensures read { Gives (λ p. (p.0.items, p.1.characters.now)) result (literals_at (env_of self.now) (suc (length start.entry.characters.now)) start.entry.characters.now) }
        ensures ascii { IfOk result (λ p. IsTrue (list_all is_ascii p.0.items)) }
        ensures shorter { IfOk result (λ p. length p.1.characters.now < length start.entry.characters.now) }
    {
        let mut members = Vec::new(self.alloc);
        let mut rest = start;
        loop {
            let (content, rest_after) = self.ascii_literal(rest)?;
            members.extend_from_slice(content.characters)?;
            if !characters::goes_on(rest_after.characters) {
                return Ok((members, rest_after));
            }
            rest = rest_after.after_blanks();
        }
    }

    // The members of a set of a rule: those of one literal or more.
    fn literals(&self, rest: Piece<'a>) -> Result<(Class, Piece<'a>), Stop>
        ensures read { Gives (λ p. (p.0, p.1.characters.now)) result (literals_at (env_of self.now) (suc (length rest.entry.characters.now)) rest.entry.characters.now and_then unless_empty (EmptySet (place (env_of self.now) rest.entry.characters.now))) }
        ensures shorter { IfOk result (λ p. length p.1.characters.now < length rest.entry.characters.now) }
    {
        let (members, rest_after) = self.joined(rest)?;
        match Class::new(members) {
            Some(class) => Ok((class, rest_after)),
            None => Err(self.empty_set(rest)),
        }
    }

    /// The members of a set.
    #[tactic(auto, unfolding(crate::specs::Reading::set_at))]
    pub fn set(&self, rest: Piece<'a>) -> Result<(Class, Piece<'a>), Stop>
        ensures read { Gives (λ p. (p.0, p.1.characters.now)) result (set_at (env_of self.now) rest.entry.characters.now) }
        ensures shorter { IfOk result (λ p. length p.1.characters.now < length rest.entry.characters.now) }
    {
        if self.in_rule {
            self.literals(rest)
        } else {
            self.one_literal(rest)
        }
    }
}
