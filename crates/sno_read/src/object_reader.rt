//! The reader of objects of documents.
ghost use Rattle.std.specs.Prelude.{◌<◌, ◌≤◌, length, suc, IfOk, IsTrue};
ghost use Rattle.std.specs.List.{list_all};
ghost use Rattle.std.specs.Char.{is_ascii};
ghost use Rattle.sno_read.specs.Gives.{Gives};
ghost use Rattle.sno_read.specs.Objects.{part_at, gap_at, parts_of};
ghost use Rattle.sno_read.specs.Views.{env_of};

use crate::characters::{self, Start};
use crate::faults::Stop;
use crate::objects::Part;
use crate::piece::Piece;
use crate::reader::Reader;

impl<'a> Reader<'a> {
    // One part of an object of a document, whose text is ASCII.
    #[tactic(auto, unfolding(crate::specs::Objects::part_at))]
    fn part(&self, rest: Piece<'a>) -> Result<(Part, Piece<'a>), Stop>
        requires { IsTrue (list_all is_ascii rest.characters.now) }
        ensures read { Gives (λ p. (p.0, p.1.characters.now)) result (part_at (env_of self.now) rest.entry.characters.now) }
        ensures shorter { IfOk result (λ p. length p.1.characters.now < length rest.entry.characters.now) }
    {
        match characters::start_of(rest.characters) {
            Start::Quote => {
                let (content, rest_after) = self.literal(rest)?;
                let text = self.text(content)?;
                Ok((Part::Quoted(text), rest_after))
            }
            Start::Letter => {
                let name = self.variable(rest)?;
                Ok((Part::Var(name), rest.after_name()))
            }
            Start::At | Start::Star | Start::Open | Start::Other => Err(self.unexpected(rest)),
        }
    }

    /// The rest after a part: nothing, or blanks and more.
    #[tactic(auto, unfolding(crate::specs::Objects::gap_at))]
    pub fn gap(&self, rest: Piece<'a>) -> Result<Piece<'a>, Stop>
        ensures read { Gives (λ p. p.characters.now) result (gap_at (env_of self.now) rest.entry.characters.now) }
        ensures shorter { IfOk result (λ p. length p.characters.now ≤ length rest.entry.characters.now) }
    {
        if rest.characters.is_empty() {
            return Ok(rest);
        }
        let rest = self.some_blanks(rest)?;
        Ok(rest)
    }

    /// The parts of an object of a document, whose text is ASCII and doesn't begin with a blank.
    pub fn parts(&self, start: Piece<'a>) -> Result<Vec<Part>, Stop>
        requires { IsTrue (list_all is_ascii start.characters.now) }
        ensures { Gives (λ parts. parts.items) result (parts_of (env_of self.now) (suc (length start.entry.characters.now)) start.entry.characters.now) }
    {
        let mut parts = Vec::new(self.alloc);
        let mut rest = start;
        while !rest.characters.is_empty() {
            let (part, rest_after) = self.part(rest)?;
            parts.push(part)?;
            rest = self.gap(rest_after)?;
        }
        Ok(parts)
    }
}
