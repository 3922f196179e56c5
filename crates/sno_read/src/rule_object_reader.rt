//! The reader of objects of rules: as `object_reader`, but that literals may have any bytes.
ghost use Rattle.std.specs.Prelude.{◌<◌, length, map, suc, IfOk};
ghost use Rattle.sno_read.specs.ByteParts.{part_of};
ghost use Rattle.sno_read.specs.Gives.{Gives};
ghost use Rattle.sno_read.specs.Objects.{part_at, parts_of};
ghost use Rattle.sno_read.specs.Views.{env_of};

use crate::characters::{self, Start};
use crate::faults::Stop;
use crate::objects::BytePart;
use crate::piece::Piece;
use crate::reader::Reader;

impl<'a> Reader<'a> {
    // One part.
    #[tactic(auto, unfolding(crate::specs::Objects::part_at))]
    fn byte_part(&self, rest: Piece<'a>) -> Result<(BytePart, Piece<'a>), Stop>
        ensures read { Gives (λ p. (part_of p.0, p.1.characters.now)) result (part_at (env_of self.now) rest.entry.characters.now) }
        ensures shorter { IfOk result (λ p. length p.1.characters.now < length rest.entry.characters.now) }
    {
        match characters::start_of(rest.characters) {
            Start::Quote => {
                let (content, rest_after) = self.literal(rest)?;
                let bytes = self.bytes(content)?;
                Ok((BytePart::Quoted(bytes), rest_after))
            }
            Start::Letter => {
                let name = self.variable(rest)?;
                Ok((BytePart::Var(name), rest.after_name()))
            }
            Start::At | Start::Star | Start::Open | Start::Other => Err(self.unexpected(rest)),
        }
    }

    /// The parts of an object of a rule, whose text doesn't begin with a blank.
    pub fn byte_parts(&self, start: Piece<'a>) -> Result<Vec<BytePart>, Stop>
        ensures { Gives (λ parts. map part_of parts.items) result (parts_of (env_of self.now) (suc (length start.entry.characters.now)) start.entry.characters.now) }
    {
        let mut parts = Vec::new(self.alloc);
        let mut rest = start;
        while !rest.characters.is_empty() {
            let (part, rest_after) = self.byte_part(rest)?;
            parts.push(part)?;
            rest = self.gap(rest_after)?;
        }
        Ok(parts)
    }
}
