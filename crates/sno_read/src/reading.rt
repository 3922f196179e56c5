//! Reading whole texts of documents.
ghost use Rattle.std.specs.Prelude.{◌≡◌, ◌<◌, List, length, IfOk, IsTrue, Ok};
ghost use Rattle.std.specs.List.{list_all};
ghost use Rattle.std.specs.Char.{is_ascii};
ghost use Rattle.sno_pattern.specs.Tree.{Tree, tree_of};
ghost use Rattle.sno_read.specs.declared.objects.Part.{Part};
ghost use Rattle.sno_read.specs.Grammar.{Spells};
ghost use Rattle.sno_read.specs.ObjectGrammar.{SpellsObject};
ghost use Rattle.sno_read.specs.Gives.{Gives, ◌>>=◌ as ◌and_then◌, Returns, OnMemory, OnOutOfMemory};
ghost use Rattle.sno_read.specs.Characters.{skip};
ghost use Rattle.sno_read.specs.Reading.{short_ascii, end_at, unless_too_deep, whole_of, pattern_of, AsksForMemory};
ghost use Rattle.sno_read.specs.Objects.{object_of};
ghost use Rattle.sno_read.specs.Views.{env_of};

use crate::depth;
use crate::faults::{ReadFault, Stop};
use crate::objects::Object;
use crate::piece::Piece;
use crate::reader::Reader;
use sno_pattern::{Names, Pattern, first_non_ascii};
use std::alloc::Global;

/// The most characters that a pattern's text or an object's text can have.
pub const MAX_WRITTEN: usize = 4_096;

/// The most parentheses that can be open at one place.
pub const MAX_OPEN: usize = 100;

/// The depth of the deepest tree that is read.
pub const MAX_DEPTH: usize = 1_000;

// The text, if it is short and ASCII.
#[tactic(auto, using(sno_pattern::proofs::TextLemmas::all_ascii))]
fn check(text: &[u8]) -> Result<Piece<'_>, Stop>
    ensures read { Gives (λ p. p.characters.now) result (short_ascii text.now) }
    ensures same { IfOk result (λ p. p.characters.now ≡ text.now) }
    ensures ascii { IfOk result (λ p. IsTrue (list_all is_ascii p.characters.now)) }
    ensures late { OnMemory result ⊥ }
{
    if text.len() > MAX_WRITTEN {
        return Err(Stop::Fault(ReadFault::TooLong(MAX_WRITTEN)));
    }
    match first_non_ascii(text) {
        Some(place) => Err(Stop::Fault(ReadFault::NonAscii(place))),
        None => Ok(Piece { characters: text }),
    }
}

// Checks that only blanks come after a pattern, and that it isn't too deep.
#[tactic(auto, unfolding(crate::specs::Reading::unless_too_deep, crate::specs::Reading::end_at))]
fn finish(reader: &Reader, pattern: &Pattern, rest: Piece) -> Result<(), Stop>
    ensures read { Gives (λ _. tree_of pattern.now) result (end_at (env_of reader.now) (skip rest.entry.characters.now) and_then λ _. unless_too_deep (env_of reader.now) (tree_of pattern.now)) }
{
    let end = rest.after_blanks();
    if !end.characters.is_empty() {
        return Err(reader.unexpected(end));
    }
    if depth::fits(pattern, MAX_DEPTH) {
        Ok(())
    } else {
        Err(Stop::Fault(ReadFault::TooDeep(reader.total)))
    }
}

/// The pattern that a whole text spells.
#[tactic(auto, unfolding(crate::specs::Reading::whole_of, crate::specs::Reading::alternation_at))]
pub fn whole(reader: &Reader, text: Piece) -> Result<Pattern, Stop>
    ensures read { Gives tree_of result (whole_of (env_of reader.now) text.entry.characters.now) }
    ensures late { OnMemory result (0 < length (skip text.entry.characters.now)) }
{
    let rest = text.after_blanks();
    if rest.characters.is_empty() {
        return Err(Stop::Fault(ReadFault::Empty(reader.total)));
    }
    let (pattern, rest) = reader.alternation(MAX_OPEN, rest)?;
    finish(reader, &pattern, rest)?;
    Ok(pattern)
}

#[tactic(auto, unfolding(crate::specs::Reading::pattern_of))]
fn pattern(alloc: Global, names: &Names, earlier: usize, text: &[u8]) -> Result<Pattern, Stop>
    ensures read { Gives tree_of result (pattern_of names.now earlier text.now) }
    ensures late { OnMemory result (AsksForMemory text.now) }
{
    let piece = check(text)?;
    let reader = Reader {
        alloc,
        names,
        earlier,
        total: text.len(),
        in_rule: false,
    };
    let pattern = whole(&reader, piece)?;
    Ok(pattern)
}

#[tactic(auto, using(crate::proofs::AsciiRests::skip_ascii), unfolding(crate::specs::Objects::object_of))]
fn object(alloc: Global, names: &Names, text: &[u8]) -> Result<Object, Stop>
    ensures read { Gives (λ object. object) result (object_of names.now text.now) }
    ensures late { OnMemory result (AsksForMemory text.now) }
{
    let piece = check(text)?;
    let reader = Reader {
        alloc,
        names,
        earlier: 0,
        total: text.len(),
        in_rule: false,
    };
    let start = piece.after_blanks();
    // Blanks alone take no memory.
    if start.characters.is_empty() {
        return Ok(Object::of(Vec::new(alloc)));
    }
    let parts = reader.parts(start)?;
    Ok(Object::of(parts))
}

/// The pattern that the text spells. A plain name may name the first `earlier` definitions (at most all of `names`), and
/// a starred one any definition.
///
/// It is read exactly if the text spells a tree by the grammar of `specs/Grammar.antt`: at most 4,096 ASCII characters, 100
/// open parentheses and a depth of 1,000.
///
/// Refused with the first fault and its place, in this order:
/// - `TooLong` for the length;
/// - `NonAscii`;
/// - from left to right the first fault of the text, as `specs/Reading.antt` finds it;
/// - `TooDeep` for the tree.
///
/// `Memory` is returned only if out of memory, and never for a text that is too long, not ASCII or blank.
pub fn read_pattern(
    alloc: Global,
    names: &Names,
    earlier: usize,
    text: &[u8],
) -> Result<Pattern, ReadFault>
    // Which result it is, with the fault and its place.
    ensures exact { Returns tree_of result (pattern_of names.now earlier text.now) }
    // `Memory` comes only if length, characters and blanks give no result yet.
    ensures late { OnOutOfMemory result (AsksForMemory text.now) }
    // What is read is spelled so.
    ensures found { IfOk result (λ p. Spells names.now earlier text.now (tree_of p)) }
    // What is spelled so is read.
    ensures only { (t : Tree) → Spells names.now earlier text.now t → Returns tree_of result (Ok t) }
{
    match pattern(alloc, names, earlier, text) {
        Ok(pattern) => Ok(pattern),
        Err(Stop::Memory) => Err(ReadFault::Memory),
        Err(Stop::Fault(fault)) => Err(fault),
    }
}

/// The object that the text spells; a text of blanks alone is the object of no parts.
///
/// It is read exactly if the text spells parts by the grammar of `specs/ObjectGrammar.antt`: at most 4,096 ASCII characters.
///
/// Refused with the first fault and its place, in this order:
/// - `TooLong` for the length;
/// - `NonAscii`;
/// - from left to right the first fault of the text.
///
/// `Memory` is returned only if out of memory, and never for a text that is too long, not ASCII or blank.
pub fn read_object(alloc: Global, names: &Names, text: &[u8]) -> Result<Object, ReadFault>
    // Which result it is, with the fault and its place.
    ensures exact { Returns (λ object. object) result (object_of names.now text.now) }
    // `Memory` comes only if length, characters and blanks give no result yet.
    ensures late { OnOutOfMemory result (AsksForMemory text.now) }
    // What is read is spelled so.
    ensures found { IfOk result (λ parts. SpellsObject names.now text.now parts) }
    // What is spelled so is read.
    ensures only { (parts : List Part) → SpellsObject names.now text.now parts → Returns (λ object. object) result (Ok parts) }
{
    match object(alloc, names, text) {
        Ok(object) => Ok(object),
        Err(Stop::Memory) => Err(ReadFault::Memory),
        Err(Stop::Fault(fault)) => Err(fault),
    }
}
