//! Reading whole texts of rules for files.
ghost use Rattle.std.specs.Prelude.{◌≡◌, List, IfOk, Ok};
ghost use Rattle.sno_pattern.specs.Tree.{Tree, tree_of};
ghost use Rattle.sno_read.specs.declared.objects.Part.{Part};
ghost use Rattle.sno_read.specs.Grammar.{SpellsRule};
ghost use Rattle.sno_read.specs.ObjectGrammar.{SpellsRuleObject};
ghost use Rattle.sno_read.specs.Gives.{Gives, Returns, OnMemory, OnOutOfMemory};
ghost use Rattle.sno_read.specs.Reading.{short_text, rule_pattern_of, RuleAsksForMemory};
ghost use Rattle.sno_read.specs.Objects.{rule_object_of};

use crate::faults::{ReadFault, Stop};
use crate::objects::ByteObject;
use crate::piece::Piece;
use crate::reader::Reader;
use crate::reading::{MAX_WRITTEN, whole};
use sno_pattern::{Names, Pattern};
use std::alloc::Global;

// The text, if it is short.
fn check_length(text: &[u8]) -> Result<Piece<'_>, Stop>
    ensures read { Gives (λ p. p.characters.now) result (short_text text.now) }
    ensures same { IfOk result (λ p. p.characters.now ≡ text.now) }
    ensures late { OnMemory result ⊥ }
{
    if text.len() > MAX_WRITTEN {
        return Err(Stop::Fault(ReadFault::TooLong(MAX_WRITTEN)));
    }
    Ok(Piece { characters: text })
}

#[tactic(auto, unfolding(crate::specs::Reading::rule_pattern_of))]
fn rule_pattern(alloc: Global, names: &Names, earlier: usize, text: &[u8]) -> Result<Pattern, Stop>
    ensures read { Gives tree_of result (rule_pattern_of names.now earlier text.now) }
    ensures late { OnMemory result (RuleAsksForMemory text.now) }
{
    let piece = check_length(text)?;
    let reader = Reader {
        alloc,
        names,
        earlier,
        total: text.len(),
        in_rule: true,
    };
    let pattern = whole(&reader, piece)?;
    Ok(pattern)
}

#[tactic(auto, unfolding(crate::specs::Objects::rule_object_of))]
fn rule_object(alloc: Global, names: &Names, text: &[u8]) -> Result<ByteObject, Stop>
    ensures read { Gives (λ object. object) result (rule_object_of names.now text.now) }
    ensures late { OnMemory result (RuleAsksForMemory text.now) }
{
    let piece = check_length(text)?;
    let reader = Reader {
        alloc,
        names,
        earlier: 0,
        total: text.len(),
        in_rule: true,
    };
    let start = piece.after_blanks();
    // Blanks alone take no memory.
    if start.characters.is_empty() {
        return Ok(ByteObject::of(Vec::new(alloc)));
    }
    let parts = reader.byte_parts(start)?;
    Ok(ByteObject::of(parts))
}

/// The pattern that the text of a rule for files spells. It is read as [`read_pattern`](crate::read_pattern) reads, but that:
/// - the text has at most 4,096 bytes of any value. Outside literals a byte above 127 can't come;
/// - a literal with a byte above 127 is `Pattern::Bytes`;
/// - the argument of `ANY`, `NOTANY`, `SPAN` and `BREAK` is one or more literals with blanks between them. The members are
///   those of all of them, in order.
///
/// It is read exactly if the text spells a tree by `SpellsRule` of `specs/Grammar.antt`.
///
/// Refused with the first fault and its place, in this order:
/// - `TooLong` for the length;
/// - from left to right the first fault of the text. `NonAscii` is a byte above 127 in a set, and `EmptySet` is at the first
///   literal of a set if all are empty;
/// - `TooDeep` for the tree.
///
/// `Memory` is returned only if out of memory, and never for a text that is too long or blank.
pub fn read_rule_pattern(
    alloc: Global,
    names: &Names,
    earlier: usize,
    text: &[u8],
) -> Result<Pattern, ReadFault>
    // Which result it is, with the fault and its place.
    ensures exact { Returns tree_of result (rule_pattern_of names.now earlier text.now) }
    // `Memory` comes only if length and blanks give no result yet.
    ensures late { OnOutOfMemory result (RuleAsksForMemory text.now) }
    // What is read is spelled so.
    ensures found { IfOk result (λ p. SpellsRule names.now earlier text.now (tree_of p)) }
    // What is spelled so is read.
    ensures only { (t : Tree) → SpellsRule names.now earlier text.now t → Returns tree_of result (Ok t) }
{
    match rule_pattern(alloc, names, earlier, text) {
        Ok(pattern) => Ok(pattern),
        Err(Stop::Memory) => Err(ReadFault::Memory),
        Err(Stop::Fault(fault)) => Err(fault),
    }
}

/// The object that the text of a rule for files spells; a text of blanks alone is the object of no parts. Its literals may
/// have any bytes.
///
/// It is read exactly if the text spells parts by `SpellsRuleObject` of `specs/ObjectGrammar.antt`: at most 4,096 bytes.
///
/// Refused with the first fault and its place, in this order:
/// - `TooLong` for the length;
/// - from left to right the first fault of the text.
///
/// `Memory` is returned only if out of memory, and never for a text that is too long or blank.
pub fn read_rule_object(alloc: Global, names: &Names, text: &[u8]) -> Result<ByteObject, ReadFault>
    // Which result it is, with the fault and its place.
    ensures exact { Returns (λ object. object) result (rule_object_of names.now text.now) }
    // `Memory` comes only if length and blanks give no result yet.
    ensures late { OnOutOfMemory result (RuleAsksForMemory text.now) }
    // What is read is spelled so.
    ensures found { IfOk result (λ parts. SpellsRuleObject names.now text.now parts) }
    // What is spelled so is read.
    ensures only { (parts : List Part) → SpellsRuleObject names.now text.now parts → Returns (λ object. object) result (Ok parts) }
{
    match rule_object(alloc, names, text) {
        Ok(object) => Ok(object),
        Err(Stop::Memory) => Err(ReadFault::Memory),
        Err(Stop::Fault(fault)) => Err(fault),
    }
}
