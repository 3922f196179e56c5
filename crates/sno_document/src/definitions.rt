//! The definitions of a document.
ghost use Rattle.std.specs.Prelude.{◌≡◌, ◌<◌, ◌≤◌, ◌+◌, [], map, length, IfOk, IsTrue};
ghost use Rattle.std.specs.List.{list_all};
ghost use Rattle.sno_pattern.specs.Tree.{tree_of, trees, refs_below};
ghost use Rattle.sno_pattern.specs.NameList.{names_of};
ghost use Rattle.sno_document.specs.Faults.{Gives};
ghost use Rattle.sno_document.specs.DocumentRows.{pair_seen};
ghost use Rattle.sno_document.specs.Drafts.{drafted_seen, IsDrafted, Admits};
ghost use Rattle.sno_document.specs.Document.{names_from, check_names, reading, pattern_in, bodies_from, definitions_of};
ghost use Rattle.sno_document.specs.declared.faults.DocumentFault.TheVariants.{PatternRead};

use crate::DocumentFault;
use crate::document_rows::PairRow;
use crate::patterns::pattern_in;
use sno_pattern::{MAX_DEFINITIONS, Name, Names, NamesFault, Pattern, Rules, RulesFault};
use sno_read::ReadFault;
use std::alloc::Global;

fn names_in(alloc: Global, rows: &[PairRow<'_>]) -> Result<Vec<Name>, DocumentFault>
    ensures names { Gives (λ v. v.items) result (names_from 1 [] (map pair_seen rows.now)) }
    ensures as_many { IfOk result (λ v. length v.items ≡ length rows.now) }
{
    let mut names = Vec::new(alloc);
    for (name, _) in rows {
        match Name::read(name.as_bytes()) {
            Some(name) => names.push(name)?,
            None => return Err(DocumentFault::PatternName(names.len() + 1)),
        }
    }
    Ok(names)
}

#[tactic(auto, using(crate::proofs::PlaceLemmas::reserved_place, crate::proofs::PlaceLemmas::duplicate_place))]
fn check_names(alloc: Global, names: &[Name]) -> Result<Names, DocumentFault>
    requires { length names.now ≤ MAX_DEFINITIONS }
    ensures { Gives (λ n. n) result (check_names (names_of names.now)) }
{
    match Names::new(alloc, names) {
        Ok(names) => Ok(names),
        Err(NamesFault::TooMany) => Err(DocumentFault::TooManyPatterns),
        Err(NamesFault::Reserved(place)) => Err(DocumentFault::PatternReserved(place + 1)),
        Err(NamesFault::Duplicate(place)) => Err(DocumentFault::PatternDuplicate(place + 1)),
        Err(NamesFault::Memory) => Err(DocumentFault::Memory),
    }
}

/// The pattern of the definition at a place. Its references are to definitions.
fn body(
    alloc: Global,
    wide: bool,
    names: &Names,
    place: usize,
    text: &str,
) -> Result<Pattern, DocumentFault>
    requires { place < MAX_DEFINITIONS }
    ensures read { Gives tree_of result (reading (λ e. PatternRead (place + 1) e) (pattern_in wide names.now place text.now)) }
    ensures covered { IfOk result (λ p. IsTrue (refs_below (length names.now) (tree_of p))) }
{
    match pattern_in(alloc, wide, names, place, text) {
        Ok(pattern) => Ok(pattern),
        Err(ReadFault::Memory) => Err(DocumentFault::Memory),
        Err(fault) => Err(DocumentFault::PatternRead(place + 1, fault)),
    }
}

fn bodies(
    alloc: Global,
    wide: bool,
    names: &Names,
    rows: &[PairRow<'_>],
) -> Result<Vec<Pattern>, DocumentFault>
    requires { length rows.now ≤ MAX_DEFINITIONS }
    ensures bodies { Gives (λ v. trees v.items) result (bodies_from wide names.now 0 [] (map pair_seen rows.now)) }
    ensures covered { IfOk result (λ v. IsTrue (list_all (refs_below (length names.now)) (trees v.items))) }
    ensures as_many { IfOk result (λ v. length v.items ≡ length rows.now) }
{
    let mut bodies = Vec::new(alloc);
    for (place, (_, text)) in rows.iter().enumerate() {
        bodies.push(body(alloc, wide, names, place, text)?)?;
    }
    Ok(bodies)
}

/// Definitions that are not admitted yet.
#[derive(Drop)]
pub(crate) struct Drafted {
    pub(crate) names: Names,
    pub(crate) bodies: Vec<Pattern>,
    pub(crate) written: Vec<Name>,
}

/// The definitions, before they are admitted: as many bodies as names, and their references are to definitions. If they are `wide`,
/// their literals may have any bytes.
#[tactic(auto, unfolding(crate::specs::Document::definitions_of))]
pub(crate) fn definitions(
    alloc: Global,
    wide: bool,
    rows: &[PairRow<'_>],
) -> Result<Drafted, DocumentFault>
    ensures definitions { Gives drafted_seen result (definitions_of wide (map pair_seen rows.now)) }
    ensures sound { IfOk result IsDrafted }
{
    if rows.len() > MAX_DEFINITIONS {
        return Err(DocumentFault::TooManyPatterns);
    }
    let written = names_in(alloc, rows)?;
    let names = check_names(alloc, &written)?;
    let bodies = bodies(alloc, wide, &names, rows)?;
    Ok(Drafted {
        names,
        bodies,
        written,
    })
}

/// Returns the admitted definitions. `Unguarded` with the first definition on a cycle of references that takes no
/// character.
pub(crate) fn admit(alloc: Global, drafted: Drafted) -> Result<Rules, DocumentFault>
    requires { IsDrafted drafted }
    ensures { Admits (drafted_seen drafted) result }
{
    match Rules::admit(alloc, drafted.names, drafted.bodies) {
        Ok(rules) => Ok(rules),
        Err(RulesFault::Memory) => Err(DocumentFault::Memory),
        Err(RulesFault::BadRef(_)) => unreachable!(),
        Err(RulesFault::Unguarded(cycle)) => match cycle.first() {
            Some(first) => Err(DocumentFault::Unguarded(drafted.written[*first])),
            None => unreachable!(),
        },
    }
}
