//! The listing of a run as JSON.
ghost use Rattle.std.specs.Prelude.{◌≡◌, ◌<◌, ◌+◌, ◌^◌, ◌++◌, ◌∷◌, [], map, length, false, IfOk, IsTrue};
ghost use Rattle.std.specs.Option.{option_map};
ghost use Rattle.std.specs.Arc.{arc_value};
ghost use Rattle.std.specs.List.{list_all};
ghost use Rattle.std.specs.Char.{is_ascii};
ghost use Rattle.serde_json.specs.Data.{string};
ghost use Rattle.serde_json.specs.View.{view, members_view};
ghost use Rattle.serde_json.specs.Written.{compact_text};
ghost use Rattle.sno_statement.specs.BindingRefs.{datum_lent};
ghost use Rattle.sno_statement.specs.MatchLists.{match_lent};
ghost use Rattle.sno_statement.specs.Perform.{outcome_seen};
ghost use Rattle.sno_listing.specs.Listing.{reason_words};
ghost use Rattle.sno_book.specs.Views.{state_of};
ghost use Rattle.sno_book.specs.Books.{view_of};
ghost use Rattle.sno_listing.specs.History.{history_of};
ghost use Rattle.sno_listing.specs.JsonListing.{array_of, text_members, text_data, value_data, binding_data, bindings_data, subject_members, matched_members, failed_members, repeated_members, match_data, all_members, done_members, entry_data, entries_data, refused_data, json_listing_data, json_listing};

use crate::listing::put_reason;
use crate::{Reason, Refusal};
use serde_json::{Map, Value, json, put};
use sno_book::{Book, Entry};
use sno_pattern::{Name, Text, TextName};
use sno_statement::{Bindings, BindingsRef, DatumRef, MatchRef, Matches, Outcome};
use std::alloc::{AllocError, Global};

/// A string of ASCII characters.
#[tactic(auto, using(crate::proofs::JsonListingLemmas::ascii_utf8))]
fn ascii_value(alloc: Global, characters: &[u8]) -> Result<Value, AllocError>
    requires { IsTrue (list_all is_ascii characters.now) }
    ensures { IfOk result (λ v. view v ≡ string characters.now) }
{
    match str::from_utf8(characters) {
        Ok(text) => Value::try_from_str(alloc, text),
        Err(_) => unreachable!(),
    }
}

/// Returns the name of a text as JSON. Refused only if memory runs out.
#[tactic(auto, using(crate::proofs::JsonListingLemmas::text_name_ascii))]
pub fn text_name_value(alloc: Global, name: &TextName) -> Result<Value, AllocError>
    ensures { IfOk result (λ v. view v ≡ string name.now) }
{
    ascii_value(alloc, name.bytes())
}

/// Returns the members of the object that the JSON listing has for a text, in the order of their names. Refused only if
/// memory runs out.
pub fn text_members(
    alloc: Global,
    name: &TextName,
    text: &Text,
    version: u64,
) -> Result<Map<String, Value>, AllocError>
    ensures { IfOk result (λ m. members_view m.entries ≡ text_members (record { name = name.now; text = text.now; version = version })) }
{
    let name = text_name_value(alloc, name)?;
    let characters = ascii_value(alloc, text.bytes())?;
    let mut members = Map::new(alloc);
    put(&mut members, alloc, "version", Value::from(version))?;
    put(&mut members, alloc, "text", characters)?;
    put(&mut members, alloc, "name", name)?;
    Ok(members)
}

fn datum_value(alloc: Global, datum: &DatumRef<'_>) -> Result<Value, AllocError>
    ensures { IfOk result (λ v. view v ≡ value_data (datum_lent datum.now)) }
{
    match datum {
        DatumRef::Str(text) => ascii_value(alloc, text.bytes()),
        DatumRef::Int(number) => Ok(Value::from(*number)),
    }
}

#[tactic(auto, using(crate::proofs::JsonListingLemmas::name_ascii), unfolding(crate::specs::JsonListing::binding_data))]
fn binding_value(alloc: Global, name: &Name, datum: &DatumRef<'_>) -> Result<Value, AllocError>
    ensures { IfOk result (λ v. view v ≡ binding_data (name.now, datum_lent datum.now)) }
{
    let name = ascii_value(alloc, name.bytes())?;
    let datum = datum_value(alloc, datum)?;
    json!(in alloc; [name, datum])
}

#[tactic(auto, using(crate::proofs::ListingLemmas::row_there))]
fn binding_values(alloc: Global, bindings: &BindingsRef<'_>) -> Result<Vec<Value>, AllocError>
    ensures { IfOk result (λ v. map view v.items ≡ map binding_data bindings.now) }
{
    let mut values = Vec::with_capacity(alloc, bindings.len())?;
    for place in 0..bindings.len() {
        match bindings.get(place) {
            Some((name, datum)) => values.push(binding_value(alloc, name, &datum)?)?,
            None => unreachable!(),
        }
    }
    Ok(values)
}

fn bindings_value(alloc: Global, bindings: &BindingsRef<'_>) -> Result<Value, AllocError>
    ensures { IfOk result (λ v. view v ≡ bindings_data bindings.now) }
{
    Ok(Value::Array(binding_values(alloc, bindings)?))
}

/// The members that describe an entry's statement. Members are put from the last to the first.
#[tactic(auto, unfolding(crate::specs::JsonListing::subject_members))]
fn subject_members(alloc: Global, entry: &Entry) -> Result<Map<String, Value>, AllocError>
    ensures { IfOk result (λ m. members_view m.entries ≡ subject_members entry.now) }
{
    let name = text_name_value(alloc, entry.statement.text())?;
    let mut members = Map::new(alloc);
    put(&mut members, alloc, "version", Value::from(entry.version))?;
    put(&mut members, alloc, "text", name)?;
    put(
        &mut members,
        alloc,
        "statement",
        Value::from(entry.statement.number()),
    )?;
    Ok(members)
}

#[tactic(auto, unfolding(crate::specs::JsonListing::matched_members, crate::specs::JsonListing::subject_members))]
fn matched_members(
    alloc: Global,
    index: usize,
    entry: &Entry,
    start: usize,
    end: usize,
    bindings: &Bindings,
) -> Result<Map<String, Value>, AllocError>
    ensures { IfOk result (λ m. members_view m.entries ≡ matched_members index entry.now start end bindings.now) }
{
    let bound = bindings_value(alloc, &bindings.lend())?;
    let mut members = subject_members(alloc, entry)?;
    put(&mut members, alloc, "start", Value::from(start))?;
    put(&mut members, alloc, "matched", Value::from(true))?;
    put(&mut members, alloc, "entry", Value::from(index))?;
    put(&mut members, alloc, "end", Value::from(end))?;
    put(&mut members, alloc, "bindings", bound)?;
    Ok(members)
}

#[tactic(auto, unfolding(crate::specs::JsonListing::failed_members, crate::specs::JsonListing::subject_members))]
fn failed_members(
    alloc: Global,
    index: usize,
    entry: &Entry,
    bindings: &Bindings,
) -> Result<Map<String, Value>, AllocError>
    ensures { IfOk result (λ m. members_view m.entries ≡ failed_members index entry.now bindings.now) }
{
    let bound = bindings_value(alloc, &bindings.lend())?;
    let mut members = subject_members(alloc, entry)?;
    put(&mut members, alloc, "matched", Value::from(false))?;
    put(&mut members, alloc, "entry", Value::from(index))?;
    put(&mut members, alloc, "bindings", bound)?;
    Ok(members)
}

#[tactic(auto, unfolding(crate::specs::JsonListing::repeated_members, crate::specs::JsonListing::subject_members))]
fn repeated_members(
    alloc: Global,
    index: usize,
    entry: &Entry,
    matches: u32,
    bindings: &Bindings,
) -> Result<Map<String, Value>, AllocError>
    ensures { IfOk result (λ m. members_view m.entries ≡ repeated_members index entry.now matches bindings.now) }
{
    let bound = bindings_value(alloc, &bindings.lend())?;
    let mut members = subject_members(alloc, entry)?;
    put(&mut members, alloc, "repeated", Value::from(matches))?;
    put(&mut members, alloc, "matched", Value::from(true))?;
    put(&mut members, alloc, "entry", Value::from(index))?;
    put(&mut members, alloc, "bindings", bound)?;
    Ok(members)
}

#[tactic(auto, unfolding(crate::specs::JsonListing::match_data))]
fn match_value(alloc: Global, one: &MatchRef<'_>) -> Result<Value, AllocError>
    ensures { IfOk result (λ v. view v ≡ match_data (match_lent one.now)) }
{
    let bound = bindings_value(alloc, &one.bindings)?;
    json!(in alloc; {"bindings": bound, "end": one.end, "start": one.start})
}

#[tactic(auto, using(crate::proofs::ListingLemmas::row_there))]
fn match_values(alloc: Global, matches: &Matches) -> Result<Vec<Value>, AllocError>
    ensures { IfOk result (λ v. map view v.items ≡ map match_data matches.now) }
{
    let mut values = Vec::with_capacity(alloc, matches.len())?;
    for place in 0..matches.len() {
        match matches.get(place) {
            Some(one) => values.push(match_value(alloc, &one)?)?,
            None => unreachable!(),
        }
    }
    Ok(values)
}

#[tactic(auto, unfolding(crate::specs::JsonListing::all_members, crate::specs::JsonListing::subject_members))]
fn all_members(
    alloc: Global,
    index: usize,
    entry: &Entry,
    matches: &Matches,
) -> Result<Map<String, Value>, AllocError>
    ensures { IfOk result (λ m. members_view m.entries ≡ all_members index entry.now matches.now) }
{
    let all = Value::Array(match_values(alloc, matches)?);
    let mut members = subject_members(alloc, entry)?;
    put(&mut members, alloc, "matched", Value::from(true))?;
    put(&mut members, alloc, "entry", Value::from(index))?;
    put(&mut members, alloc, "all", all)?;
    Ok(members)
}

/// Returns the members of the object that the JSON listing has for an entry at this index, in the order of their names.
/// Refused only if memory runs out.
#[tactic(auto, unfolding(crate::specs::JsonListing::matched_members, crate::specs::JsonListing::repeated_members, crate::specs::JsonListing::all_members))]
pub fn done_members(
    alloc: Global,
    index: usize,
    entry: &Entry,
) -> Result<Map<String, Value>, AllocError>
    ensures { IfOk result (λ m. members_view m.entries ≡ done_members index entry.now entry.now.outcome) }
{
    match &*entry.outcome {
        Outcome::Matched {
            start,
            end,
            bindings,
            after: None,
        } => matched_members(alloc, index, entry, *start, *end, bindings),
        Outcome::Matched {
            start,
            end,
            bindings,
            after: Some(text),
        } => {
            let text = ascii_value(alloc, text.bytes())?;
            let mut members = matched_members(alloc, index, entry, *start, *end, bindings)?;
            put(&mut members, alloc, "after", text)?;
            Ok(members)
        }
        Outcome::Failed { bindings } => failed_members(alloc, index, entry, bindings),
        Outcome::Repeated {
            matches,
            bindings,
            after,
        } => {
            let text = ascii_value(alloc, after.bytes())?;
            let mut members = repeated_members(alloc, index, entry, *matches, bindings)?;
            put(&mut members, alloc, "after", text)?;
            Ok(members)
        }
        Outcome::All {
            matches,
            after: None,
        } => all_members(alloc, index, entry, matches),
        Outcome::All {
            matches,
            after: Some(text),
        } => {
            let text = ascii_value(alloc, text.bytes())?;
            let mut members = all_members(alloc, index, entry, matches)?;
            put(&mut members, alloc, "after", text)?;
            Ok(members)
        }
    }
}

/// Returns the objects that the JSON listing has for entries from the index `first` on. Refused only if
/// memory runs out.
pub fn entry_values(
    alloc: Global,
    first: usize,
    journal: &[Entry],
) -> Result<Vec<Value>, AllocError>
    requires { first + length journal.now < 2 ^ 64 }
    ensures { IfOk result (λ v. map view v.items ≡ entries_data first journal.now) }
{
    let mut values = Vec::with_capacity(alloc, journal.len())?;
    for (index, entry) in journal.iter().enumerate() {
        let members = done_members(alloc, first + index, entry)?;
        values.push(Value::Object(members))?;
    }
    Ok(values)
}

/// Returns the words that the JSON listing has for a reason. Refused only if memory runs out.
pub fn reason_value(alloc: Global, reason: Reason) -> Result<Value, AllocError>
    ensures { IfOk result (λ v. view v ≡ string (reason_words reason)) }
{
    let mut words = Vec::new(alloc);
    put_reason(&mut words, reason)?;
    ascii_value(alloc, &words)
}

#[tactic(auto, unfolding(crate::specs::JsonListing::refused_data))]
fn refusal_value(alloc: Global, refusal: &Refusal) -> Result<Value, AllocError>
    ensures { IfOk result (λ v. view v ≡ refused_data refusal.now) }
{
    let reason = reason_value(alloc, refusal.reason)?;
    json!(in alloc; {"reason": reason, "statement": refusal.number})
}

fn refusal_values(alloc: Global, refused: &[Refusal]) -> Result<Vec<Value>, AllocError>
    ensures { IfOk result (λ v. map view v.items ≡ map refused_data refused.now) }
{
    let mut values = Vec::with_capacity(alloc, refused.len())?;
    for refusal in refused {
        values.push(refusal_value(alloc, refusal)?)?;
    }
    Ok(values)
}

/// Returns the objects that the JSON listing has for the texts of a book, in their order. Refused only if memory runs out.
#[tactic(auto, using(crate::proofs::ListingLemmas::row_there))]
pub fn text_values(alloc: Global, book: &Book) -> Result<Vec<Value>, AllocError>
    ensures { IfOk result (λ v. map view v.items ≡ map text_data (state_of (view_of book.now))) }
{
    let mut values = Vec::with_capacity(alloc, book.len())?;
    for place in 0..book.len() {
        match book.text(place) {
            Some((name, text, version)) => {
                let members = text_members(alloc, name, text, version)?;
                values.push(Value::Object(members))?;
            }
            None => unreachable!(),
        }
    }
    Ok(values)
}

/// Returns the JSON listing of a book's texts, of its journal, and of the refused statements. Refused only if memory runs
/// out.
#[tactic(auto, unfolding(crate::specs::JsonListing::json_listing_data))]
pub fn listing_value(alloc: Global, book: &Book, refused: &[Refusal]) -> Result<Value, AllocError>
    ensures { IfOk result (λ v. view v ≡ json_listing_data (history_of (view_of book.now) refused.now)) }
{
    let entries = Value::Array(entry_values(alloc, 0, book.journal())?);
    let refused = Value::Array(refusal_values(alloc, refused)?);
    let texts = Value::Array(text_values(alloc, book)?);
    json!(in alloc; {"entries": entries, "refused": refused, "texts": texts})
}

/// The listing of the final texts, of the journal and of the refused statements, as one compact JSON text and a line
/// feed.
#[tactic(auto, using(crate::proofs::JsonListingLemmas::no_float))]
pub(crate) fn json_listing(
    alloc: Global,
    book: &Book,
    refused: &[Refusal],
) -> Result<Vec<u8>, AllocError>
    ensures { IfOk result (λ v. v.items ≡ json_listing (history_of (view_of book.now) refused.now)) }
{
    let value = listing_value(alloc, book, refused)?;
    let mut line = value.to_vec(alloc)?;
    line.push(b'\n')?;
    Ok(line)
}
