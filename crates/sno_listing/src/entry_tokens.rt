//! Entries as JSON, written token by token. No value is made of them first, which would take memory for each member.
ghost use Rattle.std.specs.Prelude.{◌≡◌, ◌∷◌, ◌++◌, [], codes, map, true, IsTrue, OnOk, Some};
ghost use Rattle.std.specs.Arc.{arc_value};
ghost use Rattle.std.specs.Char.{is_ascii};
ghost use Rattle.std.specs.Fmt.{decimal};
ghost use Rattle.std.specs.List.{list_all};
ghost use Rattle.std.specs.Option.{option_map};
ghost use Rattle.json.specs.Token.{Token, key};
ghost use Rattle.sno_statement.specs.BindingRefs.{datum_lent};
ghost use Rattle.sno_statement.specs.MatchLists.{match_lent};
ghost use Rattle.sno_statement.specs.Perform.{outcome_seen};
ghost use Rattle.sno_listing.specs.JsonListing.{array_of, binding_data, bindings_data, entry_data, match_data, value_data};
ghost use Rattle.sno_listing.specs.Tokens.{Adds, after_tokens, data_tokens, found_tokens, head_tokens, result_tokens, subject_tokens, tail_tokens};

use json::Writer;
use sno_book::Entry;
use sno_pattern::{Name, Text, TextName};
use sno_statement::{BindingsRef, DatumRef, MatchRef, Matches, Outcome};
use std::alloc::AllocError;
use std::sync::Arc;

/// A string whose characters are ASCII.
#[tactic(auto, using(crate::proofs::JsonListingLemmas::ascii_utf8))]
fn put_ascii(out: &mut Writer, characters: &[u8]) -> Result<(), AllocError>
    requires { IsTrue (list_all is_ascii characters.now) }
    ensures { OnOk result (Adds out.old out.new (Token.string characters.now ∷ [])) }
{
    match str::from_utf8(characters) {
        Ok(text) => out.string(text),
        Err(_) => unreachable!(),
    }
}

/// A member that is a number.
fn put_count(out: &mut Writer, name: &str, count: u64) -> Result<(), AllocError>
    ensures { OnOk result (Adds out.old out.new (key name.now ∷ Token.number (decimal count) ∷ [])) }
{
    out.key(name)?;
    out.u64(count)
}

/// A member that is a string whose characters are ASCII.
fn put_string(out: &mut Writer, name: &str, characters: &[u8]) -> Result<(), AllocError>
    requires { IsTrue (list_all is_ascii characters.now) }
    ensures { OnOk result (Adds out.old out.new (key name.now ∷ Token.string characters.now ∷ [])) }
{
    out.key(name)?;
    put_ascii(out, characters)
}

fn put_datum(out: &mut Writer, datum: &DatumRef<'_>) -> Result<(), AllocError>
    ensures { OnOk result (Adds out.old out.new (data_tokens (value_data (datum_lent datum.now)))) }
{
    match datum {
        DatumRef::Str(text) => put_ascii(out, text.bytes()),
        DatumRef::Int(number) => out.u64(u64::from(*number)),
    }
}

#[tactic(auto, using(crate::proofs::JsonListingLemmas::name_ascii), unfolding(crate::specs::JsonListing::binding_data))]
fn put_binding(out: &mut Writer, name: &Name, datum: &DatumRef<'_>) -> Result<(), AllocError>
    ensures { OnOk result (Adds out.old out.new (data_tokens (binding_data (name.now, datum_lent datum.now)))) }
{
    out.begin_array()?;
    put_ascii(out, name.bytes())?;
    put_datum(out, datum)?;
    out.end_array()
}

/// What was bound.
#[tactic(auto, using(crate::proofs::ListingLemmas::row_there))]
fn put_bindings(out: &mut Writer, bindings: &BindingsRef<'_>) -> Result<(), AllocError>
    ensures { OnOk result (Adds out.old out.new (data_tokens (bindings_data bindings.now))) }
{
    out.begin_array()?;
    for place in 0..bindings.len() {
        match bindings.get(place) {
            Some((name, datum)) => put_binding(out, name, &datum)?,
            None => unreachable!(),
        }
    }
    out.end_array()
}

/// What was bound, as a member.
fn put_bound(out: &mut Writer, bindings: &BindingsRef<'_>) -> Result<(), AllocError>
    ensures { OnOk result (Adds out.old out.new (key (codes "bindings") ∷ data_tokens (bindings_data bindings.now))) }
{
    out.key("bindings")?;
    put_bindings(out, bindings)?;
    Ok(())
}

/// Where a match ended and began.
fn put_span(out: &mut Writer, start: usize, end: usize) -> Result<(), AllocError>
    ensures { OnOk result (Adds out.old out.new (key (codes "end") ∷ Token.number (decimal end) ∷ key (codes "start") ∷ Token.number (decimal start) ∷ [])) }
{
    put_count(out, "end", end as u64)?;
    put_count(out, "start", start as u64)
}

/// One of all matches.
#[tactic(auto, unfolding(crate::specs::JsonListing::match_data))]
fn put_match(out: &mut Writer, one: &MatchRef<'_>) -> Result<(), AllocError>
    ensures { OnOk result (Adds out.old out.new (data_tokens (match_data (match_lent one.now)))) }
{
    out.begin_object()?;
    put_bound(out, &one.bindings)?;
    put_span(out, one.start, one.end)?;
    out.end_object()?;
    Ok(())
}

/// All matches.
#[tactic(auto, using(crate::proofs::ListingLemmas::row_there))]
fn put_matches(out: &mut Writer, matches: &Matches) -> Result<(), AllocError>
    ensures { OnOk result (Adds out.old out.new (data_tokens (array_of (map match_data matches.now)))) }
{
    out.begin_array()?;
    for place in 0..matches.len() {
        match matches.get(place) {
            Some(one) => put_match(out, &one)?,
            None => unreachable!(),
        }
    }
    out.end_array()
}

/// The new text, if there is one.
fn put_after(out: &mut Writer, after: Option<&Arc<Text>>) -> Result<(), AllocError>
    ensures { OnOk result (Adds out.old out.new (after_tokens (option_map (λ a. arc_value a.now) after.entry))) }
{
    if let Some(text) = after {
        put_string(out, "after", text.bytes())?;
    }
    Ok(())
}

/// What was found.
#[tactic(auto, unfolding(crate::specs::Tokens::found_tokens))]
fn put_found(out: &mut Writer, outcome: &Outcome) -> Result<(), AllocError>
    ensures { OnOk result (Adds out.old out.new (found_tokens (outcome_seen outcome.now))) }
{
    match outcome {
        Outcome::Matched {
            end,
            bindings,
            after,
            ..
        } => {
            put_after(out, after.as_ref())?;
            put_bound(out, &bindings.lend())?;
            put_count(out, "end", *end as u64)
        }
        Outcome::Failed { bindings } => put_bound(out, &bindings.lend()),
        Outcome::Repeated {
            bindings,
            after,
            ..
        } => {
            put_after(out, Some(after))?;
            put_bound(out, &bindings.lend())
        }
        Outcome::All { matches, after } => {
            put_after(out, after.as_ref())?;
            out.key("all")?;
            put_matches(out, matches)
        }
    }
}

/// Writes the object that the JSON listing has for an entry at this index, up to its index. [`put_tail`] writes what is left of it,
/// and a caller may write members of its own between the two. Refused only if memory runs out; some tokens may have been written
/// then.
#[tactic(auto, unfolding(crate::specs::Tokens::head_tokens))]
pub fn put_head(out: &mut Writer, index: usize, entry: &Entry) -> Result<(), AllocError>
    ensures { OnOk result (Adds out.old out.new (head_tokens index entry.now.outcome)) }
{
    out.begin_object()?;
    put_found(out, &entry.outcome)?;
    put_count(out, "entry", index as u64)
}

/// The name of a text, and its version.
#[tactic(auto, using(crate::proofs::JsonListingLemmas::text_name_ascii))]
fn put_name(out: &mut Writer, name: &TextName, version: u64) -> Result<(), AllocError>
    ensures { OnOk result (Adds out.old out.new (key (codes "text") ∷ Token.string name.now ∷ key (codes "version") ∷ Token.number (decimal version) ∷ [])) }
{
    put_string(out, "text", name.bytes())?;
    put_count(out, "version", version)?;
    Ok(())
}

/// The members that describe a statement, and the brace after them.
fn put_subject(
    out: &mut Writer,
    number: u32,
    name: &TextName,
    version: u64,
) -> Result<(), AllocError>
    ensures { OnOk result (Adds out.old out.new (subject_tokens number name.now version)) }
{
    put_count(out, "statement", u64::from(number))?;
    put_name(out, name, version)?;
    out.end_object()?;
    Ok(())
}

/// Whether the statement matched.
fn put_matched(out: &mut Writer, matched: bool) -> Result<(), AllocError>
    ensures { OnOk result (Adds out.old out.new (key (codes "matched") ∷ Token.boolean matched ∷ [])) }
{
    out.key("matched")?;
    out.boolean(matched)
}

/// Whether the statement matched: where the match began, or how many matches there were.
#[tactic(auto, unfolding(crate::specs::Tokens::result_tokens))]
fn put_result(out: &mut Writer, outcome: &Outcome) -> Result<(), AllocError>
    ensures { OnOk result (Adds out.old out.new (result_tokens (outcome_seen outcome.now))) }
{
    match outcome {
        Outcome::Matched { start, .. } => {
            put_matched(out, true)?;
            put_count(out, "start", *start as u64)
        }
        Outcome::Failed { .. } => put_matched(out, false),
        Outcome::Repeated { matches, .. } => {
            put_matched(out, true)?;
            put_count(out, "repeated", u64::from(*matches))?;
            Ok(())
        }
        Outcome::All { .. } => put_matched(out, true),
    }
}

/// Writes what is left of an entry's object after [`put_head`]. Refused only if memory runs out; some tokens may have been written
/// then.
pub fn put_tail(out: &mut Writer, entry: &Entry) -> Result<(), AllocError>
    ensures { OnOk result (Adds out.old out.new (tail_tokens entry.now entry.now.outcome)) }
{
    put_result(out, &entry.outcome)?;
    put_subject(
        out,
        entry.statement.number(),
        entry.statement.text(),
        entry.version,
    )?;
    Ok(())
}

/// Writes the object that the JSON listing has for an entry at this index. Refused only if memory runs out; some tokens may have been
/// written then.
#[tactic(auto, using(crate::proofs::TokenLemmas::entry_parts))]
pub fn put_entry(out: &mut Writer, index: usize, entry: &Entry) -> Result<(), AllocError>
    ensures { OnOk result (Adds out.old out.new (data_tokens (entry_data index entry.now))) }
{
    put_head(out, index, entry)?;
    put_tail(out, entry)?;
    Ok(())
}
