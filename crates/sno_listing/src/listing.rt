//! The listing of a run.
ghost use Rattle.std.specs.Prelude.{◌≡◌, ◌++◌, ◌-◌, ◌<◌, ◌≤◌, [], ◌∷◌, map, length, take, OnOk, IfOk, IsTrue, Some, None, codes};
ghost use Rattle.std.specs.Option.{option_map};
ghost use Rattle.std.specs.Arc.{arc_value};
ghost use Rattle.std.specs.Char.{is_ascii};
ghost use Rattle.std.specs.List.{flat_map, list_all};
ghost use Rattle.std.specs.Fmt.{decimal};
ghost use Rattle.sno_statement.specs.BindingRefs.{datum_lent};
ghost use Rattle.sno_statement.specs.MatchLists.{match_lent};
ghost use Rattle.sno_statement.specs.Perform.{outcome_seen};
ghost use Rattle.sno_book.specs.Views.{state_of};
ghost use Rattle.sno_book.specs.Books.{view_of};
ghost use Rattle.sno_listing.specs.History.{history_of};
ghost use Rattle.sno_listing.specs.Listing.{hex_digit, is_plain, escaped_character, escaped_text, text_line, value_words, binding_line, indented, match_lines, after_line, done_lines, entry_label, entry_subject, entry_lines, entries_from, tries_words, reason_words, refused_line, count_line, listing};
ghost use Rattle.sno_listing.specs.declared.listing.TheConstants.{BASE};

use crate::{Reason, Refusal};
use itoa::Buffer;
use sno_book::{Book, Entry};
use sno_pattern::{Name, Text, TextName};
use sno_statement::{Bindings, BindingsRef, DatumRef, MatchRef, Matches, Outcome};
use std::alloc::{AllocError, Global};
use std::sync::Arc;

fn put(out: &mut Vec<u8>, bytes: &[u8]) -> Result<(), AllocError>
    ensures { OnOk result (out.new.items ≡ out.old.items ++ bytes.now) }
{
    out.extend_from_slice(bytes)
}

// One byte, without the call that copies several.
#[inline(always)]
fn put_byte(out: &mut Vec<u8>, byte: u8) -> Result<(), AllocError>
    ensures { OnOk result (out.new.items ≡ out.old.items ++ byte ∷ []) }
{
    out.push(byte)?;
    Ok(())
}

// From this number on a number has two digits.
const TWO_DIGITS: u64 = 10;

/// Most numbers have one digit.
#[tactic(auto, using(std::proofs::lemmas::Fmt::decimal_digit))]
fn put_number(out: &mut Vec<u8>, number: u64) -> Result<(), AllocError>
    ensures { OnOk result (out.new.items ≡ out.old.items ++ decimal number) }
{
    if number < TWO_DIGITS {
        return put_byte(out, number as u8 + b'0');
    }
    let mut digits = Buffer::new();
    put(out, digits.format(number).as_bytes())
}

// The base of hexadecimal digits.
const BASE: u8 = 16;

fn hex_digit(digit: u8) -> u8
    requires { digit < BASE }
    ensures { result ≡ hex_digit digit }
{
    if digit < 10 {
        digit + b'0'
    } else {
        digit + (b'a' - 10)
    }
}

fn is_plain(character: u8) -> bool
    ensures { result ≡ is_plain character }
{
    (32 <= character && character <= 126) && character != b'\\'
}

fn put_character(out: &mut Vec<u8>, character: u8) -> Result<(), AllocError>
    ensures { OnOk result (out.new.items ≡ out.old.items ++ escaped_character character) }
{
    if is_plain(character) {
        put(out, &[character])
    } else {
        put(out, b"\\x")?;
        put(out, &[hex_digit(character / 16), hex_digit(character % 16)])
    }
}

/// How many characters come before the first one that is not printed as itself.
fn plain_len(characters: &[u8]) -> usize
    ensures within { result ≤ length characters.now }
    ensures plain { IsTrue (list_all is_plain (take result characters.now)) }
{
    for (place, character) in characters.iter().enumerate() {
        if !is_plain(*character) {
            return place;
        }
    }
    characters.len()
}

/// Puts the first character, and returns those after it.
fn put_first<'c>(out: &mut Vec<u8>, characters: &'c [u8]) -> Result<&'c [u8], AllocError>
    ensures put { IfOk result (λ rest. out.new.items ++ escaped_text rest.now ≡ out.old.items ++ escaped_text characters.now) }
    ensures shorter { IfOk result (λ rest. length rest.now ≤ length characters.now - 1) }
{
    let Some((first, rest)) = characters.split_first() else {
        return Ok(characters);
    };
    put_character(out, *first)?;
    Ok(rest)
}

/// Puts the characters. Those that are printed as themselves are put a run at a time.
fn put_escaped(out: &mut Vec<u8>, characters: &[u8]) -> Result<(), AllocError>
    ensures { OnOk result (out.new.items ≡ out.old.items ++ escaped_text characters.now) }
{
    let mut rest = characters;
    while !rest.is_empty() {
        let (plain, more) = rest.split_at(plain_len(rest));
        put(out, plain)?;
        rest = put_first(out, more)?;
    }
    Ok(())
}

fn put_count(out: &mut Vec<u8>, word: &str, count: usize) -> Result<(), AllocError>
    ensures { OnOk result (out.new.items ≡ out.old.items ++ count_line word.now count) }
{
    put(out, word.as_bytes())?;
    put_number(out, count as u64)?;
    put_byte(out, b'\n')
}

#[tactic(auto, unfolding(crate::specs::Listing::text_line))]
fn put_text(
    out: &mut Vec<u8>,
    name: &TextName,
    text: &Arc<Text>,
    version: u64,
) -> Result<(), AllocError>
    ensures { OnOk result (out.new.items ≡ out.old.items ++ text_line (record { name = name.now; text = arc_value text.now; version = version })) }
{
    put_escaped(out, name.bytes())?;
    put_byte(out, b' ')?;
    put_number(out, version)?;
    put(out, b" |")?;
    put_escaped(out, text.bytes())?;
    put(out, b"|\n")
}

fn put_value(out: &mut Vec<u8>, value: &DatumRef<'_>) -> Result<(), AllocError>
    ensures { OnOk result (out.new.items ≡ out.old.items ++ value_words (datum_lent value.now)) }
{
    match value {
        DatumRef::Str(text) => {
            put_byte(out, b'|')?;
            put_escaped(out, text.bytes())?;
            put_byte(out, b'|')
        }
        DatumRef::Int(number) => put_number(out, u64::from(*number)),
    }
}

#[tactic(auto, unfolding(crate::specs::Listing::binding_line))]
fn put_binding(out: &mut Vec<u8>, name: &Name, value: &DatumRef<'_>) -> Result<(), AllocError>
    ensures { OnOk result (out.new.items ≡ out.old.items ++ binding_line (name.now, datum_lent value.now)) }
{
    put(out, b"  ")?;
    put(out, name.bytes())?;
    put(out, b" = ")?;
    put_value(out, value)?;
    put_byte(out, b'\n')
}

/// A binding's line after these blanks.
fn put_indented(
    out: &mut Vec<u8>,
    blanks: &str,
    name: &Name,
    value: &DatumRef<'_>,
) -> Result<(), AllocError>
    ensures { OnOk result (out.new.items ≡ out.old.items ++ indented blanks.now (name.now, datum_lent value.now)) }
{
    put(out, blanks.as_bytes())?;
    put_binding(out, name, value)
}

fn put_after(out: &mut Vec<u8>, after: Option<&Arc<Text>>) -> Result<(), AllocError>
    ensures { OnOk result (out.new.items ≡ out.old.items ++ after_line (option_map (λ a. arc_value a.now) after.entry)) }
{
    if let Some(text) = after {
        put(out, b"  -> |")?;
        put_escaped(out, text.bytes())?;
        put_byte(out, b'|')?;
        put_byte(out, b'\n')?;
    }
    Ok(())
}

#[tactic(auto, unfolding(crate::specs::Listing::refused_line))]
fn put_refusal(out: &mut Vec<u8>, refusal: &Refusal) -> Result<(), AllocError>
    ensures { OnOk result (out.new.items ≡ out.old.items ++ refused_line refusal.now) }
{
    put(out, b"statement ")?;
    put_number(out, u64::from(refusal.number))?;
    put_byte(out, b' ')?;
    put_reason(out, refusal.reason)?;
    put_byte(out, b'\n')
}

#[tactic(auto, using(crate::proofs::ListingLemmas::tries_ascii), unfolding(crate::specs::Listing::tries_words))]
fn put_tries(out: &mut Vec<u8>, seen: u64, now: u64) -> Result<(), AllocError>
    ensures words { OnOk result (out.new.items ≡ out.old.items ++ tries_words seen now) }
    ensures ascii { IsTrue (list_all is_ascii (tries_words seen now)) }
{
    put(out, b"tries spent ")?;
    put_number(out, seen)?;
    put_byte(out, b' ')?;
    put_number(out, now)
}

/// The words of a reason, which are ASCII.
pub(crate) fn put_reason(out: &mut Vec<u8>, reason: Reason) -> Result<(), AllocError>
    ensures words { OnOk result (out.new.items ≡ out.old.items ++ reason_words reason) }
    ensures ascii { IsTrue (list_all is_ascii (reason_words reason)) }
{
    match reason {
        Reason::NoText => put(out, b"no text"),
        Reason::TextTooLong => put(out, b"text too long"),
        Reason::TriesSpent { seen, now } => put_tries(out, seen, now),
        Reason::TooManyTrials => put(out, b"too many trials"),
        Reason::Full => put(out, b"full"),
    }
}

#[tactic(auto, using(crate::proofs::ListingLemmas::row_there))]
fn put_each_indented(
    out: &mut Vec<u8>,
    blanks: &str,
    bindings: &BindingsRef<'_>,
) -> Result<(), AllocError>
    ensures { OnOk result (out.new.items ≡ out.old.items ++ flat_map (indented blanks.now) bindings.now) }
{
    for place in 0..bindings.len() {
        match bindings.get(place) {
            Some((name, value)) => put_indented(out, blanks, name, &value)?,
            None => unreachable!(),
        }
    }
    Ok(())
}

fn put_bindings(out: &mut Vec<u8>, bindings: &Bindings) -> Result<(), AllocError>
    ensures { OnOk result (out.new.items ≡ out.old.items ++ flat_map binding_line bindings.now) }
{
    put_each_indented(out, "", &bindings.lend())
}

#[tactic(auto, unfolding(crate::specs::Listing::match_lines))]
fn put_one_match(out: &mut Vec<u8>, one: &MatchRef<'_>) -> Result<(), AllocError>
    ensures { OnOk result (out.new.items ≡ out.old.items ++ match_lines (match_lent one.now)) }
{
    put(out, b"  at ")?;
    put_number(out, one.start as u64)?;
    put_byte(out, b' ')?;
    put_number(out, one.end as u64)?;
    put_byte(out, b'\n')?;
    put_each_indented(out, "  ", &one.bindings)
}

#[tactic(auto, using(crate::proofs::ListingLemmas::row_there))]
fn put_each_match(out: &mut Vec<u8>, matches: &Matches) -> Result<(), AllocError>
    ensures { OnOk result (out.new.items ≡ out.old.items ++ flat_map match_lines matches.now) }
{
    for place in 0..matches.len() {
        match matches.get(place) {
            Some(one) => put_one_match(out, &one)?,
            None => unreachable!(),
        }
    }
    Ok(())
}

#[tactic(auto, unfolding(crate::specs::Listing::done_lines))]
fn put_match(out: &mut Vec<u8>, start: usize, end: usize) -> Result<(), AllocError>
    ensures { OnOk result (out.new.items ≡ out.old.items ++ (codes " matched " ++ (decimal start ++ (32 ∷ [] ++ (decimal end ++ (10 ∷ [])))))) }
{
    put(out, b" matched ")?;
    put_number(out, start as u64)?;
    put_byte(out, b' ')?;
    put_number(out, end as u64)?;
    put_byte(out, b'\n')
}

#[tactic(auto, unfolding(crate::specs::Listing::done_lines))]
fn put_matches(out: &mut Vec<u8>, matches: u32) -> Result<(), AllocError>
    ensures { OnOk result (out.new.items ≡ out.old.items ++ (codes " repeated " ++ (decimal matches ++ (10 ∷ [])))) }
{
    put(out, b" repeated ")?;
    put_number(out, u64::from(matches))?;
    put_byte(out, b'\n')
}

/// How many matches there are, and the lines of each.
fn put_all(out: &mut Vec<u8>, matches: &Matches) -> Result<(), AllocError>
    ensures { OnOk result (out.new.items ≡ out.old.items ++ (codes " all " ++ (decimal (length matches.now) ++ (10 ∷ [] ++ flat_map match_lines matches.now)))) }
{
    put(out, b" all ")?;
    put_number(out, matches.len() as u64)?;
    put_byte(out, b'\n')?;
    put_each_match(out, matches)
}

#[tactic(auto, unfolding(crate::specs::Listing::done_lines))]
fn put_done(out: &mut Vec<u8>, outcome: &Outcome) -> Result<(), AllocError>
    ensures { OnOk result (out.new.items ≡ out.old.items ++ done_lines (outcome_seen outcome.now)) }
{
    match outcome {
        Outcome::Matched {
            start,
            end,
            bindings,
            after,
        } => {
            put_match(out, *start, *end)?;
            put_bindings(out, bindings)?;
            put_after(out, after.as_ref())
        }
        Outcome::Failed { bindings } => {
            put(out, b" failed\n")?;
            put_bindings(out, bindings)
        }
        Outcome::Repeated {
            matches,
            bindings,
            after,
        } => {
            put_matches(out, *matches)?;
            put_bindings(out, bindings)?;
            put_after(out, Some(after))
        }
        Outcome::All { matches, after } => {
            put_all(out, matches)?;
            put_after(out, after.as_ref())
        }
    }
}

#[tactic(auto, unfolding(crate::specs::Listing::entry_label))]
fn put_label(out: &mut Vec<u8>, index: usize, number: u32) -> Result<(), AllocError>
    ensures { OnOk result (out.new.items ≡ out.old.items ++ entry_label index number) }
{
    put_number(out, index as u64)?;
    put(out, b" statement ")?;
    put_number(out, u64::from(number))
}

#[tactic(auto, unfolding(crate::specs::Listing::entry_subject))]
fn put_subject(out: &mut Vec<u8>, name: &[u8], version: u64) -> Result<(), AllocError>
    ensures { OnOk result (out.new.items ≡ out.old.items ++ entry_subject name.now version) }
{
    put_byte(out, b' ')?;
    put_escaped(out, name)?;
    put_byte(out, b' ')?;
    put_number(out, version)
}

fn put_entry(out: &mut Vec<u8>, index: usize, entry: &Entry) -> Result<(), AllocError>
    ensures { OnOk result (out.new.items ≡ out.old.items ++ entry_lines index entry.now) }
{
    put_label(out, index, entry.statement.number())?;
    put_subject(out, entry.statement.text().bytes(), entry.version)?;
    put_done(out, &entry.outcome)
}

fn put_entries(out: &mut Vec<u8>, journal: &[Entry]) -> Result<(), AllocError>
    ensures { OnOk result (out.new.items ≡ out.old.items ++ entries_from 0 journal.now) }
{
    for (index, entry) in journal.iter().enumerate() {
        put_entry(out, index, entry)?;
    }
    Ok(())
}

fn put_refusals(out: &mut Vec<u8>, refused: &[Refusal]) -> Result<(), AllocError>
    ensures { OnOk result (out.new.items ≡ out.old.items ++ flat_map refused_line refused.now) }
{
    for refusal in refused {
        put_refusal(out, refusal)?;
    }
    Ok(())
}

#[tactic(auto, using(crate::proofs::ListingLemmas::row_there))]
fn put_texts(out: &mut Vec<u8>, book: &Book) -> Result<(), AllocError>
    ensures { OnOk result (out.new.items ≡ out.old.items ++ flat_map text_line (state_of (view_of book.now))) }
{
    for place in 0..book.len() {
        match book.text(place) {
            Some((name, text, version)) => put_text(out, name, text, version)?,
            None => unreachable!(),
        }
    }
    Ok(())
}

// How many bytes are made room for at first for each entry. Most take about as many.
const ENTRY_ROOM: usize = 64;

fn room_for(journal: &[Entry]) -> usize {
    journal.len().saturating_mul(ENTRY_ROOM)
}

/// The listing of the final texts, of the journal and of the refused statements.
#[tactic(auto, unfolding(crate::specs::Listing::listing))]
pub(crate) fn listing(
    alloc: Global,
    book: &Book,
    refused: &[Refusal],
) -> Result<Vec<u8>, AllocError>
    ensures { IfOk result (λ v. v.items ≡ listing (history_of (view_of book.now) refused.now)) }
{
    let mut out = Vec::with_capacity(alloc, room_for(book.journal()))?;
    put_count(&mut out, "texts ", book.len())?;
    put_texts(&mut out, book)?;
    put_count(&mut out, "entries ", book.journal().len())?;
    put_entries(&mut out, book.journal())?;
    put_count(&mut out, "refused ", refused.len())?;
    put_refusals(&mut out, refused)?;
    Ok(out)
}
