//! What is spelled in place of what a hand writes.
ghost use Rattle.std.specs.Prelude.{◌≡◌, ◌≤◌, ◌<◌, ◌+◌, true, length, None, IfOk, IfSome, OnOk};
ghost use Rattle.std.specs.Option.{option_map};
ghost use Rattle.std.specs.List.{prefix_len};
ghost use Rattle.sno_rules.specs.Gives.{GivesCall, GivesSpelled, GivesStep, IsSet};
ghost use Rattle.sno_rules.specs.Spelling.{after_piece, call_of, is_opened, is_other, nothing_spelled, origin_from, piece_len, piece_of, quotation_len, spelling_seen, with_part, with_piece};

use crate::SpellingFault;
use crate::arguments::{count_name, joined};
use crate::calls::{SetWord, literal, quoted, set_word};
use crate::names::{SetName, literal_of};
use crate::pieces::{before_quote, is_quote};
use sno_pattern::is_letter;
use std::alloc::{AllocError, Global};

/// From where characters come that are spelled.
#[derive(Clone, Copy, Debug, PartialEq, Eq)]
pub struct Mark {
    /// How many characters are spelled before them.
    pub before: usize,
    /// How many characters come before what is written for them.
    pub place: usize,
    /// Whether they are a copy of what is written.
    pub copied: bool,
}

/// What is spelled in place of what a hand writes.
#[derive(Drop)]
pub struct Spelling {
    characters: Vec<u8>,
    marks: Vec<Mark>,
}

impl Spelling {
    /// Nothing yet, with the room that most texts of this length need.
    fn nothing(alloc: Global, length: usize) -> Result<Spelling, AllocError>
        ensures { IfOk result (λ s. spelling_seen s ≡ nothing_spelled) }
    {
        Ok(Spelling {
            characters: Vec::with_capacity(alloc, length)?,
            marks: Vec::with_capacity(alloc, length / 4)?,
        })
    }

    /// The characters.
    pub fn characters(&self) -> &[u8]
        ensures { result.now ≡ (spelling_seen self.now).characters }
    {
        &self.characters
    }

    /// From where the character comes that has this many before it: the last mark that is not past it. `None` if nothing is
    /// spelled.
    pub fn origin(&self, at: usize) -> Option<Mark>
        ensures { result ≡ origin_from None (spelling_seen self.now).marks at }
    {
        let mut found = None;
        for mark in &self.marks {
            if mark.before <= at {
                found = Some(*mark);
            }
        }
        found
    }

    /// Adds characters that come from this place.
    fn put(&mut self, place: usize, copied: bool, text: &[u8]) -> Result<(), AllocError>
        ensures { OnOk result (spelling_seen self.new ≡ with_part (spelling_seen self.old) place copied text.now) }
    {
        let before = self.characters.len();
        self.marks.push(Mark {
            before,
            place,
            copied,
        })?;
        self.characters.extend_from_slice(text)?;
        Ok(())
    }
}

/// Whether a character is neither a quote nor a letter.
fn is_other(character: u8) -> bool
    ensures { result ≡ is_other character }
{
    !(is_quote(character) || is_letter(character))
}

/// How many characters the text begins with that are neither quotes nor letters.
fn count_others(text: &[u8]) -> usize
    ensures count { result ≡ prefix_len is_other text.now }
    ensures within { result ≤ length text.now }
{
    text.iter().take_while(|c| is_other(**c)).count()
}

/// How long a quotation is. `inside` comes after its first quote.
fn quotation_len(quote: u8, inside: &[u8]) -> usize
    requires { length inside.now < usize.MAX }
    ensures exact { result ≡ quotation_len quote inside.now }
    ensures within { result ≤ length inside.now + 1 }
    ensures some { 0 < result }
{
    let count = before_quote(inside, quote);
    if count < inside.len() {
        count + 2
    } else {
        inside.len() + 1
    }
}

/// How long the first piece of a text is: a quotation, a name, or a run of other characters.
fn piece_len(text: &[u8]) -> usize
    ensures exact { result ≡ piece_len text.now }
    ensures within { result ≤ length text.now }
    ensures some { 0 < length text.now → 0 < result }
{
    let Some((first, after)) = text.split_first() else {
        return 0;
    };
    if is_quote(*first) {
        quotation_len(*first, after)
    } else if is_letter(*first) {
        count_name(after) + 1
    } else {
        count_others(after) + 1
    }
}

/// The first piece of a text, which is a quotation, a name or a run of other characters, and what comes after it. An empty text
/// has an empty one.
pub fn first_piece(text: &[u8]) -> (&[u8], &[u8])
    ensures piece { result.0.now ≡ piece_of text.now }
    ensures after { result.1.now ≡ after_piece text.now }
{
    text.split_at(piece_len(text))
}

/// Whether the text begins with an opening parenthesis.
fn is_opened(text: &[u8]) -> bool
    ensures value { result ≡ is_opened text.now }
    ensures some { result ≡ true → 0 < length text.now }
{
    match text.first() {
        None => false,
        Some(first) => *first == b'(',
    }
}

/// The word of a call that takes a set, if this piece is one and a parenthesis opens after it.
fn call_of(piece: &[u8], after: &[u8]) -> Option<SetWord>
    ensures value { result ≡ call_of piece.now after.now }
    ensures some { IfSome result (λ _. 0 < length after.now) }
{
    if is_opened(after) {
        set_word(piece)
    } else {
        None
    }
}

/// The word of a call, with how many characters come before it.
#[derive(Clone, Copy)]
struct PlacedWord {
    word: SetWord,
    place: usize,
}

/// Spells a call of this word. `after` is what comes after the word.
fn put_call<'t>(
    alloc: Global,
    names: &[SetName<'t>],
    total: usize,
    spelling: &mut Spelling,
    call: PlacedWord,
    after: &'t [u8],
) -> Result<&'t [u8], SpellingFault>
    requires some { 0 < length after.now }
    requires within { length after.now ≤ total }
    ensures step { GivesCall names.now total (spelling_seen spelling.old) (spelling_seen spelling.new) call.place call.word after.now result }
    ensures shorter { IfOk result (λ rest. length rest.now < length after.now) }
{
    let PlacedWord { word, place } = call;
    let (_, inside) = after.split_at(1);
    let (members, rest) = joined(alloc, names, total, inside)?;
    let Some((_, rest)) = rest.split_first() else {
        return Err(SpellingFault::OpenArgument(place));
    };
    let set = quoted(alloc, &members)?;
    let text = word.from_set(alloc, &set)?;
    spelling.put(place, word.is_copied(), word.begin())?;
    spelling.put(total - inside.len(), false, &text)?;
    Ok(rest)
}

/// Spells a piece: as it is, or the literal that it means.
fn put_piece(
    alloc: Global,
    spelling: &mut Spelling,
    place: usize,
    piece: &[u8],
    meant: Option<&[u8]>,
) -> Result<(), AllocError>
    ensures { OnOk result (spelling_seen spelling.new ≡ with_piece (spelling_seen spelling.old) place piece.now (option_map (λ s. s.now) meant.entry)) }
{
    match meant {
        None => spelling.put(place, true, piece),
        Some(characters) => {
            let text = literal(alloc, characters)?;
            spelling.put(place, false, &text)
        }
    }
}

/// Spells the first piece of a text, or the call that it begins with, and returns what is left of the text.
fn step<'t>(
    alloc: Global,
    names: &[SetName<'t>],
    total: usize,
    spelling: &mut Spelling,
    text: &'t [u8],
) -> Result<&'t [u8], SpellingFault>
    requires some { 0 < length text.now }
    requires within { length text.now ≤ total }
    ensures step { GivesStep names.now total (spelling_seen spelling.old) (spelling_seen spelling.new) text.now result }
    ensures shorter { IfOk result (λ rest. length rest.now < length text.now) }
{
    let place = total - text.len();
    let (piece, after) = text.split_at(piece_len(text));
    if let Some(word) = call_of(piece, after) {
        let call = PlacedWord { word, place };
        let rest = put_call(alloc, names, total, spelling, call, after)?;
        return Ok(rest);
    }
    put_piece(alloc, spelling, place, piece, literal_of(names, piece))?;
    Ok(after)
}

/// What is spelled in place of a pattern or an object that a hand has written with these names of sets. `sno_read` reads it.
///
/// - The argument of `ANY`, `NOTANY`, `SPAN` and `BREAK` may join quotations and names of sets. It is spelled as one
///   quotation, or as two if it has both kinds of quotes.
/// - `BREAKX(S)` is spelled `(BREAK(S) ARBNO(LEN(1) BREAK(S)))`, and `NSPAN(S)` is spelled `(SPAN(S) | '')`.
/// - `NL`, `CR` and `HT` are spelled as a literal of a line feed, a carriage return or a tab, unless rules define them.
/// - All else is spelled as it is written.
///
/// Sets that every rule may use are `LETTER`, `UPPER`, `LOWER`, `DIGIT`, `HEX`, `BLANK`, `WORD`, `NL`, `CR` and `HT`. A name that
/// rules define comes before them.
///
/// Refused, from left to right, each with its place, with
///
/// - `NotAscii` for a quotation in a set that has another character, with that character's place; `OpenQuote`; `UnknownSet` for
///   another name; `NoSet` for what is neither;
/// - `OpenArgument` for a set without its closing parenthesis, with the place of its word;
/// - `Memory`.
pub fn spelled<'n>(
    alloc: Global,
    names: &[SetName<'n>],
    written: &'n [u8],
) -> Result<Spelling, SpellingFault>
    ensures { GivesSpelled names.now written.now result }
{
    let mut spelling = Spelling::nothing(alloc, written.len())?;
    let mut rest = written;
    while !rest.is_empty() {
        match step(alloc, names, written.len(), &mut spelling, rest) {
            Err(fault) => return Err(fault),
            Ok(after) => rest = after,
        }
    }
    Ok(spelling)
}

/// The characters of the set that a definition is; `None` if it is another pattern. A set is spelled by quotations and
/// by names of sets, joined by blanks.
///
/// Refused only if memory runs out.
pub fn set_of<'n>(
    alloc: Global,
    names: &[SetName<'n>],
    written: &'n [u8],
) -> Result<Option<Vec<u8>>, AllocError>
    ensures { IfOk result (λ set. IsSet names.now written.now (option_map (λ v. v.items) set)) }
{
    match joined(alloc, names, written.len(), written) {
        Ok((members, rest)) if rest.is_empty() => Ok(Some(members)),
        Ok(_) => Ok(None),
        Err(SpellingFault::Memory) => Err(AllocError),
        Err(_) => Ok(None),
    }
}
