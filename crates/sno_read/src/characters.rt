//! Characters, runs of them, and how a text continues.
ghost use Rattle.std.specs.Prelude.{◌≡◌, ◌≢◌, ◌<◌, true, length, nat_eq, OnSome};
ghost use Rattle.std.specs.List.{prefix_len};
ghost use Rattle.std.specs.Char.{is_ascii_digit};
ghost use Rattle.sno_pattern.specs.Identifiers.{is_letter, is_name_char};
ghost use Rattle.sno_read.specs.declared.characters.Start.TheVariants.{Other};
ghost use Rattle.sno_read.specs.declared.characters.Following.TheVariants.{Nothing};
ghost use Rattle.sno_read.specs.Characters.{value_of, is_blank, is_quote, is_other, quote_of, skip, begins, number_from, start_of, sign_of, what_follows, goes_on};

use sno_pattern::{is_letter, is_name_char};

/// The largest number that a pattern can have.
pub const MAX_NUMBER: u32 = 65_536;

/// What kind of element begins at a place.
#[derive(Clone, Copy)]
pub enum Start {
    Quote,
    At,
    Star,
    Open,
    Letter,
    Other,
}

/// What follows an item.
#[derive(Clone, Copy)]
pub enum Following {
    Nothing,
    Dot,
    Dollar,
    Bar,
    Item,
}

/// A space or a tab.
pub fn is_blank(c: u8) -> bool
    ensures { result ≡ is_blank c }
{
    c == b' ' || c == b'\t'
}

fn is_quote(c: u8) -> bool
    ensures { result ≡ is_quote c }
{
    c == b'\'' || c == b'"'
}

/// How many blanks the text begins with.
pub fn count_blanks(text: &[u8]) -> usize
    ensures { result ≡ prefix_len is_blank text.now }
{
    text.iter().take_while(|c| is_blank(**c)).count()
}

/// How many characters of names the text begins with.
pub fn count_name_chars(text: &[u8]) -> usize
    ensures { result ≡ prefix_len is_name_char text.now }
{
    text.iter().take_while(|c| is_name_char(**c)).count()
}

/// How many digits the text begins with.
pub fn count_digits(text: &[u8]) -> usize
    ensures { result ≡ prefix_len is_ascii_digit text.now }
{
    text.iter().take_while(|c| c.is_ascii_digit()).count()
}

/// How many characters come before the first quote of this kind, or before the end.
pub fn count_quoted(text: &[u8], quote: u8) -> usize
    ensures { result ≡ prefix_len (is_other quote) text.now }
{
    text.iter().take_while(|c| **c != quote).count()
}

/// Whether the text begins with this character.
pub fn begins_with(text: &[u8], character: u8) -> bool
    ensures value { result ≡ begins (λ c. nat_eq c character) text.now }
    ensures some { result ≡ true → 0 < length text.now }
{
    matches!(text.first(), Some(c) if *c == character)
}

/// The quote that the text begins with, if there is one.
pub fn quote_of(text: &[u8]) -> Option<u8>
    ensures value { result ≡ quote_of text.now }
    ensures some { OnSome result (0 < length text.now) }
{
    text.first().copied().filter(|c| is_quote(*c))
}

/// Whether the text begins with a letter.
pub fn begins_letter(text: &[u8]) -> bool
    ensures { result ≡ begins is_letter text.now }
{
    matches!(text.first(), Some(c) if is_letter(*c))
}

fn begins_quote(text: &[u8]) -> bool
    ensures { result ≡ begins is_quote text.now }
{
    matches!(text.first(), Some(c) if is_quote(*c))
}

/// Whether the text begins with a blank.
pub fn begins_blank(text: &[u8]) -> bool
    ensures { result ≡ begins is_blank text.now }
{
    matches!(text.first(), Some(c) if is_blank(*c))
}

/// The value of the digits, if there is one and it is at most 65,536.
pub fn value_of(digits: &[u8]) -> Option<u32>
    ensures { result ≡ value_of digits.now }
{
    if digits.is_empty() {
        return None;
    }
    let mut value = 0;
    for digit in digits {
        value = value * 10 + u32::from(digit.saturating_sub(b'0'));
        if value > MAX_NUMBER {
            return None;
        }
    }
    Some(value)
}

/// What kind of element begins here.
#[tactic(auto, unfolding(crate::specs::Characters::start_of))]
pub fn start_of(text: &[u8]) -> Start
    ensures value { result ≡ start_of text.now }
    ensures some { result ≢ Other → 0 < length text.now }
{
    match text.first() {
        Some(c) if is_quote(*c) => Start::Quote,
        Some(b'@') => Start::At,
        Some(b'*') => Start::Star,
        Some(b'(') => Start::Open,
        Some(c) if is_letter(*c) => Start::Letter,
        _ => Start::Other,
    }
}

// What the first character after blanks says of what follows.
#[tactic(auto, unfolding(crate::specs::Characters::sign_of))]
fn sign_of(text: &[u8]) -> Following
    ensures value { result ≡ sign_of text.now }
    ensures some { result ≢ Nothing → 0 < length text.now }
{
    match text.first() {
        None | Some(b')') => Following::Nothing,
        Some(b'.') => Following::Dot,
        Some(b'$') => Following::Dollar,
        Some(b'|') => Following::Bar,
        Some(_) => Following::Item,
    }
}

/// What follows an item: anything needs blanks before it.
#[tactic(auto, using(crate::proofs::Runs::runs), unfolding(crate::specs::Characters::what_follows))]
pub fn what_follows(text: &[u8]) -> Following
    ensures value { result ≡ what_follows text.now }
    ensures some { result ≢ Nothing → 0 < length (skip text.now) }
{
    if begins_blank(text) {
        let (_blanks, rest) = text.split_at(count_blanks(text));
        sign_of(rest)
    } else {
        Following::Nothing
    }
}

/// Whether another literal of a set comes: it needs blanks before it.
#[tactic(auto, using(crate::proofs::Runs::runs), unfolding(crate::specs::Characters::goes_on))]
pub fn goes_on(text: &[u8]) -> bool
    ensures { result ≡ goes_on text.now }
{
    if !begins_blank(text) {
        return false;
    }
    let (_blanks, rest) = text.split_at(count_blanks(text));
    begins_quote(rest)
}
