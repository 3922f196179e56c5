//! Names of variables and definitions.
ghost use Rattle.std.specs.Prelude.{◌≡◌, ◌-◌, ◌≤◌, ◌++◌, length, replicate, nat_eq, IsTrue};
ghost use Rattle.std.specs.Cmp.{partial_equiv_from_equiv};
ghost use Rattle.std.specs.Cmp.Lexicographic.{pointwise, nat_list_eq_equiv};
ghost use Rattle.std.specs.List.{list_all, list_any};
ghost use Rattle.std.specs.Cmp.Rules.{hashing};
ghost use Rattle.std.specs.Hash as fed;
ghost use Rattle.std.proofs.Common.{rules};
ghost use Rattle.sno_pattern.specs.Identifiers.{is_letter, is_name_char, is_name, name_of, is_reserved, same};

use std::fmt;
use std::hash::{Hash, Hasher};
use std::marker::Model;

/// The most characters that a name has.
pub const MAX_NAME: usize = 64;

/// The name of a variable or of a definition: a letter, then letters, digits, periods and underscores,
/// at most 64 characters in all.
#[derive(Clone, Copy)]
pub struct Name {
    letters: [u8; MAX_NAME],
    len: u8,
}

impl Model for Name {
    ghost use Rattle.std.specs.Prelude.{◌≡◌, ◌-◌, ◌≤◌, ◌++◌, ℕ, List, length, take, replicate, IsTrue};
    ghost use Rattle.sno_pattern.specs.Identifiers.{is_name};
    ghost use Rattle.sno_pattern.specs.Padding.{length-front, front-padding};
    ghost use Rattle.sno_pattern.specs.declared.identifiers.TheConstants.{MAX_NAME};

    ghost Value = { List ℕ };

    ghost view = { λ s. take s.len s.letters };

    ghost invariant = { λ s. (s.len ≤ MAX_NAME) × (length s.letters ≡ MAX_NAME)
        × (s.letters ≡ take s.len s.letters ++ replicate (MAX_NAME - s.len) 0)
        × IsTrue (is_name (take s.len s.letters)) };

    ghost inverse = { λ name. record { letters = name ++ replicate (MAX_NAME - length name) 0; len = length name } };

    ghost inverse_ok = { λ s h i. record {
      letters = front-padding s.letters s.len h.0 h.1 h.2 i;
      len = length-front s.letters s.len h.0 h.1 i;
    } };
}

impl Name {
    /// The name that the bytes spell: a letter, then letters, digits, `.` and `_`, 1 to 64 characters; `None` for other bytes.
    pub fn read(bytes: &[u8]) -> Option<Name>
        ensures { result ≡ name_of bytes.now }
    {
        if !is_name(bytes) {
            return None;
        }
        let letters = pad(bytes);
        let len = bytes.len() as u8;
        Some(Name { letters, len })
    }

    /// The characters of the name, 1 to 64 of them.
    #[inline(always)]
    pub fn bytes(&self) -> &[u8]
        ensures value { result.now ≡ self.now }
        ensures name { IsTrue (is_name self.now) }
    {
        &self.letters[..self.len as usize]
    }

    /// Whether the name is one of the sixteen reserved words, the names of primitives: `ARB`, `BAL`, `REM`, `FENCE`, `ABORT`,
    /// `FAIL`, `LEN`, `POS`, `RPOS`, `TAB`, `RTAB`, `ANY`, `NOTANY`, `SPAN`, `BREAK` and `ARBNO`.
    pub fn is_reserved(&self) -> bool
        ensures { result ≡ is_reserved self.now }
    {
        is_reserved_word(self.bytes())
    }
}

// The characters, with zeros after them.
fn pad(characters: &[u8]) -> [u8; MAX_NAME]
    requires { length characters.now ≤ MAX_NAME }
    ensures { result ≡ characters.now ++ replicate (MAX_NAME - length characters.now) 0 }
{
    let mut letters = [0; MAX_NAME];
    letters[..characters.len()].copy_from_slice(characters);
    letters
}

/// Whether a character is a letter.
#[tactic(auto, unfolding(crate::specs::Identifiers::is_letter))]
pub fn is_letter(c: u8) -> bool
    ensures { result ≡ is_letter c }
{
    c.is_ascii_alphabetic()
}

/// Whether a character may follow the first letter of a name: a letter, a digit, a period or an underscore.
#[tactic(auto, unfolding(crate::specs::Identifiers::is_name_char))]
pub fn is_name_char(c: u8) -> bool
    ensures { result ≡ is_name_char c }
{
    c.is_ascii_alphanumeric() || c == b'.' || c == b'_'
}

fn are_name_chars(rest: &[u8]) -> bool
    ensures { result ≡ list_all is_name_char rest.now }
{
    rest.iter().all(|c| is_name_char(*c))
}

fn is_name(bytes: &[u8]) -> bool
    ensures { result ≡ is_name bytes.now }
{
    match bytes.split_first() {
        None => false,
        Some((first, rest)) => is_letter(*first) && (are_name_chars(rest) && rest.len() < MAX_NAME),
    }
}

// The reserved words, which name primitives.
const RESERVED_WORDS: [&str; 16] = [
    "ARB", "BAL", "REM", "FENCE", "ABORT", "FAIL", "LEN", "POS", "RPOS", "TAB", "RTAB", "ANY",
    "NOTANY", "SPAN", "BREAK", "ARBNO",
];

#[tactic(auto, unfolding(crate::specs::Identifiers::is_reserved))]
fn is_reserved_word(word: &[u8]) -> bool
    ensures { result ≡ is_reserved word.now }
{
    is_among(word, &RESERVED_WORDS)
}

fn is_among(word: &[u8], words: &[&str]) -> bool
    ensures { result ≡ list_any (λ w. same word.now w.now) words.now }
{
    words.iter().any(|other| word == other.as_bytes())
}

impl PartialEq for Name {
    ghost eq = { λ s t. pointwise nat_eq s t };

    ghost laws = { partial_equiv_from_equiv nat_list_eq_equiv };

    fn eq(&self, other: &Name) -> bool {
        self.bytes() == other.bytes()
    }
}

impl Eq for Name {
    ghost laws = { nat_list_eq_equiv };
}

impl Hash for Name {
    ghost hash_input = { λ s. fed.slice fed.u8 s };

    ghost respects_eq = { Prim.search (hashing, rules) };

    fn hash<H: Hasher>(&self, state: &mut H) {
        self.bytes().hash(state);
    }
}

impl fmt::Debug for Name {
    fn fmt<W: fmt::Write>(&self, f: &mut fmt::Formatter<W>) -> fmt::Result {
        fmt::Display::fmt(self, f)
    }
}

impl fmt::Display for Name {
    ghost use Rattle.std.specs.Prelude.{Some};

    ghost output = { λ name. Some name };

    // A name is ASCII, so it can always be read.
    fn fmt<W: fmt::Write>(&self, f: &mut fmt::Formatter<W>) -> fmt::Result {
        match str::from_utf8(self.bytes()) {
            Ok(letters) => f.write_str(letters),
            Err(_) => Err(fmt::Error),
        }
    }
}
