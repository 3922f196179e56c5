//! The reserved words, which name primitives.
ghost use Rattle.std.specs.Prelude.{◌≡◌};
ghost use Rattle.std.specs.List.{find};
ghost use Rattle.std.specs.Option.{option_map};
ghost use Rattle.sno_pattern.specs.Identifiers.{same};
ghost use Rattle.sno_pattern.specs.Tree.{tree_of};
ghost use Rattle.sno_read.specs.Keywords.{keyword_of, word_tree, number_tree, set_tree};

use sno_pattern::{Class, Pattern};

/// A word that is a pattern on its own.
#[derive(Clone, Copy)]
pub enum Word {
    Arb,
    Bal,
    Rem,
    Fence,
    Abort,
    Fail,
}

/// A primitive whose argument is a number.
#[derive(Clone, Copy)]
pub enum NumberCall {
    Len,
    Pos,
    Rpos,
    Tab,
    Rtab,
}

/// A primitive whose argument is a set of characters.
#[derive(Clone, Copy)]
pub enum SetCall {
    AnyOf,
    NoneOf,
    Span,
    Break,
}

/// What a reserved word is.
#[derive(Clone, Copy)]
pub enum Keyword {
    Primitive(Word),
    Counted(NumberCall),
    Chosen(SetCall),
    Repeated,
}

impl Word {
    /// The pattern that the word is.
    pub fn pattern(self) -> Pattern
        ensures { tree_of result ≡ word_tree self }
    {
        match self {
            Word::Arb => Pattern::Arb,
            Word::Bal => Pattern::Bal,
            Word::Rem => Pattern::Rem,
            Word::Fence => Pattern::Fence,
            Word::Abort => Pattern::Abort,
            Word::Fail => Pattern::Fail,
        }
    }
}

impl NumberCall {
    /// The call with this number.
    pub fn pattern(self, number: u32) -> Pattern
        ensures { tree_of result ≡ number_tree self number }
    {
        match self {
            NumberCall::Len => Pattern::Len(number),
            NumberCall::Pos => Pattern::Pos(number),
            NumberCall::Rpos => Pattern::Rpos(number),
            NumberCall::Tab => Pattern::Tab(number),
            NumberCall::Rtab => Pattern::Rtab(number),
        }
    }
}

impl SetCall {
    /// The call with this set.
    pub fn pattern(self, members: Class) -> Pattern
        ensures { tree_of result ≡ set_tree self members }
    {
        match self {
            SetCall::AnyOf => Pattern::AnyOf(members),
            SetCall::NoneOf => Pattern::NoneOf(members),
            SetCall::Span => Pattern::Span(members),
            SetCall::Break => Pattern::Break(members),
        }
    }
}

// The reserved words, and what each is.
const KEYWORDS: [(&str, Keyword); 16] = [
    ("ARB", Keyword::Primitive(Word::Arb)),
    ("BAL", Keyword::Primitive(Word::Bal)),
    ("REM", Keyword::Primitive(Word::Rem)),
    ("FENCE", Keyword::Primitive(Word::Fence)),
    ("ABORT", Keyword::Primitive(Word::Abort)),
    ("FAIL", Keyword::Primitive(Word::Fail)),
    ("LEN", Keyword::Counted(NumberCall::Len)),
    ("POS", Keyword::Counted(NumberCall::Pos)),
    ("RPOS", Keyword::Counted(NumberCall::Rpos)),
    ("TAB", Keyword::Counted(NumberCall::Tab)),
    ("RTAB", Keyword::Counted(NumberCall::Rtab)),
    ("ANY", Keyword::Chosen(SetCall::AnyOf)),
    ("NOTANY", Keyword::Chosen(SetCall::NoneOf)),
    ("SPAN", Keyword::Chosen(SetCall::Span)),
    ("BREAK", Keyword::Chosen(SetCall::Break)),
    ("ARBNO", Keyword::Repeated),
];

/// What the word is, if it is reserved.
#[tactic(auto, unfolding(crate::specs::Keywords::keyword_of, crate::specs::Keywords::call_of))]
pub fn keyword_of(word: &[u8]) -> Option<Keyword>
    ensures { result ≡ keyword_of word.now }
{
    look_up(word, &KEYWORDS)
}

// The keyword of the word in the table, if there is one.
fn look_up(word: &[u8], table: &[(&str, Keyword)]) -> Option<Keyword>
    ensures { result ≡ option_map (λ e. e.1) (find (λ e. same word.now e.0.now) table.now) }
{
    table
        .iter()
        .find(|(other, _)| word == other.as_bytes())
        .map(|(_, keyword)| *keyword)
}
