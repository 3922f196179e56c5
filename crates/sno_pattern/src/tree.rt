//! The tree of a pattern.
use crate::{ByteText, Class, Name, Text};

/// A pattern.
///
/// `specs/Results.antt` says what each one matches from a cursor; docs/LANGUAGE.md has an example of each.
#[derive(Debug, PartialEq, Eq, Drop)]
pub enum Pattern {
    /// These characters; if there are none, the null string.
    Lit(Text),
    /// These bytes. Only rules for files have such literals, for characters that aren't ASCII; `Lit` with other characters, in all
    /// else.
    Bytes(ByteText),
    /// `LEN(n)`: n characters.
    Len(u32),
    /// `POS(n)`: the null string, if the cursor is n.
    Pos(u32),
    /// `RPOS(n)`: the null string, if n characters are left.
    Rpos(u32),
    /// `TAB(n)`: up to cursor n.
    Tab(u32),
    /// `RTAB(n)`: up to the cursor with n characters left.
    Rtab(u32),
    /// `ANY(s)`: one character of the set.
    AnyOf(Class),
    /// `NOTANY(s)`: one character that is not in the set.
    NoneOf(Class),
    /// `SPAN(s)`: the longest run of characters of the set, at least one.
    Span(Class),
    /// `BREAK(s)`: up to the first character of the set.
    Break(Class),
    /// `ARB`: any string, the shortest first.
    Arb,
    /// `ARBNO(P)`: any number of times P, as few as will do.
    Arbno(Box<Pattern>),
    /// `BAL`: a string that is not null and balanced in parentheses, the shortest first.
    Bal,
    /// `REM`: all that is left.
    Rem,
    /// `FENCE`: the null string; backing into it fails the whole match.
    Fence,
    /// `ABORT`: fails the whole match.
    Abort,
    /// `FAIL`: no string.
    Fail,
    /// `@V`: the null string; assigns the cursor to V at once.
    At(Name),
    /// `*N` or `N`: what the definition with this number, from 0, matches.
    Ref(usize),
    /// `P Q`: P and then Q.
    Seq(Box<Pattern>, Box<Pattern>),
    /// `P | Q`: what P matches, then what Q matches.
    Alt(Box<Pattern>, Box<Pattern>),
    /// `P . V`: what P matches, assigned to V if the whole match succeeds.
    Cond(Box<Pattern>, Name),
    /// `P $ V`: what P matches, assigned to V at once.
    Imm(Box<Pattern>, Name),
}
