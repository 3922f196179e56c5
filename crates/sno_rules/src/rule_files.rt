//! Files of rules.
ghost use Rattle.std.specs.Prelude.{◌≡◌, ◌≤◌, ◌<◌, ◌+◌, ◌++◌, ◌∷◌, [], length, map, nat_eq, Ok};
ghost use Rattle.std.specs.List.{prefix_len, suffix_len};
ghost use Rattle.sno_rules.specs.Lines.{is_blank};
ghost use Rattle.sno_rules.specs.RuleFileGives.{GivesLines, GivesMore};
ghost use Rattle.sno_rules.specs.RuleFiles.{after_line, bare, is_in_line, is_return, line_of, line_seen, meaning_of, with_line, with_more};

use crate::RuleFileFault;
use crate::pieces::{blanks_before, is_blank};
use sno_pattern::is_letter;
use std::alloc::Global;

/// What a line of a file of rules is.
#[derive(Clone, Copy, Debug, PartialEq, Eq)]
pub enum LineKind {
    /// A definition: the line begins with a letter.
    Definition,
    /// A rule: the line begins with a blank.
    Rule,
}

/// A rule or a definition of a file of rules.
#[derive(Drop)]
pub struct FileLine {
    /// The number of the line on which it begins, from 1.
    pub number: usize,
    /// Which of the two it is.
    pub kind: LineKind,
    /// Its characters: those of its line, and those after the `+` of each line that goes on with it.
    pub characters: Vec<u8>,
}

/// What a line says by its first character.
#[derive(Clone, Copy, Debug, PartialEq, Eq)]
enum Meaning {
    Nothing,
    More,
    Rule,
    Definition,
    Unknown,
}

/// How many characters come before the first line feed.
fn line_len(text: &[u8]) -> usize
    ensures count { result ≡ prefix_len is_in_line text.now }
    ensures within { result ≤ length text.now }
{
    text.iter().take_while(|c| **c != b'\n').count()
}

/// How many carriage returns the text ends with.
fn returns_after(text: &[u8]) -> usize
    ensures count { result ≡ suffix_len is_return text.now }
    ensures within { result ≤ length text.now }
{
    text.iter().rev().take_while(|c| **c == b'\r').count()
}

/// A line without the carriage returns at its end.
fn bare(line: &[u8]) -> &[u8]
    ensures { result.now ≡ bare line.now }
{
    line.split_at(line.len() - returns_after(line)).0
}

/// The first line of a text, and what comes after its line feed.
fn first_line(text: &[u8]) -> (&[u8], &[u8])
    ensures line { result.0.now ≡ line_of text.now }
    ensures after { result.1.now ≡ after_line text.now }
    ensures shorter { 0 < length text.now → length result.1.now < length text.now }
{
    let (line, rest) = text.split_at(line_len(text));
    match rest.split_first() {
        None => (bare(line), rest),
        Some((_, after)) => (bare(line), after),
    }
}

/// Whether a line has only blanks.
fn is_blank_line(line: &[u8]) -> bool
    ensures { result ≡ nat_eq (prefix_len is_blank line.now) (length line.now) }
{
    blanks_before(line) == line.len()
}

fn meaning_of(line: &[u8]) -> Meaning
    ensures { result ≡ meaning_of line.now }
{
    let Some(first) = line.first() else {
        return Meaning::Nothing;
    };
    if *first == b'*' {
        Meaning::Nothing
    } else if *first == b'+' {
        Meaning::More
    } else if is_blank(*first) {
        if is_blank_line(line) {
            Meaning::Nothing
        } else {
            Meaning::Rule
        }
    } else if is_letter(*first) {
        Meaning::Definition
    } else {
        Meaning::Unknown
    }
}

/// Adds characters to the last of the lines.
fn put_more(number: usize, lines: &mut Vec<FileLine>, text: &[u8]) -> Result<(), RuleFileFault>
    ensures { GivesMore (map line_seen lines.new.items) (with_more number (map line_seen lines.old.items) text.now) result }
{
    let Some(mut last) = lines.pop() else {
        return Err(RuleFileFault::NothingBefore(number));
    };
    last.characters.extend_from_slice(text)?;
    lines.push(last)?;
    Ok(())
}

fn put_new(
    alloc: Global,
    number: usize,
    kind: LineKind,
    lines: &mut Vec<FileLine>,
    line: &[u8],
) -> Result<(), RuleFileFault>
    ensures { GivesMore (map line_seen lines.new.items) (Ok (map line_seen lines.old.items ++ (record { number = number; kind = kind; characters = line.now } ∷ []))) result }
{
    lines.push(FileLine {
        number,
        kind,
        characters: Vec::from_slice(alloc, line)?,
    })?;
    Ok(())
}

/// Adds the line with this number.
fn put_line(
    alloc: Global,
    number: usize,
    lines: &mut Vec<FileLine>,
    line: &[u8],
) -> Result<(), RuleFileFault>
    ensures { GivesMore (map line_seen lines.new.items) (with_line number (map line_seen lines.old.items) line.now) result }
{
    match meaning_of(line) {
        Meaning::Nothing => Ok(()),
        Meaning::More => put_more(number, lines, line.split_at(1).1),
        Meaning::Rule => put_new(alloc, number, LineKind::Rule, lines, line),
        Meaning::Definition => put_new(alloc, number, LineKind::Definition, lines, line),
        Meaning::Unknown => Err(RuleFileFault::UnknownLine(number)),
    }
}

/// The rules and the definitions of a file, in order.
///
/// - A line that begins with a blank is a rule, and one that begins with a letter is a definition.
/// - A line that begins with `+` goes on with the one before it: what comes after the sign is added to that.
/// - A line that is empty or has only blanks is nothing. One that begins with `*` is a comment.
///
/// A line ends at a line feed, or before the carriage returns in front of it. What the lines spell isn't looked at.
///
/// Refused, as the first of them, with
///
/// - `UnknownLine` for a line that begins with another character, with its number from 1;
/// - `NothingBefore` for a line with `+` before which there is neither a rule nor a definition;
/// - `Memory`.
pub fn lines_of(alloc: Global, file: &[u8]) -> Result<Vec<FileLine>, RuleFileFault>
    ensures { GivesLines file.now result }
{
    let mut lines = Vec::new(alloc);
    let mut rest = file;
    let mut number = 1;
    while !rest.is_empty() {
        let (line, after) = first_line(rest);
        match put_line(alloc, number, &mut lines, line) {
            Err(fault) => return Err(fault),
            Ok(()) => rest = after,
        }
        number += 1;
    }
    Ok(lines)
}
