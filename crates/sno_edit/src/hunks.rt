//! Scripts as unified diffs.
ghost use Rattle.std.specs.Prelude.{◌≡◌, ◌≤◌, ◌<◌, ◌+◌, ◌-◌, ◌++◌, [], ◌∷◌, ℕ, if◌then◌else◌, true, false, codes, drop, length, List, nat_eq, position, take, not, IfOk, IfSome, OnOk, IsTrue, string_bytes, None, Some};
ghost use Rattle.std.specs.List.{flat_map, list_all, list_any};
ghost use Rattle.std.specs.Str.{chars};
ghost use Rattle.sno_edit.specs.Scripts.{new_lines, new_part, old_lines, old_part};
ghost use Rattle.sno_edit.specs.Hunks.{AreHunks, AreKept, Hunk, IsUnifiedDiff, name_text, names_text, octal, needs_quotes, path_text, quoted_character, bare, has_line_feed, hunk_at, hunk_text, is_kept, line_code, line_end_code, line_text, paint, place_text, range_text, ranges_text, sign, unended};

use crate::{DiffLine, Mark};
use std::alloc::{AllocError, Global};

/// How many lines that both texts have are shown around a difference.
const CONTEXT: usize = 3;

/// The code that ends a colour on a terminal.
const PLAIN: &str = "\x1b[m";

/// A code for a terminal, if there is to be colour.
fn paint(coloured: bool, code: &'static str) -> &'static str
    ensures { result.now ≡ paint coloured code.now }
{
    if coloured { code } else { "" }
}

fn line_code(mark: Mark) -> &'static str
    ensures { result.now ≡ line_code mark }
{
    match mark {
        Mark::Kept => "",
        Mark::Removed => "\x1b[31m",
        Mark::Added => "\x1b[32m",
    }
}

fn line_end_code(mark: Mark) -> &'static str
    ensures { result.now ≡ line_end_code mark }
{
    match mark {
        Mark::Kept => "",
        Mark::Removed | Mark::Added => PLAIN,
    }
}

fn sign(mark: Mark) -> &'static str
    ensures { result.now ≡ sign mark }
{
    match mark {
        Mark::Kept => " ",
        Mark::Removed => "-",
        Mark::Added => "+",
    }
}

fn is_kept(mark: Mark) -> bool
    ensures { result ≡ is_kept mark }
{
    match mark {
        Mark::Kept => true,
        Mark::Removed | Mark::Added => false,
    }
}

/// Whether a line has its line feed.
fn has_line_feed(line: &[u8]) -> bool
    ensures { result ≡ has_line_feed line.now }
{
    match line.last() {
        Some(character) => *character == b'\n',
        None => false,
    }
}

/// A line without its line feed.
fn bare<'t>(line: &'t [u8]) -> &'t [u8]
    ensures { result.now ≡ bare line.now }
{
    if has_line_feed(line) {
        let (text, _) = line.split_at(line.len() - 1);
        text
    } else {
        line
    }
}

/// What comes after a line.
fn unended(line: &[u8]) -> &'static str
    ensures { result.now ≡ unended line.now }
{
    if has_line_feed(line) {
        ""
    } else {
        "\\ No newline at end of file\n"
    }
}

fn put(diff: &mut Vec<u8>, characters: &str) -> Result<(), AllocError>
    ensures { OnOk result (diff.new.items ≡ diff.old.items ++ characters.now) }
{
    diff.extend_from_slice(characters.as_bytes())
}

/// One line of a hunk.
fn put_line(diff: &mut Vec<u8>, coloured: bool, line: &DiffLine<'_>) -> Result<(), AllocError>
    ensures { OnOk result (diff.new.items ≡ diff.old.items ++ line_text coloured line.now) }
{
    put(diff, paint(coloured, line_code(line.mark)))?;
    put(diff, sign(line.mark))?;
    diff.extend_from_slice(bare(line.text))?;
    put(diff, paint(coloured, line_end_code(line.mark)))?;
    put(diff, "\n")?;
    put(diff, unended(line.text))
}

fn put_lines(diff: &mut Vec<u8>, coloured: bool, lines: &[DiffLine<'_>]) -> Result<(), AllocError>
    ensures { OnOk result (diff.new.items ≡ diff.old.items ++ flat_map (line_text coloured) lines.now) }
{
    for line in lines {
        put_line(diff, coloured, line)?;
    }
    Ok(())
}

/// Which lines of a text a hunk has.
fn put_range(diff: &mut String, before: usize, count: usize) -> Result<(), AllocError>
    requires { before + count ≤ usize.MAX }
    ensures { OnOk result (string_bytes diff.new ≡ string_bytes diff.old ++ range_text before count) }
{
    match count {
        0 => write!(diff, "{before},0"),
        1 => {
            let first = before + 1;
            write!(diff, "{first}")
        }
        _ => {
            let first = before + 1;
            write!(diff, "{first},{count}")
        }
    }
}

/// How many lines the old text has of one with this mark.
fn old_count(mark: Mark) -> usize
    ensures is { (line : List ℕ) → result ≡ length (old_part mark (line ∷ [])) }
    ensures within { result ≤ 1 }
{
    match mark {
        Mark::Kept | Mark::Removed => 1,
        Mark::Added => 0,
    }
}

/// How many lines the new text has of one with this mark.
fn new_count(mark: Mark) -> usize
    ensures is { (line : List ℕ) → result ≡ length (new_part mark (line ∷ [])) }
    ensures within { result ≤ 1 }
{
    match mark {
        Mark::Kept | Mark::Added => 1,
        Mark::Removed => 0,
    }
}

/// How many of the lines the old text has.
fn old_len(lines: &[DiffLine<'_>]) -> usize
    ensures is { result ≡ length (old_lines lines.now) }
    ensures within { result ≤ length lines.now }
{
    let mut count = 0;
    for line in lines {
        count += old_count(line.mark);
    }
    count
}

/// How many of the lines the new text has.
fn new_len(lines: &[DiffLine<'_>]) -> usize
    ensures is { result ≡ length (new_lines lines.now) }
    ensures within { result ≤ length lines.now }
{
    let mut count = 0;
    for line in lines {
        count += new_count(line.mark);
    }
    count
}

/// How many lines of the old and of the new text come before a place.
#[derive(Clone, Copy)]
struct LinesBefore {
    old: usize,
    new: usize,
}

/// How many lines come before the place after these.
fn after(before: LinesBefore, lines: &[DiffLine<'_>]) -> LinesBefore
    requires old { before.old + length lines.now ≤ usize.MAX }
    requires new { before.new + length lines.now ≤ usize.MAX }
    ensures old { result.old ≡ before.old + length (old_lines lines.now) }
    ensures new { result.new ≡ before.new + length (new_lines lines.now) }
    ensures old_within { result.old ≤ before.old + length lines.now }
    ensures new_within { result.new ≤ before.new + length lines.now }
{
    LinesBefore {
        old: before.old + old_len(lines),
        new: before.new + new_len(lines),
    }
}

/// Which lines a hunk has of the old text and of the new one.
fn put_ranges(
    diff: &mut String,
    before: LinesBefore,
    lines: &[DiffLine<'_>],
) -> Result<(), AllocError>
    requires old { before.old + length lines.now ≤ usize.MAX }
    requires new { before.new + length lines.now ≤ usize.MAX }
    ensures { OnOk result (string_bytes diff.new ≡ string_bytes diff.old ++ ranges_text (record { old_before = before.old; new_before = before.new; lines = lines.now })) }
{
    put_range(diff, before.old, old_len(lines))?;
    diff.push_str(" +")?;
    put_range(diff, before.new, new_len(lines))
}

/// The line before the lines of a hunk.
fn put_place(
    diff: &mut String,
    coloured: bool,
    before: LinesBefore,
    lines: &[DiffLine<'_>],
) -> Result<(), AllocError>
    requires old { before.old + length lines.now ≤ usize.MAX }
    requires new { before.new + length lines.now ≤ usize.MAX }
    ensures { OnOk result (string_bytes diff.new ≡ string_bytes diff.old ++ place_text coloured (record { old_before = before.old; new_before = before.new; lines = lines.now })) }
{
    diff.push_str(paint(coloured, "\x1b[36m"))?;
    diff.push_str("@@ -")?;
    put_ranges(diff, before, lines)?;
    diff.push_str(" @@")?;
    diff.push_str(paint(coloured, PLAIN))?;
    diff.push_str("\n")
}

/// The lines of a hunk, with the line before them.
fn put_hunk(
    alloc: Global,
    diff: &mut Vec<u8>,
    coloured: bool,
    before: LinesBefore,
    lines: &[DiffLine<'_>],
) -> Result<(), AllocError>
    requires old { before.old + length lines.now ≤ usize.MAX }
    requires new { before.new + length lines.now ≤ usize.MAX }
    ensures { OnOk result (diff.new.items ≡ diff.old.items ++ hunk_text coloured (record { old_before = before.old; new_before = before.new; lines = lines.now })) }
{
    let mut place = String::new(alloc);
    put_place(&mut place, coloured, before, lines)?;
    put(diff, &place)?;
    put_lines(diff, coloured, lines)
}

/// How many lines that both texts have come first.
fn kept_len(script: &[DiffLine<'_>]) -> usize
    ensures within { result ≤ length script.now }
    ensures kept { AreKept (take result script.now) }
    ensures all { AreKept script.now → result ≡ length script.now }
{
    for (place, line) in script.iter().enumerate() {
        if !is_kept(line.mark) {
            return place;
        }
    }
    script.len()
}

/// How many lines are shown together, of lines that begin with a change: up to three lines after it that both texts have.
/// Changes that are at most six lines apart are shown together.
fn shown_len(lines: &[DiffLine<'_>]) -> usize
    requires { 0 < length lines.now }
    ensures some { 0 < result }
    ensures within { result ≤ length lines.now }
{
    let mut end = 1;
    for place in 1..lines.len() {
        if !is_kept(lines[place].mark) {
            end = place + 1;
        } else if place - end >= 2 * CONTEXT {
            break;
        }
    }
    end + (lines.len() - end).min(CONTEXT)
}

/// How many lines come before the next hunk, and how many it has.
fn next_hunk(script: &[DiffLine<'_>]) -> Option<(usize, usize)>
    ensures none { result ≡ None → AreKept script.now }
    ensures some { IfSome result (λ h. 0 < h.1) }
    ensures within { IfSome result (λ h. h.0 + h.1 ≤ length script.now) }
    ensures kept { IfSome result (λ h. AreKept (take h.0 script.now)) }
{
    let change = kept_len(script);
    let (_, shown) = script.split_at(change);
    if shown.is_empty() {
        return None;
    }
    let context = change.min(CONTEXT);
    Some((change - context, context + shown_len(shown)))
}

/// What is left of a script, and how many lines come before it.
#[derive(Clone, Copy)]
struct Left<'l, 't> {
    before: LinesBefore,
    script: &'l [DiffLine<'t>],
}

/// Puts the next hunk, which has `count` lines after the next `place` ones, and returns what is left after it.
fn put_next<'l, 't>(
    alloc: Global,
    diff: &mut Vec<u8>,
    coloured: bool,
    left: Left<'l, 't>,
    place: usize,
    count: usize,
) -> Result<Left<'l, 't>, AllocError>
    requires within { place + count ≤ length left.script.now }
    requires old { left.before.old + length left.script.now ≤ usize.MAX }
    requires new { left.before.new + length left.script.now ≤ usize.MAX }
    ensures written { OnOk result (diff.new.items ≡ diff.old.items
        ++ hunk_text coloured (hunk_at left.entry.before.old left.entry.before.new place count left.entry.script.now)) }
    ensures old { IfOk result (λ next. next.before.old ≡ left.entry.before.old + length (old_lines (take place left.entry.script.now))
        + length (old_lines (take count (drop place left.entry.script.now)))) }
    ensures new { IfOk result (λ next. next.before.new ≡ left.entry.before.new + length (new_lines (take place left.entry.script.now))
        + length (new_lines (take count (drop place left.entry.script.now)))) }
    ensures rest { IfOk result (λ next. next.script.now ≡ drop count (drop place left.entry.script.now)) }
{
    let (between, shown) = left.script.split_at(place);
    let (hunk, script) = shown.split_at(count);
    let before = after(left.before, between);
    put_hunk(alloc, diff, coloured, before, hunk)?;
    Ok(Left {
        before: after(before, hunk),
        script,
    })
}

/// The hunks of a script.
fn put_hunks(
    alloc: Global,
    diff: &mut Vec<u8>,
    coloured: bool,
    script: &[DiffLine<'_>],
) -> Result<(), AllocError>
    ensures { OnOk result ((hunks : List Hunk) × (diff.new.items ≡ diff.old.items ++ flat_map (hunk_text coloured) hunks) × AreHunks 0 0 hunks script.now) }
{
    let before = LinesBefore { old: 0, new: 0 };
    let mut left = Left { before, script };
    while let Some((place, count)) = next_hunk(left.script) {
        left = put_next(alloc, diff, coloured, left, place, count)?;
    }
    Ok(())
}

fn octal_digit(digit: u8) -> char
    requires { digit < 8 }
    ensures { result ≡ 48 + digit }
{
    char::from(b'0' + digit)
}

/// A control character.
fn put_octal(diff: &mut String, code: u8) -> Result<(), AllocError>
    requires { code < 128 }
    ensures { OnOk result (string_bytes diff.new ≡ string_bytes diff.old ++ octal code) }
{
    diff.push(octal_digit(code / 64))?;
    diff.push(octal_digit(code / 8 % 8))?;
    diff.push(octal_digit(code % 8))
}

fn needs_quotes(character: u8) -> bool
    ensures { result ≡ needs_quotes character }
{
    character.is_ascii_control() || character == b'"' || character == b'\\'
}

/// Whether a path is written in quotes.
fn is_quoted(path: &str) -> bool
    ensures { result ≡ list_any needs_quotes path.now }
{
    path.as_bytes()
        .iter()
        .any(|character| needs_quotes(*character))
}

/// Whether a path has a blank.
fn has_blank(path: &str) -> bool
    ensures { result ≡ list_any (λ c. nat_eq c 32) path.now }
{
    path.as_bytes().iter().any(|character| *character == b' ')
}

fn put_quoted_character(diff: &mut String, character: char) -> Result<(), AllocError>
    ensures { OnOk result (string_bytes diff.new ≡ string_bytes diff.old ++ quoted_character character) }
{
    match character {
        '"' => diff.push_str("\\\""),
        '\\' => diff.push_str("\\\\"),
        '\n' => diff.push_str("\\n"),
        '\t' => diff.push_str("\\t"),
        _ if character.is_ascii_control() => {
            diff.push_str("\\")?;
            put_octal(diff, character as u8)
        }
        _ => diff.push(character),
    }
}

fn put_quoted(diff: &mut String, path: &str) -> Result<(), AllocError>
    ensures { OnOk result (string_bytes diff.new ≡ string_bytes diff.old ++ flat_map quoted_character (chars path.now)) }
{
    for character in path.chars() {
        put_quoted_character(diff, character)?;
    }
    Ok(())
}

/// The path of one of the texts. After a path with blanks comes a tab, by which its end is seen.
fn put_path(diff: &mut String, side: &str, path: &str) -> Result<(), AllocError>
    ensures { OnOk result (string_bytes diff.new ≡ string_bytes diff.old ++ path_text side.now path.now) }
{
    if is_quoted(path) {
        diff.push_str("\"")?;
        diff.push_str(side)?;
        put_quoted(diff, path)?;
        return diff.push_str("\"");
    }
    diff.push_str(side)?;
    diff.push_str(path)?;
    diff.push_str(if has_blank(path) { "\t" } else { "" })
}

/// The line that names the old or the new text.
fn put_name(
    diff: &mut String,
    coloured: bool,
    signs: &str,
    side: &str,
    path: &str,
) -> Result<(), AllocError>
    ensures { OnOk result (string_bytes diff.new ≡ string_bytes diff.old ++ name_text coloured signs.now side.now path.now) }
{
    diff.push_str(paint(coloured, "\x1b[1m"))?;
    diff.push_str(signs)?;
    put_path(diff, side, path)?;
    diff.push_str(paint(coloured, PLAIN))?;
    diff.push_str("\n")
}

/// The lines that name the two texts.
fn put_names(diff: &mut String, coloured: bool, path: &str) -> Result<(), AllocError>
    ensures { OnOk result (string_bytes diff.new ≡ string_bytes diff.old ++ names_text coloured path.now) }
{
    put_name(diff, coloured, "--- ", "a/", path)?;
    put_name(diff, coloured, "+++ ", "b/", path)
}

/// Returns a script as a unified diff of the file with this path: three lines around each difference, as `diff -u` has
/// them, with the bytes of each line as they are. Before the path comes `a/` or `b/`, as in a diff of git. A script
/// without differences has an empty diff. Coloured, it is for a terminal, and no program reads it.
///
/// What its hunks say takes the old lines of the script to the new ones: `IsUnifiedDiff` of `specs/Hunks.antt`.
/// Refused only if memory runs out.
pub fn unified_diff(
    alloc: Global,
    path: &str,
    script: &[DiffLine<'_>],
    coloured: bool,
) -> Result<Vec<u8>, AllocError>
    ensures { IfOk result (λ diff. IsUnifiedDiff coloured path.now script.now diff.items) }
{
    let mut diff = Vec::new(alloc);
    if kept_len(script) == script.len() {
        return Ok(diff);
    }
    let mut names = String::new(alloc);
    put_names(&mut names, coloured, path)?;
    put(&mut diff, &names)?;
    put_hunks(alloc, &mut diff, coloured, script)?;
    Ok(diff)
}
