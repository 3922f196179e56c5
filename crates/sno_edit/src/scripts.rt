//! What two texts share, line by line.
ghost use Rattle.std.specs.Prelude.{◌≡◌, ◌≤◌, ◌<◌, ◌+◌, ◌++◌, ◌∷◌, drop, length, position, take, IfOk, IfSome, OnOk};
ghost use Rattle.sno_pattern.specs.Identifiers.{same};
ghost use Rattle.sno_edit.specs.Scripts.{is_line_feed, lines_in, new_lines, new_part, new_text, old_lines, old_part, old_text, seen};

use std::alloc::{AllocError, Global};

/// How many lines, at most, are looked at together in both texts to find where they agree again.
const WINDOW: usize = 256;

/// Which of the two texts has a line.
#[derive(Clone, Copy, Debug, PartialEq, Eq)]
pub enum Mark {
    /// Both.
    Kept,
    /// Only the old one.
    Removed,
    /// Only the new one.
    Added,
}

/// A line of a script, with its line feed if it has one.
#[derive(Clone, Copy, Debug, PartialEq, Eq)]
pub struct DiffLine<'t> {
    /// Which of the texts has it.
    pub mark: Mark,
    /// Its characters.
    pub text: &'t [u8],
}

fn is_line_feed(character: &u8) -> bool
    ensures { result ≡ is_line_feed character.now }
{
    *character == b'\n'
}

/// The place of the first line feed.
fn line_feed(text: &[u8]) -> Option<usize>
    ensures { result ≡ position is_line_feed text.now }
{
    text.iter().position(|character| is_line_feed(character))
}

/// Where the first line of a text that isn't empty ends.
fn line_end(text: &[u8]) -> usize
    requires { 0 < length text.now }
    ensures some { 0 < result }
    ensures within { result ≤ length text.now }
    ensures first { lines_in text.now ≡ take result text.now ∷ lines_in (drop result text.now) }
{
    match line_feed(text) {
        Some(place) => place + 1,
        None => text.len(),
    }
}

/// The lines of a text, each with its line feed; the last may have none.
fn lines_of<'t>(alloc: Global, text: &'t [u8]) -> Result<Vec<&'t [u8]>, AllocError>
    ensures { IfOk result (λ lines. seen lines.items ≡ lines_in text.now) }
{
    let mut lines = Vec::new(alloc);
    let mut rest = text;
    while !rest.is_empty() {
        let (line, after) = rest.split_at(line_end(rest));
        lines.push(line)?;
        rest = after;
    }
    Ok(lines)
}

/// Whether two lines have the same characters.
fn is_same(line: &[u8], other: &[u8]) -> bool
    ensures { result ≡ same line.now other.now }
{
    line == other
}

/// How many lines the two texts share from their beginning on.
fn shared(old: &[&[u8]], new: &[&[u8]]) -> usize
    ensures old { result ≤ length old.now }
    ensures new { result ≤ length new.now }
    ensures same { seen (take result old.now) ≡ seen (take result new.now) }
{
    let most = old.len().min(new.len());
    for place in 0..most {
        if !is_same(old[place], new[place]) {
            return place;
        }
    }
    most
}

/// How many of `total` lines are of the old text, if the two texts agree after these and the others of the new one.
fn agreement(old: &[&[u8]], new: &[&[u8]], total: usize) -> Option<usize>
    ensures { IfSome result (λ removed. (removed ≤ total) × (removed ≤ length old.now) × (total ≤ removed + length new.now)) }
{
    for removed in 0..=total {
        let added = total - removed;
        if removed < old.len() && added < new.len() && old[removed] == new[added] {
            return Some(removed);
        }
    }
    None
}

/// How many lines of the old and of the new text come before the next that they share, within the window; if there is
/// none, all lines within it.
fn difference(old: &[&[u8]], new: &[&[u8]]) -> (usize, usize)
    ensures old { result.0 ≤ length old.now }
    ensures new { result.1 ≤ length new.now }
    ensures some { 0 < length old.now + length new.now → 0 < result.0 + result.1 }
{
    for total in 1..WINDOW {
        if let Some(removed) = agreement(old, new, total) {
            return (removed, total - removed);
        }
    }
    (old.len().min(WINDOW), new.len().min(WINDOW))
}

/// Adds lines to a script, with one mark.
fn add<'t>(script: &mut Vec<DiffLine<'t>>, mark: Mark, lines: &[&'t [u8]]) -> Result<(), AllocError>
    ensures old { OnOk result (old_lines script.new.items ≡ old_lines script.old.items ++ old_part mark (seen lines.now)) }
    ensures new { OnOk result (new_lines script.new.items ≡ new_lines script.old.items ++ new_part mark (seen lines.now)) }
{
    for line in lines {
        script.push(DiffLine { mark, text: *line })?;
    }
    Ok(())
}

/// Adds what comes next to a script, of the lines that are left, and returns what is left then.
fn step<'l, 't>(
    script: &mut Vec<DiffLine<'t>>,
    old: &'l [&'t [u8]],
    new: &'l [&'t [u8]],
) -> Result<(&'l [&'t [u8]], &'l [&'t [u8]]), AllocError>
    requires { 0 < length old.now + length new.now }
    ensures old { IfOk result (λ rest. old_lines script.new.items ++ seen rest.0.now ≡ old_lines script.old.items ++ seen old.now) }
    ensures new { IfOk result (λ rest. new_lines script.new.items ++ seen rest.1.now ≡ new_lines script.old.items ++ seen new.now) }
    ensures fewer { IfOk result (λ rest. length rest.0.now + length rest.1.now < length old.now + length new.now) }
{
    let shared = shared(old, new);
    let (_, news) = new.split_at(shared);
    if shared > 0 {
        let (kept, olds) = old.split_at(shared);
        add(script, Mark::Kept, kept)?;
        return Ok((olds, news));
    }
    let (removed, added) = difference(old, new);
    let (removed, olds) = old.split_at(removed);
    let (added, news) = new.split_at(added);
    add(script, Mark::Removed, removed)?;
    add(script, Mark::Added, added)?;
    Ok((olds, news))
}

/// Returns a script that takes the old text to the new one: its lines that are kept or removed are the old text, and
/// those that are kept or added are the new one. It has each line with its line feed. It is short if the texts agree
/// again within 256 lines after each difference.
///
/// Refused only if memory runs out.
pub fn script_of<'t>(
    alloc: Global,
    old: &'t [u8],
    new: &'t [u8],
) -> Result<Vec<DiffLine<'t>>, AllocError>
    ensures old_lines { IfOk result (λ script. old_lines script.items ≡ lines_in old.now) }
    ensures new_lines { IfOk result (λ script. new_lines script.items ≡ lines_in new.now) }
    // So it has both texts.
    ensures old { IfOk result (λ script. old_text script.items ≡ old.now) }
    ensures new { IfOk result (λ script. new_text script.items ≡ new.now) }
{
    let olds = lines_of(alloc, old)?;
    let news = lines_of(alloc, new)?;
    let mut script = Vec::new(alloc);
    let mut rest = (olds.as_slice(), news.as_slice());
    while !rest.0.is_empty() || !rest.1.is_empty() {
        rest = step(&mut script, rest.0, rest.1)?;
    }
    Ok(script)
}
