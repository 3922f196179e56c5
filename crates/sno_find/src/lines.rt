//! Findings as lines.
ghost use Rattle.std.specs.Prelude.{◌≡◌, ◌++◌, take, drop, position, OnOk};
ghost use Rattle.std.specs.Fmt.{decimal};
ghost use Rattle.std.specs.List.{before_first};
ghost use Rattle.sno_edit.specs.Positions.{last_line};
ghost use Rattle.sno_edit.specs.Scripts.{is_line_feed};
ghost use Rattle.sno_find.specs.Lines.{count_line, finding_line, whole_line, place_text};

use crate::{Finding, Position};
use sno_pattern::ByteText;
use std::alloc::{AllocError, Global};

fn is_line_feed(byte: &u8) -> bool
    ensures { result ≡ is_line_feed byte.now }
{
    *byte == b'\n'
}

/// The first `count` bytes, or all of them if there are fewer.
pub(crate) fn front(bytes: &[u8], count: usize) -> &[u8]
    ensures { result.now ≡ take count bytes.now }
{
    if count < bytes.len() {
        bytes.split_at(count).0
    } else {
        bytes
    }
}

/// The bytes after the first `count`.
pub(crate) fn back(bytes: &[u8], count: usize) -> &[u8]
    ensures { result.now ≡ drop count bytes.now }
{
    if count < bytes.len() {
        bytes.split_at(count).1
    } else {
        &[]
    }
}

/// What comes after the last line feed.
fn last_line(bytes: &[u8]) -> &[u8]
    ensures { result.now ≡ last_line bytes.now }
{
    let mut start = bytes.len();
    while start > 0 && !is_line_feed(&bytes[start - 1]) {
        start -= 1;
    }
    bytes.split_at(start).1
}

/// The place of the first line feed.
fn line_feed(bytes: &[u8]) -> Option<usize>
    ensures { result ≡ position is_line_feed bytes.now }
{
    bytes.iter().position(|byte| is_line_feed(byte))
}

/// What comes before the first line feed.
fn first_line(bytes: &[u8]) -> &[u8]
    ensures { result.now ≡ before_first is_line_feed bytes.now }
{
    match line_feed(bytes) {
        Some(place) => front(bytes, place),
        None => bytes,
    }
}

/// Appends the whole line on which a place is, without its line feed.
fn put_whole_line(bytes: &[u8], place: usize, out: &mut Vec<u8>) -> Result<(), AllocError>
    ensures { OnOk result (out.new.items ≡ out.old.items ++ whole_line bytes.now place) }
{
    out.extend_from_slice(last_line(front(bytes, place)))?;
    out.extend_from_slice(first_line(back(bytes, place)))
}

pub(crate) fn put_text(text: &str, out: &mut Vec<u8>) -> Result<(), AllocError>
    ensures { OnOk result (out.new.items ≡ out.old.items ++ text.now) }
{
    out.extend_from_slice(text.as_bytes())
}

pub(crate) fn put_number(alloc: Global, number: usize, out: &mut Vec<u8>) -> Result<(), AllocError>
    ensures { OnOk result (out.new.items ≡ out.old.items ++ decimal number) }
{
    let digits = number.to_string(alloc)?;
    out.extend_from_slice(digits.as_bytes())
}

/// Appends the path, the line and the column, each with a colon after it.
fn put_place(
    alloc: Global,
    path: &str,
    position: Position,
    out: &mut Vec<u8>,
) -> Result<(), AllocError>
    ensures { OnOk result (out.new.items ≡ out.old.items ++ place_text path.now position) }
{
    put_text(path, out)?;
    put_text(":", out)?;
    put_number(alloc, position.line, out)?;
    put_text(":", out)?;
    put_number(alloc, position.column, out)?;
    put_text(":", out)
}

/// Appends a finding as a line: `path:line:column:` and then the whole line of the text on which the match starts, also if it ends
/// on another. The line has its carriage return, if one is before its line feed. The path is written as it is. `text` is the text
/// in which the finding was found.
///
/// Refused only if memory runs out. Then a part of the line may be there.
pub fn put_line(
    alloc: Global,
    path: &str,
    text: &ByteText,
    finding: &Finding<'_>,
    out: &mut Vec<u8>,
) -> Result<(), AllocError>
    ensures { OnOk result (out.new.items ≡ out.old.items ++ finding_line path.now text.now finding.now) }
{
    put_place(alloc, path, finding.start, out)?;
    put_whole_line(text.bytes(), finding.start.place, out)?;
    put_text("\n", out)
}

/// Appends how many findings a file has as a line, `path:count`.
///
/// Refused only if memory runs out. Then a part of the line may be there.
pub fn put_count(
    alloc: Global,
    path: &str,
    count: usize,
    out: &mut Vec<u8>,
) -> Result<(), AllocError>
    ensures { OnOk result (out.new.items ≡ out.old.items ++ count_line path.now count) }
{
    put_text(path, out)?;
    put_text(":", out)?;
    put_number(alloc, count, out)?;
    put_text("\n", out)
}
