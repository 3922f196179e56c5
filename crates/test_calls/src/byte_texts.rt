//! Texts of any bytes: their limit from both sides, matches in them, and a search that would keep too much.
use crate::written::{check_eq, no_rules, pattern_of};
use sno_machine::{Code, Found, MatchFault, Searched, Workspace, compile};
use sno_pattern::{ByteText, ByteTextFault, MAX_BYTES};
use std::alloc::Global;
use std::process::Abort;
use std::test::Fail;

// More trials than the searches here take.
const LIMIT: u32 = u32::MAX;

// How many bytes a text of this many zeros has, or why there is no such text.
fn length_of(alloc: Global, count: usize) -> Result<Result<usize, ByteTextFault>, Fail> {
    let zeros = vec![in alloc; 0; count]?;
    Ok(ByteText::new(zeros).map(|text| text.bytes().len()))
}

#[test]
fn a_text_of_bytes_has_a_limit(rt: HostRuntime) -> Result<(), Fail> {
    let longest = length_of(rt.alloc(), MAX_BYTES)?;
    check_eq(&rt, &longest, &Ok(16_777_216));
    let longer = length_of(rt.alloc(), MAX_BYTES + 1)?;
    check_eq(&rt, &longer, &Err(ByteTextFault::TooLong));
    Ok(())
}

pub(crate) fn bytes_of(alloc: Global, bytes: &[u8]) -> Result<ByteText, Fail> {
    Ok(ByteText::new(Vec::from_slice(alloc, bytes)?)?)
}

#[test]
fn texts_of_the_same_bytes_are_equal(rt: HostRuntime) -> Result<(), Fail> {
    let some = bytes_of(rt.alloc(), &[0, 200, 255])?;
    check_eq(&rt, &some, &bytes_of(rt.alloc(), &[0, 200, 255])?);
    let is_another = some != bytes_of(rt.alloc(), &[0, 200, 254])?;
    check_eq(&rt, &is_another, &true);
    Ok(())
}

// Where the match begins and ends, if there is one.
fn extent_of(found: &Found) -> Option<(usize, usize)> {
    match &found.end {
        None => None,
        Some(hit) => Some((hit.start, hit.end)),
    }
}

// The same of the first match in this text.
fn extent_in<'a>(
    alloc: Global,
    code: &Code<'a>,
    workspace: &mut Workspace<'a>,
    text: &ByteText,
) -> Result<Option<(usize, usize)>, Fail> {
    let found = code.first_in_bytes(alloc, workspace, text, false, LIMIT)?;
    Ok(extent_of(&found))
}

// The same in these bytes.
fn extent(alloc: Global, pattern: &str, bytes: &[u8]) -> Result<Option<(usize, usize)>, Fail> {
    let text = bytes_of(alloc, bytes)?;
    let rules = no_rules(alloc)?;
    let pattern = pattern_of(alloc, &rules, pattern)?;
    let code = compile(alloc, &rules, &pattern)?;
    extent_in(alloc, &code, &mut Workspace::new(alloc), &text)
}

// The bytes are é, x and the last half of an é.
#[test]
fn each_byte_is_a_character(rt: HostRuntime) -> Result<(), Fail> {
    let bytes = [195, 169, b'x', 169];
    check_eq(
        &rt,
        &extent(rt.alloc(), "LEN(1) 'x'", &bytes)?,
        &Some((1, 3)),
    );
    check_eq(
        &rt,
        &extent(rt.alloc(), "NOTANY('x') RPOS(0)", &bytes)?,
        &Some((3, 4)),
    );
    check_eq(
        &rt,
        &extent(rt.alloc(), "BREAK('x')", &bytes)?,
        &Some((0, 2)),
    );
    check_eq(&rt, &extent(rt.alloc(), "ANY('yz')", &bytes)?, &None);
    Ok(())
}

// Where a search from this cursor on ends, with how many trials it took.
fn end_from<'a>(
    alloc: Global,
    code: &Code<'a>,
    text: &mut Searched<'_, 'a>,
    from: usize,
) -> Result<(Option<usize>, u32), Fail> {
    if from > text.characters().len() {
        return Err("a cursor of the text is wanted".into());
    }
    let search = code.first_from(alloc, text, false, from, LIMIT)?;
    Ok((search.found.end.as_ref().map(|hit| hit.end), search.trials))
}

// Two searches, one after the other.
fn check_searches(
    rt: &impl Abort,
    alloc: Global,
    code: &Code,
    text: &ByteText,
) -> Result<(), Fail> {
    let mut searched = Searched::of_bytes(alloc, text);
    check_eq(rt, &end_from(alloc, code, &mut searched, 0)?, &(Some(3), 3));
    check_eq(rt, &end_from(alloc, code, &mut searched, 3)?, &(None, 2));
    assert!(rt; !searched.is_full());
    Ok(())
}

fn check_search_for_x(rt: &impl Abort, alloc: Global, text: &ByteText) -> Result<(), Fail> {
    let rules = no_rules(alloc)?;
    let pattern = pattern_of(alloc, &rules, "'x'")?;
    let code = compile(alloc, &rules, &pattern)?;
    check_searches(rt, alloc, &code, text)
}

// A search for x takes a trial at each start up to the first x; without an x, one at each start.
#[test]
fn searches_of_bytes_go_on_from_a_cursor(rt: HostRuntime) -> Result<(), Fail> {
    let text = bytes_of(rt.alloc(), &[195, 169, b'x', 169])?;
    check_search_for_x(&rt, rt.alloc(), &text)
}

// Whether an anchored search matches; and whether too much was to be kept.
fn kept_by(alloc: Global, code: &Code, text: &ByteText) -> (Result<bool, MatchFault>, bool) {
    let mut searched = Searched::of_bytes(alloc, text);
    let search = code.first_from(alloc, &mut searched, true, 0, LIMIT);
    let matched = search.map(|search| search.found.end.is_some());
    (matched, searched.is_full())
}

// The same of a search for a round of `a` or `b` after the other, up to a character that isn't there.
fn kept_on(alloc: Global, text: &ByteText) -> Result<(Result<bool, MatchFault>, bool), Fail> {
    let rules = no_rules(alloc)?;
    let pattern = pattern_of(alloc, &rules, "ARBNO('a' | 'b') '#'")?;
    let code = compile(alloc, &rules, &pattern)?;
    Ok(kept_by(alloc, &code, text))
}

// The same on this number of `a`.
fn kept_in(alloc: Global, count: usize) -> Result<(Result<bool, MatchFault>, bool), Fail> {
    let text = ByteText::new(vec![in alloc; b'a'; count]?)?;
    kept_on(alloc, &text)
}

// Each round leaves a choice for `b` and one for a further round.
#[test]
fn a_search_of_bytes_keeps_no_more_than_its_bound(rt: HostRuntime) -> Result<(), Fail> {
    let few = kept_in(rt.alloc(), 1_000_000)?;
    check_eq(&rt, &few, &(Ok(false), false));
    let many = kept_in(rt.alloc(), 5_000_000)?;
    check_eq(&rt, &many, &(Err(MatchFault::Memory), true));
    Ok(())
}
