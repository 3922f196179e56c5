//! What rules match in a file.

use sno_edit::{EditRules, Trials};
use sno_find::{FindFault, find_in, put_count, put_json, put_line, write_edit_rows};
use sno_pattern::ByteText;
use std::alloc::Global;
use std::sync::Arc;
use std::test::Fail;

const RULES: &[u8] = br#"{"statements":[
    {"pattern":"('cat' | 'dog') . ANIMAL","all":true},
    {"text":"y","pattern":"'a'","all":true},
    {"text":"x","pattern":"ANY('ad')"}]}"#;

fn text_of(alloc: Global, text: &str) -> Result<ByteText, Fail> {
    let bytes = Vec::from_slice(alloc, text.as_bytes())?;
    let text = ByteText::new(bytes).ok().ok_or("text")?;
    Ok(text)
}

/// Each finding has the whole line, and its column is counted in characters.
#[test]
fn findings_as_lines(rt: HostRuntime) -> Result<(), Fail> {
    let alloc = rt.alloc();
    let rules = EditRules::read(alloc, RULES, false, Trials::Usual)
        .ok()
        .ok_or("rules")?;
    let text = text_of(alloc, "b\u{e9}b\u{e9} dog\r\n\ndog, cat\n")?;
    let findings = find_in(alloc, &rules, "x", &text).ok().ok_or("findings")?;
    let mut lines = Vec::new(alloc);
    for finding in &findings {
        put_line(alloc, "x", &text, finding, &mut lines)?;
    }
    put_count(alloc, "x", findings.len(), &mut lines)?;
    assert_eq!(rt;
        lines.as_slice(),
        "x:1:6:b\u{e9}b\u{e9} dog\r\nx:1:6:b\u{e9}b\u{e9} dog\r\nx:3:1:dog, cat\nx:3:6:dog, cat\nx:4\n".as_bytes()
    );
    Ok(())
}

/// The first statement that takes more trials than it may is named.
#[test]
fn too_many_trials(rt: HostRuntime) -> Result<(), Fail> {
    let alloc = rt.alloc();
    let rules = EditRules::read(alloc, RULES, false, Trials::AtMost(3))
        .ok()
        .ok_or("rules")?;
    let text = text_of(alloc, "aaaa")?;
    let found = find_in(alloc, &rules, "y", &text).map(|findings| findings.len());
    assert!(rt; found == Err(FindFault::TooManyTrials(1)));
    Ok(())
}

/// A quote is escaped, what isn't UTF-8 becomes U+FFFD, and a cursor is a number.
#[test]
fn a_finding_as_json(rt: HostRuntime) -> Result<(), Fail> {
    let alloc = rt.alloc();
    let rules = EditRules::read(
        alloc,
        br#"{"statements":[{"pattern":"LEN(2) . X @N"}]}"#,
        false,
        Trials::Usual,
    )
    .ok()
    .ok_or("rules")?;
    let bytes = Vec::from_slice(alloc, b"\"\xff")?;
    let text = ByteText::new(bytes).ok().ok_or("text")?;
    let findings = find_in(alloc, &rules, "x", &text).ok().ok_or("findings")?;
    let mut line = Vec::new(alloc);
    for finding in &findings {
        put_json(alloc, "x", &text, finding, &mut line)?;
    }
    assert_eq!(rt;
        line.as_slice(),
        "{\"path\":\"x\",\"statement\":1,\"start\":0,\"end\":2,\"line\":1,\"column\":1,\"text\":\"\\\"\u{fffd}\",\"variables\":{\"N\":2,\"X\":\"\\\"\u{fffd}\"}}\n".as_bytes()
    );
    Ok(())
}

const EDITS: &[u8] = br#"{"statements":[
    {"pattern":"'a'","object":"'bb'","all":true},
    {"pattern":"'bb'","object":"'c'","repeat":3},
    {"pattern":"'c'"}]}"#;

/// Each match is in the text that the rules before left, and a repeated rule has its number of rounds.
#[test]
fn rows_of_an_edit(rt: HostRuntime) -> Result<(), Fail> {
    let alloc = rt.alloc();
    let rules = EditRules::read(alloc, EDITS, false, Trials::Usual)
        .ok()
        .ok_or("rules")?;
    let text = Arc::new(alloc, text_of(alloc, "\u{e9}a")?)?;
    let mut rows = Vec::new(alloc);
    write_edit_rows(alloc, &rules, "x", text, &mut rows)
        .ok()
        .ok_or("rows")?;
    assert_eq!(rt;
        rows.as_slice(),
        b"{\"path\":\"x\",\"statement\":1,\"start\":2,\"end\":3,\"line\":1,\"column\":2,\"text\":\"a\",\"variables\":{}}\n{\"path\":\"x\",\"statement\":2,\"rounds\":1}\n{\"path\":\"x\",\"statement\":3,\"start\":2,\"end\":3,\"line\":1,\"column\":2,\"text\":\"c\",\"variables\":{}}\n".as_slice()
    );
    Ok(())
}
