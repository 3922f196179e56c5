//! Patterns that are read once.

use sno_pattern::{ByteText, What};
use sno_seek::{NoPattern, open};
use std::alloc::Global;
use std::test::Fail;

fn text_of(alloc: Global, text: &str) -> Result<ByteText, Fail> {
    let bytes = Vec::from_slice(alloc, text.as_bytes())?;
    let text = ByteText::new(bytes).ok().ok_or("text")?;
    Ok(text)
}

/// A rule is sought from a cursor on, its assignments are kept, and it is performed.
#[test]
fn a_pattern_that_is_read_once(rt: HostRuntime) -> Result<(), Fail> {
    let alloc = rt.alloc();
    let mut seeker = open(alloc, b"RUN = SPAN(DIGIT)\n", b"RUN . N = '<' N '>'")
        .ok()
        .ok_or("rule")?;
    let text = text_of(alloc, "a12b345")?;
    let from = text.bytes().len().min(3);
    let matched = seeker.next(alloc, &text, from, 1_000).ok().ok_or("search")?;
    assert!(rt; matched);
    assert!(rt; seeker.assignments() == 1);
    let assign = seeker.assignment(0).ok_or("assignment")?;
    assert_eq!(rt; assign.name.bytes(), b"N".as_slice());
    assert!(rt; assign.what == What::Part(4, 7));
    let rewritten = seeker.replaced(alloc, &text, 1_000).ok().ok_or("rule")?;
    assert!(rt; rewritten.matches == 2);
    let after = rewritten.after.ok_or("text")?;
    assert_eq!(rt; after.bytes(), b"a<12>b<345>".as_slice());
    Ok(())
}

/// The lines of a fault have the fault, its place in the rule, and what to write instead.
#[test]
fn a_rule_with_a_fault(rt: HostRuntime) -> Result<(), Fail> {
    let alloc = rt.alloc();
    let Err(NoPattern::Refused(lines)) = open(alloc, b"", b"'a' | = 'b'") else {
        return Err("a fault is wanted".into());
    };
    assert_eq!(rt;
        lines.as_str(),
        "statement 1: pattern: unexpected at 6\n    'a' | = 'b'\n          ^ this ends too soon: a further part is wanted, or a )\n"
    );
    Ok(())
}
