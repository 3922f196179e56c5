//! The plain evaluator: all that is assigned, one assignment after the other.
use crate::written::{check_eq, name_of, no_rules, pattern_of, text_of};
use sno_eval::{Found, What, first};
use sno_pattern::{Name, Rules, Text};
use std::alloc::Global;
use std::test::Fail;

fn found(
    alloc: Global,
    rules: &Rules,
    pattern: &str,
    text: &Text,
    anchored: bool,
) -> Result<Found, Fail> {
    let pattern = pattern_of(alloc, rules, pattern)?;
    Ok(first(alloc, rules, &pattern, text, anchored)?)
}

// The same on a text as it is written, without definitions.
fn found_on(alloc: Global, pattern: &str, text: &str, anchored: bool) -> Result<Found, Fail> {
    let rules = no_rules(alloc)?;
    let text = text_of(alloc, text)?;
    found(alloc, &rules, pattern, &text, anchored)
}

// The conditional assignments of the match, if there is one.
fn conditions(found: &Found) -> Option<&[(Name, usize, usize)]> {
    let hit = found.end.as_ref()?;
    Some(hit.conds.as_slice())
}

#[test]
fn rounds_are_tried_in_depth(rt: HostRuntime) -> Result<(), Fail> {
    let name = name_of("Y")?;
    let parts = [(name, 0, 1), (name, 1, 2), (name, 2, 3)];
    let pattern = "ARBNO(LEN(1) . Y | LEN(2) . Y) RPOS(0)";
    let found = found_on(rt.alloc(), pattern, "abc", true)?;
    check_eq(&rt, &conditions(&found), &Some(parts.as_slice()));
    Ok(())
}

// What is assigned at once, one after the other, where the match fails.
fn assigned(alloc: Global, found: &Found) -> Result<Vec<What>, Fail> {
    let mut parts = Vec::new(alloc);
    if found.end.is_none() {
        for set in found.sets.as_slice() {
            parts.push(set.what)?;
        }
    }
    Ok(parts)
}

#[test]
fn an_immediate_assignment_stays_though_the_match_fails(rt: HostRuntime) -> Result<(), Fail> {
    let found = found_on(rt.alloc(), "LEN(1) $ C 'z'", "abc", false)?;
    let parts = [What::Part(0, 1), What::Part(1, 2), What::Part(2, 3)];
    check_eq(
        &rt,
        &assigned(rt.alloc(), &found)?.as_slice(),
        &parts.as_slice(),
    );
    Ok(())
}
