//! Where primitives end; the ends are read off the texts.
ghost use Rattle.std.specs.Prelude.{◌≡◌};
ghost use Rattle.sno_pattern.specs.Tree.{tree_of};
ghost use Rattle.sno_primitives.specs.Leaves.{is_single};

use crate::written::{check_eq, no_rules, pattern_of};
use sno_pattern::{Class, Pattern};
use sno_primitives::{
    any_end, break_end, first_balanced, leaf_end, len_end, literal_end, notany_end, pos_end,
    rpos_end, rtab_end, span_end, tab_end,
};
use std::alloc::Global;
use std::process::Abort;
use std::test::Fail;

// A pattern, a text, a cursor, and where the pattern ends from there.
static ENDS: [(&str, &str, usize, Option<usize>); 18] = [
    ("SPAN('ab')", "xabac", 0, None),
    ("SPAN('ab')", "xabac", 1, Some(4)),
    ("BREAK('c')", "xabac", 0, Some(4)),
    ("BREAK('c')", "xabac", 5, None),
    ("'ba'", "xabac", 2, Some(4)),
    ("'ba'", "xabac", 1, None),
    // Members of a low code and of a high one: 63 and 64.
    ("ANY('?@')", "?@Aé", 0, Some(1)),
    ("ANY('?@')", "?@Aé", 1, Some(2)),
    ("ANY('?@')", "?@Aé", 2, None),
    ("ANY('?@')", "?@Aé", 3, None),
    // One to four members.
    ("BREAK(';')", "the first of many characters;", 4, Some(28)),
    ("BREAK('1;')", "the first of many characters;", 4, Some(28)),
    ("BREAK('12;')", "the first of many characters;", 4, Some(28)),
    (
        "BREAK('123;')",
        "the first of many characters;",
        4,
        Some(28),
    ),
    ("BREAK('123;')", "the first of many characters;", 29, None),
    ("NOTANY('ab')", "xabac", 0, Some(1)),
    ("LEN(2)", "xabac", 2, Some(4)),
    ("RTAB(1)", "xabac", 2, Some(4)),
];

// Whether the pattern is a primitive that has one end at most.
fn is_single(pattern: &Pattern) -> bool
    ensures { result ≡ is_single (tree_of pattern.now) }
{
    match pattern {
        Pattern::Lit(_)
        | Pattern::Bytes(_)
        | Pattern::Len(_)
        | Pattern::Pos(_)
        | Pattern::Rpos(_)
        | Pattern::Tab(_)
        | Pattern::Rtab(_)
        | Pattern::AnyOf(_)
        | Pattern::NoneOf(_)
        | Pattern::Span(_)
        | Pattern::Break(_)
        | Pattern::Rem => true,
        _ => false,
    }
}

fn end_in(pattern: &Pattern, text: &str, cursor: usize) -> Result<Option<usize>, Fail> {
    if cursor <= text.len() && is_single(pattern) {
        Ok(leaf_end(text.as_bytes(), pattern, cursor))
    } else {
        Err("a cursor within the text and a primitive with one end are wanted".into())
    }
}

fn end_of(alloc: Global, pattern: &str, text: &str, cursor: usize) -> Result<Option<usize>, Fail> {
    let rules = no_rules(alloc)?;
    let pattern = pattern_of(alloc, &rules, pattern)?;
    end_in(&pattern, text, cursor)
}

#[test]
fn a_primitive_has_one_end(rt: HostRuntime) -> Result<(), Fail> {
    for (pattern, text, cursor, end) in &ENDS {
        check_eq(&rt, &end_of(rt.alloc(), pattern, text, *cursor)?, end);
    }
    Ok(())
}

// BAL on (a)b, and parentheses that don't match
#[test]
fn balanced_parts_come_the_shortest_first(rt: HostRuntime) -> Result<(), Fail> {
    let ends = [
        first_balanced(b"(a)b", 0),
        first_balanced(b"(a)b", 3),
        first_balanced(b"(a)b", 4),
        first_balanced(b"(()", 0),
        first_balanced(b")(", 0),
        first_balanced(b"a)b", 1),
    ];
    let expected = [Some(3), Some(4), None, None, None, None];
    check_eq(&rt, &ends.as_slice(), &expected.as_slice());
    Ok(())
}

// 'ba', LEN(2), POS(2), RPOS(3), TAB(4) and RTAB(1) from 2 on xabac
#[test]
fn places_and_lengths_have_one_end(rt: HostRuntime) -> Result<(), Fail> {
    let text = b"xabac".as_slice();
    let ends = [
        literal_end(text, b"ba", 2),
        len_end(text, 2, 2),
        pos_end(2, 2),
        rpos_end(text, 3, 2),
        tab_end(text, 4, 2),
        rtab_end(text, 1, 2),
    ];
    let expected = [Some(4), Some(4), Some(2), Some(2), Some(4), Some(4)];
    check_eq(&rt, &ends.as_slice(), &expected.as_slice());
    Ok(())
}

// ANY, NOTANY, SPAN and BREAK of the set, from 1, 0, 1 and 0 on xabac
fn ends_of(set: &Class) -> [Option<usize>; 4] {
    let text = b"xabac".as_slice();
    [
        any_end(text, set, 1),
        notany_end(text, set, 0),
        span_end(text, set, 1),
        break_end(text, set, 0),
    ]
}

// the members come back as they stood
fn check_set(rt: &impl Abort, set: &Class) {
    check_eq(rt, &set.members(), &b"bab".as_slice());
    let expected = [Some(2), Some(1), Some(4), Some(1)];
    check_eq(rt, &ends_of(set).as_slice(), &expected.as_slice());
}

#[test]
fn sets_have_one_end(rt: HostRuntime) -> Result<(), Fail> {
    let members = Vec::from_slice(rt.alloc(), b"bab")?;
    check_set(&rt, &Class::new(members).ok_or("no set")?);
    Ok(())
}
