//! Names, definitions, patterns, objects, and what is compiled of them.
ghost use Rattle.std.specs.Prelude.{IsTrue, length};

use crate::call_ends::{CallEnd, check_bytes, check_eq, tell_both, tell_ready, tell_twice};
use crate::jobs::pattern;
use sno_machine::{Code, MatchFault, compile};
use sno_pattern::{Name, NameFault, Names, NamesFault, Pattern, Rules, RulesFault, Text, TextName};
use sno_read::{Part, ReadFault, read_object, read_pattern};
use std::alloc::Global;
use std::process::Abort;
use std::sync::Arc;
use std::test::Fail;

/// A name of this kind, which it has to be.
pub(crate) fn name(rt: &impl Abort, bytes: &[u8]) -> Name {
    Name::read(bytes).expect(rt, "it is a name")
}

fn make_text_name(rt: &impl Abort, alloc: Global) -> CallEnd {
    match TextName::new(alloc, b"T".as_slice()) {
        Ok(name) => {
            check_bytes(rt, name.bytes(), b"T".as_slice());
            CallEnd::Given
        }
        Err(fault) => {
            check_eq(rt, &fault, &NameFault::Memory);
            CallEnd::Refused
        }
    }
}

#[test]
fn a_name_of_a_text(rt: HostRuntime) -> Result<(), Fail> {
    tell_twice(&rt, || make_text_name(&rt, rt.alloc()))
}

fn make_names(rt: &impl Abort, alloc: Global, names: &[Name; 2]) -> CallEnd {
    match Names::new(alloc, names.as_slice()) {
        Ok(made) => {
            check_eq(rt, &made.len(), &2);
            check_eq(rt, &made.place(&names[1]), &Some(1));
            CallEnd::Given
        }
        Err(fault) => {
            check_eq(rt, &fault, &NamesFault::Memory);
            CallEnd::Refused
        }
    }
}

#[test]
fn names_of_definitions(rt: HostRuntime) -> Result<(), Fail> {
    let names = [name(&rt, b"D".as_slice()), name(&rt, b"N".as_slice())];
    tell_twice(&rt, || make_names(&rt, rt.alloc(), &names))
}

/// Definitions: their names and their patterns. Each may name all of them.
#[derive(Drop)]
struct Definitions {
    names: Names,
    bodies: Vec<Pattern>,
}

fn names_of(
    rt: &impl Abort,
    alloc: Global,
    written: &[(&'static str, &'static str)],
) -> Result<Names, Fail> {
    let mut list = Vec::new(alloc);
    for (definition, _) in written {
        list.push(name(rt, definition.as_bytes()))?;
    }
    Ok(Names::new(alloc, list.as_slice())?)
}

fn bodies_of(
    alloc: Global,
    names: &Names,
    written: &[(&'static str, &'static str)],
) -> Result<Vec<Pattern>, Fail> {
    let mut bodies = Vec::new(alloc);
    for (_, pattern) in written {
        bodies.push(read_pattern(alloc, names, names.len(), pattern.as_bytes())?)?;
    }
    Ok(bodies)
}

/// The definitions as they are written, in a box, as a pattern is.
fn read_definitions(
    rt: &impl Abort,
    alloc: Global,
    written: &[(&'static str, &'static str)],
) -> Result<Box<Definitions>, Fail> {
    let names = names_of(rt, alloc, written)?;
    let bodies = bodies_of(alloc, &names, written)?;
    Ok(Box::new(alloc, Definitions { names, bodies })?)
}

/// A row of digits, and two of them with a point between.
static NUMBERS: [(&str, &str); 2] = [("D", "SPAN('0123456789')"), ("N", "D '.' D")];

fn admit(rt: &impl Abort, alloc: Global, definitions: Definitions) -> CallEnd {
    let Definitions { names, bodies } = definitions;
    assert!(rt; names.len() == bodies.len());
    match Rules::admit(alloc, names, bodies) {
        Ok(rules) => {
            check_eq(rt, &rules.len(), &2);
            CallEnd::Given
        }
        Err(fault) => {
            assert!(rt; matches!(fault, RulesFault::Memory), "{fault}");
            CallEnd::Refused
        }
    }
}

fn admit_both(
    rt: &impl Abort,
    alloc: Global,
    first: Box<Definitions>,
    second: Box<Definitions>,
) -> (CallEnd, CallEnd) {
    (
        admit(rt, alloc, Box::into_inner(first)),
        admit(rt, alloc, Box::into_inner(second)),
    )
}

#[test]
fn definitions_are_admitted(rt: HostRuntime) -> Result<(), Fail> {
    let alloc = rt.alloc();
    let first = read_definitions(&rt, alloc, NUMBERS.as_slice())?;
    let second = read_definitions(&rt, alloc, NUMBERS.as_slice())?;
    tell_ready(&rt)?;
    tell_both(&rt, admit_both(&rt, alloc, first, second))
}

fn read_assigned(rt: &impl Abort, alloc: Global, names: &Names, expected: &Pattern) -> CallEnd {
    match read_pattern(alloc, names, 0, b"LEN( 007 ) . A $ B".as_slice()) {
        Ok(pattern) => {
            assert!(rt; pattern == *expected);
            CallEnd::Given
        }
        Err(fault) => {
            check_eq(rt, &fault, &ReadFault::Memory);
            CallEnd::Refused
        }
    }
}

/// Seven characters, assigned to `A`, and at once to `B`.
fn assigned(rt: &impl Abort, alloc: Global) -> Result<Box<Pattern>, Fail> {
    let part = Box::new(alloc, Pattern::Len(7))?;
    let part = Box::new(alloc, Pattern::Cond(part, name(rt, b"A".as_slice())))?;
    Ok(Box::new(alloc, Pattern::Imm(part, name(rt, b"B".as_slice())))?)
}

fn read_twice(
    rt: &(impl Abort + Print),
    alloc: Global,
    names: &Names,
    expected: &Pattern,
) -> Result<(), Fail> {
    tell_twice(rt, || read_assigned(rt, alloc, names, expected))
}

#[test]
fn a_pattern_is_read(rt: HostRuntime) -> Result<(), Fail> {
    let expected = assigned(&rt, rt.alloc())?;
    let names = Names::new(rt.alloc(), &[])?;
    read_twice(&rt, rt.alloc(), &names, &expected)
}

fn read_three_parts(rt: &impl Abort, alloc: Global, names: &Names, expected: &[Part]) -> CallEnd {
    match read_object(alloc, names, b"V '=' K".as_slice()) {
        Ok(object) => {
            assert!(rt; object.parts() == expected);
            CallEnd::Given
        }
        Err(fault) => {
            check_eq(rt, &fault, &ReadFault::Memory);
            CallEnd::Refused
        }
    }
}

/// The parts of `V '=' K`.
fn three_parts(rt: &impl Abort, alloc: Global) -> Result<Vec<Part>, Fail> {
    let sign = Text::new(Vec::from_slice(alloc, b"=".as_slice())?)?;
    let mut parts = Vec::with_capacity(alloc, 3)?;
    parts.push(Part::Var(name(rt, b"V".as_slice())))?;
    parts.push(Part::Quoted(sign))?;
    parts.push(Part::Var(name(rt, b"K".as_slice())))?;
    Ok(parts)
}

fn read_parts_twice(
    rt: &(impl Abort + Print),
    alloc: Global,
    names: &Names,
    expected: &[Part],
) -> Result<(), Fail> {
    tell_twice(rt, || read_three_parts(rt, alloc, names, expected))
}

#[test]
fn an_object_is_read(rt: HostRuntime) -> Result<(), Fail> {
    let expected = three_parts(&rt, rt.alloc())?;
    let names = Names::new(rt.alloc(), &[])?;
    read_parts_twice(&rt, rt.alloc(), &names, expected.as_slice())
}

/// As many `a` as there are, or fewer.
static ROW: [(&str, &str); 1] = [("S", "'a' *S | ''")];

const TWO_ROWS: &[u8] = b"*S . A 'a' *S . B 'b'";

fn admitted_row(rt: &impl Abort, alloc: Global) -> Result<Arc<Rules>, Fail> {
    let row = read_definitions(rt, alloc, ROW.as_slice())?;
    let Definitions { names, bodies } = Box::into_inner(row);
    assert!(rt; names.len() == bodies.len());
    Ok(Arc::new(alloc, Rules::admit(alloc, names, bodies)?)?)
}

fn compile_once(rt: &impl Abort, alloc: Global, rules: &Rules, pattern: &Pattern) -> CallEnd {
    assert!(rt; rules.covers(pattern));
    match compile(alloc, rules, pattern) {
        Ok(_) => CallEnd::Given,
        Err(_) => CallEnd::Refused,
    }
}

/// A pattern with the definitions that it names.
#[derive(Drop)]
struct Search {
    rules: Arc<Rules>,
    pattern: Box<Pattern>,
}

fn two_rows(rt: &impl Abort, alloc: Global) -> Result<Search, Fail> {
    let rules = admitted_row(rt, alloc)?;
    let pattern = pattern(alloc, &rules, 1, TWO_ROWS)?;
    Ok(Search { rules, pattern })
}

#[test]
fn a_pattern_is_compiled(rt: HostRuntime) -> Result<(), Fail> {
    let alloc = rt.alloc();
    let search = two_rows(&rt, alloc)?;
    tell_twice(
        &rt,
        || compile_once(&rt, alloc, &search.rules, &search.pattern),
    )
}

/// The first part matches `aa`, the second one nothing.
fn match_once(rt: &impl Abort, alloc: Global, code: &Code<'_>, text: &Text) -> CallEnd {
    match code.first(alloc, text, true, 1_000_000) {
        Ok(found) => {
            let hit = found.end.as_ref().expect(rt, "it matches");
            check_eq(rt, &(hit.start, hit.end), &(0, 4));
            let expected = [
                (name(rt, b"A".as_slice()), 0, 2),
                (name(rt, b"B".as_slice()), 3, 3),
            ];
            assert!(rt; hit.conds.as_slice() == expected.as_slice());
            CallEnd::Given
        }
        Err(fault) => {
            check_eq(rt, &fault, &MatchFault::Memory);
            CallEnd::Refused
        }
    }
}

/// The pattern is compiled, and then matches twice.
fn match_twice<R: Abort + Print>(
    rt: &R,
    alloc: Global,
    search: &Search,
    text: &Text,
) -> Result<(), Fail> {
    assert!(rt; search.rules.covers(&search.pattern));
    let code = compile(alloc, &search.rules, &search.pattern)?;
    tell_twice(rt, || match_once(rt, alloc, &code, text))
}

#[test]
fn a_pattern_is_matched(rt: HostRuntime) -> Result<(), Fail> {
    let alloc = rt.alloc();
    let text = Text::new(Vec::from_slice(alloc, b"aaab".as_slice())?)?;
    match_twice(&rt, alloc, &two_rows(&rt, alloc)?, &text)
}
