//! Limits of patterns and objects as they are written, from both sides, and the parts of an object.
use crate::written::{check_eq, name_of};
use sno_pattern::{Names, Pattern};
use sno_read::{Object, Part, ReadFault, read_object, read_pattern};
use std::alloc::Global;
use std::process::Abort;
use std::test::Fail;

/// A pattern as it is written: the first piece, the second and the last of them this many times, with the third between those two.
#[derive(Clone, Copy)]
struct Written(
    &'static str,
    &'static str,
    &'static str,
    &'static str,
    usize,
);

fn push_times(text: &mut Vec<u8>, piece: &str, times: usize) -> Result<(), Fail> {
    for _ in 0..times {
        text.extend_from_slice(piece.as_bytes())?;
    }
    Ok(())
}

fn text_of(alloc: Global, written: Written) -> Result<Vec<u8>, Fail> {
    let Written(before, piece, between, last, times) = written;
    let mut text = Vec::from_slice(alloc, before.as_bytes())?;
    push_times(&mut text, piece, times)?;
    text.extend_from_slice(between.as_bytes())?;
    push_times(&mut text, last, times)?;
    Ok(text)
}

fn depth_of(pattern: &Pattern) -> usize {
    match pattern {
        Pattern::Seq(first, second) | Pattern::Alt(first, second) => depth_of(first)
            .max(depth_of(second))
            .saturating_add(1),
        Pattern::Arbno(part) | Pattern::Cond(part, _) | Pattern::Imm(part, _) => depth_of(
            part,
        ).saturating_add(1),
        _ => 1,
    }
}

// The depth of the tree that the text is read as, without definitions.
fn depth_read(alloc: Global, names: &Names, text: &[u8]) -> Result<usize, ReadFault> {
    Ok(depth_of(&read_pattern(alloc, names, 0, text)?))
}

fn depth_without_names(alloc: Global, text: &[u8]) -> Result<Result<usize, ReadFault>, Fail> {
    Ok(depth_read(alloc, &Names::new(alloc, &[])?, text))
}

// That depth, or why the text isn't read.
fn line_of(alloc: Global, text: &[u8]) -> Result<String, Fail> {
    match depth_without_names(alloc, text)? {
        Ok(depth) => Ok(format!(in alloc; "depth {depth}")?),
        Err(fault) => Ok(fault.to_string(alloc)?),
    }
}

// At most 4,096 characters, 64 of a name, 100 open parentheses, and trees 1,000 deep.
static LIMITS: [(Written, &str); 19] = [
    (Written("'", "a", "'", "", 4_094), "depth 1"),
    (Written("", " ", "", "", 4_096), "empty at 4096"),
    (Written("", " ", "", "", 4_097), "too long at 4096"),
    (Written("", "é", "", "", 2_049), "too long at 4096"),
    (Written("", "a", "", "", 64), "unknown name at 0"),
    (Written("", "a", "", "", 65), "too long at 0"),
    (Written("'a' . ", "a", "", "", 65), "too long at 6"),
    (Written("*", "a", "", "", 65), "too long at 1"),
    (Written("", "(", "''", ")", 100), "depth 1"),
    (Written("", "(", "", "", 101), "too deep at 100"),
    (Written("", "(", "LEN(1)", "", 100), "too deep at 103"),
    (Written("", "(", "LEN", "", 100), "unexpected at 103"),
    (Written("'", "(", "'", "", 101), "depth 1"),
    (Written("", "ARBNO(", "''", ")", 100), "depth 101"),
    (Written("", "ARBNO(", "", "", 101), "too deep at 605"),
    (Written("''", " ''", "", "", 999), "depth 1000"),
    (Written("''", " ''", "", "", 1_000), "too deep at 3002"),
    (Written("''", " ''", " )", "", 1_000), "unexpected at 3003"),
    (Written("'a'\n'b'", "", "", "", 0), "unexpected at 3"),
];

fn line_written(alloc: Global, written: Written) -> Result<String, Fail> {
    line_of(alloc, &text_of(alloc, written)?)
}

fn check_limit(
    rt: &impl Abort,
    alloc: Global,
    written: Written,
    expected: &'static str,
) -> Result<(), Fail> {
    check_eq(rt, &line_written(alloc, written)?.as_str(), &expected);
    Ok(())
}

#[test]
fn limits(rt: HostRuntime) -> Result<(), Fail> {
    for (written, expected) in &LIMITS {
        check_limit(&rt, rt.alloc(), *written, expected)?;
    }
    Ok(())
}

fn names_of(alloc: Global, names: &[&str]) -> Result<Names, Fail> {
    let mut read = Vec::new(alloc);
    for name in names {
        read.push(name_of(name)?)?;
    }
    Ok(Names::new(alloc, read.as_slice())?)
}

fn refers_to(pattern: &Pattern, number: usize) -> bool {
    match pattern {
        Pattern::Ref(found) => *found == number,
        _ => false,
    }
}

// Whether the text is read as a reference to this definition.
fn is_reference(
    alloc: Global,
    names: &Names,
    text: &[u8],
    number: usize,
) -> Result<bool, ReadFault> {
    Ok(refers_to(&read_pattern(alloc, names, 1, text)?, number))
}

// Whether the text, which is the only name, is read as a reference to its definition.
fn is_own_reference(alloc: Global, text: &[u8]) -> Result<Result<bool, ReadFault>, Fail> {
    let name = str::from_utf8(text)?;
    Ok(is_reference(alloc, &names_of(alloc, &[name])?, text, 0))
}

// The longest name is that of a definition.
#[test]
fn longest_name(rt: HostRuntime) -> Result<(), Fail> {
    let longest = text_of(rt.alloc(), Written("", "a", "", "", 64))?;
    check_eq(&rt, &is_own_reference(rt.alloc(), &longest)?, &Ok(true));
    Ok(())
}

fn references(alloc: Global, names: &Names) -> [Result<bool, ReadFault>; 3] {
    [
        is_reference(alloc, names, b"P", 0),
        is_reference(alloc, names, b"*Q", 1),
        is_reference(alloc, names, b"Q", 1),
    ]
}

// P may be named as it is by what comes after its definition, and Q after a star alone.
#[test]
fn names_of_definitions(rt: HostRuntime) -> Result<(), Fail> {
    let read = references(rt.alloc(), &names_of(rt.alloc(), &["P", "Q"])?);
    let expected = [Ok(true), Ok(true), Err(ReadFault::UnknownName(0))];
    check_eq(&rt, &read.as_slice(), &expected.as_slice());
    Ok(())
}

// How many parts an object of n blanks has.
fn parts_of_blanks(alloc: Global, names: &Names, count: usize) -> Result<usize, ReadFault> {
    let blanks = vec![in alloc; b' '; count].map_err(|_| ReadFault::Memory)?;
    Ok(read_object(alloc, names, &blanks)?.parts().len())
}

#[test]
fn longest_object(rt: HostRuntime) -> Result<(), Fail> {
    let names = Names::new(rt.alloc(), &[])?;
    let counts = [
        parts_of_blanks(rt.alloc(), &names, 4_096),
        parts_of_blanks(rt.alloc(), &names, 4_097),
    ];
    let expected = [Ok(0), Err(ReadFault::TooLong(4_096))];
    check_eq(&rt, &counts.as_slice(), &expected.as_slice());
    Ok(())
}

// A part in words: a variable's name, or characters in quotes.
fn part_line(alloc: Global, part: &Part) -> Result<String, Fail> {
    match part {
        Part::Var(name) => Ok(name.to_string(alloc)?),
        Part::Quoted(text) => Ok(format!(in alloc; "'{}'", str::from_utf8(text.bytes())?)?),
    }
}

fn tell_part(alloc: Global, part: &Part, line: &mut String) -> Result<(), Fail> {
    line.push_str(part_line(alloc, part)?.as_str())?;
    Ok(line.push_str(";")?)
}

fn object_line(alloc: Global, object: &Object) -> Result<String, Fail> {
    let mut line = String::new(alloc);
    for part in object.parts() {
        tell_part(alloc, part, &mut line)?;
    }
    Ok(line)
}

// The parts of the object that is written, where P is a definition.
fn object_line_of(alloc: Global, written: &[u8]) -> Result<String, Fail> {
    let object = read_object(alloc, &names_of(alloc, &["P"])?, written)?;
    object_line(alloc, &object)
}

#[test]
fn parts_of_an_object(rt: HostRuntime) -> Result<(), Fail> {
    let line = object_line_of(rt.alloc(), b" V '=' K ")?;
    check_eq(&rt, &line.as_str(), &"V;'=';K;");
    Ok(())
}
