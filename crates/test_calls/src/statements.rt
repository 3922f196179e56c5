//! What a statement is given, and what it makes of the bytes of a file.
ghost use Rattle.std.specs.Prelude.{IfOk, IsSome};

use crate::byte_texts::bytes_of;
use crate::written::{check_eq, no_rules, pattern_of, rule_pattern_of};
use sno_pattern::TextName;
use sno_read::{read_object, read_rule_object};
use sno_statement::{FileStatement, FileStatementFault, Rewritten, Statement, rewrite};
use std::alloc::Global;
use std::process::Abort;
use std::test::Fail;

// The statement that replaces what the pattern matches by the object.
fn replacing(alloc: Global, pattern: &str, object: &str) -> Result<Statement, Fail>
    ensures { IfOk result (λ s. IsSome s.object) }
{
    let text = TextName::new(alloc, b"T".as_slice())?;
    let rules = no_rules(alloc)?;
    let object = read_object(alloc, rules.names(), object.as_bytes())?;
    let pattern = pattern_of(alloc, &rules, pattern)?;
    Ok(Statement::new(
        1,
        rules,
        Box::into_inner(pattern),
        Some(object),
        text,
        false,
    ))
}

// The statement that replaces an `a` by a `b` at most so often, 1 to 1,000 times.
fn repeated(alloc: Global, rounds: u32) -> Result<Statement, Fail> {
    if rounds < 1 || 1_000 < rounds {
        return Err("1 to 1000 rounds are wanted".into());
    }
    Ok(replacing(alloc, "'a'", "'b'")?.repeated(rounds))
}

fn bounds(statement: &Statement) -> (u32, Option<u32>) {
    (statement.limit(), statement.repeat())
}

fn check_bounds(rt: &impl Abort, often: Statement) {
    check_eq(rt, &bounds(&often), &(1_000_000, Some(7)));
    check_eq(rt, &bounds(&often.limited(7)), &(7, Some(7)));
}

#[test]
fn a_statement_has_the_limit_and_the_rounds_that_it_is_given(rt: HostRuntime) -> Result<(), Fail> {
    check_bounds(&rt, repeated(rt.alloc(), 7)?);
    Ok(())
}

fn ways(statement: &Statement) -> (bool, Option<u32>) {
    (statement.is_for_all(), statement.repeat())
}

fn check_ways(rt: &impl Abort, often: Statement) {
    check_eq(rt, &often.is_for_all(), &false);
    let all = often.for_all();
    check_eq(rt, &ways(&all), &(true, None));
    assert!(rt; all.object().is_some());
    check_eq(rt, &ways(&all.repeated(3)), &(false, Some(3)));
}

#[test]
fn a_statement_for_all_matches_is_not_repeated(rt: HostRuntime) -> Result<(), Fail> {
    check_ways(&rt, repeated(rt.alloc(), 7)?);
    Ok(())
}

// Compares how many matches there were, and the new text, or the null string if there is none.
fn check_left(rt: &impl Abort, rewritten: &Rewritten, matches: u64, wanted: &[u8]) {
    check_eq(rt, &rewritten.matches, &matches);
    match &rewritten.after {
        None => assert!(rt; wanted.is_empty()),
        Some(after) => assert!(rt; after.bytes() == wanted),
    }
}

// Compares what a statement makes of these bytes with this limit.
fn check_rewritten(
    rt: &impl Abort,
    alloc: Global,
    statement: &FileStatement,
    bytes: &[u8],
    trials: u32,
    left: (u64, &[u8]),
) -> Result<(), Fail> {
    let text = bytes_of(alloc, bytes)?;
    let rewritten = rewrite(alloc, statement, &text, trials)?;
    check_left(rt, &rewritten, left.0, left.1);
    Ok(())
}

// The statement that doubles one byte, whichever it is.
fn doubling(alloc: Global) -> Result<FileStatement, Fail> {
    Ok(FileStatement::of(alloc, replacing(alloc, "LEN(1) . B", "B B")?)?)
}

fn check_doubled(
    rt: &impl Abort,
    alloc: Global,
    statement: &FileStatement,
    left: (u64, &[u8]),
) -> Result<(), Fail> {
    check_rewritten(rt, alloc, statement, &[195, 169, 0], 1_000, left)
}

#[test]
fn any_bytes_of_a_file_are_rewritten(rt: HostRuntime) -> Result<(), Fail> {
    let alloc = rt.alloc();
    let once = doubling(alloc)?;
    check_doubled(&rt, alloc, &once, (1, &[195, 195, 169, 0]))?;
    let all = once.for_all();
    check_doubled(&rt, alloc, &all, (3, &[195, 195, 169, 169, 0, 0]))
}

// The statement that is repeated, for files.
fn repeated_in_files(alloc: Global, rounds: u32) -> Result<FileStatement, Fail> {
    Ok(FileStatement::of(alloc, repeated(alloc, rounds)?)?)
}

fn check_rounds(rt: &impl Abort, alloc: Global, often: &FileStatement) -> Result<(), Fail> {
    check_rewritten(rt, alloc, often, b"aaa", 1_000, (2, b"bba"))?;
    check_rewritten(rt, alloc, often, b"ca", 1_000, (1, b"cb"))?;
    check_rewritten(rt, alloc, often, b"c", 1_000, (0, b""))
}

#[test]
fn a_file_is_rewritten_in_rounds(rt: HostRuntime) -> Result<(), Fail> {
    let often = repeated_in_files(rt.alloc(), 2)?;
    check_rounds(&rt, rt.alloc(), &often)
}

// Checks that this limit is too low for the bytes.
fn check_refused(
    rt: &impl Abort,
    alloc: Global,
    statement: &FileStatement,
    bytes: &[u8],
    trials: u32,
) -> Result<(), Fail> {
    let text = bytes_of(alloc, bytes)?;
    let fault = rewrite(alloc, statement, &text, trials).err();
    check_eq(rt, &fault, &Some(FileStatementFault::TooManyTrials));
    Ok(())
}

#[test]
fn the_limit_for_a_file_is_the_one_that_is_given(rt: HostRuntime) -> Result<(), Fail> {
    let alloc = rt.alloc();
    let once = repeated_in_files(alloc, 1)?;
    check_refused(&rt, alloc, &once, b"cca", 2)?;
    let limited = once.limited(2);
    check_rewritten(&rt, alloc, &limited, b"cca", 3, (1, b"ccb"))
}

// The statement that replaces each é by an è, with literals that are read as those of a rule.
fn literals(alloc: Global) -> Result<FileStatement, Fail> {
    let text = TextName::new(alloc, b"T".as_slice())?;
    let rules = no_rules(alloc)?;
    let object = read_rule_object(alloc, rules.names(), &[39, 195, 168, 39])?;
    let pattern = rule_pattern_of(alloc, &rules, &[39, 195, 169, 39])?;
    let search = Statement::new(1, rules, Box::into_inner(pattern), None, text, false);
    Ok(FileStatement::new(search, Some(object)).for_all())
}

fn is_for_texts(alloc: Global, statement: FileStatement) -> Result<bool, Fail> {
    Ok(statement.for_texts(alloc)?.is_some())
}

#[test]
fn literals_of_rules_have_any_bytes(rt: HostRuntime) -> Result<(), Fail> {
    let alloc = rt.alloc();
    let statement = literals(alloc)?;
    let left: (u64, &[u8]) = (2, &[195, 168, 120, 195, 168]);
    check_rewritten(
        &rt,
        alloc,
        &statement,
        &[195, 169, 120, 195, 169],
        1_000,
        left,
    )?;
    // It is none for texts.
    check_eq(&rt, &is_for_texts(alloc, statement)?, &false);
    Ok(())
}

fn check_in_files(rt: &impl Abort, often: &FileStatement) {
    check_eq(rt, &often.repeat(), &Some(7));
    assert!(rt; often.object().is_some());
}

fn check_in_texts(rt: &impl Abort, again: &Statement) {
    check_eq(rt, &again.repeat(), &Some(7));
    assert!(rt; again.object().is_some());
}

fn in_texts(alloc: Global, statement: FileStatement) -> Result<Statement, Fail> {
    Ok(statement.for_texts(alloc)?.ok_or("the object is ASCII")?)
}

#[test]
fn a_statement_for_files_may_be_one_for_texts(rt: HostRuntime) -> Result<(), Fail> {
    let often = repeated_in_files(rt.alloc(), 7)?;
    check_in_files(&rt, &often);
    check_in_texts(&rt, &in_texts(rt.alloc(), often)?);
    Ok(())
}
