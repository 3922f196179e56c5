//! What each fault prints. The faults of what is written, apart from running out of memory, are printed by the examples of `test_examples`.
use crate::written::check_eq;
use sno_machine::MatchFault;
use sno_pattern::{NameFault, NamesFault, RulesFault, TextFault};
use sno_read::ReadFault;
use sno_statement::StatementFault;
use std::alloc::Global;
use std::fmt::Display;
use std::process::Abort;
use std::test::Fail;

fn check(rt: &impl Abort, alloc: Global, fault: &impl Display, line: &str) -> Result<(), Fail> {
    let printed = format!(in alloc; "{fault}")?;
    check_eq(rt, &printed.as_str(), &line);
    Ok(())
}

#[test]
fn faults_of_names(rt: HostRuntime) -> Result<(), Fail> {
    let alloc = rt.alloc();
    check(&rt, alloc, &NameFault::Bad, "bad name")?;
    check(&rt, alloc, &NameFault::Memory, "out of memory")?;
    check(&rt, alloc, &NamesFault::TooMany, "too many")?;
    check(&rt, alloc, &NamesFault::Reserved(3), "reserved name at 3")?;
    check(&rt, alloc, &NamesFault::Duplicate(12), "duplicate at 12")?;
    check(&rt, alloc, &NamesFault::Memory, "out of memory")
}

#[test]
fn faults_of_texts_and_definitions(rt: HostRuntime) -> Result<(), Fail> {
    let alloc = rt.alloc();
    let cycle = RulesFault::Unguarded(vec![in alloc; 1, 2]?);
    let reference = RulesFault::BadRef(12);
    check(&rt, alloc, &TextFault::TooLong, "too long")?;
    check(&rt, alloc, &TextFault::NonAscii(12), "not ASCII at 12")?;
    check(&rt, alloc, &reference, "bad reference in definition 12")?;
    check(&rt, alloc, &cycle, "unguarded")?;
    check(&rt, alloc, &RulesFault::Memory, "out of memory")?;
    check(&rt, alloc, &ReadFault::Memory, "out of memory")
}

#[test]
fn faults_of_matches(rt: HostRuntime) -> Result<(), Fail> {
    let alloc = rt.alloc();
    check(&rt, alloc, &MatchFault::TooManyTrials, "too many trials")?;
    check(&rt, alloc, &MatchFault::Memory, "out of memory")?;
    check(&rt, alloc, &StatementFault::TextTooLong, "text too long")?;
    check(
        &rt,
        alloc,
        &StatementFault::TooManyTrials,
        "too many trials",
    )?;
    check(&rt, alloc, &StatementFault::Memory, "out of memory")
}
