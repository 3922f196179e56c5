//! What each fault prints.
use crate::compare::check_eq;
use sno_book::{BookFault, CommitFault as BookRefusal, SnapshotFault as BookMiss};
use sno_desk::{
    CloseFault, CommitFault, DeskFault, LookFault, SinceFault, SnapshotFault, SubmitFault,
    WorkersFault,
};
use sno_published::{PublishFault, ViewFault};
use std::alloc::Global;
use std::fmt::Display;
use std::process::Abort;
use std::test::Fail;

fn check(rt: &impl Abort, alloc: Global, fault: &impl Display, line: &str) -> Result<(), Fail> {
    let printed = format!(in alloc; "{fault}")?;
    check_eq(rt, &printed.as_str(), &line);
    Ok(())
}

#[test]
fn faults_of_commits(rt: HostRuntime) -> Result<(), Fail> {
    let alloc = rt.alloc();
    let changed = CommitFault::Changed { seen: 3, now: 12 };
    check(&rt, alloc, &CommitFault::NoText, "no text")?;
    check(&rt, alloc, &changed, "changed from version 3 to 12")?;
    check(&rt, alloc, &CommitFault::Stopped, "stopped")?;
    check(&rt, alloc, &CommitFault::Full, "full")?;
    check(&rt, alloc, &CommitFault::Memory, "out of memory")
}

#[test]
fn faults_of_submits(rt: HostRuntime) -> Result<(), Fail> {
    let alloc = rt.alloc();
    let spent = SubmitFault::TriesSpent { seen: 3, now: 12 };
    check(&rt, alloc, &SubmitFault::NoText, "no text")?;
    check(&rt, alloc, &SubmitFault::GateShut, "gate shut")?;
    check(&rt, alloc, &SubmitFault::TextTooLong, "text too long")?;
    check(&rt, alloc, &SubmitFault::TooManyTrials, "too many trials")?;
    check(&rt, alloc, &SubmitFault::Stopped, "stopped")?;
    check(&rt, alloc, &SubmitFault::Full, "full")?;
    check(&rt, alloc, &SubmitFault::Memory, "out of memory")?;
    check(&rt, alloc, &spent, "tries spent at version 12, seen 3")
}

#[test]
fn faults_of_looks(rt: HostRuntime) -> Result<(), Fail> {
    let alloc = rt.alloc();
    check(&rt, alloc, &LookFault::NoText, "no text")?;
    check(&rt, alloc, &LookFault::Stopped, "stopped")?;
    check(&rt, alloc, &SinceFault::Stopped, "stopped")?;
    check(&rt, alloc, &SinceFault::Memory, "out of memory")
}

#[test]
fn faults_of_desks(rt: HostRuntime) -> Result<(), Fail> {
    let alloc = rt.alloc();
    check(&rt, alloc, &SnapshotFault::NoText, "no text")?;
    check(&rt, alloc, &SnapshotFault::Stopped, "stopped")?;
    check(&rt, alloc, &SnapshotFault::Memory, "out of memory")?;
    check(&rt, alloc, &DeskFault::NoReader, "no place for a reader")?;
    check(&rt, alloc, &DeskFault::Memory, "out of memory")?;
    check(&rt, alloc, &WorkersFault::Memory, "out of memory")?;
    check(&rt, alloc, &CloseFault::Opening, "another opening")?;
    check(&rt, alloc, &CloseFault::Journal, "another journal")
}

#[test]
fn faults_of_books(rt: HostRuntime) -> Result<(), Fail> {
    let alloc = rt.alloc();
    let changed = BookRefusal::Changed { seen: 3, now: 12 };
    check(&rt, alloc, &BookFault::TooMany, "too many")?;
    check(&rt, alloc, &BookFault::Duplicate(12), "duplicate at 12")?;
    check(&rt, alloc, &BookFault::Memory, "out of memory")?;
    check(&rt, alloc, &BookMiss::NoText, "no text")?;
    check(&rt, alloc, &BookMiss::Memory, "out of memory")?;
    check(&rt, alloc, &BookRefusal::NoText, "no text")?;
    check(&rt, alloc, &changed, "changed from version 3 to 12")?;
    check(&rt, alloc, &BookRefusal::Full, "full")?;
    check(&rt, alloc, &BookRefusal::Memory, "out of memory")
}

#[test]
fn faults_of_viewers(rt: HostRuntime) -> Result<(), Fail> {
    let alloc = rt.alloc();
    let is_less = "the screen shows less than was seen";
    check(&rt, alloc, &ViewFault::Ended, "the screen has ended")?;
    check(&rt, alloc, &ViewFault::Older, is_less)?;
    check(&rt, alloc, &ViewFault::Memory, "out of memory")?;
    check(&rt, alloc, &PublishFault::Memory, "out of memory")?;
    let stopped = "nothing more can be published";
    check(&rt, alloc, &PublishFault::Stopped, stopped)
}
