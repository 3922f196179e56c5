//! The lines of the program.
use crate::faults::Fault;
use crate::findings::{Findings, findings_of};
use crate::load::run_load;
use crate::timing::time_desk;
use crate::words::{Load, Times};
use std::alloc::Global;
use std::io;
use std::sync::Wait;
use std::thread::Threads;
use std::time::{Clock, Duration};

/// How many texts the timed desks have.
static TEXTS: [usize; 2] = [10, 1_000];

/// How many entries their journals begin with.
static ENTRIES: [u32; 2] = [0, 100_000];

/// The result of printing, as a fault of the program.
fn result_of_printing(printed: io::Result<()>) -> Result<(), Fault> {
    printed.map_err(|_| Fault::Write)
}

/// A count per second.
fn a_second(count: u64, took: Duration) -> u128 {
    u128::from(count).saturating_mul(1_000_000_000) / took.as_nanos().max(1)
}

fn print_findings<R: Print>(rt: &R, load: Load, findings: Findings) -> io::Result<()> {
    let submits = load.submits;
    let Findings {
        entries,
        receipts,
        ..
    } = findings;
    println!(rt; "submits {submits}")?;
    println!(rt; "entries {entries}")?;
    println!(rt; "receipts in the journal {receipts}")?;
    println!(rt; "versions never went down")
}

fn print_rates<R: Print>(rt: &R, load: Load, findings: Findings, took: Duration) -> io::Result<()> {
    let milliseconds = took.as_millis();
    let submits = a_second(u64::from(load.submits), took);
    let snapshots = a_second(findings.snapshots, took);
    println!(rt; "milliseconds {milliseconds}")?;
    println!(rt; "submits a second {submits}")?;
    println!(rt; "snapshots a second {snapshots}")
}

/// Puts a desk under the load, and prints the findings, and the rates if they are wanted.
pub(crate) fn print_load<R: Print + Threads + Wait + Clock + AllocGlobal + Sync>(
    rt: &R,
    load: Load,
    is_timed: bool,
) -> Result<(), Fault> {
    let rest = run_load(rt, rt.alloc(), load)?;
    let findings = findings_of(rt.alloc(), &rest)?;
    result_of_printing(print_findings(rt, load, findings))?;
    if is_timed {
        result_of_printing(print_rates(rt, load, findings, rest.took))?;
    }
    Ok(())
}

/// Prints the line of each timed desk.
pub(crate) fn print_times<R: Print + Wait + Clock + AllocGlobal>(
    rt: &R,
    times: Times,
) -> Result<(), Fault> {
    for entries in ENTRIES {
        for texts in TEXTS {
            print_line(rt, rt.alloc(), texts, entries, times)?;
        }
    }
    Ok(())
}

/// Prints the line of one desk.
fn print_line<R: Print + Wait + Clock>(
    rt: &R,
    alloc: Global,
    texts: usize,
    entries: u32,
    times: Times,
) -> Result<(), Fault> {
    let timed = time_desk(rt, alloc, texts, entries, times)?;
    let snapshot = timed.snapshot;
    let commit = timed.commit;
    result_of_printing(println!(rt;
        "snapshot {snapshot} commit {commit} texts {texts} entries {entries}"
    ))
}
