//! Runs with workers.
ghost use Rattle.std.specs.Prelude.{◌≤◌, IfSome};
ghost use Rattle.sno_rewrite.specs.Runs.{AreInLimits};
ghost use Rattle.sno_rewrite.specs.declared.options.TheConstants.{MAX_WORKERS};

use crate::compare::{check_eq, check_text};
use crate::runs::{PLAIN, THREE_STATEMENTS, result_of, written};
use sno_rewrite::{DocumentFault, Options, Report, RunFault, run_serial, run_shared};
use std::alloc::Global;
use std::process::Abort;
use std::str;
use std::sync::Wait;
use std::test::Fail;
use std::thread::Threads;

// Either of two statements on two texts may be the first.
const A_FIRST: &str =
    "texts 2\nA 1 |v=k|\nB 0 |aaab|\nentries 2\n0 statement 1 A 0 matched 0 3\n  K = |k|\n  V = |v|\n  -> |v=k|\n1 statement 2 B 0 failed\nrefused 1\nstatement 3 no text\n";

const B_FIRST: &str =
    "texts 2\nA 1 |v=k|\nB 0 |aaab|\nentries 2\n0 statement 2 B 0 failed\n1 statement 1 A 0 matched 0 3\n  K = |k|\n  V = |v|\n  -> |v=k|\nrefused 1\nstatement 3 no text\n";

// Both statements are on one text. The second finds what the first left there, or the first what the second left.
const ONE_TEXT: &str =
    r#"{"texts":[{"name":"A","text":"ab"}],"statements":[{"text":"A","pattern":"'a'","object":"'aa'"},{"text":"A","pattern":"'b'","object":"'bb'"}]}"#;

const FIRST_FIRST: &str =
    "texts 1\nA 2 |aabb|\nentries 2\n0 statement 1 A 0 matched 0 1\n  -> |aab|\n1 statement 2 A 1 matched 2 3\n  -> |aabb|\nrefused 0\n";

const SECOND_FIRST: &str =
    "texts 1\nA 2 |aabb|\nentries 2\n0 statement 2 A 0 matched 1 2\n  -> |abb|\n1 statement 1 A 1 matched 0 1\n  -> |aabb|\nrefused 0\n";

fn options_of(workers: Option<u32>) -> Options
    requires { IfSome workers (λ n. (1 ≤ n) × (n ≤ MAX_WORKERS)) }
    ensures { AreInLimits result }
{
    Options { workers, ..PLAIN }
}

// The report of a run with this many workers.
fn shared<R: Threads + Wait + AllocGlobal + Sync>(
    rt: &R,
    document: &str,
    workers: Option<u32>,
) -> Result<Report, Fail>
    requires { IfSome workers (λ n. (1 ≤ n) × (n ≤ MAX_WORKERS)) }
{
    let options = options_of(workers);
    Ok(run_shared(rt, rt.alloc(), document.as_bytes(), &options)?)
}

fn serial(alloc: Global, document: &str) -> Result<Report, Fail> {
    let options = options_of(None);
    Ok(run_serial(alloc, document.as_bytes(), &options)?)
}

// Checks that the listing is one of these two.
fn check_either(rt: &impl Abort, listing: &[u8], one: &str, other: &str) {
    let text = str::from_utf8(listing).unwrap_or_default();
    let expected = listing == one.as_bytes() || listing == other.as_bytes();
    assert!(rt; expected, "{text}");
}

// From 2 to 16 workers, more than there are statements: each statement is listed once, in one of the two orders.
#[test]
fn workers_list_each_statement_once(rt: HostRuntime) -> Result<(), Fail> {
    for workers in 2..17 {
        let (listing, status) = written(&rt, THREE_STATEMENTS, &options_of(Some(workers)))?;
        check_eq(&rt, THREE_STATEMENTS, &status, &1);
        check_either(&rt, &listing, A_FIRST, B_FIRST);
    }
    Ok(())
}

// Two statements on one text are performed one after the other.
#[test]
fn workers_share_a_text(rt: HostRuntime) -> Result<(), Fail> {
    for workers in 1..6 {
        let report = shared(&rt, ONE_TEXT, Some(workers))?;
        check_eq(&rt, ONE_TEXT, &report.refused, &0);
        check_either(&rt, &report.bytes, FIRST_FIRST, SECOND_FIRST);
    }
    Ok(())
}

// The first statement fails only after tens of thousands of ways were tried, and the second matches at once.
const SLOW_AND_QUICK: &str =
    r#"{"texts":[{"name":"A","text":"aaaaaaaaaaaaaaaa"},{"name":"B","text":"b"}],"statements":[{"text":"A","pattern":"ARBNO(ARBNO('a')) 'b'","anchored":true},{"text":"B","pattern":"'b'"}]}"#;

const QUICK_FIRST: &str =
    "texts 2\nA 0 |aaaaaaaaaaaaaaaa|\nB 0 |b|\nentries 2\n0 statement 2 B 0 matched 0 1\n1 statement 1 A 0 failed\nrefused 0\n";

// Two workers are at work at once: in one of many runs the second statement is accepted while the first is still matched. One worker for
// all statements, or one worker after the other, would list the first statement first each time.
#[test]
fn two_workers_overlap(rt: HostRuntime) -> Result<(), Fail> {
    let options = options_of(Some(2));
    for _ in 0..100 {
        let (listing, _) = written(&rt, SLOW_AND_QUICK, &options)?;
        if listing.as_slice() == QUICK_FIRST.as_bytes() {
            return Ok(());
        }
    }
    Err("the first statement was the first entry each time".into())
}

fn check_same(rt: &impl Abort, document: &str, shared: &Report, serial: &Report) {
    check_eq(
        rt,
        document,
        &shared.bytes.as_slice(),
        &serial.bytes.as_slice(),
    );
    check_eq(rt, document, &shared.refused, &serial.refused);
}

fn check_order<R: Threads + Wait + Abort + AllocGlobal + Sync>(
    rt: &R,
    document: &str,
    workers: Option<u32>,
) -> Result<(), Fail>
    requires { IfSome workers (λ n. (1 ≤ n) × (n ≤ MAX_WORKERS)) }
{
    let serial = serial(rt.alloc(), document)?;
    let shared = shared(rt, document, workers)?;
    check_same(rt, document, &shared, &serial);
    Ok(())
}

// One worker performs the statements in their order, even if no number of workers is asked for.
#[test]
fn one_worker_keeps_the_order(rt: HostRuntime) -> Result<(), Fail> {
    for document in [THREE_STATEMENTS, ONE_TEXT] {
        check_order(&rt, document, None)?;
        check_order(&rt, document, Some(1))?;
    }
    Ok(())
}

// A fault of the document is returned as without workers, and nothing is written.
#[test]
fn workers_return_the_documents_fault(rt: HostRuntime) {
    let (returned, written) = result_of(&rt, b"[]".as_slice(), &options_of(Some(2)));
    check_eq(
        &rt,
        "[]",
        &returned,
        &Err(RunFault::Document(DocumentFault::Shape)),
    );
    check_text(&rt, "[]", &written, "");
}
