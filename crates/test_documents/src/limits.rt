//! Runs of documents whose matches take more trials than they may.
ghost use Rattle.std.specs.Prelude.{◌≤◌, IfSome};
ghost use Rattle.sno_rewrite.specs.Runs.{AreInLimits};
ghost use Rattle.sno_rewrite.specs.declared.options.TheConstants.{MAX_WORKERS};
ghost use Rattle.sno_statement.specs.declared.statements.TheConstants.{MAX_TRIALS};

use crate::runs::{PLAIN, check_written};
use sno_rewrite::Options;
use std::process::Abort;
use std::sync::Wait;
use std::test::Fail;
use std::thread::Threads;

/// A document, how many trials a match may take, its listing, and the status of its run.
#[derive(Clone, Copy)]
struct Limited(&'static str, u32, &'static str, u8);

// The matches of these documents:
//
// - `'b'` takes three trials on aab, one at each start.
// - When `'a'` is replaced by `'b'` on aab again and again, the third round takes four trials and fails.
// - A part that repeats within a part that repeats, before something that isn't there, takes more than a million trials
//   on 30 a.
static LIMITED: [Limited; 8] = [
    Limited(
        r#"{"texts":[{"name":"T","text":"aab"}],"statements":[{"text":"T","pattern":"'b'"}]}"#,
        2,
        "texts 1\nT 0 |aab|\nentries 0\nrefused 1\nstatement 1 too many trials\n",
        1,
    ),
    Limited(
        r#"{"texts":[{"name":"T","text":"aab"}],"statements":[{"text":"T","pattern":"'b'"}]}"#,
        3,
        "texts 1\nT 0 |aab|\nentries 1\n0 statement 1 T 0 matched 2 3\nrefused 0\n",
        0,
    ),
    Limited(
        r#"{"texts":[{"name":"T","text":"aab"}],"statements":[{"text":"T","pattern":"'b'","object":"'c'"},{"text":"T","pattern":"'a'","object":"'b'"}]}"#,
        2,
        "texts 1\nT 1 |bab|\nentries 1\n0 statement 2 T 0 matched 0 1\n  -> |bab|\nrefused 1\nstatement 1 too many trials\n",
        1,
    ),
    Limited(
        r#"{"texts":[{"name":"T","text":"aaaaaaaaaaaaaaaaaaaaaaaaaaaaaa"}],"statements":[{"text":"T","pattern":"ARBNO(ARBNO('a')) 'b'","anchored":true}]}"#,
        1_000_000,
        "texts 1\nT 0 |aaaaaaaaaaaaaaaaaaaaaaaaaaaaaa|\nentries 0\nrefused 1\nstatement 1 too many trials\n",
        1,
    ),
    Limited(
        r#"{"texts":[{"name":"T","text":"aab"}],"statements":[{"text":"T","pattern":"'a'","object":"'b'","repeat":5}]}"#,
        4,
        "texts 1\nT 1 |bbb|\nentries 1\n0 statement 1 T 0 repeated 2\n  -> |bbb|\nrefused 0\n",
        0,
    ),
    Limited(
        r#"{"texts":[{"name":"T","text":"aab"}],"statements":[{"text":"T","pattern":"'a'","object":"'b'","repeat":5}]}"#,
        3,
        "texts 1\nT 0 |aab|\nentries 0\nrefused 1\nstatement 1 too many trials\n",
        1,
    ),
    Limited(
        r#"{"texts":[{"name":"T","text":"aab"}],"statements":[{"text":"T","pattern":"'a'","object":"'x'","all":true}]}"#,
        4,
        "texts 1\nT 1 |xxb|\nentries 1\n0 statement 1 T 0 all 2\n  at 0 1\n  at 1 2\n  -> |xxb|\nrefused 0\n",
        0,
    ),
    Limited(
        r#"{"texts":[{"name":"T","text":"aab"}],"statements":[{"text":"T","pattern":"'a'","object":"'x'","all":true}]}"#,
        3,
        "texts 1\nT 0 |aab|\nentries 0\nrefused 1\nstatement 1 too many trials\n",
        1,
    ),
];

fn options_of(trials: u32, workers: Option<u32>) -> Options
    requires trials { (1 ≤ trials) × (trials ≤ MAX_TRIALS) }
    requires workers { IfSome workers (λ n. (1 ≤ n) × (n ≤ MAX_WORKERS)) }
    ensures { AreInLimits result }
{
    Options {
        trials,
        workers,
        ..PLAIN
    }
}

fn check<R: Threads + Wait + Abort + AllocGlobal + Sync>(
    rt: &R,
    row: &Limited,
    workers: Option<u32>,
) -> Result<(), Fail>
    requires { IfSome workers (λ n. (1 ≤ n) × (n ≤ MAX_WORKERS)) }
{
    let Limited(document, trials, listing, status) = *row;
    let valid = 1 <= trials && trials <= 1_000_000_000;
    assert!(rt; valid);
    let options = options_of(trials, workers);
    check_written(rt, document, &options, listing, status)
}

fn check_all<R: Threads + Wait + Abort + AllocGlobal + Sync>(
    rt: &R,
    rows: &[Limited],
    workers: Option<u32>,
) -> Result<(), Fail>
    requires { IfSome workers (λ n. (1 ≤ n) × (n ≤ MAX_WORKERS)) }
{
    for row in rows {
        check(rt, row, workers)?;
    }
    Ok(())
}

#[test]
fn a_match_that_takes_more_trials_is_refused(rt: HostRuntime) -> Result<(), Fail> {
    check_all(&rt, &LIMITED, None)
}

#[test]
fn workers_refuse_it_too(rt: HostRuntime) -> Result<(), Fail> {
    check_all(&rt, &LIMITED, Some(1))
}
