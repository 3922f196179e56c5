//! Options and whole runs.
ghost use Rattle.std.specs.Prelude.{IfSome, ◌≤◌};
ghost use Rattle.sno_rewrite.specs.Runs.{AreInLimits};

use crate::call_ends::{CallEnd, check_bytes, check_eq, tell, tell_ready, tell_twice};
use sno_rewrite::{
    Options, OptionsFault, Report, RunFault, options_of, run, run_serial, run_shared,
};
use std::alloc::Global;
use std::process::Abort;
use std::sync::Wait;
use std::test::Fail;
use std::thread::Threads;

/// Three statements: two on two texts, and one on a text that isn't there.
const DOCUMENT: &str =
    r#"{"texts":[{"name":"A","text":"k=v"},{"name":"B","text":"aaab"}],"statements":[{"text":"A","pattern":"BREAK('=') . K '=' REM . V","object":"V '=' K"},{"text":"B","pattern":"SPAN('a') 'a'"},{"text":"C","pattern":"'x'"}]}"#;

/// How the listing begins; the order of the entries is left to the workers.
const BEGINNING: &str = "texts 2\nA 1 |v=k|\nB 0 |aaab|\nentries 2\n";

const LISTING: &str =
    "texts 2\nA 1 |v=k|\nB 0 |aaab|\nentries 2\n0 statement 1 A 0 matched 0 3\n  K = |k|\n  V = |v|\n  -> |v=k|\n1 statement 2 B 0 failed\nrefused 1\nstatement 3 no text\n";

/// The document's bytes: whoever calls this needs no proof about each of them.
fn document() -> &'static [u8] {
    DOCUMENT.as_bytes()
}

fn listing() -> &'static [u8] {
    LISTING.as_bytes()
}

fn beginning() -> &'static [u8] {
    BEGINNING.as_bytes()
}

/// The options that are given by no words.
const PLAIN: Options = Options {
    anchor: false,
    workers: None,
    tries: 100,
    json: false,
    trials: 1_000_000,
};

fn read_words(rt: &impl Abort, alloc: Global, words: &[String]) -> CallEnd {
    match options_of(alloc, words) {
        Ok(options) => {
            check_eq(
                rt,
                &options,
                &Options {
                    json: true,
                    tries: 5,
                    ..PLAIN
                },
            );
            CallEnd::Given
        }
        Err(fault) => {
            assert!(rt; matches!(fault, OptionsFault::Memory));
            CallEnd::Refused
        }
    }
}

#[test]
fn options_are_read(rt: HostRuntime) -> Result<(), Fail> {
    let alloc = rt.alloc();
    let mut words = Vec::new(alloc);
    for word in ["--json", "--tries", "5"] {
        words.push(String::from_str(alloc, word)?)?;
    }
    tell_twice(&rt, || read_words(&rt, alloc, words.as_slice()))
}

/// What the run came to: a report that begins so, or that memory was refused.
fn end_of(rt: &impl Abort, report: Result<Report, RunFault>, beginning: &[u8]) -> CallEnd {
    match report {
        Ok(report) => {
            assert!(rt; report.bytes.starts_with(beginning));
            check_eq(rt, &report.bytes.len(), &listing().len());
            check_eq(rt, &report.refused, &1);
            CallEnd::Given
        }
        Err(fault) => {
            check_eq(rt, &fault, &RunFault::Memory);
            CallEnd::Refused
        }
    }
}

#[test]
fn a_serial_run(rt: HostRuntime) -> Result<(), Fail> {
    let alloc = rt.alloc();
    tell_twice(&rt, || {
        end_of(&rt, run_serial(alloc, document(), &PLAIN), listing())
    })
}

#[test]
fn a_run_shared_by_workers(rt: HostRuntime) -> Result<(), Fail> {
    let options = Options {
        workers: Some(2),
        ..PLAIN
    };
    tell_ready(&rt)?;
    let report = run_shared(&rt, rt.alloc(), document(), &options);
    tell(&rt, end_of(&rt, report, beginning()))
}

/// The run between a reader and a writer that has room for the listing. Where memory is refused nothing is written.
fn run_once<R: Threads + Wait + Abort + Sync>(
    rt: &R,
    alloc: Global,
    mut written: Vec<u8>,
) -> CallEnd {
    let mut reader = document();
    match run(rt, alloc, &mut reader, &mut written, &PLAIN) {
        Ok(status) => {
            check_eq(rt, &status, &1);
            check_bytes(rt, written.as_slice(), listing());
            CallEnd::Given
        }
        Err(fault) => {
            check_eq(rt, &fault, &RunFault::Memory);
            assert!(rt; written.is_empty());
            CallEnd::Refused
        }
    }
}

#[test]
fn a_run(rt: HostRuntime) -> Result<(), Fail> {
    let alloc = rt.alloc();
    let written = Vec::with_capacity(alloc, 1_000)?;
    let written_again = Vec::with_capacity(alloc, 1_000)?;
    tell_ready(&rt)?;
    tell(&rt, run_once(&rt, alloc, written))?;
    tell(&rt, run_once(&rt, alloc, written_again))
}
