//! Arguments, documents and runs between bytes.
ghost use Rattle.sno_rewrite.specs.Runs.{AreInLimits};

use crate::compare::{check_eq, check_text};
use sno_rewrite::{Options, Report, RunFault, run, run_serial};
use std::alloc::Global;
use std::io::Read;
use std::process::Abort;
use std::sync::Wait;
use std::test::Fail;
use std::thread::Threads;

/// The options without any argument.
pub(crate) const PLAIN: Options = Options {
    anchor: false,
    workers: None,
    tries: 100,
    json: false,
    trials: 1_000_000,
};

/// Three statements: two on two texts, and one on a text that isn't there.
pub(crate) const THREE_STATEMENTS: &str =
    r#"{"texts":[{"name":"A","text":"k=v"},{"name":"B","text":"aaab"}],"statements":[{"text":"A","pattern":"BREAK('=') . K '=' REM . V","object":"V '=' K"},{"text":"B","pattern":"SPAN('a') 'a'"},{"text":"C","pattern":"'x'"}]}"#;

/// The arguments between blanks.
pub(crate) fn words_of(alloc: Global, line: &str) -> Result<Vec<String>, Fail> {
    let mut words = Vec::new(alloc);
    for word in line.split_whitespace() {
        words.push(String::from_str(alloc, word)?)?;
    }
    Ok(words)
}

/// The result of the run of what the reader gives, and what is written.
pub(crate) fn result_of<R: Threads + Wait + AllocGlobal + Sync, I: Read + Drop>(
    rt: &R,
    reader: I,
    options: &Options,
) -> (Result<u8, RunFault>, Vec<u8>)
    requires { AreInLimits options.now }
{
    let mut reader = reader;
    let mut written = Vec::new(rt.alloc());
    let returned = run(rt, rt.alloc(), &mut reader, &mut written, options);
    (returned, written)
}

/// What the run of the document writes, and its status.
pub(crate) fn written<R: Threads + Wait + AllocGlobal + Sync>(
    rt: &R,
    document: &str,
    options: &Options,
) -> Result<(Vec<u8>, u8), Fail>
    requires { AreInLimits options.now }
{
    let (returned, written) = result_of(rt, document.as_bytes(), options);
    Ok((written, returned?))
}

/// Checks that the run of the document writes this listing, and ends with this status.
pub(crate) fn check_written<R: Threads + Wait + Abort + AllocGlobal + Sync>(
    rt: &R,
    document: &str,
    options: &Options,
    listing: &str,
    status: u8,
) -> Result<(), Fail>
    requires { AreInLimits options.now }
{
    let (bytes, ended) = written(rt, document, options)?;
    check_text(rt, document, &bytes, listing);
    check_eq(rt, document, &ended, &status);
    Ok(())
}

/// Checks that the report has this listing, and this many refused statements.
pub(crate) fn check_report(
    rt: &impl Abort,
    document: &str,
    report: &Report,
    listing: &str,
    refused: usize,
) {
    check_text(rt, document, &report.bytes, listing);
    check_eq(rt, document, &report.refused, &refused);
}

/// Checks the report of the document's serial run.
pub(crate) fn check_serial(
    rt: &(impl Abort + AllocGlobal),
    document: &str,
    options: &Options,
    listing: &str,
    refused: usize,
) -> Result<(), Fail>
    requires { AreInLimits options.now }
{
    let report = run_serial(rt.alloc(), document.as_bytes(), options)?;
    check_report(rt, document, &report, listing, refused);
    Ok(())
}
