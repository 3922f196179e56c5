//! Command lines and the options that they give.
use crate::compare::{check_beginning, check_eq, check_part, check_text};
use crate::runs::{PLAIN, words_of};
use sno_rewrite::{Options, OptionsFault, options_of};
use std::alloc::Global;
use std::process::Abort;
use std::test::Fail;

fn result_of(alloc: Global, line: &str) -> Result<Result<Options, OptionsFault>, Fail> {
    let words = words_of(alloc, line)?;
    Ok(options_of(alloc, &words))
}

// The text that refuses a line. `None` if the line is not refused.
fn refusal_of(alloc: Global, line: &str) -> Result<Option<String>, Fail> {
    match result_of(alloc, line)? {
        Err(OptionsFault::Usage(text)) => Ok(Some(text)),
        _ => Ok(None),
    }
}

// The help that a line asks for. `None` if it doesn't ask for help.
fn help_of(alloc: Global, line: &str) -> Result<Option<String>, Fail> {
    match result_of(alloc, line)? {
        Err(OptionsFault::Help(text)) => Ok(Some(text)),
        _ => Ok(None),
    }
}

// Each option alone, at its limits, and all together in any order.
static GIVEN: [(&'static str, Options); 10] = [
    ("", PLAIN),
    (
        "--anchor",
        Options {
            anchor: true,
            ..PLAIN
        },
    ),
    (
        "--json",
        Options {
            json: true,
            ..PLAIN
        },
    ),
    (
        "--workers 1",
        Options {
            workers: Some(1),
            ..PLAIN
        },
    ),
    (
        "--workers=16",
        Options {
            workers: Some(16),
            ..PLAIN
        },
    ),
    ("--tries 1", Options { tries: 1, ..PLAIN }),
    (
        "--tries 1000",
        Options {
            tries: 1_000,
            ..PLAIN
        },
    ),
    ("--trials 1", Options { trials: 1, ..PLAIN }),
    (
        "--trials=1000000000",
        Options {
            trials: 1_000_000_000,
            ..PLAIN
        },
    ),
    (
        "--json --tries=7 --trials 5 --anchor --workers 3",
        Options {
            anchor: true,
            workers: Some(3),
            tries: 7,
            json: true,
            trials: 5,
        },
    ),
];

fn check_given(rt: &(impl Abort + AllocGlobal), line: &str, options: &Options) -> Result<(), Fail> {
    let given = result_of(rt.alloc(), line)??;
    check_eq(rt, line, &given, options);
    Ok(())
}

#[test]
fn lines_give_options(rt: HostRuntime) -> Result<(), Fail> {
    for (line, options) in &GIVEN {
        check_given(&rt, line, options)?;
    }
    Ok(())
}

// A value past a limit, a value that is not a number, an argument that is not an option, and an option twice or without
// its value.
static REFUSED: [&'static str; 18] = [
    "--workers 0",
    "--workers 17",
    "--workers x",
    "--workers",
    "--workers=",
    "--workers 1 --workers 2",
    "--workers 4294967296",
    "--tries 0",
    "--tries 1001",
    "--tries x",
    "--tries -1",
    "--tries",
    "--trials 0",
    "--trials 1000000001",
    "--json=yes",
    "--quick",
    "-q",
    "document.json",
];

// Checks that the text that refuses the line says that it is an error, and how to get help.
fn check_refused(rt: &(impl Abort + AllocGlobal), line: &str) -> Result<(), Fail> {
    let text = refusal_of(rt.alloc(), line)?.ok_or("not refused")?;
    check_beginning(rt, line, &text, "error: ");
    check_part(rt, line, &text, "try '--help'.");
    Ok(())
}

#[test]
fn lines_are_refused(rt: HostRuntime) -> Result<(), Fail> {
    for line in &REFUSED {
        check_refused(&rt, line)?;
    }
    Ok(())
}

// What help names: the program and each option.
static HELPED: [&'static str; 13] = [
    "sno_rewrite",
    "--workers <N>",
    "1 to 16",
    "--tries <N>",
    "1 to 1000",
    "[default: 100]",
    "--trials <N>",
    "1 to 1000000000",
    "[default: 1000000]",
    "--anchor",
    "--json",
    "--help",
    "--version",
];

fn check_parts(rt: &impl Abort, line: &str, text: &str) {
    for part in &HELPED {
        check_part(rt, line, text, part);
    }
}

fn check_help(rt: &(impl Abort + AllocGlobal), line: &str) -> Result<(), Fail> {
    let text = help_of(rt.alloc(), line)?.ok_or("no help")?;
    check_parts(rt, line, &text);
    Ok(())
}

#[test]
fn help_names_each_option(rt: HostRuntime) -> Result<(), Fail> {
    check_help(&rt, "--help")?;
    check_help(&rt, "-h")?;
    check_help(&rt, "--json --help")
}

fn check_version(rt: &(impl Abort + AllocGlobal), line: &str) -> Result<(), Fail> {
    let text = help_of(rt.alloc(), line)?.ok_or("no version")?;
    check_text(rt, line, text.as_bytes(), "sno_rewrite 1.0.0\n");
    Ok(())
}

#[test]
fn the_version_is_one_line(rt: HostRuntime) -> Result<(), Fail> {
    check_version(&rt, "--version")?;
    check_version(&rt, "-V")
}
