//! The program, run between bytes: what it prints where, and its status.
use crate::compare::{check_beginning, check_eq, check_part, check_text};
use crate::examples::{FIRST, FIRST_LISTING};
use crate::runs::words_of;
use sno_rewrite::run_program;
use std::env::Args;
use std::io::{ErrorKind, Write};
use std::process::Abort;
use std::sync::Wait;
use std::test::Fail;
use std::thread::Threads;
use std::{io, str};

const JSON_LISTING: &str =
    "{\"entries\":[{\"after\":\"aXc\",\"bindings\":[],\"end\":2,\"entry\":0,\"matched\":true,\"start\":1,\"statement\":1,\"text\":\"T\",\"version\":0}],\"refused\":[],\"texts\":[{\"name\":\"T\",\"text\":\"aXc\",\"version\":1}]}\n";

// How a run of the program ended: its status, its output and its errors.
#[derive(Drop)]
struct Ending {
    status: u8,
    output: Vec<u8>,
    errors: Vec<u8>,
}

fn run_of<R: Threads + Wait + AllocGlobal + Sync>(
    rt: &R,
    words: io::Result<Args>,
    document: &str,
) -> Ending {
    let mut reader = document.as_bytes();
    let mut output = Vec::new(rt.alloc());
    let mut errors = Vec::new(rt.alloc());
    let status = run_program(rt, rt.alloc(), words, &mut reader, &mut output, &mut errors);
    Ending {
        status,
        output,
        errors,
    }
}

// How a run ended with these arguments. The first is the program's name.
fn ending_of<R: Threads + Wait + AllocGlobal + Sync>(
    rt: &R,
    line: &str,
    document: &str,
) -> Result<Ending, Fail> {
    let words = words_of(rt.alloc(), line)?;
    Ok(run_of(rt, Ok(words.into_iter()), document))
}

fn check(rt: &impl Abort, line: &str, ending: &Ending, status: u8, output: &str, errors: &str) {
    check_eq(rt, line, &ending.status, &status);
    check_text(rt, line, &ending.output, output);
    check_text(rt, line, &ending.errors, errors);
}

// Arguments, the first of them the program's name, with a document, the status, the output and the errors.
type Row = (&'static str, &'static str, u8, &'static str, &'static str);

static ENDINGS: [Row; 7] = [
    ("sno_rewrite", FIRST, 0, FIRST_LISTING, ""),
    ("--json", FIRST, 0, FIRST_LISTING, ""),
    ("sno_rewrite --json", FIRST, 0, JSON_LISTING, ""),
    (
        "sno_rewrite --workers 2 --tries 3",
        FIRST,
        0,
        FIRST_LISTING,
        "",
    ),
    (
        "sno_rewrite",
        r#"{"statements":[{"text":"T","pattern":"'b'"}]}"#,
        1,
        "texts 0\nentries 0\nrefused 1\nstatement 1 no text\n",
        "",
    ),
    ("sno_rewrite", "[]", 2, "", "input: wrong shape\n"),
    (
        "sno_rewrite --workers 17",
        FIRST,
        3,
        "",
        "error: '--workers' takes 1 to 16, '--tries' takes 1 to 1000, and '--trials' takes 1 to 1000000000\n\nFor more information, try '--help'.\n",
    ),
];

fn check_endings<R: Threads + Wait + Abort + AllocGlobal + Sync>(
    rt: &R,
    rows: &[Row],
) -> Result<(), Fail> {
    for (line, document, status, output, errors) in rows {
        let ending = ending_of(rt, line, document)?;
        check(rt, line, &ending, *status, output, errors);
    }
    Ok(())
}

#[test]
fn the_program_ends_by_its_words_and_its_input(rt: HostRuntime) -> Result<(), Fail> {
    check_endings(&rt, &ENDINGS)
}

fn check_helped(rt: &impl Abort, ending: &Ending) -> Result<(), Fail> {
    check_eq(rt, "--help", &ending.status, &0);
    check_text(rt, "--help", &ending.errors, "");
    check_part(
        rt,
        "--help",
        str::from_utf8(&ending.output)?,
        "--workers <N>",
    );
    Ok(())
}

fn check_refused(rt: &impl Abort, ending: &Ending) -> Result<(), Fail> {
    check_eq(rt, "--quick", &ending.status, &3);
    check_text(rt, "--quick", &ending.output, "");
    check_beginning(rt, "--quick", str::from_utf8(&ending.errors)?, "error: ");
    Ok(())
}

// Help goes to the output and nothing to the errors; a fault of usage goes to the errors alone.
#[test]
fn help_and_usage_go_their_ways(rt: HostRuntime) -> Result<(), Fail> {
    check_helped(&rt, &ending_of(&rt, "sno_rewrite --help", FIRST)?)?;
    check_refused(&rt, &ending_of(&rt, "sno_rewrite --quick", FIRST)?)
}

// Checks how the program ends if its arguments could not be read.
fn check_no_words<R: Threads + Wait + Abort + AllocGlobal + Sync>(
    rt: &R,
    kind: ErrorKind,
    status: u8,
    errors: &str,
) {
    let ending = run_of(rt, Err(io::Error::from(kind)), FIRST);
    check(rt, "no words", &ending, status, "", errors);
}

// An argument that is not a text is a fault of usage; running out of memory is not.
#[test]
fn words_may_be_none(rt: HostRuntime) {
    let usage = "error: a word is not UTF-8\n\nFor more information, try '--help'.\n";
    check_no_words(&rt, ErrorKind::InvalidData, 3, usage);
    check_no_words(&rt, ErrorKind::OutOfMemory, 4, "out of memory\n");
}

// A writer that takes nothing.
#[derive(Drop)]
struct Closed;

impl Write for Closed {
    fn write(&mut self, _buffer: &[u8]) -> io::Result<usize> {
        Err(io::Error::from(ErrorKind::BrokenPipe))
    }

    fn flush(&mut self) -> io::Result<()> {
        Ok(())
    }
}

// The status if neither the output nor the errors take anything.
fn status_unprinted<R: Threads + Wait + AllocGlobal + Sync>(
    rt: &R,
    line: &str,
    document: &str,
) -> Result<u8, Fail> {
    let words = words_of(rt.alloc(), line)?;
    let mut reader = document.as_bytes();
    Ok(run_program(
        rt,
        rt.alloc(),
        Ok(words.into_iter()),
        &mut reader,
        &mut Closed,
        &mut Closed,
    ))
}

// If a fault can't be printed, its status is the same. If help or a listing can't be printed, the status is 4.
static UNPRINTED: [(&'static str, &'static str, u8); 4] = [
    ("sno_rewrite", "[]", 2),
    ("sno_rewrite --quick", "[]", 3),
    ("sno_rewrite --help", "[]", 4),
    ("sno_rewrite", FIRST, 4),
];

#[test]
fn what_is_not_printed_keeps_its_status(rt: HostRuntime) -> Result<(), Fail> {
    for (line, document, status) in &UNPRINTED {
        check_eq(&rt, line, &status_unprinted(&rt, line, document)?, status);
    }
    Ok(())
}
