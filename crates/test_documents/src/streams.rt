//! Readers and writers that give and take pieces, or fail.
use crate::compare::{check_eq, check_text};
use crate::runs::PLAIN;
use sno_rewrite::{DocumentFault, RunFault, run};
use std::io;
use std::io::{ErrorKind, Read, Write};
use std::process::Abort;
use std::sync::Wait;
use std::test::Fail;
use std::thread::Threads;

const DOCUMENT: &str =
    r#"{"texts":[{"name":"A","text":"k=v"}],"statements":[{"text":"A","pattern":"'='","object":"':'"},{"text":"B","pattern":"'x'"}]}"#;

const LISTING: &str =
    "texts 1\nA 1 |k:v|\nentries 1\n0 statement 1 A 0 matched 1 2\n  -> |k:v|\nrefused 1\nstatement 2 no text\n";

// A reader in pieces of 7 bytes. One of its reads fails; those after it go on.
#[derive(Drop)]
struct Pieces<'a> {
    rest: &'a [u8],
    reads: usize,
    fails_at: usize,
    kind: ErrorKind,
}

impl Read for Pieces<'_> {
    fn read(&mut self, buffer: &mut [u8]) -> io::Result<usize> {
        let number = self.reads;
        self.reads = number.saturating_add(1);
        if number == self.fails_at {
            return Err(io::Error::from(self.kind));
        }
        let count = self.rest.len().min(buffer.len()).min(7);
        let (piece, rest) = self.rest.split_at(count);
        buffer[..count].copy_from_slice(piece);
        self.rest = rest;
        Ok(count)
    }
}

// A writer that takes this many bytes a call. One of its writes fails; those after it go on.
#[derive(Drop)]
struct Taker {
    taken: Vec<u8>,
    most: usize,
    writes: usize,
    fails_at: usize,
}

impl Write for Taker {
    fn write(&mut self, buffer: &[u8]) -> io::Result<usize> {
        let number = self.writes;
        self.writes = number.saturating_add(1);
        if number == self.fails_at {
            return Err(io::Error::from(ErrorKind::Interrupted));
        }
        let count = buffer.len().min(self.most);
        self.taken.extend_from_slice(buffer.split_at(count).0)?;
        Ok(count)
    }

    fn flush(&mut self) -> io::Result<()> {
        Ok(())
    }
}

fn writer_of(rt: &impl AllocGlobal, most: usize, fails_at: usize) -> Taker {
    Taker {
        taken: Vec::new(rt.alloc()),
        most,
        writes: 0,
        fails_at,
    }
}

fn reader_of(document: &'static [u8], fails_at: usize, kind: ErrorKind) -> Pieces<'static> {
    Pieces {
        rest: document,
        reads: 0,
        fails_at,
        kind,
    }
}

// A number of reads or writes that no test reaches.
const NEVER: usize = 1_000_000;

// The result of a run, how many reads and writes there were, and what was taken.
#[derive(Drop)]
struct Outcome {
    returned: Result<u8, RunFault>,
    reads: usize,
    writes: usize,
    taken: Vec<u8>,
}

// The outcome of the run between the reader and the writer.
fn outcome_of(
    rt: &(impl Threads + Wait + AllocGlobal + Sync),
    mut reader: Pieces<'_>,
    mut writer: Taker,
) -> Outcome {
    let returned = run(rt, rt.alloc(), &mut reader, &mut writer, &PLAIN);
    Outcome {
        returned,
        reads: reader.reads,
        writes: writer.writes,
        taken: writer.taken,
    }
}

// Pieces of 7 bytes come in, and one byte a call goes out: the whole listing is written, with the status of a refused
// statement.
#[test]
fn pieces_make_the_whole(rt: HostRuntime) {
    let reader = reader_of(DOCUMENT.as_bytes(), NEVER, ErrorKind::Other);
    let outcome = outcome_of(&rt, reader, writer_of(&rt, 1, NEVER));
    check_eq(&rt, "pieces", &outcome.returned, &Ok(1));
    check_text(&rt, "pieces", &outcome.taken, LISTING);
}

// No bytes at all are not JSON, and not a failed read.
#[test]
fn no_input_is_no_json(rt: HostRuntime) {
    let reader = reader_of(b"", NEVER, ErrorKind::Other);
    let outcome = outcome_of(&rt, reader, writer_of(&rt, 1_000, NEVER));
    check_eq(
        &rt,
        "no input",
        &outcome.returned,
        &Err(RunFault::Document(DocumentFault::NotJson)),
    );
    check_text(&rt, "no input", &outcome.taken, "");
}

// Checks that a read that fails like this, after this many others, ends the run. It is not tried again, though it would
// go on, and nothing is written.
fn check_read(
    rt: &(impl Threads + Wait + Abort + AllocGlobal + Sync),
    reads: usize,
    kind: ErrorKind,
) {
    let reader = reader_of(DOCUMENT.as_bytes(), reads, kind);
    let outcome = outcome_of(rt, reader, writer_of(rt, 1_000, NEVER));
    let found = (reads, outcome.returned, outcome.reads.checked_sub(reads));
    check_eq(
        rt,
        "a failed read",
        &found,
        &(reads, Err(RunFault::Read), Some(1)),
    );
    check_text(rt, "a failed read", &outcome.taken, "");
}

// Each read that the document needs fails in turn, also as an interrupted one.
#[test]
fn a_read_that_fails_once_ends_the_run(rt: HostRuntime) {
    for reads in 0..DOCUMENT.len().div_ceil(7) + 1 {
        check_read(&rt, reads, ErrorKind::Interrupted);
        check_read(&rt, reads, ErrorKind::Other);
    }
}

// Checks that a write that fails after `writes` writes of at most `most` bytes ends the run. It is not tried again,
// though it would go on, and what was written before is a beginning of the listing.
fn check_write(
    rt: &(impl Threads + Wait + Abort + AllocGlobal + Sync),
    most: usize,
    writes: usize,
    beginning: &[u8],
) {
    let reader = reader_of(DOCUMENT.as_bytes(), NEVER, ErrorKind::Other);
    let outcome = outcome_of(rt, reader, writer_of(rt, most, writes));
    let found = (
        most,
        writes,
        outcome.returned,
        outcome.writes.checked_sub(writes),
    );
    let expected = (most, writes, Err(RunFault::Write), Some(1));
    check_eq(rt, "a failed write", &found, &expected);
    check_eq(rt, "a failed write", &outcome.taken.as_slice(), &beginning);
}

#[test]
fn a_write_that_fails_once_ends_the_run(rt: HostRuntime) {
    check_write(&rt, 10, 0, b"");
    check_write(&rt, 10, 1, b"texts 1\nA ");
    check_write(&rt, 10, 2, b"texts 1\nA 1 |k:v|\nen");
    let listing = LISTING.as_bytes();
    for writes in 0..listing.len() {
        check_write(&rt, 1, writes, listing.split_at(writes).0);
    }
}

// A write that takes no byte ends the run, too.
#[test]
fn a_write_that_takes_nothing_ends_the_run(rt: HostRuntime) {
    let reader = reader_of(DOCUMENT.as_bytes(), NEVER, ErrorKind::Other);
    let outcome = outcome_of(&rt, reader, writer_of(&rt, 0, NEVER));
    check_eq(
        &rt,
        "nothing taken",
        &outcome.returned,
        &Err(RunFault::Write),
    );
    check_eq(&rt, "nothing taken", &outcome.writes, &1);
}

// The result of the run of this many blanks, and how many of them are not read.
fn of_blanks(
    rt: &(impl Threads + Wait + AllocGlobal + Sync),
    length: usize,
) -> Result<(Result<u8, RunFault>, usize), Fail> {
    let blanks = vec![in rt.alloc(); b' '; length]?;
    let mut writer = writer_of(rt, 1_000, NEVER);
    let mut reader = blanks.as_slice();
    let returned = run(rt, rt.alloc(), &mut reader, &mut writer, &PLAIN);
    Ok((returned, reader.len()))
}

fn check_blanks(
    rt: &(impl Threads + Wait + Abort + AllocGlobal + Sync),
    length: usize,
    fault: RunFault,
    unread: usize,
) -> Result<(), Fail> {
    check_eq(rt, "blanks", &of_blanks(rt, length)?, &(Err(fault), unread));
    Ok(())
}

// One byte more than a document may have is too long, even if all are blanks, and no more is read. As many as a
// document may have are not JSON.
#[test]
fn the_longest_input(rt: HostRuntime) -> Result<(), Fail> {
    check_blanks(
        &rt,
        16_777_216,
        RunFault::Document(DocumentFault::NotJson),
        0,
    )?;
    check_blanks(
        &rt,
        16_777_217,
        RunFault::Document(DocumentFault::DocumentTooLong),
        0,
    )?;
    check_blanks(
        &rt,
        16_777_317,
        RunFault::Document(DocumentFault::DocumentTooLong),
        100,
    )
}
