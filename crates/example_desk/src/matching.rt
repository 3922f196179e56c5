//! The matcher on its own: a pattern is read and compiled once, and matched with several texts. It needs no book and no
//! desk.
use crate::faults::Fault;
use crate::statements::definitions;
use sno_machine::{Code, Found, compile};
use sno_pattern::{Pattern, Rules, Text};
use sno_read::read_pattern;
use std::alloc::Global;
use std::io;

/// How many trials a match may take.
const LIMIT: u32 = 1_000_000;

const TEXTS: [&str; 3] = ["colour=red", "width = 12", "no setting"];

fn print_found<R: Print>(rt: &R, characters: &str, found: &Found) -> io::Result<()> {
    match &found.end {
        Some(hit) => println!(rt; "{characters}: {} to {}", hit.start, hit.end),
        None => println!(rt; "{characters}: no match"),
    }
}

/// Prints where the pattern's match begins and ends in the text, if it matches.
fn print_match<R: Print>(
    rt: &R,
    alloc: Global,
    code: &Code,
    characters: &str,
) -> Result<(), Fault> {
    let text = Text::new(Vec::from_slice(alloc, characters.as_bytes())?)?;
    let found = code.first(alloc, &text, false, LIMIT)?;
    print_found(rt, characters, &found).map_err(|_| Fault::Write)
}

/// Prints the match for each text. The pattern is compiled once.
fn print_each<R: Print>(
    rt: &R,
    alloc: Global,
    rules: &Rules,
    pattern: &Pattern,
) -> Result<(), Fault> {
    if !rules.covers(pattern) {
        return Err(Fault::Uncovered);
    }
    let code = compile(alloc, rules, pattern)?;
    for characters in TEXTS {
        print_match(rt, alloc, &code, characters)?;
    }
    Ok(())
}

/// Reads the pattern of a setting, and prints where it matches in each text.
pub(crate) fn print_matches<R: Print>(rt: &R, alloc: Global) -> Result<(), Fault> {
    let rules = definitions(alloc)?;
    let written = b"*WORD . KEY '=' REM . VALUE".as_slice();
    let pattern = read_pattern(alloc, rules.names(), 0, written)?;
    print_each(rt, alloc, &rules, &pattern)
}
