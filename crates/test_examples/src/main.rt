//! Checks the examples of its standard input, and prints how many hold.
//!
//! An example is a line that begins with `- `; the lines between examples say what they show. Each was worked out by
//! hand from the language, and never taken from what the program returns. The contracts of the crates below can't say
//! that their definitions mean what the language means. The examples of `docs/LANGUAGE.md` and of `docs/RECIPES.md` are
//! among them.
//!
//! The public calls read, admit and perform an example, and its outcome is compared with one line. If its text is
//! written only once, its match is also compared with the plain evaluator's, anchored and not, with the assignments and
//! the number of trials. The program stops at the first example that doesn't hold, and says what the outcome was.
//!
//! | File | What it does |
//! |---|---|
//! | `example` | how a line is read |
//! | `row` | how a statement is made of its parts and performed, and how its outcome is written |
//! | `checks` | what is compared for each kind of example |
//! | `beside` | the matcher compared with the plain evaluator |
//! | `trees` | how a pattern is written so that its tree shows |
#![tactic(auto)]

mod beside;
mod checks;
mod example;
mod row;
mod shelf;
mod steps;
mod trees;

use crate::checks::check_line;
use crate::shelf::Shelf;
use crate::steps::take_step;
use std::alloc::Global;
use std::io::Read;
use std::test::Fail;

/// All bytes of the reader.
fn read_all<R: Read + Drop>(alloc: Global, mut reader: R) -> Result<Vec<u8>, Fail> {
    let mut bytes = Vec::new(alloc);
    reader.read_to_end(&mut bytes)?;
    Ok(bytes)
}

/// Checks the line if it is an example, or takes it if it is a step. Returns whether it is one of them.
fn check_or_take(alloc: Global, shelf: &mut Shelf, line: &str) -> Result<bool, Fail> {
    if line.starts_with("- ") {
        check_line(alloc, line)?;
    } else if line.starts_with("+ ") {
        take_step(alloc, shelf, line)?;
    } else {
        return Ok(false);
    }
    Ok(true)
}

/// Checks or takes the line, and shows it if it doesn't hold.
fn check(rt: &(impl AllocGlobal + Eprint), shelf: &mut Shelf, line: &str) -> Result<bool, Fail> {
    let checked = check_or_take(rt.alloc(), shelf, line);
    if checked.is_err() {
        let _written = eprintln!(rt; "{line}");
    }
    checked
}

fn main(rt: HostRuntime) -> Result<(), Fail> {
    let bytes = read_all(rt.alloc(), rt.stdin())?;
    let mut shelf = Shelf::new(rt.alloc())?;
    let mut count = 0_u64;
    for line in str::from_utf8(&bytes)?.lines() {
        if check(&rt, &mut shelf, line)? {
            count = count.saturating_add(1);
        }
    }
    println!(rt; "{count} examples and steps hold")?;
    Ok(())
}
