//! What the program's arguments ask for.
ghost use Rattle.std.specs.Prelude.{◌≤◌, ◌+◌, IfOk};
ghost use Rattle.sno_book.specs.declared.openings.TheConstants.{MAX_ENTRIES};
ghost use Rattle.sno_desk.specs.declared.desk.TheConstants.{MAX_SEATS};
ghost use Rattle.bench_desk.specs.declared.words.TheConstants.{MAX_TIMES};

use crate::faults::Fault;
use sno_book::MAX_ENTRIES;
use sno_desk::MAX_SEATS;
use std::env::Args;
use std::io;
use std::io::ErrorKind;

/// The most repetitions in a timed run, so that the journal has room for five runs.
const MAX_TIMES: u32 = 100_000;

/// How readers look at texts.
#[derive(Clone, Copy)]
pub enum Look {
    /// Snapshots of all texts. A reader gives its core away after each round.
    Snapshots,
    /// The same, and no core is given away.
    Eager,
    /// The first text is read in place.
    One,
    /// The text of the reader's own place is read in place.
    Own,
}

/// How many statements are submitted, by how many seats, and how many other seats read, in which way.
#[derive(Clone, Copy)]
pub struct Load {
    pub submits: u32,
    pub writers: usize,
    pub readers: usize,
    pub look: Look,
    ghost room: { submits ≤ MAX_ENTRIES },
    ghost some: { 1 ≤ writers },
    ghost few: { writers + readers ≤ MAX_SEATS },
}

/// How many repetitions a timed run has.
#[derive(Clone, Copy)]
pub struct Times {
    pub number: u32,
    ghost valid: { (1 ≤ number) × (number ≤ MAX_TIMES) },
}

/// What the arguments ask for.
#[derive(Clone, Copy)]
pub enum Task {
    /// A load. It is timed if its rates are wanted, too.
    Load { load: Load, is_timed: bool },
    /// The times of a snapshot and of a commit.
    Times(Times),
}

/// The number that an argument is, from `least` to `most`.
fn number_in(word: Option<String>, least: u32, most: u32) -> Result<u32, Fault>
    ensures { IfOk result (λ n. (least ≤ n) × (n ≤ most)) }
{
    let Some(word) = word else {
        return Err(Fault::Usage);
    };
    match word.as_str().parse::<u32>() {
        Ok(number) if least <= number && number <= most => Ok(number),
        _ => Err(Fault::Usage),
    }
}

/// The number after the option of this name.
fn option_in(words: &mut Args, name: &str, least: u32, most: u32) -> Result<u32, Fault>
    ensures { IfOk result (λ n. (least ≤ n) × (n ≤ most)) }
{
    match words.next() {
        Some(word) if word.as_str() == name => {
            let number = number_in(words.next(), least, most)?;
            Ok(number)
        }
        _ => Err(Fault::Usage),
    }
}

/// How readers look, from the arguments after the others, if there are any.
fn look_in(words: &mut Args) -> Result<Look, Fault> {
    let Some(option) = words.next() else {
        return Ok(Look::Snapshots);
    };
    let Some(look) = words.next() else {
        return Err(Fault::Usage);
    };
    match (option.as_str(), look.as_str()) {
        ("--looks", "snapshots") => Ok(Look::Snapshots),
        ("--looks", "eager") => Ok(Look::Eager),
        ("--looks", "one") => Ok(Look::One),
        ("--looks", "own") => Ok(Look::Own),
        _ => Err(Fault::Usage),
    }
}

/// The load of `--submits N --writers W --readers R [--looks HOW]`, after the first of these arguments.
fn load_in(words: &mut Args) -> Result<Load, Fault> {
    let submits = number_in(words.next(), 1, MAX_ENTRIES)?;
    let writers = option_in(words, "--writers", 1, MAX_SEATS)?;
    let readers = option_in(words, "--readers", 0, MAX_SEATS - writers)?;
    let look = look_in(words)?;
    Ok(Load {
        submits,
        writers: writers as usize,
        readers: readers as usize,
        look,
    })
}

/// What this option asks for, with the arguments after it.
fn task_of(option: &str, words: &mut Args) -> Result<Task, Fault> {
    match option {
        "--submits" => Ok(Task::Load {
            load: load_in(words)?,
            is_timed: true,
        }),
        "--times" => Ok(Task::Times(Times {
            number: number_in(words.next(), 1, MAX_TIMES)?,
        })),
        _ => Err(Fault::Usage),
    }
}

/// What is done without arguments.
fn plain() -> Task {
    Task::Load {
        load: Load {
            submits: 8_000,
            writers: 8,
            readers: 8,
            look: Look::Snapshots,
        },
        is_timed: false,
    }
}

/// What the arguments after the program's name ask for.
fn task_after_name(words: Args) -> Result<Task, Fault> {
    let mut words = words;
    let _name = words.next();
    let Some(option) = words.next() else {
        return Ok(plain());
    };
    let task = task_of(option.as_str(), &mut words)?;
    match words.next() {
        None => Ok(task),
        Some(_) => Err(Fault::Usage),
    }
}

/// What the program's arguments ask for. The first of them is its name.
///
/// Refused: `Usage` for other arguments, even for one that is not a text; `Memory` if memory runs out.
pub(crate) fn task_in(words: io::Result<Args>) -> Result<Task, Fault> {
    match words {
        Ok(words) => task_after_name(words),
        Err(error) => Err(match error.kind() {
            ErrorKind::OutOfMemory => Fault::Memory,
            _ => Fault::Usage,
        }),
    }
}
