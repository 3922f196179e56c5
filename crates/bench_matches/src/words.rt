//! The arguments of the program.
ghost use Rattle.std.specs.Prelude.{◌≤◌, IfOk, IfSome};
ghost use Rattle.bench_matches.specs.declared.words.TheConstants.{MAX_TIMES};

use crate::faults::Fault;
use std::env::Args;
use std::io;
use std::io::ErrorKind;

const MAX_TIMES: u32 = 1_000_000;

/// The number that an argument is, 1 to 1,000,000; `None` if it isn't one.
fn number_in(word: &str) -> Option<u32>
    ensures { IfSome result (λ n. (1 ≤ n) × (n ≤ MAX_TIMES)) }
{
    match word.parse::<u32>() {
        Ok(number) if 1 <= number && number <= MAX_TIMES => Some(number),
        _ => None,
    }
}

/// What the arguments after the program's name ask for.
fn times_after_name(words: Args) -> Result<Option<u32>, Fault>
    ensures { IfOk result (λ times. IfSome times (λ n. (1 ≤ n) × (n ≤ MAX_TIMES))) }
{
    let mut words = words;
    let _name = words.next();
    let Some(option) = words.next() else {
        return Ok(None);
    };
    let Some(number) = words.next() else {
        return Err(Fault::Usage);
    };
    if option.as_str() != "--times" || words.next().is_some() {
        return Err(Fault::Usage);
    }
    match number_in(number.as_str()) {
        Some(number) => Ok(Some(number)),
        None => Err(Fault::Usage),
    }
}

/// How many times a run does each work, by the program's arguments after its name; `None` if nothing is to be timed.
///
/// Refused: `Usage` for other arguments, also for one that is not a text, and `Memory` if out of memory.
pub fn times_in(words: io::Result<Args>) -> Result<Option<u32>, Fault>
    ensures { IfOk result (λ times. IfSome times (λ n. (1 ≤ n) × (n ≤ MAX_TIMES))) }
{
    match words {
        Ok(words) => {
            let times = times_after_name(words)?;
            Ok(times)
        }
        Err(error) => Err(match error.kind() {
            ErrorKind::OutOfMemory => Fault::Memory,
            _ => Fault::Usage,
        }),
    }
}
