//! The least time of some runs.
ghost use Rattle.std.specs.Prelude.{◌≤◌};

use crate::effects::{Effect, effect_of_matching, effect_of_performing, matches_of_pass};
use crate::faults::Fault;
use sno_machine::{Code, Workspace, compile};
use sno_pattern::Text;
use sno_statement::Statement;
use std::alloc::Global;
use std::fmt;
use std::time::{Clock, Duration, Instant};

/// How many runs there are. The quickest counts: what else the machine does only makes a run longer.
const RUNS: u32 = 5;

/// A time in tenths of a nanosecond. It is printed in nanoseconds.
#[derive(Clone, Copy, Debug)]
pub struct Tenths(u128);

impl fmt::Display for Tenths {
    fn fmt<W: fmt::Write>(&self, f: &mut fmt::Formatter<W>) -> fmt::Result {
        let whole = self.0 / 10;
        let tenth = self.0 % 10;
        write!(f, "{whole}.{tenth}")
    }
}

/// The times of compiling, matching and performing a statement once, and of a pass over its text if it is for all matches. They are
/// printed as in the line of the statement.
#[derive(Clone, Copy, Debug)]
pub struct Times {
    compile: Tenths,
    matching: Tenths,
    perform: Tenths,
    pass: Option<Tenths>,
}

impl fmt::Display for Times {
    fn fmt<W: fmt::Write>(&self, f: &mut fmt::Formatter<W>) -> fmt::Result {
        let compile = self.compile;
        let matching = self.matching;
        let perform = self.perform;
        write!(f, "compile {compile} match {matching} perform {perform}")?;
        match self.pass {
            Some(pass) => write!(f, " pass {pass}"),
            None => Ok(()),
        }
    }
}

fn read_clock<C: Clock>(clock: &C) -> Result<Instant, Fault> {
    match Instant::now(clock) {
        Ok(now) => Ok(now),
        Err(_) => Err(Fault::Clock),
    }
}

/// How long it takes to do the work `times` times. The first fault of the work ends it.
fn run<C: Clock, F: FnMut() -> Result<(), Fault>>(
    clock: &C,
    times: u32,
    work: &mut F,
) -> Result<Duration, Fault>
    requires { (f : _) → F.pre f }
{
    let start = read_clock(clock)?;
    for _ in 0..times {
        work()?;
    }
    Ok(read_clock(clock)?.duration_since(start))
}

/// How long the work takes once, by the quickest of the runs.
fn least_time<C: Clock, F: FnMut() -> Result<(), Fault>>(
    clock: &C,
    times: u32,
    mut work: F,
) -> Result<Tenths, Fault>
    requires callable { (f : _) → F.pre f }
    requires times { 1 ≤ times }
{
    let mut least = Duration::MAX;
    for _ in 0..RUNS {
        least = least.min(run(clock, times, &mut work)?);
    }
    Ok(Tenths(least.as_nanos().saturating_mul(10) / u128::from(times)))
}

/// Checks that the work did what is expected. This uses its result, so no compiler may leave the work out.
fn expect(effect: Effect, expected: Effect) -> Result<(), Fault> {
    if effect == expected {
        Ok(())
    } else {
        Err(Fault::Differs)
    }
}

fn compile_once(alloc: Global, statement: &Statement) -> Result<(), Fault> {
    let _code = compile(alloc, statement.rules(), statement.pattern())?;
    Ok(())
}

fn match_once<'a>(
    alloc: Global,
    code: &Code<'a>,
    workspace: &mut Workspace<'a>,
    statement: &Statement,
    text: &Text,
    expected: Effect,
) -> Result<(), Fault> {
    let effect = effect_of_matching(alloc, code, workspace, statement, text)?;
    expect(effect, expected)
}

fn perform_once(
    alloc: Global,
    statement: &Statement,
    text: &Text,
    expected: Effect,
) -> Result<(), Fault> {
    let effect = effect_of_performing(alloc, statement, text)?;
    expect(effect, expected)
}

fn pass_once(
    alloc: Global,
    statement: &Statement,
    text: &Text,
    expected: Effect,
) -> Result<(), Fault> {
    match matches_of_pass(alloc, statement, text) {
        Ok(matches) => expect(Effect::All { matches }, expected),
        Err(_) => Err(Fault::Differs),
    }
}

/// How long a pass over the text takes, if the statement is for all matches and has some. Each match is looked at where it lies.
fn time_of_pass<C: Clock>(
    clock: &C,
    alloc: Global,
    statement: &Statement,
    text: &Text,
    expected: Effect,
    times: u32,
) -> Result<Option<Tenths>, Fault>
    requires { 1 ≤ times }
{
    if !matches!(expected, Effect::All { .. }) {
        return Ok(None);
    }
    let least = least_time(clock, times, || pass_once(alloc, statement, text, expected))?;
    Ok(Some(least))
}

/// How long it takes to compile the statement's pattern, to match it with the text, and to perform the statement on the text.
/// Each is done `times` times in a run, and all matches use one workspace. If a statement is repeated, the match is that of its
/// first round.
///
/// The statement has to do what is expected, and that isn't a refusal. The matches have to do what the first of them did.
///
/// Refused with the first fault of the runs: `Run` with `Memory`, `Clock`, and `Differs` if something else was done.
pub fn time<C: Clock>(
    clock: &C,
    alloc: Global,
    statement: &Statement,
    text: &Text,
    expected: Effect,
    times: u32,
) -> Result<Times, Fault>
    requires { 1 ≤ times }
{
    let code = compile(alloc, statement.rules(), statement.pattern())?;
    let compile = least_time(clock, times, || compile_once(alloc, statement))?;
    let mut workspace = Workspace::new(alloc);
    let first = effect_of_matching(alloc, &code, &mut workspace, statement, text)?;
    let matching = least_time(
        clock,
        times,
        || match_once(alloc, &code, &mut workspace, statement, text, first),
    )?;
    let perform = least_time(
        clock,
        times,
        || perform_once(alloc, statement, text, expected),
    )?;
    let over_text = time_of_pass(clock, alloc, statement, text, expected, times)?;
    Ok(Times {
        compile,
        matching,
        perform,
        pass: over_text,
    })
}
