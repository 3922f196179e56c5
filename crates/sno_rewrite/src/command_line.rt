//! The options of the program, from its command-line arguments.
ghost use Rattle.std.specs.Prelude.{◌≡◌, [], map, false, Some, IfOk, string_bytes};
ghost use Rattle.clap.specs.Words.{app_of, FailsBy, found_of, kind_of, rows_of, rule_of};
ghost use Rattle.sno_rewrite.specs.CommandLine.{are_valid, bare_program, faults, flag, flag_in, IsParsed, IsChecked, is_up_to, number_in, numeric, numeric_or, option_rows, options_in, plain_options, program, shared_program, IsFaultOf};
ghost use Rattle.sno_rewrite.specs.Runs.{AreInLimits};

use crate::Options;
use crate::options::MAX_WORKERS;
use clap::error::ErrorKind;
use clap::{Arg, ArgAction, ArgMatches, Command, Error};
use sno_desk::MAX_TRIES;
use sno_statement::{MAX_TRIALS, USUAL_TRIALS};
use std::alloc::{AllocError, Global};

/// How many times a worker tries a statement, if the arguments do not say it.
const USUAL_TRIES: u32 = 100;

const ABOUT: &str =
    "Reads a document of texts and statements on standard input, performs the statements, and writes the listing of what they did";

const WORKERS_HELP: &str = "Shares the statements out among N workers, 1 to 16; none by default";

const TRIES_HELP: &str = "How often a worker tries a statement, 1 to 1000";

const ANCHOR_HELP: &str = "Anchors each statement that does not say whether it is anchored";

const JSON_HELP: &str = "Writes the listing as JSON";

const TRIALS_HELP: &str = "How many trials a match may take, 1 to 1000000000";

const EXAMPLE: &str = "Example: sno_rewrite --workers 4 --json < document.json";

const VERSION: &str = "1.0.0";

const PAST_LIMITS: &str =
    "error: '--workers' takes 1 to 16, '--tries' takes 1 to 1000, and '--trials' takes 1 to 1000000000\n\nFor more information, try '--help'.\n";

/// Why the arguments give no options.
#[derive(Debug, Drop)]
pub enum OptionsFault {
    /// Help, or the version, was asked for: its text, with a line feed at the end.
    Help(String),
    /// The arguments are refused: what is wrong and how the program is used, with a line feed at the end.
    Usage(String),
    /// Out of memory.
    Memory,
}

/// An option with a number of at most 32 bits. It takes no memory.
pub fn numeric<'a>(alloc: Global, name: &'a str, help: &'a str) -> Arg<'a>
    ensures rule { rule_of result ≡ numeric name.entry.now }
    ensures local { result.global ≡ false }
    ensures help { result.help ≡ Some help.entry }
{
    Arg::new(alloc, name)
        .long(name)
        .value_name("N")
        .value_parser(clap::value_parser!(u32))
        .action(ArgAction::Set)
        .help(help)
}

/// As [`numeric`], with the number that it has if it isn't given.
pub fn numeric_or<'a>(alloc: Global, default: &'a str, name: &'a str, help: &'a str) -> Arg<'a>
    ensures rule { rule_of result ≡ numeric_or default.entry.now name.entry.now }
    ensures local { result.global ≡ false }
    ensures help { result.help ≡ Some help.entry }
{
    numeric(alloc, name, help).default_value(default)
}

/// An option without a value. It takes no memory.
pub fn flag<'a>(alloc: Global, name: &'a str, help: &'a str) -> Arg<'a>
    ensures rule { rule_of result ≡ flag name.entry.now }
    ensures local { result.global ≡ false }
    ensures help { result.help ≡ Some help.entry }
{
    Arg::new(alloc, name)
        .long(name)
        .action(ArgAction::SetTrue)
        .help(help)
}

fn bare_program<'a>(alloc: Global) -> Command<'a>
    ensures { app_of result ≡ bare_program }
{
    Command::new(alloc, "sno_rewrite")
        .no_binary_name(true)
        .about(ABOUT)
        .version(VERSION)
        .after_help(EXAMPLE)
}

#[tactic(auto, unfolding(crate::specs::CommandLine::shared_program))]
fn shared_program<'a>(alloc: Global) -> Result<Command<'a>, AllocError>
    ensures { IfOk result (λ c. app_of c ≡ shared_program) }
{
    let workers = numeric(alloc, "workers", WORKERS_HELP);
    let tries = numeric_or(alloc, "100", "tries", TRIES_HELP);
    bare_program(alloc).arg(workers)?.arg(tries)
}

#[tactic(auto, unfolding(crate::specs::CommandLine::program))]
fn program<'a>(alloc: Global) -> Result<Command<'a>, AllocError>
    ensures { IfOk result (λ c. app_of c ≡ program) }
{
    let anchor = flag(alloc, "anchor", ANCHOR_HELP);
    let json = flag(alloc, "json", JSON_HELP);
    let trials = numeric_or(alloc, "1000000", "trials", TRIALS_HELP);
    shared_program(alloc)?.arg(anchor)?.arg(json)?.arg(trials)
}

fn matches<'a>(alloc: Global, words: &'a [String]) -> Result<ArgMatches<'a>, Error>
    ensures found { IfOk result (λ m. rows_of (found_of m) ≡ option_rows (map string_bytes words.entry.now)) }
    ensures fault { FailsBy (faults (map string_bytes words.entry.now)) result }
{
    let program = program(alloc)?;
    program.try_get_matches_from(words)
}

fn flag_in(matches: &ArgMatches<'_>, name: &str) -> bool
    ensures { result ≡ flag_in name.now (rows_of (found_of matches.now)) }
{
    matches.get_one::<bool>(name).unwrap_or(false)
}

fn number_in(matches: &ArgMatches<'_>, name: &str) -> Option<u32>
    ensures { result ≡ number_in name.now (rows_of (found_of matches.now)) }
{
    matches.get_one::<u32>(name)
}

fn options_in(matches: &ArgMatches<'_>) -> Options
    ensures { result ≡ options_in (rows_of (found_of matches.now)) }
{
    Options {
        anchor: flag_in(matches, "anchor"),
        workers: number_in(matches, "workers"),
        tries: number_in(matches, "tries").unwrap_or(USUAL_TRIES),
        json: flag_in(matches, "json"),
        trials: number_in(matches, "trials").unwrap_or(USUAL_TRIALS),
    }
}

fn is_up_to(most: u32, number: u32) -> bool
    ensures { result ≡ is_up_to most number }
{
    1 <= number && number <= most
}

fn are_valid(options: &Options) -> bool
    ensures { result ≡ are_valid options.now }
{
    let workers = options
        .workers
        .is_none_or(|workers| is_up_to(MAX_WORKERS, workers));
    workers && is_up_to(MAX_TRIES, options.tries) && is_up_to(MAX_TRIALS, options.trials)
}

/// The fault of an error of `clap`, with `clap`'s own text: `Help` if help or the version was asked for, `Memory` if memory ran out
/// before or now, and otherwise `Usage`.
pub fn fault_of_error(alloc: Global, error: &Error) -> OptionsFault
    ensures { IsFaultOf (kind_of error.now) result }
{
    let Ok(text) = format!(in alloc; "{error}") else {
        return OptionsFault::Memory;
    };
    match error.kind() {
        ErrorKind::OutOfMemory => OptionsFault::Memory,
        ErrorKind::DisplayHelp | ErrorKind::DisplayVersion => OptionsFault::Help(text),
        _ => OptionsFault::Usage(text),
    }
}

/// The options, if they are within their limits.
#[tactic(auto, using(crate::proofs::LimitLemmas::in_limits))]
fn check_limits(alloc: Global, options: Options) -> Result<Options, OptionsFault>
    ensures checked { IsChecked options result }
    ensures limits { IfOk result (λ o. AreInLimits o) }
{
    if are_valid(&options) {
        return Ok(options);
    }
    match String::from_str(alloc, PAST_LIMITS) {
        Ok(text) => Err(OptionsFault::Usage(text)),
        Err(_) => Err(OptionsFault::Memory),
    }
}

/// Returns the options that `words` give, the command-line arguments after the program's name:
///
/// - `--anchor` and `--json` are flags.
/// - `--workers` has a number of 1 to 16. Without it there are no workers.
/// - `--tries` has a number of 1 to 1,000, and 100 without it.
/// - `--trials` has a number of 1 to 1,000,000,000, and 1,000,000 without it.
///
/// Refused:
///
/// - `Help` if `--help`, `-h`, `--version` or `-V` comes before any fault;
/// - `Usage` for an argument that is not an option, an option twice, a missing value, or a value that is not a number
///   or past its limits;
/// - `Memory`.
pub fn options_of(alloc: Global, words: &[String]) -> Result<Options, OptionsFault>
    // The options are those of the arguments, within their limits. Otherwise the refusal has its cause.
    ensures parsed { IsParsed (map string_bytes words.now) result }
    // Workers, tries and trials are within their limits.
    ensures limits { IfOk result (λ o. AreInLimits o) }
    // Without arguments these are the options.
    ensures plain { words.now ≡ [] → IfOk result (λ o. o ≡ plain_options) }
{
    match matches(alloc, words) {
        Ok(matches) => check_limits(alloc, options_in(&matches)),
        Err(error) => Err(fault_of_error(alloc, &error)),
    }
}
