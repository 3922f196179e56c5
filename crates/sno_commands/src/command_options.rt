//! Options of subcommands, which are listed in tables.

use clap::{Arg, ArgAction, Command};
use sno_rewrite::{flag, numeric, numeric_or};
use std::alloc::{AllocError, Global};

/// What an option takes.
#[derive(Clone, Copy)]
pub(crate) enum Takes<'a> {
    /// No value.
    Nothing,
    /// A number.
    Number,
    /// A number, which is this one if the option is not given.
    NumberOr(&'a str),
    /// A value, which the help calls so.
    Value(&'a str),
    /// Such a value each time that the option is given.
    Values(&'a str),
}

/// An option of a subcommand.
#[derive(Clone, Copy)]
pub(crate) struct CommandOption<'a> {
    /// Its name, which comes after `--`.
    pub(crate) name: &'a str,
    /// The letter that is short for it, if there is one.
    pub(crate) short: Option<char>,
    /// What it takes.
    pub(crate) takes: Takes<'a>,
    /// The options beside which it can't be given.
    pub(crate) conflicts: &'a [&'a str],
    /// What the help says of it.
    pub(crate) help: &'a str,
}

/// An option with a value.
fn valued<'a>(
    alloc: Global,
    name: &'a str,
    value: &'a str,
    action: ArgAction,
    help: &'a str,
) -> Arg<'a> {
    Arg::new(alloc, name)
        .long(name)
        .value_name(value)
        .action(action)
        .help(help)
}

/// The option with its name, what it takes, and its help.
fn named<'a>(alloc: Global, option: CommandOption<'a>) -> Arg<'a> {
    let CommandOption { name, help, .. } = option;
    match option.takes {
        Takes::Nothing => flag(alloc, name, help),
        Takes::Number => numeric(alloc, name, help),
        Takes::NumberOr(usual) => numeric_or(alloc, usual, name, help),
        Takes::Value(value) => valued(alloc, name, value, ArgAction::Set, help),
        Takes::Values(value) => valued(alloc, name, value, ArgAction::Append, help),
    }
}

/// The option as `clap` has it.
fn argument<'a>(alloc: Global, option: CommandOption<'a>) -> Result<Arg<'a>, AllocError> {
    let argument = named(alloc, option).conflicts_with_all(option.conflicts)?;
    match option.short {
        Some(letter) => Ok(argument.short(letter)),
        None => Ok(argument),
    }
}

/// The command with one more option.
fn with_option<'a>(
    alloc: Global,
    command: Command<'a>,
    option: CommandOption<'a>,
) -> Result<Command<'a>, AllocError> {
    with_argument(command, argument(alloc, option))
}

/// The command with these options, in order.
pub(crate) fn with_options<'a>(
    alloc: Global,
    command: Command<'a>,
    options: &[CommandOption<'a>],
) -> Result<Command<'a>, AllocError> {
    let mut command = command;
    for option in options {
        command = with_option(alloc, command, *option)?;
    }
    Ok(command)
}

/// The command with an argument, if memory was enough for that.
pub(crate) fn with_argument<'a>(
    command: Command<'a>,
    argument: Result<Arg<'a>, AllocError>,
) -> Result<Command<'a>, AllocError> {
    command.arg(argument?)
}

/// A subcommand, so far without arguments.
pub(crate) fn subcommand<'a>(
    alloc: Global,
    name: &'a str,
    about: &'a str,
    usage: &'a str,
    example: &'a str,
) -> Command<'a> {
    Command::new(alloc, name)
        .about(about)
        .override_usage(usage)
        .after_help(example)
}

/// The command with a subcommand, if memory was enough for that.
pub(crate) fn with_subcommand<'a>(
    command: Command<'a>,
    subcommand: Result<Command<'a>, AllocError>,
) -> Result<Command<'a>, AllocError> {
    command.subcommand(subcommand?)
}
