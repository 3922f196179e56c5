//! Arguments that several subcommands have.
ghost use Rattle.std.specs.Prelude.{◌≡◌, ◌≤◌, true};

use clap::{Arg, ArgAction};
use std::alloc::Global;

const DOCUMENT_HELP: &str = "The file of the document; standard input if it is missing";

/// Whether a number is 1 to `most`.
pub(crate) fn is_up_to(most: u32, number: u32) -> bool
    ensures { result ≡ true → (1 ≤ number) × (number ≤ most) }
{
    1 <= number && number <= most
}

/// The file of a document, which is on standard input without the argument.
pub(crate) fn document<'a>(alloc: Global) -> Arg<'a> {
    Arg::new(alloc, "document")
        .value_name("DOCUMENT")
        .action(ArgAction::Set)
        .help(DOCUMENT_HELP)
}
