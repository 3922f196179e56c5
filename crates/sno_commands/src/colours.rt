//! Whether what is written is coloured.

use std::env::FillError;
use std::io::IsTerminal;
use std::rt::Env;

/// Whether the variable of the environment is there and isn't empty.
fn is_set<R: Env>(rt: &R, name: &str) -> bool {
    let mut start = [0; 1];
    match rt.var(name, &mut start) {
        Ok(count) => count > 0,
        Err(FillError::NotPresent) => false,
        Err(_) => true,
    }
}

/// Whether what is written to this output is coloured: if it is a terminal, unless `NO_COLOR` is set.
pub(crate) fn has_colours<R: Env, W: IsTerminal>(rt: &R, output: &W) -> bool {
    output.is_terminal() && !is_set(rt, "NO_COLOR")
}
