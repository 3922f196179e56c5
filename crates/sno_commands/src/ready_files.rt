//! Where the files of definitions are that are ready.

use crate::given_lines::NoRules;
use std::alloc::{AllocError, Global};
use std::rt::Files;
use std::{env, fs};

/// Where they are from the program's folder: installed, and in the repository.
const PLACES: [&str; 2] = ["../share/nomyake", "../../../share"];

/// What is written of a name that no file has.
const NAMES: &str = "they are c, html, json, markdown, python and shell, or the path of a file";

/// Whether this is the path of a file, and no name.
fn is_path(name: &str) -> bool {
    name.contains('/') || name.ends_with(".sno")
}

/// The folder of the program, without the slash after it; empty if that isn't known.
fn program_folder<R: Files + AllocGlobal>(rt: &R, alloc: Global) -> Result<String, AllocError> {
    let Ok(program) = env::current_exe(rt) else {
        return Ok(String::new(alloc));
    };
    let path = program.as_str();
    let slash = path.rfind('/').unwrap_or(0);
    String::from_str(alloc, path.get(..slash).unwrap_or(""))
}

/// The path of the file of definitions with this name, which may be a path itself.
pub(crate) fn ready_path<R: Files + AllocGlobal>(
    rt: &R,
    alloc: Global,
    name: &str,
) -> Result<String, NoRules> {
    if is_path(name) {
        return Ok(String::from_str(alloc, name)?);
    }
    let folder = program_folder(rt, alloc)?;
    for place in PLACES {
        let path = format!(in alloc; "{folder}/{place}/{name}.sno")?;
        if fs::exists(rt, path.as_str()).unwrap_or(false) {
            return Ok(path);
        }
    }
    Err(NoRules::Refused(format!(in alloc; "--with {name}: no such definitions\n    {NAMES}\n")?))
}
