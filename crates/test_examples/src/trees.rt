//! How a pattern is written so that its tree shows.
use sno_pattern::{Class, Name, Names, Pattern};
use std::alloc::Global;
use std::test::Fail;

/// Characters between quotes.
fn quoted(alloc: Global, characters: &[u8]) -> Result<String, Fail> {
    let characters = str::from_utf8(characters)?;
    if characters.contains('\'') {
        Ok(format!(in alloc; "\"{characters}\"")?)
    } else {
        Ok(format!(in alloc; "'{characters}'")?)
    }
}

fn with_set(alloc: Global, word: &str, set: &Class) -> Result<String, Fail> {
    let members = quoted(alloc, set.members())?;
    Ok(format!(in alloc; "{word}({members})")?)
}

fn with_name(alloc: Global, sign: &str, name: Option<&Name>) -> Result<String, Fail> {
    let name = str::from_utf8(name.ok_or("no name")?.bytes())?;
    Ok(format!(in alloc; "{sign}{name}")?)
}

/// The word of a primitive that has no argument.
fn word(pattern: &Pattern) -> Result<&'static str, Fail> {
    match pattern {
        Pattern::Arb => Ok("ARB"),
        Pattern::Bal => Ok("BAL"),
        Pattern::Rem => Ok("REM"),
        Pattern::Fence => Ok("FENCE"),
        Pattern::Abort => Ok("ABORT"),
        Pattern::Fail => Ok("FAIL"),
        _ => Err("no primitive".into()),
    }
}

/// A pattern of one part.
fn leaf(alloc: Global, names: &Names, pattern: &Pattern) -> Result<String, Fail> {
    match pattern {
        Pattern::Lit(text) => quoted(alloc, text.bytes()),
        Pattern::Len(number) => Ok(format!(in alloc; "LEN({number})")?),
        Pattern::Pos(number) => Ok(format!(in alloc; "POS({number})")?),
        Pattern::Rpos(number) => Ok(format!(in alloc; "RPOS({number})")?),
        Pattern::Tab(number) => Ok(format!(in alloc; "TAB({number})")?),
        Pattern::Rtab(number) => Ok(format!(in alloc; "RTAB({number})")?),
        Pattern::AnyOf(set) => with_set(alloc, "ANY", set),
        Pattern::NoneOf(set) => with_set(alloc, "NOTANY", set),
        Pattern::Span(set) => with_set(alloc, "SPAN", set),
        Pattern::Break(set) => with_set(alloc, "BREAK", set),
        Pattern::At(name) => with_name(alloc, "@", Some(name)),
        Pattern::Ref(number) => with_name(alloc, "*", names.get(*number)),
        other => Ok(String::from_str(alloc, word(other)?)?),
    }
}

fn joined(alloc: Global, left: &str, sign: &str, right: &str) -> Result<String, Fail> {
    Ok(format!(in alloc; "({left}{sign}{right})")?)
}

/// The pattern, with parentheses around each concatenation, alternation and assignment.
pub(crate) fn tree(alloc: Global, names: &Names, pattern: &Pattern) -> Result<String, Fail> {
    match pattern {
        Pattern::Seq(left, right) => {
            let left = tree(alloc, names, left)?;
            joined(
                alloc,
                left.as_str(),
                " ",
                tree(alloc, names, right)?.as_str(),
            )
        }
        Pattern::Alt(left, right) => {
            let left = tree(alloc, names, left)?;
            joined(
                alloc,
                left.as_str(),
                " | ",
                tree(alloc, names, right)?.as_str(),
            )
        }
        Pattern::Cond(part, name) => {
            let part = tree(alloc, names, part)?;
            joined(alloc, part.as_str(), " . ", str::from_utf8(name.bytes())?)
        }
        Pattern::Imm(part, name) => {
            let part = tree(alloc, names, part)?;
            joined(alloc, part.as_str(), " $ ", str::from_utf8(name.bytes())?)
        }
        Pattern::Arbno(part) => {
            let part = tree(alloc, names, part)?;
            Ok(format!(in alloc; "ARBNO({part})")?)
        }
        other => leaf(alloc, names, other),
    }
}
