//! How an example is read.
//!
//! It is a line of pieces, each between two backquotes, with words before and after them:
//!
//! - ``- `banana` with `'nan'`: `matched 2 5` ``: a text, a pattern, and the outcome of the match. Before the colon the
//!   line may say that the match is anchored, or within how many trials it must be. After the text it may say how many
//!   times the text is written one after the other. At the end it may say how many trials the match takes.
//! - ``- `banana` with `'nan'`, replaced by `''`: `matched 2 5 -> |baa|` ``: with an object. Before the colon the line
//!   may say how often at most, or that it is for all matches.
//! - ``- `'a' | 'b' 'c'` is read as `('a' | ('b' 'c'))` ``: a pattern, and its tree.
//! - ``- where `A` is `*B` and `B` is `*A`: `unguarded 0 1` ``: definitions, and whether they are admitted. Each
//!   example may begin with definitions.
use crate::row::{Definition, Row, Task};
use std::alloc::Global;
use std::test::Fail;

/// What comes before two backquotes, between them, and after them.
#[derive(Clone, Copy)]
pub(crate) struct Quoted<'l> {
    pub before: &'l str,
    pub inside: &'l str,
    pub after: &'l str,
}

/// The first piece of the line.
pub(crate) fn cut(line: &str) -> Result<Quoted<'_>, Fail> {
    let (before, rest) = line.split_once('`').ok_or("no backquote")?;
    let (inside, after) = rest.split_once('`').ok_or("no second backquote")?;
    Ok(Quoted {
        before,
        inside,
        after,
    })
}

/// The definition that begins with this name, and what comes after it.
fn definition(name: Quoted<'_>) -> Result<(Definition<'_>, &str), Fail> {
    let pattern = cut(name.after)?;
    if pattern.before == " is " {
        Ok(((name.inside, pattern.inside), pattern.after))
    } else {
        Err("no definition".into())
    }
}

/// The most definitions that an example has.
const MOST_DEFINITIONS: usize = 4;

/// The definitions with which the line begins, and the piece after them.
pub(crate) fn definitions(
    alloc: Global,
    line: &str,
) -> Result<(Vec<Definition<'_>>, Quoted<'_>), Fail> {
    let mut definitions = Vec::new(alloc);
    let mut next = cut(line)?;
    for _ in 0..MOST_DEFINITIONS {
        if next.before == "- where " || next.before == " and " {
            let (definition, after) = definition(next)?;
            definitions.push(definition)?;
            next = cut(after)?;
        }
    }
    Ok((definitions, next))
}

/// The number between these words.
pub(crate) fn number(words: &str, before: &str, after: &str) -> Result<u32, Fail> {
    let number = words.strip_prefix(before);
    let digits = number.and_then(|number| number.strip_suffix(after));
    Ok(digits.ok_or("no example")?.parse::<u32>()?)
}

/// The replacement by this object, and the piece after it.
fn replacement<'l>(pattern: &'l str, object: Quoted<'l>) -> Result<(Task<'l>, Quoted<'l>), Fail> {
    let outcome = cut(object.after)?;
    let task = match outcome.before {
        ": " => Task::Replace(pattern, object.inside),
        ", for all matches: " => Task::ReplaceAll(pattern, object.inside),
        words => Task::Repeat(
            pattern,
            object.inside,
            number(words, ", at most ", " times: ")?,
        ),
    };
    Ok((task, outcome))
}

/// How many times the text is written.
fn times(words: &str) -> Result<u32, Fail> {
    match words {
        " with " => Ok(1),
        words => number(words, " ", " times with "),
    }
}

/// How many trials the words after an example name, if they name a number.
fn trials(words: &str) -> Result<Option<u32>, Fail> {
    match words {
        "" => Ok(None),
        words => Ok(Some(number(words, " in ", " trials")?)),
    }
}

/// The row of this text and this pattern.
pub(crate) fn row<'l>(text: Quoted<'l>, pattern: Quoted<'l>) -> Result<Row<'l>, Fail> {
    let next = cut(pattern.after)?;
    let (task, outcome) = match next.before {
        ": " => (Task::Match(pattern.inside), next),
        ", anchored: " => (Task::MatchAnchored(pattern.inside), next),
        ", for all matches: " => (Task::MatchAll(pattern.inside), next),
        ", replaced by " => replacement(pattern.inside, next)?,
        words => {
            let limit = number(words, ", within ", " trials: ")?;
            (Task::MatchWithin(pattern.inside, limit), next)
        }
    };
    Ok(Row {
        text: text.inside,
        times: times(pattern.before)?,
        task,
        outcome: outcome.inside,
        trials: trials(outcome.after)?,
    })
}
