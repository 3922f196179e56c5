//! How a statement is made of its parts as they are written and performed, and how its outcome is written.
//!
//! Definitions are shared, and patterns and statements are in boxes: each place at which a function can end while it holds one of them itself
//! takes its proof seconds.
use sno_pattern::{Name, Names, Pattern, Rules, RulesFault, Text, TextName};
use sno_read::{Object, ReadFault, read_object, read_pattern};
use sno_statement::{BindingsRef, DatumRef, MatchRef, Matches, Outcome, Statement, perform};
use std::alloc::Global;
use std::sync::Arc;
use std::test::Fail;
use thiserror::Error;

/// A definition as it is written: its name and its pattern.
pub(crate) type Definition<'l> = (&'l str, &'l str);

/// What is done to the text of a row. Each task has a pattern, and a replacement has an object.
#[derive(Clone, Copy)]
pub(crate) enum Task<'l> {
    /// An unanchored match.
    Match(&'l str),
    /// A match that begins only at cursor 0.
    MatchAnchored(&'l str),
    /// An unanchored match that may take this many trials, 1 to 1,000,000,000.
    MatchWithin(&'l str, u32),
    /// An unanchored match, and a replacement.
    Replace(&'l str, &'l str),
    /// An unanchored match, and a replacement, at most this many times, 1 to 1,000.
    Repeat(&'l str, &'l str, u32),
    /// All unanchored matches.
    MatchAll(&'l str),
    /// All unanchored matches, each replaced.
    ReplaceAll(&'l str, &'l str),
}

/// What is done to a text, and its outcome, as `performance_line` writes it.
#[derive(Clone, Copy)]
pub(crate) struct Row<'l> {
    /// The text, which is written `times` times, one after the other.
    pub text: &'l str,
    pub times: u32,
    pub task: Task<'l>,
    pub outcome: &'l str,
    /// How many trials the match takes, if the row says so.
    pub trials: Option<u32>,
}

/// Why a statement could not be made: what is written can't be read, or its definitions aren't admitted.
#[derive(Drop, Debug, Error)]
pub(crate) enum Refused {
    #[error(transparent)]
    Read(ReadFault),
    #[error(transparent)]
    Rules(RulesFault),
}

impl<'l> Task<'l> {
    fn pattern(self) -> &'l str {
        match self {
            Task::Match(pattern)
            | Task::MatchAnchored(pattern)
            | Task::MatchWithin(pattern, _)
            | Task::Replace(pattern, _)
            | Task::Repeat(pattern, _, _)
            | Task::MatchAll(pattern)
            | Task::ReplaceAll(pattern, _) => pattern,
        }
    }

    fn object(self) -> Option<&'l str> {
        match self {
            Task::Match(_) | Task::MatchAnchored(_) | Task::MatchWithin(_, _) | Task::MatchAll(_) =>
                None,
            Task::Replace(_, object) | Task::Repeat(_, object, _) | Task::ReplaceAll(_, object) =>
                Some(object),
        }
    }

    fn is_anchored(self) -> bool {
        matches!(self, Task::MatchAnchored(_))
    }

    // The statement with the limit or the number of rounds that the task names, or for all matches.
    fn bound(self, statement: Statement) -> Result<Statement, Fail> {
        match self {
            Task::MatchWithin(_, limit) => within(statement, limit),
            Task::Repeat(_, _, rounds) => repeated(statement, rounds),
            Task::MatchAll(_) | Task::ReplaceAll(_, _) => Ok(statement.for_all()),
            Task::Match(_) | Task::MatchAnchored(_) | Task::Replace(_, _) => Ok(statement),
        }
    }
}

/// The name of these letters.
fn name_of(letters: &str) -> Result<Name, Fail> {
    Ok(Name::read(letters.as_bytes()).ok_or("no name")?)
}

/// The names of the definitions.
pub(crate) fn names_of(alloc: Global, written: &[Definition<'_>]) -> Result<Names, Fail> {
    let mut names = Vec::new(alloc);
    for (name, _) in written {
        names.push(name_of(name)?)?;
    }
    Ok(Names::new(alloc, names.as_slice())?)
}

// The patterns of the definitions, or why one of them can't be read.
fn bodies_of(
    alloc: Global,
    names: &Names,
    written: &[Definition<'_>],
) -> Result<Vec<Pattern>, ReadFault> {
    let mut bodies = Vec::new(alloc);
    for (earlier, definition) in written.iter().enumerate() {
        let body = read_pattern(alloc, names, earlier, definition.1.as_bytes())?;
        bodies.push(body).map_err(|_| ReadFault::Memory)?;
    }
    Ok(bodies)
}

fn admit_bodies(
    alloc: Global,
    names: Names,
    bodies: Vec<Pattern>,
) -> Result<Result<Arc<Rules>, Refused>, Fail> {
    if names.len() != bodies.len() {
        return Err("as many names as patterns are wanted".into());
    }
    match Rules::admit(alloc, names, bodies) {
        Ok(rules) => Ok(Ok(Arc::new(alloc, rules)?)),
        Err(fault) => Ok(Err(Refused::Rules(fault))),
    }
}

fn admit_names(
    alloc: Global,
    names: Names,
    written: &[Definition<'_>],
) -> Result<Result<Arc<Rules>, Refused>, Fail> {
    match bodies_of(alloc, &names, written) {
        Ok(bodies) => admit_bodies(alloc, names, bodies),
        Err(fault) => Ok(Err(Refused::Read(fault))),
    }
}

/// Definitions that are admitted, or why they are refused.
pub(crate) fn admit(
    alloc: Global,
    written: &[Definition<'_>],
) -> Result<Result<Arc<Rules>, Refused>, Fail> {
    admit_names(alloc, names_of(alloc, written)?, written)
}

/// What a statement has apart from its definitions and its parts: its number, the name of its text, and the task.
#[derive(Drop)]
pub(crate) struct Heading<'l> {
    pub number: u32,
    pub text: TextName,
    pub task: Task<'l>,
}

/// The statement that does the task, if its pattern and its object are read.
pub(crate) fn statement(
    alloc: Global,
    rules: Arc<Rules>,
    heading: Heading<'_>,
) -> Result<Result<Box<Statement>, Refused>, Fail> {
    match parts(alloc, &rules, heading.task) {
        Err(fault) => Ok(Err(Refused::Read(fault))),
        Ok((pattern, object)) => Ok(Ok(boxed(alloc, rules, pattern, object, heading)?)),
    }
}

fn boxed(
    alloc: Global,
    rules: Arc<Rules>,
    pattern: Box<Pattern>,
    object: Option<Object>,
    heading: Heading<'_>,
) -> Result<Box<Statement>, Fail> {
    Ok(Box::new(alloc, whole(rules, pattern, object, heading)?)?)
}

/// The statement of these parts.
fn whole(
    rules: Arc<Rules>,
    pattern: Box<Pattern>,
    object: Option<Object>,
    heading: Heading<'_>,
) -> Result<Statement, Fail> {
    if rules.covers(&pattern) {
        let Heading { number, text, task } = heading;
        let (pattern, anchored) = (Box::into_inner(pattern), task.is_anchored());
        task.bound(Statement::new(number, rules, pattern, object, text, anchored))
    } else {
        Err("the definitions don't cover the pattern".into())
    }
}

fn read_boxed(alloc: Global, rules: &Rules, pattern: &str) -> Result<Box<Pattern>, ReadFault> {
    let pattern = read_pattern(alloc, rules.names(), rules.len(), pattern.as_bytes())?;
    Box::new(alloc, pattern).map_err(|_| ReadFault::Memory)
}

fn object_of(
    alloc: Global,
    rules: &Rules,
    object: Option<&str>,
) -> Result<Option<Object>, ReadFault> {
    match object {
        None => Ok(None),
        Some(object) => Ok(Some(read_object(alloc, rules.names(), object.as_bytes())?)),
    }
}

/// The pattern and the object of the task. If neither is read, the fault is that of the pattern.
fn parts(
    alloc: Global,
    rules: &Rules,
    task: Task<'_>,
) -> Result<(Box<Pattern>, Option<Object>), ReadFault> {
    let pattern = read_boxed(alloc, rules, task.pattern())?;
    Ok((pattern, object_of(alloc, rules, task.object())?))
}

/// The statement in at most this many rounds, 1 to 1,000. It must have an object.
fn repeated(statement: Statement, rounds: u32) -> Result<Statement, Fail> {
    if statement.object().is_some() && 1 <= rounds && rounds <= 1_000 {
        Ok(statement.repeated(rounds))
    } else {
        Err("1 to 1000 rounds are wanted".into())
    }
}

/// The statement with this limit, which must be 1 to 1,000,000,000.
pub(crate) fn limited(
    alloc: Global,
    statement: Box<Statement>,
    limit: u32,
) -> Result<Box<Statement>, Fail> {
    Ok(Box::new(alloc, within(Box::into_inner(statement), limit)?)?)
}

fn within(statement: Statement, limit: u32) -> Result<Statement, Fail> {
    if 1 <= limit && limit <= 1_000_000_000 {
        Ok(statement.limited(limit))
    } else {
        Err("1 to 1000000000 trials are wanted".into())
    }
}

fn tell_cycle(alloc: Global, cycle: &[usize], line: &mut String) -> Result<(), Fail> {
    for definition in cycle {
        line.push_str(format!(in alloc; " {definition}")?.as_str())?;
    }
    Ok(())
}

/// Why a statement could not be made, in one line. For a cycle of definitions the line also has their numbers.
pub(crate) fn refusal_line(alloc: Global, refused: &Refused) -> Result<String, Fail> {
    let mut line = refused.to_string(alloc)?;
    if let Refused::Rules(RulesFault::Unguarded(cycle)) = refused {
        tell_cycle(alloc, cycle, &mut line)?;
    }
    Ok(line)
}

/// The text of these characters, written this many times.
pub(crate) fn text_of(alloc: Global, characters: &str, times: u32) -> Result<Text, Fail> {
    let mut text = Vec::new(alloc);
    for _ in 0..times {
        text.extend_from_slice(characters.as_bytes())?;
    }
    Ok(Text::new(text)?)
}

/// The outcome of the statement on the text, in one line:
///
/// - `matched`, the two cursors and the bindings, and the new text after `->`, if there is one;
/// - `repeated`, how often, the bindings and the new text;
/// - `all`, how many, the cursors and the bindings of each match, and the new text after `->`, if there is one;
/// - `failed` and the bindings;
/// - or why the statement is refused.
///
/// For a text of more than 64 characters the line has only their number.
pub(crate) fn performance_line(
    alloc: Global,
    statement: &Statement,
    text: &Text,
) -> Result<String, Fail> {
    match perform(alloc, statement, text) {
        Err(fault) => Ok(fault.to_string(alloc)?),
        Ok(outcome) => outcome_line(alloc, &outcome),
    }
}

/// Writes the cursors of a match, and its bindings.
fn tell_match(alloc: Global, one: &MatchRef<'_>, line: &mut String) -> Result<(), Fail> {
    line.push_str(format!(in alloc; " {}..{}", one.start, one.end)?.as_str())?;
    tell_bindings(alloc, &one.bindings, line)
}

fn tell_matches(alloc: Global, matches: &Matches, line: &mut String) -> Result<(), Fail> {
    for place in 0..matches.len() {
        if let Some(one) = matches.get(place) {
            tell_match(alloc, &one, line)?;
        }
    }
    Ok(())
}

/// Writes the bindings, those of each match in its place.
fn tell_bound(alloc: Global, outcome: &Outcome, line: &mut String) -> Result<(), Fail> {
    match outcome {
        Outcome::Failed { bindings }
        | Outcome::Matched { bindings, .. }
        | Outcome::Repeated { bindings, .. } => tell_bindings(alloc, &bindings.lend(), line),
        Outcome::All { matches, .. } => tell_matches(alloc, matches, line),
    }
}

/// How the line of the outcome begins.
fn beginning(alloc: Global, outcome: &Outcome) -> Result<String, Fail> {
    match outcome {
        Outcome::Failed { .. } => Ok(String::from_str(alloc, "failed")?),
        Outcome::Matched { start, end, .. } => Ok(format!(in alloc; "matched {start} {end}")?),
        Outcome::Repeated { matches, .. } => Ok(format!(in alloc; "repeated {matches}")?),
        Outcome::All { matches, .. } => Ok(format!(in alloc; "all {}", matches.len())?),
    }
}

/// Writes the new text, if there is one.
fn tell_after(alloc: Global, outcome: &Outcome, line: &mut String) -> Result<(), Fail> {
    match outcome.after() {
        None => Ok(()),
        Some(text) => {
            line.push_str(" -> ")?;
            tell_text(alloc, text, line)
        }
    }
}

pub(crate) fn outcome_line(alloc: Global, outcome: &Outcome) -> Result<String, Fail> {
    let mut line = beginning(alloc, outcome)?;
    tell_bound(alloc, outcome, &mut line)?;
    tell_after(alloc, outcome, &mut line)?;
    Ok(line)
}

/// Writes a blank, the name, and an equals sign.
fn tell_name(name: &Name, line: &mut String) -> Result<(), Fail> {
    line.push_str(" ")?;
    line.push_str(str::from_utf8(name.bytes())?)?;
    Ok(line.push_str("=")?)
}

fn tell_bindings(alloc: Global, bindings: &BindingsRef<'_>, line: &mut String) -> Result<(), Fail> {
    for place in 0..bindings.len() {
        if let Some((name, value)) = bindings.get(place) {
            tell_name(name, line)?;
            tell_value(alloc, &value, line)?;
        }
    }
    Ok(())
}

fn tell_value(alloc: Global, value: &DatumRef<'_>, line: &mut String) -> Result<(), Fail> {
    match value {
        DatumRef::Str(text) => tell_characters(alloc, text.bytes(), line),
        DatumRef::Int(number) => Ok(line.push_str(number.to_string(alloc)?.as_str())?),
    }
}

pub(crate) fn tell_text(alloc: Global, text: &Text, line: &mut String) -> Result<(), Fail> {
    tell_characters(alloc, text.bytes(), line)
}

fn characters_line(alloc: Global, characters: &str) -> Result<String, Fail> {
    if characters.len() > 64 {
        Ok(format!(in alloc; "{} characters", characters.len())?)
    } else {
        Ok(format!(in alloc; "|{characters}|")?)
    }
}

fn tell_characters(alloc: Global, characters: &[u8], line: &mut String) -> Result<(), Fail> {
    let line_of_characters = characters_line(alloc, str::from_utf8(characters)?)?;
    Ok(line.push_str(line_of_characters.as_str())?)
}
