//! The texts and the statements of a load.
ghost use Rattle.std.specs.Prelude.{◌≡◌, [], IfOk, length};

use crate::faults::Fault;
use crate::words::Load;
use sno_book::Book;
use sno_pattern::{Names, Pattern, Rules, Text, TextName};
use sno_read::{Object, read_object};
use sno_statement::Statement;
use std::alloc::Global;
use std::sync::Arc;

/// How many texts a load has.
pub const TEXTS: usize = 4;

/// How many entries a journal has room for.
const ROOM: u32 = 1_000_000;

/// What each statement of a text puts in place of its character, if it replaces it, one statement after the other.
static OBJECTS: [Option<&str>; 4] = [None, Some("'a'"), None, Some("'b'")];

/// The name of a text by its place.
pub(crate) fn name_of(alloc: Global, place: usize) -> Result<TextName, Fault> {
    let name = format!(in alloc; "T{place}")?;
    TextName::new(alloc, name.as_bytes()).map_err(|_| Fault::NoLoad)
}

/// The names of the first `count` texts.
pub(crate) fn names_of(alloc: Global, count: usize) -> Result<Vec<TextName>, Fault> {
    let mut names = Vec::new(alloc);
    for place in 0..count {
        names.push(name_of(alloc, place)?)?;
    }
    Ok(names)
}

fn letter(alloc: Global) -> Result<Text, Fault> {
    let letter = Vec::from_slice(alloc, b"a".as_slice())?;
    Text::new(letter).map_err(|_| Fault::NoLoad)
}

/// A book of `count` texts of one letter each.
pub fn book_of(alloc: Global, count: usize) -> Result<Book, Fault>
    ensures { IfOk result (λ b. b.journal ≡ []) }
{
    let mut rows = Vec::new(alloc);
    for place in 0..count {
        rows.push((name_of(alloc, place)?, letter(alloc)?))?;
    }
    Book::new(alloc, rows, ROOM).map_err(|_| Fault::NoLoad)
}

/// No definitions.
pub(crate) fn no_rules(alloc: Global) -> Result<Arc<Rules>, Fault> {
    let names = Names::new(alloc, &[]).map_err(|_| Fault::NoLoad)?;
    let rules = Rules::admit(alloc, names, Vec::new(alloc)).map_err(|_| Fault::NoLoad)?;
    Ok(Arc::new(alloc, rules)?)
}

fn object_of(alloc: Global, rules: &Rules, written: Option<&str>) -> Result<Option<Object>, Fault> {
    let Some(written) = written else {
        return Ok(None);
    };
    match read_object(alloc, rules.names(), written.as_bytes()) {
        Ok(object) => Ok(Some(object)),
        Err(_) => Err(Fault::NoLoad),
    }
}

/// A statement that matches the one character of the text at a place, and puts the object in its place, if there is one.
pub(crate) fn statement_of(
    alloc: Global,
    rules: &Arc<Rules>,
    place: usize,
    object: Option<&str>,
) -> Result<Arc<Statement>, Fault> {
    let object = object_of(alloc, rules, object)?;
    let text = name_of(alloc, place)?;
    let statement = Statement::new(
        0,
        Arc::try_clone(rules)?,
        Pattern::Len(1),
        object,
        text,
        true,
    );
    Ok(Arc::new(alloc, statement)?)
}

/// The statements of all texts, round by round.
fn kinds(alloc: Global) -> Result<Vec<Arc<Statement>>, Fault> {
    let rules = no_rules(alloc)?;
    let mut kinds = Vec::new(alloc);
    for object in OBJECTS {
        for place in 0..TEXTS {
            kinds.push(statement_of(alloc, &rules, place, object)?)?;
        }
    }
    Ok(kinds)
}

/// The statement at a place of the list.
fn job_at(kinds: &[Arc<Statement>], place: usize) -> Result<Arc<Statement>, Fault> {
    let kind = kinds.get(place).ok_or(Fault::NoLoad)?;
    Ok(Arc::try_clone(kind)?)
}

/// The statements of a load, taken from the list again and again.
fn jobs_from(
    alloc: Global,
    kinds: &[Arc<Statement>],
    load: Load,
) -> Result<Vec<Arc<Statement>>, Fault> {
    let mut jobs = Vec::with_capacity(alloc, load.submits as usize)?;
    for job in 0..load.submits as usize {
        jobs.push(job_at(kinds, job / load.writers % 16)?)?;
    }
    Ok(jobs)
}

/// The statements of a load. Those that go to the writers at the same time are on one text. Of the statements on a text
/// every second one replaces its character.
pub(crate) fn jobs_of(alloc: Global, load: Load) -> Result<Vec<Arc<Statement>>, Fault> {
    let kinds = kinds(alloc)?;
    jobs_from(alloc, &kinds, load)
}
