//! Statements, from the characters in which their patterns and objects are written.
use crate::faults::Fault;
use sno_pattern::{Name, Names, Pattern, Rules, TextName};
use sno_read::{Object, read_object, read_pattern};
use sno_statement::Statement;
use std::alloc::Global;
use std::sync::Arc;

/// The statements that the seats share. Each is for the text PAGE.
#[derive(Drop)]
pub(crate) struct Edits {
    /// Puts a line after the last one.
    pub(crate) append: Arc<Statement>,
    /// Puts the first word between brackets, unless it is there already.
    pub(crate) mark: Arc<Statement>,
}

/// The name of the one definition.
fn names(alloc: Global) -> Result<Names, Fault> {
    let mut list = Vec::new(alloc);
    if let Some(word) = Name::read(b"WORD".as_slice()) {
        list.push(word)?;
    }
    Ok(Names::new(alloc, list.as_slice())?)
}

/// What each name means: a run of small letters.
fn bodies(alloc: Global, names: &Names) -> Result<Vec<Pattern>, Fault> {
    let mut bodies = Vec::new(alloc);
    for _name in 0..names.len() {
        let letters = b"SPAN('abcdefghijklmnopqrstuvwxyz')".as_slice();
        bodies.push(read_pattern(alloc, names, 0, letters)?)?;
    }
    Ok(bodies)
}

/// One definition: WORD is a run of small letters. Definitions are admitted together. A cycle of references that takes
/// no character is refused here, so that no match loops for ever.
pub(crate) fn definitions(alloc: Global) -> Result<Rules, Fault> {
    let names = names(alloc)?;
    let bodies = bodies(alloc, &names)?;
    if bodies.len() != names.len() {
        return Err(Fault::Unequal);
    }
    Ok(Rules::admit(alloc, names, bodies)?)
}

/// A statement on the text PAGE, which replaces what the pattern matches by the object.
fn on_page(
    alloc: Global,
    rules: Arc<Rules>,
    number: u32,
    pattern: Pattern,
    object: Object,
) -> Result<Arc<Statement>, Fault> {
    if !rules.covers(&pattern) {
        return Err(Fault::Uncovered);
    }
    let text = TextName::new(alloc, b"PAGE".as_slice())?;
    let statement = Statement::new(number, rules, pattern, Some(object), text, false);
    Ok(Arc::new(alloc, statement)?)
}

/// The same statement, from the pattern and the object as they are written.
fn statement(
    alloc: Global,
    rules: &Arc<Rules>,
    number: u32,
    pattern: &str,
    object: &str,
) -> Result<Arc<Statement>, Fault> {
    let pattern = read_pattern(alloc, rules.names(), 0, pattern.as_bytes())?;
    let object = read_object(alloc, rules.names(), object.as_bytes())?;
    on_page(alloc, Arc::try_clone(rules)?, number, pattern, object)
}

impl Edits {
    /// Reads the definitions, the patterns and the objects.
    pub(crate) fn new(alloc: Global) -> Result<Edits, Fault> {
        let rules = Arc::new(alloc, definitions(alloc)?)?;
        Ok(Edits {
            append: statement(alloc, &rules, 1, "RPOS(0)", "'|'")?,
            mark: statement(alloc, &rules, 2, "POS(0) *WORD . W", "'[' W ']'")?,
        })
    }
}
