//! Rules and definitions as they are spelled.

use crate::given_lines::{GivenLine, GivenLines, Source};
use crate::line_faults::{LineMistake, fault_of_line, fault_of_spelling, whole_mistake};
use sno_pattern::is_letter;
use sno_rules::{
    LineFault, LineRule, SetName, Spelling, SpellingFault, first_piece, read_definition, read_rule,
    set_of, spelled,
};
use std::alloc::{AllocError, Global};

/// The most definitions that are looked at, with those that are ready.
const MOST_DEFINITIONS: usize = 1_024;

/// The fault of more, and what is written below it.
const TOO_MANY: &str = "definitions: too many";

const FEWER: &str = "at most 1024 are looked at, with those of --with";

/// A part of a line, as it is spelled.
#[derive(Drop)]
pub struct SpelledPart {
    /// How many characters of the line come before it.
    pub begin: usize,
    /// What is spelled.
    pub spelling: Spelling,
}

/// A definition.
#[derive(Drop)]
pub struct SpelledDefinition<'l> {
    /// Its line.
    pub line: &'l GivenLine<'l>,
    /// Its name.
    pub name: &'l [u8],
    /// Its pattern.
    pub pattern: SpelledPart,
    /// Its pattern as it is written.
    pub written: &'l [u8],
    /// Whether it can't be spelled, for which there is a mistake. Its pattern is empty then.
    pub broken: bool,
    /// The characters that the name means, if it is a set.
    pub members: Option<Vec<u8>>,
    /// Whether it is a set that a rule or a definition mentions. It is spelled out there.
    pub(crate) in_sets: bool,
    /// Whether it is needed: it is neither ready nor a set of names, or a rule or a definition that is needed mentions it.
    used: bool,
    /// Whether what it mentions is marked.
    looked: bool,
}

/// A rule.
#[derive(Drop)]
pub struct SpelledRule<'l> {
    /// Its line.
    pub line: &'l GivenLine<'l>,
    /// Its parts as they are written.
    pub rule: LineRule<'l>,
    /// Whether it can't be spelled, for which there is a mistake. Its pattern is empty then.
    pub broken: bool,
    /// Its pattern.
    pub pattern: SpelledPart,
    /// Its object, if it has one.
    pub object: Option<SpelledPart>,
}

/// Definitions and rules.
#[derive(Drop)]
pub struct SpelledLines<'l> {
    /// The definitions that are used, in order.
    pub definitions: Vec<SpelledDefinition<'l>>,
    /// The rules, in order.
    pub rules: Vec<SpelledRule<'l>>,
    /// Why lines can't be spelled: of each such line its first fault, those of definitions first.
    pub mistakes: Vec<LineMistake<'l>>,
}

/// The names that definitions give sets, and those that they give other patterns.
fn names_of<'d>(
    alloc: Global,
    definitions: &'d [SpelledDefinition<'d>],
) -> Result<Vec<SetName<'d>>, AllocError> {
    let mut names = Vec::new(alloc);
    for definition in definitions {
        let members = match &definition.members {
            Some(members) => Some(members.as_slice()),
            None => None,
        };
        names.push(SetName {
            name: definition.name,
            members,
        })?;
    }
    Ok(names)
}

/// A part as it is spelled; `begin` characters of its line come before it.
fn spelled_part<'n>(
    alloc: Global,
    names: &[SetName<'n>],
    begin: usize,
    written: &'n [u8],
) -> Result<SpelledPart, SpellingFault> {
    let spelling = spelled(alloc, names, written)?;
    Ok(SpelledPart { begin, spelling })
}

/// Whether the characters have a name outside quotes.
fn has_names(characters: &[u8]) -> bool {
    let mut rest = characters;
    // A piece has at least one character.
    for _ in 0..characters.len() {
        if rest.is_empty() {
            break;
        }
        let (piece, after) = first_piece(rest);
        if is_name(piece) {
            return true;
        }
        rest = after;
    }
    false
}

/// Why a line isn't spelled.
#[derive(Debug, Drop)]
enum NotSpelled<'l> {
    Mistake(LineMistake<'l>),
    /// A set has a name that no definition before it has.
    UnknownSet(LineMistake<'l>),
    Memory,
}

impl From<AllocError> for NotSpelled<'_> {
    fn from(_refused: AllocError) -> Self {
        NotSpelled::Memory
    }
}

/// Why a line isn't spelled that has this fault of a set.
fn not_spelled<'l>(
    alloc: Global,
    is_rule: bool,
    number: usize,
    line: &'l GivenLine<'l>,
    begin: usize,
    fault: SpellingFault,
) -> NotSpelled<'l> {
    match (
        fault,
        fault_of_spelling(alloc, is_rule, number, line, begin, fault),
    ) {
        (_, Err(_)) => NotSpelled::Memory,
        (SpellingFault::UnknownSet(_), Ok(mistake)) => NotSpelled::UnknownSet(mistake),
        (_, Ok(mistake)) => NotSpelled::Mistake(mistake),
    }
}

/// Why a line isn't spelled that has this fault.
fn no_line<'l>(
    alloc: Global,
    is_rule: bool,
    number: usize,
    line: &'l GivenLine<'l>,
    fault: LineFault,
) -> NotSpelled<'l> {
    match fault_of_line(alloc, is_rule, number, line, fault) {
        Ok(mistake) => NotSpelled::Mistake(mistake),
        Err(_) => NotSpelled::Memory,
    }
}

/// A part of no characters.
fn no_part(alloc: Global) -> Result<SpelledPart, AllocError> {
    match spelled(alloc, &[], b"") {
        Ok(spelling) => Ok(SpelledPart { begin: 0, spelling }),
        Err(_) => Err(AllocError),
    }
}

/// A definition that can't be spelled.
fn broken_definition<'l>(
    alloc: Global,
    line: &'l GivenLine<'l>,
) -> Result<SpelledDefinition<'l>, AllocError> {
    let (name, written): (&'l [u8], &'l [u8]) = match read_definition(line.text.as_bytes()) {
        Ok(definition) => (definition.name, definition.pattern),
        Err(_) => (b"", b""),
    };
    Ok(SpelledDefinition {
        line,
        name,
        pattern: no_part(alloc)?,
        written,
        broken: true,
        members: None,
        in_sets: false,
        used: !line.ready,
        looked: false,
    })
}

/// A definition with the names of those before it.
fn spelled_definition<'l>(
    alloc: Global,
    names: &[SetName<'_>],
    number: usize,
    line: &'l GivenLine<'l>,
) -> Result<SpelledDefinition<'l>, NotSpelled<'l>> {
    let definition = match read_definition(line.text.as_bytes()) {
        Ok(definition) => definition,
        Err(fault) => return Err(no_line(alloc, false, number, line, fault)),
    };
    let begin = line.text.len().saturating_sub(definition.pattern.len());
    let pattern = match spelled_part(alloc, names, begin, definition.pattern) {
        Ok(pattern) => pattern,
        Err(fault) => return Err(not_spelled(alloc, false, number, line, begin, fault)),
    };
    let members = set_of(alloc, names, definition.pattern)?;
    // A set that joins names may be no pattern.
    let is_joined = members.is_some() && has_names(pattern.spelling.characters());
    let used = !line.ready && !is_joined;
    Ok(SpelledDefinition {
        line,
        name: definition.name,
        pattern,
        written: definition.pattern,
        broken: false,
        members,
        in_sets: false,
        used,
        looked: false,
    })
}

/// The object of a rule as it is spelled; `None` if it has none.
fn spelled_object<'n>(
    alloc: Global,
    names: &[SetName<'n>],
    rule: &LineRule<'n>,
) -> Result<Option<SpelledPart>, SpellingFault> {
    match rule.object {
        None => Ok(None),
        Some(object) => {
            let begin = object_begins(rule);
            Ok(Some(spelled_part(alloc, names, begin, object)?))
        }
    }
}

/// How many characters of a rule's line come before its object, which a sign divides from the pattern.
fn object_begins(rule: &LineRule<'_>) -> usize {
    rule.pattern.len().saturating_add(1)
}

/// A rule that can't be spelled.
fn broken_rule<'l>(alloc: Global, line: &'l GivenLine<'l>) -> Result<SpelledRule<'l>, AllocError> {
    Ok(SpelledRule {
        line,
        rule: LineRule {
            pattern: b"",
            object: None,
            first: true,
            anchored: false,
            repeat: None,
            text: None,
        },
        broken: true,
        pattern: no_part(alloc)?,
        object: None,
    })
}

fn spelled_rule<'l>(
    alloc: Global,
    names: &[SetName<'_>],
    number: usize,
    line: &'l GivenLine<'l>,
) -> Result<SpelledRule<'l>, NotSpelled<'l>> {
    let rule = match read_rule(line.text.as_bytes()) {
        Ok(rule) => rule,
        Err(fault) => return Err(no_line(alloc, true, number, line, fault)),
    };
    let pattern = match spelled_part(alloc, names, 0, rule.pattern) {
        Ok(pattern) => pattern,
        Err(fault) => return Err(not_spelled(alloc, true, number, line, 0, fault)),
    };
    match spelled_object(alloc, names, &rule) {
        Ok(object) => Ok(SpelledRule {
            line,
            rule,
            broken: false,
            pattern,
            object,
        }),
        Err(fault) => {
            let begin = object_begins(&rule);
            Err(not_spelled(alloc, true, number, line, begin, fault))
        }
    }
}

/// Whether a piece begins as a name does.
fn is_name(piece: &[u8]) -> bool {
    piece.first().is_some_and(|first| is_letter(*first))
}

/// The place of the definition with this name. Any other piece than a name is no definition's.
fn place_of(definitions: &[SpelledDefinition<'_>], piece: &[u8]) -> Option<usize> {
    if !is_name(piece) {
        return None;
    }
    definitions.iter().position(|other| other.name == piece)
}

/// The places of the definitions that the characters mention outside quotes.
pub(crate) fn mentioned(
    alloc: Global,
    definitions: &[SpelledDefinition<'_>],
    characters: &[u8],
) -> Result<Vec<usize>, AllocError> {
    let mut places = Vec::new(alloc);
    if definitions.is_empty() {
        return Ok(places);
    }
    let mut rest = characters;
    // A piece has at least one character.
    for _ in 0..characters.len() {
        if rest.is_empty() {
            break;
        }
        let (piece, after) = first_piece(rest);
        if let Some(place) = place_of(definitions, piece) {
            places.push(place)?;
        }
        rest = after;
    }
    Ok(places)
}

/// The places of the definitions that the one at this place mentions.
fn mentioned_by(
    alloc: Global,
    definitions: &[SpelledDefinition<'_>],
    place: usize,
) -> Result<Vec<usize>, AllocError> {
    match definitions.get(place) {
        Some(definition) => mentioned(alloc, definitions, definition.pattern.spelling.characters()),
        None => Ok(Vec::new(alloc)),
    }
}

/// Marks the definitions at these places as used.
fn mark(definitions: &mut [SpelledDefinition<'_>], places: &[usize]) {
    for place in places {
        if let Some(definition) = definitions.get_mut(*place) {
            definition.used = true;
        }
    }
}

/// Marks the definitions that rules mention.
fn mark_in_rules(
    alloc: Global,
    definitions: &mut [SpelledDefinition<'_>],
    rules: &[SpelledRule<'_>],
) -> Result<(), AllocError> {
    for rule in rules {
        let places = mentioned(alloc, definitions, rule.pattern.spelling.characters())?;
        mark(definitions, &places);
        if let Some(object) = &rule.object {
            let places = mentioned(alloc, definitions, object.spelling.characters())?;
            mark(definitions, &places);
        }
    }
    Ok(())
}

/// Marks the definitions that used ones mention. Each used one is looked at once.
fn mark_in_used(
    alloc: Global,
    definitions: &mut [SpelledDefinition<'_>],
) -> Result<(), AllocError> {
    for _ in 0..definitions.len() {
        let next = definitions
            .iter()
            .position(|definition| definition.used && !definition.looked);
        let Some(place) = next else {
            return Ok(());
        };
        let places = mentioned_by(alloc, definitions, place)?;
        mark(definitions, &places);
        if let Some(definition) = definitions.get_mut(place) {
            definition.looked = true;
        }
    }
    Ok(())
}

/// The places of the definitions that rules and definitions mention, as they are written.
fn mentioned_anywhere(
    alloc: Global,
    definitions: &[SpelledDefinition<'_>],
    rules: &[SpelledRule<'_>],
) -> Result<Vec<usize>, AllocError> {
    let mut places = Vec::new(alloc);
    for definition in definitions {
        places.append(&mut mentioned(alloc, definitions, definition.written)?)?;
    }
    for rule in rules {
        places.append(&mut mentioned(alloc, definitions, rule.rule.pattern)?)?;
    }
    Ok(places)
}

/// Marks the sets that rules and definitions mention.
fn mark_sets(
    alloc: Global,
    definitions: &mut [SpelledDefinition<'_>],
    rules: &[SpelledRule<'_>],
) -> Result<(), AllocError> {
    for place in mentioned_anywhere(alloc, definitions, rules)? {
        if let Some(definition) = definitions.get_mut(place) {
            definition.in_sets = definition.members.is_some();
        }
    }
    Ok(())
}

/// Whether each definition is spelled.
fn are_whole(definitions: &[SpelledDefinition<'_>]) -> bool {
    !definitions.iter().any(|definition| definition.broken)
}

/// Notes why a line isn't spelled. A set with an unknown name is no mistake of its own if the name may be that of a definition that
/// isn't spelled: then not all are whole.
fn note<'l>(
    mistakes: &mut Vec<LineMistake<'l>>,
    are_whole: bool,
    reason: NotSpelled<'l>,
) -> Result<(), AllocError> {
    match reason {
        NotSpelled::Memory => return Err(AllocError),
        NotSpelled::Mistake(mistake) => mistakes.push(mistake)?,
        NotSpelled::UnknownSet(mistake) => {
            if are_whole {
                mistakes.push(mistake)?;
            }
        }
    }
    Ok(())
}

impl<'l> SpelledLines<'l> {
    fn nothing(alloc: Global) -> SpelledLines<'l> {
        SpelledLines {
            definitions: Vec::new(alloc),
            rules: Vec::new(alloc),
            mistakes: Vec::new(alloc),
        }
    }

    /// Adds a definition.
    fn put_definition(&mut self, alloc: Global, line: &'l GivenLine<'l>) -> Result<(), AllocError> {
        let number = self.definitions.len().saturating_add(1);
        let spelled = {
            let names = names_of(alloc, &self.definitions)?;
            spelled_definition(alloc, &names, number, line)
        };
        match spelled {
            Ok(definition) => self.definitions.push(definition)?,
            Err(reason) => {
                let is_whole = are_whole(&self.definitions);
                note(&mut self.mistakes, is_whole, reason)?;
                self.definitions.push(broken_definition(alloc, line)?)?;
            }
        }
        Ok(())
    }

    /// Adds the rules.
    fn put_rules(&mut self, alloc: Global, lines: &'l [GivenLine<'l>]) -> Result<(), AllocError> {
        let is_whole = are_whole(&self.definitions);
        let names = names_of(alloc, &self.definitions)?;
        for line in lines {
            let number = self.rules.len().saturating_add(1);
            match spelled_rule(alloc, &names, number, line) {
                Ok(rule) => self.rules.push(rule)?,
                Err(reason) => {
                    note(&mut self.mistakes, is_whole, reason)?;
                    self.rules.push(broken_rule(alloc, line)?)?;
                }
            }
        }
        Ok(())
    }

    /// The lines as they are spelled, with the definitions that are used and those that aren't ready. Of more than 1,024
    /// definitions none is spelled, which is a mistake.
    ///
    /// Refused only if memory runs out.
    pub fn of(alloc: Global, lines: &'l GivenLines<'l>) -> Result<SpelledLines<'l>, AllocError> {
        let mut spelled = SpelledLines::nothing(alloc);
        if lines.definitions.len() > MOST_DEFINITIONS {
            let mistake = whole_mistake(alloc, Source::Option, TOO_MANY, FEWER)?;
            spelled.mistakes.push(mistake)?;
            return Ok(spelled);
        }
        for line in &lines.definitions {
            spelled.put_definition(alloc, line)?;
        }
        spelled.put_rules(alloc, &lines.rules)?;
        let SpelledLines {
            mut definitions,
            rules,
            mistakes,
        } = spelled;
        mark_sets(alloc, &mut definitions, &rules)?;
        mark_in_rules(alloc, &mut definitions, &rules)?;
        mark_in_used(alloc, &mut definitions)?;
        definitions.retain(|definition| definition.used);
        Ok(SpelledLines {
            definitions,
            rules,
            mistakes,
        })
    }
}
