//! The matcher compared with the plain evaluator.
use sno_machine::{Code, Found, MatchFault, compile};
use sno_pattern::{ByteText, MAX_TEXT, Name, Text};
use sno_statement::{
    BindingsRef, DatumRef, FileStatement, FileStatementFault, Match, MatchRef, Matches, Outcome,
    Pass, Rewritten, Statement, StatementFault, perform, rewrite,
};
use std::alloc::Global;
use std::sync::Arc;
use std::test::Fail;

/// The cursors where the match begins and ends, if there is one.
fn extent(found: &Found) -> Option<(usize, usize)> {
    let hit = found.end.as_ref()?;
    Some((hit.start, hit.end))
}

/// The conditional assignments of the match, if there is one.
fn conditions(found: &Found) -> Option<&[(Name, usize, usize)]> {
    let hit = found.end.as_ref()?;
    Some(hit.conds.as_slice())
}

/// Whether both found the same: the place, and all that was assigned.
fn is_same(found: &Found, plain: &Found) -> bool {
    extent(found) == extent(plain)
        && found.sets.as_slice() == plain.sets.as_slice()
        && conditions(found) == conditions(plain)
}

fn is_found(
    alloc: Global,
    code: &Code,
    text: &Text,
    anchored: bool,
    trials: u32,
    plain: &Found,
) -> Result<bool, Fail> {
    let found = code.first(alloc, text, anchored, trials)?;
    Ok(is_same(&found, plain))
}

fn is_refused(code: &Code, alloc: Global, text: &Text, anchored: bool, limit: u32) -> bool {
    match code.first(alloc, text, anchored, limit) {
        Ok(_) => false,
        Err(fault) => fault == MatchFault::TooManyTrials,
    }
}

/// How many trials the evaluator counts, and what it finds.
fn plain(
    alloc: Global,
    statement: &Statement,
    text: &Text,
    anchored: bool,
) -> Result<(u32, Found), Fail> {
    let (rules, pattern) = (statement.rules(), statement.pattern());
    let trials = u32::try_from(sno_eval::trials(alloc, rules, pattern, text, anchored)?)?;
    let found = sno_eval::first(alloc, rules, pattern, text, anchored)?;
    Ok((trials, found))
}

/// Checks that the matcher returns what the evaluator does, within as many trials as the evaluator counts. If there are
/// any, one trial less must refuse the match. Returns how many there are.
fn check_matcher(
    alloc: Global,
    code: &Code,
    text: &Text,
    anchored: bool,
    trials: u32,
    plain: &Found,
) -> Result<u32, Fail> {
    if !is_found(alloc, code, text, anchored, trials, plain)? {
        return Err("the matcher doesn't find what the plain evaluator does".into());
    }
    if trials == 0 || is_refused(code, alloc, text, anchored, trials - 1) {
        Ok(trials)
    } else {
        Err("the matcher needs fewer trials than the plain evaluator counts".into())
    }
}

fn check_beside_plain(
    alloc: Global,
    code: &Code,
    statement: &Statement,
    text: &Text,
    anchored: bool,
) -> Result<u32, Fail> {
    let (trials, found) = plain(alloc, statement, text, anchored)?;
    check_matcher(alloc, code, text, anchored, trials, &found)
}

fn check_both_beside_plain(
    alloc: Global,
    code: &Code,
    statement: &Statement,
    text: &Text,
) -> Result<u32, Fail> {
    let anchored = statement.anchored();
    check_beside_plain(alloc, code, statement, text, !anchored)?;
    check_beside_plain(alloc, code, statement, text, anchored)
}

/// Compares the matcher with the evaluator, anchored and not. Returns the trials of the statement's match.
fn trials_beside(alloc: Global, statement: &Statement, text: &Text) -> Result<u32, Fail> {
    let code = compile(alloc, statement.rules(), statement.pattern())?;
    check_both_beside_plain(alloc, &code, statement, text)
}

/// Whether a match counts, and where the search after it begins, as the rule of a pass has it.
fn passed(
    anchored: bool,
    length: usize,
    before: Option<usize>,
    start: usize,
    end: usize,
) -> (bool, Option<usize>) {
    if start != end {
        return (true, Some(end));
    }
    let next = if anchored || end >= length {
        None
    } else {
        Some(end + 1)
    };
    (before != Some(end), next)
}

/// A search of the evaluator from a cursor on: how many trials it takes, and the cursors of its match, if there is one. Past the end
/// of the text there is none.
fn plain_search(
    alloc: Global,
    statement: &Statement,
    text: &Text,
    from: usize,
) -> Result<(u64, Option<(usize, usize)>), Fail> {
    if from > text.bytes().len() {
        return Ok((0, None));
    }
    let (rules, pattern, anchored) = (statement.rules(), statement.pattern(), statement.anchored());
    let spent = sno_eval::trials_from(alloc, rules, pattern, text, anchored, from)?;
    let found = sno_eval::first_from(alloc, rules, pattern, text, anchored, from)?;
    Ok((spent, extent(&found)))
}

/// The cursors of all matches, by searches of the evaluator, and how many trials they take together.
fn plain_pass(
    alloc: Global,
    statement: &Statement,
    text: &Text,
) -> Result<(Vec<(usize, usize)>, u64), Fail> {
    let length = text.bytes().len();
    let mut matches = Vec::new(alloc);
    let mut trials = 0u64;
    let mut next = Some(0);
    let mut before = None;
    for _search in 0..length + 1 {
        let Some(from) = next else {
            break;
        };
        let (spent, found) = plain_search(alloc, statement, text, from)?;
        trials = trials.saturating_add(spent);
        let Some((start, end)) = found else {
            break;
        };
        let (counts, after) = passed(statement.anchored(), length, before, start, end);
        if counts {
            matches.push((start, end))?;
        }
        before = Some(end);
        next = after;
    }
    Ok((matches, trials))
}

/// Whether the matches have these cursors.
fn have_cursors(matches: &Matches, wanted: &[(usize, usize)]) -> bool {
    for (place, cursors) in wanted.iter().enumerate() {
        let Some(one) = matches.get(place) else {
            return false;
        };
        if (one.start, one.end) != *cursors {
            return false;
        }
    }
    matches.len() == wanted.len()
}

/// Whether the outcome has the matches with these cursors; there may be none.
fn has_matches(outcome: &Outcome, wanted: &[(usize, usize)]) -> bool {
    match outcome {
        Outcome::All { matches, .. } => have_cursors(matches, wanted),
        Outcome::Failed { .. } => wanted.is_empty(),
        Outcome::Matched { .. } | Outcome::Repeated { .. } => false,
    }
}

/// Whether the statement was performed with these matches; or refused, if it has to be.
fn is_wanted(
    performed: &Result<Outcome, StatementFault>,
    wanted: &[(usize, usize)],
    is_refused: bool,
) -> bool {
    match performed {
        Ok(outcome) => !is_refused && has_matches(outcome, wanted),
        Err(StatementFault::TextTooLong) => !is_refused,
        Err(StatementFault::TooManyTrials) => is_refused,
        Err(StatementFault::Memory) => false,
    }
}

/// Compares a statement for all matches with searches of the evaluator: the cursors of its matches, and whether their trials
/// together are within its limit.
fn check_pass(alloc: Global, statement: &Statement, text: &Text) -> Result<(), Fail> {
    let (wanted, trials) = plain_pass(alloc, statement, text)?;
    let is_refused = trials > u64::from(statement.limit());
    let performed = perform(alloc, statement, text);
    if is_wanted(&performed, wanted.as_slice(), is_refused) {
        Ok(())
    } else {
        Err("the pass doesn't find what searches of the plain evaluator do".into())
    }
}

/// How many matches an outcome has.
fn count_in(outcome: &Outcome) -> u64 {
    match outcome {
        Outcome::Matched { .. } => 1,
        Outcome::Failed { .. } => 0,
        Outcome::Repeated { matches, .. } => u64::from(*matches),
        Outcome::All { matches, .. } => matches.len() as u64,
    }
}

/// Whether a text of bytes has the characters of a text; or whether both are missing.
fn is_same_text(bytes: Option<&Arc<ByteText>>, text: Option<&Arc<Text>>) -> bool {
    match (bytes, text) {
        (Some(bytes), Some(text)) => bytes.bytes() == text.bytes(),
        (None, None) => true,
        _ => false,
    }
}

/// Whether rewriting leaves what performing does: the number of matches and the new text, or the refusal. A new text that is too
/// long for a text is none for bytes.
fn leaves_the_same(
    performed: &Result<Outcome, StatementFault>,
    rewritten: &Result<Rewritten, FileStatementFault>,
    is_repeated: bool,
) -> bool {
    match (performed, rewritten) {
        (Ok(outcome), Ok(rewritten)) => {
            rewritten.matches == count_in(outcome)
                && is_same_text(rewritten.after.as_ref(), outcome.after())
        }
        (Err(StatementFault::TextTooLong), Ok(rewritten)) => match &rewritten.after {
            Some(after) => after.bytes().len() > MAX_TEXT || is_repeated,
            None => false,
        },
        (Err(fault), Err(other)) => FileStatementFault::of(*fault, false) == *other,
        _ => false,
    }
}

/// Compares what rewriting the bytes leaves with what performing the statement does.
fn check_bytes(
    alloc: Global,
    statement: Box<Statement>,
    bytes: &ByteText,
    performed: &Result<Outcome, StatementFault>,
) -> Result<(), Fail> {
    let (limit, is_repeated) = (statement.limit(), statement.repeat().is_some());
    let for_files = FileStatement::of(alloc, Box::into_inner(statement))?;
    let rewritten = rewrite(alloc, &for_files, bytes, limit);
    if leaves_the_same(performed, &rewritten, is_repeated) {
        Ok(())
    } else {
        Err("rewriting the text leaves something else than performing the statement".into())
    }
}

/// The same for the bytes of a text.
pub(crate) fn check_rewriting(
    alloc: Global,
    statement: Box<Statement>,
    text: &Text,
) -> Result<(), Fail> {
    let bytes = ByteText::new(Vec::from_slice(alloc, text.bytes())?)?;
    let performed = perform(alloc, &statement, text);
    check_bytes(alloc, statement, &bytes, &performed)
}

/// Whether a value that is lent is the other one.
fn is_same_value(value: &DatumRef<'_>, other: &DatumRef<'_>) -> bool {
    match (value, other) {
        (DatumRef::Str(text), DatumRef::Str(other)) => text.bytes() == other.bytes(),
        (DatumRef::Int(number), DatumRef::Int(other)) => number == other,
        _ => false,
    }
}

/// Whether bindings are the same, place by place and by each name.
fn are_same_bindings(bindings: &BindingsRef<'_>, others: &BindingsRef<'_>) -> bool {
    for place in 0..bindings.len() {
        let (Some((name, value)), Some((other, other_value))) = (
            bindings.get(place),
            others.get(place),
        ) else {
            return false;
        };
        let Some(by_name) = others.value(name) else {
            return false;
        };
        if name != other
            || !is_same_value(&value, &other_value)
            || !is_same_value(&value, &by_name)
        {
            return false;
        }
    }
    bindings.len() == others.len() && bindings.is_empty() == others.is_empty()
}

fn is_same_match(one: &Match, other: &MatchRef<'_>) -> bool {
    one.start == other.start
        && one.end == other.end
        && are_same_bindings(&one.bindings.lend(), &other.bindings)
}

/// Whether the next match of a pass is the one at a place of the matches, or there is none at either.
fn is_next(next: &Result<Option<Match>, StatementFault>, matches: &Matches, place: usize) -> bool {
    match (next, matches.get(place)) {
        (Ok(Some(next)), Some(kept)) => is_same_match(next, &kept),
        (Ok(None), None) => true,
        _ => false,
    }
}

/// Compares the matches that the pass gives one after the other with these, and that there is none after them.
fn check_matches(alloc: Global, pass: Pass<'_, '_, '_>, matches: &Matches) -> Result<(), Fail> {
    let mut pass = pass;
    for place in 0..matches.len().saturating_add(1) {
        if !is_next(&pass.next(alloc), matches, place) {
            return Err("a match of the pass is another than that of the outcome".into());
        }
    }
    Ok(())
}

fn check_each_of(
    alloc: Global,
    statement: &Statement,
    text: &Text,
    matches: &Matches,
) -> Result<(), Fail> {
    let code = compile(alloc, statement.rules(), statement.pattern())?;
    check_matches(alloc, Pass::new(alloc, statement, &code, text), matches)
}

/// Compares the matches that a pass gives one after the other with those of the outcome.
fn check_each_match(alloc: Global, statement: &Statement, text: &Text) -> Result<(), Fail> {
    match &perform(alloc, statement, text) {
        Ok(Outcome::All { matches, .. }) => check_each_of(alloc, statement, text, matches),
        _ => Ok(()),
    }
}

/// Compares the matcher with the evaluator, anchored and not. If the statement is for one match, and a number of trials is
/// expected, compares that too.
pub(crate) fn check_beside(
    alloc: Global,
    statement: &Statement,
    text: &Text,
    expected: Option<u32>,
) -> Result<(), Fail> {
    let trials = trials_beside(alloc, statement, text)?;
    if statement.is_for_all() {
        check_pass(alloc, statement, text)?;
        check_each_match(alloc, statement, text)?;
    }
    if statement.repeat().is_some()
        || statement.is_for_all()
        || expected.unwrap_or(trials) == trials
    {
        Ok(())
    } else {
        Err(Fail::new(format_args!("the match takes {trials} trials")))
    }
}
