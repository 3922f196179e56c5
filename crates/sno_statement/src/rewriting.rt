//! What a statement makes of the content of a file, without its matches.
ghost use Rattle.std.specs.Prelude.{◌≡◌, ◌<◌, ◌≤◌, ◌+◌, ◌^◌, ◌++◌, length, IfOk, IfErr, IfSome, MatchOption, None, Some, unwrap_or};
ghost use Rattle.sno_pattern.specs.CursorLaws.{SetsLie};
ghost use Rattle.sno_pattern.specs.Ends.{part};
ghost use Rattle.sno_pattern.specs.declared.byte_texts.TheConstants.{MAX_BYTES};
ghost use Rattle.sno_statement.specs.declared.outcomes.StatementFault.TheVariants.{TooManyTrials, TextTooLong};
ghost use Rattle.sno_statement.specs.FileFaults.{plain};
ghost use Rattle.sno_statement.specs.Passes.{begun, match_by, matches_left, replaced, trials_together};
ghost use Rattle.sno_statement.specs.Perform.{IsCodeOf, finish_found_within, perform_all_within, perform_once_within, perform_times_within, perform_within};
ghost use Rattle.sno_statement.specs.Rewriting.{GivesBytes, GivesRewritten, GivesRound, IsReplaced, finished, left_by, rewriting};
ghost use Rattle.sno_statement.specs.Statement.{with_limit};
ghost use Rattle.sno_statement.specs.Value.{new_text, value_of};

use crate::assigned::Assigned;
use crate::file_searches::{first_alone, first_in};
use crate::searches::Searches;
use crate::spans::Spans;
use crate::values::{back, between, front};
use crate::{FileStatement, FileStatementFault};
use sno_machine::{Code, MAX_KEPT, Workspace, compile};
use sno_pattern::{Assigns, ByteText, Found, Hit, MAX_BYTES};
use sno_read::ByteObject;
use std::alloc::{AllocError, Global};
use std::sync::Arc;

/// What a statement made of a text of bytes.
#[derive(Drop)]
pub struct Rewritten {
    /// How many matches there were, fewer than 4,294,967,296. A repeated statement has one for each round that matched.
    pub matches: u64,
    /// The new text, if there is one.
    pub after: Option<Arc<ByteText>>,
}

/// A statement with an object, its code, and how many trials the match of each round may take.
#[derive(Clone, Copy)]
struct Rounds<'c, 'a> {
    code: &'c Code<'a>,
    statement: &'c FileStatement,
    object: &'c ByteObject,
    trials: u32,
}

/// A match in the bytes that were searched, with what its search assigned at once.
#[derive(Clone, Copy)]
struct FoundIn<'f> {
    subject: &'f [u8],
    sets: &'f Assigns,
    hit: &'f Hit,
}

/// The text of these bytes. They are no more than a text can have.
fn text_of(bytes: Vec<u8>) -> ByteText
    requires { length bytes.items ≤ MAX_BYTES }
    ensures { result ≡ bytes.items }
{
    match ByteText::new(bytes) {
        Ok(text) => text,
        Err(_) => unreachable!(),
    }
}

/// The object's value, with what comes before and after it. If `size` is the length of all, their memory is taken at once.
fn joined(
    alloc: Global,
    before: &[u8],
    object: &ByteObject,
    values: &Spans<'_>,
    after: &[u8],
    size: usize,
) -> Result<ByteText, AllocError>
    requires { length before.now + length after.now + length (value_of values.now object.now) ≤ MAX_BYTES }
    ensures { IfOk result (λ text. text ≡ before.now ++ (value_of values.now object.now ++ after.now)) }
{
    let mut bytes = Vec::with_capacity(alloc, size)?;
    bytes.extend_from_slice(before)?;
    values.put(alloc, object.parts(), &mut bytes)?;
    bytes.extend_from_slice(after)?;
    Ok(text_of(bytes))
}

/// The text in which the object's value replaces the match of a search. Its length is known before any of it is written.
fn new_text(
    alloc: Global,
    object: &ByteObject,
    subject: &[u8],
    sets: &Assigns,
    hit: &Hit,
) -> Result<ByteText, FileStatementFault>
    requires short { length subject.now ≤ MAX_BYTES }
    requires lies { SetsLie subject.now sets.now }
    ensures { GivesBytes result (new_text subject.now hit.now.start hit.now.end (value_of (match_by subject.now sets.now hit.now).bindings object.now)) }
{
    let mut one = Assigned::new(alloc);
    one.replace(alloc, subject, sets.as_slice(), hit.conds.as_slice())?;
    let values = Spans::of(subject, one.as_slice());
    let before = front(subject, hit.start);
    let after = back(subject, hit.end);
    let Some(size) = values.length_with(before.len() + after.len(), object.parts()) else {
        return Err(FileStatementFault::TextTooLong);
    };
    let new = joined(alloc, before, object, &values, after, size)?;
    Ok(new)
}

/// What is done to the text after a search of a statement with an object: the new text, or `None` if the search failed.
fn finish(
    alloc: Global,
    object: &ByteObject,
    subject: &ByteText,
    found: &Found,
) -> Result<Option<ByteText>, FileStatementFault>
    requires { SetsLie subject.now found.now.sets }
    ensures { GivesRound result (finish_found_within MAX_BYTES (Some object.now) subject.now found.now) }
{
    match &found.end {
        None => Ok(None),
        Some(hit) => {
            let after = new_text(alloc, object, subject.bytes(), &found.sets, hit)?;
            Ok(Some(after))
        }
    }
}

/// One round: the new text, or `None` if the round failed. The code is that of the statement's pattern.
fn round<'a>(
    alloc: Global,
    rounds: Rounds<'_, 'a>,
    workspace: &mut Workspace<'a>,
    subject: &ByteText,
) -> Result<Option<ByteText>, FileStatementFault>
    requires code { IsCodeOf rounds.code.now rounds.statement.now }
    requires object { rounds.statement.now.object ≡ Some rounds.object.now }
    ensures { GivesRound result (perform_once_within MAX_BYTES (with_limit rounds.entry.statement.now rounds.entry.trials) subject.now) }
{
    let anchored = rounds.statement.search().anchored();
    let found = first_in(
        alloc,
        rounds.code,
        workspace,
        subject,
        anchored,
        rounds.trials,
    )?;
    let after = finish(alloc, rounds.object, subject, &found);
    workspace.give_back(found);
    after
}

/// The text for the next round: the new text of the round before, if there was one.
fn latest<'t>(last: &'t Option<ByteText>, subject: &'t ByteText) -> &'t ByteText
    ensures { result.now ≡ unwrap_or last.now subject.now }
{
    match last {
        None => subject,
        Some(text) => text,
    }
}

/// How many rounds a statement may have: one if it isn't repeated.
fn rounds_of(statement: &FileStatement) -> u32
    ensures value { result ≡ unwrap_or statement.now.repeat 1 }
    ensures some { 1 ≤ result }
{
    match statement.repeat() {
        None => 1,
        Some(times) => times,
    }
}

/// What this many rounds leave, with the new text of the last one; `None` if none matched.
fn left_by(
    alloc: Global,
    matches: u32,
    last: Option<ByteText>,
) -> Result<Rewritten, FileStatementFault>
    ensures rewritten { GivesRewritten result (left_by matches last) }
    ensures few { IfOk result (λ r. r.matches < 2 ^ 32) }
{
    let after = match last {
        None => None,
        Some(text) => Some(Arc::new(alloc, text)?),
    };
    Ok(Rewritten {
        matches: u64::from(matches),
        after,
    })
}

/// As [`rewrite`], of a statement with an object that is not for all matches: in rounds, up to `times`. One text and its new text
/// are held at a time, beside the subject.
fn rewrite_rounds(
    alloc: Global,
    rounds: Rounds<'_, '_>,
    subject: &ByteText,
    times: u32,
) -> Result<Rewritten, FileStatementFault>
    requires code { IsCodeOf rounds.code.now rounds.statement.now }
    requires object { rounds.statement.now.object ≡ Some rounds.object.now }
    requires some { 1 ≤ times }
    ensures rewritten { GivesRewritten result (rewriting (perform_times_within MAX_BYTES (with_limit rounds.entry.statement.now rounds.entry.trials) (Some times) subject.now)) }
    ensures few { IfOk result (λ r. r.matches < 2 ^ 32) }
{
    let mut workspace = Workspace::bounded(alloc, MAX_KEPT);
    let mut last = None;
    for matches in 0..times {
        let text = latest(&last, subject);
        match round(alloc, rounds, &mut workspace, text)? {
            None => return left_by(alloc, matches, last),
            Some(next) => last = Some(next),
        }
    }
    left_by(alloc, times, last)
}

/// As [`rewrite`], of a statement without an object that is not for all matches.
fn match_once(
    alloc: Global,
    code: &Code<'_>,
    statement: &FileStatement,
    subject: &ByteText,
    trials: u32,
) -> Result<Rewritten, FileStatementFault>
    requires code { IsCodeOf code.now statement.now }
    requires object { statement.now.object ≡ None }
    ensures rewritten { GivesRewritten result (rewriting (perform_once_within MAX_BYTES (with_limit statement.now trials) subject.now)) }
    ensures few { IfOk result (λ r. r.matches < 2 ^ 32) }
{
    let anchored = statement.search().anchored();
    let found = first_alone(alloc, code, subject, anchored, trials)?;
    let matches = if found.end.is_some() { 1 } else { 0 };
    Ok(Rewritten {
        matches,
        after: None,
    })
}

/// Adds what comes before a match, and the object's value for it, to a text; `None` if the text is too long then.
fn with_match(
    alloc: Global,
    text: Option<Vec<u8>>,
    kept: &[u8],
    object: &ByteObject,
    values: &Spans<'_>,
) -> Result<Option<Vec<u8>>, AllocError>
    requires text { IfSome text (λ v. length v.items ≤ MAX_BYTES) }
    requires kept { length kept.now ≤ MAX_BYTES }
    ensures added { IfOk result (λ new. MatchOption text (new ≡ None) (λ v. MatchOption new (MAX_BYTES < length ((v.items ++ kept.now) ++ value_of values.now object.now)) (λ w. w.items ≡ (v.items ++ kept.now) ++ value_of values.now object.now))) }
    ensures short { IfOk result (λ new. IfSome new (λ v. length v.items ≤ MAX_BYTES)) }
{
    let Some(mut text) = text else {
        return Ok(None);
    };
    if values
        .length_with(text.len() + kept.len(), object.parts())
        .is_none()
    {
        return Ok(None);
    }
    text.extend_from_slice(kept)?;
    values.put(alloc, object.parts(), &mut text)?;
    Ok(Some(text))
}

/// Adds what lies between a cursor and the match of a search, and the object's value for it; `None` if the text is too long then.
fn with_hit(
    alloc: Global,
    text: Option<Vec<u8>>,
    cursor: usize,
    object: &ByteObject,
    one: &mut Assigned,
    found: FoundIn<'_>,
) -> Result<Option<Vec<u8>>, AllocError>
    requires subject { length found.subject.now ≤ MAX_BYTES }
    requires lies { SetsLie found.subject.now found.sets.now }
    requires text { IfSome text (λ v. length v.items ≤ MAX_BYTES) }
    ensures added { IfOk result (λ new. MatchOption text (new ≡ None) (λ v. MatchOption new (MAX_BYTES < length ((v.items ++ part found.entry.subject.now cursor found.entry.hit.now.start) ++ value_of (match_by found.entry.subject.now found.entry.sets.now found.entry.hit.now).bindings object.now)) (λ w. w.items ≡ (v.items ++ part found.entry.subject.now cursor found.entry.hit.now.start) ++ value_of (match_by found.entry.subject.now found.entry.sets.now found.entry.hit.now).bindings object.now))) }
    ensures short { IfOk result (λ new. IfSome new (λ v. length v.items ≤ MAX_BYTES)) }
{
    let FoundIn { subject, sets, hit } = found;
    one.replace(alloc, subject, sets.as_slice(), hit.conds.as_slice())?;
    let values = Spans::of(subject, one.as_slice());
    let kept = between(subject, cursor, hit.start);
    let new = with_match(alloc, text, kept, object, &values)?;
    Ok(new)
}

/// Adds the end of a text; `None` if the text is too long then.
fn with_end(text: Option<Vec<u8>>, end: &[u8]) -> Result<Option<Vec<u8>>, AllocError>
    requires text { IfSome text (λ v. length v.items ≤ MAX_BYTES) }
    requires end { length end.now ≤ MAX_BYTES }
    ensures added { IfOk result (λ new. MatchOption text (new ≡ None) (λ v. MatchOption new (MAX_BYTES < length (v.items ++ end.now)) (λ w. w.items ≡ v.items ++ end.now))) }
    ensures short { IfOk result (λ new. IfSome new (λ v. length v.items ≤ MAX_BYTES)) }
{
    let Some(mut text) = text else {
        return Ok(None);
    };
    if text.len() + end.len() > MAX_BYTES {
        return Ok(None);
    }
    text.extend_from_slice(end)?;
    Ok(Some(text))
}

/// How many matches are left of a pass, and the text in which each is replaced; `None` for a text that is too long. No match is
/// kept.
fn replace_left(
    alloc: Global,
    subject: &[u8],
    pass: &mut Searches<'_, '_, '_>,
    object: &ByteObject,
) -> Result<(u64, Option<Vec<u8>>), FileStatementFault>
    requires few { length (matches_left pass.old) ≤ MAX_BYTES + 1 }
    requires short { length subject.now ≤ MAX_BYTES }
    requires text { pass.old.text ≡ subject.now }
    ensures replaced { IfOk result (λ left. IsReplaced (replaced object.now subject.now 0 (matches_left pass.old)) left.1) }
    ensures counted { IfOk result (λ left. left.0 ≡ length (matches_left pass.old)) }
    ensures within { IfOk result (λ _. trials_together pass.old ≤ pass.old.statement.limit) }
    ensures refused { IfErr result (λ e. plain e ≡ TooManyTrials → pass.old.statement.limit < trials_together pass.old) }
    ensures never { IfErr result (λ e. plain e ≡ TextTooLong → ⊥) }
{
    let mut one = Assigned::new(alloc);
    let mut text = Some(Vec::new(alloc));
    let mut cursor = 0;
    let mut matches = 0;
    while let Some((sets, hit)) = pass.next_in_file(alloc)? {
        let found = FoundIn {
            subject,
            sets: &sets,
            hit: &hit,
        };
        let added = with_hit(alloc, text, cursor, object, &mut one, found);
        cursor = hit.end;
        matches += 1;
        // The match is given back before an early exit, which would have to drop it.
        pass.give_back(sets, hit);
        text = added?;
    }
    let end = back(subject, cursor);
    let text = with_end(text, end)?;
    Ok((matches, text))
}

/// What this number of matches leaves, with the text in which they are replaced. Without a match there is no new text.
fn finished(
    alloc: Global,
    matches: u64,
    text: Option<Vec<u8>>,
) -> Result<Rewritten, FileStatementFault>
    requires text { IfSome text (λ v. length v.items ≤ MAX_BYTES) }
    requires few { matches < 2 ^ 32 }
    ensures rewritten { GivesRewritten result (finished matches text) }
    ensures few { IfOk result (λ r. r.matches < 2 ^ 32) }
{
    if matches == 0 {
        return Ok(Rewritten {
            matches,
            after: None,
        });
    }
    match text {
        None => Err(FileStatementFault::TextTooLong),
        Some(text) => Ok(Rewritten {
            matches,
            after: Some(Arc::new(alloc, text_of(text))?),
        }),
    }
}

/// As [`rewrite`], of a statement for all matches, by a pass that has just begun.
fn rewrite_pass(
    alloc: Global,
    statement: &FileStatement,
    subject: &ByteText,
    pass: &mut Searches<'_, '_, '_>,
    trials: u32,
) -> Result<Rewritten, FileStatementFault>
    requires { pass.old ≡ begun (with_limit statement.now trials) subject.now }
    ensures rewritten { GivesRewritten result (rewriting (perform_all_within MAX_BYTES (with_limit statement.now trials) subject.now)) }
    ensures few { IfOk result (λ r. r.matches < 2 ^ 32) }
{
    let bytes = subject.bytes();
    match statement.object() {
        None => {
            let matches = pass.count_in_file(alloc)?;
            Ok(Rewritten {
                matches,
                after: None,
            })
        }
        Some(object) => {
            let (matches, text) = replace_left(alloc, bytes, pass, object)?;
            finished(alloc, matches, text)
        }
    }
}

/// As [`rewrite`], of a statement for all matches. The code is that of the statement's pattern.
fn rewrite_all(
    alloc: Global,
    code: &Code<'_>,
    statement: &FileStatement,
    subject: &ByteText,
    trials: u32,
) -> Result<Rewritten, FileStatementFault>
    requires { IsCodeOf code.now statement.now }
    ensures rewritten { GivesRewritten result (rewriting (perform_all_within MAX_BYTES (with_limit statement.now trials) subject.now)) }
    ensures few { IfOk result (λ r. r.matches < 2 ^ 32) }
{
    let mut pass = Searches::in_bytes(alloc, statement, code, subject, trials);
    rewrite_pass(alloc, statement, subject, &mut pass, trials)
}

/// As [`rewrite`], of a statement that is not for all matches: once, or in rounds.
fn rewrite_times(
    alloc: Global,
    code: &Code<'_>,
    statement: &FileStatement,
    subject: &ByteText,
    trials: u32,
) -> Result<Rewritten, FileStatementFault>
    requires { IsCodeOf code.now statement.now }
    ensures rewritten { GivesRewritten result (rewriting (perform_times_within MAX_BYTES (with_limit statement.now trials) statement.now.repeat subject.now)) }
    ensures few { IfOk result (λ r. r.matches < 2 ^ 32) }
{
    match statement.object() {
        None => match_once(alloc, code, statement, subject, trials),
        Some(object) => {
            let times = rounds_of(statement);
            let rounds = Rounds {
                code,
                statement,
                object,
                trials,
            };
            rewrite_rounds(alloc, rounds, subject, times)
        }
    }
}

/// Performs a statement on the content of a file, as [`crate::perform`] does on a text, and returns only how many matches there
/// were and the new text. `trials` is the limit in place of the statement's own: of the trials of each round's match, or of all
/// searches together if the statement is for all matches.
///
/// No match and no binding is kept, and the new text is written as matches are found. So beside the text and the new one (of a
/// repeated statement, also that of the round before) it needs only the memory of one match, however many there are.
///
/// Refused, in each round:
/// - `TooManyTrials` exactly if the match takes more trials than the limit; of a statement for all matches, if all searches
///   together do;
/// - then `TextTooLong` exactly if the new text would have more than 16,777,216 bytes;
/// - `HistoryTooLong` only if a search would have to keep more than [`MAX_KEPT`] entries in its history, and `Memory` at any
///   allocation that fails; each so instead of any refusal that would have come later.
pub fn rewrite(
    alloc: Global,
    statement: &FileStatement,
    subject: &ByteText,
    trials: u32,
) -> Result<Rewritten, FileStatementFault>
    ensures rewritten { GivesRewritten result (rewriting (perform_within MAX_BYTES (with_limit statement.now trials) subject.now)) }
    ensures few { IfOk result (λ r. r.matches < 2 ^ 32) }
{
    let search = statement.search();
    let code = compile(alloc, search.rules(), search.pattern())?;
    rewrite_with(alloc, statement, &code, subject, trials)
}

/// As [`rewrite`], with the code of the statement's pattern, which is compiled with its definitions.
pub fn rewrite_with(
    alloc: Global,
    statement: &FileStatement,
    code: &Code<'_>,
    subject: &ByteText,
    trials: u32,
) -> Result<Rewritten, FileStatementFault>
    requires { IsCodeOf code.now statement.now }
    ensures rewritten { GivesRewritten result (rewriting (perform_within MAX_BYTES (with_limit statement.now trials) subject.now)) }
    ensures few { IfOk result (λ r. r.matches < 2 ^ 32) }
{
    if statement.search().is_for_all() {
        rewrite_all(alloc, code, statement, subject, trials)
    } else {
        rewrite_times(alloc, code, statement, subject, trials)
    }
}
