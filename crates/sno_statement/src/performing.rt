//! What a statement does to a text.
ghost use Rattle.std.specs.Prelude.{◌≡◌, ◌<◌, ◌≤◌, ◌-◌, ◌++◌, ◌∷◌, ℕ, List, Result, IfOk, IfErr, OnOk, Ok, [], Some, None};
ghost use Rattle.std.specs.Option.{option_copied};
ghost use Rattle.std.specs.Arc.{arc_value};
ghost use Rattle.sno_pattern.specs.CursorLaws.{SetsLie};
ghost use Rattle.sno_statement.specs.declared.outcomes.StatementFault.{StatementFault};
ghost use Rattle.sno_statement.specs.declared.outcomes.StatementFault.TheVariants.{TooManyTrials, TextTooLong};
ghost use Rattle.sno_statement.specs.declared.match_lists.Match.{Match};
ghost use Rattle.sno_statement.specs.Gathered.{AreGathered};
ghost use Rattle.sno_statement.specs.Passes.{begun, match_by, matches_left, replaced, trials_together};
ghost use Rattle.sno_statement.specs.Bindings.{bind_sets, bind_conds};
ghost use Rattle.sno_statement.specs.Value.{value_of, new_text};
ghost use Rattle.sno_statement.specs.Perform.{Failed, Repeated, Gives, GivesText, IsCodeOf, NextRound, outcome_seen, finish, finish_found, finish_all, follow, left_by, perform, perform_all, perform_once, perform_times, rounds};

use crate::assigned::MANY;
use crate::gathered::Gathered;
use crate::last_assignments::{Last, LastAssignments};
use crate::lengths::{new_length, replaced_length};
use crate::match_lists::Matches;
use crate::searches::Searches;
use crate::values::{copy_of, replace, replace_all, text_of};
use crate::{Bindings, Outcome, Statement, StatementFault};
use sno_machine::{Code, Workspace, compile};
use sno_pattern::{Assign, Assigns, Found, Hit, Name, Text, cursors_lie_within_the_text};
use sno_read::{Object, Part};
use std::alloc::{AllocError, Global};
use std::sync::Arc;

/// Binds what was assigned at once, after what is already bound.
fn bind_at_once(
    alloc: Global,
    subject: &Text,
    bindings: &mut Bindings,
    sets: &[Assign],
) -> Result<(), AllocError>
    requires { SetsLie subject.now sets.now }
    ensures { OnOk result (bindings.new ≡ bind_sets subject.now bindings.old sets.now) }
{
    for set in sets {
        Last::of(subject.bytes(), set.what).bind_in(alloc, subject, set.name, bindings)?;
    }
    Ok(())
}

/// Binds the conditional assignments, after what is already bound.
fn bind_later(
    alloc: Global,
    subject: &Text,
    bindings: &mut Bindings,
    conds: &[(Name, usize, usize)],
) -> Result<(), AllocError>
    ensures { OnOk result (bindings.new ≡ bind_conds subject.now bindings.old conds.now) }
{
    for (name, from, to) in conds {
        Last::Part(*from, *to).bind_in(alloc, subject, *name, bindings)?;
    }
    Ok(())
}

/// What the variables are bound to after few assignments.
#[inline]
fn bind_few(
    alloc: Global,
    subject: &Text,
    sets: &[Assign],
    conds: &[(Name, usize, usize)],
) -> Result<Bindings, AllocError>
    requires { SetsLie subject.now sets.now }
    ensures { IfOk result (λ b. b ≡ bind_conds subject.now (bind_sets subject.now [] sets.now) conds.now) }
{
    let mut bindings = Bindings::new(alloc);
    bind_at_once(alloc, subject, &mut bindings, sets)?;
    bind_later(alloc, subject, &mut bindings, conds)?;
    Ok(bindings)
}

/// What the variables are bound to after these assignments. Of `MANY`, only the last one of each variable is bound.
pub(crate) fn bindings_of(
    alloc: Global,
    subject: &Text,
    sets: &[Assign],
    conds: &[(Name, usize, usize)],
) -> Result<Bindings, AllocError>
    requires { SetsLie subject.now sets.now }
    ensures { IfOk result (λ b. b ≡ bind_conds subject.now (bind_sets subject.now [] sets.now) conds.now) }
{
    if sets.len() < MANY && conds.len() < MANY {
        return bind_few(alloc, subject, sets, conds);
    }
    let lasts = LastAssignments::of_match(alloc, subject.bytes(), sets, conds)?;
    lasts.to_bindings(alloc, subject)
}

/// What a success does: its bindings, and the new text if there is an object.
fn succeed(
    alloc: Global,
    object: Option<&Object>,
    subject: &Text,
    hit: &Hit,
    bindings: Bindings,
) -> Result<Outcome, StatementFault>
    ensures { Gives result (finish (option_copied object.entry) subject.now bindings (Some hit.now)) }
{
    let after = match object {
        None => None,
        Some(object) => Some(new_text(alloc, object.parts(), subject, hit, &bindings)?),
    };
    Ok(Outcome::Matched {
        start: hit.start,
        end: hit.end,
        bindings,
        after,
    })
}

/// The text that the replacement leaves. If it is too long, nothing is copied.
fn new_text(
    alloc: Global,
    parts: &[Part],
    subject: &Text,
    hit: &Hit,
    bindings: &Bindings,
) -> Result<Arc<Text>, StatementFault>
    ensures { GivesText result (new_text subject.now hit.now.start hit.now.end (value_of bindings.now parts.now)) }
{
    let lent = bindings.lend();
    let Some(length) = new_length(subject, hit.start, hit.end, parts, &lent) else {
        return Err(StatementFault::TextTooLong);
    };
    let characters = replace(alloc, subject, hit, parts, &lent, length)?;
    Ok(Arc::new(alloc, text_of(characters))?)
}

/// What a search that failed does: what it assigned at once stays bound.
fn failed(alloc: Global, subject: &Text, sets: &[Assign]) -> Result<Outcome, StatementFault>
    requires { SetsLie subject.now sets.now }
    ensures { Gives result (Ok (Failed (bind_conds subject.now (bind_sets subject.now [] sets.now) []))) }
{
    let bindings = bindings_of(alloc, subject, sets, &[])?;
    Ok(Outcome::Failed { bindings })
}

/// What is done to the text after a match with this outcome.
fn finish(
    alloc: Global,
    object: Option<&Object>,
    subject: &Text,
    found: &Found,
) -> Result<Outcome, StatementFault>
    requires { SetsLie subject.now found.now.sets }
    ensures { Gives result (finish_found (option_copied object.entry) subject.now found.now) }
{
    let sets = found.sets.as_slice();
    match &found.end {
        None => failed(alloc, subject, sets),
        Some(hit) => {
            let bindings = bindings_of(alloc, subject, sets, hit.conds.as_slice())?;
            succeed(alloc, object, subject, hit, bindings)
        }
    }
}

/// Performs one round of a statement. The code is that of the statement's pattern.
fn perform_once<'a>(
    alloc: Global,
    code: &Code<'a>,
    workspace: &mut Workspace<'a>,
    statement: &Statement,
    subject: &Text,
) -> Result<Outcome, StatementFault>
    requires { IsCodeOf code.now statement.now }
    ensures { Gives result (perform_once statement.now subject.now) }
{
    // for the proof
    cursors_lie_within_the_text();
    let anchored = statement.anchored();
    let found = code.first_in(alloc, workspace, subject, anchored, statement.limit())?;
    let outcome = finish(alloc, statement.object(), subject, &found);
    workspace.give_back(found);
    outcome
}

/// What a round that matched leaves to the next one: its bindings and its new text. Any other outcome is returned as the error.
fn left_by(round: Outcome) -> Result<(Bindings, Arc<Text>), Outcome>
    ensures left { IfOk result (λ left. left_by (outcome_seen round) ≡ Some (left.0, arc_value left.1)) }
    ensures none { IfErr result (λ other. (other ≡ round) × (left_by (outcome_seen round) ≡ None)) }
{
    match round {
        Outcome::Matched {
            start,
            end,
            bindings,
            after,
        } => match after {
            Some(text) => Ok((bindings, text)),
            None => Err(Outcome::Matched {
                start,
                end,
                bindings,
                after: None,
            }),
        },
        other => Err(other),
    }
}

/// The outcome after `matches` matches, with what the last one left.
fn repeated(matches: u32, last: (Bindings, Arc<Text>)) -> Outcome
    ensures { outcome_seen result ≡ Repeated matches last.0 (arc_value last.1) }
{
    let (bindings, after) = last;
    Outcome::Repeated {
        matches,
        bindings,
        after,
    }
}

/// The outcome of rounds that end with a round that left nothing. If that round failed, they come to `matches` matches, with
/// what the last one left. Any other outcome of the round is returned as it is.
fn end_with(round: Outcome, matches: u32, last: (Bindings, Arc<Text>)) -> Outcome
    requires { left_by (outcome_seen round) ≡ None }
    ensures { (go_on : NextRound) → follow (Ok (outcome_seen round)) (λ _. Repeated matches last.0 (arc_value last.1)) go_on ≡ Ok (outcome_seen result) }
{
    match round {
        Outcome::Failed { .. } => repeated(matches, last),
        other => other,
    }
}

/// Performs the rounds that follow a first one that matched, up to `times` in all. One text and its new text are held at a time.
fn go_on<'a>(
    alloc: Global,
    code: &Code<'a>,
    workspace: &mut Workspace<'a>,
    statement: &Statement,
    mut last: (Bindings, Arc<Text>),
    times: u32,
) -> Result<Outcome, StatementFault>
    requires code { IsCodeOf code.now statement.now }
    requires some { 1 ≤ times }
    ensures { Gives result (rounds statement.now (times - 1) 1 last.0 (arc_value last.1)) }
{
    for matches in 1..times {
        match left_by(perform_once(alloc, code, workspace, statement, &last.1)?) {
            Ok(left) => last = left,
            Err(other) => return Ok(end_with(other, matches, last)),
        }
    }
    Ok(repeated(times, last))
}

/// Performs the rounds that follow the first one, up to `times` in all.
fn follow<'a>(
    alloc: Global,
    code: &Code<'a>,
    workspace: &mut Workspace<'a>,
    statement: &Statement,
    first: Outcome,
    times: u32,
) -> Result<Outcome, StatementFault>
    requires code { IsCodeOf code.now statement.now }
    requires some { 1 ≤ times }
    ensures { Gives result (follow (Ok (outcome_seen first)) Failed (rounds statement.now (times - 1) 1)) }
{
    match left_by(first) {
        Ok(left) => go_on(alloc, code, workspace, statement, left, times),
        Err(ended) => Ok(ended),
    }
}

/// The text in which each match is replaced. If it is too long, nothing is copied; otherwise it is written once.
fn replaced_text(
    alloc: Global,
    parts: &[Part],
    subject: &Text,
    matches: &Matches,
) -> Result<Arc<Text>, StatementFault>
    ensures { GivesText result (replaced parts.now subject.now 0 matches.now) }
{
    let Some(length) = replaced_length(subject, parts, matches) else {
        return Err(StatementFault::TextTooLong);
    };
    let characters = replace_all(alloc, subject, parts, matches, length)?;
    Ok(Arc::new(alloc, text_of(characters))?)
}

/// What all matches do to the text.
fn finish_all(
    alloc: Global,
    object: Option<&Object>,
    subject: &Text,
    matches: Matches,
) -> Result<Outcome, StatementFault>
    ensures { Gives result (finish_all (option_copied object.entry) subject.now matches) }
{
    let after = match object {
        None => None,
        Some(object) => Some(replaced_text(alloc, object.parts(), subject, &matches)?),
    };
    Ok(Outcome::All { matches, after })
}

/// Adds the matches that are left of a pass to those that were gathered.
fn gather(
    alloc: Global,
    subject: &Text,
    pass: &mut Searches<'_, '_, '_>,
    gathered: &mut Gathered,
) -> Result<(), StatementFault>
    requires { pass.old.text ≡ subject.now }
    ensures matches { OnOk result ((ms : List Match) → AreGathered subject.now gathered.old ms → AreGathered subject.now gathered.new (ms ++ matches_left pass.old)) }
    ensures within { OnOk result (trials_together pass.old ≤ pass.old.statement.limit) }
    ensures refused { IfErr result (λ e. e ≡ TooManyTrials → pass.old.statement.limit < trials_together pass.old) }
    ensures never { IfErr result (λ e. e ≡ TextTooLong → ⊥) }
{
    while let Some((sets, hit)) = pass.next_hit(alloc)? {
        gathered.add(alloc, subject, &sets, &hit)?;
        pass.give_back(sets, hit);
    }
    Ok(())
}

/// The match that a pass found last, and those that are left of it. Their strings are parts of the shared text.
fn gathered(
    alloc: Global,
    subject: &Text,
    shared: &Arc<Text>,
    pass: &mut Searches<'_, '_, '_>,
    sets: &Assigns,
    hit: &Hit,
) -> Result<Matches, StatementFault>
    requires same { arc_value shared.now ≡ subject.now }
    requires text { pass.old.text ≡ subject.now }
    requires lies { SetsLie subject.now sets.now }
    ensures matches { IfOk result (λ ms. ms ≡ match_by subject.now sets.now hit.now ∷ matches_left pass.old) }
    ensures within { IfOk result (λ _. trials_together pass.old ≤ pass.old.statement.limit) }
    ensures refused { IfErr result (λ e. e ≡ TooManyTrials → pass.old.statement.limit < trials_together pass.old) }
    ensures never { IfErr result (λ e. e ≡ TextTooLong → ⊥) }
{
    let mut found = Gathered::new(alloc);
    found.add(alloc, subject, sets, hit)?;
    gather(alloc, subject, pass, &mut found)?;
    let shared = Arc::try_clone(shared)?;
    Ok(found.into_matches(shared))
}

/// Performs a statement for all matches, by a pass that has just begun.
fn perform_pass(
    alloc: Global,
    statement: &Statement,
    subject: &Text,
    shared: &Arc<Text>,
    pass: &mut Searches<'_, '_, '_>,
) -> Result<Outcome, StatementFault>
    requires same { arc_value shared.now ≡ subject.now }
    requires begun { pass.old ≡ begun statement.now subject.now }
    ensures { Gives result (perform_all statement.now subject.now) }
{
    let found = pass.search(alloc, 0)?;
    match &found.end {
        None => failed(alloc, subject, found.sets.as_slice()),
        Some(hit) => {
            let matches = gathered(alloc, subject, shared, pass, &found.sets, hit)?;
            finish_all(alloc, statement.object(), subject, matches)
        }
    }
}

/// Performs a statement for all matches.
fn perform_all(
    alloc: Global,
    statement: &Statement,
    subject: &Text,
    shared: &Arc<Text>,
) -> Result<Outcome, StatementFault>
    requires { arc_value shared.now ≡ subject.now }
    ensures { Gives result (perform_all statement.now subject.now) }
{
    let code = compile(alloc, statement.rules(), statement.pattern())?;
    let mut pass = Searches::in_text(alloc, statement, &code, subject);
    perform_pass(alloc, statement, subject, shared, &mut pass)
}

/// As [`perform_rounds`], with the code of the statement's pattern.
fn perform_times<'a>(
    alloc: Global,
    code: &Code<'a>,
    workspace: &mut Workspace<'a>,
    statement: &Statement,
    subject: &Text,
) -> Result<Outcome, StatementFault>
    requires { IsCodeOf code.now statement.now }
    ensures { Gives result (perform_times statement.now statement.now.repeat subject.now) }
{
    let first = perform_once(alloc, code, workspace, statement, subject)?;
    match statement.repeat() {
        None => Ok(first),
        Some(times) => follow(alloc, code, workspace, statement, first, times),
    }
}

/// Performs a statement that is not for all matches: once, or in rounds.
fn perform_rounds(
    alloc: Global,
    statement: &Statement,
    subject: &Text,
) -> Result<Outcome, StatementFault>
    ensures { Gives result (perform_times statement.now statement.now.repeat subject.now) }
{
    let code = compile(alloc, statement.rules(), statement.pattern())?;
    let mut workspace = Workspace::new(alloc);
    perform_times(alloc, &code, &mut workspace, statement, subject)
}

/// Performs a statement on a text: matches the pattern and binds the variables. If the statement has an object and the match
/// succeeds, it also makes the new text. Statement and text are unchanged, whatever is returned.
///
/// `Matched` has
///
/// - the two cursors of the first success;
/// - the bindings of the immediate assignments and, after them, of the conditional ones;
/// - the new text, exactly if there is an object.
///
/// `Failed` has what was assigned immediately. Then nothing is replaced, and the object is not evaluated.
///
/// A repeated statement is performed in rounds, each after the first on the new text of the round before. Every variable is
/// the null string again at the start of each round. The rounds end after as many matches as the statement allows, or with
/// the first round that fails.
///
/// `Repeated` has how many matches there were, at least 1, and the bindings and the new text of the last one. If the first
/// round fails, the result is its `Failed`. A round that is refused refuses the statement, even after rounds that matched.
///
/// A statement for all matches is performed in one pass over the text, from left to right. Each search begins where the match
/// before ended, or one further if that was the null string. A null string at the end of the match before doesn't count. Every
/// variable is the null string again before each search. The pass ends when a search fails, or no cursor is left; anchored, a
/// search begins at its cursor alone, and the null string ends the pass.
///
/// `All` has the matches, each with its bindings, and the new text, exactly if there is an object: the text with each match
/// replaced by the object's value for that match. What is put in is not searched. If no match counts, the result is the `Failed`
/// of the first search.
///
/// Refused, in each round:
/// - `TooManyTrials` exactly if the match takes more trials than the statement's limit; of a statement for all matches, if all
///   searches together do;
/// - then `TextTooLong` exactly if the new text would have more than 65,536 characters;
/// - `Memory` at any allocation that fails, and so instead of any refusal that would have come later.
pub fn perform(
    alloc: Global,
    statement: &Statement,
    subject: &Text,
) -> Result<Outcome, StatementFault>
    ensures { Gives result (perform statement.now subject.now) }
{
    if statement.is_for_all() {
        let shared = Arc::new(alloc, copy_of(alloc, subject)?)?;
        return perform_shared(alloc, statement, &shared);
    }
    perform_rounds(alloc, statement, subject)
}

/// As [`perform`], on a text that is shared. So the matches of a statement for all matches share it, and it isn't copied.
pub fn perform_shared(
    alloc: Global,
    statement: &Statement,
    subject: &Arc<Text>,
) -> Result<Outcome, StatementFault>
    ensures { Gives result (perform statement.now (arc_value subject.now)) }
{
    if statement.is_for_all() {
        return perform_all(alloc, statement, subject, subject);
    }
    perform_rounds(alloc, statement, subject)
}
