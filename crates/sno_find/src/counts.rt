//! How many matches there are in a file.
ghost use Rattle.std.specs.Prelude.{◌≡◌, ◌<◌, ◌≤◌, length, false, None, IfOk, IfErr};
ghost use Rattle.sno_statement.specs.BytePasses.{first_match, first_trials};
ghost use Rattle.sno_statement.specs.Passes.{all_matches, all_trials};
ghost use Rattle.sno_statement.specs.Perform.{IsCodeOf};
ghost use Rattle.sno_statement.specs.Statement.{with_limit};
ghost use Rattle.sno_statement.specs.declared.file_faults.FileStatementFault.TheVariants.{TextTooLong, TooManyTrials};
ghost use Rattle.sno_edit.specs.Rules.{rules_seen};
ghost use Rattle.sno_find.specs.Findings.{HasCause, all_hits, first_refused, hits_of, is_refused, match_list, sought, sought_trials};
ghost use Rattle.sno_find.specs.Hits.{IsRefusal};

use crate::FindFault;
use crate::faults::fault_of;
use sno_edit::{EditRules, Trials, is_for};
use sno_machine::{Code, compile};
use sno_pattern::ByteText;
use sno_statement::{BytePass, FileStatement, FileStatementFault, first_match};
use std::alloc::Global;

/// How many matches a statement for all matches has. The code is that of its pattern.
fn count_all(
    alloc: Global,
    statement: &FileStatement,
    code: &Code<'_>,
    text: &ByteText,
    trials: u32,
) -> Result<usize, FileStatementFault>
    requires { IsCodeOf code.now statement.now }
    ensures counted { IfOk result (λ n. n ≡ length (all_matches (with_limit statement.now trials) text.now)) }
    ensures within { IfOk result (λ _. all_trials (with_limit statement.now trials) text.now ≤ trials) }
    ensures refused { IfErr result (λ e. e ≡ TooManyTrials → trials < all_trials (with_limit statement.now trials) text.now) }
    ensures never { IfErr result (λ e. e ≡ TextTooLong → ⊥) }
{
    let mut pass = BytePass::new(alloc, statement, code, text, trials);
    let matches = pass.count_left(alloc)?;
    Ok(matches as usize)
}

/// 1 if a statement has a first match, and 0 if not. The code is that of its pattern.
fn count_first(
    alloc: Global,
    statement: &FileStatement,
    code: &Code<'_>,
    text: &ByteText,
    trials: u32,
) -> Result<usize, FileStatementFault>
    requires { IsCodeOf code.now statement.now }
    ensures counted { IfOk result (λ n. n ≡ length (match_list (first_match statement.now text.now))) }
    ensures within { IfOk result (λ _. first_trials statement.now text.now ≤ trials) }
    ensures refused { IfErr result (λ e. e ≡ TooManyTrials → trials < first_trials statement.now text.now) }
    ensures never { IfErr result (λ e. e ≡ TextTooLong → ⊥) }
{
    match first_match(alloc, statement, code, text, trials)? {
        Some(_) => Ok(1),
        None => Ok(0),
    }
}

/// How many matches of a statement are found: all of one for all matches, and the first of any other.
fn count_sought(
    alloc: Global,
    statement: &FileStatement,
    text: &ByteText,
    trials: u32,
) -> Result<usize, FileStatementFault>
    ensures counted { IfOk result (λ n. n ≡ length (sought (with_limit statement.now trials) text.now)) }
    ensures within { IfOk result (λ _. sought_trials (with_limit statement.now trials) text.now ≤ trials) }
    ensures refused { IfErr result (λ e. e ≡ TooManyTrials → trials < sought_trials (with_limit statement.now trials) text.now) }
    ensures never { IfErr result (λ e. e ≡ TextTooLong → ⊥) }
{
    let search = statement.search();
    let code = compile(alloc, search.rules(), search.pattern())?;
    if search.is_for_all() {
        return count_all(alloc, statement, &code, text, trials);
    }
    count_first(alloc, statement, &code, text, trials)
}

/// How many hits a statement has in the text of the file with this path: none if it isn't for the file.
fn count_hits(
    alloc: Global,
    trials: Trials,
    statement: &FileStatement,
    path: &str,
    text: &ByteText,
) -> Result<usize, FindFault>
    ensures counted { IfOk result (λ n. n ≡ length (hits_of trials path.now text.now statement.now)) }
    ensures within { IfOk result (λ _. is_refused trials path.now text.now statement.now ≡ false) }
    ensures refused { IfErr result (IsRefusal (is_refused trials path.now text.now statement.now) statement.now.number) }
{
    if !is_for(statement.search(), path) {
        return Ok(0);
    }
    let trials = trials.on(text.bytes().len());
    match count_sought(alloc, statement, text, trials) {
        Ok(matches) => Ok(matches),
        Err(fault) => Err(fault_of(statement.search().number(), fault)),
    }
}

/// Returns how many matches [`crate::find_in`] would find, and keeps none of them.
///
/// Refused as [`crate::find_in`] is.
pub fn count_in(
    alloc: Global,
    rules: &EditRules,
    path: &str,
    text: &ByteText,
) -> Result<usize, FindFault>
    ensures counted { IfOk result (λ n. n ≡ length (all_hits (rules_seen rules.now).trials path.now text.now (rules_seen rules.now).statements)) }
    ensures within { IfOk result (λ _. first_refused (rules_seen rules.now).trials path.now text.now (rules_seen rules.now).statements ≡ None) }
    ensures refused { IfErr result (HasCause (rules_seen rules.now) path.now text.now) }
{
    let mut total = 0_usize;
    let trials = rules.trials();
    let statements = rules.statements();
    for statement in statements {
        let matches = count_hits(alloc, trials, statement, path, text)?;
        total = total.checked_add(matches).ok_or(FindFault::Memory)?;
    }
    Ok(total)
}
