//! What each statement matches, and the order of what all of them match.
ghost use Rattle.std.specs.Prelude.{◌≡◌, ◌<◌, ◌≤◌, ◌++◌, map, length, true, false, IfErr, OnOk};
ghost use Rattle.std.specs.List.Sorted.{IsPermutation, IsSortedByKey};
ghost use Rattle.sno_statement.specs.BytePasses.{first_match, first_trials};
ghost use Rattle.sno_statement.specs.Passes.{all_matches, all_trials};
ghost use Rattle.sno_statement.specs.Perform.{IsCodeOf};
ghost use Rattle.sno_statement.specs.Statement.{with_limit};
ghost use Rattle.sno_statement.specs.declared.file_faults.FileStatementFault.TheVariants.{TextTooLong, TooManyTrials};
ghost use Rattle.sno_edit.specs.Trials.{trials_for};
ghost use Rattle.sno_find.specs.Findings.{by_place, hit_of, hits_of, hits_seen, is_refused, match_list, place_of, sought, sought_trials};
ghost use Rattle.sno_find.specs.Hits.{IsRefusal};

use crate::FindFault;
use crate::faults::fault_of;
use sno_edit::{Trials, is_for};
use sno_machine::{Code, compile};
use sno_pattern::ByteText;
use sno_statement::{ByteMatch, BytePass, FileStatement, FileStatementFault, first_match};
use std::alloc::{AllocError, Global};

/// A match of a statement.
#[derive(Drop)]
pub(crate) struct Hit<'t> {
    /// The number of the statement.
    pub(crate) statement: u32,
    /// The match.
    pub(crate) found: ByteMatch<'t>,
}

/// Adds all matches of a statement. The code is that of its pattern.
fn add_all<'t>(
    alloc: Global,
    statement: &FileStatement,
    code: &Code<'_>,
    text: &'t ByteText,
    trials: u32,
    hits: &mut Vec<Hit<'t>>,
) -> Result<(), FileStatementFault>
    requires { IsCodeOf code.now statement.now }
    ensures added { OnOk result (hits_seen hits.new.items ≡ hits_seen hits.old.items ++ map (hit_of statement.now.number) (all_matches (with_limit statement.now trials) text.now)) }
    ensures within { OnOk result (all_trials (with_limit statement.now trials) text.now ≤ trials) }
    ensures refused { IfErr result (λ e. e ≡ TooManyTrials → trials < all_trials (with_limit statement.now trials) text.now) }
    ensures never { IfErr result (λ e. e ≡ TextTooLong → ⊥) }
{
    let mut pass = BytePass::new(alloc, statement, code, text, trials);
    while let Some(found) = pass.next(alloc)? {
        hits.push(Hit {
            statement: statement.search().number(),
            found,
        })?;
    }
    Ok(())
}

/// Adds the first match of a statement, if it has one. The code is that of its pattern.
fn add_first<'t>(
    alloc: Global,
    statement: &FileStatement,
    code: &Code<'_>,
    text: &'t ByteText,
    trials: u32,
    hits: &mut Vec<Hit<'t>>,
) -> Result<(), FileStatementFault>
    requires { IsCodeOf code.now statement.now }
    ensures added { OnOk result (hits_seen hits.new.items ≡ hits_seen hits.old.items ++ map (hit_of statement.now.number) (match_list (first_match statement.now text.now))) }
    ensures within { OnOk result (first_trials statement.now text.now ≤ trials) }
    ensures refused { IfErr result (λ e. e ≡ TooManyTrials → trials < first_trials statement.now text.now) }
    ensures never { IfErr result (λ e. e ≡ TextTooLong → ⊥) }
{
    if let Some(found) = first_match(alloc, statement, code, text, trials)? {
        hits.push(Hit {
            statement: statement.search().number(),
            found,
        })?;
    }
    Ok(())
}

/// Adds what is found of a statement: all matches of one for all matches, and the first of any other.
fn add_sought<'t>(
    alloc: Global,
    statement: &FileStatement,
    text: &'t ByteText,
    trials: u32,
    hits: &mut Vec<Hit<'t>>,
) -> Result<(), FileStatementFault>
    ensures added { OnOk result (hits_seen hits.new.items ≡ hits_seen hits.old.items ++ map (hit_of statement.now.number) (sought (with_limit statement.now trials) text.now)) }
    ensures within { OnOk result (sought_trials (with_limit statement.now trials) text.now ≤ trials) }
    ensures refused { IfErr result (λ e. e ≡ TooManyTrials → trials < sought_trials (with_limit statement.now trials) text.now) }
    ensures never { IfErr result (λ e. e ≡ TextTooLong → ⊥) }
{
    let search = statement.search();
    let code = compile(alloc, search.rules(), search.pattern())?;
    if search.is_for_all() {
        return add_all(alloc, statement, &code, text, trials, hits);
    }
    add_first(alloc, statement, &code, text, trials, hits)
}

/// Adds the hits of a statement in the text of the file with this path: none if it isn't for the file.
pub(crate) fn add_hits<'t>(
    alloc: Global,
    trials: Trials,
    statement: &FileStatement,
    path: &str,
    text: &'t ByteText,
    hits: &mut Vec<Hit<'t>>,
) -> Result<(), FindFault>
    ensures added { OnOk result (hits_seen hits.new.items ≡ hits_seen hits.old.items ++ hits_of trials path.now text.now statement.now) }
    ensures within { OnOk result (is_refused trials path.now text.now statement.now ≡ false) }
    ensures refused { IfErr result (IsRefusal (is_refused trials path.now text.now statement.now) statement.now.number) }
{
    if !is_for(statement.search(), path) {
        return Ok(());
    }
    let trials = trials.on(text.bytes().len());
    match add_sought(alloc, statement, text, trials, hits) {
        Ok(()) => Ok(()),
        Err(fault) => Err(fault_of(statement.search().number(), fault)),
    }
}

/// Puts hits in order: by where they start, and those that start at one place by the numbers of their statements.
pub(crate) fn put_in_order(hits: &mut Vec<Hit<'_>>) -> Result<(), AllocError>
    ensures same { OnOk result (IsPermutation (hits_seen hits.old.items) (hits_seen hits.new.items)) }
    ensures ordered { OnOk result (IsSortedByKey place_of by_place (hits_seen hits.new.items)) }
{
    hits.sort_by_key(|hit| (hit.found.start, hit.statement))?;
    Ok(())
}
