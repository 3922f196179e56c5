//! The outcome of a search: its starts in turn, until one of them ends it.
ghost use Rattle.std.specs.Prelude.{◌≡◌, ◌<◌, ◌≤◌, [], length, IfOk, IfErr, IfSome, IsTrue, MatchResult};
ghost use Rattle.std.specs.List.{flat_map};
ghost use Rattle.sno_pattern.specs.Tree.{tree_of, refs_below};
ghost use Rattle.sno_pattern.specs.Results.{enough_depth};
ghost use Rattle.sno_pattern.specs.Outcome.{outcome_from, starts_from, tried_from, trials_from};
ghost use Rattle.sno_pattern.specs.declared.byte_texts.TheConstants.{MAX_BYTES};
ghost use Rattle.sno_machine.specs.Beginnings.{IsRunStart};
ghost use Rattle.sno_machine.specs.Passing.{AreBeginnings, cost};
ghost use Rattle.sno_machine.specs.Code.{IsCompiled};
ghost use Rattle.sno_machine.specs.Endings.{found_of, match_by, up_to, Overspent};
ghost use Rattle.sno_machine.specs.declared.faults.MatchFault.TheVariants.{TooManyTrials};
ghost use Rattle.sno_machine.specs.declared.starts.fronts.TheConstants.{MAX_FRONTS};

use crate::compiling::nodes::Compiled;
use crate::faults::MatchFault;
use crate::run::entries::History;
use crate::run::learnt::Learnt;
use crate::run::progress::Progress;
use crate::run::running::try_starts;
use sno_pattern::{Assigns, Found, Hit, Rules};
use std::alloc::{AllocError, Global};

/// What a search has found, and how many trials it took.
#[derive(Debug, Drop)]
pub struct SearchOutcome {
    pub found: Found,
    pub trials: u32,
}

/// The outcome of a search from this cursor on, at a depth of references that is counted here. What the history holds is dropped
/// first.
pub fn search<'a>(
    alloc: Global,
    code: &Compiled<'a>,
    history: &mut History<'a>,
    text: &[u8],
    learnt: &mut Learnt<'_, 'a>,
    anchored: bool,
    from: usize,
    limit: u32,
) -> Result<SearchOutcome, MatchFault>
    requires short { length text.now ≤ MAX_BYTES }
    requires inside { from ≤ length text.now }
    requires known { learnt.old ≡ text.now }
    requires compiled { IsCompiled code.now.rules.now.bodies (tree_of code.now.pattern.now) code.now.nodes }
    requires begin { AreBeginnings code.now.rules.now.bodies (tree_of code.now.pattern.now) code.now.beginnings }
    requires cheap { cost code.now.beginnings ≤ MAX_FRONTS }
    requires run { IfSome code.now.run (IsRunStart code.now.rules.now.bodies (tree_of code.now.pattern.now)) }
    ensures found { IfOk result (λ s. s.found ≡ outcome_from text.now code.now.rules.now.bodies (tree_of code.now.pattern.now) anchored from) }
    ensures counted { IfOk result (λ s. s.trials ≡ trials_from text.now code.now.rules.now.bodies (tree_of code.now.pattern.now) anchored from) }
    ensures within { IfOk result (λ s. s.trials ≤ limit) }
    ensures known { learnt.new ≡ text.now }
    ensures refused { IfErr result (λ e. e ≡ TooManyTrials → limit < trials_from text.now code.now.rules.now.bodies (tree_of code.now.pattern.now) anchored from) }
{
    let most = depth(text, code.rules);
    let mut progress = Progress::new(alloc, limit);
    let hit = try_all(
        alloc,
        code,
        text,
        most,
        anchored,
        from,
        learnt,
        history,
        &mut progress,
    )?;
    let search = report(alloc, &progress, hit)?;
    Ok(search)
}

// The result, once no start is left to be tried.
fn report(alloc: Global, progress: &Progress, hit: Option<Hit>) -> Result<SearchOutcome, AllocError>
    ensures found { IfOk result (λ s. s.found ≡ found_of (progress.now, hit)) }
    ensures counted { IfOk result (λ s. s.trials ≡ progress.now.trials) }
    ensures within { progress.now.trials ≤ progress.now.limit }
{
    let sets = progress.sets(alloc)?;
    let found = Found {
        sets: Assigns::of(sets),
        end: hit,
    };
    Ok(SearchOutcome {
        found,
        trials: progress.trials(),
    })
}

// A depth that is always enough.
fn depth(text: &[u8], rules: &Rules) -> u32
    requires short { length text.now ≤ MAX_BYTES }
    ensures enough { result ≡ enough_depth text.now rules.now.bodies }
    ensures deep { length rules.now.bodies ≤ result }
{
    ((text.len() + 1) * rules.len()) as u32
}

// Tries each start at which a match may begin, until one of them ends the match: this cursor alone if the match is anchored.
#[inline(always)]
fn try_all<'a>(
    alloc: Global,
    code: &Compiled<'a>,
    text: &[u8],
    most: u32,
    anchored: bool,
    from: usize,
    learnt: &mut Learnt<'_, 'a>,
    history: &mut History<'a>,
    progress: &mut Progress<'a>,
) -> Result<Option<Hit>, MatchFault>
    requires compiled { IsCompiled code.now.rules.now.bodies (tree_of code.now.pattern.now) code.now.nodes }
    requires begin { AreBeginnings code.now.rules.now.bodies (tree_of code.now.pattern.now) code.now.beginnings }
    requires cheap { cost code.now.beginnings ≤ MAX_FRONTS }
    requires run { IfSome code.now.run (IsRunStart code.now.rules.now.bodies (tree_of code.now.pattern.now)) }
    requires inside { from ≤ length text.now }
    requires short { length text.now ≤ MAX_BYTES }
    requires known { learnt.old ≡ text.now }
    requires deep { length code.now.rules.now.bodies ≤ most }
    ensures known { learnt.new ≡ text.now }
    ensures found { IfOk result (λ hit. match_by progress.old (flat_map (tried_from text.now code.now.rules.now.bodies most (tree_of code.now.pattern.now)) (starts_from text.now anchored from)) ≡ (progress.new, hit)) }
    ensures refused { IfErr result (Overspent progress.old (flat_map (tried_from text.now code.now.rules.now.bodies most (tree_of code.now.pattern.now)) (starts_from text.now anchored from))) }
{
    let last = last_start(text, anchored, from);
    // A single start is tried in any case.
    let hit = try_starts(
        alloc, code, text, most, anchored, from, last, learnt, history, progress,
    )?;
    Ok(hit)
}

// The last cursor at which the match may begin.
#[tactic(auto, using(crate::proofs::Ranges::single_start, crate::proofs::Ranges::each_start))]
fn last_start(text: &[u8], anchored: bool, from: usize) -> usize
    requires inside { from ≤ length text.now }
    requires short { length text.now ≤ MAX_BYTES }
    ensures starts { starts_from text.now anchored from ≡ up_to from result }
    ensures within { (from ≤ result) × (result ≤ length text.now) }
{
    if anchored { from } else { text.len() }
}
