//! Starts at which no match can begin are passed over.
ghost use Rattle.std.specs.Prelude.{◌≡◌, ◌*◌, ◌+◌, ◌≤◌, ℕ, List, length, IfErr, IfOk, IfSome};
ghost use Rattle.std.specs.List.{flat_map};
ghost use Rattle.sno_pattern.specs.Tree.{Tree};
ghost use Rattle.sno_pattern.specs.Outcome.{tried_from};
ghost use Rattle.sno_pattern.specs.declared.byte_texts.TheConstants.{MAX_BYTES};
ghost use Rattle.sno_machine.specs.Beginnings.{IsRunStart};
ghost use Rattle.sno_machine.specs.Passing.{AreBeginnings, NoneBegin, cost};
ghost use Rattle.sno_machine.specs.Endings.{up_to, Overspent, PassesTo};
ghost use Rattle.sno_machine.specs.declared.starts.fronts.TheConstants.{MAX_FRONTS};

use crate::faults::MatchFault;
use crate::run::learnt::Learnt;
use crate::run::progress::Progress;
use crate::run::subject::Subject;
use crate::starts::beginnings::Beginnings;
use crate::starts::run_starts::RunStart;

// How many trials it costs to pass over `starts` starts.
fn price(starts: usize, cost: usize) -> usize
    requires few { starts ≤ MAX_BYTES + 1 }
    requires cheap { cost ≤ MAX_FRONTS }
    ensures { result ≡ starts * cost }
{
    starts * cost
}

/// As `first_start`, after a start has failed. Runs that end in vain are passed over too: each start in one costs two trials.
/// With `each`, no start is passed over, and none is looked for.
/// The text comes beside what was learnt of it, so that a step has it in registers.
#[inline(always)]
pub fn next_start<'a>(
    each: bool,
    beginnings: &Beginnings,
    run: Option<RunStart<'a>>,
    text: &[u8],
    learnt: &Learnt<'_, 'a>,
    start: usize,
    last: usize,
    progress: &mut Progress,
) -> Result<usize, MatchFault>
    requires inside { start ≤ last + 1 }
    requires within { last ≤ length text.now }
    requires short { length text.now ≤ MAX_BYTES }
    requires same { learnt.now ≡ text.now }
    requires cheap { cost beginnings.now ≤ MAX_FRONTS }
    ensures inside { IfOk result (λ next. (start ≤ next) × (next ≤ last + 1)) }
    ensures passed { (bodies : List Tree) (p : Tree) (k : ℕ) → length bodies ≤ k → AreBeginnings bodies p beginnings.now → IfSome run.entry (IsRunStart bodies p) → IfOk result (PassesTo text.now bodies k p start last progress.old progress.new) }
    ensures refused { (bodies : List Tree) (p : Tree) (k : ℕ) → length bodies ≤ k → AreBeginnings bodies p beginnings.now → IfSome run.entry (IsRunStart bodies p) → IfErr result (Overspent progress.old (flat_map (tried_from text.now bodies k p) (up_to start last))) }
{
    if each {
        return Ok(start);
    }
    match run {
        None => first_start(beginnings, text, start, last, progress),
        Some(run) => pass_runs(beginnings, run, text, learnt, start, last, progress),
    }
}

// As `next_start`, if a match begins so.
#[inline(never)]
fn pass_runs<'a>(
    beginnings: &Beginnings,
    run: RunStart<'a>,
    text: &[u8],
    learnt: &Learnt<'_, 'a>,
    start: usize,
    last: usize,
    progress: &mut Progress,
) -> Result<usize, MatchFault>
    requires inside { start ≤ last + 1 }
    requires within { last ≤ length text.now }
    requires short { length text.now ≤ MAX_BYTES }
    requires same { learnt.now ≡ text.now }
    requires cheap { cost beginnings.now ≤ MAX_FRONTS }
    ensures inside { IfOk result (λ next. (start ≤ next) × (next ≤ last + 1)) }
    ensures passed { (bodies : List Tree) (p : Tree) (k : ℕ) → length bodies ≤ k → AreBeginnings bodies p beginnings.now → IsRunStart bodies p run.entry → IfOk result (PassesTo text.now bodies k p start last progress.old progress.new) }
    ensures refused { (bodies : List Tree) (p : Tree) (k : ℕ) → length bodies ≤ k → AreBeginnings bodies p beginnings.now → IsRunStart bodies p run.entry → IfErr result (Overspent progress.old (flat_map (tried_from text.now bodies k p) (up_to start last))) }
{
    let subject = Subject::of(text, learnt);
    let mut from = start;
    while from <= last {
        from = first_start(beginnings, text, from, last, progress)?;
        if from > last {
            return Ok(from);
        }
        let Some(end) = run.end_in_vain(&subject, from) else {
            return Ok(from);
        };
        let end = end.min(last + 1);
        if !progress.try_spend(price(end - from, 2)) {
            return Err(MatchFault::TooManyTrials);
        }
        from = end;
    }
    Ok(from)
}

/// The first start from `start` to `last` at which a match can begin; if there is none, the one after `last`. The starts that
/// are passed over cost their trials.
#[inline(always)]
pub fn first_start(
    beginnings: &Beginnings,
    text: &[u8],
    start: usize,
    last: usize,
    progress: &mut Progress,
) -> Result<usize, MatchFault>
    requires inside { start ≤ last + 1 }
    requires within { last ≤ length text.now }
    requires short { length text.now ≤ MAX_BYTES }
    requires cheap { cost beginnings.now ≤ MAX_FRONTS }
    ensures inside { IfOk result (λ next. (start ≤ next) × (next ≤ last + 1)) }
    ensures passed { (bodies : List Tree) (p : Tree) (k : ℕ) → length bodies ≤ k → AreBeginnings bodies p beginnings.now → IfOk result (PassesTo text.now bodies k p start last progress.old progress.new) }
    ensures refused { (bodies : List Tree) (p : Tree) (k : ℕ) → length bodies ≤ k → AreBeginnings bodies p beginnings.now → IfErr result (Overspent progress.old (flat_map (tried_from text.now bodies k p) (up_to start last))) }
{
    match beginnings {
        // If a match can begin with anything, no start is passed over.
        Beginnings::Any => Ok(start),
        _ => pass_over(beginnings, text, start, last, progress),
    }
}

// As `first_start`, if a match can't begin with anything.
#[inline(never)]
fn pass_over(
    beginnings: &Beginnings,
    text: &[u8],
    start: usize,
    last: usize,
    progress: &mut Progress,
) -> Result<usize, MatchFault>
    requires inside { start ≤ last + 1 }
    requires within { last ≤ length text.now }
    requires short { length text.now ≤ MAX_BYTES }
    requires cheap { cost beginnings.now ≤ MAX_FRONTS }
    ensures inside { IfOk result (λ next. (start ≤ next) × (next ≤ last + 1)) }
    ensures passed { (bodies : List Tree) (p : Tree) (k : ℕ) → length bodies ≤ k → AreBeginnings bodies p beginnings.now → IfOk result (PassesTo text.now bodies k p start last progress.old progress.new) }
    ensures refused { (bodies : List Tree) (p : Tree) (k : ℕ) → length bodies ≤ k → AreBeginnings bodies p beginnings.now → IfErr result (Overspent progress.old (flat_map (tried_from text.now bodies k p) (up_to start last))) }
{
    let begin = first_beginning(beginnings, text, start, last);
    if !progress.try_spend(price(begin - start, beginnings.cost())) {
        return Err(MatchFault::TooManyTrials);
    }
    Ok(begin)
}

// The first cursor from `start` to `last` at which a match can begin; if there is none, the one after `last`.
fn first_beginning(beginnings: &Beginnings, text: &[u8], start: usize, last: usize) -> usize
    requires inside { start ≤ last + 1 }
    requires within { last ≤ length text.now }
    ensures inside { (start ≤ result) × (result ≤ last + 1) }
    ensures passed { NoneBegin text.now beginnings.now start result }
{
    match beginnings.next(text, start) {
        Some(begin) if begin <= last => begin,
        _ => last + 1,
    }
}
