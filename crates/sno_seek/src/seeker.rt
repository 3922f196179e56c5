//! A statement that is sought in texts, one search after the other.
ghost use Rattle.std.specs.Prelude.{◌≡◌, ◌<◌, ◌≤◌, ◌+◌, ◌^◌, length, slice_get, None, Some, IfOk, IfErr, IfSome, [], is_some};
ghost use Rattle.std.specs.Option.{option_map};
ghost use Rattle.sno_pattern.specs.declared.byte_texts.TheConstants.{MAX_BYTES};
ghost use Rattle.sno_statement.specs.declared.file_faults.FileStatementFault.TheVariants.{TextTooLong, TooManyTrials};
ghost use Rattle.sno_statement.specs.Passes.{search, search_trials};
ghost use Rattle.sno_statement.specs.Perform.{perform_within};
ghost use Rattle.sno_statement.specs.Rewriting.{GivesRewritten, rewriting};
ghost use Rattle.sno_statement.specs.Statement.{with_limit};
ghost use Rattle.sno_seek.specs.Assignments.{assignments_of, conditional, found_assignments};
ghost use Rattle.sno_compiled.specs.Gathered.{IsTaken, gathered, gathered_trials};

use sno_compiled::{CompiledStatement, Gathered};
use sno_pattern::{Assign, ByteText, Found, Hit, What};
use sno_statement::{FileStatement, FileStatementFault, Rewritten};
use std::alloc::{AllocError, Global};
use std::collections::VecDeque;

/// A statement that is sought in texts, with what its last search found.
#[derive(Drop)]
pub struct Seeker {
    /// The statement with its compiled pattern. Its object is used by [`Seeker::replaced`] alone.
    pub statement: CompiledStatement,
    /// Whether its matches are anchored.
    pub anchored: bool,
    /// What the last search found; `None` if there was none yet, or if the last one was refused.
    pub found: Option<Found>,
    /// What was gathered and not taken yet.
    pub ahead: VecDeque<Gathered>,
    ghost agree: { anchored ≡ statement.anchored },
}

/// The assignment at a place of a match: first those that were done at once, then the conditional ones.
fn assignment_in(found: &Found, place: usize) -> Option<Assign>
    ensures { result ≡ slice_get (assignments_of found.now) place }
{
    let sets = found.sets.as_slice();
    if place < sets.len() {
        return sets.get(place).copied();
    }
    let hit = found.end.as_ref()?;
    let (name, from, to) = hit.conds.as_slice().get(place - sets.len())?;
    Some(Assign {
        name: *name,
        what: What::Part(*from, *to),
    })
}

/// How many conditional assignments a match did.
fn conditional_count(end: Option<&Hit>) -> usize
    ensures count { result ≡ length (conditional (option_map (λ h. h.now) end.entry)) }
    ensures small { result < 2 ^ 63 }
{
    match end {
        None => 0,
        Some(hit) => hit.conds.as_slice().len(),
    }
}

/// How many assignments a search did.
fn assignment_count(found: &Found) -> usize
    ensures { result ≡ length (assignments_of found.now) }
{
    found.sets.as_slice().len() + conditional_count(found.end.as_ref())
}

impl Seeker {
    /// A statement that was not sought yet. Its pattern is compiled. Refused only if out of memory.
    pub fn new(alloc: Global, statement: FileStatement) -> Result<Seeker, AllocError>
        ensures statement { IfOk result (λ s. s.statement ≡ statement) }
        ensures idle { IfOk result (λ s. (s.found ≡ None) × (s.ahead.items ≡ [])) }
    {
        let anchored = statement.search().anchored();
        Ok(Seeker {
            statement: CompiledStatement::of(alloc, statement)?,
            anchored,
            found: None,
            ahead: VecDeque::new(alloc),
        })
    }

    /// Seeks the pattern from a cursor of the text on, and keeps what is found. Returns whether there is a match. The object and
    /// the rounds of the statement are not looked at. The memory of one search serves the next. What was gathered before stays.
    ///
    /// Refused:
    /// - `TooManyTrials` exactly if the search takes more than `trials` trials, unless one of the others comes first;
    /// - `HistoryTooLong` only if the search would have to keep more than `sno_machine::MAX_KEPT` entries in its history;
    /// - `Memory` if out of memory.
    ///
    /// After a refusal nothing is found.
    pub fn next(
        &mut self,
        alloc: Global,
        text: &ByteText,
        from: usize,
        trials: u32,
    ) -> Result<bool, FileStatementFault>
        requires { from ≤ length text.now }
        ensures found { IfOk result (λ matched. (self.new.found ≡ Some (search self.old.statement text.now from)) × (matched ≡ is_some (search self.old.statement text.now from).end)) }
        ensures within { IfOk result (λ _. search_trials self.old.statement text.now from ≤ trials) }
        ensures refused { IfErr result (λ e. e ≡ TooManyTrials → trials < search_trials self.old.statement text.now from) }
        ensures never { IfErr result (λ e. e ≡ TextTooLong → ⊥) }
        ensures nothing { IfErr result (λ _. self.new.found ≡ None) }
        ensures statement { self.new.statement ≡ self.old.statement }
        ensures ahead { self.new.ahead.items ≡ self.old.ahead.items }
    {
        self.statement
            .search(alloc, text, from, trials, &mut self.found)?;
        match &self.found {
            Some(found) => Ok(found.end.is_some()),
            None => Ok(false),
        }
    }

    /// Does up to `most` searches that follow one another, the first of them from a cursor of the text on, and gathers what they find:
    /// what as many calls of [`Seeker::next`] would find, each from where the match before leaves off. After a search without a match
    /// there is no further one. What is learnt of the text serves all of them.
    ///
    /// Refused:
    /// - `TooManyTrials` exactly if the searches together take more than `trials` trials, unless one of the others comes first;
    /// - `HistoryTooLong` only if a search would have to keep more than `sno_machine::MAX_KEPT` entries in its history;
    /// - `Memory` if out of memory.
    ///
    /// What was gathered before is dropped, also after a refusal; then nothing is gathered. What the last search found stays.
    pub fn gather(
        &mut self,
        alloc: Global,
        text: &ByteText,
        from: usize,
        trials: u32,
        most: usize,
    ) -> Result<(), FileStatementFault>
        requires { from ≤ length text.now }
        ensures gathered { IfOk result (λ _. self.new.ahead.items ≡ gathered self.old.statement text.now most (Some from)) }
        ensures within { IfOk result (λ _. gathered_trials self.old.statement text.now most (Some from) ≤ trials) }
        ensures refused { IfErr result (λ e. e ≡ TooManyTrials → trials < gathered_trials self.old.statement text.now most (Some from)) }
        ensures never { IfErr result (λ e. e ≡ TextTooLong → ⊥) }
        ensures nothing { IfErr result (λ _. self.new.ahead.items ≡ []) }
        ensures same { (self.new.statement ≡ self.old.statement) × (self.new.found ≡ self.old.found) }
    {
        self.ahead.clear();
        self.ahead = self.statement.gather(alloc, text, from, trials, most)?;
        Ok(())
    }

    /// Takes the first of the searches that were gathered, which is the last search from then on. Returns where the next one begins, or
    /// one past the end of the text if there is none; `None` if nothing is gathered, and then nothing changes.
    pub fn take(&mut self) -> Option<usize>
        ensures taken { IfSome result (IsTaken self.old.ahead.items self.new.ahead.items self.new.found) }
        ensures nothing { result ≡ None → (self.old.ahead.items ≡ []) × (self.new.ahead.items ≡ []) × (self.new.found ≡ self.old.found) }
        ensures statement { self.new.statement ≡ self.old.statement }
    {
        let Gathered { found, next } = self.ahead.pop_front()?;
        self.found = Some(found);
        Some(next)
    }

    /// The assignment of the last search at a place, counted from 0: first those that were done at once, in their order and also if
    /// the match then backed up, and after them the conditional ones of the match, in the order in which their parts ended. The
    /// value of a variable is that of its last assignment. `None` past the last assignment, or if nothing was found.
    pub fn assignment(&self, place: usize) -> Option<Assign>
        ensures { result ≡ slice_get (found_assignments self.now.found) place }
    {
        let found = self.found.as_ref()?;
        assignment_in(found, place)
    }

    /// How many assignments the last search did; 0 if nothing was found.
    pub fn assignments(&self) -> usize
        ensures { result ≡ length (found_assignments self.now.found) }
    {
        match &self.found {
            None => 0,
            Some(found) => assignment_count(found),
        }
    }

    /// What the statement makes of the text, as [`sno_statement::rewrite`] does.
    pub fn replaced(
        &mut self,
        alloc: Global,
        text: &ByteText,
        trials: u32,
    ) -> Result<Rewritten, FileStatementFault>
        ensures rewritten { GivesRewritten result (rewriting (perform_within MAX_BYTES (with_limit self.old.statement trials) text.now)) }
        ensures few { IfOk result (λ r. r.matches < 2 ^ 32) }
        ensures same { self.new ≡ self.old }
    {
        self.statement.replaced(alloc, text, trials)
    }
}
