//! Matches in the content of a file, one after the other.
ghost use Rattle.std.specs.Prelude.{◌≡◌, ◌<◌, ◌≤◌, ◌↔◌, ◌∷◌, [], length, slice_get, IsTrue, Some, None, IfOk, IfErr, IfSome, OnOk, MatchOption};
ghost use Rattle.std.specs.Option.{option_map};
ghost use Rattle.sno_pattern.specs.CursorLaws.{SetsLie};
ghost use Rattle.sno_statement.specs.declared.file_faults.FileStatementFault.TheVariants.{TooManyTrials, TextTooLong};
ghost use Rattle.sno_statement.specs.Bindings.{lookup};
ghost use Rattle.sno_statement.specs.BytePasses.{byte_match, first_match, first_trials, match_found};
ghost use Rattle.sno_statement.specs.Passes.{begun, cursors_left, match_by, matches_left, trials_together};
ghost use Rattle.sno_statement.specs.Perform.{IsCodeOf};
ghost use Rattle.sno_statement.specs.Spans.{value_lent};
ghost use Rattle.sno_statement.specs.Statement.{with_limit};

use crate::assigned::Assigned;
use crate::binding_refs::last_of;
use crate::file_searches::first_alone;
use crate::searches::Searches;
use crate::spans::SpanValue;
use crate::{FileStatement, FileStatementFault};
use sno_machine::Code;
use sno_pattern::{Assigns, ByteText, Found, Hit, Name};
use std::alloc::{AllocError, Global};
use std::marker::Model;

/// The variables that a search in a text of bytes assigned, in the order of their first assignment, each with its last value. Their
/// strings are not copied: they are spans of the text. The methods take no memory.
#[derive(Drop)]
pub struct ByteBindings<'t> {
    subject: &'t ByteText,
    assigned: Assigned,
}

impl<'t> Model for ByteBindings<'t> {
    ghost use Rattle.std.specs.Prelude.{List, ℕ};
    ghost use Rattle.sno_statement.specs.declared.binding.Datum.{Datum};
    ghost use Rattle.sno_statement.specs.LastAssignments.{values_of_last};

    ghost Value = { List (List ℕ × Datum) };

    ghost view = { λ s. values_of_last s.subject.now s.assigned };
}

impl<'t> ByteBindings<'t> {
    /// How many variables there are.
    pub fn len(&self) -> usize
        ensures { result ≡ length self.now }
    {
        self.assigned.as_slice().len()
    }

    /// Whether there are no variables.
    pub fn is_empty(&self) -> bool
        ensures { IsTrue result ↔ (self.now ≡ []) }
    {
        self.len() == 0
    }

    /// The variable at a place in the order of first assignments, counted from 0, with its value; `None` from
    /// [`ByteBindings::len`] on.
    pub fn get(&self, place: usize) -> Option<(&Name, SpanValue<'t>)>
        ensures { option_map (λ b. (b.0.now, value_lent b.1)) result ≡ slice_get self.now place }
    {
        let (name, last) = self.assigned.as_slice().get(place)?;
        Some((name, SpanValue::of(self.subject.bytes(), *last)))
    }

    /// The value of a variable; `None` if it was never assigned.
    #[tactic(auto, using(crate::proofs::LastValues::lookup_values))]
    pub fn value(&self, name: &Name) -> Option<SpanValue<'t>>
        ensures { option_map value_lent result ≡ lookup name.now self.now }
    {
        match last_of(self.assigned.as_slice(), name) {
            None => None,
            Some(last) => Some(SpanValue::of(self.subject.bytes(), last)),
        }
    }
}

/// A match of a statement in a text of bytes.
#[derive(Drop)]
pub struct ByteMatch<'t> {
    /// The cursor from which the match began.
    pub start: usize,
    /// The cursor at which it ended.
    pub end: usize,
    /// The variables that its search assigned: first those assigned at once, then those of the conditional assignments.
    pub bindings: ByteBindings<'t>,
}

/// All matches of a statement in the content of a file, one after the other, as a [`crate::Pass`] has those in a text.
#[derive(Drop)]
pub struct BytePass<'c, 't, 'a> {
    searches: Searches<'c, 't, 'a>,
    text: &'t ByteText,
}

impl<'c, 't, 'a> Model for BytePass<'c, 't, 'a> {
    ghost use Rattle.std.specs.Prelude.{◌≡◌};
    ghost use Rattle.sno_statement.specs.Passes.{Pass, pass_code};

    ghost Value = { Pass };

    ghost coded = { pass_code };

    ghost view = { λ s. s.searches };

    ghost invariant = { λ s. s.searches.text ≡ s.text.now };
}

impl<'c, 't, 'a> BytePass<'c, 't, 'a> {
    /// A pass of the statement over the text. The code is that of the statement's pattern, compiled with its definitions.
    /// `trials` is the limit in place of the statement's own, of the trials of all searches together. It takes no memory.
    pub fn new(
        alloc: Global,
        statement: &'c FileStatement,
        code: &'c Code<'a>,
        text: &'t ByteText,
        trials: u32,
    ) -> BytePass<'c, 't, 'a>
        requires { IsCodeOf code.now statement.now }
        ensures { result ≡ begun (with_limit statement.now trials) text.now }
    {
        BytePass {
            searches: Searches::in_bytes(alloc, statement, code, text, trials),
            text,
        }
    }

    /// The next match as its search found it, without a copy: what the search assigned at once, and the match with its conditional
    /// assignments, all as cursors of the text. `None` if there is none left. Refused as [`BytePass::next`] is.
    pub fn next_hit(&mut self, alloc: Global) -> Result<Option<(Assigns, Hit)>, FileStatementFault>
        ensures next { IfOk result (λ next. MatchOption next (matches_left self.old ≡ []) (λ h. matches_left self.old ≡ match_by self.old.text h.0 h.1 ∷ matches_left self.new)) }
        ensures lies { IfOk result (λ next. IfSome next (λ h. SetsLie self.old.text h.0)) }
        ensures ended { IfOk result (λ next. MatchOption next (self.new.at ≡ None) (λ _. cursors_left self.new.text self.new.at < cursors_left self.old.text self.old.at)) }
        ensures trials { OnOk result (trials_together self.new ≡ trials_together self.old) }
        ensures same { OnOk result ((self.new.statement ≡ self.old.statement) × (self.new.text ≡ self.old.text)) }
        ensures within { OnOk result (self.new.spent ≤ self.new.statement.limit) }
        ensures refused { IfErr result (λ e. e ≡ TooManyTrials → self.old.statement.limit < trials_together self.old) }
        ensures never { IfErr result (λ e. e ≡ TextTooLong → ⊥) }
    {
        let next = self.searches.next_in_file(alloc)?;
        Ok(next)
    }

    /// Takes the memory of a match back, for the matches to come.
    pub fn give_back(&mut self, sets: Assigns, hit: Hit)
        ensures { self.new ≡ self.old }
    {
        self.searches.give_back(sets, hit);
    }

    /// How many matches are left. None is kept, and no variable looked at. Refused as [`BytePass::next`] is. Then no match is left;
    /// after a refusal none should be asked for.
    pub fn count_left(&mut self, alloc: Global) -> Result<u64, FileStatementFault>
        ensures counted { IfOk result (λ n. n ≡ length (matches_left self.old)) }
        ensures ended { OnOk result (self.new.at ≡ None) }
        ensures within { IfOk result (λ _. trials_together self.old ≤ self.old.statement.limit) }
        ensures refused { IfErr result (λ e. e ≡ TooManyTrials → self.old.statement.limit < trials_together self.old) }
        ensures never { IfErr result (λ e. e ≡ TextTooLong → ⊥) }
    {
        let matches = self.searches.count_in_file(alloc)?;
        Ok(matches)
    }

    /// The next match with its bindings; `None` if there is none left. The limit is for the trials of all searches of the pass
    /// together.
    ///
    /// Refused:
    /// - `TooManyTrials` only if all searches of the pass together take more trials than the limit;
    /// - `HistoryTooLong` only if a search would have to keep more than [`sno_machine::MAX_KEPT`] entries in its history;
    /// - `Memory` if out of memory.
    ///
    /// After a refusal no further match should be asked for: the search that was refused would be tried again.
    pub fn next(&mut self, alloc: Global) -> Result<Option<ByteMatch<'t>>, FileStatementFault>
        ensures next { IfOk result (λ next. MatchOption next (matches_left self.old ≡ []) (λ m. matches_left self.old ≡ byte_match m ∷ matches_left self.new)) }
        ensures ended { IfOk result (λ next. MatchOption next (self.new.at ≡ None) (λ _. cursors_left self.new.text self.new.at < cursors_left self.old.text self.old.at)) }
        ensures trials { OnOk result (trials_together self.new ≡ trials_together self.old) }
        ensures same { OnOk result ((self.new.statement ≡ self.old.statement) × (self.new.text ≡ self.old.text)) }
        ensures within { OnOk result (self.new.spent ≤ self.new.statement.limit) }
        ensures refused { IfErr result (λ e. e ≡ TooManyTrials → self.old.statement.limit < trials_together self.old) }
        ensures never { IfErr result (λ e. e ≡ TextTooLong → ⊥) }
    {
        match self.searches.next_in_file(alloc)? {
            None => Ok(None),
            Some((sets, hit)) => {
                let next = match_in(alloc, self.text, &sets, &hit)?;
                self.searches.give_back(sets, hit);
                Ok(Some(next))
            }
        }
    }
}

/// A match with the bindings of its search.
fn match_in<'t>(
    alloc: Global,
    subject: &'t ByteText,
    sets: &Assigns,
    hit: &Hit,
) -> Result<ByteMatch<'t>, AllocError>
    requires { SetsLie subject.now sets.now }
    ensures { IfOk result (λ m. byte_match m ≡ match_by subject.now sets.now hit.now) }
{
    let mut assigned = Assigned::new(alloc);
    let bytes = subject.bytes();
    assigned.replace(alloc, bytes, sets.as_slice(), hit.conds.as_slice())?;
    Ok(ByteMatch {
        start: hit.start,
        end: hit.end,
        bindings: ByteBindings { subject, assigned },
    })
}

/// The match of a search, if it found one.
fn match_of<'t>(
    alloc: Global,
    subject: &'t ByteText,
    found: &Found,
) -> Result<Option<ByteMatch<'t>>, AllocError>
    requires { SetsLie subject.now found.now.sets }
    ensures { IfOk result (λ m. option_map byte_match m ≡ match_found subject.now found.now found.now.end) }
{
    match &found.end {
        None => Ok(None),
        Some(hit) => Ok(Some(match_in(alloc, subject, &found.sets, hit)?)),
    }
}

/// The first match of a statement in the content of a file, whether or not the statement is for all matches; `None` if nothing
/// matches. It is sought as the statement's first round is. The code is that of the statement's pattern, compiled with its definitions.
///
/// Refused:
/// - `TooManyTrials` exactly if the match takes more than `trials` trials, unless one of the others comes first;
/// - `HistoryTooLong` only if the search would have to keep more than [`sno_machine::MAX_KEPT`] entries in its history;
/// - `Memory` if out of memory.
pub fn first_match<'t>(
    alloc: Global,
    statement: &FileStatement,
    code: &Code<'_>,
    text: &'t ByteText,
    trials: u32,
) -> Result<Option<ByteMatch<'t>>, FileStatementFault>
    requires { IsCodeOf code.now statement.now }
    ensures first { IfOk result (λ m. option_map byte_match m ≡ first_match statement.now text.now) }
    ensures within { IfOk result (λ _. first_trials statement.now text.now ≤ trials) }
    ensures refused { IfErr result (λ e. e ≡ TooManyTrials → trials < first_trials statement.now text.now) }
    ensures never { IfErr result (λ e. e ≡ TextTooLong → ⊥) }
{
    let anchored = statement.search().anchored();
    let found = first_alone(alloc, code, text, anchored, trials)?;
    let first = match_of(alloc, text, &found)?;
    Ok(first)
}
