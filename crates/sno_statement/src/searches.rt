//! The searches of one pass over a text, one after the other.
ghost use Rattle.std.specs.Prelude.{◌≡◌, ◌+◌, ◌<◌, ◌≤◌, ◌∷◌, [], length, Some, None, IfOk, IfErr, IfSome, OnOk, MatchOption};
ghost use Rattle.sno_pattern.specs.CursorLaws.{SetsLie};
ghost use Rattle.sno_statement.specs.declared.outcomes.StatementFault.TheVariants.{TooManyTrials, TextTooLong};
ghost use Rattle.sno_statement.specs.FileFaults.{plain};
ghost use Rattle.sno_statement.specs.Passes.{begun, counts, cursors_left, match_by, matches_left, moved, next_search, search, search_trials, trials_together};
ghost use Rattle.sno_statement.specs.Sought.{sought};
ghost use Rattle.sno_statement.specs.Perform.{IsCodeOf};
ghost use Rattle.sno_statement.specs.Statement.{with_limit};

use crate::passes::{counts, next_cursor};
use crate::{FileStatement, FileStatementFault, Statement, StatementFault};
use sno_machine::{Code, SearchOutcome, Searched};
use sno_pattern::{Assigns, ByteText, Found, Hit, Text, searches_lie_within_the_text};
use std::alloc::Global;
use std::marker::Model;

/// A statement whose matches are sought: in a text, or in a file.
#[derive(Clone, Copy)]
pub(crate) enum Sought<'c> {
    InText(&'c Statement),
    InFile(&'c FileStatement),
}

impl<'c> Sought<'c> {
    /// Whether a match begins at its cursor alone.
    #[inline(always)]
    fn anchored(self) -> bool
        ensures { result ≡ (sought self.entry).anchored }
    {
        match self {
            Sought::InText(statement) => statement.anchored(),
            Sought::InFile(statement) => statement.search().anchored(),
        }
    }
}

/// The searches of one pass over a text, as far as it has come. All of them together may take `limit` trials.
#[derive(Drop)]
pub(crate) struct Searches<'c, 't, 'a> {
    statement: Sought<'c>,
    code: &'c Code<'a>,
    searched: Searched<'t, 'a>,
    before: Option<usize>,
    at: Option<usize>,
    limit: u32,
    left: u32,
}

impl<'c, 't, 'a> Model for Searches<'c, 't, 'a> {
    ghost use Rattle.std.specs.Prelude.{◌-◌, ◌≤◌};
    ghost use Rattle.sno_statement.specs.Passes.{Pass, IsCursor, pass_code};
    ghost use Rattle.sno_statement.specs.Perform.{IsCodeOf};
    ghost use Rattle.sno_statement.specs.Statement.{with_limit};
    ghost use Rattle.sno_statement.specs.Sought.{sought};

    ghost Value = { Pass };

    ghost coded = { pass_code };

    ghost view = { λ s. record { statement = with_limit (sought s.statement) s.limit; text = s.searched; before = s.before; at = s.at; spent = s.limit - s.left } };

    ghost invariant = { λ s. IsCodeOf s.code.now (sought s.statement) × IsCursor s.searched s.at × (s.left ≤ s.limit) };
}

impl<'c, 't, 'a> Searches<'c, 't, 'a> {
    /// The searches of the statement in a text, with the statement's own limit. The code is that of its pattern.
    pub(crate) fn in_text(
        alloc: Global,
        statement: &'c Statement,
        code: &'c Code<'a>,
        text: &'t Text,
    ) -> Searches<'c, 't, 'a>
        requires { IsCodeOf code.now statement.now }
        ensures { result ≡ begun statement.now text.now }
    {
        let limit = statement.limit();
        Searches {
            statement: Sought::InText(statement),
            code,
            searched: Searched::new(alloc, text),
            before: None,
            at: Some(0),
            limit,
            left: limit,
        }
    }

    /// As [`Searches::in_text`], in a text of bytes, with a limit of their own.
    pub(crate) fn in_bytes(
        alloc: Global,
        statement: &'c FileStatement,
        code: &'c Code<'a>,
        text: &'t ByteText,
        limit: u32,
    ) -> Searches<'c, 't, 'a>
        requires { IsCodeOf code.now statement.now }
        ensures { result ≡ begun (with_limit statement.now limit) text.now }
    {
        Searches {
            statement: Sought::InFile(statement),
            code,
            searched: Searched::of_bytes(alloc, text),
            before: None,
            at: Some(0),
            limit,
            left: limit,
        }
    }

    /// The next search, from this cursor on. Then the pass is past it.
    #[inline(always)]
    pub(crate) fn search(&mut self, alloc: Global, from: usize) -> Result<Found, StatementFault>
        requires { self.old.at ≡ Some from }
        ensures found { IfOk result (λ found. found ≡ search self.old.statement self.old.text from) }
        ensures lies { IfOk result (λ found. SetsLie self.old.text found.sets) }
        ensures moved { OnOk result (self.new ≡ moved self.old (search_trials self.old.statement self.old.text from) (search self.old.statement self.old.text from).end) }
        ensures within { IfOk result (λ _. self.old.spent + search_trials self.old.statement self.old.text from ≤ self.old.statement.limit) }
        ensures refused { IfErr result (λ e. e ≡ TooManyTrials → self.old.statement.limit < self.old.spent + search_trials self.old.statement self.old.text from) }
        ensures never { IfErr result (λ e. e ≡ TextTooLong → ⊥) }
        ensures text { self.new.text ≡ self.old.text }
    {
        let anchored = self.statement.anchored();
        let searched = &mut self.searched;
        let search = self
            .code
            .first_from(alloc, searched, anchored, from, self.left)?;
        // for the proof
        searches_lie_within_the_text();
        let SearchOutcome { found, trials } = search;
        self.left -= trials;
        match &found.end {
            None => self.at = None,
            Some(hit) => {
                self.before = Some(hit.end);
                self.at = next_cursor(anchored, self.searched.characters(), hit);
            }
        }
        Ok(found)
    }

    /// Takes the memory of a result back.
    pub(crate) fn give_back(&mut self, sets: Assigns, hit: Hit)
        ensures { self.new ≡ self.old }
    {
        self.searched.give_back(Found {
            sets,
            end: Some(hit),
        });
    }

    /// The next match, with what its search assigned at once; `None` at the end of the pass. Refused as [`crate::Pass::next`] is.
    pub(crate) fn next_hit(
        &mut self,
        alloc: Global,
    ) -> Result<Option<(Assigns, Hit)>, StatementFault>
        ensures next { IfOk result (λ next. MatchOption next (matches_left self.old ≡ []) (λ h. matches_left self.old ≡ match_by self.old.text h.0 h.1 ∷ matches_left self.new)) }
        ensures lies { IfOk result (λ next. IfSome next (λ h. SetsLie self.old.text h.0)) }
        ensures ended { IfOk result (λ next. MatchOption next (self.new.at ≡ None) (λ _. cursors_left self.new.text self.new.at < cursors_left self.old.text self.old.at)) }
        ensures trials { OnOk result (trials_together self.new ≡ trials_together self.old) }
        ensures same { OnOk result ((self.new.statement ≡ self.old.statement) × (self.new.text ≡ self.old.text)) }
        ensures within { OnOk result (self.new.spent ≤ self.new.statement.limit) }
        ensures refused { IfErr result (λ e. e ≡ TooManyTrials → self.old.statement.limit < trials_together self.old) }
        ensures never { IfErr result (λ e. e ≡ TextTooLong → ⊥) }
        ensures text { self.new.text ≡ self.old.text }
    {
        while let Some(from) = self.at {
            let before = self.before;
            let found = self.search(alloc, from)?;
            let Found { sets, end } = found;
            let Some(hit) = end else {
                return Ok(None);
            };
            if counts(before, &hit) {
                return Ok(Some((sets, hit)));
            }
        }
        Ok(None)
    }

    /// How many matches are left. None is kept, and no variable looked at.
    pub(crate) fn count_left(&mut self, alloc: Global) -> Result<u64, StatementFault>
        ensures counted { IfOk result (λ n. n ≡ length (matches_left self.old)) }
        ensures ended { OnOk result (self.new.at ≡ None) }
        ensures within { IfOk result (λ _. trials_together self.old ≤ self.old.statement.limit) }
        ensures refused { IfErr result (λ e. e ≡ TooManyTrials → self.old.statement.limit < trials_together self.old) }
        ensures never { IfErr result (λ e. e ≡ TextTooLong → ⊥) }
        ensures text { self.new.text ≡ self.old.text }
    {
        // for the proof
        let _short = self.searched.characters();
        let mut matches = 0;
        while let Some((sets, hit)) = self.next_hit(alloc)? {
            matches += 1;
            self.give_back(sets, hit);
        }
        Ok(matches)
    }

    /// As [`Searches::count_left`], with the fault that a file has.
    pub(crate) fn count_in_file(&mut self, alloc: Global) -> Result<u64, FileStatementFault>
        ensures counted { IfOk result (λ n. n ≡ length (matches_left self.old)) }
        ensures ended { OnOk result (self.new.at ≡ None) }
        ensures within { IfOk result (λ _. trials_together self.old ≤ self.old.statement.limit) }
        ensures refused { IfErr result (λ e. plain e ≡ TooManyTrials → self.old.statement.limit < trials_together self.old) }
        ensures never { IfErr result (λ e. plain e ≡ TextTooLong → ⊥) }
        ensures text { self.new.text ≡ self.old.text }
    {
        match self.count_left(alloc) {
            Ok(matches) => Ok(matches),
            Err(fault) => {
                let is_full = self.searched.is_full();
                Err(FileStatementFault::of(fault, is_full))
            }
        }
    }

    /// As [`Searches::next_hit`], with the fault that a file has.
    pub(crate) fn next_in_file(
        &mut self,
        alloc: Global,
    ) -> Result<Option<(Assigns, Hit)>, FileStatementFault>
        ensures next { IfOk result (λ next. MatchOption next (matches_left self.old ≡ []) (λ h. matches_left self.old ≡ match_by self.old.text h.0 h.1 ∷ matches_left self.new)) }
        ensures lies { IfOk result (λ next. IfSome next (λ h. SetsLie self.old.text h.0)) }
        ensures ended { IfOk result (λ next. MatchOption next (self.new.at ≡ None) (λ _. cursors_left self.new.text self.new.at < cursors_left self.old.text self.old.at)) }
        ensures trials { OnOk result (trials_together self.new ≡ trials_together self.old) }
        ensures same { OnOk result ((self.new.statement ≡ self.old.statement) × (self.new.text ≡ self.old.text)) }
        ensures within { OnOk result (self.new.spent ≤ self.new.statement.limit) }
        ensures refused { IfErr result (λ e. plain e ≡ TooManyTrials → self.old.statement.limit < trials_together self.old) }
        ensures never { IfErr result (λ e. plain e ≡ TextTooLong → ⊥) }
        ensures text { self.new.text ≡ self.old.text }
    {
        match self.next_hit(alloc) {
            Ok(next) => Ok(next),
            Err(fault) => {
                let is_full = self.searched.is_full();
                Err(FileStatementFault::of(fault, is_full))
            }
        }
    }
}
