//! What searches that follow one another find.
ghost use Rattle.std.specs.Prelude.{◌≡◌, ◌<◌, ◌≤◌, ◌+◌, ◌++◌, length, None, Some, IfOk, IfErr, IfSome, OnOk};
ghost use Rattle.sno_statement.specs.declared.file_faults.FileStatementFault.TheVariants.{TextTooLong, TooManyTrials};
ghost use Rattle.sno_statement.specs.Passes.{IsCursor, search, search_trials};
ghost use Rattle.sno_statement.specs.Perform.{IsCodeOf};
ghost use Rattle.sno_compiled.specs.Gathered.{cursor_or_past, gathered, gathered_by, gathered_trials, next_after};

use sno_machine::{Code, SearchOutcome, Searched};
use sno_pattern::{ByteText, Found};
use sno_statement::{FileStatement, FileStatementFault, StatementFault, next_cursor};
use std::alloc::Global;
use std::collections::VecDeque;

/// What a search found, and where the next one begins.
#[derive(Drop)]
pub struct Gathered {
    /// What it found.
    pub found: Found,
    /// The cursor from which the next search of a pass begins; one past the end of the text if there is none.
    pub next: usize,
}

/// A pattern that is sought in a text, search after search, in one workspace.
#[derive(Drop)]
pub(crate) struct Seeking<'c, 't, 'a> {
    pub(crate) statement: &'c FileStatement,
    pub(crate) code: &'c Code<'a>,
    pub(crate) text: &'t ByteText,
    pub(crate) searched: Searched<'t, 'a>,
    /// How many trials all further searches may take together.
    pub(crate) left: u32,
    ghost agree: { IsCodeOf code.now statement.now × (searched ≡ text.now) },
}

/// Where the search after one begins, if that one found a match.
fn cursor_after(anchored: bool, text: &ByteText, found: &Found) -> Option<usize>
    requires { IfSome found.now.end (λ hit. hit.end ≤ length text.now) }
    ensures { result ≡ next_after anchored text.now found.now.end }
{
    match &found.end {
        None => None,
        Some(hit) => next_cursor(anchored, text.bytes(), hit),
    }
}

/// The cursor, or if there is none, one past the end of the text.
fn or_past(text: &ByteText, cursor: Option<usize>) -> usize
    ensures { result ≡ cursor_or_past text.now cursor }
{
    match cursor {
        Some(cursor) => cursor,
        None => text.bytes().len() + 1,
    }
}

impl<'c, 't, 'a> Seeking<'c, 't, 'a> {
    /// What the search from this cursor on finds.
    fn search(&mut self, alloc: Global, from: usize) -> Result<Found, FileStatementFault>
        requires { from ≤ length self.old.text.now }
        ensures found { IfOk result (λ found. found ≡ search self.old.statement.now self.old.text.now from) }
        ensures trials { OnOk result (self.old.left ≡ search_trials self.old.statement.now self.old.text.now from + self.new.left) }
        ensures same { (self.new.statement.now ≡ self.old.statement.now) × (self.new.text.now ≡ self.old.text.now) }
        ensures refused { IfErr result (λ e. e ≡ TooManyTrials → self.old.left < search_trials self.old.statement.now self.old.text.now from) }
        ensures never { IfErr result (λ e. e ≡ TextTooLong → ⊥) }
    {
        let anchored = self.statement.search().anchored();
        match self
            .code
            .first_from(alloc, &mut self.searched, anchored, from, self.left)
        {
            Ok(search) => {
                let SearchOutcome { found, trials } = search;
                self.left -= trials;
                Ok(found)
            }
            Err(fault) => {
                let fault = StatementFault::from(fault);
                Err(FileStatementFault::of(fault, self.searched.is_full()))
            }
        }
    }

    #[tactic(auto, using(crate::proofs::GatheredLaws::none_left, crate::proofs::GatheredLaws::no_trials, crate::proofs::GatheredLaws::one_more, crate::proofs::GatheredLaws::trials_more, crate::proofs::GatheredLaws::next_cursor, crate::proofs::GatheredLaws::end_inside))]
    /// Puts what at most `most` searches find, the first of them from this cursor on, after what was gathered before.
    pub(crate) fn gather(
        &mut self,
        alloc: Global,
        from: Option<usize>,
        most: usize,
        ahead: &mut VecDeque<Gathered>,
    ) -> Result<(), FileStatementFault>
        requires { IsCursor self.old.text.now from }
        ensures gathered { OnOk result (ahead.new.items ≡ ahead.old.items ++ gathered self.old.statement.now self.old.text.now most from) }
        ensures within { OnOk result (gathered_trials self.old.statement.now self.old.text.now most from ≤ self.old.left) }
        ensures refused { IfErr result (λ e. e ≡ TooManyTrials → self.old.left < gathered_trials self.old.statement.now self.old.text.now most from) }
        ensures never { IfErr result (λ e. e ≡ TextTooLong → ⊥) }
    {
        let anchored = self.statement.search().anchored();
        let mut at = from;
        let mut left = most;
        while left > 0 {
            let Some(cursor) = at else {
                return Ok(());
            };
            let found = self.search(alloc, cursor)?;
            at = cursor_after(anchored, self.text, &found);
            let next = or_past(self.text, at);
            ahead.push_back(Gathered { found, next })?;
            left -= 1;
        }
        Ok(())
    }
}
