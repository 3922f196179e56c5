//! One pass over a text: all matches of a statement, from left to right.
ghost use Rattle.std.specs.Prelude.{◌≡◌, ◌+◌, ◌<◌, ◌≤◌, ◌∷◌, [], length, Some, None, IfOk, IfErr, IfSome, OnOk, MatchOption};
ghost use Rattle.sno_pattern.specs.CursorLaws.{SetsLie};
ghost use Rattle.sno_pattern.specs.declared.byte_texts.TheConstants.{MAX_BYTES};
ghost use Rattle.sno_statement.specs.declared.outcomes.StatementFault.TheVariants.{TooManyTrials, TextTooLong};
ghost use Rattle.sno_statement.specs.Passes.{begun, counts, cursors_left, match_by, matches_left, next_search, trials_together};
ghost use Rattle.sno_statement.specs.Perform.{IsCodeOf};

use crate::match_lists::Match;
use crate::performing::bindings_of;
use crate::searches::Searches;
use crate::{Statement, StatementFault};
use sno_machine::Code;
use sno_pattern::{Assigns, Hit, Text};
use std::alloc::{AllocError, Global};
use std::marker::Model;

/// All matches of a statement in one text, one after the other, from left to right. Each is looked for when it is asked for, so
/// no more than one is held at a time. The object isn't looked at.
#[derive(Drop)]
pub struct Pass<'c, 't, 'a> {
    searches: Searches<'c, 't, 'a>,
    text: &'t Text,
}

impl<'c, 't, 'a> Model for Pass<'c, 't, 'a> {
    ghost use Rattle.std.specs.Prelude.{◌≡◌};
    ghost use Rattle.sno_statement.specs.Passes.{Pass, pass_code};

    ghost Value = { Pass };

    ghost coded = { pass_code };

    ghost view = { λ s. s.searches };

    ghost invariant = { λ s. s.searches.text ≡ s.text.now };
}

impl<'c, 't, 'a> Pass<'c, 't, 'a> {
    /// A pass of the statement over the text. The code is that of the statement's pattern, compiled with its definitions. It
    /// takes no memory.
    pub fn new(
        alloc: Global,
        statement: &'c Statement,
        code: &'c Code<'a>,
        text: &'t Text,
    ) -> Pass<'c, 't, 'a>
        requires { IsCodeOf code.now statement.now }
        ensures { result ≡ begun statement.now text.now }
    {
        Pass {
            searches: Searches::in_text(alloc, statement, code, text),
            text,
        }
    }

    /// The next match as its search found it, without a copy: what the search assigned at once, and the match with its conditional
    /// assignments, all as cursors of the text. `None` if there is none left. Refused as [`Pass::next`] is.
    pub fn next_hit(&mut self, alloc: Global) -> Result<Option<(Assigns, Hit)>, StatementFault>
        ensures next { IfOk result (λ next. MatchOption next (matches_left self.old ≡ []) (λ h. matches_left self.old ≡ match_by self.old.text h.0 h.1 ∷ matches_left self.new)) }
        ensures lies { IfOk result (λ next. IfSome next (λ h. SetsLie self.old.text h.0)) }
        ensures ended { IfOk result (λ next. MatchOption next (self.new.at ≡ None) (λ _. cursors_left self.new.text self.new.at < cursors_left self.old.text self.old.at)) }
        ensures trials { OnOk result (trials_together self.new ≡ trials_together self.old) }
        ensures same { OnOk result ((self.new.statement ≡ self.old.statement) × (self.new.text ≡ self.old.text)) }
        ensures within { OnOk result (self.new.spent ≤ self.new.statement.limit) }
        ensures refused { IfErr result (λ e. e ≡ TooManyTrials → self.old.statement.limit < trials_together self.old) }
        ensures never { IfErr result (λ e. e ≡ TextTooLong → ⊥) }
    {
        let next = self.searches.next_hit(alloc)?;
        Ok(next)
    }

    /// Takes the memory of a match back, for the matches to come.
    pub fn give_back(&mut self, sets: Assigns, hit: Hit)
        ensures { self.new ≡ self.old }
    {
        self.searches.give_back(sets, hit);
    }

    /// How many matches are left. None is kept, and no variable copied. Refused as [`Pass::next`] is. Then no match is left; after a
    /// refusal none should be asked for.
    pub fn count_left(&mut self, alloc: Global) -> Result<u64, StatementFault>
        ensures counted { IfOk result (λ n. n ≡ length (matches_left self.old)) }
        ensures ended { OnOk result (self.new.at ≡ None) }
        ensures within { IfOk result (λ _. trials_together self.old ≤ self.old.statement.limit) }
        ensures refused { IfErr result (λ e. e ≡ TooManyTrials → self.old.statement.limit < trials_together self.old) }
        ensures never { IfErr result (λ e. e ≡ TextTooLong → ⊥) }
    {
        let matches = self.searches.count_left(alloc)?;
        Ok(matches)
    }

    /// The next match with its bindings; `None` if there is none left. The limit is for the trials of all searches of the pass
    /// together.
    ///
    /// Refused:
    /// - `TooManyTrials` only if all searches of the pass together take more trials than the statement's limit;
    /// - `Memory` if out of memory.
    ///
    /// After a refusal no further match should be asked for: the search that was refused would be tried again.
    pub fn next(&mut self, alloc: Global) -> Result<Option<Match>, StatementFault>
        ensures next { IfOk result (λ next. MatchOption next (matches_left self.old ≡ []) (λ m. matches_left self.old ≡ m ∷ matches_left self.new)) }
        ensures ended { IfOk result (λ next. MatchOption next (self.new.at ≡ None) (λ _. cursors_left self.new.text self.new.at < cursors_left self.old.text self.old.at)) }
        ensures trials { OnOk result (trials_together self.new ≡ trials_together self.old) }
        ensures same { OnOk result ((self.new.statement ≡ self.old.statement) × (self.new.text ≡ self.old.text)) }
        ensures within { OnOk result (self.new.spent ≤ self.new.statement.limit) }
        ensures refused { IfErr result (λ e. e ≡ TooManyTrials → self.old.statement.limit < trials_together self.old) }
        ensures never { IfErr result (λ e. e ≡ TextTooLong → ⊥) }
    {
        match self.searches.next_hit(alloc)? {
            None => Ok(None),
            Some((sets, hit)) => {
                let next = match_by(alloc, self.text, &sets, &hit)?;
                self.searches.give_back(sets, hit);
                Ok(Some(next))
            }
        }
    }
}

/// Where the search of a pass after a match begins: at the match's end, or one further if the match is the null string. `None` if no
/// cursor is left, or if the null string ends an anchored pass. The match has to lie in the text.
pub fn next_search(anchored: bool, text: &Text, hit: &Hit) -> Option<usize>
    requires { hit.now.end ≤ length text.now }
    ensures { result ≡ next_search anchored text.now hit.now }
{
    next_cursor(anchored, text.bytes(), hit)
}

/// As [`next_search`], of the characters of a text.
pub fn next_cursor(anchored: bool, characters: &[u8], hit: &Hit) -> Option<usize>
    requires inside { hit.now.end ≤ length characters.now }
    requires short { length characters.now ≤ MAX_BYTES }
    ensures { result ≡ next_search anchored characters.now hit.now }
{
    if hit.start != hit.end {
        Some(hit.end)
    } else if anchored || hit.end == characters.len() {
        None
    } else {
        Some(hit.end + 1)
    }
}

/// Whether a match of a pass counts: it does unless it is the null string at the end of the match before.
pub fn counts(before: Option<usize>, hit: &Hit) -> bool
    ensures { result ≡ counts before hit.now }
{
    match before {
        None => true,
        Some(before) => hit.start != before || hit.end != before,
    }
}

/// A match with the bindings of its search.
fn match_by(alloc: Global, subject: &Text, sets: &Assigns, hit: &Hit) -> Result<Match, AllocError>
    requires { SetsLie subject.now sets.now }
    ensures { IfOk result (λ m. m ≡ match_by subject.now sets.now hit.now) }
{
    let bindings = bindings_of(alloc, subject, sets.as_slice(), hit.conds.as_slice())?;
    Ok(Match {
        start: hit.start,
        end: hit.end,
        bindings,
    })
}
