//! A pattern that is compiled, and its match.
ghost use Rattle.std.specs.Prelude.{◌≡◌, ◌<◌, ◌≤◌, ℕ, length, IfOk, IfErr, IsTrue};
ghost use Rattle.sno_pattern.specs.Tree.{tree_of, refs_below};
ghost use Rattle.sno_pattern.specs.Results.{enough_depth};
ghost use Rattle.sno_pattern.specs.declared.byte_texts.TheConstants.{MAX_BYTES};
ghost use Rattle.sno_pattern.specs.Outcome.{outcome, outcome_at, outcome_from, trials, trials_from};
ghost use Rattle.sno_machine.specs.declared.faults.MatchFault.TheVariants.{TooManyTrials};

use crate::compiling::builder::nodes_of;
use crate::compiling::nodes::Compiled;
use crate::faults::MatchFault;
use crate::run::learnt::Learnt;
use crate::run::search::{SearchOutcome, search};
use crate::searched::Searched;
use crate::starts::beginnings::Beginnings;
use crate::starts::run_starts::RunStart;
use crate::workspace::Workspace;
use sno_pattern::{
    ByteText, Found, Pattern, Rules, Text, a_greater_depth_changes_no_outcome,
    a_search_from_the_first_cursor_is_a_match,
};
use std::alloc::{AllocError, Global};
use std::marker::Model;

/// A pattern compiled with the definitions that it may refer to. It borrows both, and is made once for any number of matches.
#[derive(Drop)]
pub struct Code<'a> {
    compiled: Compiled<'a>,
}

impl<'a> Model for Code<'a> {
    ghost use Rattle.sno_pattern.specs.Tree.{tree_of};
    ghost use Rattle.std.specs.Prelude.{◌≤◌, IfSome};
    ghost use Rattle.sno_machine.specs.Beginnings.{IsRunStart};
    ghost use Rattle.sno_machine.specs.Passing.{AreBeginnings, cost};
    ghost use Rattle.sno_machine.specs.Code.{IsCompiled};
    ghost use Rattle.sno_machine.specs.Sources.{Source, source_code};
    ghost use Rattle.sno_machine.specs.declared.starts.fronts.TheConstants.{MAX_FRONTS};

    ghost Value = { Source };

    ghost coded = { source_code };

    ghost view = { λ s. record { bodies = s.compiled.rules.now.bodies; pattern = tree_of s.compiled.pattern.now } };

    ghost invariant = { λ s. IsCompiled s.compiled.rules.now.bodies (tree_of s.compiled.pattern.now) s.compiled.nodes
        × AreBeginnings s.compiled.rules.now.bodies (tree_of s.compiled.pattern.now) s.compiled.beginnings × (cost s.compiled.beginnings ≤ MAX_FRONTS)
        × IfSome s.compiled.run (IsRunStart s.compiled.rules.now.bodies (tree_of s.compiled.pattern.now)) };
}

/// Compiles the pattern with the definitions. Each reference of the pattern has to be to one of them (`Rules::covers`).
///
/// Refused only if out of memory, or if there would be more than 4,294,967,295 nodes. A pattern and its definitions have at
/// most three nodes for each of their parts, and two more.
pub fn compile<'a>(
    alloc: Global,
    rules: &'a Rules,
    pattern: &'a Pattern,
) -> Result<Code<'a>, AllocError>
    requires { IsTrue (refs_below (length rules.now.bodies) (tree_of pattern.now)) }
    ensures { IfOk result (λ code. code ≡ record { bodies = rules.now.bodies; pattern = tree_of pattern.now }) }
{
    let nodes = nodes_of(alloc, rules, pattern)?;
    let beginnings = Beginnings::of(alloc, rules, pattern)?;
    let run = RunStart::of(pattern);
    Ok(Code {
        compiled: Compiled {
            nodes,
            beginnings,
            run,
            rules,
            pattern,
        },
    })
}

impl<'a> Code<'a> {
    /// The outcome of matching the pattern with the text: anchored at cursor 0 alone, floating at each cursor
    /// in turn until one succeeds.
    ///
    /// Returns the immediate assignments that were done, in their order, including those that were backed over. It also returns
    /// the first success with its conditional assignments, or `None` if the match failed.
    ///
    /// What is left to be tried is on a history of its own. So no call goes deeper for a longer text, for more rounds or for
    /// definitions that refer to themselves. The history grows with the steps that can still be taken back.
    ///
    /// A trial is spent when a pattern without parts is met at a cursor, and when it is backed into for a further end. All
    /// starts together may take `limit` trials.
    ///
    /// Refused:
    /// - `TooManyTrials` exactly if the match takes more than `limit` trials, unless memory runs out first;
    /// - `Memory` if out of memory, or if the history would have more than 4,294,967,295 entries.
    pub fn first(
        &self,
        alloc: Global,
        text: &Text,
        anchored: bool,
        limit: u32,
    ) -> Result<Found, MatchFault>
        // The result is the outcome of the match ..
        ensures found { IfOk result (λ found. found ≡ outcome text.now self.now.bodies self.now.pattern anchored) }
        // .. at every depth of references that is enough.
        ensures deep { IfOk result (λ found. (k : ℕ) → enough_depth text.now self.now.bodies ≤ k → found ≡ outcome_at text.now self.now.bodies k self.now.pattern anchored) }
        // It takes no more trials than the limit,
        ensures within { IfOk result (λ _. trials text.now self.now.bodies self.now.pattern anchored ≤ limit) }
        // and is refused for its trials only if it takes more.
        ensures refused { IfErr result (λ e. e ≡ TooManyTrials → limit < trials text.now self.now.bodies self.now.pattern anchored) }
    {
        let mut workspace = Workspace::new(alloc);
        let found = self.first_in(alloc, &mut workspace, text, anchored, limit)?;
        Ok(found)
    }

    /// As [`Code::first`], by the memory of a workspace, which further matches may use again.
    pub fn first_in(
        &self,
        alloc: Global,
        workspace: &mut Workspace<'a>,
        text: &Text,
        anchored: bool,
        limit: u32,
    ) -> Result<Found, MatchFault>
        ensures found { IfOk result (λ found. found ≡ outcome text.now self.now.bodies self.now.pattern anchored) }
        ensures deep { IfOk result (λ found. (k : ℕ) → enough_depth text.now self.now.bodies ≤ k → found ≡ outcome_at text.now self.now.bodies k self.now.pattern anchored) }
        ensures within { IfOk result (λ _. trials text.now self.now.bodies self.now.pattern anchored ≤ limit) }
        ensures refused { IfErr result (λ e. e ≡ TooManyTrials → limit < trials text.now self.now.bodies self.now.pattern anchored) }
    {
        // for the proof
        self.compiled.rules.bodies();
        a_greater_depth_changes_no_outcome();
        a_search_from_the_first_cursor_is_a_match();
        let found = self.first_of(alloc, workspace, text.bytes(), anchored, 0, limit)?;
        Ok(found)
    }

    /// As [`Code::first_in`], in a text of bytes.
    pub fn first_in_bytes(
        &self,
        alloc: Global,
        workspace: &mut Workspace<'a>,
        text: &ByteText,
        anchored: bool,
        limit: u32,
    ) -> Result<Found, MatchFault>
        ensures found { IfOk result (λ found. found ≡ outcome text.now self.now.bodies self.now.pattern anchored) }
        ensures deep { IfOk result (λ found. (k : ℕ) → enough_depth text.now self.now.bodies ≤ k → found ≡ outcome_at text.now self.now.bodies k self.now.pattern anchored) }
        ensures within { IfOk result (λ _. trials text.now self.now.bodies self.now.pattern anchored ≤ limit) }
        ensures refused { IfErr result (λ e. e ≡ TooManyTrials → limit < trials text.now self.now.bodies self.now.pattern anchored) }
    {
        // for the proof
        self.compiled.rules.bodies();
        a_greater_depth_changes_no_outcome();
        a_search_from_the_first_cursor_is_a_match();
        let found = self.first_of(alloc, workspace, text.bytes(), anchored, 0, limit)?;
        Ok(found)
    }

    /// The outcome of a search in a text of bytes from a cursor on, by the memory of a workspace. It is that of [`Code::first_from`],
    /// which serves better where one text is searched often.
    ///
    /// Refused as [`Code::first`] is, for the trials of this search.
    pub fn search_in_bytes(
        &self,
        alloc: Global,
        workspace: &mut Workspace<'a>,
        text: &ByteText,
        anchored: bool,
        from: usize,
        limit: u32,
    ) -> Result<Found, MatchFault>
        requires { from ≤ length text.now }
        ensures found { IfOk result (λ found. found ≡ outcome_from text.now self.now.bodies self.now.pattern anchored from) }
        ensures within { IfOk result (λ _. trials_from text.now self.now.bodies self.now.pattern anchored from ≤ limit) }
        ensures refused { IfErr result (λ e. e ≡ TooManyTrials → limit < trials_from text.now self.now.bodies self.now.pattern anchored from) }
    {
        self.first_of(alloc, workspace, text.bytes(), anchored, from, limit)
    }

    // The outcome of a search in these characters from this cursor on.
    fn first_of(
        &self,
        alloc: Global,
        workspace: &mut Workspace<'a>,
        text: &[u8],
        anchored: bool,
        from: usize,
        limit: u32,
    ) -> Result<Found, MatchFault>
        requires short { length text.now ≤ MAX_BYTES }
        requires inside { from ≤ length text.now }
        ensures found { IfOk result (λ found. found ≡ outcome_from text.now self.now.bodies self.now.pattern anchored from) }
        ensures within { IfOk result (λ _. trials_from text.now self.now.bodies self.now.pattern anchored from ≤ limit) }
        ensures refused { IfErr result (λ e. e ≡ TooManyTrials → limit < trials_from text.now self.now.bodies self.now.pattern anchored from) }
    {
        let history = &mut workspace.history;
        let mut learnt = Learnt::nothing_of(text);
        let first = search(
            alloc,
            &self.compiled,
            history,
            text,
            &mut learnt,
            anchored,
            from,
            limit,
        )?;
        let SearchOutcome { found, .. } = first;
        Ok(found)
    }

    /// The outcome of a search from a cursor of the text on: a match whose starts are this cursor and each later one, or if
    /// anchored this cursor alone. All else is as in [`Code::first`], and the primitives look at the whole text.
    ///
    /// Also returns how many trials the search took, so that several searches can be limited together.
    ///
    /// Refused as [`Code::first`] is, for the trials of this search alone. The text stays searchable after a refusal.
    pub fn first_from(
        &self,
        alloc: Global,
        text: &mut Searched<'_, 'a>,
        anchored: bool,
        from: usize,
        limit: u32,
    ) -> Result<SearchOutcome, MatchFault>
        requires { from ≤ length text.old }
        ensures found { IfOk result (λ s. s.found ≡ outcome_from text.old self.now.bodies self.now.pattern anchored from) }
        ensures counted { IfOk result (λ s. s.trials ≡ trials_from text.old self.now.bodies self.now.pattern anchored from) }
        ensures within { IfOk result (λ s. s.trials ≤ limit) }
        ensures refused { IfErr result (λ e. e ≡ TooManyTrials → limit < trials_from text.old self.now.bodies self.now.pattern anchored from) }
        ensures same { text.new ≡ text.old }
    {
        let found = search(
            alloc,
            &self.compiled,
            &mut text.workspace.history,
            text.text,
            &mut text.learnt,
            anchored,
            from,
            limit,
        );
        found
    }
}
