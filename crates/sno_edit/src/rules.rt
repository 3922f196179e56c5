//! Rules, as they are read.
ghost use Rattle.std.specs.Prelude.{◌≡◌, ◌≢◌, ◌≤◌, length, Err, MatchResult};
ghost use Rattle.sno_document.specs.declared.statements.TheConstants.{MAX_STATEMENTS};
ghost use Rattle.sno_document.specs.Rules.{AreRules, IsRules};

use crate::Trials;
use sno_document::{DocumentFault, FileRules, Mode, StatementRow, read_rules, rules_of_rows};
use sno_statement::{FileStatement, MAX_TRIALS};
use std::alloc::Global;

/// Statements that are performed on files: at most 1,000,000.
#[derive(Drop)]
pub struct EditRules {
    statements: Vec<FileStatement>,
    trials: Trials,
    ghost few: { length statements.items ≤ MAX_STATEMENTS },
}

impl EditRules {
    ghost use Rattle.sno_edit.specs.Rules.{HoldsRows, HoldsRules, mode_of, rows_in, rules_seen};

    /// Reads rules: a document without texts, whose statements need not name a text. Literals may have any bytes. The faults are those of
    /// `read_rules` of `sno_document`, in its order. A statement that doesn't say it is anchored if `anchor` says so,
    /// and each may take `trials`.
    pub fn read(
        alloc: Global,
        bytes: &[u8],
        anchor: bool,
        trials: Trials,
    ) -> Result<EditRules, DocumentFault>
        ensures { MatchResult result (λ rules. HoldsRules anchor bytes.now (rules_seen rules).statements × ((rules_seen rules).trials ≡ trials)) (λ e. e ≢ DocumentFault.Memory → IsRules (mode_of anchor) bytes.now (Err e)) }
    {
        let mode = Mode {
            anchor,
            trials: MAX_TRIALS,
        };
        let rules = read_rules(alloc, bytes, mode)?;
        let FileRules { statements, .. } = rules;
        Ok(EditRules { statements, trials })
    }

    /// Rules that were written in another form than JSON, from the names and patterns of their definitions and from their
    /// statements. Rules of the same rows are the same. The faults are those of `rules_of_rows` of `sno_document`, in its
    /// order.
    pub fn of_rows<'t>(
        alloc: Global,
        patterns: Vec<(&'t str, &'t str)>,
        statements: Vec<StatementRow<'t>>,
        anchor: bool,
        trials: Trials,
    ) -> Result<EditRules, DocumentFault>
        ensures { MatchResult result (λ rules. HoldsRows anchor (rows_in patterns.entry.items statements.entry.items) (rules_seen rules).statements × ((rules_seen rules).trials ≡ trials)) (λ e. e ≢ DocumentFault.Memory → AreRules (mode_of anchor) (rows_in patterns.entry.items statements.entry.items) (Err e)) }
    {
        let mode = Mode {
            anchor,
            trials: MAX_TRIALS,
        };
        let rules = rules_of_rows(alloc, patterns, statements, mode)?;
        let FileRules { statements, .. } = rules;
        Ok(EditRules { statements, trials })
    }

    /// The statements, in order: at most 1,000,000.
    pub fn statements(&self) -> &[FileStatement]
        ensures value { result.now ≡ (rules_seen self.now).statements }
        ensures few { length result.now ≤ MAX_STATEMENTS }
    {
        &self.statements
    }

    /// How many trials each may take.
    pub fn trials(&self) -> Trials
        ensures { result ≡ (rules_seen self.now).trials }
    {
        self.trials
    }
}
