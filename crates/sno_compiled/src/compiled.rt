//! A statement with its compiled pattern.
ghost use Rattle.std.specs.Prelude.{◌≡◌, ◌<◌, ◌≤◌, ◌^◌, length, None, Some, IfOk, IfErr};
ghost use Rattle.sno_pattern.specs.declared.byte_texts.TheConstants.{MAX_BYTES};
ghost use Rattle.sno_statement.specs.declared.file_faults.FileStatementFault.TheVariants.{TextTooLong, TooManyTrials};
ghost use Rattle.sno_statement.specs.Passes.{search, search_trials};
ghost use Rattle.sno_statement.specs.Perform.{perform_within};
ghost use Rattle.sno_statement.specs.Rewriting.{GivesRewritten, rewriting};
ghost use Rattle.sno_statement.specs.Statement.{with_limit};
ghost use Rattle.sno_compiled.specs.Gathered.{gathered, gathered_trials};

use crate::gathered::Gathered;
use crate::loose::Loose;
use crate::tied::Tied;
use sno_pattern::{ByteText, Found};
use sno_statement::{FileStatement, FileStatementFault, Rewritten};
use std::alloc::{AllocError, Global};
use std::collections::VecDeque;
use std::marker::Model;

/// A statement whose pattern is compiled, with the memory that its searches use one after the other. Clauses see it as the statement.
pub struct CompiledStatement {
    tied: Tied,
    alloc: Global,
}

impl Model for CompiledStatement {
    ghost use Rattle.sno_statement.specs.Statement.{Statement, statement_code};

    ghost Value = { Statement };

    ghost coded = { statement_code };

    ghost view = { λ s. s.tied.value };
}

impl CompiledStatement {
    /// Compiles the pattern of the statement. Refused only if out of memory.
    pub fn of(alloc: Global, statement: FileStatement) -> Result<CompiledStatement, AllocError>
        ensures { IfOk result (λ s. s ≡ statement) }
    {
        let statement = Box::new(alloc, statement)?;
        match Tied::of(alloc, Loose::of(statement)) {
            Ok(tied) => Ok(CompiledStatement { tied, alloc }),
            Err(statement) => {
                drop(statement.into_box(alloc));
                Err(AllocError)
            }
        }
    }

    /// Puts what a search for the pattern finds, from a cursor of the text on, in place of what an earlier one found, whose memory it
    /// takes over: the match, or that there is none, with the assignments. The object and the rounds of the statement are not looked
    /// at.
    ///
    /// Refused:
    /// - `TooManyTrials` exactly if the search takes more than `trials` trials, unless one of the others comes first;
    /// - `HistoryTooLong` only if the search would have to keep more than `sno_machine::MAX_KEPT` entries in its history;
    /// - `Memory` if out of memory.
    ///
    /// After a refusal nothing is found, and no memory is kept for the next search.
    pub fn search(
        &mut self,
        alloc: Global,
        text: &ByteText,
        from: usize,
        trials: u32,
        found: &mut Option<Found>,
    ) -> Result<(), FileStatementFault>
        requires { from ≤ length text.now }
        ensures found { IfOk result (λ _. found.new ≡ Some (search self.old text.now from)) }
        ensures within { IfOk result (λ _. search_trials self.old text.now from ≤ trials) }
        ensures refused { IfErr result (λ e. e ≡ TooManyTrials → trials < search_trials self.old text.now from) }
        ensures never { IfErr result (λ e. e ≡ TextTooLong → ⊥) }
        ensures nothing { IfErr result (λ _. found.new ≡ None) }
        ensures same { self.new ≡ self.old }
    {
        self.tied.search(alloc, text, from, trials, found)
    }

    /// What up to `most` searches find that follow one another, the first of them from a cursor of the text on: what as many calls
    /// of [`CompiledStatement::search`] would find, each from where the match before leaves off. After a search without a match there
    /// is no further one. What is learnt of the text serves all of them.
    ///
    /// Refused as that is, for the trials of all of them together.
    pub fn gather(
        &mut self,
        alloc: Global,
        text: &ByteText,
        from: usize,
        trials: u32,
        most: usize,
    ) -> Result<VecDeque<Gathered>, FileStatementFault>
        requires { from ≤ length text.now }
        ensures gathered { IfOk result (λ v. v.items ≡ gathered self.old text.now most (Some from)) }
        ensures within { IfOk result (λ _. gathered_trials self.old text.now most (Some from) ≤ trials) }
        ensures refused { IfErr result (λ e. e ≡ TooManyTrials → trials < gathered_trials self.old text.now most (Some from)) }
        ensures never { IfErr result (λ e. e ≡ TextTooLong → ⊥) }
        ensures same { self.new ≡ self.old }
    {
        self.tied.gather(alloc, text, from, trials, most)
    }

    /// What the statement makes of the text, as [`sno_statement::rewrite`] does.
    pub fn replaced(
        &mut self,
        alloc: Global,
        text: &ByteText,
        trials: u32,
    ) -> Result<Rewritten, FileStatementFault>
        ensures rewritten { GivesRewritten result (rewriting (perform_within MAX_BYTES (with_limit self.old trials) text.now)) }
        ensures few { IfOk result (λ r. r.matches < 2 ^ 32) }
        ensures same { self.new ≡ self.old }
    {
        self.tied.replaced(alloc, text, trials)
    }
}

impl Drop for CompiledStatement {
    fn drop(self) {
        let CompiledStatement { tied, alloc } = self;
        drop(tied.untie(alloc).into_box(alloc));
    }
}
