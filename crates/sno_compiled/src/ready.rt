//! A statement whose pattern is compiled, and its searches.
ghost use Rattle.std.specs.Prelude.{◌≡◌, ◌<◌, ◌≤◌, ◌^◌, length, None, Some, IfOk, IfErr};
ghost use Rattle.sno_pattern.specs.declared.byte_texts.TheConstants.{MAX_BYTES};
ghost use Rattle.sno_statement.specs.declared.file_faults.FileStatementFault.TheVariants.{TextTooLong, TooManyTrials};
ghost use Rattle.sno_statement.specs.FileFaults.{plain};
ghost use Rattle.sno_statement.specs.Passes.{search, search_trials};
ghost use Rattle.sno_statement.specs.Perform.{IsCodeOf, of_match, perform_within};
ghost use Rattle.sno_statement.specs.Rewriting.{GivesRewritten, rewriting};
ghost use Rattle.sno_statement.specs.Statement.{with_limit};
ghost use Rattle.sno_compiled.specs.Gathered.{gathered, gathered_trials};

use crate::gathered::{Gathered, Seeking};
use crate::loose::Loose;
use sno_machine::{Code, MAX_KEPT, MatchFault, Searched, Workspace, compile};
use sno_pattern::{ByteText, Found};
use sno_statement::{FileStatement, FileStatementFault, Rewritten, StatementFault, rewrite_with};
use std::alloc::{AllocError, Global};
use std::collections::VecDeque;
use std::mem;

/// A statement with its compiled pattern, and the memory that its searches use one after the other.
#[derive(Drop)]
pub(crate) struct Ready<'a> {
    pub(crate) statement: &'a FileStatement,
    code: Code<'a>,
    workspace: Workspace<'a>,
    ghost agree: { IsCodeOf code statement.now },
}

impl<'a> Ready<'a> {
    /// Compiles the pattern of the statement. Refused only if out of memory.
    pub(crate) fn of(alloc: Global, statement: &'a FileStatement) -> Result<Ready<'a>, AllocError>
        ensures { IfOk result (λ ready. ready.statement.now ≡ statement.now) }
    {
        let sought = statement.search();
        let code = compile(alloc, sought.rules(), sought.pattern())?;
        Ok(Ready {
            statement,
            code,
            workspace: Workspace::bounded(alloc, MAX_KEPT),
        })
    }

    /// The workspace, in whose place there is one without memory.
    fn take_workspace(&mut self, alloc: Global) -> Workspace<'a>
        ensures { self.new.statement.now ≡ self.old.statement.now }
    {
        mem::replace(&mut self.workspace, Workspace::bounded(alloc, MAX_KEPT))
    }

    /// The fault of a search. Its workspace is given up: it might have taken much memory.
    #[inline(never)]
    fn refused(&mut self, alloc: Global, fault: MatchFault) -> FileStatementFault
        ensures same { self.new.statement.now ≡ self.old.statement.now }
        ensures fault { plain result ≡ of_match fault }
    {
        let used = self.take_workspace(alloc);
        FileStatementFault::of(StatementFault::from(fault), used.is_full())
    }

    /// Puts what a search finds, from a cursor of the text on, in place of what an earlier one found, whose memory it takes over.
    /// After a refusal there is nothing, and no memory is left for the next one, which might be much.
    pub(crate) fn search(
        &mut self,
        alloc: Global,
        text: &ByteText,
        from: usize,
        trials: u32,
        found: &mut Option<Found>,
    ) -> Result<(), FileStatementFault>
        requires { from ≤ length text.now }
        ensures same { self.new.statement.now ≡ self.old.statement.now }
        ensures found { IfOk result (λ _. found.new ≡ Some (search self.old.statement.now text.now from)) }
        ensures within { IfOk result (λ _. search_trials self.old.statement.now text.now from ≤ trials) }
        ensures refused { IfErr result (λ e. e ≡ TooManyTrials → trials < search_trials self.old.statement.now text.now from) }
        ensures never { IfErr result (λ e. e ≡ TextTooLong → ⊥) }
        ensures nothing { IfErr result (λ _. found.new ≡ None) }
    {
        if let Some(earlier) = found.take() {
            self.workspace.give_back(earlier);
        }
        let anchored = self.statement.search().anchored();
        match self
            .code
            .search_in_bytes(alloc, &mut self.workspace, text, anchored, from, trials)
        {
            Ok(sought) => {
                *found = Some(sought);
                Ok(())
            }
            Err(fault) => Err(self.refused(alloc, fault)),
        }
    }

    /// What at most `most` searches find that follow one another, the first of them from this cursor on.
    pub(crate) fn gather(
        &mut self,
        alloc: Global,
        text: &ByteText,
        from: usize,
        trials: u32,
        most: usize,
    ) -> Result<VecDeque<Gathered>, FileStatementFault>
        requires { from ≤ length text.now }
        ensures same { self.new.statement.now ≡ self.old.statement.now }
        ensures gathered { IfOk result (λ v. v.items ≡ gathered self.old.statement.now text.now most (Some from)) }
        ensures within { IfOk result (λ _. gathered_trials self.old.statement.now text.now most (Some from) ≤ trials) }
        ensures refused { IfErr result (λ e. e ≡ TooManyTrials → trials < gathered_trials self.old.statement.now text.now most (Some from)) }
        ensures never { IfErr result (λ e. e ≡ TextTooLong → ⊥) }
    {
        let searched = Searched::within(self.take_workspace(alloc), text);
        let mut ahead = VecDeque::new(alloc);
        let mut seeking = Seeking {
            statement: self.statement,
            code: &self.code,
            text,
            searched,
            left: trials,
        };
        seeking.gather(alloc, Some(from), most, &mut ahead)?;
        let Seeking { searched, .. } = seeking;
        self.workspace = searched.into_workspace();
        Ok(ahead)
    }

    /// What the statement makes of the text.
    pub(crate) fn replaced(
        &mut self,
        alloc: Global,
        text: &ByteText,
        trials: u32,
    ) -> Result<Rewritten, FileStatementFault>
        ensures same { self.new.statement.now ≡ self.old.statement.now }
        ensures rewritten { GivesRewritten result (rewriting (perform_within MAX_BYTES (with_limit self.old.statement.now trials) text.now)) }
        ensures few { IfOk result (λ r. r.matches < 2 ^ 32) }
    {
        rewrite_with(alloc, self.statement, &self.code, text, trials)
    }
}

/// Compiles the pattern of a statement, in a block of its own. Refused only if out of memory.
pub(crate) fn make_ready<'a>(
    alloc: Global,
    statement: &'a FileStatement,
) -> Result<Loose<Ready<'a>>, AllocError>
    ensures { IfOk result (λ made. made.value.statement.now ≡ statement.now) }
{
    let ready = Box::new(alloc, Ready::of(alloc, statement)?)?;
    Ok(Loose::of(ready))
}

/// Frees what a pattern was compiled to.
pub(crate) fn forget<'a>(alloc: Global, ready: Loose<Ready<'a>>) {
    drop(ready.into_box(alloc));
}
