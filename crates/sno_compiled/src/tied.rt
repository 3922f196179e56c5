//! A statement, and what its pattern is compiled to, which borrows from it.
ghost use Rattle.std.specs.Prelude.{◌≡◌, ◌<◌, ◌≤◌, ◌^◌, length, None, Some, IfOk, IfErr};
ghost use Rattle.sno_pattern.specs.declared.byte_texts.TheConstants.{MAX_BYTES};
ghost use Rattle.sno_statement.specs.declared.file_faults.FileStatementFault.TheVariants.{TextTooLong, TooManyTrials};
ghost use Rattle.sno_statement.specs.Passes.{search, search_trials};
ghost use Rattle.sno_statement.specs.Perform.{perform_within};
ghost use Rattle.sno_statement.specs.Rewriting.{GivesRewritten, rewriting};
ghost use Rattle.sno_statement.specs.Statement.{Statement, statement_code, with_limit};
ghost use Rattle.sno_compiled.specs.Gathered.{gathered, gathered_trials};

use crate::gathered::Gathered;
use crate::loose::Loose;
use crate::ready::{Ready, forget, make_ready};
use sno_pattern::{ByteText, Found};
use sno_statement::{FileStatement, FileStatementFault, Rewritten};
use std::alloc::Global;
use std::collections::VecDeque;
use std::marker::Model;

/// A statement in a block of its own, and in another one what its pattern is compiled to, which borrows from it. It is taken apart by
/// [`Tied::untie`].
pub(crate) struct Tied {
    statement: *mut FileStatement,
    ready: *mut u8,
    pub(crate) ghost value: { Statement } by { statement_code },
}

impl Model for Tied {
    ghost use Rattle.sno_compiled.specs.Owned.{tied_at};

    ghost also_owns = { λ t. tied_at t.statement t.ready t.value };
}

impl Tied {
    /// Compiles the pattern of the statement, which is given back if memory runs out.
    pub(crate) fn of(
        alloc: Global,
        statement: Loose<FileStatement>,
    ) -> Result<Tied, Loose<FileStatement>>
        ensures tied { IfOk result (λ t. t.value ≡ statement.value) }
        ensures given_back { IfErr result (λ s. s.value ≡ statement.value) }
    {
        let Loose { at } = statement;
        match make_ready(alloc, unsafe { &*at }) {
            Ok(made) => {
                let Loose { at: made } = made;
                Ok(Tied {
                    statement: at,
                    ready: made as *mut u8,
                })
            }
            Err(_) => Err(Loose { at }),
        }
    }

    /// As [`Ready::search`].
    pub(crate) fn search(
        &mut self,
        alloc: Global,
        text: &ByteText,
        from: usize,
        trials: u32,
        found: &mut Option<Found>,
    ) -> Result<(), FileStatementFault>
        requires { from ≤ length text.now }
        ensures same { self.new.value ≡ self.old.value }
        ensures found { IfOk result (λ _. found.new ≡ Some (search self.old.value text.now from)) }
        ensures within { IfOk result (λ _. search_trials self.old.value text.now from ≤ trials) }
        ensures refused { IfErr result (λ e. e ≡ TooManyTrials → trials < search_trials self.old.value text.now from) }
        ensures never { IfErr result (λ e. e ≡ TextTooLong → ⊥) }
        ensures nothing { IfErr result (λ _. found.new ≡ None) }
    {
        let ready = self.ready as *mut Ready<'_>;
        unsafe { (*ready).search(alloc, text, from, trials, found) }
    }

    /// As [`Ready::gather`].
    pub(crate) fn gather(
        &mut self,
        alloc: Global,
        text: &ByteText,
        from: usize,
        trials: u32,
        most: usize,
    ) -> Result<VecDeque<Gathered>, FileStatementFault>
        requires { from ≤ length text.now }
        ensures same { self.new.value ≡ self.old.value }
        ensures gathered { IfOk result (λ v. v.items ≡ gathered self.old.value text.now most (Some from)) }
        ensures within { IfOk result (λ _. gathered_trials self.old.value text.now most (Some from) ≤ trials) }
        ensures refused { IfErr result (λ e. e ≡ TooManyTrials → trials < gathered_trials self.old.value text.now most (Some from)) }
        ensures never { IfErr result (λ e. e ≡ TextTooLong → ⊥) }
    {
        let ready = self.ready as *mut Ready<'_>;
        unsafe { (*ready).gather(alloc, text, from, trials, most) }
    }

    /// As [`Ready::replaced`].
    pub(crate) fn replaced(
        &mut self,
        alloc: Global,
        text: &ByteText,
        trials: u32,
    ) -> Result<Rewritten, FileStatementFault>
        ensures same { self.new.value ≡ self.old.value }
        ensures rewritten { GivesRewritten result (rewriting (perform_within MAX_BYTES (with_limit self.old.value trials) text.now)) }
        ensures few { IfOk result (λ r. r.matches < 2 ^ 32) }
    {
        let ready = self.ready as *mut Ready<'_>;
        unsafe { (*ready).replaced(alloc, text, trials) }
    }

    /// Frees what the pattern was compiled to, and gives the statement back.
    pub(crate) fn untie(self, alloc: Global) -> Loose<FileStatement>
        ensures { result.value ≡ self.value }
    {
        let Tied { statement, ready } = self;
        forget(
            alloc,
            Loose {
                at: ready as *mut Ready<'_>,
            },
        );
        Loose { at: statement }
    }
}

// What it holds may go to another thread.
unsafe impl Send for Tied {}
