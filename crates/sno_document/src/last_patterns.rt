//! Statements in a row that are written alike share their pattern.
ghost use Rattle.std.specs.Prelude.{◌≡◌, ℕ, Bool, List, Ok, length, IfOk, IsTrue};
ghost use Rattle.std.specs.Arc.{arc_value};
ghost use Rattle.sno_pattern.specs.Tree.{tree_of, refs_below};
ghost use Rattle.sno_document.specs.Faults.{Gives};
ghost use Rattle.sno_document.specs.Document.{reading, pattern_in};
ghost use Rattle.sno_document.specs.LastPatterns.{IsOfNames};
ghost use Rattle.sno_document.specs.declared.faults.DocumentFault.TheVariants.{StatementPattern};

use crate::DocumentFault;
use crate::patterns::pattern_in;
use sno_pattern::{Names, Pattern};
use sno_read::ReadFault;
use std::alloc::Global;
use std::sync::Arc;

/// The pattern that was read last, with how it was written. Documents often have one pattern for many texts.
#[derive(Drop)]
pub(crate) struct LastPattern<'t> {
    pub(crate) read: Option<(&'t str, Arc<Pattern>)>,
}

/// The pattern of statement number `number`. Its references are to definitions.
pub(crate) fn read(
    alloc: Global,
    wide: bool,
    names: &Names,
    number: usize,
    text: &str,
) -> Result<Pattern, DocumentFault>
    ensures read { Gives tree_of result (reading (λ e. StatementPattern number e) (pattern_in wide names.now (length names.now) text.now)) }
    ensures known { IfOk result (λ p. pattern_in wide names.now (length names.now) text.now ≡ Ok (tree_of p)) }
    ensures covered { IfOk result (λ p. IsTrue (refs_below (length names.now) (tree_of p))) }
{
    match pattern_in(alloc, wide, names, names.len(), text) {
        Ok(pattern) => Ok(pattern),
        Err(ReadFault::Memory) => Err(DocumentFault::Memory),
        Err(fault) => Err(DocumentFault::StatementPattern(number, fault)),
    }
}

impl<'t> LastPattern<'t> {
    /// No pattern was read yet.
    pub(crate) fn none() -> LastPattern<'t>
        ensures { (wide : Bool) (names : List (List ℕ)) → IsOfNames wide names result }
    {
        LastPattern { read: None }
    }

    /// As `read`. A pattern that is written as the last one is that one.
    pub(crate) fn pattern(
        &mut self,
        alloc: Global,
        wide: bool,
        names: &Names,
        number: usize,
        text: &'t str,
    ) -> Result<Arc<Pattern>, DocumentFault>
        requires { IsOfNames wide names.now self.old }
        ensures read { Gives (λ p. tree_of (arc_value p)) result (reading (λ e. StatementPattern number e) (pattern_in wide names.now (length names.now) text.now)) }
        ensures covered { IfOk result (λ p. IsTrue (refs_below (length names.now) (tree_of (arc_value p)))) }
        ensures last { IsOfNames wide names.now self.new }
    {
        if let Some((written, pattern)) = &self.read {
            if *written == text {
                return Ok(Arc::try_clone(pattern)?);
            }
        }
        let pattern = Arc::new(alloc, read(alloc, wide, names, number, text)?)?;
        self.read = Some((text, Arc::try_clone(&pattern)?));
        Ok(pattern)
    }
}
