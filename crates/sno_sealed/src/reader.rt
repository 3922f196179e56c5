//! Lines are read, and their sums are compared.
ghost use Rattle.std.specs.Prelude.{◌≡◌, ◌+◌, ◌<◌, ◌^◌, ◌++◌, ◌∷◌, [], ℕ, List, IfOk, IfSome, IsTrue, false};
ghost use Rattle.sno_store.specs.Shown.{lines_in};
ghost use Rattle.sno_sealed.specs.Chains.{IsChain, IsSealedBy, looks_sealed, start};
ghost use Rattle.sno_sealed.specs.Seals.{sum_after};

use crate::chain::Chain;
use crate::numbers::sum_after;
use crate::seals::{SUM_KEY, begun, closes, parts_of, seal};
use sno_store::{LineFault, Lines};
use std::alloc::{AllocError, Global};

/// How many bytes a seal has from the key of its sum on, but for a `}`.
const SUM_LEN: usize = 26;

/// Whether a line has a sum where a sealed one has it.
#[tactic(auto, unfolding(crate::specs::Chains::looks_sealed))]
pub(crate) fn looks_sealed(line: &[u8]) -> bool
    ensures { result ≡ looks_sealed line.now }
{
    let inner = begun(line);
    let rest = inner.split_at(inner.len().saturating_sub(SUM_LEN)).1;
    rest.starts_with(SUM_KEY)
}

/// Lines that were read, as their payloads.
#[derive(Drop)]
pub(crate) struct Reader {
    pub(crate) chain: Chain,
    pub(crate) payloads: Lines,
    /// The payload of a line, and the line sealed again.
    payload: Vec<u8>,
    again: Vec<u8>,
}

impl Reader {
    /// Before the first line.
    pub(crate) fn new(alloc: Global) -> Reader
        ensures { (result.chain ≡ start) × (lines_in result.payloads ≡ []) }
    {
        Reader {
            chain: Chain::start(),
            payloads: Lines::new(alloc),
            payload: Vec::new(alloc),
            again: Vec::new(alloc),
        }
    }

    /// The number of the next line.
    pub(crate) fn next(&self) -> u64
        requires { self.now.chain.lines + 1 < 2 ^ 64 }
        ensures { result ≡ self.now.chain.lines + 1 }
    {
        self.chain.lines + 1
    }

    /// Opens a sealed line into `self.payload`. Returns its sum, or nothing if it isn't sealed as the next one.
    fn open(&mut self, line: &[u8]) -> Result<Option<u64>, AllocError>
        requires { self.old.chain.lines + 1 < 2 ^ 64 }
        ensures opened { IfOk result (λ sum. IfSome sum (λ sum. IsSealedBy self.old.chain.sum (self.old.chain.lines + 1) line.now self.new.payload.items sum)) }
        ensures same { (self.new.chain ≡ self.old.chain) × (self.new.payloads ≡ self.old.payloads) }
    {
        let Some(parts) = parts_of(line) else {
            return Ok(None);
        };
        let Some(begun) = parts.begun() else {
            return Ok(None);
        };
        self.payload.clear();
        self.payload.extend_from_slice(begun)?;
        if closes(line) {
            self.payload.push(b'}')?;
        }
        let number = self.chain.lines + 1;
        let sum = seal(
            &mut self.again,
            self.chain.sum,
            number,
            parts.first,
            parts.last,
            &self.payload,
        )?;
        if self.again.as_slice() != line {
            return Ok(None);
        }
        Ok(Some(sum))
    }

    /// Takes the next line. Returns whether it is right: sealed as the next one, or, if no sealed one has come before, without a sum.
    pub(crate) fn take(&mut self, line: &[u8]) -> Result<bool, AllocError>
        requires { self.old.chain.lines + 1 < 2 ^ 64 }
        ensures taken { IfOk result (λ right. IsTrue right → (lines : List (List ℕ)) → IsChain lines (lines_in self.old.payloads) self.old.chain → IsChain (lines ++ line.now ∷ []) (lines_in self.new.payloads) self.new.chain) }
        ensures count { IfOk result (λ right. IsTrue right → self.new.chain.lines ≡ self.old.chain.lines + 1) }
    {
        if self.chain.lines == self.chain.plain && !looks_sealed(line) {
            return self.take_plain(line);
        }
        let Some(sum) = self.open(line)? else {
            return Ok(false);
        };
        if !pushed(&mut self.payloads, &self.payload)? {
            return Ok(false);
        }
        self.chain = Chain {
            sum,
            lines: self.chain.lines + 1,
            plain: self.chain.plain,
        };
        Ok(true)
    }

    /// Takes the next line as one without a sum.
    fn take_plain(&mut self, line: &[u8]) -> Result<bool, AllocError>
        requires short { self.old.chain.lines + 1 < 2 ^ 64 }
        requires none { self.old.chain.lines ≡ self.old.chain.plain }
        requires plain { looks_sealed line.now ≡ false }
        ensures taken { IfOk result (λ right. IsTrue right → (lines : List (List ℕ)) → IsChain lines (lines_in self.old.payloads) self.old.chain → IsChain (lines ++ line.now ∷ []) (lines_in self.new.payloads) self.new.chain) }
        ensures count { IfOk result (λ right. IsTrue right → self.new.chain.lines ≡ self.old.chain.lines + 1) }
    {
        if !pushed(&mut self.payloads, line)? {
            return Ok(false);
        }
        self.chain = Chain {
            sum: sum_after(self.chain.sum, line),
            lines: self.chain.lines + 1,
            plain: self.chain.plain + 1,
        };
        Ok(true)
    }
}

/// Adds a line. Returns whether it is one.
fn pushed(lines: &mut Lines, line: &[u8]) -> Result<bool, AllocError>
    ensures { IfOk result (λ is_line. IsTrue is_line → lines_in lines.new ≡ lines_in lines.old ++ line.now ∷ []) }
{
    match lines.push(line) {
        Ok(()) => Ok(true),
        Err(LineFault::Memory) => Err(AllocError),
        Err(_) => Ok(false),
    }
}
