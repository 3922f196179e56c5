//! Lines are sealed as one batch.
ghost use Rattle.std.specs.Prelude.{◌≡◌, ◌+◌, ◌<◌, ◌^◌, ◌++◌, ◌∷◌, [], IfOk, IfErr, OnOk, length, decimal};
ghost use Rattle.sno_store.specs.Shown.{lines_in, lines_left};
ghost use Rattle.sno_store.specs.Lines.{bytes_of, IsLine, IsPlain};
ghost use Rattle.sno_sealed.specs.Seals.{sealed_line, sum_of};
ghost use Rattle.sno_sealed.specs.Batches.{batch_sum, sealed_batch, IsBatchFault};

use crate::chain::Chain;
use crate::numbers::put_number;
use crate::seals::seal;
use sno_store::{LineFault, Lines, StoreFault};
use std::alloc::{AllocError, Global};

/// Lines that are sealed, and how far the chain comes with them.
#[derive(Drop)]
pub(crate) struct Batch {
    pub(crate) lines: Lines,
    pub(crate) chain: Chain,
}

/// A number in decimal.
pub(crate) fn number_text(alloc: Global, number: u64) -> Result<Vec<u8>, AllocError>
    ensures { IfOk result (λ text. text.items ≡ decimal number) }
{
    let mut text = Vec::new(alloc);
    put_number(&mut text, number)?;
    Ok(text)
}

/// How many bytes lines have. There are fewer lines.
pub(crate) fn bytes_in(lines: &Lines) -> usize
    ensures bytes { result ≡ length (bytes_of (lines_in lines.now)) }
    ensures few { length (lines_in lines.now) < 2 ^ 64 }
{
    length_of(lines.bytes())
}

/// How many bytes there are.
pub(crate) fn length_of(bytes: &[u8]) -> usize
    ensures { result ≡ length bytes.now }
{
    bytes.len()
}

/// How many lines there are.
fn count(lines: &Lines) -> u64
    ensures { result ≡ length (lines_in lines.now) }
{
    // for the proof
    let _bytes = bytes_in(lines);
    let mut count: u64 = 0;
    for _line in lines.iter() {
        count += 1;
    }
    count
}

impl Batch {
    /// Adds a line, which is sealed into `line`.
    fn add(
        &mut self,
        line: &mut Vec<u8>,
        first: &[u8],
        last: &[u8],
        payload: &[u8],
    ) -> Result<(), AllocError>
        requires line { IsLine payload.now }
        requires texts { IsPlain first.now × IsPlain last.now }
        requires short { self.old.chain.lines + 1 < 2 ^ 64 }
        ensures lines { OnOk result (lines_in self.new.lines ≡ lines_in self.old.lines ++ sealed_line self.old.chain.sum (self.old.chain.lines + 1) first.now last.now payload.now ∷ []) }
        ensures chain { OnOk result (self.new.chain ≡ record { sum = sum_of self.old.chain.sum (self.old.chain.lines + 1) first.now last.now payload.now; lines = self.old.chain.lines + 1; plain = self.old.chain.plain }) }
    {
        let Chain { sum, lines, plain } = self.chain;
        let number = lines + 1;
        let sum = seal(line, sum, number, first, last, payload)?;
        push_line(&mut self.lines, line)?;
        self.chain = Chain {
            sum,
            lines: number,
            plain,
        };
        Ok(())
    }
}

/// Adds a line to others. Refused only if memory runs out.
fn push_line(lines: &mut Lines, line: &[u8]) -> Result<(), AllocError>
    requires { IsLine line.now }
    ensures { OnOk result (lines_in lines.new ≡ lines_in lines.old ++ line.now ∷ []) }
{
    match lines.push(line) {
        Ok(()) => Ok(()),
        Err(LineFault::Memory) => Err(AllocError),
        Err(LineFault::NoBrace) => unreachable!(),
        Err(LineFault::LineFeed) => unreachable!(),
        Err(LineFault::Nul) => unreachable!(),
    }
}

/// Seals lines as one batch that goes on from this chain.
///
/// Refused: `TooLong` if a number would have more than 64 bits; `Memory`.
pub(crate) fn batch_of(alloc: Global, chain: Chain, payloads: &Lines) -> Result<Batch, StoreFault>
    ensures lines { IfOk result (λ b. lines_in b.lines ≡ sealed_batch chain.sum chain.lines (lines_in payloads.now)) }
    ensures chain { IfOk result (λ b. b.chain ≡ record { sum = batch_sum chain.sum chain.lines (lines_in payloads.now); lines = chain.lines + length (lines_in payloads.now); plain = chain.plain }) }
    ensures cause { IfErr result (λ fault. IsBatchFault (chain.lines + length (lines_in payloads.now)) fault) }
{
    let Some(last) = chain.lines.checked_add(count(payloads)) else {
        return Err(StoreFault::TooLong);
    };
    let Some(first) = chain.lines.checked_add(1) else {
        return Err(StoreFault::TooLong);
    };
    match sealed(alloc, chain, first, last, payloads) {
        Ok(batch) => Ok(batch),
        Err(_) => Err(StoreFault::Memory),
    }
}

/// Seals lines with these numbers of the first and the last one.
fn sealed(
    alloc: Global,
    chain: Chain,
    first: u64,
    last: u64,
    payloads: &Lines,
) -> Result<Batch, AllocError>
    requires first { first ≡ chain.lines + 1 }
    requires last { last ≡ chain.lines + length (lines_in payloads.now) }
    ensures lines { IfOk result (λ b. lines_in b.lines ≡ sealed_batch chain.sum chain.lines (lines_in payloads.now)) }
    ensures chain { IfOk result (λ b. b.chain ≡ record { sum = batch_sum chain.sum chain.lines (lines_in payloads.now); lines = chain.lines + length (lines_in payloads.now); plain = chain.plain }) }
{
    let first = number_text(alloc, first)?;
    let last = number_text(alloc, last)?;
    let mut batch = Batch {
        lines: Lines::new(alloc),
        chain,
    };
    let mut line = Vec::new(alloc);
    for payload in payloads.iter() {
        batch.add(&mut line, &first, &last, payload)?;
    }
    Ok(batch)
}
