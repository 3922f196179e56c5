//! The bytes of a file are looked at without a store.
ghost use Rattle.std.specs.Prelude.{◌≡◌, List, ℕ, IfOk, IfErr, length, take};
ghost use Rattle.sno_store.specs.Lines.{bytes_of, recovered};
ghost use Rattle.sno_sealed.specs.declared.chain.Chain.{Chain};
ghost use Rattle.sno_sealed.specs.Chains.{IsChain};

use crate::batches::length_of;
use crate::reader::Reader;
use sno_store::LinesIter;
use std::alloc::{AllocError, Global};

/// How much of a file is undamaged.
#[derive(Clone, Copy, Debug, PartialEq, Eq)]
pub struct Front {
    /// How many whole lines come first whose sums are right.
    pub lines: u64,
    /// Where they end, in bytes.
    pub end: usize,
}

/// How many whole undamaged lines come first in a file with these bytes, and where they end. Refused only if memory runs out.
pub fn undamaged(alloc: Global, bytes: &[u8]) -> Result<Front, AllocError>
    ensures sums { IfOk result (λ it. (payloads : List (List ℕ)) × (chain : Chain) × IsChain (take it.lines (recovered bytes.now)) payloads chain) }
    ensures end { IfOk result (λ it. it.end ≡ length (bytes_of (take it.lines (recovered bytes.now)))) }
    ensures lines { IfOk result (λ it. length (take it.lines (recovered bytes.now)) ≡ it.lines) }
{
    // for the proof
    let _length = length_of(bytes);
    let mut reader = Reader::new(alloc);
    let mut end: usize = 0;
    for line in LinesIter::of_file(bytes) {
        let before = reader.chain.lines;
        if !reader.take(line)? {
            return Ok(Front { lines: before, end });
        }
        end += line.len() + 1;
    }
    Ok(Front {
        lines: reader.chain.lines,
        end,
    })
}
