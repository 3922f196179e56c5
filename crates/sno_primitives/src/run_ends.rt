//! Where the runs of a set end in a text, found once for all cursors.
ghost use Rattle.std.specs.Prelude.{◌≡◌, ◌+◌, ◌/◌, ◌≤◌, take, length, IfOk, IfNone, IfSome};
ghost use Rattle.std.specs.List.{take_while};
ghost use Rattle.sno_pattern.specs.declared.byte_texts.TheConstants.{MAX_BYTES};
ghost use Rattle.sno_primitives.specs.Runs.{goes_through, run_end, AreRunEnds};
ghost use Rattle.sno_primitives.specs.Rows.{goes_by_rows, AreRowsOf};
ghost use Rattle.sno_primitives.specs.RunTables.{IsOfText};

use crate::rows::Rows;
use crate::runs::{NEAR, front, long_run, run_before, run_in};
use sno_pattern::Class;
use std::alloc::{AllocError, Global};

// How many characters share an entry of the table.
const BLOCK: usize = 64;

/// The ends of all runs of a set in a text: of its members, or of the other characters.
///
/// It takes four bytes for each block of 64 characters. To find an end takes a look at no more characters than a block has.
#[derive(Drop)]
pub struct RunEnds<'s> {
    /// The set.
    pub set: &'s Class,
    /// Whether the runs are of members.
    pub inside: bool,
    ends: Vec<u32>,
}

impl<'s> RunEnds<'s> {
    /// Goes once through the text, which has at most 16,777,216 characters. Refused only if out of memory.
    pub fn of(
        alloc: Global,
        text: &[u8],
        set: &'s Class,
        inside: bool,
    ) -> Result<RunEnds<'s>, AllocError>
        requires { length text.now ≤ MAX_BYTES }
        ensures right { IfOk result (IsOfText text.now) }
        ensures set { IfOk result (λ runs. runs.set.now ≡ set.now) }
        ensures inside { IfOk result (λ runs. runs.inside ≡ inside) }
    {
        let rows = Rows::of(set);
        let mut ends = vec![in alloc; 0; text.len() / BLOCK + 1]?;
        for block in (0..text.len() / BLOCK + 1).rev() {
            let end = match block_end(text, set, inside, rows, block * BLOCK) {
                Some(end) => end,
                None => ends[block + 1] as usize,
            };
            ends[block] = end as u32;
        }
        Ok(RunEnds { set, inside, ends })
    }

    /// Where the run from the cursor ends, in the text for which the ends were found.
    pub fn end(&self, text: &[u8], c: usize) -> usize
        requires right { IsOfText text.now self.now }
        requires within { c ≤ length text.now }
        ensures { result ≡ run_end self.now.inside self.now.set.now text.now c }
    {
        run_from(text, self.set, self.inside, self.ends.as_slice(), c)
    }
}

// Where the run from the cursor ends, by the ends of the runs from the blocks past it.
fn run_from(text: &[u8], set: &Class, inside: bool, ends: &[u32], c: usize) -> usize
    requires within { c ≤ length text.now }
    requires whole { length ends.now ≡ length text.now / 64 + 1 }
    requires right { AreRunEnds inside set.now text.now (c / 64 + 1) ends.now }
    ensures { result ≡ run_end inside set.now text.now c }
{
    let left = BLOCK - c % BLOCK;
    match near_run_end(text, set, inside, c, left) {
        Some(end) => end,
        None => ends[(c + left) / BLOCK] as usize,
    }
}

// Where the run from the first character of a block ends, if it ends within the block: by the rows of the set, if it has rows.
fn block_end(text: &[u8], set: &Class, inside: bool, rows: Option<Rows>, c: usize) -> Option<usize>
    requires within { c ≤ length text.now }
    requires rows { IfSome rows (AreRowsOf set.now) }
    ensures near { IfSome result (λ end. end ≡ run_end inside set.now text.now c) }
    ensures far { IfNone result ((c + 64 ≤ length text.now) × (run_end inside set.now text.now c ≡ run_end inside set.now text.now (c + 64))) }
{
    let Some(rows) = rows else {
        return near_run_end(text, set, inside, c, BLOCK);
    };
    let (_, rest) = text.split_at(c);
    let run = rows.run(front(rest, BLOCK), inside);
    if run < BLOCK { Some(c + run) } else { None }
}

/// Where the run from the cursor ends, if it has fewer characters than `most`; otherwise `None`. Such a run ends where the run
/// from that many characters on ends.
///
/// `c` is at most the text's length. The call takes no memory, and looks at no more than `most` characters.
#[inline(always)]
pub fn near_run_end(text: &[u8], set: &Class, inside: bool, c: usize, most: usize) -> Option<usize>
    requires { c ≤ length text.now }
    ensures near { IfSome result (λ end. end ≡ run_end inside set.now text.now c) }
    ensures far { IfNone result ((c + most ≤ length text.now) × (run_end inside set.now text.now c ≡ run_end inside set.now text.now (c + most))) }
{
    let (_, rest) = text.split_at(c);
    let run = run_of(front(rest, most), set, inside);
    if run < most { Some(c + run) } else { None }
}

/// Where the run from the cursor ends: a run inside the set, or one outside it.
///
/// `c` is at most the text's length. The call takes no memory.
pub fn whole_run_end(text: &[u8], set: &Class, inside: bool, c: usize) -> usize
    requires { c ≤ length text.now }
    ensures exact { result ≡ run_end inside set.now text.now c }
    ensures within { result ≤ length text.now }
{
    match near_run_end(text, set, inside, c, NEAR) {
        Some(end) => end,
        None => {
            let (_, rest) = text.split_at(c + NEAR);
            c + NEAR + long_run(rest, set, inside)
        }
    }
}

// How many characters the run has with which the text begins.
#[inline(always)]
fn run_of(rest: &[u8], set: &Class, inside: bool) -> usize
    ensures exact { result ≡ length (take_while (goes_through inside set.now) rest.now) }
    ensures few { result ≤ length rest.now }
{
    if inside {
        run_in(rest, set)
    } else {
        run_before(rest, set)
    }
}
