//! Sets of characters as rows, by which sixteen characters are looked up at once.
ghost use Rattle.std.specs.Prelude.{◌≡◌, ◌||◌, ◌&&◌, nat_lt, ◌/◌, ◌%◌, ◌<◌, ℕ, false, not, map, length, nat_eq, slice_index, MatchOption};
ghost use Rattle.std.specs.Char.{is_ascii};
ghost use Rattle.std.specs.List.{list_all, take_while};
ghost use Rattle.std.specs.Simd.Lanes.{mask_l};
ghost use Rattle.sno_primitives.specs.Rows.{rows_have, goes_by_rows, AreRowsOf};

use sno_pattern::Class;
use std::simd::prelude::*;

// How many characters are looked up at once.
const LANES: usize = 16;

// Bit k at place k. The places past 7 are those of characters above 127, which no rows have.
const BITS: [u8; 16] = [1, 2, 4, 8, 16, 32, 64, 128, 0, 0, 0, 0, 0, 0, 0, 0];

/// A set of ASCII characters: the character x is bit x / 16 of row x % 16.
#[derive(Clone, Copy)]
pub struct Rows {
    rows: [u8; 16],
}

impl Rows {
    /// The set with no character.
    pub fn none() -> Rows
        ensures { (x : ℕ) → rows_have result x ≡ false }
    {
        Rows { rows: [0; 16] }
    }

    /// Puts an ASCII character in.
    pub fn add(&mut self, character: u8)
        requires { character < 128 }
        ensures { (x : ℕ) → rows_have self.new x ≡ rows_have self.old x || nat_eq character x }
    {
        let place = character / 16;
        self.rows[(character % 16) as usize] |= 1 << place;
    }

    /// The rows of a set; `None` if it has a member above 127. The call takes no memory.
    pub fn of(set: &Class) -> Option<Rows>
        ensures { MatchOption result (list_all is_ascii set.now ≡ false) (AreRowsOf set.now) }
    {
        let mut rows = Rows::none();
        for member in set.members() {
            if !member.is_ascii() {
                return None;
            }
            rows.add(*member);
        }
        Some(rows)
    }

    /// The ASCII characters that are not in the set.
    pub fn others(&self) -> Rows
        ensures { (x : ℕ) → rows_have result x ≡ nat_lt x 128 && not (rows_have self.now x) }
    {
        turned(u8x16::from_array(self.rows))
    }

    /// How many characters in a row the rows have, or don't have if the run is outside.
    ///
    /// Sixteen are looked up at once. The call takes no memory.
    pub fn run(&self, text: &[u8], inside: bool) -> usize
        ensures { result ≡ length (take_while (goes_by_rows inside self.now) text.now) }
    {
        if inside {
            self.long_run(text, true)
        } else {
            self.long_run(text, false)
        }
    }

    // As `run`. Its two calls become two loops, which don't ask at each look whether the run is inside.
    #[inline(always)]
    fn long_run(&self, text: &[u8], inside: bool) -> usize
        ensures { result ≡ length (take_while (goes_by_rows inside self.now) text.now) }
    {
        let mut passed = 0;
        while text.len() - passed >= LANES {
            let stops = self.stops(u8x16::from_slice(&text[passed..]), inside);
            if stops != 0 {
                return passed + stops.trailing_zeros() as usize;
            }
            passed += LANES;
        }
        let (_, rest) = text.split_at(passed);
        passed + self.short_run(rest, inside)
    }

    // Which of sixteen characters stop a run: bit k for the character k.
    #[inline(always)]
    fn stops(&self, characters: u8x16, inside: bool) -> u64
        ensures { result ≡ mask_l (map (λ x. not (goes_by_rows inside self.now x)) characters) }
    {
        let met = self.row_of(characters) & bit_of(characters);
        if inside {
            met.simd_eq(u8x16::splat(0)).to_bitmask()
        } else {
            met.simd_ne(u8x16::splat(0)).to_bitmask()
        }
    }

    // The row of each character.
    #[inline(always)]
    fn row_of(&self, characters: u8x16) -> u8x16
        ensures { result ≡ map (λ x. slice_index self.now.rows (x % 16)) characters }
    {
        u8x16::from_array(self.rows).swizzle_dyn(characters & u8x16::splat(15))
    }

    // The run by one look at each character.
    fn short_run(&self, text: &[u8], inside: bool) -> usize
        ensures { result ≡ length (take_while (goes_by_rows inside self.now) text.now) }
    {
        text.iter().take_while(|x| self.has(**x) == inside).count()
    }

    // Whether the rows have the character.
    #[inline(always)]
    fn has(&self, character: u8) -> bool
        ensures { result ≡ rows_have self.now character }
    {
        let row = self.rows[(character % 16) as usize];
        let place = character / 16;
        place < 8 && (row >> place) & 1 == 1
    }
}

// The bit of each character in its row.
#[inline(always)]
fn bit_of(characters: u8x16) -> u8x16
    ensures { result ≡ map (λ x. slice_index BITS (x / 16)) characters }
{
    u8x16::from_array(BITS).swizzle_dyn(characters >> u8x16::splat(4))
}

// The rows with each bit turned.
#[inline(always)]
fn turned(rows: u8x16) -> Rows
    ensures { (x : ℕ) → rows_have result x ≡ nat_lt x 128 && not (rows_have (record { rows = rows }) x) }
{
    Rows {
        rows: (!rows).to_array(),
    }
}
