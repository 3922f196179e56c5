//! The text that a match goes through, beside what was learnt of it.
ghost use Rattle.std.specs.Prelude.{◌≡◌, ◌+◌, ◌<◌, ◌≤◌, ◌∷◌, [], true, drop, length, option_to_list, IfSome, MatchOption};
ghost use Rattle.sno_pattern.specs.Ends.{bal_ends, break_ends, span_ends};
ghost use Rattle.sno_pattern.specs.declared.byte_texts.TheConstants.{MAX_BYTES};
ghost use Rattle.sno_primitives.specs.Rows.{AreRowsOf};
ghost use Rattle.sno_primitives.specs.Runs.{run_end};

use crate::run::learnt::Learnt;
use crate::starts::head_tables::front;
use sno_pattern::Class;
use sno_primitives::{Rows, Walk, near_run_end, walk_balanced};
use std::marker::Model;

// How many characters a walk goes over before what it finds is worth remembering. A walk for `BAL` is slower than one along a
// run. `memchr` finds a near byte sooner in fewer than 64.
const NEAR: usize = 63;

const NEAR_BALANCE: usize = 32;

// As `NEAR`, if sixteen characters are looked up at once.
const NEAR_BY_ROWS: usize = 64;

/// The text that a match goes through, beside what was learnt of it. A step reads the text itself, which stays in registers,
/// and asks what was learnt only if it has gone far.
#[derive(Drop)]
pub struct Subject<'s, 't, 'a> {
    text: &'s [u8],
    learnt: &'s Learnt<'t, 'a>,
}

impl<'s, 't, 'a> Model for Subject<'s, 't, 'a> {
    ghost use Rattle.std.specs.Prelude.{ℕ, ◌≡◌, ◌≤◌, List, length};
    ghost use Rattle.sno_pattern.specs.declared.byte_texts.TheConstants.{MAX_BYTES};

    ghost Value = { List ℕ };

    ghost view = { λ s. s.text.now };

    ghost invariant = { λ s. (length s.text.now ≤ MAX_BYTES) × (s.learnt.now ≡ s.text.now) };
}

impl<'s, 't, 'a> Subject<'s, 't, 'a> {
    /// The text that this was learnt from.
    #[inline(always)]
    pub fn of(text: &'s [u8], learnt: &'s Learnt<'t, 'a>) -> Subject<'s, 't, 'a>
        requires short { length text.now ≤ MAX_BYTES }
        requires same { learnt.now ≡ text.now }
        ensures { result ≡ text.now }
    {
        Subject { text, learnt }
    }

    /// The same once more. A call that isn't inlined gets this one by reference, so that the first one stays in registers.
    #[inline(always)]
    pub fn again(&self) -> Subject<'s, 't, 'a>
        ensures value { result ≡ self.now }
        ensures short { length self.now ≤ MAX_BYTES }
    {
        Subject {
            text: self.text,
            learnt: self.learnt,
        }
    }

    /// The characters.
    #[inline(always)]
    pub fn bytes(&self) -> &[u8]
        ensures value { result.now ≡ self.now }
        ensures short { length self.now ≤ MAX_BYTES }
    {
        self.text
    }

    /// How many characters there are.
    #[inline(always)]
    pub fn len(&self) -> usize
        ensures value { result ≡ length self.now }
        ensures short { length self.now ≤ MAX_BYTES }
    {
        self.text.len()
    }

    /// The characters from the cursor on.
    #[inline(always)]
    pub fn after(&self, c: usize) -> &[u8]
        requires { c ≤ length self.now }
        ensures value { result.now ≡ drop c self.now }
        ensures short { length self.now ≤ MAX_BYTES }
    {
        let (_, rest) = self.text.split_at(c);
        rest
    }

    /// Where `SPAN(set)` ends from the cursor; `None` if it fails there.
    #[inline(always)]
    pub fn span_end(&self, set: &'a Class, c: usize) -> Option<usize>
        requires { c ≤ length self.now }
        ensures exact { option_to_list result ≡ span_ends self.now set.now c }
        ensures past { IfSome result (λ e. (c ≤ e) × (e ≤ length self.now)) }
        ensures short { length self.now ≤ MAX_BYTES }
    {
        let end = self.run_end(set, true, c);
        if end != c { Some(end) } else { None }
    }

    /// As `span_end`, by the rows of the set: sixteen characters are looked up at once.
    #[inline(always)]
    pub fn span_end_by(&self, set: &'a Class, rows: Rows, c: usize) -> Option<usize>
        requires within { c ≤ length self.now }
        requires rows { AreRowsOf set.now rows }
        ensures exact { option_to_list result ≡ span_ends self.now set.now c }
        ensures past { IfSome result (λ e. (c ≤ e) × (e ≤ length self.now)) }
        ensures short { length self.now ≤ MAX_BYTES }
    {
        let end = self.run_end_by(set, rows, c);
        if end != c { Some(end) } else { None }
    }

    // Where the run inside the set ends from the cursor, by the rows of the set.
    #[inline(always)]
    fn run_end_by(&self, set: &'a Class, rows: Rows, c: usize) -> usize
        requires within { c ≤ length self.now }
        requires rows { AreRowsOf set.now rows }
        ensures exact { result ≡ run_end true set.now self.now c }
        ensures within { (c ≤ result) × (result ≤ length self.now) }
        ensures short { length self.now ≤ MAX_BYTES }
    {
        let run = rows.run(front(self.after(c), NEAR_BY_ROWS), true);
        if run < NEAR_BY_ROWS {
            c + run
        } else {
            self.learnt.far_run_end(set, true, c + NEAR_BY_ROWS)
        }
    }

    /// Where `BREAK(set)` ends from the cursor; `None` if it fails there.
    #[inline(always)]
    pub fn break_end(&self, set: &'a Class, c: usize) -> Option<usize>
        requires { c ≤ length self.now }
        ensures exact { option_to_list result ≡ break_ends self.now set.now c }
        ensures past { IfSome result (λ e. (c ≤ e) × (e ≤ length self.now)) }
        ensures short { length self.now ≤ MAX_BYTES }
    {
        let end = self.run_end(set, false, c);
        if end < self.text.len() {
            Some(end)
        } else {
            None
        }
    }

    // Where the run from the cursor ends: a run inside the set, or one outside it.
    #[inline(always)]
    fn run_end(&self, set: &'a Class, inside: bool, c: usize) -> usize
        requires { c ≤ length self.now }
        ensures exact { result ≡ run_end inside set.now self.now c }
        ensures within { (c ≤ result) × (result ≤ length self.now) }
        ensures short { length self.now ≤ MAX_BYTES }
    {
        match near_run_end(self.text, set, inside, c, NEAR) {
            Some(end) => end,
            None => self.learnt.far_run_end(set, inside, c + NEAR),
        }
    }

    /// The first end of `BAL` from the cursor, as `first_balanced` of `sno_primitives`.
    #[inline(always)]
    pub fn first_balanced(&self, c: usize) -> Option<usize>
        requires { c ≤ length self.now }
        ensures exact { MatchOption result (bal_ends self.now c ≡ []) (λ e. bal_ends self.now c ≡ e ∷ bal_ends self.now e) }
        ensures past { IfSome result (λ e. (c < e) × (e ≤ length self.now)) }
        ensures short { length self.now ≤ MAX_BYTES }
    {
        match walk_balanced(self.text, c, NEAR_BALANCE) {
            Walk::Ended(end) => Some(end),
            Walk::Never => None,
            Walk::Further => self.learnt.far_balanced(c),
        }
    }
}
