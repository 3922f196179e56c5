//! What a match has learnt of its text.
ghost use Rattle.std.specs.Prelude.{◌≡◌, ◌+◌, ◌<◌, ◌≤◌, ◌∷◌, [], length, IfSome, MatchOption};
ghost use Rattle.sno_pattern.specs.Ends.{bal_ends};
ghost use Rattle.sno_pattern.specs.declared.byte_texts.TheConstants.{MAX_BYTES};
ghost use Rattle.sno_primitives.specs.MateTables.{AreOfText};
ghost use Rattle.sno_primitives.specs.RunTables.{IsOfText};
ghost use Rattle.sno_primitives.specs.Runs.{run_end};

use crate::run::known::Known;
use sno_pattern::Class;
use sno_primitives::{Mates, RunEnds, first_balanced, whole_run_end};
use std::alloc::Global;
use std::cell::Cell;
use std::marker::Model;

// What is to be learnt of the text.
#[derive(Clone, Copy)]
enum Wanted<'a> {
    Nothing,
    // The ends of the runs inside the set, or outside it.
    Runs(&'a Class, bool),
    // The first ends of `BAL`.
    Mates,
}

/// What a match has learnt of its text on the way, so that no walk over many characters is done again and again. The match has
/// it in one place, and passes the text on beside it (`Subject`).
#[derive(Drop)]
pub struct Learnt<'t, 'a> {
    text: &'t [u8],
    // Most matches learn nothing, so it is on the heap: a match pays for the size of what it begins with.
    known: Option<Box<Known<'t, 'a>>>,
    // Whether there is something to be learnt.
    due: Cell<bool>,
    // What is to be learnt.
    wanted: Cell<Wanted<'a>>,
    // How many characters were gone over by walks that may be done again.
    walked: Cell<usize>,
}

impl<'t, 'a> Model for Learnt<'t, 'a> {
    ghost use Rattle.std.specs.Prelude.{ℕ, ◌≡◌, ◌≤◌, List, length, IfSome};
    ghost use Rattle.sno_pattern.specs.declared.byte_texts.TheConstants.{MAX_BYTES};

    ghost Value = { List ℕ };

    ghost view = { λ s. s.text.now };

    ghost invariant = { λ s. (length s.text.now ≤ MAX_BYTES) × IfSome s.known (λ k. k.value ≡ s.text.now) };
}

impl<'t, 'a> Learnt<'t, 'a> {
    /// Nothing was learnt yet of the text.
    #[inline(always)]
    pub fn nothing_of(text: &'t [u8]) -> Learnt<'t, 'a>
        requires { length text.now ≤ MAX_BYTES }
        ensures { result ≡ text.now }
    {
        Learnt {
            text,
            known: None,
            due: Cell::new(false),
            wanted: Cell::new(Wanted::Nothing),
            walked: Cell::new(0),
        }
    }

    /// If walks since the last call went over many characters, learns the table that makes such walks short. If there is no
    /// memory for it, nothing is learnt.
    #[inline(always)]
    pub fn catch_up(&mut self, alloc: Global)
        ensures { self.new ≡ self.old }
    {
        if self.due.get() {
            self.learn(alloc);
        }
    }

    #[cold]
    #[inline(never)]
    fn learn(&mut self, alloc: Global)
        ensures { self.new ≡ self.old }
    {
        self.due.set(false);
        let mut known = match self.known.take() {
            Some(known) => known,
            None => match Box::new(alloc, Known::nothing_of(alloc, self.text)) {
                Ok(known) => known,
                Err(_) => return,
            },
        };
        match self.wanted.replace(Wanted::Nothing) {
            Wanted::Nothing => {}
            Wanted::Runs(set, inside) => known.learn_runs(alloc, set, inside),
            Wanted::Mates => known.learn_mates(alloc),
        }
        self.known = Some(known);
    }

    /// Where the run from the cursor ends, if it has gone far: by what was learnt, and otherwise by a walk.
    #[cold]
    #[inline(never)]
    pub fn far_run_end(&self, set: &'a Class, inside: bool, c: usize) -> usize
        requires { c ≤ length self.now }
        ensures exact { result ≡ run_end inside set.now self.now c }
    {
        match self.known_runs(set, inside) {
            Some(runs) => runs.end(self.text, c),
            None => {
                let end = whole_run_end(self.text, set, inside, c);
                let characters = (end - c).saturating_add(self.count());
                self.note(Wanted::Runs(set, inside), characters);
                end
            }
        }
    }

    // What was learnt of the runs of the set.
    fn known_runs(&self, set: &Class, inside: bool) -> Option<&RunEnds<'a>>
        ensures { IfSome result (λ runs. IsOfText self.now runs.now × (runs.now.set.now ≡ set.now) × (runs.now.inside ≡ inside)) }
    {
        match &self.known {
            None => None,
            Some(known) => known.runs(set, inside),
        }
    }

    // What was learnt of where `BAL` first ends.
    fn known_mates(&self) -> Option<&Mates>
        ensures { IfSome result (λ mates. AreOfText self.now mates.now) }
    {
        match &self.known {
            None => None,
            Some(known) => known.mates(),
        }
    }

    // Of how many sets runs were learnt.
    fn count(&self) -> usize {
        match &self.known {
            None => 0,
            Some(known) => known.count(),
        }
    }

    /// The first end of `BAL` from the cursor, if it is far: by what was learnt, and otherwise by a walk.
    #[cold]
    #[inline(never)]
    pub fn far_balanced(&self, c: usize) -> Option<usize>
        requires { c ≤ length self.now }
        ensures exact { MatchOption result (bal_ends self.now c ≡ []) (λ e. bal_ends self.now c ≡ e ∷ bal_ends self.now e) }
        ensures past { IfSome result (λ e. (c < e) × (e ≤ length self.now)) }
    {
        match self.known_mates() {
            Some(mates) => mates.first_end(self.text, c),
            None => {
                let found = first_balanced(self.text, c);
                let end = found.unwrap_or(self.text.len());
                self.note(Wanted::Mates, end - c);
                found
            }
        }
    }

    // Counts a walk over many characters. Once such walks have gone over more characters than the text has, what this one was
    // for is to be learnt.
    fn note(&self, wanted: Wanted<'a>, characters: usize) {
        let walked = self.walked.get().saturating_add(characters);
        if walked > self.text.len() {
            self.walked.set(0);
            self.wanted.set(wanted);
            self.due.set(true);
        } else {
            self.walked.set(walked);
        }
    }
}
