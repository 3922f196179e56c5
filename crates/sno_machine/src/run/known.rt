//! What was learnt of a text.
ghost use Rattle.std.specs.Prelude.{◌≡◌, ◌≤◌, true, length, IfSome};
ghost use Rattle.sno_pattern.specs.declared.byte_texts.TheConstants.{MAX_BYTES};
ghost use Rattle.sno_primitives.specs.MateTables.{AreOfText};
ghost use Rattle.sno_primitives.specs.RunTables.{IsOfText};

use sno_pattern::Class;
use sno_primitives::{Mates, RunEnds};
use std::alloc::Global;
use std::marker::Model;

// The most sets whose runs are remembered.
const MOST_RUNS: usize = 2_048;

// The most memory that the runs of all sets may take, in bytes.
const MOST_MEMORY: usize = 67_108_864;

// How much of it the runs of one set take for each block of 64 characters.
const BLOCK_MEMORY: usize = 4;

// How many members of a set its number is made of.
const FIRST_MEMBERS: usize = 16;

// How many numbers tell where to look for the runs of a set.
const HINTS: usize = 1_024;

/// What was learnt of a text: where the runs of some sets end, and where `BAL` first ends.
#[derive(Drop)]
pub struct Known<'t, 'a> {
    text: &'t [u8],
    runs: Vec<RunEnds<'a>>,
    // By a number that is made of a set: where its runs may be. Sets with one number share a hint.
    hints: Vec<u32>,
    mates: Option<Mates>,
}

impl<'t, 'a> Model for Known<'t, 'a> {
    ghost use Rattle.std.specs.Prelude.{ℕ, ◌≤◌, List, length, All, IfSome};
    ghost use Rattle.sno_primitives.specs.RunTables.{IsOfText};
    ghost use Rattle.sno_primitives.specs.MateTables.{AreOfText};
    ghost use Rattle.sno_pattern.specs.declared.byte_texts.TheConstants.{MAX_BYTES};

    ghost Value = { List ℕ };

    ghost view = { λ s. s.text.now };

    ghost invariant = { λ s. (length s.text.now ≤ MAX_BYTES) × All (IsOfText s.text.now) s.runs.items × IfSome s.mates (AreOfText s.text.now) };
}

impl<'t, 'a> Known<'t, 'a> {
    /// Nothing is known yet of the text.
    pub fn nothing_of(alloc: Global, text: &'t [u8]) -> Known<'t, 'a>
        requires { length text.now ≤ MAX_BYTES }
        ensures { result ≡ text.now }
    {
        Known {
            text,
            runs: Vec::new(alloc),
            hints: Vec::new(alloc),
            mates: None,
        }
    }

    /// Learns where the runs of the set end. If there is no memory for it, or if the runs of other sets have taken as much as they
    /// may, nothing is learnt.
    pub fn learn_runs(&mut self, alloc: Global, set: &'a Class, inside: bool)
        ensures { self.new ≡ self.old }
    {
        if self.runs.len() >= most_runs(self.text.len()) {
            return;
        }
        if let Ok(runs) = RunEnds::of(alloc, self.text, set, inside) {
            self.keep(alloc, runs);
        }
    }

    /// Learns where `BAL` first ends. If there is no memory for it, nothing is learnt.
    pub fn learn_mates(&mut self, alloc: Global)
        ensures { self.new ≡ self.old }
    {
        if let Ok(mates) = Mates::of(alloc, self.text) {
            self.mates = Some(mates);
        }
    }

    // Keeps the runs, if they may be kept.
    fn keep(&mut self, alloc: Global, runs: RunEnds<'a>)
        requires { IsOfText self.old runs }
        ensures { self.new ≡ self.old }
    {
        if self.runs.len() >= MOST_RUNS {
            return;
        }
        let number = number_of(runs.set, runs.inside);
        point(alloc, &mut self.hints, number, self.runs.len() as u32);
        let _ = self.runs.push(runs);
    }

    /// Of how many sets runs are known.
    pub fn count(&self) -> usize {
        self.runs.len()
    }

    /// The runs of the set, if they are known: first where the hint says.
    pub fn runs(&self, set: &Class, inside: bool) -> Option<&RunEnds<'a>>
        ensures { IfSome result (λ runs. IsOfText self.now runs.now × (runs.now.set.now ≡ set.now) × (runs.now.inside ≡ inside)) }
    {
        if let Some(hint) = self.hints.get(number_of(set, inside)) {
            if let Some(runs) = self.runs.get(*hint as usize) {
                if are_runs_of(runs, set, inside) {
                    return Some(runs);
                }
            }
        }
        for runs in &self.runs {
            if are_runs_of(runs, set, inside) {
                return Some(runs);
            }
        }
        None
    }

    /// Where `BAL` first ends, if it is known.
    pub fn mates(&self) -> Option<&Mates>
        ensures { IfSome result (λ mates. AreOfText self.now mates.now) }
    {
        self.mates.as_ref()
    }
}

// Of how many sets the runs in a text of this many characters may be known.
fn most_runs(characters: usize) -> usize {
    let memory = (characters / 64 + 1) * BLOCK_MEMORY;
    (MOST_MEMORY / memory).min(MOST_RUNS)
}

// Whether the runs are those of the set.
fn are_runs_of(runs: &RunEnds, set: &Class, inside: bool) -> bool
    ensures { result ≡ true → (runs.now.set.now ≡ set.now) × (runs.now.inside ≡ inside) }
{
    runs.inside == inside && runs.set.members() == set.members()
}

// A number below `HINTS` that is made of the set.
fn number_of(set: &Class, inside: bool) -> usize {
    let members = set.members();
    let mut number = members.len().wrapping_mul(2).wrapping_add(inside as usize);
    for member in members.iter().take(FIRST_MEMBERS) {
        number = number.wrapping_mul(31).wrapping_add(*member as usize);
    }
    number % HINTS
}

// Makes the hint with this number name this place, if there is memory for the hints.
fn point(alloc: Global, hints: &mut Vec<u32>, number: usize, place: u32) {
    if hints.is_empty() {
        match vec![in alloc; 0; HINTS] {
            Ok(made) => *hints = made,
            Err(_) => return,
        }
    }
    if let Some(hint) = hints.get_mut(number) {
        *hint = place;
    }
}
