//! What a match has done so far.
ghost use Rattle.std.specs.Prelude.{◌≡◌, ◌+◌, ◌-◌, ◌<◌, ◌≤◌, true, false, [], OnOk, IfOk, vec_len, vec_capacity};
ghost use Rattle.sno_machine.specs.Progress.{assign, spend};

use sno_pattern::{Assign, Name, What};
use std::alloc::{AllocError, Global};
use std::marker::Model;

/// From this many assignments on, room for more is made more sparingly.
const MANY: usize = 4_096;

/// An immediate assignment whose name is still in the pattern. A name has room for 64 characters, so it is copied only into the result.
#[derive(Clone, Copy)]
pub struct Noted<'a> {
    pub name: &'a Name,
    pub what: What,
}

/// What a match has done so far: its immediate assignments, which stay when it backs up, and its trials, as how many are still
/// left. A trial looks only at how many are left.
#[derive(Drop)]
pub struct Progress<'a> {
    sets: Vec<Noted<'a>>,
    left: u32,
    limit: u32,
}

impl<'a> Model for Progress<'a> {
    ghost use Rattle.std.specs.Prelude.{◌-◌, ◌≤◌, map};
    ghost use Rattle.sno_machine.specs.Progress.{Reached};
    ghost use Rattle.sno_machine.specs.Noted.{noted_assign};

    ghost Value = { Reached };

    ghost view = { λ s. record { sets = map noted_assign s.sets.items; trials = s.limit - s.left; limit = s.limit } };

    ghost invariant = { λ s. s.left ≤ s.limit };
}

impl<'a> Progress<'a> {
    /// Nothing was done yet, and `limit` trials may be spent.
    pub fn new(alloc: Global, limit: u32) -> Progress<'a>
        ensures { result ≡ record { sets = []; trials = 0; limit = limit } }
    {
        Progress {
            sets: Vec::new(alloc),
            left: limit,
            limit,
        }
    }

    /// Does an immediate assignment.
    #[inline(always)]
    pub fn assign(&mut self, name: &'a Name, what: What) -> Result<(), AllocError>
        ensures { OnOk result (self.new ≡ assign (record { name = name.now; what = what }) self.old) }
    {
        if self.sets.len() == self.sets.capacity() {
            make_room(&mut self.sets)?;
        }
        self.sets.push_reserved(Noted { name, what });
        Ok(())
    }

    /// Spends `count` trials if that many may still be spent; otherwise none. Returns whether it did.
    #[inline(always)]
    pub fn try_spend(&mut self, count: usize) -> bool
        ensures spent { result ≡ true → self.new ≡ spend count self.old }
        ensures refused { result ≡ false → self.old.limit < self.old.trials + count }
        ensures within { self.new.trials ≤ self.new.limit }
    {
        if (self.left as usize) < count {
            return false;
        }
        self.left -= count as u32;
        true
    }

    /// How many trials were spent.
    pub fn trials(&self) -> u32
        ensures { result ≡ self.now.trials }
    {
        self.limit - self.left
    }

    /// The immediate assignments, in their order. Refused only where memory is.
    pub fn sets(&self, alloc: Global) -> Result<Vec<Assign>, AllocError>
        ensures sets { IfOk result (λ sets. sets.items ≡ self.now.sets) }
        ensures within { self.now.trials ≤ self.now.limit }
    {
        if self.sets.is_empty() {
            return Ok(Vec::new(alloc));
        }
        let mut sets = Vec::with_capacity(alloc, self.sets.len())?;
        for noted in &self.sets {
            sets.push_reserved(Assign {
                name: *noted.name,
                what: noted.what,
            });
        }
        Ok(sets)
    }
}

/// Makes room for 8 assignments at first; then for eight times as many as were done, and past `MANY` for twice as many.
#[cold]
#[inline(never)]
fn make_room(sets: &mut Vec<Noted>) -> Result<(), AllocError>
    ensures same { sets.new.items ≡ sets.old.items }
    ensures room { OnOk result (vec_len sets.new < vec_capacity sets.new) }
{
    let done = sets.len();
    let more = if done < MANY { done * 7 } else { done };
    sets.reserve(more.max(8))?;
    Ok(())
}
