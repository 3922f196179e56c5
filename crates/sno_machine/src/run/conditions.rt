//! The conditional assignments of a success.
ghost use Rattle.std.specs.Prelude.{◌≡◌, ◌≤◌, length, true, OnOk, IfErr, IfOk};
ghost use Rattle.sno_machine.specs.History.{entries_of, Setting, IsHistory, IsTurned, conds_at};
ghost use Rattle.sno_machine.specs.declared.faults.MatchFault.TheVariants.{Memory};

use crate::faults::MatchFault;
use crate::run::entries::{Entry, History};
use sno_pattern::Name;
use std::alloc::AllocError;

// Up to this many entries, a history is gone through from its oldest one on, which costs less than to turn a list round.
const FEW: usize = 16;

impl<'a> History<'a> {
    /// Puts the assignments of the list with this number into `gathered`, in the order in which their parts ended.
    pub fn gather(&mut self, number: u32) -> Result<(), MatchFault>
        requires { (s : Setting) × IsHistory s (entries_of self.old) }
        ensures gathered { OnOk result (self.new.gathered.items ≡ conds_at (entries_of self.old) number) }
        ensures refused { IfErr result (λ e. e ≡ Memory) }
    {
        if self.entries.len() <= FEW {
            let all = put_in_order(&self.entries, number, &mut self.gathered)?;
            if all {
                return Ok(());
            }
        }
        self.gather_in_turn(number)
    }

    // As `gather`, for a history of any length.
    #[cold]
    #[inline(never)]
    fn gather_in_turn(&mut self, number: u32) -> Result<(), MatchFault>
        requires { (s : Setting) × IsHistory s (entries_of self.old) }
        ensures gathered { OnOk result (self.new.gathered.items ≡ conds_at (entries_of self.old) number) }
        ensures refused { IfErr result (λ e. e ≡ Memory) }
    {
        let before = self.entries.len();
        self.turn(number)?;
        self.gathered.clear();
        self.gathered.reserve(self.entries.len() - before)?;
        while self.entries.len() > before {
            if let Some(entry) = self.entries.pop() {
                if let Entry::Pending {
                    start,
                    name,
                    end,
                    ..
                } = entry
                {
                    self.gathered
                        .push_reserved((*name, start as usize, end as usize));
                }
            }
        }
        Ok(())
    }

    // Adds the entries of the list with this number once more. The list names its newest one first, so its oldest one is then
    // the newest of all. Entries are short; what is made of them isn't, and would have to be turned round otherwise.
    fn turn(&mut self, number: u32) -> Result<(), MatchFault>
        requires { (s : Setting) × IsHistory s (entries_of self.old) }
        ensures turned { OnOk result (IsTurned (entries_of self.old) (entries_of self.new) number) }
        ensures refused { IfErr result (λ e. e ≡ Memory) }
    {
        let mut list = number;
        while let Some(
            Entry::Pending {
                start,
                name,
                end,
                below,
            },
        ) = self.entry(list)
        {
            self.push(Entry::Pending {
                start,
                name,
                end,
                below,
            })?;
            list = below;
        }
        Ok(())
    }
}

// Puts the assignments of the entries into `gathered`, those of the oldest one first. Returns whether they are those of the list
// with this number. They are in most histories, since what a match backs up from is dropped.
#[inline(always)]
fn put_in_order(
    entries: &[Entry],
    number: u32,
    gathered: &mut Vec<(Name, usize, usize)>,
) -> Result<bool, AllocError>
    requires held { (s : Setting) × IsHistory s entries.now }
    requires few { length entries.now ≤ FEW }
    ensures { IfOk result (λ all. all ≡ true → gathered.new.items ≡ conds_at entries.now number) }
{
    gathered.clear();
    gathered.reserve(entries.len())?;
    let mut list = 0;
    for place in 0..entries.len() {
        if let Entry::Pending {
            start,
            name,
            end,
            below,
        } = entries[place]
        {
            if below != list {
                return Ok(false);
            }
            gathered.push_reserved((*name, start as usize, end as usize));
            list = place as u32 + 1;
        }
    }
    Ok(list == number)
}
