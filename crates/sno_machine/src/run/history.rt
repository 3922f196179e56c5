//! How entries are added to the history of a match, and taken up.
ghost use Rattle.std.specs.Prelude.{◌≡◌, ◌<◌, ◌≤◌, ◌+◌, ◌-◌, ◌^◌, ◌++◌, ◌∷◌, [], length, vec_len, OnOk, IfErr, IfNone, IfOk, MatchOption};
ghost use Rattle.sno_machine.specs.History.{entries_of, Setting, Begins, IsEmpty, IsHistory, TakenUp, left};
ghost use Rattle.sno_machine.specs.declared.faults.MatchFault.TheVariants.{Memory};

use crate::faults::MatchFault;
use crate::run::entries::{Entry, History, Place};
use std::alloc::Global;

/// From this many entries on, room for more is made more sparingly.
const MANY: u32 = 4_096;

impl<'a> History<'a> {
    /// A history that may have this many entries.
    pub fn of(alloc: Global, most: u32) -> History<'a>
        ensures { (entries_of result) ≡ [] }
    {
        History {
            entries: Vec::new(alloc),
            room: 0,
            most,
            is_full: false,
            gathered: Vec::new(alloc),
        }
    }

    /// Adds an entry, and returns how many there are then. More than there may be are refused as out of memory.
    #[inline(always)]
    pub fn push(&mut self, entry: Entry<'a>) -> Result<u32, MatchFault>
        ensures entries { OnOk result ((entries_of self.new) ≡ (entries_of self.old) ++ entry.entry ∷ []) }
        ensures number { IfOk result (λ n. n ≡ length (entries_of self.old) + 1) }
        ensures refused { IfErr result (λ e. e ≡ Memory) }
    {
        self.make_room()?;
        self.entries.push_reserved(entry);
        Ok(self.entries.len() as u32)
    }

    /// Makes room for an entry, if there is no room.
    #[inline(always)]
    fn make_room(&mut self) -> Result<(), MatchFault>
        ensures entries { (entries_of self.new) ≡ (entries_of self.old) }
        ensures longer { OnOk result (vec_len self.new.entries < self.new.room) }
        ensures refused { IfErr result (λ e. e ≡ Memory) }
    {
        if self.entries.len() == self.room as usize {
            self.grow()?;
        }
        Ok(())
    }

    /// Makes room for 16 entries at first, since most matches need few; then for eight times as many, and past `MANY` for twice as many.
    #[cold]
    #[inline(never)]
    fn grow(&mut self) -> Result<(), MatchFault>
        ensures entries { (entries_of self.new) ≡ (entries_of self.old) }
        ensures longer { OnOk result (vec_len self.new.entries < self.new.room) }
        ensures refused { IfErr result (λ e. e ≡ Memory) }
    {
        let more = if self.room < MANY {
            self.room.saturating_mul(8)
        } else {
            self.room.saturating_mul(2)
        };
        let room = more.max(16).min(self.most);
        if self.entries.len() == room as usize {
            self.is_full = true;
            return Err(MatchFault::Memory);
        }
        self.entries.reserve(room as usize - self.entries.len())?;
        self.room = room;
        Ok(())
    }

    /// Drops all entries.
    pub fn clear(&mut self)
        ensures { (entries_of self.new) ≡ [] }
    {
        self.entries.clear();
    }

    /// The entry that the list with this number begins with; `None` if the list is empty.
    #[inline(always)]
    pub fn entry(&self, number: u32) -> Option<Entry<'a>>
        ensures { (s : Setting) → IsHistory s (entries_of self.now) → MatchOption result (IsEmpty s (entries_of self.now) number) (Begins s (entries_of self.now) number) }
    {
        if number == 0 {
            return None;
        }
        let entries = self.entries.as_slice();
        if entries.len() < number as usize {
            return None;
        }
        Some(entries[(number - 1) as usize])
    }

    /// Takes up the newest choice; `None` if there is no choice. The entries that were added since are dropped.
    #[inline(always)]
    pub fn back_up(&mut self) -> Option<Place>
        ensures taken_up { (s : Setting) → IsHistory s (entries_of self.old) → MatchOption result (left s (entries_of self.old) ≡ []) (TakenUp s (entries_of self.old) (entries_of self.new)) }
        ensures empty { IfNone result ((entries_of self.new) ≡ []) }
    {
        if self.entries.is_empty() {
            return None;
        }
        while let Some(entry) = self.entries.pop() {
            if let Entry::Choice(place) = entry {
                return Some(place);
            }
        }
        None
    }
}
