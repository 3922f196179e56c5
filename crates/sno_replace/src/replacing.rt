//! A new store takes the place of the old one, and what a crash has left of that is put right.
ghost use Rattle.std.specs.Prelude.{◌≡◌, ◌≤◌, ℕ, true, false, [], Option, Some, None, OnOk, OnErr, IfErr};
ghost use Rattle.sno_replace.specs.Folders.{Always, Leaves, Keeps, HasStore, IsQuiet, moved, names, prepared, replaced, seen};
ghost use Rattle.sno_replace.specs.Faults.{is_not_replaced};

use crate::ReplaceFault;
use crate::calls::Calls;
use crate::folder::Folder;
use std::io;

impl<C: Calls> Folder<C> {
    /// Gives the new store the place of the store, whose file keeps the name of the old one. If there is an old one already, `has_old`, it
    /// loses its name. What is on the disk of the new store's file has to be all of it.
    ///
    /// At each moment a crash leaves a whole store under the store's name: one of the two. After `Ok` it leaves the new one, with the other
    /// one under the name of the old one. The refusals:
    ///
    /// - `NotReplaced`: a call before the new store had its place failed, or that call. A crash leaves the store as it was, and its file may
    ///   have a second name: [`Folder::mend`] removes it;
    /// - `InDoubt`: the wait after it failed. A crash leaves one of the two.
    pub fn replace(&mut self, has_old: bool) -> Result<(), ReplaceFault>
        requires fresh { self.old.done.items ≡ [] }
        ensures whole { (entries : ℕ → ℕ) (a b : ℕ) (old : Option ℕ) → entries a ≤ entries b → Always (Keeps entries (entries a)) (names (Some a) (Some b) old) self.new.done.items }
        ensures replaced { OnOk result ((a b : ℕ) (old : Option ℕ) → Leaves (λ n. n ≡ names (Some b) None (Some a)) (names (Some a) (Some b) old) self.new.done.items) }
        ensures kept { IfErr result (λ fault. is_not_replaced fault ≡ true → (a b : ℕ) (old : Option ℕ) → Always (HasStore a) (names (Some a) (Some b) old) self.new.done.items) }
        ensures place { IfErr result (λ fault. is_not_replaced fault ≡ false → (a b : ℕ) (old : Option ℕ) → HasStore b (seen (names (Some a) (Some b) old) self.new.done.items)) }
    {
        let replaced = self.replace_with(has_old);
        replaced
    }

    /// The calls of a replacement, in their order.
    fn replace_with(&mut self, has_old: bool) -> Result<(), ReplaceFault>
        requires fresh { self.old.done.items ≡ [] }
        ensures replaced { OnOk result (self.new.done.items ≡ replaced has_old) }
        ensures quiet { IfErr result (λ fault. is_not_replaced fault ≡ true → IsQuiet self.new.done.items) }
        ensures moved { IfErr result (λ fault. is_not_replaced fault ≡ false → self.new.done.items ≡ moved has_old) }
    {
        if let Err(error) = self.prepare(has_old) {
            return Err(ReplaceFault::NotReplaced(error));
        }
        if let Err(refused) = self.rename_new() {
            let _left = self.remove_old();
            return Err(ReplaceFault::NotReplaced(refused));
        }
        match self.wait() {
            Ok(()) => Ok(()),
            Err(error) => Err(ReplaceFault::InDoubt(error)),
        }
    }

    /// What comes before the new store has its place. If a call fails, that of the link is undone.
    fn prepare(&mut self, has_old: bool) -> io::Result<()>
        requires fresh { self.old.done.items ≡ [] }
        ensures ready { OnOk result (self.new.done.items ≡ prepared has_old) }
        ensures quiet { OnErr result (IsQuiet self.new.done.items) }
    {
        if has_old {
            self.remove_old()?;
        }
        self.link_old()?;
        if let Err(error) = self.wait() {
            let _undone = self.remove_old();
            return Err(error);
        }
        Ok(())
    }

    /// Removes the second name of the store's file, which a crash has left while the store was replaced, and waits until that is on the disk.
    ///
    /// Refused with the error of the system; the store has its place at each moment.
    pub fn mend(&mut self) -> io::Result<()>
        requires fresh { self.old.done.items ≡ [] }
        ensures whole { (a : ℕ) (new : Option ℕ) → Always (HasStore a) (names (Some a) new (Some a)) self.new.done.items }
        ensures mended { OnOk result ((a : ℕ) (new : Option ℕ) → Leaves (λ n. n ≡ names (Some a) new None) (names (Some a) new (Some a)) self.new.done.items) }
    {
        match self.remove_old() {
            Ok(()) => self.wait(),
            Err(error) => Err(error),
        }
    }

    /// Removes the name of a new store that a crash has left and nobody needs, and waits until that is on the disk.
    ///
    /// Refused with the error of the system; the store has its place at each moment.
    pub fn discard(&mut self) -> io::Result<()>
        requires fresh { self.old.done.items ≡ [] }
        ensures whole { (a : ℕ) (new old : Option ℕ) → Always (HasStore a) (names (Some a) new old) self.new.done.items }
        ensures discarded { OnOk result ((a : ℕ) (new old : Option ℕ) → Leaves (λ n. n ≡ names (Some a) None old) (names (Some a) new old) self.new.done.items) }
    {
        self.remove_new()?;
        self.wait()
    }
}
