//! The three names of a store in its folder, with what was done to them.
ghost use Rattle.std.specs.Prelude.{◌≡◌, ◌<◌, ◌++◌, ◌∷◌, [], OnOk, OnErr, vec_len, vec_capacity};
ghost use Rattle.sno_replace.specs.declared.calls.Done.TheVariants.{RemovedOld, RemovedNew, Linked, Renamed, Waited};

use crate::calls::{Calls, Done};
use std::alloc::Global;
use std::io;

/// The names of a store in its folder. Each call of the system that succeeds is noted.
#[derive(Drop)]
pub struct Folder<C> {
    pub(crate) calls: C,
    pub(crate) done: Vec<Done>,
}

impl<C: Calls> Folder<C> {
    /// A folder to which nothing was done yet.
    pub fn new(alloc: Global, calls: C) -> Folder<C>
        ensures { result.done.items ≡ [] }
    {
        Folder {
            calls,
            done: Vec::new(alloc),
        }
    }

    /// Notes a call that succeeded.
    fn note(&mut self, done: Done)
        requires room { vec_len self.old.done < vec_capacity self.old.done }
        ensures noted { self.new.done.items ≡ self.old.done.items ++ done ∷ [] }
    {
        match self.done.push(done) {
            Ok(()) => {}
            Err(_) => unreachable!(),
        }
    }

    /// Removes the name of the old store. Refused with the error of the system, or if memory runs out; then nothing was done.
    pub(crate) fn remove_old(&mut self) -> io::Result<()>
        ensures done { OnOk result (self.new.done.items ≡ self.old.done.items ++ RemovedOld ∷ []) }
        ensures same { OnErr result (self.new.done.items ≡ self.old.done.items) }
    {
        self.done.reserve(1)?;
        self.calls.remove_old()?;
        self.note(Done::RemovedOld);
        Ok(())
    }

    /// Removes the name of the new store. Refused with the error of the system, or if memory runs out; then nothing was done.
    pub(crate) fn remove_new(&mut self) -> io::Result<()>
        ensures done { OnOk result (self.new.done.items ≡ self.old.done.items ++ RemovedNew ∷ []) }
        ensures same { OnErr result (self.new.done.items ≡ self.old.done.items) }
    {
        self.done.reserve(1)?;
        self.calls.remove_new()?;
        self.note(Done::RemovedNew);
        Ok(())
    }

    /// Gives the store's file the name of the old one too. Refused with the error of the system, or if memory runs out; then nothing was done.
    pub(crate) fn link_old(&mut self) -> io::Result<()>
        ensures done { OnOk result (self.new.done.items ≡ self.old.done.items ++ Linked ∷ []) }
        ensures same { OnErr result (self.new.done.items ≡ self.old.done.items) }
    {
        self.done.reserve(1)?;
        self.calls.link_old()?;
        self.note(Done::Linked);
        Ok(())
    }

    /// Gives the new store the name of the store. Refused with the error of the system, or if memory runs out; then nothing was done.
    pub(crate) fn rename_new(&mut self) -> io::Result<()>
        ensures done { OnOk result (self.new.done.items ≡ self.old.done.items ++ Renamed ∷ []) }
        ensures same { OnErr result (self.new.done.items ≡ self.old.done.items) }
    {
        self.done.reserve(1)?;
        self.calls.rename_new()?;
        self.note(Done::Renamed);
        Ok(())
    }

    /// Waits until the names are on the disk as they are. Refused with the error of the system, or if memory runs out; then nothing was done.
    pub(crate) fn wait(&mut self) -> io::Result<()>
        ensures done { OnOk result (self.new.done.items ≡ self.old.done.items ++ Waited ∷ []) }
        ensures same { OnErr result (self.new.done.items ≡ self.old.done.items) }
    {
        self.done.reserve(1)?;
        self.calls.wait()?;
        self.note(Done::Waited);
        Ok(())
    }
}
