//! The store, and the writer of what waits for it.
ghost use Rattle.std.specs.Prelude.{◌≡◌, false, IfErr, OnOk, IsTrue, length};
ghost use Rattle.sno_store.specs.Shown.{lines_in};
ghost use Rattle.sno_sealed.specs.Sealed.{is_clean};
ghost use Rattle.sno_durable.specs.Kept.{HasGained};
ghost use Rattle.sno_durable.specs.Faults.{is_of_record};
ghost use Rattle.sno_durable.specs.Stored.{HasPut};

use crate::DurableFault;
use crate::outlet::Outlet;
use sno_sealed::Sealed;
use sno_store::Lines;
use sqlite_disk::Disk;
use std::io::Write;

/// The store, and the writer of the replies that wait for it.
#[derive(Drop)]
pub(crate) struct Shelf<D: Disk, W: Write> {
    pub(crate) store: Sealed<D>,
    pub(crate) outlet: Outlet<W>,
}

impl<D: Disk + Drop, W: Write + Drop> Shelf<D, W> {
    /// Puts records into the store, and when they are on the disk, writes the replies that waited for them. If there is nothing, nothing is
    /// written: so a store that is only looked at stays as it is.
    pub(crate) fn put(&mut self, records: &Lines, replies: &[u8]) -> Result<(), DurableFault>
        ensures gained { OnOk result (HasGained self.old.store self.new.store (length (lines_in records.now))) }
        ensures put { OnOk result (HasPut self.old.store self.new.store (lines_in records.now)) }
        ensures fault { IfErr result (λ e. is_of_record e ≡ false) }
        ensures clean { OnOk result (IsTrue (is_clean self.new.store) → IsTrue (is_clean self.old.store)) }
    {
        if records.is_empty() && replies.is_empty() {
            return Ok(());
        }
        self.store.put(records)?;
        self.outlet.show(&self.store, records, replies)
    }
}
