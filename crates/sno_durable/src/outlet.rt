//! The writer of the replies that wait for the disk.
ghost use Rattle.std.specs.Prelude.{IfErr};
ghost use Rattle.sno_durable.specs.Kept.{AreKept};
ghost use Rattle.sno_durable.specs.declared.faults.DurableFault.TheVariants.{Write as NotWritten};

use crate::DurableFault;
use sno_sealed::Sealed;
use sno_store::Lines;
use sqlite_disk::Disk;
use std::io::Write;

/// Where replies go. Nothing is written to it but by [`Outlet::show`].
#[derive(Drop)]
pub(crate) struct Outlet<W: Write> {
    writer: W,
}

impl<W: Write + Drop> Outlet<W> {
    ghost use Rattle.std.specs.Prelude.{◌≡◌};

    /// Replies go to this writer.
    pub(crate) fn new(writer: W) -> Outlet<W>
        ensures { result.writer ≡ writer }
    {
        Outlet { writer }
    }

    /// The writer.
    pub(crate) fn into_writer(self) -> W
        ensures { result ≡ self.writer }
    {
        let Outlet { writer } = self;
        writer
    }

    /// Writes replies that waited for these records, which have to be the last lines of the store, and on the disk.
    pub(crate) fn show<D: Disk>(
        &mut self,
        store: &Sealed<D>,
        records: &Lines,
        replies: &[u8],
    ) -> Result<(), DurableFault>
        requires kept { AreKept store.now records.now }
        ensures { IfErr result (λ e. e ≡ NotWritten) }
    {
        // for the contract
        let _store = store;
        let _records = records;
        if self.writer.write_all(replies).is_err() || self.writer.flush().is_err() {
            return Err(DurableFault::Write);
        }
        Ok(())
    }
}
