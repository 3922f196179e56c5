//! Calls of a disk in pairs: a whole file is read; bytes are written and waited for.
ghost use Rattle.std.specs.Prelude.{◌≡◌, ◌+◌, ◌<◌, ◌≤◌, ◌^◌, List, ℕ, length, drop, IsTrue, OnOk, IfOk, IfErr};
ghost use Rattle.sqlite_disk.specs.Disk.{Holds, Torn, Mixed, Follows, Only};
ghost use Rattle.sno_store.specs.Faults.{IsWriteFault, IsSteady, IsReadFault, IsPartFault};

use crate::StoreFault;
use crate::faults::{sync_fault, write_fault};
use sqlite_disk::Disk;
use std::alloc::Global;

/// A file has fewer bytes, so that no place in it needs more than 62 bits.
pub(crate) const MAX_BYTES: usize = 1 << 62;

/// Writes bytes at a place, and waits until they are on the disk.
pub(crate) fn write_through<D: Disk>(
    disk: &mut D,
    at: usize,
    bytes: &[u8],
) -> Result<(), StoreFault>
    requires usable { IsTrue (D.is_usable disk.old) }
    requires some { 0 < length bytes.now }
    requires fits { at + length bytes.now < 2 ^ 64 }
    ensures written { OnOk result (Holds (D.seen disk.new) at bytes.now) }
    ensures others { OnOk result (Torn at (length bytes.now) (D.seen disk.old) (D.seen disk.new)) }
    ensures durable { OnOk result (Only (D.seen disk.new) (D.may_leave disk.new)) }
    ensures usable { OnOk result (IsTrue (D.is_usable disk.new)) }
    ensures crash { Follows (Mixed at bytes.now) (D.may_leave disk.old) (D.may_leave disk.new) }
    ensures clean { IsTrue (D.is_clean disk.new) → IsTrue (D.is_clean disk.old) }
    ensures steady { OnOk result (IsSteady D.Disk disk.old disk.new) }
    ensures cause { IfErr result (λ fault. IsWriteFault D.Disk disk.old disk.new fault) }
{
    if !disk.mixes() {
        return Err(StoreFault::Unsupported);
    }
    disk.write_at(at, bytes).map_err(write_fault)?;
    disk.sync().map_err(sync_fault)?;
    Ok(())
}

/// All that the disk holds. It is on the disk then, and nothing is changed.
pub(crate) fn read_all<D: Disk>(alloc: Global, disk: &mut D) -> Result<Vec<u8>, StoreFault>
    requires { IsTrue (D.is_usable disk.old) }
    ensures bytes { IfOk result (λ bytes. IsTrue (D.is_clean disk.new) → bytes.items ≡ D.seen disk.old) }
    ensures limit { IfOk result (λ bytes. length bytes.items < 2 ^ 62) }
    ensures durable { OnOk result (Only (D.seen disk.new) (D.may_leave disk.new)) }
    ensures usable { OnOk result (IsTrue (D.is_usable disk.new)) }
    ensures seen { D.seen disk.new ≡ D.seen disk.old }
    ensures crash { (c : List ℕ) → D.may_leave disk.new c → D.may_leave disk.old c }
    ensures clean { IsTrue (D.is_clean disk.new) → IsTrue (D.is_clean disk.old) }
    ensures steady { OnOk result (IsSteady D.Disk disk.old disk.new) }
    ensures cause { IfErr result (λ fault. IsReadFault D.Disk disk.old disk.new fault) }
{
    if let Err(error) = disk.sync() {
        return Err(sync_fault(error));
    }
    let len = match disk.len() {
        Ok(len) if len < MAX_BYTES => len,
        Ok(_) => return Err(StoreFault::TooLong),
        Err(error) => return Err(StoreFault::Read(error)),
    };
    let Ok(mut bytes) = vec![in alloc; 0; len] else {
        return Err(StoreFault::Memory);
    };
    match disk.read_at(0, &mut bytes) {
        Ok(()) => Ok(bytes),
        Err(error) => Err(StoreFault::Read(error)),
    }
}

/// The last bytes of the file, from a place on: as many as it has there. Nothing is changed.
pub(crate) fn read_part<D: Disk>(
    alloc: Global,
    disk: &mut D,
    at: usize,
    len: usize,
) -> Result<Vec<u8>, StoreFault>
    requires usable { IsTrue (D.is_usable disk.old) }
    requires last { IsTrue (D.is_clean disk.old) → at + len ≡ length (D.seen disk.old) }
    ensures bytes { IfOk result (λ bytes. IsTrue (D.is_clean disk.new) → bytes.items ≡ drop at (D.seen disk.old)) }
    ensures usable { IsTrue (D.is_usable disk.new) }
    ensures seen { D.seen disk.new ≡ D.seen disk.old }
    ensures crash { (c : List ℕ) → D.may_leave disk.new c → D.may_leave disk.old c }
    ensures clean { IsTrue (D.is_clean disk.new) → IsTrue (D.is_clean disk.old) }
    ensures steady { OnOk result (IsSteady D.Disk disk.old disk.new) }
    ensures cause { IfErr result (λ fault. IsPartFault D.Disk disk.old disk.new fault) }
{
    let Ok(mut bytes) = vec![in alloc; 0; len] else {
        return Err(StoreFault::Memory);
    };
    match disk.read_at(at, &mut bytes) {
        Ok(()) => Ok(bytes),
        Err(error) => Err(StoreFault::Read(error)),
    }
}
