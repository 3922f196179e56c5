//! A disk in memory.
ghost use Rattle.std.specs.Prelude.{◌≡◌, ◌⊎◌, ◌≤◌, length, true, false, refl, MatchBool, OnOk, OnErr};
ghost use Rattle.std.proofs.Common.{inl};
ghost use Rattle.sqlite_disk.specs.Disk.{Holds, Torn, MoreFaults};
ghost use Rattle.sqlite_disk.specs.Refusal.{is_no_room, finds_no_room};

use sqlite_disk::{Crash, Disk, Tally, digest_of, is_no_room};
use std::alloc::Global;
use std::io;

/// A file in memory with a limit of bytes. A crash leaves what was written, or what was there at the last sync. A call that fails
/// changes nothing.
#[derive(Drop)]
pub struct Slate {
    bytes: Vec<u8>,
    synced: Vec<u8>,
    most: usize,
    usable: bool,
    faults: u64,
    caught: u64,
    refused: u64,
}

impl Slate {
    /// A file with these bytes and room for `most`. All of it is to be synced.
    pub fn new(alloc: Global, bytes: Vec<u8>, most: usize) -> Slate {
        Slate {
            bytes,
            synced: Vec::new(alloc),
            most,
            usable: true,
            faults: 0,
            caught: 0,
            refused: 0,
        }
    }

    /// What the file holds.
    pub fn bytes(&self) -> &[u8] {
        &self.bytes
    }

    /// The same file with room for `most` bytes.
    pub fn resized(self, most: usize) -> Slate {
        let mut slate = self;
        slate.most = most;
        slate.usable = true;
        slate
    }

    fn count(&mut self, error: io::Error) -> io::Error
        ensures same { result ≡ error }
        ensures bytes { self.new.bytes ≡ self.old.bytes }
        ensures synced { self.new.synced ≡ self.old.synced }
        ensures usable { self.new.usable ≡ self.old.usable }
        ensures caught { self.new.caught ≡ self.old.caught }
        ensures faults { MoreFaults self.old.faults self.new.faults × (self.old.faults ≤ self.new.faults) }
        ensures refused { MatchBool (is_no_room error) (MoreFaults self.old.refused self.new.refused) (self.new.refused ≡ self.old.refused) }
    {
        self.faults = self.faults.saturating_add(1);
        if is_no_room(&error) {
            self.refused = self.refused.saturating_add(1);
        }
        error
    }
}

impl Disk for Slate {
    ghost seen = { λ m. m.bytes.items };

    ghost may_leave = { λ m c. (c ≡ m.bytes.items) ⊎ (c ≡ m.synced.items) };

    ghost is_usable = { λ m. m.usable };

    ghost faults = { λ m. m.faults };

    ghost is_clean = { λ _. true };

    ghost tally_of = { λ m. record { caught = m.caught; refused = m.refused } };

    ghost key_of = { λ _. 0 };

    ghost is_fair = { λ _ _. true };

    ghost fair_if_clean = { λ _ _ _. refl };

    ghost seen_may_stay = { λ _. inl refl };

    ghost is_mixing = { λ _. true };

    fn mixes(&self) -> bool {
        true
    }

    fn key(&self) -> u64 {
        0
    }

    fn tally(&self) -> Tally {
        Tally {
            caught: self.caught,
            refused: self.refused,
        }
    }

    fn may_be_used(&self) -> bool {
        self.usable
    }

    fn len(&mut self) -> io::Result<usize> {
        Ok(self.bytes.len())
    }

    fn read_at(&mut self, at: usize, buf: &mut [u8]) -> io::Result<()> {
        if at > self.bytes.len() || buf.len() > self.bytes.len() - at {
            return Err(io::ErrorKind::UnexpectedEof.into());
        }
        buf.copy_from_slice(&self.bytes[at..at + buf.len()]);
        Ok(())
    }

    fn read_checked(&mut self, key: u64, want: u64, at: usize, buf: &mut [u8]) -> io::Result<()> {
        self.read_at(at, buf)?;
        if digest_of(key, buf) != want {
            self.faults = self.faults.saturating_add(1);
            self.caught = self.caught.saturating_add(1);
            return Err(io::ErrorKind::InvalidData.into());
        }
        Ok(())
    }

    fn write_at(&mut self, at: usize, bytes: &[u8]) -> io::Result<()> {
        match overwrite(&mut self.bytes, at, bytes, self.most) {
            Ok(()) => Ok(()),
            Err(error) => Err(self.count(error)),
        }
    }

    fn set_len(&mut self, len: usize) -> io::Result<()> {
        match self.bytes.resize(len, 0) {
            Ok(()) => Ok(()),
            Err(_) => Err(self.count(io::ErrorKind::OutOfMemory.into())),
        }
    }

    fn sync(&mut self) -> io::Result<()> {
        match replace(&mut self.synced, &self.bytes) {
            Ok(()) => Ok(()),
            Err(error) => {
                self.usable = false;
                Err(self.count(error))
            }
        }
    }
}

/// Loses all that was not synced, or nothing if memory runs out.
impl Crash for Slate {
    fn crash(&mut self) {
        self.usable = true;
        let _ = replace(&mut self.bytes, &self.synced);
    }
}

fn replace(file: &mut Vec<u8>, bytes: &[u8]) -> io::Result<()>
    ensures ok { OnOk result (file.new.items ≡ bytes.now) }
    ensures err { OnErr result (file.new.items ≡ file.old.items) }
    ensures kind { finds_no_room result ≡ false }
{
    let mut copy = Vec::new(*file.allocator());
    if copy.extend_from_slice(bytes).is_err() {
        return Err(io::ErrorKind::OutOfMemory.into());
    }
    *file = copy;
    Ok(())
}

fn overwrite(file: &mut Vec<u8>, at: usize, bytes: &[u8], most: usize) -> io::Result<()>
    ensures written { OnOk result (Holds file.new.items at bytes.now) }
    ensures others { Torn at (length bytes.now) file.old.items file.new.items }
    ensures kept { OnErr result (file.new.items ≡ file.old.items) }
{
    if bytes.len() > most || at > most - bytes.len() {
        return Err(io::ErrorKind::StorageFull.into());
    }
    let end = at + bytes.len();
    if end > file.len() && file.resize(end, 0).is_err() {
        return Err(io::ErrorKind::OutOfMemory.into());
    }
    file[at..end].copy_from_slice(bytes);
    Ok(())
}
