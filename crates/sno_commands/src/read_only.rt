//! The bytes of a file, as a disk to which nothing can be written.
ghost use Rattle.std.specs.Prelude.{◌≡◌, ◌≤◌, true, false, refl};
ghost use Rattle.sqlite_disk.specs.Disk.{MoreFaults};
ghost use Rattle.sqlite_disk.specs.Refusal.{is_no_room};

use sqlite_disk::{Disk, Tally, digest_of};
use std::io;
use std::io::ErrorKind;

/// The bytes of a file, as a disk that refuses each write.
#[derive(Drop)]
pub(crate) struct ReadOnly {
    bytes: Vec<u8>,
    faults: u64,
    caught: u64,
}

impl ReadOnly {
    /// These bytes.
    pub(crate) fn new(bytes: Vec<u8>) -> ReadOnly
        ensures { result.bytes ≡ bytes }
    {
        ReadOnly {
            bytes,
            faults: 0,
            caught: 0,
        }
    }

    /// The error of a call that would write.
    fn refused(&mut self) -> io::Error
        ensures kind { is_no_room result ≡ false }
        ensures bytes { self.new.bytes ≡ self.old.bytes }
        ensures caught { self.new.caught ≡ self.old.caught }
        ensures faults { MoreFaults self.old.faults self.new.faults × (self.old.faults ≤ self.new.faults) }
    {
        self.faults = self.faults.saturating_add(1);
        io::Error::from(ErrorKind::ReadOnlyFilesystem)
    }
}

impl Disk for ReadOnly {
    ghost seen = { λ m. m.bytes.items };

    ghost may_leave = { λ m c. c ≡ m.bytes.items };

    ghost is_usable = { λ _. true };

    ghost faults = { λ m. m.faults };

    ghost is_clean = { λ _. true };

    ghost tally_of = { λ m. record { caught = m.caught; refused = 0 } };

    ghost key_of = { λ _. 0 };

    ghost is_fair = { λ _ _. true };

    ghost fair_if_clean = { λ _ _ _. refl };

    ghost seen_may_stay = { λ _. refl };

    ghost is_mixing = { λ _. true };

    fn mixes(&self) -> bool {
        true
    }

    fn key(&self) -> u64 {
        0
    }

    fn tally(&self) -> Tally {
        Tally {
            caught: self.caught,
            refused: 0,
        }
    }

    fn may_be_used(&self) -> bool {
        true
    }

    fn len(&mut self) -> io::Result<usize> {
        Ok(self.bytes.len())
    }

    fn read_at(&mut self, at: usize, buf: &mut [u8]) -> io::Result<()> {
        if at > self.bytes.len() || buf.len() > self.bytes.len() - at {
            return Err(ErrorKind::UnexpectedEof.into());
        }
        buf.copy_from_slice(&self.bytes[at..at + buf.len()]);
        Ok(())
    }

    fn read_checked(&mut self, key: u64, want: u64, at: usize, buf: &mut [u8]) -> io::Result<()> {
        self.read_at(at, buf)?;
        if digest_of(key, buf) != want {
            self.faults = self.faults.saturating_add(1);
            self.caught = self.caught.saturating_add(1);
            return Err(ErrorKind::InvalidData.into());
        }
        Ok(())
    }

    fn write_at(&mut self, _at: usize, _bytes: &[u8]) -> io::Result<()> {
        Err(self.refused())
    }

    fn set_len(&mut self, _len: usize) -> io::Result<()> {
        Err(self.refused())
    }

    fn sync(&mut self) -> io::Result<()> {
        Ok(())
    }
}
