//! Files in memory.
ghost use Rattle.std.specs.Prelude.{◌≡◌, ◌+◌, ◌≤◌, ◌++◌, ◌∷◌, [], OnOk, OnErr, length, vec_len, vec_capacity};
ghost use Rattle.std.specs.Option.{option_map};
ghost use Rattle.test_programs.specs.Memory.{held, IsWritten};
ghost use Rattle.sno_edit.specs.Batches.{AreReplaced};

use sno_edit::{Folder, NewText, ReadFault, WriteFault};
use std::alloc::{AllocError, Global};
use std::io::ErrorKind;

/// What was written to a file.
#[derive(Drop)]
struct Writing {
    path: Vec<u8>,
    bytes: Vec<u8>,
}

/// Files in memory: what was written, the oldest first. A file holds what was last written to it.
#[derive(Drop)]
pub struct Memory {
    writings: Vec<Writing>,
}

impl Memory {
    ghost use Rattle.std.specs.Prelude.{◌≡◌, ◌++◌, ◌∷◌, [], OnOk, OnErr, ℕ, List};

    /// No files.
    pub fn new(alloc: Global) -> Memory {
        Memory {
            writings: Vec::new(alloc),
        }
    }

    /// Writes these bytes to the file with this path. If memory runs out, each file holds what it held.
    pub fn write(&mut self, alloc: Global, path: &[u8], bytes: &[u8]) -> Result<(), AllocError>
        ensures written { OnOk result (IsWritten path.now bytes.now self.old.writings.items self.new.writings.items) }
        ensures kept { OnErr result (self.new.writings.items ≡ self.old.writings.items) }
    {
        let writing = Writing {
            path: Vec::from_slice(alloc, path)?,
            bytes: Vec::from_slice(alloc, bytes)?,
        };
        self.writings.push(writing)?;
        Ok(())
    }

    /// What the file with this path holds, if there is one.
    pub fn bytes(&self, path: &[u8]) -> Option<&[u8]>
        ensures { option_map (λ b. b.now) result ≡ held path.now self.now.writings.items }
    {
        let mut bytes = None;
        for writing in &self.writings {
            if writing.path.as_slice() == path {
                bytes = Some(writing.bytes.as_slice());
            }
        }
        bytes
    }
}

impl Folder for Memory {
    ghost use Rattle.std.specs.Prelude.{◌≡◌, Some};
    ghost use Rattle.test_programs.specs.Memory.{held};

    ghost holds = { λ memory path bytes. held path memory.writings.items ≡ Some bytes };

    fn read(&self, alloc: Global, path: &str, most: usize) -> Result<Vec<u8>, ReadFault> {
        let Some(bytes) = self.bytes(path.as_bytes()) else {
            return Err(ReadFault::Failed(ErrorKind::NotFound));
        };
        if bytes.len() > most {
            return Err(ReadFault::TooLong);
        }
        Ok(Vec::from_slice(alloc, bytes)?)
    }

    fn replace(&mut self, alloc: Global, path: &str, bytes: &[u8]) -> Result<(), WriteFault> {
        self.write(alloc, path.as_bytes(), bytes)?;
        Ok(())
    }

    fn replace_all(
        &mut self,
        alloc: Global,
        files: &[NewText<'_>],
    ) -> Result<Vec<Result<(), WriteFault>>, AllocError> {
        let mut results = Vec::with_capacity(alloc, files.len())?;
        for file in files {
            let replaced = self.replace(alloc, file.path, file.text.bytes());
            match results.push(replaced) {
                Ok(()) => {}
                Err(_) => unreachable!(),
            }
        }
        Ok(results)
    }
}
