//! A text that is in no file.

use sno_edit::{Folder, NewText, ReadFault, WriteFault};
use std::alloc::{AllocError, Global};
use std::io::ErrorKind;

/// A text that is in no file, as standard input has it. It is read under any path, and each replacement is refused.
#[derive(Drop)]
pub struct OneText {
    /// The text.
    pub bytes: Vec<u8>,
}

impl Folder for OneText {
    ghost use Rattle.std.specs.Prelude.{◌≡◌};

    ghost holds = { λ text path bytes. bytes ≡ text.bytes.items };

    fn read(&self, alloc: Global, _path: &str, most: usize) -> Result<Vec<u8>, ReadFault> {
        if self.bytes.len() > most {
            return Err(ReadFault::TooLong);
        }
        let bytes = Vec::from_slice(alloc, &self.bytes)?;
        Ok(bytes)
    }

    /// Refused with `Failed`.
    fn replace(&mut self, _alloc: Global, _path: &str, _bytes: &[u8]) -> Result<(), WriteFault> {
        Err(WriteFault::Failed(ErrorKind::Unsupported))
    }

    /// Refused.
    fn replace_all(
        &mut self,
        _alloc: Global,
        _files: &[NewText<'_>],
    ) -> Result<Vec<Result<(), WriteFault>>, AllocError> {
        Err(AllocError)
    }
}
