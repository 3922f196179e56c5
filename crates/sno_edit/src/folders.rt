//! Where files are.
ghost use Rattle.std.specs.Prelude.{◌≡◌, ◌≤◌, ◌<◌, ℕ, List, length, IfOk, IfErr, OnOk, OnErr};
ghost use Rattle.sno_edit.specs.Held.{Kept, OthersKept};
ghost use Rattle.sno_edit.specs.Batches.{AreReplaced};

use sno_pattern::ByteText;
use std::alloc::{AllocError, AllocFailed, Global};
use std::io::ErrorKind;
use std::sync::Arc;

/// Why a file was not read.
#[derive(Clone, Copy, Debug, PartialEq, Eq)]
pub enum ReadFault {
    /// The file has more bytes than were asked for.
    TooLong,
    /// The file could not be opened or read.
    Failed(ErrorKind),
    /// Out of memory.
    Memory,
}

/// Why a file was not written.
#[derive(Clone, Copy, Debug, PartialEq, Eq)]
pub enum WriteFault {
    /// The new file could not be made, or could not take the old one's place.
    Failed(ErrorKind),
    /// Out of memory.
    Memory,
}

impl From<AllocError> for ReadFault {
    ghost use Rattle.std.specs.Prelude.{◌≡◌};
    ghost use Rattle.sno_edit.specs.declared.folders.ReadFault.TheVariants.{Memory};

    ghost from_gives = { λ _ e. e ≡ Memory };

    fn from(_refused: AllocError) -> ReadFault {
        ReadFault::Memory
    }
}

impl<T: Drop> From<AllocFailed<T>> for ReadFault {
    ghost use Rattle.std.specs.Prelude.{◌≡◌};
    ghost use Rattle.sno_edit.specs.declared.folders.ReadFault.TheVariants.{Memory};

    ghost from_gives = { λ _ e. e ≡ Memory };

    fn from(_refused: AllocFailed<T>) -> ReadFault {
        ReadFault::Memory
    }
}

impl From<AllocError> for WriteFault {
    ghost use Rattle.std.specs.Prelude.{◌≡◌};
    ghost use Rattle.sno_edit.specs.declared.folders.WriteFault.TheVariants.{Memory};

    ghost from_gives = { λ _ e. e ≡ Memory };

    fn from(_refused: AllocError) -> WriteFault {
        WriteFault::Memory
    }
}

impl<T: Drop> From<AllocFailed<T>> for WriteFault {
    ghost use Rattle.std.specs.Prelude.{◌≡◌};
    ghost use Rattle.sno_edit.specs.declared.folders.WriteFault.TheVariants.{Memory};

    ghost from_gives = { λ _ e. e ≡ Memory };

    fn from(_refused: AllocFailed<T>) -> WriteFault {
        WriteFault::Memory
    }
}

/// A file that is to hold another text.
#[derive(Drop)]
pub struct NewText<'a> {
    /// The path of the file.
    pub path: &'a str,
    /// The text that it is to hold.
    pub text: Arc<ByteText>,
}

/// Files, each under its path.
pub trait Folder {
    ghost use Rattle.std.specs.Prelude.{ℕ, List};

    /// What the files hold: the file with this path has these bytes.
    ghost holds: { Self → List ℕ → List ℕ → Type 0 };

    /// Returns the bytes of a file, at most `most`. `TooLong` if it has more.
    fn read(&self, alloc: Global, path: &str, most: usize) -> Result<Vec<u8>, ReadFault>
        ensures bytes { IfOk result (λ bytes. holds self.now path.now bytes.items) }
        ensures long { result ≡ Err ReadFault.TooLong → (bytes : List ℕ) × holds self.now path.now bytes × (most < length bytes) };

    /// Puts these bytes in place of those of a file. If it is refused, no file is changed; no other one is either way.
    fn replace(&mut self, alloc: Global, path: &str, bytes: &[u8]) -> Result<(), WriteFault>
        ensures written { OnOk result (holds self.new path.now bytes.now) }
        ensures kept { OnErr result (Kept (holds self.old) (holds self.new)) }
        ensures others { OthersKept path.now (holds self.old) (holds self.new) };

    /// Replaces several files, each as `replace` does, in order, and returns a result for each. What it leaves is what
    /// the calls of `replace` would leave one after the other; but it can wait for the disk once for all of them.
    ///
    /// Refused only if there is no memory for the results. Then no file is changed.
    fn replace_all(
        &mut self,
        alloc: Global,
        files: &[NewText<'_>],
    ) -> Result<Vec<Result<(), WriteFault>>, AllocError>
        ensures replaced { IfOk result (λ results. AreReplaced holds self.old files.now results.items self.new) }
        ensures untouched { OnErr result (self.new ≡ self.old) };
}
