//! Bytes from a reader and to a writer.
ghost use Rattle.std.specs.Prelude.{◌≡◌, ◌<◌, ◌≤◌, ◌+◌, length, IfOk, IfErr, IfSome, OnErr, OnOk, vec_len};
ghost use Rattle.std.specs.Io.KnownBytes.{Appends, Consumes, IsAtEnd, Keeps};
ghost use Rattle.sno_rewrite.specs.Streams.{AppendsFront, ConsumesAfter, IsMemoryOrRead, IsWholeInput, IsReadFault, TakesAtMost};
ghost use Rattle.sno_rewrite.specs.declared.faults.RunFault.TheVariants.{Write as WriteFailed};
ghost use Rattle.sno_rewrite.specs.declared.streams.TheConstants.{PIECE};

use crate::RunFault;
use sno_document::{DocumentFault, MAX_DOCUMENT};
use std::alloc::Global;
use std::io::{Read, Write};

const PIECE: usize = 4_096;

/// Adds at most `room` bytes of the reader after those already read, and returns how many. It returns 0 only at the
/// end. They are read into `piece` first.
fn read_piece<R: Read>(
    reader: &mut R,
    piece: &mut [u8],
    bytes: &mut Vec<u8>,
    room: usize,
) -> Result<usize, RunFault>
    requires room { 0 < room }
    requires piece { length piece.old ≡ PIECE }
    ensures piece { length piece.new ≡ PIECE }
    ensures more { IfOk result (λ n. vec_len bytes.new ≡ vec_len bytes.old + n) }
    ensures bound { IfOk result (λ n. n ≤ room) }
    ensures consumed { IfOk result (λ n. ConsumesAfter (R.remaining reader.old) (R.remaining reader.new) bytes.old.items bytes.new.items) }
    ensures end { IfOk result (λ n. n ≡ 0 → IsAtEnd (R.remaining reader.new)) }
    ensures taken { TakesAtMost room (R.remaining reader.old) (R.remaining reader.new) }
    ensures fault { IfErr result IsMemoryOrRead }
{
    let room = room.min(PIECE);
    let Ok(count) = reader.read(&mut piece[..room]) else {
        return Err(RunFault::Read);
    };
    bytes.extend_from_slice(&piece[..count])?;
    Ok(count)
}

/// Returns all bytes of the reader. Refused: `Read` if a read fails, even if it was only interrupted; `DocumentTooLong`
/// if there are more than 16,777,216 bytes, and one more than that is read; `Memory`.
pub(crate) fn read_all<R: Read>(alloc: Global, reader: &mut R) -> Result<Vec<u8>, RunFault>
    ensures whole { IfOk result (λ v. IsWholeInput (R.remaining reader.old) (R.remaining reader.new) v.items) }
    ensures taken { TakesAtMost (MAX_DOCUMENT + 1) (R.remaining reader.old) (R.remaining reader.new) }
    ensures fault { IfErr result (IsReadFault (R.remaining reader.old) (R.remaining reader.new)) }
{
    let mut bytes = Vec::new(alloc);
    let mut piece = [0; PIECE];
    while bytes.len() <= MAX_DOCUMENT {
        let room = MAX_DOCUMENT + 1 - bytes.len();
        let count = read_piece(reader, &mut piece, &mut bytes, room)?;
        if count == 0 {
            return Ok(bytes);
        }
    }
    Err(RunFault::Document(DocumentFault::DocumentTooLong))
}

/// Writes all bytes. `Write` if a write fails, even if it was only interrupted, or takes no byte. A beginning of the
/// bytes is written then.
pub fn write_all<W: Write>(writer: &mut W, bytes: &[u8]) -> Result<(), RunFault>
    ensures written { OnOk result (Appends (W.contents writer.old) (W.contents writer.new) bytes.now) }
    ensures begun { OnErr result (AppendsFront (W.contents writer.old) (W.contents writer.new) bytes.now) }
    ensures fault { IfErr result (λ e. e ≡ WriteFailed) }
{
    let mut rest = bytes;
    while !rest.is_empty() {
        match writer.write(rest) {
            Ok(0) | Err(_) => return Err(RunFault::Write),
            Ok(count) => rest = rest.split_at(count).1,
        }
    }
    Ok(())
}
