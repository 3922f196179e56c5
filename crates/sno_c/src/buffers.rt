//! Buffers of callers.
ghost use Rattle.std.specs.Prelude.{◌≡◌, ◌≤◌, ◌++◌, length, drop};
ghost use Rattle.sno_c.specs.Buffers.{IsWritten};

use crate::statuses::{DONE, TOO_SHORT};

/// Copies the bytes to the beginning of the buffer, which must be long enough.
pub(crate) fn copy_to(buffer: &mut [u8], bytes: &[u8])
    requires { length bytes.now ≤ length buffer.old }
    ensures { buffer.new ≡ bytes.now ++ drop (length bytes.now) buffer.old }
{
    let (room, _) = buffer.split_at_mut(bytes.len());
    room.copy_from_slice(bytes);
}

/// Puts as much of a line in the buffer as there is room for, and returns how many bytes that are.
pub(crate) fn put_line(buffer: &mut [u8], line: &[u8]) -> usize
    ensures rest { drop result buffer.new ≡ drop result buffer.old }
    ensures same { length buffer.new ≡ length buffer.old }
    ensures inside { result ≤ length buffer.new }
{
    let count = line.len().min(buffer.len());
    let (front, _) = line.split_at(count);
    copy_to(buffer, front);
    front.len()
}

/// Puts bytes in the buffer if there is room for them. A buffer that is too short is unchanged.
pub(crate) fn write(bytes: &[u8], buffer: &mut [u8]) -> u8
    ensures { IsWritten bytes.now buffer.old buffer.new result }
{
    if bytes.len() > buffer.len() {
        return TOO_SHORT;
    }
    copy_to(buffer, bytes);
    DONE
}
