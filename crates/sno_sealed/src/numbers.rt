//! Numbers as they are written, and sums.
ghost use Rattle.std.specs.Prelude.{◌≡◌, ◌++◌, ◌<◌, OnOk, decimal};
ghost use Rattle.sno_sealed.specs.Seals.{hex, hex_digit, next_number, own_sum, sum_after};

use std::alloc::AllocError;
use std::hash::{DefaultHasher, Hasher};

/// Adds a number in decimal.
pub(crate) fn put_number(out: &mut Vec<u8>, number: u64) -> Result<(), AllocError>
    ensures { OnOk result (out.new.items ≡ out.old.items ++ decimal number) }
{
    let mut digits = itoa::Buffer::new();
    out.extend_from_slice(digits.format(number).as_bytes())
}

/// The character of a digit in hexadecimal.
fn hex_digit(digit: u8) -> u8
    requires { digit < 16 }
    ensures { result ≡ hex_digit digit }
{
    if digit < 10 { b'0' + digit } else { 87 + digit }
}

/// Adds this many digits of a number in hexadecimal, the lowest last.
pub(crate) fn put_hex(out: &mut Vec<u8>, count: u8, number: u64) -> Result<(), AllocError>
    ensures { OnOk result (out.new.items ≡ out.old.items ++ hex count number) }
{
    if count == 0 {
        return Ok(());
    }
    put_hex(out, count - 1, number / 16)?;
    out.push(hex_digit((number % 16) as u8))?;
    Ok(())
}

/// The sum of these bytes after the sum that came before.
///
/// It is SipHash-1-3 and not a hash against forgers: whoever can change the file can write a new sum too. It is to find what decays, and
/// a line of 64 KiB takes some 50 microseconds.
#[tactic(auto, unfolding(crate::specs::Seals::sum_after))]
pub(crate) fn sum_after(before: u64, bytes: &[u8]) -> u64
    ensures { result ≡ sum_after before bytes.now }
{
    let mut hasher = DefaultHasher::new();
    hasher.write(&before.to_le_bytes());
    hasher.write(bytes);
    hasher.finish()
}

/// The number after this one, of 64 bits.
fn next_number(number: u64) -> u64
    ensures { result ≡ next_number number }
{
    if number < u64::MAX { number + 1 } else { 0 }
}

/// The sum of a line that begins with these bytes, after a line with this sum. It is the next number if the line has no `}` at its end, which
/// isn't among the bytes.
#[tactic(auto, unfolding(crate::specs::Seals::own_sum))]
pub(crate) fn own_sum(before: u64, bytes: &[u8], closed: bool) -> u64
    ensures { result ≡ own_sum before bytes.now closed }
{
    let sum = sum_after(before, bytes);
    if closed { sum } else { next_number(sum) }
}
