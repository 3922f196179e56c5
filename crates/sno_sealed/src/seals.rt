//! A line is sealed, and a sealed line is opened.
ghost use Rattle.std.specs.Prelude.{◌≡◌, ◌++◌, ◌∷◌, [], OnOk, IfOk, MatchOption, true, false};
ghost use Rattle.sno_sealed.specs.Seals.{begun, closes, ended, sealed_line, sum_of, summed};
ghost use Rattle.sno_sealed.specs.Tails.{after, after_last, before, first_in, has, has_numbers, last_in, number_in};

use crate::numbers::{own_sum, put_hex, put_number};
use memchr::{memchr, memrchr};
use std::alloc::AllocError;

/// What comes before the numbers of a seal.
const BATCH_KEY: &[u8] = b",\"batch\":[";

/// What comes between them and its sum.
pub(crate) const SUM_KEY: &[u8] = b"],\"sum\":\"";

/// Whether bytes end with `}`.
pub(crate) fn closes(bytes: &[u8]) -> bool
    ensures { result ≡ closes bytes.now }
{
    !bytes.is_empty() && bytes[bytes.len() - 1] == b'}'
}

/// Bytes without the `}` at their end, if they have one.
#[tactic(auto, unfolding(crate::specs::Seals::begun))]
pub(crate) fn begun(bytes: &[u8]) -> &[u8]
    ensures { result.now ≡ begun bytes.now }
{
    if closes(bytes) {
        bytes.split_at(bytes.len() - 1).0
    } else {
        bytes
    }
}

/// Adds the `}` at the end of these bytes, if they have one.
#[tactic(auto, unfolding(crate::specs::Seals::ended))]
fn put_end(out: &mut Vec<u8>, bytes: &[u8]) -> Result<(), AllocError>
    ensures { OnOk result (out.new.items ≡ out.old.items ++ ended bytes.now) }
{
    if closes(bytes) {
        out.push(b'}')?;
    }
    Ok(())
}

/// Adds what the sum of a line is over, beside the sum before it.
#[tactic(auto, unfolding(crate::specs::Seals::summed))]
fn put_summed(
    out: &mut Vec<u8>,
    number: u64,
    first: &[u8],
    last: &[u8],
    payload: &[u8],
) -> Result<(), AllocError>
    ensures { OnOk result (out.new.items ≡ out.old.items ++ summed number first.now last.now payload.now) }
{
    out.extend_from_slice(begun(payload))?;
    out.extend_from_slice(BATCH_KEY)?;
    put_number(out, number)?;
    out.push(b',')?;
    out.extend_from_slice(first)?;
    out.push(b',')?;
    out.extend_from_slice(last)?;
    Ok(())
}

/// Writes a sealed line in place of what `line` has, and returns its sum. `before` is the sum of the line before it, and `first` and
/// `last` say of which batch it is.
#[tactic(auto, unfolding(crate::specs::Seals::sealed_line))]
pub(crate) fn seal(
    line: &mut Vec<u8>,
    before: u64,
    number: u64,
    first: &[u8],
    last: &[u8],
    payload: &[u8],
) -> Result<u64, AllocError>
    ensures line { OnOk result (line.new.items ≡ sealed_line before number first.now last.now payload.now) }
    ensures sum { IfOk result (λ sum. sum ≡ sum_of before number first.now last.now payload.now) }
{
    line.clear();
    put_summed(line, number, first, last, payload)?;
    let sum = own_sum(before, line, closes(payload));
    line.extend_from_slice(SUM_KEY)?;
    put_hex(line, 16, sum)?;
    line.push(b'"')?;
    put_end(line, payload)?;
    Ok(sum)
}

/// What a line that seems to be sealed has beside its sum.
#[derive(Clone, Copy)]
pub(crate) struct Parts<'a> {
    /// What comes before the numbers of its batch.
    pub(crate) front: &'a [u8],
    /// Its number.
    pub(crate) number: &'a [u8],
    /// The number of the first line of its batch.
    pub(crate) first: &'a [u8],
    /// The number of the last one.
    pub(crate) last: &'a [u8],
}

impl<'a> Parts<'a> {
    /// The payload, without the `}` at its end.
    pub(crate) fn begun(&self) -> Option<&'a [u8]> {
        if self.front.len() < BATCH_KEY.len() {
            return None;
        }
        Some(self.front.split_at(self.front.len() - BATCH_KEY.len()).0)
    }
}

/// The bytes before the first `byte` and those after it.
fn split_at_first(bytes: &[u8], byte: u8) -> Option<(&[u8], &[u8])>
    ensures { MatchOption result (has byte bytes.now ≡ false) (λ p. (has byte bytes.now ≡ true) × (p.0.now ≡ before byte bytes.now) × (p.1.now ≡ after byte bytes.now)) }
{
    match memchr(byte, bytes) {
        None => None,
        Some(at) => Some((bytes.split_at(at).0, bytes.split_at(at + 1).1)),
    }
}

/// The bytes up to the last `byte` and those after it.
fn split_at_last(bytes: &[u8], byte: u8) -> Option<(&[u8], &[u8])>
    ensures { MatchOption result (has byte bytes.now ≡ false) (λ p. (has byte bytes.now ≡ true) × (p.1.now ≡ after_last byte bytes.now)) }
{
    match memrchr(byte, bytes) {
        None => None,
        Some(at) => Some(bytes.split_at(at + 1)),
    }
}

/// The parts of a line that seems to be sealed, or of the end of one.
#[tactic(auto, unfolding(crate::specs::Tails::has_numbers, crate::specs::Tails::number_in, crate::specs::Tails::first_in, crate::specs::Tails::last_in))]
pub(crate) fn parts_of(line: &[u8]) -> Option<Parts<'_>>
    ensures { MatchOption result (has_numbers line.now ≡ false)
        (λ p. (has_numbers line.now ≡ true) × (p.number.now ≡ number_in line.now) × (p.first.now ≡ first_in line.now) × (p.last.now ≡ last_in line.now)) }
{
    let Some((front, numbers)) = split_at_last(line, b'[') else {
        return None;
    };
    let Some((number, rest)) = split_at_first(numbers, b',') else {
        return None;
    };
    let Some((first, rest)) = split_at_first(rest, b',') else {
        return None;
    };
    let Some((last, _rest)) = split_at_first(rest, b']') else {
        return None;
    };
    Some(Parts {
        front,
        number,
        first,
        last,
    })
}
