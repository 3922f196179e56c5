//! Where whole lines end.
ghost use Rattle.std.specs.Prelude.{◌≡◌, ◌++◌, ◌∷◌, [], length, replicate, MatchOption, IsTrue, ◌↔◌};
ghost use Rattle.sno_store.specs.Lines.{recovered, bytes_of};

use memchr::memchr2;

/// The first whole line of these bytes, and what comes after its line feed.
pub(crate) fn split_line(bytes: &[u8]) -> Option<(&[u8], &[u8])>
    ensures { MatchOption result (recovered bytes.now ≡ [])
        (λ parts. (bytes.now ≡ parts.0.now ++ 10 ∷ parts.1.now) × (recovered bytes.now ≡ parts.0.now ∷ recovered parts.1.now)) }
{
    if bytes.is_empty() || bytes[0] != b'{' {
        return None;
    }
    let Some(at) = memchr2(b'\n', 0, bytes) else {
        return None;
    };
    if bytes[at] != b'\n' {
        return None;
    }
    Some((bytes.split_at(at).0, bytes.split_at(at + 1).1))
}

/// How many bytes the whole lines at the beginning take.
pub(crate) fn end_of_lines(bytes: &[u8]) -> usize
    ensures { result ≡ length (bytes_of (recovered bytes.now)) }
{
    let mut rest = bytes;
    while let Some((_, after)) = split_line(rest) {
        rest = after;
    }
    bytes.len() - rest.len()
}

/// Whether there is nothing but zeros.
pub(crate) fn are_zeros(bytes: &[u8]) -> bool
    ensures { IsTrue result ↔ (bytes.now ≡ replicate (length bytes.now) 0) }
{
    bytes.iter().all(|byte| *byte == 0)
}
