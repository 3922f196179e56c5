//! What comes after the lines: what a crash has left of a batch, or lines that were cut off by damage.
ghost use Rattle.std.specs.Prelude.{◌≡◌, ◌==◌};
ghost use Rattle.std.specs.List.{list_all};
ghost use Rattle.sno_sealed.specs.Tails.{ends_batch, is_other, is_tear};

use crate::reader::looks_sealed;
use crate::seals::parts_of;
use memchr::memchr2;

/// Whether bytes without NUL and line feed, which a line feed ends, are of another batch than the one whose first line has this number.
/// `begins` says whether a line begins with them.
///
/// Each line has the numbers of its batch at its end. So the rest of a line is enough, whatever a crash has left of its beginning. Older
/// formats have no sums: a whole line of theirs after a cut one may be torn or not, and is rather refused than lost.
#[tactic(auto, unfolding(crate::specs::Tails::is_other))]
fn is_other(first: &[u8], begins: bool, piece: &[u8]) -> bool
    ensures { result ≡ is_other first.now begins piece.now }
{
    if !looks_sealed(piece) {
        return begins && piece.starts_with(b"{");
    }
    match parts_of(piece) {
        None => false,
        Some(parts) => parts.first != first,
    }
}

/// Whether they are the end of the last line of a batch.
#[tactic(auto, unfolding(crate::specs::Tails::ends_batch))]
fn ends_batch(piece: &[u8]) -> bool
    ensures { result ≡ ends_batch piece.now }
{
    if !looks_sealed(piece) {
        return false;
    }
    match parts_of(piece) {
        None => false,
        Some(parts) => parts.number == parts.last,
    }
}

/// Whether there is nothing but zeros.
fn are_zeros(bytes: &[u8]) -> bool
    ensures { result ≡ list_all (λ x. x == 0) bytes.now }
{
    bytes.iter().all(|byte| *byte == 0)
}

/// Whether what comes after the lines can be what a crash has left of one batch, whose first line has this number: no line of another
/// batch ends there, and nothing comes after the last line of this one. A file that has no lines before it may be another program's, and lines
/// without sums say nothing there.
pub(crate) fn is_tear(first: &[u8], has_lines: bool, tail: &[u8]) -> bool
    ensures { result ≡ is_tear first.now has_lines tail.now }
{
    let mut rest = tail;
    let mut begins = has_lines;
    while let Some(at) = memchr2(b'\n', 0, rest) {
        let piece = rest.split_at(at).0;
        let after = rest.split_at(at + 1).1;
        if rest[at] != b'\n' {
            rest = after;
            begins = false;
            continue;
        }
        if is_other(first, begins, piece) {
            return false;
        }
        if ends_batch(piece) {
            return are_zeros(after);
        }
        rest = after;
        begins = has_lines;
    }
    true
}
