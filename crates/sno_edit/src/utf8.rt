//! Whether a text is UTF-8.
ghost use Rattle.std.specs.Prelude.{◌≡◌, ◌≤◌, length, IfSome};
ghost use Rattle.sno_edit.specs.Utf8.{first_non_utf8};

use simdutf8::compat::from_utf8;

/// The first place at which a text is not UTF-8; `None` if it is UTF-8.
pub(crate) fn first_non_utf8(bytes: &[u8]) -> Option<usize>
    ensures place { result ≡ first_non_utf8 bytes.now }
    ensures within { IfSome result (λ place. place ≤ length bytes.now) }
{
    match from_utf8(bytes) {
        Ok(_) => None,
        Err(fault) => Some(fault.valid_up_to()),
    }
}
