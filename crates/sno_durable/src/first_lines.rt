//! The first line of a store, cut while it was written.

/// How the first line of each store begins.
const BEGINNING: &[u8] = b"{\"document\":\"";

/// What the first line of a store that goes on from others has, and no other one: a string of JSON has no quote without a sign before it.
const LATER: &[u8] = b"\",\"made_of\":\"";

/// Whether bytes, none of which is of a whole line, begin as the first line of a store does, or with zeros.
fn begins_as_first_line(bytes: &[u8]) -> bool {
    for (place, byte) in BEGINNING.iter().enumerate() {
        match bytes.get(place) {
            Some(found) if found == byte || *found == 0 => {}
            _ => return false,
        }
    }
    true
}

/// Whether the bytes have these somewhere.
fn has(bytes: &[u8], wanted: &[u8]) -> bool {
    for place in 0..bytes.len() {
        if bytes.split_at(place).1.starts_with(wanted) {
            return true;
        }
    }
    false
}

/// Whether a file of these bytes, which has no whole line, is what a crash leaves of the first line of a store that was made of a document.
/// Nobody was ever shown anything of it. A store that goes on from others is never left so: it is on the disk before it has its name.
pub(crate) fn is_cut_first_line(bytes: &[u8]) -> bool {
    begins_as_first_line(bytes) && !has(bytes, LATER)
}
