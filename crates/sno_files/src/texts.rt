//! Which files are text.
ghost use Rattle.std.specs.Prelude.{◌≡◌, take};
ghost use Rattle.std.specs.List.{list_any};
ghost use Rattle.sno_files.specs.Texts.{is_nul, is_text};
ghost use Rattle.sno_files.specs.declared.texts.TheConstants.{LOOKED_AT};

use std::fs;
use std::fs::File;
use std::io::Read;
use std::rt::Files;

/// How many bytes of a file are looked at to know whether it is text.
pub(crate) const LOOKED_AT: usize = 8_192;

fn is_nul(byte: &u8) -> bool
    ensures { result ≡ is_nul byte.now }
{
    *byte == 0
}

/// Whether there is a NUL among these bytes.
fn has_nul(bytes: &[u8]) -> bool
    ensures { result ≡ list_any is_nul bytes.now }
{
    bytes.iter().any(|byte| is_nul(byte))
}

/// The bytes of a file that are looked at.
fn first_bytes(bytes: &[u8]) -> &[u8]
    ensures { result.now ≡ take LOOKED_AT bytes.now }
{
    if bytes.len() <= LOOKED_AT {
        return bytes;
    }
    let (first, _rest) = bytes.split_at(LOOKED_AT);
    first
}

/// Whether a file that begins with these bytes is text: there is no NUL in its first 8,192.
pub fn is_text(bytes: &[u8]) -> bool
    ensures { result ≡ is_text bytes.now }
{
    !has_nul(first_bytes(bytes))
}

/// Whether the file at a path is text. One that can't be read counts as text: what is wrong with it is found later.
pub(crate) fn is_text_at<R: Files>(rt: &R, path: &str) -> bool {
    let mut piece = [0; LOOKED_AT];
    let Ok(mut file) = fs::open(rt, path) else {
        return true;
    };
    match file.read(&mut piece) {
        Ok(count) => is_text(&piece[..count]),
        Err(_) => true,
    }
}
