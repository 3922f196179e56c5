//! Where bytes stop being JSON, and what is wanted there.

use crate::excerpts::{around, position_of};
use crate::json_walk::{Due, Walk};
use crate::{Mistake, Place};
use json::{Reader, Scratch, Token};
use sno_document::DocumentFault;
use std::alloc::{AllocError, Global};

const BYTE_ORDER_MARK: &[u8] = b"\xEF\xBB\xBF";

/// Where a text stops being JSON.
#[derive(Clone, Copy)]
struct Trouble {
    /// How many bytes come before.
    offset: usize,
    /// What is wanted there.
    wanted: &'static str,
}

fn is_space(byte: u8) -> bool {
    byte == b' ' || byte == b'\t' || byte == b'\n' || byte == b'\r'
}

/// The last byte before `offset` that is not a space or a line end.
fn sign_before(bytes: &[u8], offset: usize) -> Option<u8> {
    let mut found = None;
    for byte in bytes.iter().take(offset) {
        if !is_space(*byte) {
            found = Some(*byte);
        }
    }
    found
}

/// Whether a value or a name may come after this sign.
fn opens(sign: Option<u8>) -> bool {
    matches!(sign, None | Some(b',' | b':' | b'[' | b'{'))
}

/// What is wrong in the string whose quote comes after `offset` bytes.
fn string_trouble(bytes: &[u8], offset: usize) -> Trouble {
    let mut escaped = false;
    for (at, byte) in bytes.iter().enumerate().skip(offset.saturating_add(1)) {
        if escaped {
            escaped = false;
            if !b"\"\\/bfnrtu".contains(byte) {
                return Trouble {
                    offset: at,
                    wanted: "after \\ comes one of \" \\ / b f n r t u; a backslash is written \\\\",
                };
            }
        } else if *byte < b' ' {
            return Trouble {
                offset: at,
                wanted: "in a string a line end is written \\n, and a tab \\t",
            };
        } else if *byte == b'"' {
            return Trouble {
                offset,
                wanted: "after \\u come four hexadecimal digits, and for a surrogate its other half",
            };
        } else {
            escaped = *byte == b'\\';
        }
    }
    Trouble {
        offset,
        wanted: "this string isn't closed",
    }
}

/// What is wanted instead of what begins with this byte.
fn wanted_for(byte: u8, before: Option<u8>, due: Due) -> &'static str {
    match byte {
        b'/' | b'#' => "JSON has no comments",
        _ if due == Due::Nothing => due.wanted(),
        b'\'' => "strings are written between \" and \"",
        b'}' | b']' => "no comma comes before } and ]",
        b'A'..=b'Z' | b'a'..=b'z' if before == Some(b'"') => {
            "a \" within a string is written \\\""
        }
        b'A'..=b'Z' | b'a'..=b'z' => {
            "strings and names are written between \" and \"; other words are true, false and null"
        }
        b'+' | b'-' | b'.' | b'0'..=b'9' if opens(before) => {
            "a number has no + and no further zero in front"
        }
        128..=255 => "outside of strings all is ASCII; strings are written between \" and \"",
        _ if !opens(before) => "a comma or a closing bracket is wanted before this",
        _ => due.wanted(),
    }
}

/// The trouble at the lexeme after `offset` bytes, which isn't one of JSON.
fn lexeme_trouble(bytes: &[u8], offset: usize, due: Due) -> Trouble {
    let before = sign_before(bytes, offset);
    match bytes.get(offset) {
        Some(b'"') if opens(before) => string_trouble(bytes, offset),
        Some(_) if offset == 0 && bytes.starts_with(BYTE_ORDER_MARK) => Trouble {
            offset,
            wanted: "the file begins with a byte order mark (U+FEFF); save it without",
        },
        Some(byte) => Trouble {
            offset,
            wanted: wanted_for(*byte, before, due),
        },
        None => Trouble {
            offset,
            wanted: due.wanted(),
        },
    }
}

/// Where the text stops being JSON, if it does.
fn trouble_in(alloc: Global, text: &str) -> Result<Option<Trouble>, AllocError> {
    let mut scratch = Scratch::new(alloc);
    let mut reader = Reader::new(text, &mut scratch)?;
    let mut walk = Walk::new(alloc);
    for _ in 0..u64::MAX {
        let offset = reader.offset();
        let Some(token) = reader.next() else {
            break;
        };
        if let Token::Bad = token {
            return Ok(Some(lexeme_trouble(text.as_bytes(), reader.offset(), walk.due)));
        }
        let offset = if walk.wants_colon(&token) {
            reader.offset()
        } else {
            offset
        };
        if let Some(wanted) = walk.take(&token)? {
            return Ok(Some(Trouble { offset, wanted }));
        }
    }
    Ok(match walk.due {
        Due::Nothing => None,
        due => Some(Trouble {
            offset: text.len(),
            wanted: due.wanted(),
        }),
    })
}

/// Where bytes that are not UTF-8 stop being it. `valid` is what comes before.
fn utf8_trouble(valid: &str) -> Trouble {
    Trouble {
        offset: valid.len(),
        wanted: "a document is in UTF-8; save it so",
    }
}

fn mistake_at(alloc: Global, text: &str, trouble: Trouble) -> Result<Mistake, AllocError> {
    let found = position_of(text, trouble.offset);
    let excerpt = around(alloc, text, found.start, trouble.offset)?;
    let advice = format!(in alloc;
        "line {}, column {}: {}",
        found.line, found.column, trouble.wanted
    )?;
    Ok(Mistake {
        fault: DocumentFault::NotJson,
        place: Place::Document,
        line: Some(found.line),
        excerpt: Some(excerpt),
        advice,
    })
}

/// Where bytes stop being JSON in UTF-8, if they do. Refused only if memory runs out.
pub fn json_mistake(alloc: Global, bytes: &[u8]) -> Result<Option<Mistake>, AllocError> {
    match str::from_utf8(bytes) {
        Ok(text) => match trouble_in(alloc, text)? {
            Some(trouble) => Ok(Some(mistake_at(alloc, text, trouble)?)),
            None => Ok(None),
        },
        Err(_) => {
            let valid = match bytes.utf8_chunks().next() {
                Some(chunk) => chunk.valid(),
                None => "",
            };
            Ok(Some(mistake_at(alloc, valid, utf8_trouble(valid))?))
        }
    }
}
