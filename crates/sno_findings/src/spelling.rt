//! The known name that is nearest to a word.

use std::alloc::{AllocError, Global};
use strsim::osa_distance;

/// The longest word whose nearest name is sought, in bytes.
const MAX_WORD: usize = 256;

/// How many edits lead from the word to the name, with letters of either case alike.
fn edits(alloc: Global, word: &str, name: &str) -> Result<usize, AllocError> {
    if word.eq_ignore_ascii_case(name) {
        return Ok(0);
    }
    osa_distance(alloc, word, name)
}

/// The first of the names that are nearest to the word, if it is near enough to be meant: at most one edit for each three
/// bytes of the word. Refused only if memory runs out.
pub fn nearest<'n>(
    alloc: Global,
    word: &str,
    names: &[&'n str],
) -> Result<Option<&'n str>, AllocError> {
    if word.len() > MAX_WORD {
        return Ok(None);
    }
    let mut found = None;
    let mut fewest = word.len() / 3 + 1;
    for name in names {
        let count = edits(alloc, word, name)?;
        if count < fewest {
            found = Some(*name);
            fewest = count;
        }
    }
    Ok(found)
}
