//! The definitions that sets use. A set is spelled out, so what is spelled doesn't mention them.

use crate::spelled_lines::SpelledLines;
use sno_findings::bit;

/// The definitions that are sets and that a rule or a definition mentions: a bit for each of the first 64.
pub fn used_by_sets(lines: &SpelledLines<'_>) -> u64 {
    let mut used = 0;
    for (place, definition) in lines.definitions.iter().enumerate() {
        if definition.in_sets {
            used = used | bit(place);
        }
    }
    used
}
