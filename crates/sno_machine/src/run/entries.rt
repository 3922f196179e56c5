//! What the history of a match is made of.
ghost use Rattle.std.specs.Prelude.{◌<◌, ◌≤◌, ◌^◌, vec_capacity, vec_len};

use sno_pattern::Name;

/// A place of a match:
/// - the node that is next;
/// - the cursor;
/// - how many references deep the match may still go;
/// - the numbers of the list of frames and of the list of pending assignments.
#[derive(Clone, Copy)]
pub struct Place {
    pub node: u32,
    pub cursor: u32,
    pub frame: u32,
    pub pending: u32,
    pub depth: u32,
}

/// An entry of the history. A list of frames, or of pending assignments, is named by the number of entries at the time when its
/// first one was added; 0 is the empty list.
#[derive(Clone, Copy)]
pub enum Entry<'a> {
    /// A choice: when the match backs up, it goes on there.
    Choice(Place),
    /// The match is in a definition.
    Frame {
        /// The node with which the match goes on after the definition.
        node: u32,
        /// How many references deep it may go from there.
        depth: u32,
        /// The list of frames outside it.
        below: u32,
    },
    /// A part began here.
    Mark {
        /// Where it began.
        cursor: u32,
        /// The list of frames outside it.
        below: u32,
    },
    /// An assignment that is done if the whole match succeeds.
    Pending {
        start: u32,
        name: &'a Name,
        end: u32,
        /// The list of those before it.
        below: u32,
    },
}

/// What can still be taken back: entries, the oldest first. It takes memory only if there are more of them than ever before.
/// Beside them are the assignments that were gathered for a result, or the memory of an earlier one's.
#[derive(Drop)]
pub struct History<'a> {
    pub entries: Vec<Entry<'a>>,
    pub room: u32,
    /// How many entries there may be.
    pub most: u32,
    /// Whether there was to be one more than there may be.
    pub is_full: bool,
    pub gathered: Vec<(Name, usize, usize)>,
    ghost few: { vec_len entries ≤ room },
    ghost roomy: { room ≤ vec_capacity entries },
    ghost fits: { room < 2 ^ 32 },
    ghost bounded: { room ≤ most },
}
