//! Memory that matches use one after the other.
use crate::run::entries::History;
use sno_pattern::Found;
use std::alloc::Global;

/// Memory that matches use one after the other. A match needs room for what it may back up to, and its result for its
/// conditional assignments. With a workspace it uses the room that earlier matches needed, and takes memory only if it needs more.
///
/// A workspace is for one match at a time. It may serve any codes, and changes no result. It keeps as much memory as the match
/// that needed the most, until it is dropped.
#[derive(Drop)]
pub struct Workspace<'a> {
    pub(crate) history: History<'a>,
}

impl<'a> Workspace<'a> {
    /// A workspace without any memory yet.
    pub fn new(alloc: Global) -> Workspace<'a> {
        Workspace::bounded(alloc, u32::MAX)
    }

    /// A workspace without any memory yet, for matches that keep at most this many entries in their history. A match that would
    /// have to keep more is refused as out of memory, and then the workspace [is full](Workspace::is_full).
    pub fn bounded(alloc: Global, most: u32) -> Workspace<'a> {
        Workspace {
            history: History::of(alloc, most),
        }
    }

    /// Whether a match was refused since its history would have had too many entries, and not because memory ran out.
    pub fn is_full(&self) -> bool {
        self.history.is_full
    }

    /// Takes the memory of a result back, for the conditional assignments of a later match.
    pub fn give_back(&mut self, found: Found) {
        let Found { end, .. } = found;
        if let Some(hit) = end {
            self.history.gathered = hit.conds.into_parts();
        }
    }
}
