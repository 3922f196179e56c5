//! A text that is searched more than once.
ghost use Rattle.std.specs.Prelude.{◌≡◌, ◌≤◌, length};
ghost use Rattle.sno_pattern.specs.declared.byte_texts.TheConstants.{MAX_BYTES};

use crate::run::learnt::Learnt;
use crate::workspace::Workspace;
use sno_pattern::{ByteText, Found, Text};
use std::alloc::Global;
use std::marker::Model;

/// How many entries the history of a match in a text of bytes should have at most: they take up to 128 MiB.
pub const MAX_KEPT: u32 = 4_194_304;

/// A text that is searched more than once. It has beside the text what searches have learnt of it, and the memory that they use
/// one after the other. So what one search learnt serves the next, and none of it changes a result.
#[derive(Drop)]
pub struct Searched<'t, 'a> {
    pub(crate) text: &'t [u8],
    pub(crate) learnt: Learnt<'t, 'a>,
    pub(crate) workspace: Workspace<'a>,
}

impl<'t, 'a> Model for Searched<'t, 'a> {
    ghost use Rattle.std.specs.Prelude.{ℕ, ◌≡◌, ◌≤◌, List, length};
    ghost use Rattle.sno_pattern.specs.declared.byte_texts.TheConstants.{MAX_BYTES};

    ghost Value = { List ℕ };

    ghost view = { λ s. s.text.now };

    ghost invariant = { λ s. (length s.text.now ≤ MAX_BYTES) × (s.learnt ≡ s.text.now) };
}

impl<'t, 'a> Searched<'t, 'a> {
    /// The text, with nothing learnt of it yet. It takes no memory.
    pub fn new(alloc: Global, text: &'t Text) -> Searched<'t, 'a>
        ensures { result ≡ text.now }
    {
        Searched::of(Workspace::new(alloc), text.bytes())
    }

    /// As [`Searched::new`], of a text of bytes. A search that would have to keep more than [`MAX_KEPT`] entries in its history is
    /// refused as out of memory, and then [`Searched::is_full`].
    pub fn of_bytes(alloc: Global, text: &'t ByteText) -> Searched<'t, 'a>
        ensures { result ≡ text.now }
    {
        Searched::of(Workspace::bounded(alloc, MAX_KEPT), text.bytes())
    }

    /// As [`Searched::of_bytes`], by the memory of a workspace, which says how many entries the history may have. It takes no memory.
    pub fn within(workspace: Workspace<'a>, text: &'t ByteText) -> Searched<'t, 'a>
        ensures { result ≡ text.now }
    {
        Searched::of(workspace, text.bytes())
    }

    /// The memory of its searches, for those in another text.
    pub fn into_workspace(self) -> Workspace<'a> {
        let Searched { workspace, .. } = self;
        workspace
    }

    /// Whether a search was refused since its history would have had too many entries, and not because memory ran out.
    pub fn is_full(&self) -> bool {
        self.workspace.is_full()
    }

    fn of(workspace: Workspace<'a>, text: &'t [u8]) -> Searched<'t, 'a>
        requires { length text.now ≤ MAX_BYTES }
        ensures { result ≡ text.now }
    {
        Searched {
            text,
            learnt: Learnt::nothing_of(text),
            workspace,
        }
    }

    /// The characters of the text.
    pub fn characters(&self) -> &'t [u8]
        ensures value { result.now ≡ self.now }
        ensures short { length self.now ≤ MAX_BYTES }
    {
        self.text
    }

    /// Takes the memory of a result back, for the conditional assignments of a later search.
    pub fn give_back(&mut self, found: Found)
        ensures { self.new ≡ self.old }
    {
        self.workspace.give_back(found);
    }
}
