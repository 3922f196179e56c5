//! Handles.
ghost use Rattle.std.specs.Prelude.{◌≡◌, None, is_some};
ghost use Rattle.sno_c.specs.Kept.{held_in};

use crate::held::Held;
use crate::kept::Kept;
use sno_compiled::Loose;
use std::alloc::Global;
use std::mem;

/// A place in the memory of a caller, which holds something or is closed. One whose bytes are all 0 is closed.
#[repr(C)]
#[derive(Drop)]
pub struct Handle {
    pub kept: Kept,
    is_open: bool,
    ghost agree: { is_open ≡ is_some kept.value },
}

impl Handle {
    fn closed() -> Handle
        ensures { result.kept.value ≡ None }
    {
        Handle {
            kept: Kept::nothing(),
            is_open: false,
        }
    }

    /// Takes out what the handle holds, if it is open. Then it is closed.
    pub(crate) fn take(&mut self, alloc: Global) -> Option<Box<Held>>
        ensures taken { held_in result ≡ self.old.kept.value }
        ensures closed { self.new.kept.value ≡ None }
    {
        let Handle { kept, is_open } = mem::replace(self, Handle::closed());
        if is_open {
            Some(kept.into_loose().into_box(alloc))
        } else {
            None
        }
    }

    /// Puts something into a handle that is closed; with `None` it stays so.
    pub(crate) fn put(&mut self, held: Option<Box<Held>>)
        requires { self.old.kept.value ≡ None }
        ensures { self.new.kept.value ≡ held_in held }
    {
        if let Some(held) = held {
            *self = Handle {
                kept: Kept::of(Loose::of(held)),
                is_open: true,
            };
        }
    }
}
