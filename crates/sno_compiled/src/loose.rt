//! A box as its pointer.
ghost use Rattle.std.specs.Prelude.{◌≡◌};

use std::alloc::Global;
use std::marker::Model;

/// A box as its pointer. It is taken back by [`Loose::into_box`].
#[derive(Drop)]
pub struct Loose<T> {
    /// Where the value lies.
    pub at: *mut T,
    /// The value.
    pub ghost value: { T },
}

impl<T> Model for Loose<T> {
    ghost use Rattle.std.specs.Box.Ownership.{box_owns};
    ghost use Rattle.sno_compiled.specs.Blocks.{chunk};

    ghost also_owns = { λ l. box_owns chunk T.row l.at l.value };
}

impl<T: Drop> Loose<T> {
    /// Takes a box apart.
    pub fn of(value: Box<T>) -> Loose<T>
        ensures { result.value ≡ value.value }
    {
        Loose {
            at: Box::into_raw(value),
        }
    }

    /// Makes it a box again, which frees its memory if it is dropped.
    pub fn into_box(self, alloc: Global) -> Box<T>
        ensures { result.value ≡ self.value }
    {
        let Loose { at } = self;
        unsafe { Box::from_raw(alloc, at) }
    }
}
