//! A box as its pointer, of a type that C doesn't know.
ghost use Rattle.sno_c.specs.Kept.{held_coded};
ghost use Rattle.sno_c.specs.declared.held.Held.{Held};
ghost use Rattle.std.specs.Prelude.{◌≡◌, Option, None, Some, is_some, true};

use crate::held::Held;
use sno_compiled::Loose;
use std::marker::Model;

/// A box without its type, or nothing.
#[repr(C)]
#[derive(Drop)]
pub struct Kept {
    at: *mut u8,
    pub ghost value: { Option Held } by { held_coded },
}

impl Model for Kept {
    ghost use Rattle.std.specs.Prelude.{Option};
    ghost use Rattle.sno_c.specs.Kept.{kept_at};

    ghost also_owns = { λ k. kept_at k.at k.value };
}

impl Kept {
    pub(crate) fn nothing() -> Kept
        ensures { result.value ≡ None }
    {
        Kept {
            at: std::ptr::null_mut(),
        }
    }

    pub(crate) fn of(value: Loose<Held>) -> Kept
        ensures { result.value ≡ Some value.value }
    {
        let Loose { at } = value;
        Kept { at: at as *mut u8 }
    }

    pub(crate) fn into_loose(self) -> Loose<Held>
        requires { is_some self.value ≡ true }
        ensures { Some result.value ≡ self.value }
    {
        let Kept { at } = self;
        Loose {
            at: at as *mut Held,
        }
    }
}

// What it holds may go to another thread.
unsafe impl Send for Kept {}
