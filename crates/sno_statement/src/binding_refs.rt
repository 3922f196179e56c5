//! Variables and their values, lent.
ghost use Rattle.std.specs.Prelude.{◌≡◌, ◌≤◌, ◌↔◌, [], length, slice_get, IsTrue};
ghost use Rattle.std.specs.Option.{option_map};
ghost use Rattle.std.specs.List.{list_all};
ghost use Rattle.std.specs.Char.{is_ascii};
ghost use Rattle.sno_pattern.specs.Ends.{part};
ghost use Rattle.sno_pattern.specs.declared.texts.TheConstants.{MAX_TEXT};
ghost use Rattle.sno_statement.specs.Bindings.{lookup};
ghost use Rattle.sno_statement.specs.BindingRefs.{datum_lent};
ghost use Rattle.sno_statement.specs.LastAssignments.{values_of_last};

use crate::last_assignments::Last;
use crate::values::between;
use crate::{Bindings, Datum};
use sno_pattern::{Name, Text};
use std::marker::Model;

/// Characters of a text, lent: at most 65,536 ASCII characters.
#[derive(Drop)]
pub struct TextPart<'t> {
    characters: &'t [u8],
}

impl<'t> Model for TextPart<'t> {
    ghost use Rattle.std.specs.Prelude.{ℕ, List, length, ◌≤◌, IsTrue};
    ghost use Rattle.std.specs.List.{list_all};
    ghost use Rattle.std.specs.Char.{is_ascii};
    ghost use Rattle.sno_pattern.specs.declared.texts.TheConstants.{MAX_TEXT};

    ghost Value = { List ℕ };

    ghost view = { λ s. s.characters.now };

    ghost invariant = { λ s. (length s.characters.now ≤ MAX_TEXT) × IsTrue (list_all is_ascii s.characters.now) };
}

impl<'t> TextPart<'t> {
    /// All of a text.
    pub(crate) fn whole(text: &'t Text) -> TextPart<'t>
        ensures { result ≡ text.now }
    {
        TextPart {
            characters: text.bytes(),
        }
    }

    /// The part of a text between two cursors.
    pub(crate) fn between(text: &'t Text, from: usize, to: usize) -> TextPart<'t>
        ensures { result ≡ part text.now from to }
    {
        TextPart {
            characters: between(text.bytes(), from, to),
        }
    }

    /// The characters.
    pub fn bytes(&self) -> &'t [u8]
        ensures value { result.now ≡ self.now }
        ensures short { length self.now ≤ MAX_TEXT }
        ensures ascii { IsTrue (list_all is_ascii self.now) }
    {
        self.characters
    }
}

/// The value of a variable, lent.
#[derive(Drop)]
pub enum DatumRef<'t> {
    /// A string.
    Str(TextPart<'t>),
    /// A number: a cursor, at most 65,536.
    Int(u32),
}

impl<'t> DatumRef<'t> {
    /// A value that is kept as it is.
    fn of(datum: &'t Datum) -> DatumRef<'t>
        ensures { datum_lent result ≡ datum.now }
    {
        match datum {
            Datum::Str(text) => DatumRef::Str(TextPart::whole(text)),
            Datum::Int(number) => DatumRef::Int(*number),
        }
    }
}

/// Variables with their values, lent: those of a statement's outcome, or those of one of all its matches. They are in the order
/// of their first assignment. The methods take no memory.
#[derive(Drop)]
pub struct BindingsRef<'t> {
    lent: Lent<'t>,
}

/// What is lent.
#[derive(Clone, Copy)]
pub(crate) enum Lent<'t> {
    /// Values that are kept as they are.
    Kept(&'t Bindings),
    /// Last assignments, whose strings are in a text.
    Assigned(&'t Text, &'t [(Name, Last)]),
}

impl<'t> Model for BindingsRef<'t> {
    ghost use Rattle.std.specs.Prelude.{List, ℕ};
    ghost use Rattle.sno_statement.specs.declared.binding.Datum.{Datum};
    ghost use Rattle.sno_statement.specs.BindingRefs.{bindings_lent};

    ghost Value = { List (List ℕ × Datum) };

    ghost view = { λ s. bindings_lent s.lent };
}

impl<'t> BindingsRef<'t> {
    /// Bindings, lent.
    pub(crate) fn kept(bindings: &'t Bindings) -> BindingsRef<'t>
        ensures { result ≡ bindings.now }
    {
        BindingsRef {
            lent: Lent::Kept(bindings),
        }
    }

    /// The values of these last assignments, whose strings are in the text.
    pub(crate) fn assigned(subject: &'t Text, assigned: &'t [(Name, Last)]) -> BindingsRef<'t>
        ensures { result ≡ values_of_last subject.now assigned.now }
    {
        BindingsRef {
            lent: Lent::Assigned(subject, assigned),
        }
    }

    /// How many variables there are.
    pub fn len(&self) -> usize
        ensures { result ≡ length self.now }
    {
        match self.lent {
            Lent::Kept(bindings) => bindings.len(),
            Lent::Assigned(_, assigned) => assigned.len(),
        }
    }

    /// Whether there are no variables.
    pub fn is_empty(&self) -> bool
        ensures { IsTrue result ↔ (self.now ≡ []) }
    {
        self.len() == 0
    }

    /// The variable at a place in the order of first assignments, counted from 0, with its value; `None` from [`BindingsRef::len`]
    /// on.
    pub fn get(&self, place: usize) -> Option<(&'t Name, DatumRef<'t>)>
        ensures { option_map (λ b. (b.0.now, datum_lent b.1)) result ≡ slice_get self.now place }
    {
        match self.lent {
            Lent::Kept(bindings) => {
                let (name, datum) = bindings.get(place)?;
                Some((name, DatumRef::of(datum)))
            }
            Lent::Assigned(subject, assigned) => {
                let (name, last) = assigned.get(place)?;
                Some((name, last.lent(subject)))
            }
        }
    }

    /// The value of a variable; `None` if it was never assigned.
    #[tactic(auto, using(crate::proofs::LastValues::lookup_values))]
    pub fn value(&self, name: &Name) -> Option<DatumRef<'t>>
        ensures { option_map datum_lent result ≡ lookup name.now self.now }
    {
        match self.lent {
            Lent::Kept(bindings) => Some(DatumRef::of(bindings.value(name)?)),
            Lent::Assigned(subject, assigned) => match last_of(assigned, name) {
                None => None,
                Some(last) => Some(last.lent(subject)),
            },
        }
    }
}

/// The last assignment of the variable with this name.
pub(crate) fn last_of(assigned: &[(Name, Last)], name: &Name) -> Option<Last>
    ensures { result ≡ lookup name.now assigned.now }
{
    for (known, last) in assigned {
        if name == known {
            return Some(*last);
        }
    }
    None
}
