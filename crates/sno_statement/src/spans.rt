//! What a search assigned, as spans of the bytes that were searched: nothing is cut from them.
ghost use Rattle.std.specs.Prelude.{◌≡◌, ◌+◌, ◌*◌, ◌≤◌, ◌<◌, ◌++◌, IfSome, IfNone, OnOk, length, map};
ghost use Rattle.std.specs.Option.{option_map};
ghost use Rattle.sno_pattern.specs.declared.byte_texts.TheConstants.{MAX_BYTES};
ghost use Rattle.sno_read.specs.ByteParts.{part_of};
ghost use Rattle.sno_statement.specs.Bindings.{lookup};
ghost use Rattle.sno_statement.specs.LastAssignments.{value_of_last, values_of_last};
ghost use Rattle.sno_statement.specs.Spans.{IsShort, value_lent};
ghost use Rattle.sno_statement.specs.Value.{part_value, string_of, value_of};

use crate::binding_refs::last_of;
use crate::last_assignments::Last;
use crate::lengths::decimal_length;
use crate::values::{between, put_number};
use sno_pattern::{MAX_BYTES, Name};
use sno_read::BytePart;
use std::alloc::{AllocError, Global};
use std::marker::Model;

/// The value of a variable, lent.
#[derive(Clone, Copy)]
pub enum SpanValue<'t> {
    /// A span of the bytes that were searched.
    Bytes(&'t [u8]),
    /// A number: a cursor.
    Number(u32),
}

impl<'t> SpanValue<'t> {
    /// The value of a last assignment.
    #[tactic(auto, using(crate::proofs::Ascii::short_part))]
    pub(crate) fn of(subject: &'t [u8], last: Last) -> SpanValue<'t>
        requires { length subject.now ≤ MAX_BYTES }
        ensures value { value_lent result ≡ value_of_last subject.now last }
        ensures short { IsShort result }
    {
        match last {
            Last::Part(from, to) => SpanValue::Bytes(between(subject, from, to)),
            Last::Cursor(cursor) => SpanValue::Number(cursor),
        }
    }
}

/// The variables that one search assigned. Their strings are spans of the bytes that were searched.
#[derive(Drop)]
pub(crate) struct Spans<'t> {
    subject: &'t [u8],
    assigned: &'t [(Name, Last)],
}

impl<'t> Model for Spans<'t> {
    ghost use Rattle.std.specs.Prelude.{List, ℕ, ◌≤◌, length};
    ghost use Rattle.sno_pattern.specs.declared.byte_texts.TheConstants.{MAX_BYTES};
    ghost use Rattle.sno_statement.specs.declared.binding.Datum.{Datum};
    ghost use Rattle.sno_statement.specs.LastAssignments.{values_of_last};

    ghost Value = { List (List ℕ × Datum) };

    ghost view = { λ s. values_of_last s.subject.now s.assigned.now };

    ghost invariant = { λ s. length s.subject.now ≤ MAX_BYTES };
}

impl<'t> Spans<'t> {
    /// The values of these last assignments, whose strings are spans of these bytes.
    pub(crate) fn of(subject: &'t [u8], assigned: &'t [(Name, Last)]) -> Spans<'t>
        requires { length subject.now ≤ MAX_BYTES }
        ensures { result ≡ values_of_last subject.now assigned.now }
    {
        Spans { subject, assigned }
    }

    /// The value of a variable; `None` if it was never assigned.
    #[tactic(auto, using(crate::proofs::LastValues::lookup_values))]
    fn value(&self, name: &Name) -> Option<SpanValue<'t>>
        ensures value { option_map value_lent result ≡ lookup name.now self.now }
        ensures short { IfSome result IsShort }
    {
        match last_of(self.assigned, name) {
            None => None,
            Some(last) => Some(SpanValue::of(self.subject, last)),
        }
    }

    /// How many bytes a part's value has.
    #[tactic(auto, using(crate::proofs::Decimals::few_digits))]
    fn part_length(&self, part: &BytePart) -> usize
        ensures value { result ≡ length (part_value self.now (part_of part.now)) }
        ensures short { result ≤ MAX_BYTES }
    {
        match part {
            BytePart::Quoted(text) => text.bytes().len(),
            BytePart::Var(name) => match self.value(name) {
                None => 0,
                Some(SpanValue::Bytes(bytes)) => bytes.len(),
                Some(SpanValue::Number(number)) => decimal_length(number),
            },
        }
    }

    /// This many bytes and those of the object's value; `None` if they are more than a text of bytes can have.
    pub(crate) fn length_with(&self, already: usize, parts: &[BytePart]) -> Option<usize>
        requires { already ≤ 2 * MAX_BYTES }
        ensures value { IfSome result (λ n. n ≡ already + length (value_of self.now (map part_of parts.now))) }
        ensures short { IfSome result (λ n. n ≤ MAX_BYTES) }
        ensures long { IfNone result (MAX_BYTES < already + length (value_of self.now (map part_of parts.now))) }
    {
        let mut total = already;
        for part in parts {
            if total > MAX_BYTES {
                return None;
            }
            total += self.part_length(part);
        }
        if total > MAX_BYTES { None } else { Some(total) }
    }

    /// Appends a variable's value.
    fn put_variable(&self, alloc: Global, name: &Name, out: &mut Vec<u8>) -> Result<(), AllocError>
        ensures { OnOk result (out.new.items ≡ out.old.items ++ string_of (lookup name.now self.now)) }
    {
        match self.value(name) {
            None => Ok(()),
            Some(SpanValue::Bytes(bytes)) => out.extend_from_slice(bytes),
            Some(SpanValue::Number(number)) => put_number(alloc, number, out),
        }
    }

    /// Appends a part's value.
    fn put_part(&self, alloc: Global, part: &BytePart, out: &mut Vec<u8>) -> Result<(), AllocError>
        ensures { OnOk result (out.new.items ≡ out.old.items ++ part_value self.now (part_of part.now)) }
    {
        match part {
            BytePart::Quoted(text) => out.extend_from_slice(text.bytes()),
            BytePart::Var(name) => self.put_variable(alloc, name, out),
        }
    }

    /// Appends the object's value: those of its parts, in order.
    pub(crate) fn put(
        &self,
        alloc: Global,
        parts: &[BytePart],
        out: &mut Vec<u8>,
    ) -> Result<(), AllocError>
        ensures { OnOk result (out.new.items ≡ out.old.items ++ value_of self.now (map part_of parts.now)) }
    {
        for part in parts {
            self.put_part(alloc, part, out)?;
        }
        Ok(())
    }
}
