//! Objects: what replaces the matched part.
ghost use Rattle.std.specs.Prelude.{◌≡◌, map};
ghost use Rattle.sno_read.specs.ByteParts.{part_of};

use sno_pattern::{ByteText, Name, Text};
use std::marker::Model;

/// One part of an object.
#[derive(Debug, PartialEq, Eq, Drop)]
pub enum Part {
    /// The characters of a literal.
    Quoted(Text),
    /// A variable, which represents its value.
    Var(Name),
}

/// What replaces the matched part: the values of its parts, joined.
#[derive(Debug, Drop)]
pub struct Object {
    parts: Vec<Part>,
}

impl Model for Object {
    ghost use Rattle.std.specs.Prelude.{List};
    ghost use Rattle.sno_read.specs.declared.objects.Part.{Part};

    ghost Value = { List Part };

    ghost view = { λ s. s.parts.items };
}

impl Object {
    /// The object of these parts. It takes no memory.
    pub fn of(parts: Vec<Part>) -> Object
        ensures { result ≡ parts.items }
    {
        Object { parts }
    }

    /// The parts, in their order.
    pub fn parts(&self) -> &[Part]
        ensures { result.now ≡ self.now }
    {
        self.parts.as_slice()
    }
}

/// One part of an object of a rule for files.
#[derive(Debug, PartialEq, Eq, Drop)]
pub enum BytePart {
    /// The bytes of a literal.
    Quoted(ByteText),
    /// A variable, which represents its value.
    Var(Name),
}

/// What replaces the matched part of a file: the values of its parts, joined. Its literals may have any bytes.
#[derive(Debug, Drop)]
pub struct ByteObject {
    parts: Vec<BytePart>,
}

impl Model for ByteObject {
    ghost use Rattle.std.specs.Prelude.{List, map};
    ghost use Rattle.sno_read.specs.ByteParts.{part_of};
    ghost use Rattle.sno_read.specs.declared.objects.Part.{Part};

    ghost Value = { List Part };

    ghost view = { λ s. map part_of s.parts.items };
}

impl ByteObject {
    /// The object of these parts. It takes no memory.
    pub fn of(parts: Vec<BytePart>) -> ByteObject
        ensures { result ≡ map part_of parts.items }
    {
        ByteObject { parts }
    }

    /// The parts, in their order.
    pub fn parts(&self) -> &[BytePart]
        ensures { map part_of result.now ≡ self.now }
    {
        &self.parts
    }
}
