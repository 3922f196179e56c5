//! Whether a pattern may find again what an object puts in.

ghost use Rattle.std.specs.Prelude.{◌≤◌};

use sno_pattern::{Class, Name, Pattern};
use sno_read::{ByteObject, BytePart};

/// How many parts of the patterns are looked at: definitions that name one another could give far more.
const MOST_PARTS: u32 = 10_000;

/// Whether the literal is in a quoted part of the object.
fn has_literal(object: &ByteObject, sought: &[u8]) -> bool {
    if sought.is_empty() {
        return true;
    }
    for part in object.parts() {
        if let BytePart::Quoted(text) = part {
            if text
                .bytes()
                .windows(sought.len())
                .any(|characters| characters == sought)
            {
                return true;
            }
        }
    }
    false
}

/// Whether a quoted part of the object has a character that is in the set, or one that isn't.
fn has_character(object: &ByteObject, set: &Class, inside: bool) -> bool {
    for part in object.parts() {
        if let BytePart::Quoted(text) = part {
            if text
                .bytes()
                .iter()
                .any(|character| set.has(*character) == inside)
            {
                return true;
            }
        }
    }
    false
}

/// Whether the object puts the variable's value back.
fn has_variable(object: &ByteObject, variable: &Name) -> bool {
    for part in object.parts() {
        if let BytePart::Var(name) = part {
            if name.bytes() == variable.bytes() {
                return true;
            }
        }
    }
    false
}

/// Whether each part that the pattern needs may be found in what the object puts in: a literal in its literals, a character of a
/// set there too, and a part whose variable the object has in that variable's value. What has no characters of its own is found
/// anywhere.
pub(crate) fn may_find_again(
    bodies: &[Option<&Pattern>],
    pattern: &Pattern,
    object: &ByteObject,
) -> bool {
    let mut search = PartSearch {
        bodies,
        object,
        room: MOST_PARTS,
    };
    search.may_find(pattern)
}

/// What the parts are looked for in, and how many more are looked at.
#[derive(Drop)]
struct PartSearch<'a> {
    bodies: &'a [Option<&'a Pattern>],
    object: &'a ByteObject,
    room: u32,
}

impl<'a> PartSearch<'a> {
    fn may_find(&mut self, pattern: &Pattern) -> bool
        ensures less { self.new.room ≤ self.old.room }
    {
        if self.room == 0 {
            return false;
        }
        self.room -= 1;
        match pattern {
            Pattern::Lit(text) => has_literal(self.object, text.bytes()),
            Pattern::Bytes(text) => has_literal(self.object, text.bytes()),
            Pattern::AnyOf(set) | Pattern::Span(set) => has_character(self.object, set, true),
            Pattern::NoneOf(set) => has_character(self.object, set, false),
            Pattern::Seq(first, second) => self.may_find(first) && self.may_find(second),
            Pattern::Alt(first, second) => self.may_find(first) || self.may_find(second),
            Pattern::Cond(part, name) | Pattern::Imm(part, name) => {
                has_variable(self.object, name) || self.may_find(part)
            }
            Pattern::Ref(number) => match self.bodies.get(*number) {
                Some(Some(body)) => self.may_find(body),
                _ => false,
            },
            Pattern::Abort | Pattern::Fail => false,
            _ => true,
        }
    }
}
