//! The assignments of a search.
ghost use Rattle.std.specs.Prelude.{◌≡◌, ◌<◌, ◌≤◌, ◌↔◌, ◌++◌, length, drop, None};
ghost use Rattle.std.specs.Option.{option_copied};
ghost use Rattle.sno_c.specs.Assignments.{IsAssignmentCall, IsReported, assignment_seen, no_assignment};
ghost use Rattle.sno_c.specs.Kept.{held_in};
ghost use Rattle.sno_c.specs.Patterns.{pattern_in};

use crate::buffers::copy_to;
use crate::held::Held;
use crate::statuses::{CLOSED, DONE, NOTHING, TOO_SHORT};
use sno_pattern::{Assign, What};
use sno_seek::Seeker;

/// An assignment that a search did, without the name of its variable.
#[repr(C)]
#[derive(Clone, Copy, Debug, PartialEq, Eq)]
pub struct FoundAssignment {
    /// How many bytes the name of the variable has.
    pub name_length: usize,
    /// The cursor at which the assigned part begins, or the assigned cursor.
    pub start: usize,
    /// The cursor at which it ends, or the assigned cursor.
    pub end: usize,
    /// Whether a cursor was assigned, and not a part of the text.
    pub is_cursor: bool,
}

impl FoundAssignment {
    /// What is reported of nothing.
    pub(crate) fn none() -> FoundAssignment
        ensures { result ≡ no_assignment }
    {
        FoundAssignment {
            name_length: 0,
            start: 0,
            end: 0,
            is_cursor: false,
        }
    }

    fn of(assign: &Assign) -> FoundAssignment
        ensures { result ≡ assignment_seen assign.now }
    {
        let name_length = assign.name.bytes().len();
        match assign.what {
            What::Part(start, end) => FoundAssignment {
                name_length,
                start,
                end,
                is_cursor: false,
            },
            What::Cursor(cursor) => FoundAssignment {
                name_length,
                start: cursor,
                end: cursor,
                is_cursor: true,
            },
        }
    }
}

/// Reports an assignment, and puts the name of its variable in the buffer if there is room for it.
fn report(assign: &Assign, name: &mut [u8], found: &mut FoundAssignment) -> u8
    ensures { IsReported assign.now name.old name.new found.new result }
{
    *found = FoundAssignment::of(assign);
    let bytes = assign.name.bytes();
    if bytes.len() > name.len() {
        return TOO_SHORT;
    }
    copy_to(name, bytes);
    DONE
}

/// The pattern that is held, if it is one.
pub(crate) fn seeker_of(held: &Option<Box<Held>>) -> Option<&Seeker>
    ensures { option_copied result ≡ pattern_in (held_in held.now) }
{
    match held {
        Some(held) => match &**held {
            Held::Pattern(seeker) => Some(seeker),
            Held::Text(_) | Held::Book(_) => None,
        },
        None => None,
    }
}

/// Reports the assignment at a place of the last search for the pattern that is held. Refused if that is something else.
pub(crate) fn assignment_held(
    pattern: &Option<Box<Held>>,
    place: usize,
    name: &mut [u8],
    found: &mut FoundAssignment,
) -> u8
    ensures { IsAssignmentCall place (held_in pattern.now) name.old name.new found.new result }
{
    *found = FoundAssignment::none();
    let Some(seeker) = seeker_of(pattern) else {
        return CLOSED;
    };
    match seeker.assignment(place) {
        None => NOTHING,
        Some(assign) => report(&assign, name, found),
    }
}
