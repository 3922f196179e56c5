//! Laws of noted events, each the contract of a function that does nothing.
ghost use Rattle.sno_trace.specs.Promise.{NotesComeOff, NotesAreHonest, ShownIsTheMatch, ShownIsAFront, ShownIsFull};

/// With its notes taken off, what a pattern does from a cursor is the definition's list of events.
pub fn notes_come_off()
    ensures { NotesComeOff }
{}

/// A trial ends at one of the leaf's ends at its cursor, in their order, and fails only if there is none.
pub fn notes_are_honest()
    ensures { NotesAreHonest }
{}

/// If the trials of a match fit into the limit, what is shown is the match, up to the event that ends it.
pub fn what_is_shown_is_the_match()
    ensures { ShownIsTheMatch }
{}

/// What is shown before a Stop begins the match.
pub fn what_is_shown_begins_the_match()
    ensures { ShownIsAFront }
{}

/// If the trials of a match don't fit into the limit, as many are shown as it allows.
pub fn a_limit_is_used_up()
    ensures { ShownIsFull }
{}
