//! Laws of the primitives. Each function does nothing: its contract is the law.
ghost use Rattle.sno_primitives.specs.Leaves.{ArbitraryEndsFollow};

/// The ends of `ARB` from a cursor of the text are that cursor and then its ends from the next cursor. Past the text there are no ends.
pub fn arbitrary_ends_follow_one_another()
    ensures { ArbitraryEndsFollow }
{}
