//! Laws of passes. Each function does nothing: its contract is the law.
ghost use Rattle.sno_statement.specs.Laws.{FirstIsThePlainMatch, KeptMatchesKeepTheText, MatchesAreInOrder};

/// All matches of a statement are in order, lie in the text, and don't overlap.
pub fn matches_are_in_order()
    ensures { MatchesAreInOrder }
{}

/// The first of all matches is that of the same statement which isn't for all matches, with its bindings. There is none exactly
/// if that statement fails.
pub fn the_first_is_the_plain_match()
    ensures { FirstIsThePlainMatch }
{}

/// If the object puts each match back as it was, the new text is the old one.
pub fn kept_matches_keep_the_text()
    ensures { KeptMatchesKeepTheText }
{}
