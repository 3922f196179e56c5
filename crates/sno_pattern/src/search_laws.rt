//! Laws of searches from a cursor on. Each function does nothing: its contract is the law.
ghost use Rattle.sno_pattern.specs.SearchLaws.{SearchFromTheFirst, SearchesLieWithin};

/// A search from cursor 0 on is a match, and takes its trials.
pub fn a_search_from_the_first_cursor_is_a_match()
    ensures { SearchFromTheFirst }
{}

/// A match that a search finds lies from the search's cursor on and within the text, and so does each cursor that it assigns.
pub fn searches_lie_within_the_text()
    ensures { SearchesLieWithin }
{}
