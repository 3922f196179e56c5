//! A law of cursors. The function does nothing: its contract is the law.
ghost use Rattle.sno_pattern.specs.CursorLaws.{CursorsLieWithin};

/// A cursor that a match assigns, by `@V`, is a cursor of the text.
pub fn cursors_lie_within_the_text()
    ensures { CursorsLieWithin }
{}
