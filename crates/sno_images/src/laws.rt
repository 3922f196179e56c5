//! Laws of images. Each function does nothing: its contract is the law.
ghost use Rattle.sno_images.specs.Renumbering.{ImageNumbersAreFaithful, RenumberingKeepsTheOutcome, RenumberingKeepsTheTrials};

/// The most characters beyond ASCII that have a number of their own in an image.
pub const MAX_NAMED: usize = 127;

/// A match does the same if its characters have other numbers, as long as those of its literals and sets differ from all others, and
/// parentheses keep theirs.
pub fn renumbering_keeps_matches()
    ensures outcome { RenumberingKeepsTheOutcome }
    ensures trials { RenumberingKeepsTheTrials }
{}

/// The numbers of an image are such: one of its own for each ASCII character and for each of up to 127 others that literals and sets name,
/// and one for all that are left.
pub fn image_numbers_are_faithful()
    ensures { ImageNumbersAreFaithful }
{}
