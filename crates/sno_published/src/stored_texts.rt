//! Texts with their versions, as a table keeps them: each at the place of its name.
ghost use Rattle.std.specs.Prelude.{◌≡◌, ◌<◌, ◌≤◌, ℕ, List, ◌++◌, ◌∷◌, [], IfOk, MatchResult, Some, length, slice_get};
ghost use Rattle.std.specs.Arc.{arc_value};
ghost use Rattle.std.specs.Option.{option_map};
ghost use Rattle.sno_pattern.specs.NameList.{place_of};
ghost use Rattle.sno_book.specs.States.{renew};
ghost use Rattle.sno_book.specs.Entries.{Entry as Accepted};
ghost use Rattle.sno_book.specs.Journals.{HasStep, replay};
ghost use Rattle.sno_book.specs.Openings.{Opening as Start, place_in, start};
ghost use Rattle.sno_book.specs.Entries.{after_of};
ghost use Rattle.sno_book.specs.Starts.{first_contents};
ghost use Rattle.sno_published.specs.StoredTexts.{IsReplay, contents, named};

use sno_book::{Opening, Text};
use std::alloc::{AllocError, Global};
use std::sync::Arc;

/// A text with its version.
#[derive(Drop)]
pub(crate) struct StoredText {
    pub(crate) text: Arc<Text>,
    pub(crate) version: u64,
}

/// A share of the text at a place of an opening.
fn first_text(opening: &Opening, place: usize) -> Result<Arc<Text>, AllocError>
    requires { place < length opening.now.texts }
    ensures { IfOk result (λ text. option_map (λ t. t.1) (slice_get opening.now.texts place) ≡ Some (arc_value text)) }
{
    match opening.row(place) {
        Some((_, text)) => Arc::try_clone(text),
        None => Err(AllocError),
    }
}

/// Shares of the texts of an opening, at version 0.
pub(crate) fn first_texts(alloc: Global, opening: &Opening) -> Result<Vec<StoredText>, AllocError>
    ensures { IfOk result (λ stored. contents stored.items ≡ first_contents opening.now.texts) }
{
    let mut stored = Vec::new(alloc);
    for place in 0..opening.len() {
        let text = first_text(opening, place)?;
        stored.push(StoredText { text, version: 0 })?;
    }
    Ok(stored)
}

/// The text at a place. `None` past the last one.
pub(crate) fn stored_at(stored: &[StoredText], place: usize) -> Option<&StoredText>
    ensures { option_map (λ s. s.now) result ≡ slice_get stored.now place }
{
    stored.get(place)
}

/// The version of the text at a place.
fn version_at(stored: &[StoredText], place: usize) -> u64
    requires { place < length stored.now }
    ensures { option_map (λ s. s.version) (slice_get stored.now place) ≡ Some result }
{
    stored[place].version
}

/// Puts a new text in place of the one at a place. Its version is one higher.
fn put(stored: &mut Vec<StoredText>, place: usize, text: Arc<Text>) -> Result<(), AllocError>
    requires inside { place < length stored.old.items }
    ensures put { MatchResult result (λ _. (names : List (List ℕ)) → (name : List ℕ) → place_of names name ≡ Some place
        → named names stored.new.items ≡ renew name (arc_value text) (named names stored.old.items)) (λ _. stored.new.items ≡ stored.old.items) }
    ensures as_many { length stored.new.items ≡ length stored.old.items }
{
    let Some(version) = version_at(stored, place).checked_add(1) else {
        return Err(AllocError);
    };
    stored[place] = StoredText { text, version };
    Ok(())
}

/// Puts the new text of an entry, if it has one, in place of the text of its statement, which is at this place.
pub(crate) fn renew(
    stored: &mut Vec<StoredText>,
    place: usize,
    text: Option<&Arc<Text>>,
) -> Result<(), AllocError>
    requires { place < length stored.old.items }
    ensures { MatchResult result (λ _. (opening : Start) → (entries : List Accepted) → (entry : Accepted) → option_map (λ t. arc_value t.now) text.entry ≡ after_of entry.outcome
        → place_in opening entry.statement.text ≡ Some place → IsReplay opening entries stored.old.items → HasStep (replay (start opening) entries) entry
        → IsReplay opening (entries ++ entry ∷ []) stored.new.items) (λ _. stored.new.items ≡ stored.old.items) }
{
    match text {
        None => Ok(()),
        Some(text) => {
            put(stored, place, Arc::try_clone(text)?)?;
            Ok(())
        }
    }
}
