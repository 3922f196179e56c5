//! Texts with their versions, as a book keeps them: each at the place of its name.
ghost use Rattle.std.specs.Prelude.{◌≡◌, ◌<◌, ◌+◌, ◌^◌, ℕ, List, Some, length, slice_get};
ghost use Rattle.std.specs.Option.{option_map};
ghost use Rattle.std.specs.Arc.{arc_value};
ghost use Rattle.sno_pattern.specs.NameList.{place_of};
ghost use Rattle.sno_book.specs.States.{renew_by};
ghost use Rattle.sno_book.specs.VersionedTexts.{with_names};
ghost use Rattle.sno_book.specs.declared.versioned_texts.VersionedText.{VersionedText};

use sno_pattern::Text;
use std::sync::Arc;

/// A text with its version.
#[derive(Drop)]
pub(crate) struct VersionedText {
    pub(crate) text: Arc<Text>,
    pub(crate) version: u64,
}

/// The text at a place.
pub(crate) fn text_at(versioned_texts: &[VersionedText], place: usize) -> &VersionedText
    requires { place < length versioned_texts.now }
    ensures { slice_get versioned_texts.now place ≡ Some result.now }
{
    &versioned_texts[place]
}

/// Puts the new text, if there is one, in place of the one at a place; its version is one higher.
#[tactic(auto, using(crate::proofs::Places::renewed))]
pub(crate) fn put(versioned_texts: &mut Vec<VersionedText>, place: usize, after: Option<Arc<Text>>)
    requires inside { place < length versioned_texts.old.items }
    requires small { (s : VersionedText) → slice_get versioned_texts.old.items place ≡ Some s → s.version + 1 < 2 ^ 64 }
    ensures put { (names : List (List ℕ)) → (name : List ℕ) → place_of names name ≡ Some place
        → with_names names versioned_texts.new.items ≡ renew_by name (option_map arc_value after) (with_names names versioned_texts.old.items) }
    ensures as_many { length versioned_texts.new.items ≡ length versioned_texts.old.items }
{
    if let Some(text) = after {
        let version = text_at(versioned_texts, place).version + 1;
        versioned_texts[place] = VersionedText { text, version };
    }
}
