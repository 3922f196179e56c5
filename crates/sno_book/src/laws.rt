//! Laws of the definitions, for callers that build on a book. The functions do nothing; each contract is the law.
ghost use Rattle.sno_book.specs.Laws.{VersionsOnlyRise, VersionsOnlyRiseInPlace, RelatedAgree, VersionsCountEntries, FreshIsFree, FreshIsRelated};

/// In a later view each text has a version that is no lower. If the version is the same, so are the characters.
#[tactic(auto, using(crate::proofs::Rising::versions_only_rise))]
pub fn versions_only_rise()
    ensures { VersionsOnlyRise }
{}

/// The same law for the texts at one place.
#[tactic(auto, using(crate::proofs::Rising::versions_only_rise_in_place))]
pub fn versions_only_rise_in_place()
    ensures { VersionsOnlyRiseInPlace }
{}

/// If one of two views begins the other, the texts at one place with the same version have the same characters.
#[tactic(auto, using(crate::proofs::Rising::related_agree))]
pub fn related_agree()
    ensures { RelatedAgree }
{}

/// A version rises only with an entry, so no version is above the number of entries.
#[tactic(auto, using(crate::proofs::Rising::versions_count_entries))]
pub fn versions_count_entries()
    ensures { VersionsCountEntries }
{}

/// If the text is still as the snapshot has it and the journal is not full, the proposal is accepted, out of memory
/// aside.
#[tactic(auto, using(crate::proofs::Fresh::fresh_is_free))]
pub fn fresh_is_free()
    ensures { FreshIsFree }
{}

/// A proposal on a snapshot of the book as it is now has the book's view.
#[tactic(auto, using(crate::proofs::Fresh::fresh_is_related))]
pub fn fresh_is_related()
    ensures { FreshIsRelated }
{}
