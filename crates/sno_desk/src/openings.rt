//! Openings, compared by value.
ghost use Rattle.std.specs.Prelude.{◌≡◌, ◌↔◌, IsTrue, slice_get};

use sno_book::Opening;

/// Whether the rows at a place of two openings are the same by value: name and characters.
fn same_row(one: &Opening, other: &Opening, place: usize) -> bool
    ensures { IsTrue result ↔ slice_get one.now.texts place ≡ slice_get other.now.texts place }
{
    match (one.row(place), other.row(place)) {
        (Some((name, text)), Some((its_name, its_text))) => {
            name.bytes() == its_name.bytes() && text.bytes() == its_text.bytes()
        }
        (None, None) => true,
        (Some(_), None) | (None, Some(_)) => false,
    }
}

/// Whether two openings are the same by value: texts and room.
#[tactic(auto, using(crate::proofs::OpeningLemmas::same_opening))]
pub(crate) fn is_same(one: &Opening, other: &Opening) -> bool
    ensures { IsTrue result ↔ one.now ≡ other.now }
{
    if one.room() != other.room() || one.len() != other.len() {
        return false;
    }
    for place in 0..one.len() {
        if !same_row(one, other, place) {
            return false;
        }
    }
    true
}
