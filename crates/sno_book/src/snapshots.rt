//! Snapshots.
ghost use Rattle.std.specs.Prelude.{◌≡◌};
ghost use Rattle.std.specs.Arc.{arc_value};
ghost use Rattle.sno_book.specs.Origins.{HoldsText};

use crate::Origin;
use sno_pattern::Text;
use std::marker::Model;
use std::sync::Arc;

/// A text as it was when the snapshot was taken. It shares the characters, and doesn't change when the text does. By
/// its type the text has these characters and this version, at its place, after the view from which the snapshot comes.
/// That view is valid.
#[derive(Drop)]
pub struct Snapshot {
    /// The place of the text in its book, from 0.
    pub place: usize,
    /// How many times the text had been replaced.
    pub version: u64,
    /// The characters.
    pub text: Arc<Text>,
    pub(crate) origin: Origin,
}

impl Model for Snapshot {
    ghost use Rattle.std.specs.Arc.{arc_value};
    ghost use Rattle.sno_book.specs.Origins.{HoldsText};
    ghost use Rattle.sno_book.specs.Snapshots.{Snapshot, snapshot_code};

    ghost Value = { Snapshot };

    ghost coded = { snapshot_code };

    ghost view = { λ s. record { place = s.place; version = s.version; text = arc_value s.text; origin = s.origin } };

    ghost invariant = { λ s. HoldsText s.origin s.place s.version (arc_value s.text) };
}

impl Snapshot {
    /// A snapshot of the text at this place after a valid view.
    pub fn new(origin: Origin, place: usize, version: u64, text: Arc<Text>) -> Snapshot
        requires { HoldsText origin place version (arc_value text) }
        ensures { result ≡ record { place = place; version = version; text = arc_value text; origin = origin } }
    {
        Snapshot {
            place,
            version,
            text,
            origin,
        }
    }

    /// After the view the text is at its place.
    pub fn check(&self)
        ensures { HoldsText self.now.origin self.now.place self.now.version self.now.text }
    {
        // for the proof
        let _ = &self.place;
    }
}
