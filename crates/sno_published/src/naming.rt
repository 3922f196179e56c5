//! Which desk a type belongs to.
use std::marker::Brand;
use std::sync::ledger::Ledger;

/// The names on which all that belongs to one desk agrees. Each call of a program picks them, as it picks the ledger's
/// name.
pub trait Naming: Ledger {
    ghost use Rattle.logbook.specs.Pages.{Book};
    ghost use Rattle.sno_book.specs.Openings.{Opening};

    /// The history of the entries that are published.
    ghost book: { Book };

    /// The history of the attempts to publish an entry.
    ghost tries: { Book };

    /// The texts, as they were before the first entry, and how many entries there may be.
    ghost opening: { Opening };
}

impl Naming for Brand {
    ghost use Rattle.std.specs.Prelude.{[]};

    ghost book = { record { number = 0; log_name = 0; cells_name = 0 } };

    ghost tries = { record { number = 0; log_name = 0; cells_name = 0 } };

    ghost opening = { record { texts = []; room = 0 } };
}
