//! Views that are kept without bytes.
ghost use Rattle.std.specs.Prelude.{◌≡◌};

use crate::Book;
use logbook::{Opening, Rule, Seen, Start};
use std::marker::Model;

/// A rule that requires nothing: a view is kept as it was seen, and nothing is added to it.
pub(crate) struct Free;

impl Rule<Book, u64> for Free {
    ghost use Rattle.std.specs.Prelude.{[]};
    ghost use base.Fml.{ftrue};

    ghost holds = { λ cells log. Unit {0} };

    ghost first = { [] };

    ghost hinted = { λ n log. Unit {0} };

    ghost shows = { λ log. [] };

    ghost keeps = { λ names log. ftrue };

    ghost moves = { λ ask before after result. Unit {0} };
}

/// A value that shows a view, as a book does.
pub trait ViewSource {
    ghost use Rattle.sno_book.specs.Views.{View};

    /// The view that is shown.
    ghost shown: { Self → View };
}

impl ViewSource for Book {
    ghost use Rattle.sno_book.specs.Books.{view_of};

    ghost shown = { view_of };
}

/// The log with which a view is kept: the view alone.
struct Alone;

impl<X: ViewSource> Opening<X, Book> for Alone {
    ghost use Rattle.std.specs.Prelude.{◌∷◌, []};
    ghost use Rattle.sno_book.specs.Origins.{book_of};

    ghost log = { λ count source. book_of (X.shown source) ∷ [] };
}

/// The view from which a snapshot comes. It has no bytes and takes no memory.
#[derive(Drop)]
pub struct Origin {
    seen: Seen<Book, u64, Free>,
}

impl Model for Origin {
    ghost use Rattle.sno_book.specs.Views.{View, view_code};
    ghost use Rattle.sno_book.specs.Origins.{first_view};

    ghost Value = { View };

    ghost coded = { view_code };

    ghost view = { λ s. first_view s.seen.log };
}

impl Origin {
    /// The view that the source shows.
    pub fn of<X: ViewSource>(source: &X) -> Origin
        ensures { result ≡ X.shown source.now }
    {
        let (seen, _pens) = Seen::open_row::<X, Alone>(source, Start::alone(), 0);
        Origin { seen }
    }
}
