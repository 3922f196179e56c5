//! A desk whose journal is full: a further statement is refused, and listed so.
ghost use Rattle.std.specs.Prelude.{◌≡◌, [], IfOk};

use sno_book::Book;
use sno_desk::{Desk, DeskWork, Naming, Seat, at_desk};
use sno_document::{Mode, Rules};
use sno_pattern::{Names, Text, TextName};
use sno_serve::{Reason, Refusal, line_in, reply_to};
use std::alloc::Global;
use std::process::Abort;
use std::sync::{Arc, Wait};
use std::test::Fail;

const LINE: &[u8] = br#"{"text":"T","pattern":"'a'"}"#;

/// A seat gets one line twice, at a desk that has room for one entry.
#[derive(Drop)]
struct Fills<'a, R: Abort> {
    rt: &'a R,
    rules: Arc<Rules>,
}

impl<R: Abort> Fills<'_, R> {
    /// What the listing has of the line's statement, if it is refused.
    fn refusal<L: Naming, W: Wait>(
        &self,
        rt: &W,
        alloc: Global,
        desk: &Desk<L>,
        seat: &mut Seat<L>,
        number: u32,
    ) -> Option<Refusal> {
        let mode = Mode {
            anchor: false,
            trials: 1_000,
        };
        let line = line_in(alloc, &self.rules, mode, number, LINE);
        let line = line.expect(self.rt, "there is memory");
        let reply = reply_to(rt, alloc, desk, seat, line, 1);
        reply.expect(self.rt, "there is memory").refused
    }
}

impl<R: Abort> DeskWork for Fills<'_, R> {
    ghost takes = { λ _ _ _. Unit {0} };

    fn work<L: Naming, W: Wait>(
        &self,
        rt: &W,
        alloc: Global,
        desk: &Desk<L>,
        seat: &mut Seat<L>,
        _number: usize,
    ) {
        let first = self.refusal(rt, alloc, desk, seat, 1);
        assert!(self.rt; first.is_none());
        let full = Refusal {
            number: 2,
            reason: Reason::Full,
        };
        let second = self.refusal(rt, alloc, desk, seat, 2);
        assert!(self.rt; second == Some(full));
    }
}

/// A book of one text with room for one entry.
fn small_book(rt: &impl Abort, alloc: Global) -> Result<Book, Fail>
    ensures { IfOk result (λ book. book.journal ≡ []) }
{
    let name = TextName::new(alloc, b"T").expect(rt, "it is a name");
    let text = Text::new(Vec::from_slice(alloc, b"a")?).expect(rt, "it is a text");
    let mut texts = Vec::new(alloc);
    texts.push((name, text))?;
    let book = Book::new(alloc, texts, 1).expect(rt, "there is memory");
    Ok(book)
}

#[test]
fn a_full_journal_is_listed(rt: HostRuntime) -> Result<(), Fail> {
    let alloc = rt.alloc();
    let names = Names::new(alloc, &[]).expect(&rt, "there are no names");
    assert!(rt; names.len() == 0);
    let rules = Rules::admit(alloc, names, Vec::new(alloc)).expect(&rt, "there are none");
    let work = Fills {
        rt: &rt,
        rules: Arc::new(alloc, rules)?,
    };
    let book = small_book(&rt, alloc)?;
    let left = at_desk(&rt, alloc, book, 1, &work).map_err(|(fault, _)| fault)?;
    assert!(rt; left.journal().len() == 1);
    Ok(())
}
