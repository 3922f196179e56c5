//! Calls that take no memory, and so return what they have to, whichever allocation fails.
ghost use Rattle.std.specs.Prelude.{◌≡◌, []};

use crate::call_ends::{CallEnd, check_bytes, check_eq, tell, tell_ready};
use crate::jobs::{book, check_book, proposed, rules};
use crate::patterns::name;
use sno_book::{Book, Ready};
use sno_desk::{Blank, Desk, Naming, Seat, close};
use sno_pattern::{Class, Name, Names, Pattern, Rules, Text, TextName};
use sno_read::{Object, read_object};
use sno_rewrite::{DocumentFault, RunFault, status_of};
use sno_statement::Statement;
use std::alloc::Global;
use std::marker::Brand;
use std::process::Abort;
use std::slice;
use std::sync::{Arc, Wait};
use std::test::Fail;

#[test]
fn names_without_memory(rt: HostRuntime) -> Result<(), Fail> {
    let names = Names::new(rt.alloc(), &[name(&rt, b"D".as_slice())])?;
    tell_ready(&rt)?;
    let word = Name::read(b"ARB".as_slice()).expect(&rt, "it is a name");
    assert!(rt; word.is_reserved() && Name::read(b"1A".as_slice()).is_none());
    check_eq(&rt, &names.place(&name(&rt, b"D".as_slice())), &Some(0));
    check_eq(&rt, &names.place(&word), &None);
    tell(&rt, CallEnd::Given)
}

#[test]
fn a_set_without_memory(rt: HostRuntime) -> Result<(), Fail> {
    let members = Vec::from_slice(rt.alloc(), b"ab".as_slice())?;
    tell_ready(&rt)?;
    let class = Class::new(members).expect(&rt, "it is a set");
    assert!(rt; class.has(b'b') && !class.has(b'c') && Class::new(Vec::new(rt.alloc())).is_none());
    tell(&rt, CallEnd::Given)
}

#[test]
fn a_text_without_memory(rt: HostRuntime) -> Result<(), Fail> {
    let characters = Vec::from_slice(rt.alloc(), b"xyz".as_slice())?;
    tell_ready(&rt)?;
    let text = Text::new(characters)?;
    check_bytes(&rt, text.bytes(), b"xyz".as_slice());
    tell(&rt, CallEnd::Given)
}

#[test]
fn a_status_without_memory(rt: HostRuntime) -> Result<(), Fail> {
    tell_ready(&rt)?;
    check_eq(
        &rt,
        &status_of(&RunFault::Document(DocumentFault::NotJson)),
        &2,
    );
    tell(&rt, CallEnd::Given)
}

/// What a statement is made of, but its pattern.
#[derive(Drop)]
struct Parts {
    rules: Arc<Rules>,
    object: Object,
    text: TextName,
}

/// They are for a text `T`, whose matched part is replaced by an `x`.
fn make_parts(alloc: Global) -> Result<Parts, Fail> {
    let rules = rules(alloc)?;
    let object = read_object(alloc, rules.names(), b"'x'".as_slice())?;
    Ok(Parts {
        rules,
        object,
        text: TextName::new(alloc, b"T".as_slice())?,
    })
}

/// A statement with a limit, which is repeated.
fn check_statement(rt: &impl Abort, parts: Parts) {
    let Parts {
        rules,
        object,
        text,
    } = parts;
    let pattern = Pattern::Len(1);
    assert!(rt; rules.covers(&pattern));
    let statement = Statement::new(7, rules, pattern, Some(object), text, true);
    let statement = statement.limited(5).repeated(3);
    check_eq(rt, &(statement.number(), statement.limit()), &(7, 5));
    check_eq(
        rt,
        &(statement.repeat(), statement.anchored()),
        &(Some(3), true),
    );
}

#[test]
fn a_statement_without_memory(rt: HostRuntime) -> Result<(), Fail> {
    let parts = make_parts(rt.alloc())?;
    tell_ready(&rt)?;
    check_statement(&rt, parts);
    tell(&rt, CallEnd::Given)
}

/// Takes back a proposal that is ready.
#[tactic(auto, using(sno_book::proofs::Kinship::is_related))]
fn check_book_with_ready(rt: &impl Abort, book: &Book, ready: Ready, name: &TextName) {
    check_book(rt, book, b"k=v".as_slice(), 0, 0);
    check_eq(rt, &ready.back().version(), &0);
    check_eq(rt, &book.opening().place(name), &Some(0));
    assert!(rt; book.has_spare());
}

/// A proposal that is ready is taken back.
#[test]
#[tactic(auto, using(sno_book::proofs::Kinship::is_related))]
fn a_book_without_memory(rt: HostRuntime) -> Result<(), Fail> {
    let name = TextName::new(rt.alloc(), b"T".as_slice())?;
    let (mut book, proposal) = proposed(&rt, rt.alloc())?;
    let ready = book.prepare(proposal).map_err(|(fault, _)| fault)?;
    tell_ready(&rt)?;
    check_book_with_ready(&rt, &book, ready, &name);
    tell(&rt, CallEnd::Given)
}

/// A proposal that is ready is accepted, and the receipt audited.
#[test]
#[tactic(auto, using(sno_book::proofs::Kinship::is_related, sno_book::proofs::Kinship::related_after))]
fn a_commit_is_finished_without_memory(rt: HostRuntime) -> Result<(), Fail> {
    let (mut book, proposal) = proposed(&rt, rt.alloc())?;
    let Ok(ready) = book.prepare(proposal) else {
        return Err("out of memory".into());
    };
    tell_ready(&rt)?;
    let receipt = book.finish(ready);
    check_book(&rt, &book, b"v=k".as_slice(), 1, 1);
    check_eq(&rt, &book.audit(slice::from_ref(&receipt)), &Ok(()));
    tell(&rt, CallEnd::Given)
}

/// The seats have accepted and seen nothing.
fn check_seats<L: Naming>(rt: &impl Abort, seats: &[Seat<L>]) {
    for seat in seats {
        check_eq(rt, &(seat.accepted(), seat.seen()), &(0, 0));
    }
}

/// The seats are counted, and the desk is closed.
fn count_and_close<L: Naming, R: Wait + Abort + Print>(
    rt: &R,
    alloc: Global,
    blank: Blank,
    book: Book,
) -> Result<(), Fail>
    requires name { (blank.ledger.name ≡ L.name) × (blank.ledger.parts ≡ L.parts) }
    requires histories { (blank.history ≡ record { history = L.book; entries = [] }) × (blank.attempts.history ≡ L.tries) }
    requires opening { book.opening ≡ L.opening }
    requires two { blank.ledger.parts ≡ 2 }
    requires empty { book.journal ≡ [] }
{
    let (desk, seats) = Desk::<L>::new(rt, alloc, blank, book, 2).map_err(|(fault, _)| fault)?;
    let ready = tell_ready(rt);
    check_seats(rt, seats.as_slice());
    let closed = close(rt, desk, seats);
    let book = closed.ok().expect(rt, "it is closed");
    check_book(rt, &book, b"x".as_slice(), 0, 0);
    ready?;
    tell(rt, CallEnd::Given)
}

fn count_and_close_one<R: Wait + Abort + Print>(
    rt: &R,
    alloc: Global,
    book: Book,
) -> Result<(), Fail>
    requires { book.journal ≡ [] }
{
    count_and_close::<Brand, R>(rt, alloc, Blank::new(2), book)
}

#[test]
fn seats_and_the_close_without_memory(rt: HostRuntime) -> Result<(), Fail> {
    let book = book(rt.alloc(), &[("T", "x")])?;
    count_and_close_one(&rt, rt.alloc(), book)
}
