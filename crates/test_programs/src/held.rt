//! A book that one caller holds: its replies are those of a service at one seat.

use crate::served::{DOCUMENT, LINES};
use sno_document::Mode;
use sno_held_book::{DocumentFault, HeldBook};
use std::test::Fail;

const MODE: Mode = Mode {
    anchor: false,
    trials: 1_000_000,
};

/// What is left of a text and two statements; the second is refused.
const LISTING: &str =
    r#"{"entries":[{"after":"a cat","bindings":[],"end":3,"entry":0,"matched":true,"start":0,"statement":1,"text":"T","version":0}],"refused":[{"reason":"no text","statement":2}],"texts":[{"name":"T","text":"a cat","version":1}]}"#;

#[test]
fn a_held_book_replies_as_a_service(rt: HostRuntime) -> Result<(), Fail> {
    let alloc = rt.alloc();
    let mut held = HeldBook::open(alloc, DOCUMENT, MODE)
        .ok()
        .ok_or("document")?;
    for (line, reply) in &LINES {
        let replied = held.reply(alloc, line.as_bytes())?;
        let (last, replied) = replied.as_slice().split_last().ok_or("a line feed")?;
        assert!(rt; *last == b'\n');
        assert!(rt; replied == reply.as_bytes());
    }
    assert!(rt; held.number == 7);
    assert!(rt; held.book.journal().len() == 4);
    assert!(rt; held.refused.len() == 1);
    Ok(())
}

#[test]
fn a_held_book_is_listed(rt: HostRuntime) -> Result<(), Fail> {
    let alloc = rt.alloc();
    let mut held = HeldBook::open(alloc, DOCUMENT, MODE)
        .ok()
        .ok_or("document")?;
    let _reply = held.reply(alloc, br#"{"text":"U","pattern":"'a'"}"#)?;
    let listing = held.listing(alloc)?;
    let (last, listing) = listing.as_slice().split_last().ok_or("a line feed")?;
    assert!(rt; *last == b'\n');
    assert!(rt; listing == LISTING.as_bytes());
    Ok(())
}

#[test]
fn no_book_is_held_of_a_document_with_a_fault(rt: HostRuntime) -> Result<(), Fail> {
    let alloc = rt.alloc();
    let refused = HeldBook::open(alloc, b"[]", MODE);
    assert!(rt; matches!(refused, Err(DocumentFault::Shape)));
    Ok(())
}
