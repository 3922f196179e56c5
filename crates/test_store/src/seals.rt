//! Lines with sums: how they are written, and what is found of a file that was changed or torn.

use crate::Slate;
use crate::puts::{file_of, lines_of};
use sno_sealed::{SealFault, Sealed, undamaged};
use sno_store::{Store, StoreFault};
use std::alloc::Global;
use std::test::Fail;

/// Three lines in two batches. The sums are those of Python's `hash` of bytes, with `PYTHONHASHSEED=0`, over the same bytes.
const SEALED: &str =
    "{\"a\":1,\"batch\":[1,1,2],\"sum\":\"46314fb9fec4c535\"}\n{\"b\":2,\"batch\":[2,1,2],\"sum\":\"53b02ea5456f669d\"}\n{\"c\":3,\"batch\":[3,3,3],\"sum\":\"8c761401950e8070\"}\n";

/// How many bytes each of them has with its line feed.
const LINE: usize = 49;

/// Opens a file of these bytes and some zeros.
fn opened(alloc: Global, text: &[u8]) -> Result<(Sealed<Slate>, Vec<u8>), SealFault> {
    let mut bytes = Vec::from_slice(alloc, text)?;
    bytes.resize(text.len().saturating_add(40), 0)?;
    let mut store = Store::new(Slate::new(alloc, bytes, 1 << 30));
    let lines = store.load(alloc)?;
    let (sealed, payloads) = Sealed::of(alloc, store, lines)?;
    let bytes = Vec::from_slice(alloc, payloads.bytes())?;
    Ok((sealed, bytes))
}

/// The first bytes of a file, this many if it has them.
fn front(alloc: Global, bytes: &[u8], count: usize) -> Result<Vec<u8>, Fail> {
    match bytes.get(..count) {
        Some(front) => Ok(Vec::from_slice(alloc, front)?),
        None => Ok(Vec::new(alloc)),
    }
}

/// The number of the damaged line of such a file, if one is; 0 if not.
fn damaged(alloc: Global, text: &[u8]) -> Result<u64, SealFault> {
    match opened(alloc, text) {
        Ok(_) => Ok(0),
        Err(SealFault::Damaged(line)) => Ok(line),
        Err(fault) => Err(fault),
    }
}

/// Lines are written with their sums, and read again as they were put.
#[test]
fn lines_are_sealed(rt: HostRuntime) -> Result<(), Fail> {
    let alloc = rt.alloc();
    let (mut sealed, none) = opened(alloc, b"")?;
    assert!(rt; none.is_empty());
    sealed.put(&lines_of(alloc, "{\"a\":1}\n{\"b\":2}")?)?;
    sealed.put(&lines_of(alloc, "")?)?;
    sealed.put(&lines_of(alloc, "{\"c\":3}")?)?;
    assert_eq!(rt; sealed.lines(), 3);
    let disk = sealed.into_store().into_disk();
    assert!(rt; disk.bytes().starts_with(SEALED.as_bytes()));
    let (sealed, back) = opened(alloc, SEALED.as_bytes())?;
    assert_eq!(rt;
        back.as_slice(),
        b"{\"a\":1}\n{\"b\":2}\n{\"c\":3}\n".as_slice()
    );
    assert_eq!(rt; (sealed.lines(), sealed.plain()), (3, 0));
    Ok(())
}

/// One changed byte in the first two lines of three is found, in its line, or in the one after a first line that has no sum any more. The last
/// batch is the third line, so that the first two can't be torn. The `}` at the end is in no sum: a line that loses it is one whose payload has
/// lost it, and what its payload says is not for this crate.
#[test]
fn a_changed_byte_is_found(rt: HostRuntime) -> Result<(), Fail> {
    let alloc = rt.alloc();
    let mut found: usize = 0;
    for at in 0..2 * LINE {
        for other in [0, b'x', b'\n', b'{', b'}'] {
            let mut text = Vec::from_slice(alloc, SEALED.as_bytes())?;
            let is_cut = at % LINE == LINE - 2 && other == b'\n';
            if text[at] != other && !is_cut {
                text[at] = other;
                let line = damaged(alloc, &text)?;
                assert!(rt; line == 2 || (line == 1 && at < LINE));
                found = found.saturating_add(1);
            }
        }
    }
    // Each of the bytes is one of the five or not: two lines have a `{`, a `}` and a line feed each, and one place is left out.
    assert_eq!(rt; found, 2 * LINE * 5 - 2 * 4);
    Ok(())
}

/// A batch that is cut, or in which bytes are zeros, is a tear: its first whole lines are read.
#[test]
fn a_torn_batch_is_no_damage(rt: HostRuntime) -> Result<(), Fail> {
    let alloc = rt.alloc();
    let two = SEALED.as_bytes().split_at(2 * LINE).0;
    for cut in 0..2 * LINE {
        let (sealed, back) = opened(alloc, two.split_at(cut).0)?;
        assert_eq!(rt; sealed.lines(), if cut < LINE { 0 } else { 1 });
        assert_eq!(rt; back.len(), if cut < LINE { 0 } else { 8 });
        let mut text = Vec::from_slice(alloc, two)?;
        text[cut] = 0;
        assert_eq!(rt;
            opened(alloc, &text)?.0.lines(),
            if cut < LINE { 0 } else { 1 }
        );
    }
    Ok(())
}

/// After a tear the next batch has numbers of its own, and a tear of that one is a tear too.
#[test]
fn a_tear_after_a_tear(rt: HostRuntime) -> Result<(), Fail> {
    let alloc = rt.alloc();
    let one = SEALED.as_bytes().split_at(LINE).0;
    let (mut sealed, _one) = opened(alloc, one)?;
    sealed.put(&lines_of(alloc, "{\"d\":4}\n{\"e\":5}")?)?;
    let disk = sealed.into_store().into_disk();
    let text = front(alloc, disk.bytes(), 3 * LINE)?;
    assert_eq!(rt; text.len(), 3 * LINE);
    assert_eq!(rt; opened(alloc, &text)?.0.lines(), 3);
    for at in LINE..2 * LINE {
        let mut torn = Vec::from_slice(alloc, &text)?;
        torn[at] = 0;
        assert_eq!(rt; opened(alloc, &torn)?.0.lines(), 1);
    }
    Ok(())
}

/// Lines without sums come first, and are what the sums after them go on from.
#[test]
fn plain_lines_come_first(rt: HostRuntime) -> Result<(), Fail> {
    let alloc = rt.alloc();
    let (mut sealed, plain) = opened(alloc, b"{\"a\":1}\n{\"b\":2}\n")?;
    assert_eq!(rt; plain.len(), 16);
    sealed.put(&lines_of(alloc, "{\"c\":3}\n{\"d\":4}")?)?;
    assert_eq!(rt; (sealed.lines(), sealed.plain()), (4, 2));
    let disk = sealed.into_store().into_disk();
    let text = front(alloc, disk.bytes(), 16 + 2 * LINE)?;
    assert_eq!(rt; text.len(), 16 + 2 * LINE);
    assert_eq!(rt; opened(alloc, &text)?.1.len(), 32);
    let mut other = Vec::from_slice(alloc, &text)?;
    other[6] = b'2';
    assert_eq!(rt; damaged(alloc, &other)?, 3);
    // A plain line after a sealed one isn't right, nor is a whole plain line after a torn one.
    let mut later = Vec::from_slice(alloc, &text)?;
    later.extend_from_slice(b"{\"e\":5}\n")?;
    assert_eq!(rt; damaged(alloc, &later)?, 5);
    assert_eq!(rt; damaged(alloc, b"{\"a\":1}\n{\"b\0:2}\n{\"c\":3}\n")?, 2);
    Ok(())
}

/// Lines that are lost, doubled or moved are found.
#[test]
fn moved_lines_are_found(rt: HostRuntime) -> Result<(), Fail> {
    let alloc = rt.alloc();
    let (first, rest) = SEALED.as_bytes().split_at(LINE);
    let (second, third) = rest.split_at(LINE);
    for (parts, line) in [
        ([second, first, third], 1),
        ([first, third, second], 2),
        ([first, first, second], 2),
        ([first, second, second], 3),
    ] {
        let mut text = Vec::new(alloc);
        for part in parts {
            text.extend_from_slice(part)?;
        }
        assert_eq!(rt; damaged(alloc, &text)?, line);
    }
    Ok(())
}

/// The undamaged lines of a file are counted without a store.
#[test]
fn undamaged_lines_are_counted(rt: HostRuntime) -> Result<(), Fail> {
    let alloc = rt.alloc();
    let mut text = Vec::from_slice(alloc, SEALED.as_bytes())?;
    let all = undamaged(alloc, &text)?;
    assert_eq!(rt; (all.lines, all.end), (3, 3 * LINE));
    text[LINE + 6] = b'3';
    let one = undamaged(alloc, &text)?;
    assert_eq!(rt; (one.lines, one.end), (1, LINE));
    Ok(())
}

/// A store that a failed put has closed refuses, and has the lines that it had.
#[test]
fn a_closed_store_refuses(rt: HostRuntime) -> Result<(), Fail> {
    let alloc = rt.alloc();
    let mut store = Store::new(file_of(alloc, b"", 5)?.resized(100));
    let lines = store.load(alloc)?;
    let (mut sealed, _none) = Sealed::of(alloc, store, lines)?;
    let lines = lines_of(alloc, "{\"a\":1}")?;
    assert!(rt; sealed.put(&lines).is_err());
    assert!(rt; !sealed.is_open());
    assert!(rt; matches!(sealed.put(&lines), Err(StoreFault::Closed)));
    assert!(rt; matches!(sealed.tail(alloc), Err(StoreFault::Closed)));
    Ok(())
}
