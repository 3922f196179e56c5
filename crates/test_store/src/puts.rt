//! Lines that are put and read again.

use crate::Slate;
use sno_store::{Disk, LineFault, Lines, Store, StoreFault};
use sqlite_disk::Crash;
use std::alloc::Global;
use std::test::Fail;

/// These lines, which come with their line feeds.
pub(crate) fn lines_of(alloc: Global, text: &str) -> Result<Lines, Fail> {
    let mut lines = Lines::new(alloc);
    for line in text.as_bytes().split(|byte| *byte == b'\n') {
        if !line.is_empty() {
            lines.push(line)?;
        }
    }
    Ok(lines)
}

/// A file of these bytes and then some zeros.
pub(crate) fn file_of(alloc: Global, text: &[u8], zeros: usize) -> Result<Slate, Fail> {
    let mut bytes = Vec::from_slice(alloc, text)?;
    bytes.resize(text.len().saturating_add(zeros), 0)?;
    Ok(Slate::new(alloc, bytes, 1 << 30))
}

/// The bytes of the lines that a restart reads.
pub(crate) fn reads<D: Disk + Drop>(alloc: Global, disk: D) -> Result<Vec<u8>, Fail> {
    let mut store = Store::new(disk);
    let lines = store.load(alloc)?;
    Ok(Vec::from_slice(alloc, lines.bytes())?)
}

/// Two batches are read again after a crash, in their order; zeros follow them in the file.
#[test]
fn lines_are_read_again(rt: HostRuntime) -> Result<(), Fail> {
    let alloc = rt.alloc();
    let mut store = Store::new(file_of(alloc, b"", 0)?);
    let none = store.load(alloc)?;
    assert!(rt; none.is_empty());
    assert!(rt; !store.is_torn());
    store.put(&lines_of(alloc, "{\"a\":1}\n{\"b\":2}")?)?;
    store.put(&lines_of(alloc, "{}")?)?;
    let mut disk = store.into_disk();
    disk.crash();
    assert_eq!(rt; disk.bytes().len(), (1 << 20) + 1);
    let mut store = Store::new(disk);
    let lines = store.load(alloc)?;
    assert_eq!(rt; lines.bytes(), b"{\"a\":1}\n{\"b\":2}\n{}\n".as_slice());
    let mut back = Vec::new(alloc);
    for line in lines.iter() {
        back.extend_from_slice(line)?;
        back.push(b'|')?;
    }
    assert_eq!(rt; back.as_slice(), b"{\"a\":1}|{\"b\":2}|{}|".as_slice());
    Ok(())
}

/// What is not a line is refused by its cause, and changes nothing.
#[test]
fn what_is_not_a_line(rt: HostRuntime) -> Result<(), Fail> {
    let mut lines = lines_of(rt.alloc(), "{}")?;
    assert_eq!(rt; lines.push(b"").err(), Some(LineFault::NoBrace));
    assert_eq!(rt; lines.push(b" {}").err(), Some(LineFault::NoBrace));
    assert_eq!(rt; lines.push(b"{\n}").err(), Some(LineFault::LineFeed));
    assert_eq!(rt; lines.push(b"{}\0").err(), Some(LineFault::Nul));
    assert_eq!(rt; lines.bytes(), b"{}\n".as_slice());
    lines.clear();
    assert!(rt; lines.is_empty());
    Ok(())
}

/// A batch longer than the MiB by which a file grows, and one after it.
#[test]
fn a_batch_longer_than_a_piece(rt: HostRuntime) -> Result<(), Fail> {
    let alloc = rt.alloc();
    let mut long = vec![in alloc; b'x'; 360_000]?;
    long[0] = b'{';
    let mut lines = Lines::new(alloc);
    for _ in 0..3 {
        lines.push(&long)?;
    }
    let mut store = Store::new(file_of(alloc, b"{}\n", 10)?);
    store.load(alloc)?;
    store.put(&lines)?;
    store.put(&lines_of(alloc, "{}")?)?;
    let mut disk = store.into_disk();
    disk.crash();
    let back = reads(alloc, disk)?;
    assert_eq!(rt; back.len(), 3 + 3 * 360_001 + 3);
    Ok(())
}

/// A full disk is reported, closes the store and loses no line. With room again the lines are there and more fit.
#[test]
fn a_full_disk(rt: HostRuntime) -> Result<(), Fail> {
    let alloc = rt.alloc();
    let lines = lines_of(alloc, "{\"c\":3}")?;
    let mut store = Store::new(file_of(alloc, b"{\"a\":1}\n", 5)?.resized(100));
    store.load(alloc)?;
    assert!(rt; matches!(store.put(&lines), Err(StoreFault::NoRoom)));
    assert!(rt; !store.is_open());
    assert!(rt; matches!(store.put(&lines), Err(StoreFault::Closed)));
    let mut store = Store::new(store.into_disk().resized(1 << 30));
    let found = store.load(alloc)?;
    assert_eq!(rt; found.bytes(), b"{\"a\":1}\n".as_slice());
    store.put(&lines)?;
    let back = reads(alloc, store.into_disk())?;
    assert_eq!(rt; back.as_slice(), b"{\"a\":1}\n{\"c\":3}\n".as_slice());
    Ok(())
}

/// A disk that may tear a write into any bytes is refused.
#[test]
fn a_disk_that_does_not_mix(rt: HostRuntime) -> Result<(), Fail> {
    let mut store = Store::new(sqlite_disk::Memory::new(rt.alloc()));
    assert!(rt; matches!(store.load(rt.alloc()), Err(StoreFault::Unsupported)));
    Ok(())
}
