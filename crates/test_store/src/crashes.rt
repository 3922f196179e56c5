//! Crashes, at each call of the disk and in each byte of a batch.

use crate::Slate;
use crate::puts::{file_of, lines_of, reads};
use sno_store::{Disk, Store};
use sqlite_disk::{Crash, Fuse};
use std::alloc::Global;
use std::test::Fail;

const OLD: &str = "{\"a\":1}\n{\"b\":2}\n";

const NEW: &str = "{\"c\":3}\n{\"d\":4}\n";

/// A file with the old lines, whose disk stops after this many calls. The new lines are put, and whether they were acknowledged
/// comes back with what a restart then reads.
fn put_until(alloc: Global, calls: u64, zeros: usize) -> Result<(bool, Vec<u8>), Fail> {
    let mut slate = file_of(alloc, OLD.as_bytes(), zeros)?;
    if slate.may_be_used() {
        slate.sync()?;
    }
    let mut store = Store::new(Fuse::new(slate, calls));
    let done = store.load(alloc).is_ok() && store.put(&lines_of(alloc, NEW)?).is_ok();
    let mut disk = store.into_disk();
    disk.crash();
    Ok((done, reads(alloc, disk)?))
}

/// A crash at each call: what was acknowledged is there, and what was there stays.
#[test]
fn a_crash_at_each_call(rt: HostRuntime) -> Result<(), Fail> {
    let both = b"{\"a\":1}\n{\"b\":2}\n{\"c\":3}\n{\"d\":4}\n".as_slice();
    let mut acknowledged: u32 = 0;
    for zeros in [0, 5, 40] {
        for calls in 0..12 {
            let (done, back) = put_until(rt.alloc(), calls, zeros)?;
            if done {
                acknowledged = acknowledged.saturating_add(1);
            }
            assert_eq!(rt; back.as_slice(), if done { both } else { OLD.as_bytes() });
        }
    }
    // Of 12 runs each: 9 calls without a zero, 7 where it has to grow, and 5 where there is room.
    assert_eq!(rt; acknowledged, 3 + 5 + 7);
    Ok(())
}

/// The last batch is cut after each of its bytes: its whole lines count. The next batch comes after them.
#[test]
fn a_tail_of_every_length(rt: HostRuntime) -> Result<(), Fail> {
    let alloc = rt.alloc();
    let new = NEW.as_bytes();
    for cut in 0..new.len() {
        let mut text = Vec::from_slice(alloc, OLD.as_bytes())?;
        text.extend_from_slice(new.split_at(cut).0)?;
        let whole = if cut < 8 { 0 } else { 8 };
        let mut store = Store::new(file_of(alloc, &text, 30)?);
        let found = store.load(alloc)?;
        assert_eq!(rt; found.bytes().len(), OLD.len() + whole);
        assert_eq!(rt; store.is_torn(), cut != whole);
        store.put(&lines_of(alloc, "{}")?)?;
        let back = reads(alloc, store.into_disk())?;
        assert_eq!(rt; back.len(), OLD.len() + whole + 3);
        assert!(rt; back.ends_with(b"}\n{}\n"));
    }
    Ok(())
}

/// Bytes of a torn batch that didn't reach the disk are zeros: lines after them don't count, also if they are whole.
#[test]
fn a_hole_in_a_batch(rt: HostRuntime) -> Result<(), Fail> {
    let alloc = rt.alloc();
    let slate: Slate = file_of(alloc, b"{\"a\":1}\n{\"b\0:2}\n{\"c\":3}\n", 9)?;
    let mut store = Store::new(slate);
    let found = store.load(alloc)?;
    assert_eq!(rt; found.bytes(), b"{\"a\":1}\n".as_slice());
    assert!(rt; store.is_torn());
    store.repair(alloc)?;
    assert!(rt; !store.is_torn());
    let disk = store.into_disk();
    assert_eq!(rt; disk.bytes().len(), 33);
    assert!(rt; disk.bytes().iter().skip(8).all(|byte| *byte == 0));
    Ok(())
}
