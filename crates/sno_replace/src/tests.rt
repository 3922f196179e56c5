//! A replacement in a folder in memory, each call of which fails in turn.

use crate::{Calls, Folder, ReplaceFault};
use std::alloc::Global;
use std::io;
use std::io::ErrorKind;

/// The three names, with the number of the file that each leads to, and how many calls succeed.
#[derive(Drop)]
struct Slate {
    store: u8,
    new: u8,
    old: u8,
    calls: u32,
    fails_at: u32,
}

impl Slate {
    /// A store 1, a new one 2, and an older one 3.
    fn new(fails_at: u32) -> Slate {
        Slate {
            store: 1,
            new: 2,
            old: 3,
            calls: 0,
            fails_at,
        }
    }

    /// One call more: an error if it is the one that fails.
    fn call(&mut self) -> io::Result<()> {
        self.calls = self.calls.saturating_add(1);
        if self.calls == self.fails_at {
            return Err(io::Error::from(ErrorKind::StorageFull));
        }
        Ok(())
    }
}

impl Calls for Slate {
    fn remove_old(&mut self) -> io::Result<()> {
        self.call()?;
        self.old = 0;
        Ok(())
    }

    fn remove_new(&mut self) -> io::Result<()> {
        self.call()?;
        self.new = 0;
        Ok(())
    }

    fn link_old(&mut self) -> io::Result<()> {
        self.call()?;
        self.old = self.store;
        Ok(())
    }

    fn rename_new(&mut self) -> io::Result<()> {
        self.call()?;
        self.store = self.new;
        self.new = 0;
        Ok(())
    }

    fn wait(&mut self) -> io::Result<()> {
        self.call()
    }
}

/// What a replacement in a folder leaves, if this call fails; 0: none does.
fn replaced(
    alloc: Global,
    fails_at: u32,
    has_old: bool,
) -> (Result<(), ReplaceFault>, (u8, u8, u8)) {
    let mut folder = Folder::new(alloc, Slate::new(fails_at));
    let result = folder.replace(has_old);
    let Slate {
        store,
        new,
        old,
        ..
    } = folder.calls;
    (result, (store, new, old))
}

#[test]
fn new_store_takes_the_place(rt: HostRuntime) {
    let (result, names) = replaced(rt.alloc(), 0, true);
    assert!(rt; result.is_ok());
    assert_eq!(rt; names, (2, 0, 1));
}

/// Calls that fail, what the names lead to then, and whether the store has its place. The first two leave the store alone; a wait and a rename
/// that fail are undone; after the last wait the new store has the place.
const FAILURES: [(u32, (u8, u8, u8), bool); 5] = [
    (1, (1, 2, 3), true),
    (2, (1, 2, 0), true),
    (3, (1, 2, 0), true),
    (4, (1, 2, 0), true),
    (5, (2, 0, 1), false),
];

#[test]
fn each_call_fails(rt: HostRuntime) {
    for (fails_at, wanted, is_kept) in FAILURES {
        let (result, names) = replaced(rt.alloc(), fails_at, true);
        assert_eq!(rt; names, wanted, "call {fails_at}");
        match result {
            Err(ReplaceFault::NotReplaced(_)) => assert!(rt; is_kept),
            Err(ReplaceFault::InDoubt(_)) => assert!(rt; !is_kept),
            Ok(()) => assert!(rt; false),
        }
    }
}

#[test]
fn first_replacement_has_no_old_store_to_remove(rt: HostRuntime) {
    let (result, _names) = replaced(rt.alloc(), 5, false);
    assert!(rt; result.is_ok());
}

#[test]
fn second_name_is_removed(rt: HostRuntime) {
    let mut slate = Slate::new(0);
    slate.old = 1;
    let mut folder = Folder::new(rt.alloc(), slate);
    assert!(rt; folder.mend().is_ok());
    assert_eq!(rt;
        (folder.calls.store, folder.calls.new, folder.calls.old),
        (1, 2, 0)
    );
}

#[test]
fn new_store_is_discarded(rt: HostRuntime) {
    let mut folder = Folder::new(rt.alloc(), Slate::new(0));
    assert!(rt; folder.discard().is_ok());
    assert_eq!(rt;
        (folder.calls.store, folder.calls.new, folder.calls.old),
        (1, 0, 3)
    );
}
