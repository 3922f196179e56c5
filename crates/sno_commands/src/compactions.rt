//! A store that replaces the one from which it goes on.

use crate::beside::{Beside, look_beside};
use crate::faults::FAILED;
use crate::store_names::{StoreNames, SystemCalls, names_of};
use crate::stored::{Opened, Stores, opened, refuse};
use sno_durable::{DurableFault, Kept, Relation, StoreFacts};
use sno_replace::{Folder, ReplaceFault};
use sno_sealed::Sealed;
use sno_store::{File, Lines, Store};
use sqlite_disk::Disk;
use std::alloc::Global;
use std::fmt::Display;
use std::io;
use std::io::{Read, Write};
use std::rt::Files;

/// Writes why a store isn't replaced, which names a file beside it, and returns the status.
fn refuse_for<E: Write, W: Display + Drop>(path: &str, why: W, errors: &mut E) -> u8 {
    let _printed = writeln!(errors, "store: not replaced: {path}: {why}");
    FAILED
}

/// Why a file beside a store stays there.
const IN_THE_WAY: &str = "another file has the name";

/// Locks what is under a name beside a store, as a store is locked.
fn locked<R: Stores, E: Write>(rt: &R, path: &str, errors: &mut E) -> Result<Store<File>, u8> {
    match rt.open_store(path) {
        Ok((store, _)) => Ok(store),
        Err(fault) => Err(refuse_for(path, fault, errors)),
    }
}

/// Locks the old store that loses its name, if there is one. It has to be made of the same document: nobody else's file is removed.
pub(crate) fn old_store<R: Files + Stores, E: Write>(
    rt: &R,
    alloc: Global,
    names: &StoreNames,
    facts: &StoreFacts,
    errors: &mut E,
) -> Result<Option<Store<File>>, u8> {
    match look_beside(rt, alloc, &names.old) {
        Ok(Beside::Nothing) => Ok(None),
        Ok(Beside::Store(old)) if facts.relation(&old) != Relation::Other => {
            Ok(Some(locked(rt, &names.old, errors)?))
        }
        Ok(_) => Err(refuse_for(&names.old, IN_THE_WAY, errors)),
        Err(_) => Err(refuse(&DurableFault::Memory, errors)),
    }
}

/// Removes the new store that a crash has left, which has no entry of its own. It is locked meanwhile.
pub(crate) fn discard<R: Files + Stores, E: Write>(
    rt: &R,
    alloc: Global,
    names: &StoreNames,
    errors: &mut E,
) -> Result<(), u8> {
    let held = locked(rt, &names.new, errors)?;
    let removed = Folder::new(alloc, SystemCalls { rt, names }).discard();
    drop(held);
    match removed {
        Ok(()) => Ok(()),
        Err(error) => Err(refuse_for(&names.new, error.kind(), errors)),
    }
}

/// Makes sure that nothing has the name of the new store. What a crash has left of one is removed, and nothing else.
fn make_way<R: Files + Stores, E: Write>(
    rt: &R,
    alloc: Global,
    names: &StoreNames,
    facts: &StoreFacts,
    errors: &mut E,
) -> Result<(), u8> {
    match look_beside(rt, alloc, &names.new) {
        Ok(Beside::Nothing) => Ok(()),
        Ok(Beside::Cut) => discard(rt, alloc, names, errors),
        Ok(Beside::Store(new)) if facts.relation(&new) == Relation::Leftover => {
            discard(rt, alloc, names, errors)
        }
        Ok(_) => Err(refuse_for(&names.new, IN_THE_WAY, errors)),
        Err(_) => Err(refuse(&DurableFault::Memory, errors)),
    }
}

/// Makes a new store of these lines. They are on the disk when it returns.
fn put_beside<R: Files + Stores, E: Write>(
    rt: &R,
    alloc: Global,
    names: &StoreNames,
    lines: &Lines,
    errors: &mut E,
) -> Result<Sealed<File>, u8> {
    let (mut store, _none) = opened(rt, alloc, &names.new, errors)?;
    match store.put(lines) {
        Ok(()) => Ok(store),
        Err(fault) => {
            drop(store);
            let _left = Folder::new(alloc, SystemCalls { rt, names }).discard();
            Err(refuse(&DurableFault::from(fault), errors))
        }
    }
}

/// Writes why a store isn't replaced, or not surely, and returns the status.
fn refuse_place<E: Write>(fault: ReplaceFault, errors: &mut E) -> u8 {
    let (what, error): (&str, io::Error) = match fault {
        ReplaceFault::NotReplaced(error) => ("not replaced", error),
        ReplaceFault::InDoubt(error) => ("replaced, but perhaps not on the disk", error),
    };
    let _printed = writeln!(errors, "store: {what}: {}", error.kind());
    FAILED
}

/// Gives the new store the place of the store. The old one that was left before, if there is one, is locked, and loses its name.
pub(crate) fn take_place<R: Files + Stores, E: Write>(
    rt: &R,
    alloc: Global,
    names: &StoreNames,
    old: Option<Store<File>>,
    errors: &mut E,
) -> Result<(), u8> {
    let replaced = Folder::new(alloc, SystemCalls { rt, names }).replace(old.is_some());
    drop(old);
    match replaced {
        Ok(()) => Ok(()),
        Err(fault) => Err(refuse_place(fault, errors)),
    }
}

/// Replaces the store with these names by a new one of these lines, and returns that. It is locked before it has its place.
fn replace<R: Files + Stores, E: Write>(
    rt: &R,
    alloc: Global,
    names: &StoreNames,
    lines: &Lines,
    errors: &mut E,
) -> Result<Sealed<File>, u8> {
    let Ok(Some(facts)) = StoreFacts::of(alloc, lines.iter()) else {
        return Err(refuse(&DurableFault::Memory, errors));
    };
    make_way(rt, alloc, names, &facts, errors)?;
    let old = old_store(rt, alloc, names, &facts, errors)?;
    let store = put_beside(rt, alloc, names, lines, errors)?;
    match take_place(rt, alloc, names, old, errors) {
        Ok(()) => Ok(store),
        Err(status) => {
            drop(store);
            // It has no entry. Once it has the place, there is none under this name.
            let _left = Folder::new(alloc, SystemCalls { rt, names }).discard();
            Err(status)
        }
    }
}

/// Replaces the store with this path by one that goes on from it, and returns that with its lines. The old one stays, with `.1` after its path.
/// That is on the disk when it returns. If it fails, the line of the fault is written, the status comes back, and a start finds each entry.
pub(crate) fn compact<R: Files + Stores, D: Disk, I: Read, W: Write, E: Write>(
    rt: &R,
    alloc: Global,
    path: &str,
    kept: &Kept<D, I, W>,
    errors: &mut E,
) -> Result<Opened, u8> {
    let lines = match kept.compacted(alloc) {
        Ok(lines) => lines,
        Err(fault) => return Err(refuse(&fault, errors)),
    };
    let Ok(names) = names_of(rt, alloc, path) else {
        return Err(refuse(&DurableFault::Memory, errors));
    };
    let store = replace(rt, alloc, &names, &lines, errors)?;
    Ok((store, lines))
}
