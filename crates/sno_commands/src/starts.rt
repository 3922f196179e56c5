//! What a crash has left beside a store is put right before a service begins.

use crate::beside::{Beside, look_beside};
use crate::compactions::{discard, old_store, take_place};
use crate::faults::FAILED;
use crate::looks::has_its_outcomes;
use crate::store_names::{StoreNames, SystemCalls, is_named, names_of};
use crate::stored::{INVALID, Opened, Stores, opened, refuse};
use crate::streams::put_new;
use sno_durable::{DurableFault, Relation, StoreFacts};
use sno_replace::{Calls, Folder};
use sno_sealed::Sealed;
use sno_store::{File, Store};
use std::alloc::Global;
use std::fmt::Display;
use std::fs::Metadata;
use std::io;
use std::io::Write;
use std::os::unix::fs::MetadataExt;
use std::rt::Files;
use std::sync::Wait;

/// Writes a line on a file beside a store.
fn say<E: Write, W: Display + Drop>(path: &str, what: W, errors: &mut E) {
    let _printed = writeln!(errors, "store: {path}: {what}");
}

/// Whether both are of one file.
fn is_same_file(a: &Metadata, b: &Metadata) -> bool {
    a.dev() == b.dev() && a.ino() == b.ino()
}

/// Whether the store's file has the name of the old one too: a crash came between the two calls that replace it.
fn has_second_name<R: Files>(rt: &R, names: &StoreNames) -> bool {
    match (
        rt.symlink_metadata(&names.store),
        rt.symlink_metadata(&names.old),
    ) {
        (Ok(store), Ok(old)) => is_same_file(&store, &old),
        _ => false,
    }
}

/// Locks the new store, if there is one: whoever is replacing the store has it locked.
fn new_store<R: Files + Stores, E: Write>(
    rt: &R,
    names: &StoreNames,
    errors: &mut E,
) -> Result<Option<Store<File>>, u8> {
    if !is_named(rt, &names.new) {
        return Ok(None);
    }
    match rt.open_store(&names.new) {
        Ok((store, _)) => Ok(Some(store)),
        Err(fault) => {
            say(&names.new, fault, errors);
            Err(FAILED)
        }
    }
}

/// Removes the second name of a store's file, unless somebody is replacing the store just now.
fn mend<R: Files + Stores, E: Write>(
    rt: &R,
    alloc: Global,
    names: &StoreNames,
    errors: &mut E,
) -> Result<(), u8> {
    if !has_second_name(rt, names) {
        return Ok(());
    }
    let held = new_store(rt, names, errors)?;
    let mended = Folder::new(alloc, SystemCalls { rt, names }).mend();
    drop(held);
    match mended {
        Ok(()) => Ok(()),
        // Another start has removed it meanwhile.
        Err(_) if !is_named(rt, &names.old) => Ok(()),
        Err(error) => {
            say(&names.old, error.kind(), errors);
            Err(FAILED)
        }
    }
}

/// What the store says of itself, by its lines.
fn facts_of<E: Write>(
    alloc: Global,
    opened: &Opened,
    errors: &mut E,
) -> Result<Option<StoreFacts>, u8> {
    match StoreFacts::of(alloc, opened.1.iter()) {
        Ok(facts) => Ok(facts),
        Err(_) => Err(refuse(&DurableFault::Memory, errors)),
    }
}

/// The new store that a crash has left, which takes the place of the store from which it goes on.
fn taken<R: Files + Stores, E: Write>(
    rt: &R,
    alloc: Global,
    names: &StoreNames,
    facts: &StoreFacts,
    errors: &mut E,
) -> Result<Opened, u8> {
    let new = opened(rt, alloc, &names.new, errors)?;
    let old = old_store(rt, alloc, names, facts, errors)?;
    take_place(rt, alloc, names, old, errors)?;
    say(
        &names.new,
        "goes on from the store, and has taken its place",
        errors,
    );
    Ok(new)
}

/// The store that has more entries: this one, or a new one that a crash has left beside it.
fn newest<R: Files + Stores, E: Write>(
    rt: &R,
    alloc: Global,
    names: &StoreNames,
    store: Opened,
    errors: &mut E,
) -> Result<Opened, u8> {
    let Some(facts) = facts_of(alloc, &store, errors)? else {
        return Ok(store);
    };
    let relation = match look_beside(rt, alloc, &names.new) {
        Ok(Beside::Nothing) | Ok(Beside::Other) => Relation::Other,
        Ok(Beside::Cut) => Relation::Leftover,
        Ok(Beside::Store(new)) => facts.relation(&new),
        Err(_) => return Err(refuse(&DurableFault::Memory, errors)),
    };
    match relation {
        Relation::Other => Ok(store),
        Relation::Leftover => {
            discard(rt, alloc, names, errors)?;
            Ok(store)
        }
        Relation::Further => taken(rt, alloc, names, &facts, errors),
        Relation::Apart => {
            say(
                &names.new,
                "has entries that don't go on from the store's",
                errors,
            );
            Err(INVALID)
        }
    }
}

/// How many files there may be with what crashes have cut.
const MOST_TORN: u32 = 100_000;

/// The first name for what a crash has cut that nothing has yet: that of the store with `.torn` after it, or with a number too.
fn torn_path<R: Files>(rt: &R, alloc: Global, names: &StoreNames) -> io::Result<String> {
    let mut path = String::from_str(alloc, &names.torn)?;
    for number in 2..MOST_TORN {
        if !is_named(rt, &path) {
            break;
        }
        path = format!(in alloc; "{}.{number}", names.torn)?;
    }
    Ok(path)
}

/// Bytes without the zeros at their end.
fn without_zeros(bytes: &[u8]) -> &[u8] {
    let zeros = bytes.iter().rev().take_while(|byte| **byte == 0).count();
    let (front, _) = bytes.split_at(bytes.len().saturating_sub(zeros));
    front
}

/// Copies what a crash has cut into a new file beside the store, and waits until it and its name are on the disk.
fn keep_bytes<R: Files>(rt: &R, alloc: Global, names: &StoreNames, tail: &[u8]) -> io::Result<()> {
    let path = torn_path(rt, alloc, names)?;
    put_new(rt, &path, without_zeros(tail))?;
    SystemCalls { rt, names }.wait()
}

/// Copies what a crash has cut into a new file beside the store, before it is overwritten. A store with another outcome than the stored one is
/// refused later, and nothing is written beside it.
fn keep_tail<R: Files + Wait, E: Write>(
    rt: &R,
    alloc: Global,
    names: &StoreNames,
    store: &mut Sealed<File>,
    errors: &mut E,
) -> Result<(), u8> {
    if !store.is_torn() || !has_its_outcomes(rt, alloc, &names.store, errors)? {
        return Ok(());
    }
    let tail = match store.tail(alloc) {
        Ok(tail) => tail,
        Err(fault) => return Err(refuse(&DurableFault::from(fault), errors)),
    };
    match keep_bytes(rt, alloc, names, &tail) {
        Ok(()) => Ok(()),
        Err(error) => {
            say(&names.torn, error.kind(), errors);
            Err(FAILED)
        }
    }
}

/// What a store has to be that is opened.
#[derive(Clone, Copy)]
pub(crate) struct Wanted<'a> {
    /// The document that it was made of, if one is given.
    pub(crate) document: Option<&'a [u8]>,
    /// How many trials a match may take, if that is asked for.
    pub(crate) trials: Option<u32>,
}

impl Wanted<'_> {
    /// Whether a store that says this of itself is the one that is wanted. Another one is refused later, and nothing is written beside it.
    fn is(&self, facts: &StoreFacts) -> bool {
        let is_made_of = match self.document {
            Some(document) => facts.made_of.as_slice() == document,
            None => true,
        };
        is_made_of && self.trials.unwrap_or(facts.trials) == facts.trials
    }
}

/// Opens a store to which lines are to be added. What a crash has left of a compaction is put right first: a second name is removed, a new store
/// without entries of its own too, and one that has more entries takes the place. What was cut is copied to `FILE.torn`.
///
/// If that fails, the line of the fault is written, and the status comes back.
pub(crate) fn opened_to_go_on<R: Files + Stores + Wait, E: Write>(
    rt: &R,
    alloc: Global,
    path: &str,
    wanted: Wanted<'_>,
    errors: &mut E,
) -> Result<Opened, u8> {
    let Ok(names) = names_of(rt, alloc, path) else {
        return Err(refuse(&DurableFault::Memory, errors));
    };
    mend(rt, alloc, &names, errors)?;
    let store = opened(rt, alloc, &names.store, errors)?;
    let mut store = newest(rt, alloc, &names, store, errors)?;
    if let Some(facts) = facts_of(alloc, &store, errors)? {
        if wanted.is(&facts) {
            keep_tail(rt, alloc, &names, &mut store.0, errors)?;
        }
    }
    Ok(store)
}
