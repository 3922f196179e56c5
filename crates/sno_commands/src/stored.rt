//! `sno serve --store`: a document over a store.
ghost use Rattle.std.specs.Prelude.{◌≡◌, IfOk, IsTrue};
ghost use Rattle.sno_store.specs.Shown.{lines_in};
ghost use Rattle.sno_store.specs.Store.{is_clean, lines_of};

use crate::checks::document_bytes;
use crate::compactions::compact;
use crate::faults::{FAILED, MISUSED, ProgramFault};
use crate::listing_files::{ListingFile, open_listing, write_listing};
use crate::serve_command::{LISTING_ON_STORE, StoreOptions};
use crate::starts::{Wanted, opened_to_go_on};
use crate::store_names::{StoreNames, names_of, place_of};
use crate::streams::write_all;
use sno_durable::{Client, DurableFault, Given, Kept, Seats, serve_durably_at};
use sno_sealed::Sealed;
use sno_store::{File, Lines, OpenFault, Store, open};
use sqlite_disk::Disk;
use std::alloc::{AllocError, Global};
use std::fs;
use std::io::{Read, Write};
use std::rt::Files;
use std::sync::Wait;
use std::thread::Threads;

/// The status after a store or a document that is refused.
pub(crate) const INVALID: u8 = 2;

/// A store that was opened, and its lines without their sums.
pub(crate) type Opened = (Sealed<File>, Lines);

/// What opens stores.
pub trait Stores {
    /// Opens the store in a file, which is made if it is missing, and reads its lines.
    fn open_store(&self, path: &str) -> Result<(Store<File>, Lines), OpenFault>
        ensures lines { IfOk result (λ it. IsTrue (is_clean it.0) → lines_in it.1 ≡ lines_of it.0) };
}

impl Stores for HostRuntime {
    fn open_store(&self, path: &str) -> Result<(Store<File>, Lines), OpenFault> {
        open(self, path)
    }
}

/// The status after this fault: 2 if the store or the document is at fault, 4 if the machine is.
pub(crate) fn status_of(fault: &DurableFault) -> u8 {
    match fault {
        DurableFault::Memory
        | DurableFault::Read
        | DurableFault::Write
        | DurableFault::Desk
        | DurableFault::Store(_)
        | DurableFault::Line(_) => FAILED,
        DurableFault::NoDocument
        | DurableFault::Document(_)
        | DurableFault::Format
        | DurableFault::OtherDocument
        | DurableFault::OtherTrials(_)
        | DurableFault::TextsTooLong
        | DurableFault::Damaged(_)
        | DurableFault::Record(_)
        | DurableFault::Outcome(_) => INVALID,
    }
}

/// Writes the line of a fault, and returns its status.
pub(crate) fn refuse<E: Write>(fault: &DurableFault, errors: &mut E) -> u8 {
    let _printed = errors.writeln(fault);
    status_of(fault)
}

/// Opens a store; if it can't be opened, or a line of it is damaged, the line of the fault is written, and the status comes back.
pub(crate) fn opened<R: Stores, E: Write>(
    rt: &R,
    alloc: Global,
    path: &str,
    errors: &mut E,
) -> Result<Opened, u8> {
    let (store, lines) = match rt.open_store(path) {
        Ok(opened) => opened,
        Err(fault) => {
            let _printed = writeln!(errors, "store: {fault}");
            return Err(FAILED);
        }
    };
    match Sealed::of(alloc, store, lines) {
        Ok(opened) => Ok(opened),
        Err(fault) => Err(refuse(&DurableFault::from(fault), errors)),
    }
}

/// Whether there is something with this path.
fn is_there<R: Files>(rt: &R, path: &str) -> bool {
    fs::metadata(rt, path).is_ok()
}

/// Whether the file of the listing, or the new file that takes its place, is one of the store's.
fn lists_onto<R: Files>(
    rt: &R,
    alloc: Global,
    names: &StoreNames,
    listing: &str,
) -> Result<bool, AllocError> {
    let place = place_of(rt, alloc, listing)?;
    let new = format!(in alloc; "{place}.new")?;
    Ok(names.has(&place) || names.has(&new))
}

/// The status if a store can't have its names: those of a new one would be too long, or the listing would be written over it. The line of
/// the fault is written.
fn refused_names<R: Files, E: Write>(
    rt: &R,
    alloc: Global,
    options: &StoreOptions<'_>,
    names: &StoreNames,
    errors: &mut E,
) -> Result<Option<u8>, ProgramFault> {
    if let Some(listing) = options.listing {
        if lists_onto(rt, alloc, names, listing)? {
            let _printed = write_all(errors, LISTING_ON_STORE.as_bytes());
            return Ok(Some(MISUSED));
        }
    }
    if !is_there(rt, &names.store) && names.are_too_long(rt, alloc)? {
        let _printed = errors.writeln("store: its name is too long");
        return Ok(Some(FAILED));
    }
    Ok(None)
}

/// The streams of a service.
#[derive(Drop)]
struct Streams<I: Read + Drop, W: Write + Drop> {
    /// From where lines come.
    input: I,
    /// Where replies go.
    output: W,
}

/// Serves a document over a store, and returns the status: 0 at the end of the input; 2 if the store or the document is
/// refused; 4 after a fault of the machine. The line of a fault is on `errors`. The listing is written at the end of the
/// input alone, since otherwise it might show what is not in the store.
pub(crate) fn run_stored<
    R: Files + Stores + Threads + Wait + Sync,
    I: Read + Send + Drop,
    W: Write + Send + Drop,
    E: Write,
>(
    rt: &R,
    alloc: Global,
    options: &StoreOptions<'_>,
    mut input: I,
    output: W,
    errors: &mut E,
) -> Result<u8, ProgramFault> {
    let names = names_of(rt, alloc, options.store)?;
    if let Some(status) = refused_names(rt, alloc, options, &names, errors)? {
        return Ok(status);
    }
    let document = match options.document {
        None if !is_there(rt, options.store) => {
            return Ok(refuse(&DurableFault::NoDocument, errors));
        }
        None => None,
        Some(path) => Some(document_bytes(rt, alloc, &mut input, Some(path))?),
    };
    let streams = Streams { input, output };
    serve_listed(rt, alloc, options, document, streams, errors)
}

/// Serves the document, or that of the store, and writes the listing.
fn serve_listed<
    R: Files + Stores + Threads + Wait + Sync,
    I: Read + Send + Drop,
    W: Write + Send + Drop,
    E: Write,
>(
    rt: &R,
    alloc: Global,
    options: &StoreOptions<'_>,
    document: Option<Vec<u8>>,
    streams: Streams<I, W>,
    errors: &mut E,
) -> Result<u8, ProgramFault> {
    let listing = open_listing(rt, alloc, options.listing)?;
    match serve_given(rt, alloc, options, document, streams, errors) {
        Ok(kept) => end(rt, alloc, &kept, listing, errors),
        Err(status) => Ok(status),
    }
}

/// Opens the store and serves lines until there are no more; if nothing can be served, the line of the fault is written, and the status
/// comes back.
fn serve_given<
    R: Files + Stores + Threads + Wait + Sync,
    I: Read + Send + Drop,
    W: Write + Send + Drop,
    E: Write,
>(
    rt: &R,
    alloc: Global,
    options: &StoreOptions<'_>,
    document: Option<Vec<u8>>,
    streams: Streams<I, W>,
    errors: &mut E,
) -> Result<Kept<File, I, W>, u8> {
    let kept = serve_first(rt, alloc, options, document, streams, errors)?;
    serve_on(rt, alloc, options, kept, errors)
}

/// Opens the store and serves lines until there are no more, or until the store has as many entries as it keeps.
fn serve_first<
    R: Files + Stores + Threads + Wait + Sync,
    I: Read + Send + Drop,
    W: Write + Send + Drop,
    E: Write,
>(
    rt: &R,
    alloc: Global,
    options: &StoreOptions<'_>,
    document: Option<Vec<u8>>,
    streams: Streams<I, W>,
    errors: &mut E,
) -> Result<Kept<File, I, W>, u8> {
    let wanted = Wanted {
        document: document.as_ref().map(|document| document.as_slice()),
        trials: options.trials,
    };
    let opened = opened_to_go_on(rt, alloc, options.store, wanted, errors)?;
    let given = Given {
        document,
        trials: options.trials,
        most: options.keep,
        lists: options.listing.is_some(),
    };
    let Streams { input, output } = streams;
    let kept = match Client::new(alloc, input, output) {
        Ok(client) => serve_opened(rt, alloc, options, opened, given, client),
        Err(fault) => Err(fault),
    };
    served(kept, errors)
}

/// Serves a client over a store, by the seats that are asked for.
fn serve_opened<R: Threads + Wait + Sync, I: Read + Send + Drop, W: Write + Send + Drop>(
    rt: &R,
    alloc: Global,
    options: &StoreOptions<'_>,
    opened: Opened,
    given: Given,
    client: Client<I, W>,
) -> Result<Kept<File, I, W>, DurableFault> {
    let seats = Seats {
        count: options.seats as usize,
        tries: options.tries,
    };
    serve_durably_at(rt, alloc, opened, given, seats, client)
}

/// What a service leaves; if nothing could be served, the line of the fault is written, and the status comes back.
fn served<I: Read + Drop, W: Write + Drop, E: Write>(
    served: Result<Kept<File, I, W>, DurableFault>,
    errors: &mut E,
) -> Result<Kept<File, I, W>, u8> {
    match served {
        Ok(kept) => Ok(kept),
        Err(fault) => Err(refuse(&fault, errors)),
    }
}

/// Serves lines until there are no more. Each time that the store has as many entries as it keeps, another one goes on. If it can't, the
/// line of the fault is written, and the status comes back.
fn serve_on<
    R: Files + Stores + Threads + Wait + Sync,
    I: Read + Send + Drop,
    W: Write + Send + Drop,
    E: Write,
>(
    rt: &R,
    alloc: Global,
    options: &StoreOptions<'_>,
    kept: Kept<File, I, W>,
    errors: &mut E,
) -> Result<Kept<File, I, W>, u8> {
    let mut kept = kept;
    for _ in 0..u64::MAX {
        if !has_more(&kept) {
            return Ok(kept);
        }
        let opened = compact(rt, alloc, options.store, &kept, errors)?;
        kept = serve_next(rt, alloc, options, kept, opened, errors)?;
    }
    Ok(kept)
}

/// Whether the service ended since the store has as many entries as it keeps.
fn has_more<D: Disk, I: Read, W: Write>(kept: &Kept<D, I, W>) -> bool {
    match &kept.ended {
        Ok(ended) => ended.more,
        Err(_) => false,
    }
}

/// Serves the client that is left over the store that goes on.
fn serve_next<R: Threads + Wait + Sync, I: Read + Send + Drop, W: Write + Send + Drop, E: Write>(
    rt: &R,
    alloc: Global,
    options: &StoreOptions<'_>,
    kept: Kept<File, I, W>,
    opened: Opened,
    errors: &mut E,
) -> Result<Kept<File, I, W>, u8> {
    let Kept { client, .. } = kept;
    let given = Given {
        document: None,
        trials: None,
        most: options.keep,
        lists: options.listing.is_some(),
    };
    served(
        serve_opened(rt, alloc, options, opened, given, client),
        errors,
    )
}

/// Writes the listing, if it is asked for, or the line of the fault that ended the service, and returns the status.
fn end<R: Files, D: Disk, I: Read, W: Write, E: Write>(
    rt: &R,
    alloc: Global,
    kept: &Kept<D, I, W>,
    listing: ListingFile<R::File>,
    errors: &mut E,
) -> Result<u8, ProgramFault> {
    if let Err(fault) = &kept.ended {
        return Ok(refuse(fault, errors));
    }
    if matches!(listing, ListingFile::Nowhere) {
        return Ok(0);
    }
    let bytes = kept.listing(alloc)?;
    write_listing(rt, listing, &bytes)?;
    Ok(0)
}
