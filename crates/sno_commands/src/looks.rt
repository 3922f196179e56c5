//! `sno store`: a store is looked at, made short, or saved as far as it is whole.

use crate::beside::bytes_of;
use crate::compactions::compact;
use crate::faults::{FAILED, ProgramFault};
use crate::read_only::ReadOnly;
use crate::starts::{Wanted, opened_to_go_on};
use crate::store_command::{StoreAction, StoreRequest};
use crate::stored::{Stores, refuse, status_of};
use crate::streams::{put_new, write_all};
use sno_durable::{Client, DurableFault, Given, Kept, serve_durably};
use sno_sealed::{SealFault, Sealed, undamaged};
use sno_store::{Lines, Store};
use sqlite_disk::Disk;
use std::alloc::{AllocError, Global};
use std::io::Write;
use std::rt::Files;
use std::sync::Wait;

/// How many times a file is read that seems damaged: a service may be writing to it.
const READINGS: u32 = 10;

/// Any store, whatever it was made of.
const ANY_STORE: Wanted<'static> = Wanted {
    document: None,
    trials: None,
};

/// No lines, for a store that is only looked at.
const NO_LINES: &[u8] = &[];

/// What a store leaves that no line is added to.
type Looked<D> = Kept<D, &'static [u8], Vec<u8>>;

/// Performs the statements of a store again.
fn replay<R: Wait, D: Disk + Drop>(
    rt: &R,
    alloc: Global,
    opened: (Sealed<D>, Lines),
) -> Result<Looked<D>, DurableFault> {
    let client = Client::new(alloc, NO_LINES, Vec::new(alloc))?;
    let given = Given {
        document: None,
        trials: None,
        most: None,
        lists: true,
    };
    serve_durably(rt, alloc, opened, given, client)
}

/// The store in a file that is only read, with its lines.
fn opened_to_look(alloc: Global, bytes: Vec<u8>) -> Result<(Sealed<ReadOnly>, Lines), SealFault> {
    let mut store = Store::new(ReadOnly::new(bytes));
    let lines = match store.load(alloc) {
        Ok(lines) => lines,
        Err(fault) => return Err(SealFault::Store(fault)),
    };
    Sealed::of(alloc, store, lines)
}

/// The store in a file that is only read. A service may be writing to it: so it is damaged only if it seems so at the same line each time.
///
/// Refused with `Read`. If a line is damaged, the line of the fault is written, and the status comes back.
fn read_store<R: Files, E: Write>(
    rt: &R,
    alloc: Global,
    path: &str,
    errors: &mut E,
) -> Result<Result<(Sealed<ReadOnly>, Lines), u8>, ProgramFault> {
    let mut damaged = 0;
    for _ in 0..READINGS {
        let Ok(bytes) = bytes_of(rt, alloc, path) else {
            return Err(ProgramFault::Read);
        };
        match opened_to_look(alloc, bytes) {
            Ok(opened) => return Ok(Ok(opened)),
            Err(SealFault::Damaged(line)) if line != damaged => damaged = line,
            Err(fault) => return Ok(Err(refuse(&DurableFault::from(fault), errors))),
        }
    }
    Ok(Err(refuse(&DurableFault::Damaged(damaged), errors)))
}

/// Whether the statements of a store's lines have the outcomes that are stored. If a fault of the machine keeps that from being found, its line is
/// written, and the status comes back.
pub(crate) fn has_its_outcomes<R: Files + Wait, E: Write>(
    rt: &R,
    alloc: Global,
    path: &str,
    errors: &mut E,
) -> Result<bool, u8> {
    let Ok(bytes) = bytes_of(rt, alloc, path) else {
        return Err(refuse(&DurableFault::Read, errors));
    };
    let ended = match opened_to_look(alloc, bytes) {
        Ok(opened) => match replay(rt, alloc, opened) {
            Ok(kept) => kept.ended,
            Err(fault) => Err(fault),
        },
        Err(fault) => Err(DurableFault::from(fault)),
    };
    match ended {
        Ok(_) => Ok(true),
        Err(fault) if status_of(&fault) == FAILED => Err(refuse(&fault, errors)),
        Err(_) => Ok(false),
    }
}

/// What is written of a store: its listing, or how many entries it has.
fn shown<D: Disk>(
    alloc: Global,
    action: StoreAction,
    kept: &Looked<D>,
) -> Result<Vec<u8>, AllocError> {
    match action {
        StoreAction::List => kept.listing(alloc),
        StoreAction::Check | StoreAction::Compact | StoreAction::Salvage => {
            let count = kept.entries();
            let line = format!(in alloc; "{count} entries\n")?;
            Ok(line.into_bytes())
        }
    }
}

/// Performs the statements of a store's lines again, and writes what is asked for. Nothing is written to the store.
fn look<R: Files + Wait, W: Write, E: Write>(
    rt: &R,
    alloc: Global,
    request: &StoreRequest<'_>,
    output: &mut W,
    errors: &mut E,
) -> Result<u8, ProgramFault> {
    let opened = match read_store(rt, alloc, request.store, errors)? {
        Ok(opened) => opened,
        Err(status) => return Ok(status),
    };
    if opened.1.is_empty() {
        return Ok(refuse(&DurableFault::Format, errors));
    }
    let kept = match replay(rt, alloc, opened) {
        Ok(kept) => kept,
        Err(fault) => return Ok(refuse(&fault, errors)),
    };
    if let Err(fault) = &kept.ended {
        return Ok(refuse(fault, errors));
    }
    write_all(output, &shown(alloc, request.action, &kept)?)?;
    Ok(0)
}

/// Replaces a store by one that goes on from it, and writes how many entries there are.
fn make_short<R: Files + Stores + Wait, W: Write, E: Write>(
    rt: &R,
    alloc: Global,
    request: &StoreRequest<'_>,
    output: &mut W,
    errors: &mut E,
) -> Result<u8, ProgramFault> {
    let opened = match opened_to_go_on(rt, alloc, request.store, ANY_STORE, errors) {
        Ok(opened) => opened,
        Err(status) => return Ok(status),
    };
    let kept = match replay(rt, alloc, opened) {
        Ok(kept) => kept,
        Err(fault) => return Ok(refuse(&fault, errors)),
    };
    if let Err(fault) = &kept.ended {
        return Ok(refuse(fault, errors));
    }
    if let Err(status) = compact(rt, alloc, request.store, &kept, errors) {
        return Ok(status);
    }
    write_all(output, &shown(alloc, request.action, &kept)?)?;
    Ok(0)
}

/// Writes the lines before the first damaged one to a new file, and how many they are.
fn salvage<R: Files, W: Write, E: Write>(
    rt: &R,
    alloc: Global,
    request: &StoreRequest<'_>,
    output: &mut W,
    errors: &mut E,
) -> Result<u8, ProgramFault> {
    let Ok(bytes) = bytes_of(rt, alloc, request.store) else {
        return Err(ProgramFault::Read);
    };
    let Ok(whole) = undamaged(alloc, &bytes) else {
        return Err(ProgramFault::Memory);
    };
    if whole.lines == 0 {
        return Ok(refuse(&DurableFault::Damaged(1), errors));
    }
    let (lines, _) = bytes.split_at(whole.end.min(bytes.len()));
    if let Err(error) = put_new(rt, request.out, lines) {
        let _printed = writeln!(errors, "{}: {}", request.out, error.kind());
        return Ok(FAILED);
    }
    let line = format!(in alloc; "{} lines\n", whole.lines)?;
    write_all(output, line.as_bytes())?;
    Ok(0)
}

/// Does with a store what is asked for, and returns the status: 0 if each statement has the outcome that is stored; 2 if the store is refused; 4
/// after a fault of the machine. The number of entries, or the listing, goes to the output. A store that is checked or listed is only read.
pub(crate) fn run_store<R: Files + Stores + Wait, W: Write, E: Write>(
    rt: &R,
    alloc: Global,
    request: &StoreRequest<'_>,
    output: &mut W,
    errors: &mut E,
) -> Result<u8, ProgramFault> {
    if rt.metadata(request.store).is_err() {
        return Err(ProgramFault::Read);
    }
    match request.action {
        StoreAction::Check | StoreAction::List => look(rt, alloc, request, output, errors),
        StoreAction::Compact => make_short(rt, alloc, request, output, errors),
        StoreAction::Salvage => salvage(rt, alloc, request, output, errors),
    }
}
