//! `sno serve`.
ghost use Rattle.sno_statement.specs.Statement.{IsLimit};
ghost use Rattle.sno_document.specs.Reads.{IsReady};

use crate::checks::document_bytes;
use crate::faults::ProgramFault;
use crate::listing_files::{ListingFile, open_listing, write_listing};
use crate::serve_command::ServeOptions;
use sno_document::{Document, DocumentFault, Mode, read_document};
use sno_listing::listing_of;
use sno_serve::{ServeFault, Served, Terms, serve};
use std::alloc::Global;
use std::io::{Read, Write};
use std::rt::Files;
use std::sync::Wait;
use std::thread::Threads;

/// The status after a document that is refused.
const INVALID: u8 = 2;

/// What a fault of the service is to the program.
fn fault_of(fault: ServeFault) -> ProgramFault {
    match fault {
        ServeFault::Memory => ProgramFault::Memory,
        ServeFault::Desk => ProgramFault::Closing,
        ServeFault::Read => ProgramFault::Input,
        ServeFault::Write => ProgramFault::Write,
    }
}

/// Writes the listing, if it is asked for, and returns the status: 0 unless something ended the service before the end of the input.
fn end<R: Files>(
    rt: &R,
    alloc: Global,
    options: &ServeOptions<'_>,
    served: &Served,
    listing: ListingFile<R::File>,
) -> Result<u8, ProgramFault> {
    if options.listing.is_some() {
        let bytes = listing_of(alloc, &served.book, &served.refused, true)?;
        write_listing(rt, listing, &bytes)?;
    }
    match served.fault {
        None => Ok(0),
        Some(fault) => Err(fault_of(fault)),
    }
}

/// How statements are performed that don't say it.
fn mode_of(options: &ServeOptions<'_>) -> Mode
    ensures { IsLimit result.trials }
{
    Mode {
        anchor: false,
        trials: options.trials,
    }
}

/// Serves a document that was read.
fn serve_document<R: Files + Threads + Wait + Sync, I: Read + Send + Drop, W: Write + Send + Drop>(
    rt: &R,
    alloc: Global,
    options: &ServeOptions<'_>,
    document: Document,
    input: I,
    output: W,
) -> Result<u8, ProgramFault>
    requires { IsReady document }
{
    let listing = open_listing(rt, alloc, options.listing)?;
    let terms = Terms {
        mode: mode_of(options),
        seats: options.seats as usize,
        tries: options.tries,
        lists: options.listing.is_some(),
    };
    match serve(rt, alloc, document, terms, input, output) {
        Ok(served) => end(rt, alloc, options, &served, listing),
        Err(fault) => Err(fault_of(fault)),
    }
}

/// Serves a document over the streams, and returns the status: 0 at the end of the input; 2 if the document is refused.
///
/// Refused with `Read`, `Input`, `Write`, `Memory` or `Closing`. The file of the listing is opened before the first line is read. The
/// listing is written even if a line could not be read, or a reply not be written.
pub(crate) fn run_serve<
    R: Files + Threads + Wait + Sync,
    I: Read + Send + Drop,
    W: Write + Send + Drop,
    E: Write,
>(
    rt: &R,
    alloc: Global,
    options: &ServeOptions<'_>,
    mut input: I,
    output: W,
    errors: &mut E,
) -> Result<u8, ProgramFault> {
    let bytes = document_bytes(rt, alloc, &mut input, Some(options.document))?;
    let read = read_document(alloc, &bytes, mode_of(options));
    drop(bytes);
    match read {
        Ok(document) => serve_document(rt, alloc, options, document, input, output),
        Err(DocumentFault::Memory) => Err(ProgramFault::Memory),
        Err(fault) => {
            let _printed = errors.writeln(fault);
            Ok(INVALID)
        }
    }
}
