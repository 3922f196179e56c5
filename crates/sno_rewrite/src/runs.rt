//! Runs over bytes, and over readers and writers.
ghost use Rattle.std.specs.Prelude.{◌≡◌, ◌≢◌, ◌≤◌, ◌+◌, ◌⊎◌, ℕ, List, Err, Ok, IfOk, IfErr, IfSome, OnOk};
ghost use Rattle.sno_rewrite.specs.declared.faults.RunFault.TheVariants.{Memory, Write as WriteFailed};
ghost use Rattle.sno_statement.specs.Statement.{IsLimit};
ghost use Rattle.sno_document.specs.Document.{Document, IsDocument};
ghost use Rattle.sno_document.specs.Reads.{document_seen, IsReady};
ghost use Rattle.sno_document.specs.declared.documents.TheConstants.{MAX_DOCUMENT};
ghost use Rattle.sno_document.specs.declared.modes.Mode.{Mode};
ghost use Rattle.sno_rewrite.specs.Faults.{IsFirstFault};
ghost use Rattle.sno_rewrite.specs.Modes.{mode_of, workers_in};
ghost use Rattle.sno_rewrite.specs.Reports.{IsReport, IsOutside};
ghost use Rattle.sno_rewrite.specs.Runs.{AreInLimits, FailsBy, FailsShared, IsBegun, IsOwn, IsRun, Reports};
ghost use Rattle.sno_rewrite.specs.Shared.{IsSharedReport};
ghost use Rattle.sno_desk.specs.declared.desk.TheConstants.{MAX_TRIES};
ghost use Rattle.sno_rewrite.specs.declared.options.TheConstants.{MAX_WORKERS};
ghost use Rattle.sno_rewrite.specs.Histories.{history_seen};
ghost use Rattle.sno_rewrite.specs.Streams.{RefusesLonger, TakesAtMost};
ghost use Rattle.std.specs.Io.KnownBytes.{IsAtEnd};

use crate::serial::{BookWithRefusals, perform_serial};
use crate::shared::perform_shared;
use crate::streams::{read_all, write_all};
use crate::{Options, RunFault};
use sno_document::read_document;
use sno_listing::listing_of;
use std::alloc::Global;
use std::io::{Read, Write};
use std::mem;
use std::sync::Wait;
use std::thread::Threads;

/// The result of a run.
#[derive(Debug, Drop)]
pub struct Report {
    /// The listing, in lines or as JSON.
    pub bytes: Vec<u8>,
    /// How many statements were refused.
    pub refused: usize,
}

/// What comes after a run.
#[derive(Clone, Copy)]
enum After {
    /// Its caller goes on, so the run frees what it held.
    Caller,
    /// The process ends, which frees all memory at once. To free each text, statement and entry first costs a fifth of a
    /// run for nothing.
    End,
}

/// Frees what a run held, if the process goes on.
fn release(performed: BookWithRefusals, after: After) {
    match after {
        After::Caller => drop(performed),
        After::End => mem::forget(performed),
    }
}

/// Performs the statements of a document in order on its texts, and lists what they did, as JSON if `json` is true.
/// Each match may take `trials` trials, 1 to 1,000,000,000. It ignores `workers` and `tries`.
///
/// Refused with the first fault of the bytes, in this order: `DocumentTooLong`, `NotJson`, `Shape`; then the
/// definitions, the texts and the statements, each as `specs/Document.antt` of `sno_document` checks them. It is also
/// refused with `Memory` if memory runs out.
pub fn run_serial(alloc: Global, bytes: &[u8], options: &Options) -> Result<Report, RunFault>
    requires { IsLimit options.now.trials }
    // The bytes are a document, and the report is that of its serial run.
    ensures found { IfOk result (λ report. IsReport (mode_of options.now) options.now.json bytes.now report.bytes.items report.refused) }
    // A document is refused only if memory runs out.
    ensures only { (d : Document) → IsDocument (mode_of options.now) bytes.now (Ok d) → IfErr result (λ e. e ≡ Memory) }
    // Any other fault is the first of the bytes.
    ensures fault { IfErr result (λ e. e ≢ Memory → IsFirstFault (mode_of options.now) bytes.now e) }
{
    let document = read_document(alloc, bytes, options.mode())?;
    serial_report(alloc, document, options.json, After::Caller)
}

/// The report of a document, performed in order.
fn serial_report(
    alloc: Global,
    document: sno_document::Document,
    json: bool,
    after: After,
) -> Result<Report, RunFault>
    requires { IsReady document }
    ensures found { (mode : Mode) (bytes : List ℕ) → IsDocument mode bytes (Ok (document_seen document))
        → IfOk result (λ report. IsReport mode json bytes report.bytes.items report.refused) }
    ensures memory { IfErr result (λ e. e ≡ Memory) }
{
    let performed = perform_serial(alloc, document)?;
    let bytes = listing_of(alloc, &performed.book, &performed.refused, json)?;
    let refused = performed.refused.len();
    release(performed, after);
    Ok(Report { bytes, refused })
}

/// The report of a document, performed by workers.
fn shared_report<T: Threads + Wait + Sync>(
    rt: &T,
    alloc: Global,
    document: sno_document::Document,
    workers: u32,
    options: &Options,
    after: After,
) -> Result<Report, RunFault>
    requires ready { IsReady document }
    requires workers { (1 ≤ workers) × (workers ≤ MAX_WORKERS) }
    requires tries { (1 ≤ options.now.tries) × (options.now.tries ≤ MAX_TRIES) }
    ensures found { (mode : Mode) (bytes : List ℕ) → IsDocument mode bytes (Ok (document_seen document))
        → IfOk result (λ report. IsSharedReport mode options.now.json workers options.now.tries bytes report.bytes.items report.refused) }
    ensures own { IfErr result IsOwn }
{
    let performed = perform_shared(rt, alloc, document, workers, options.tries)?;
    let bytes = listing_of(alloc, &performed.book, &performed.refused, options.json)?;
    let refused = performed.refused.len();
    release(performed, after);
    Ok(Report { bytes, refused })
}

/// Performs the statements of a document on its texts by `workers` workers, 1 to 16, or one if there is no number. It
/// lists what they did, as JSON if `json` is true. Each statement is tried at most `tries` times, 1 to 1,000, and each
/// match may take `trials` trials, 1 to 1,000,000,000.
///
/// The listing has the statements in the order in which they were accepted. Statements whose places differ by a
/// multiple of the number of workers are one worker's, and come in the document's order. Which of two others on one
/// text comes first is not fixed. One worker lists what [`run_serial`] lists.
///
/// Refused with the first fault of the bytes, as `run_serial` refuses; with `Memory` if memory runs out, even for a
/// single statement. A document may also be refused
///
/// - with `Stopped`, if a statement's reply was that and no reply was `Memory`;
/// - with `NoReader`, if there was no place for a worker's reader;
/// - with `Audit`, if the receipts of the statements don't agree with the journal;
/// - with `Closing`, if the desk does not close.
///
/// No legal run meets `Stopped`, `Audit` or `Closing`.
pub fn run_shared<T: Threads + Wait + Sync>(
    rt: &T,
    alloc: Global,
    bytes: &[u8],
    options: &Options,
) -> Result<Report, RunFault>
    requires { AreInLimits options.now }
    // The bytes are a document, and the report is that of a run by this many workers. Each statement is in the journal
    // once, those of one worker in their order, or is refused for a reason that has its cause in the journal. One
    // worker does what the serial run does.
    ensures found { IfOk result (λ report. IsSharedReport (mode_of options.now) options.now.json (workers_in options.now.workers) options.now.tries bytes.now report.bytes.items report.refused) }
    // A document is refused only for a fault of the run's own.
    ensures only { (d : Document) → IsDocument (mode_of options.now) bytes.now (Ok d) → IfErr result IsOwn }
    // Bytes that are not a document are refused with their first fault, or because memory ran out.
    ensures fault { IfErr result (FailsShared (mode_of options.now) bytes.now) }
{
    let workers = options.workers.unwrap_or(1);
    let document = read_document(alloc, bytes, options.mode())?;
    shared_report(rt, alloc, document, workers, options, After::Caller)
}

/// The report of the bytes, with workers or without. The bytes are dropped once they are read. What the run held is left to the
/// end of the process.
#[tactic(auto, using(crate::proofs::RunLemmas::read_fails_by, crate::proofs::RunLemmas::own_fails_by, crate::proofs::RunLemmas::memory_fails_by))]
fn report_by<T: Threads + Wait + Sync>(
    rt: &T,
    alloc: Global,
    bytes: Vec<u8>,
    options: &Options,
) -> Result<Report, RunFault>
    requires { AreInLimits options.now }
    ensures found { IfOk result (λ report. Reports options.now.workers options.now bytes.items report.bytes.items report.refused) }
    ensures fault { IfErr result (FailsBy options.now.workers (mode_of options.now) bytes.items) }
{
    let document = read_document(alloc, &bytes, options.mode())?;
    drop(bytes);
    match options.workers {
        None => serial_report(alloc, document, options.json, After::End),
        Some(workers) => shared_report(rt, alloc, document, workers, options, After::End),
    }
}

/// Reads a document to its end, performs its statements, in order or by workers if there are any, and writes the
/// listing and nothing else. It returns the status of a run that did so: 0 if no statement was refused, otherwise 1.
/// Requires options within the limits that `run_shared` has.
///
/// It is for a program that ends then: after a listing, the memory of the texts, the statements and the journal isn't given
/// back before the process ends. A caller that goes on calls `run_serial` or `run_shared`.
///
/// Refused:
///
/// - `Read` if a read fails, even if it was only interrupted;
/// - a fault of the document as `run_serial` returns it, also for more than 16,777,216 bytes, or of the run as
///   `run_shared` returns it;
/// - `Memory`;
/// - `Write` if a write fails, even if it was only interrupted, or takes no byte.
///
/// After `Write` the writer holds a beginning of the listing after what it held. After any other fault nothing was
/// written. At most 16,777,217 bytes are read.
pub fn run<T: Threads + Wait + Sync, R: Read, W: Write>(
    rt: &T,
    alloc: Global,
    reader: &mut R,
    writer: &mut W,
    options: &Options,
) -> Result<u8, RunFault>
    requires { AreInLimits options.now }
    // The reader was read to its end.
    ensures end { OnOk result (IsAtEnd (R.remaining reader.new)) }
    // What was written is the listing of the document, and the status says whether a statement was refused.
    ensures done { IfOk result (λ status. IfSome (R.remaining reader.old) (λ bytes.
        IsRun options.now bytes (W.contents writer.old) (W.contents writer.new) status)) }
    // A fault is that of the document or of the run's own, unless memory ran out, or a read or a write failed.
    ensures fault { IfErr result (λ e. IsOutside e ⊎ IfSome (R.remaining reader.old) (λ bytes. FailsBy options.now.workers (mode_of options.now) bytes e)) }
    // After a fault nothing was written, unless a write failed. Then a beginning of the listing was written.
    ensures nothing { IfErr result (λ e. (writer.new ≡ writer.old) ⊎ ((e ≡ WriteFailed) × IfSome (R.remaining reader.old) (λ bytes.
        IsBegun options.now bytes (W.contents writer.old) (W.contents writer.new)))) }
    // At most one byte more than a document may have was taken from the reader.
    ensures taken { TakesAtMost (MAX_DOCUMENT + 1) (R.remaining reader.old) (R.remaining reader.new) }
    // Of an input longer than a document may be, exactly one byte more than a document may have was taken, unless
    // memory ran out or a read failed first.
    ensures longer { RefusesLonger (R.remaining reader.old) (R.remaining reader.new) result }
{
    let bytes = read_all(alloc, reader)?;
    let report = report_by(rt, alloc, bytes, options)?;
    write_all(writer, &report.bytes)?;
    Ok(if report.refused == 0 { 0 } else { 1 })
}
