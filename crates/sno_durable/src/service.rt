//! A service over a store, from its start to its end.
ghost use Rattle.std.specs.Prelude.{◌≡◌, ◌≤◌, ◌⊎◌, [], Ok, Err, Some, None, false, true, length, IfErr, IfOk, IsTrue, OnOk};
ghost use Rattle.std.specs.Thread.{IsSend, IsSync};
ghost use Rattle.serde_json.specs.View.{view};
ghost use Rattle.sno_book.specs.Books.{view_of};
ghost use Rattle.sno_book.specs.Views.{IsValid};
ghost use Rattle.sno_statement.specs.Statement.{IsLimit};
ghost use Rattle.sno_desk.specs.Turns.{position};
ghost use Rattle.sno_desk.specs.declared.desk.TheConstants.{MAX_SEATS, MAX_TRIES};
ghost use Rattle.sno_document.specs.Document.{IsDocument};
ghost use Rattle.sno_document.specs.Reads.{document_seen, IsReady};
ghost use Rattle.sno_sealed.specs.Sealed.{is_clean, Holds};
ghost use Rattle.sno_store.specs.Shown.{lines_in};
ghost use Rattle.sno_durable.specs.Compacted.{entries_before, made_of, versions_before};
ghost use Rattle.sno_durable.specs.Origins.{Fits, IsGiven, IsMadeOf, IsMeant, IsOriginFault, IsStartFault, bytes_given, origin_in, origin_seen};
ghost use Rattle.sno_durable.specs.Replayed.{HasCause, HasStopped};
ghost use Rattle.sno_durable.specs.Stored.{HasBegun, HasGoneOn, HasPut, IsKept, IsOnly, later_lines};
ghost use Rattle.sno_durable.specs.declared.faults.DurableFault.TheVariants.{Document as Refused, Memory, NoDocument};

use crate::DurableFault;
use crate::earlier::Reading;
use crate::first_lines::is_cut_first_line;
use crate::keeper::Keeper;
use crate::outlet::Outlet;
use crate::past::Past;
use crate::queue::Queue;
use crate::records::{Origin, origin_in, origin_line};
use crate::seats::{Door, Shared};
use crate::shelf::Shelf;
use sno_book::Book;
use sno_desk::{Blank, Desk, Naming, Seat, at_desk, close, may_cross};
use sno_document::{Document, DocumentFault, Mode, Rules, read_document};
use sno_listing::Refusal;
use sno_sealed::Sealed;
use sno_serve::{AtDesk, Intake};
use sno_statement::{MAX_TRIALS, Statement, USUAL_TRIALS};
use sno_store::Lines;
use sqlite_disk::Disk;
use std::alloc::{AllocError, Global};
use std::io::{Read, Write};
use std::marker::Brand;
use std::sync::{Arc, Mutex, Wait};
use std::thread::Threads;

/// What a service begins with. What is missing is taken from the store.
#[derive(Drop)]
pub struct Given {
    /// The bytes of the document.
    pub document: Option<Vec<u8>>,
    /// How many trials a match may take, 1 to 1,000,000,000; for a new store usually 1,000,000.
    pub trials: Option<u32>,
    /// With how many entries the service ends before the end of the input, so that another store can go on from this one.
    pub most: Option<u64>,
    /// Whether there will be a listing. Without one nothing is kept of refused statements.
    pub lists: bool,
}

/// Where lines come from, and where replies go.
#[derive(Drop)]
pub struct Client<I: Read, W: Write> {
    /// The lines.
    pub intake: Intake<I>,
    /// What the replies are written to.
    pub writer: W,
}

impl<I: Read + Drop, W: Write + Drop> Client<I, W> {
    /// The client whose lines come from this reader, and whose replies go to this writer. Refused only if memory runs out.
    pub fn new(alloc: Global, reader: I, writer: W) -> Result<Client<I, W>, DurableFault>
        ensures writer { IfOk result (λ c. c.writer ≡ writer) }
        ensures memory { IfErr result (λ e. e ≡ Memory) }
    {
        match Intake::new(alloc, reader) {
            Ok(intake) => Ok(Client { intake, writer }),
            Err(_) => Err(DurableFault::Memory),
        }
    }
}

/// How a service ended.
#[derive(Clone, Copy, Debug, PartialEq, Eq)]
pub struct Ended {
    /// How many entries are of the document's own statements.
    pub first: u64,
    /// Whether there may be more lines: the service ended since it has as many entries as it may have.
    pub more: bool,
}

/// What a durable service leaves.
#[derive(Drop)]
pub struct Kept<D: Disk, I: Read, W: Write> {
    /// The book, whose journal has the entries that were accepted.
    pub book: Book,
    /// What the listing has of refused statements, by rising number.
    pub refused: Vec<Refusal>,
    /// The store.
    pub store: Sealed<D>,
    /// What the store was made of.
    pub(crate) origin: Origin,
    /// The number of the next statement.
    pub(crate) number: u32,
    /// The client.
    pub client: Client<I, W>,
    /// How the service ended, or the fault that ended it.
    pub ended: Result<Ended, DurableFault>,
}

/// How many trials a match may take in a new store.
fn limit_of(given: Option<u32>) -> u32
    ensures { IsGiven given result }
{
    match given {
        Some(trials) => trials,
        None => USUAL_TRIALS,
    }
}

/// What a new store is made of.
fn new_origin(document: Option<Vec<u8>>, trials: Option<u32>) -> Result<Origin, DurableFault>
    ensures new { IfOk result (λ o. o.before ≡ None) }
    ensures given { IfOk result (λ o. IsGiven (bytes_given document) o.document.items × IsGiven trials o.trials) }
    ensures cause { IfErr result (λ e. (e ≡ NoDocument) × (bytes_given document ≡ None)) }
{
    match document {
        None => Err(DurableFault::NoDocument),
        Some(document) => Ok(Origin {
            document,
            trials: limit_of(trials),
            before: None,
        }),
    }
}

/// Whether the document that is given, if one is, has these bytes.
fn is_of(given: Option<Vec<u8>>, document: &[u8]) -> bool
    ensures same { result ≡ true → IsGiven (bytes_given given) document.now }
    ensures other { result ≡ false → ¬ IsGiven (bytes_given given) document.now }
{
    match given {
        Some(given) => given.as_slice() == document,
        None => true,
    }
}

/// Whether the limit that is given, if one is, is this.
fn is_with(given: Option<u32>, trials: u32) -> bool
    ensures same { result ≡ true → IsGiven given trials }
    ensures other { result ≡ false → ¬ IsGiven given trials }
{
    match given {
        Some(given) => given == trials,
        None => true,
    }
}

/// What a store with this first line was made of.
fn old_origin(
    alloc: Global,
    first: &[u8],
    document: Option<Vec<u8>>,
    trials: Option<u32>,
) -> Result<Origin, DurableFault>
    ensures said { IfOk result (λ o. origin_in first.now ≡ Some (origin_seen o)) }
    ensures given { IfOk result (λ o. IsGiven (bytes_given document) (made_of o.document.items o.before) × IsGiven trials o.trials) }
    ensures cause { IfErr result (IsOriginFault (bytes_given document) trials first.now) }
{
    let Some(origin) = origin_in(alloc, first)? else {
        return Err(DurableFault::Format);
    };
    if !is_of(document, origin.made_of()) {
        return Err(DurableFault::OtherDocument);
    }
    if !is_with(trials, origin.trials) {
        return Err(DurableFault::OtherTrials(origin.trials));
    }
    Ok(origin)
}

/// What the store was made of, by its first line; what is given, if it has no lines.
#[tactic(auto, using(crate::proofs::Originating::made_first, crate::proofs::Originating::made_new, crate::proofs::Originating::fault_first, crate::proofs::Originating::fault_new))]
fn origin_of(alloc: Global, lines: &Lines, given: Given) -> Result<Origin, DurableFault>
    ensures made_of { IfOk result (λ o. IsMadeOf o (lines_in lines.now)) }
    ensures given { IfOk result (λ o. Fits given o) }
    ensures cause { IfErr result (IsStartFault given (lines_in lines.now)) }
{
    let Given {
        document,
        trials,
        ..
    } = given;
    match lines.iter().next() {
        None => {
            let origin = new_origin(document, trials)?;
            Ok(origin)
        }
        Some(first) => {
            let origin = old_origin(alloc, first, document, trials)?;
            Ok(origin)
        }
    }
}

/// Whether a match may have this limit.
fn is_limit(trials: u32) -> bool
    ensures { result ≡ true → IsLimit trials }
{
    1 <= trials && trials <= MAX_TRIALS
}

/// The document of these bytes.
fn document_of(alloc: Global, bytes: &[u8], mode: Mode) -> Result<Document, DurableFault>
    requires { IsLimit mode.trials }
    ensures ready { IfOk result (λ d. IsReady d) }
    ensures document { IfOk result (λ d. IsDocument mode bytes.now (Ok (document_seen d))) }
    ensures cause { IfErr result (λ e. (e ≡ Memory) ⊎ ((f : DocumentFault) × (e ≡ Refused f) × IsDocument mode bytes.now (Err f))) }
{
    match read_document(alloc, bytes, mode) {
        Ok(document) => Ok(document),
        Err(DocumentFault::Memory) => Err(DurableFault::Memory),
        Err(fault) => Err(DurableFault::Document(fault)),
    }
}

/// Refuses a file that has something but no lines, unless it was cut while it was made: then nothing was ever shown. Another one is another
/// program's.
fn refuse_other<D: Disk + Drop>(
    alloc: Global,
    store: &mut Sealed<D>,
    lines: &Lines,
) -> Result<(), DurableFault>
    ensures { OnOk result (HasPut store.old store.new []) }
{
    if !lines.is_empty() || !store.is_torn() {
        return Ok(());
    }
    let tail = store.tail(alloc)?;
    if !is_cut_first_line(&tail) {
        return Err(DurableFault::Format);
    }
    Ok(())
}

/// Puts the first line into a store that was opened with these lines, if it has none.
fn begin_store<D: Disk + Drop>(
    alloc: Global,
    store: &mut Sealed<D>,
    lines: &Lines,
    origin: &Origin,
) -> Result<(), DurableFault>
    ensures { OnOk result (HasBegun origin.now (lines_in lines.now) store.old store.new) }
{
    if !lines.is_empty() {
        return Ok(());
    }
    let Ok(text) = str::from_utf8(&origin.document) else {
        return Err(DurableFault::Document(DocumentFault::NotJson));
    };
    let line = origin_line(alloc, text, origin.trials)?;
    let mut first = Lines::new(alloc);
    first.push(&line)?;
    store.put(&first)?;
    Ok(())
}

/// What is performed before the first line: the document's statements, and those of the records among the store's lines.
#[derive(Drop)]
struct Earlier<'a> {
    statements: &'a [Arc<Statement>],
    lines: Lines,
}

/// Works at the only seat: performs the statements of the document and of the records, then replies to lines until there are
/// no more.
fn at_seat<L: Naming, D: Disk + Drop, I: Read + Drop, W: Write + Drop, R: Wait>(
    at: &AtDesk<'_, L, R>,
    seat: &mut Seat<L>,
    keeper: &mut Keeper<D, I, W>,
    earlier: Earlier<'_>,
) -> Result<Ended, DurableFault>
    ensures gone { IfOk result (λ e. HasGoneOn keeper.old.reading L.opening e.first (later_lines (lines_in earlier.entry.lines)) (position seat.new.accepted seat.new.seen) keeper.old.shelf.store keeper.new.shelf.store) }
    ensures same { keeper.new.reading ≡ keeper.old.reading }
    ensures cause { IfErr result (HasStopped keeper.old.reading L.opening (later_lines (lines_in earlier.entry.lines))) }
{
    let Earlier { statements, lines } = earlier;
    keeper.begin(at, seat, statements)?;
    let first = seat.accepted();
    let mut records = lines.iter();
    let _origin = records.next();
    keeper.replay_all(at, seat, records)?;
    // The lines may take much memory, and a service may go on for long.
    drop(lines);
    let more = keeper.serve(at, seat)?;
    Ok(Ended { first, more })
}

/// Works at the only one of these seats.
fn at_only_seat<L: Naming, D: Disk + Drop, I: Read + Drop, W: Write + Drop, R: Wait>(
    at: &AtDesk<'_, L, R>,
    seats: &mut [Seat<L>],
    keeper: &mut Keeper<D, I, W>,
    earlier: Earlier<'_>,
) -> Result<Ended, DurableFault>
    requires one { length seats.old ≡ 1 }
    ensures gone { IfOk result (λ e. IsOnly (λ s. HasGoneOn keeper.old.reading L.opening e.first (later_lines (lines_in earlier.entry.lines)) (position s.accepted s.seen) keeper.old.shelf.store keeper.new.shelf.store) seats.new) }
    ensures cause { IfErr result (HasStopped keeper.old.reading L.opening (later_lines (lines_in earlier.entry.lines))) }
{
    at_seat(at, &mut seats[0], keeper, earlier)
}

/// Opens a desk with this blank, works at its only seat, and closes it.
fn at_named_desk<L: Naming, D: Disk + Drop, I: Read + Drop, W: Write + Drop, R: Wait>(
    rt: &R,
    alloc: Global,
    blank: Blank,
    book: Book,
    keeper: &mut Keeper<D, I, W>,
    earlier: Earlier<'_>,
) -> Result<(Book, Result<Ended, DurableFault>), DurableFault>
    requires name { (blank.ledger.name ≡ L.name) × (blank.ledger.parts ≡ L.parts) }
    requires histories { (blank.history ≡ record { history = L.book; entries = [] }) × (blank.attempts.history ≡ L.tries) }
    requires opening { book.opening ≡ L.opening }
    requires one { blank.ledger.parts ≡ 1 }
    requires empty { book.journal ≡ [] }
    ensures opening { IfOk result (λ left. left.0.opening ≡ book.opening) }
    ensures valid { IfOk result (λ left. IsValid (view_of left.0)) }
    ensures gone { IfOk result (λ left. IfOk left.1 (λ e. HasGoneOn keeper.old.reading book.opening e.first (later_lines (lines_in earlier.entry.lines)) (position (length left.0.journal) left.0.journal) keeper.old.shelf.store keeper.new.shelf.store)) }
    ensures cause { IfOk result (λ left. IfErr left.1 (HasStopped keeper.old.reading book.opening (later_lines (lines_in earlier.entry.lines)))) }
{
    let (desk, mut seats) = match Desk::<L>::new(rt, alloc, blank, book, 1) {
        Ok(made) => made,
        Err(_) => return Err(DurableFault::Desk),
    };
    let at = AtDesk {
        rt,
        alloc,
        desk: &desk,
    };
    let ended = at_only_seat(&at, seats.as_mut_slice(), keeper, earlier);
    match close(rt, desk, seats) {
        Ok(book) => Ok((book, ended)),
        Err(_) => Err(DurableFault::Desk),
    }
}

/// What came before the first entry of a store, and the number of the statement after those of its document.
fn beginning(alloc: Global, origin: &Origin, statements: u32) -> Result<(Past, u32), AllocError>
    ensures entries { IfOk result (λ b. b.0.entries ≡ entries_before origin.now.before) }
    ensures versions { IfOk result (λ b. view b.0.versions ≡ versions_before origin.now.before) }
{
    let past = origin.past(alloc)?;
    let number = past.statements.saturating_add(statements).saturating_add(1);
    Ok((past, number))
}

/// What a service has before its desk is opened.
#[derive(Drop)]
struct Begun<D: Disk> {
    store: Sealed<D>,
    lines: Lines,
    origin: Origin,
    reading: Reading,
    book: Book,
    statements: Vec<Arc<Statement>>,
    /// The number of the statement after those of the document.
    number: u32,
    most: u64,
    lists: bool,
    ghost empty: { book.journal ≡ [] },
}

/// Reads what the store was made of, and puts the first line into a new one.
fn beginning_of<D: Disk + Drop>(
    alloc: Global,
    opened: (Sealed<D>, Lines),
    given: Given,
) -> Result<Begun<D>, DurableFault>
    ensures begun { IfOk result (λ b. HasBegun b.origin (lines_in opened.1) opened.0 b.store) }
    ensures lines { IfOk result (λ b. b.lines ≡ opened.1) }
    ensures made_of { IfOk result (λ b. IsMadeOf b.origin (lines_in opened.1)) }
    ensures given { IfOk result (λ b. Fits given b.origin) }
    ensures meant { IfOk result (λ b. IsMeant b.origin b.reading b.book.opening) }
{
    let (mut store, lines) = opened;
    refuse_other(alloc, &mut store, &lines)?;
    let most = given.most.unwrap_or(u64::MAX);
    let lists = given.lists;
    let origin = origin_of(alloc, &lines, given)?;
    if !is_limit(origin.trials) {
        return Err(DurableFault::Format);
    }
    let mode = Mode {
        anchor: false,
        trials: origin.trials,
    };
    let Document {
        rules,
        book,
        statements,
    } = document_of(alloc, &origin.document, mode)?;
    begin_store(alloc, &mut store, &lines, &origin)?;
    let (past, number) = beginning(alloc, &origin, statements.len() as u32)?;
    let reading = Reading { rules, mode, past };
    Ok(Begun {
        store,
        lines,
        origin,
        reading,
        book,
        statements,
        number,
        most,
        lists,
    })
}

/// Serves the document of a store: performs its statements and those of its records again, then replies to each line of the
/// client, until there are no more, or the desk has as many entries as are given as the most. A line is that of
/// [`sno_serve::line_in`], and its reply that of [`sno_serve::reply_to`]; if the store goes on from others, their indices and
/// versions go on, too. `opened` is the store with the lines that it had when it was opened. If it had none, or its first line was cut, the
/// store is made of the document that is given.
///
/// Lines get their replies in the order in which they come. Those that were read together, up to 1,024, share one wait for the
/// disk: the records of their entries are put into the store, and the replies are written when these are on the disk. So no
/// reply shows an entry that a crash could take back. The most entries are looked at between such shares, so there may be up to
/// 1,023 more.
///
/// On `Ok` the journal of the book is legal. Unless `ended` is a fault, the store has its first line and one line for each entry
/// after the document's own statements, as far as the disk gave no other bytes than it has.
///
/// Refused before the first reply:
///
/// - `Format`: the file is of another format, or has something else than a first line that was cut. Nothing was written;
/// - `NoDocument`, `Document`: the store is new, and no document is given, or it is refused. Nothing was written;
/// - `OtherDocument`, `OtherTrials`: the store was made of another document than the one that is given, or with another limit.
///   Nothing was written;
/// - `Store` if the first line could not be put into a new store;
/// - `Memory`; `Desk` if there is no place for the seat, or the desk could not be closed, which no legal run meets.
///
/// A fault in `ended`: `Record`, `Outcome` if a line isn't a record, or its statement has another outcome than the stored
/// one; no line got a reply then. `Store`, `Read`, `Write`, `Memory`: lines whose replies were not written may have entries in
/// the store.
pub fn serve_durably<D: Disk + Drop, I: Read + Drop, W: Write + Drop, R: Wait>(
    rt: &R,
    alloc: Global,
    opened: (Sealed<D>, Lines),
    given: Given,
    client: Client<I, W>,
) -> Result<Kept<D, I, W>, DurableFault>
    ensures valid { IfOk result (λ k. IsValid (view_of k.book)) }
    ensures kept { IfOk result (λ k. IfOk k.ended (λ e. IsTrue (is_clean k.store) → Holds opened.0 (lines_in opened.1) → IsKept k.origin k.book.opening k.book.journal e.first (lines_in opened.1) opened.0 k.store)) }
    ensures given { IfOk result (λ k. Fits given k.origin) }
    ensures cause { IfOk result (λ k. IfErr k.ended (HasCause k.origin k.book.opening (later_lines (lines_in opened.1)))) }
{
    let Begun {
        store,
        lines,
        origin,
        reading,
        book,
        statements,
        number,
        most,
        lists,
    } = beginning_of(alloc, opened, given)?;
    let Client { intake, writer } = client;
    let mut keeper = Keeper {
        reading,
        number,
        shelf: Shelf {
            store,
            outlet: Outlet::new(writer),
        },
        most,
        intake,
        lists,
        refused: Vec::new(alloc),
    };
    let blank = Blank::new(1);
    let earlier = Earlier {
        statements: &statements,
        lines,
    };
    let (book, ended) = at_named_desk::<Brand, D, I, W, R>(
        rt,
        alloc,
        blank,
        book,
        &mut keeper,
        earlier,
    )?;
    Ok(left_by(keeper, origin, book, ended))
}

/// What the service leaves, of what was between the client and the desk.
fn left_by<D: Disk + Drop, I: Read + Drop, W: Write + Drop>(
    keeper: Keeper<D, I, W>,
    origin: Origin,
    book: Book,
    ended: Result<Ended, DurableFault>,
) -> Kept<D, I, W>
    ensures book { result.book ≡ book }
    ensures rest { (result.store ≡ keeper.shelf.store) × (result.origin ≡ origin) × (result.ended ≡ ended) }
{
    let Keeper {
        shelf: Shelf { store, outlet },
        refused,
        number,
        intake,
        ..
    } = keeper;
    Kept {
        book,
        refused,
        store,
        origin,
        number,
        client: Client {
            intake,
            writer: outlet.into_writer(),
        },
        ended,
    }
}

/// How many seats take lines, and how often each tries a statement.
#[derive(Clone, Copy)]
pub struct Seats {
    /// How many seats there are, 1 to 16.
    pub count: usize,
    /// How often a seat may try a statement, 1 to 1,000.
    pub tries: u32,
}

/// As [`serve_durably`], with lines taken by several seats, each in a thread of its own.
///
/// Replies come as they can be shown, and statements may be performed in another order than their lines have. Records are in the store
/// in the order of their entries. While one seat writes what all have left and waits for the disk, the others go on. A reply is written
/// when all entries that its seat had seen are on the disk. Seats wait for the disk once 1,024 replies wait for it, or 4,194,304 bytes
/// of them.
///
/// `opened` is the store with the lines that it had when it was opened. With one seat it is [`serve_durably`]. The most entries are looked at before each line, so there may be as many more as seats.
pub fn serve_durably_at<
    D: Disk + Send + Drop,
    I: Read + Send + Drop,
    W: Write + Send + Drop,
    R: Threads + Wait + Sync,
>(
    rt: &R,
    alloc: Global,
    opened: (Sealed<D>, Lines),
    given: Given,
    seats: Seats,
    client: Client<I, W>,
) -> Result<Kept<D, I, W>, DurableFault>
    requires few { (1 ≤ seats.count) × (seats.count ≤ MAX_SEATS) }
    requires tries { (1 ≤ seats.tries) × (seats.tries ≤ MAX_TRIES) }
    ensures valid { IfOk result (λ k. IsValid (view_of k.book)) }
    ensures kept { seats.count ≡ 1 → IfOk result (λ k. IfOk k.ended (λ e. IsTrue (is_clean k.store) → Holds opened.0 (lines_in opened.1) → IsKept k.origin k.book.opening k.book.journal e.first (lines_in opened.1) opened.0 k.store)) }
    ensures given { IfOk result (λ k. Fits given k.origin) }
    ensures cause { seats.count ≡ 1 → IfOk result (λ k. IfErr k.ended (HasCause k.origin k.book.opening (later_lines (lines_in opened.1)))) }
{
    if seats.count == 1 {
        return serve_durably(rt, alloc, opened, given, client);
    }
    let Begun {
        store,
        lines,
        origin,
        reading,
        book,
        statements,
        number,
        most,
        lists,
    } = beginning_of(alloc, opened, given)?;
    let Client { intake, writer } = client;
    let door = Door {
        intake,
        earlier: Some(lines),
        first: 0,
        is_full: false,
    };
    let shared = Shared {
        reading,
        statements,
        tries: seats.tries,
        most,
        numbers: Mutex::new(number),
        door: Mutex::new(door),
        queue: Mutex::new(Queue::new(alloc, lists)),
        shelf: Mutex::new(Shelf {
            store,
            outlet: Outlet::new(writer),
        }),
        fault: Mutex::new(None),
    };
    // for the proof
    may_cross::<Statement>();
    may_cross::<Rules>();
    may_move::<Door<I>>();
    may_move::<Queue>();
    may_move::<Shelf<D, W>>();
    may_move::<Option<DurableFault>>();
    may_share::<Reading>();
    match at_desk(rt, alloc, book, seats.count, &shared) {
        Ok(book) => left_by_seats(shared, origin, book),
        Err(_) => Err(DurableFault::Desk),
    }
}

/// Says to the prover that a value of this type may go to another thread.
fn may_move<T: Send>()
    ensures { IsSend T.row }
{}

/// Says to the prover that a value of this type may be shared by threads.
fn may_share<T: Sync>()
    ensures { IsSync T.row }
{}

/// What several seats leave.
fn left_by_seats<D: Disk + Drop, I: Read + Drop, W: Write + Drop>(
    shared: Shared<D, I, W>,
    origin: Origin,
    book: Book,
) -> Result<Kept<D, I, W>, DurableFault>
    ensures { IfOk result (λ k. (k.book ≡ book) × (k.origin ≡ origin)) }
{
    let Shared {
        numbers,
        door,
        queue,
        shelf,
        fault,
        ..
    } = shared;
    let Door {
        intake,
        first,
        is_full,
        ..
    } = door.into_inner();
    let Shelf { store, outlet } = shelf.into_inner();
    let mut refused = queue.into_inner().into_refused();
    refused.sort_by_key(|r| r.number)?;
    let ended = match fault.into_inner() {
        Some(fault) => Err(fault),
        None => Ok(Ended {
            first,
            more: is_full,
        }),
    };
    Ok(Kept {
        book,
        refused,
        store,
        origin,
        number: numbers.into_inner(),
        client: Client {
            intake,
            writer: outlet.into_writer(),
        },
        ended,
    })
}
