//! Desks.
ghost use Rattle.std.specs.Prelude.{◌≡◌, ◌≤◌, ◌+◌, [], IfOk, IfErr, OnOk, OnErr, drop, length, sum_by};
ghost use Rattle.std.specs.Arc.{arc_value};
ghost use Rattle.std.specs.List.{All};
ghost use mathlib.Core.List.{IsPrefix as Begins};
ghost use Rattle.sno_book.specs.Books.{view_of};
ghost use Rattle.sno_book.specs.Views.{IsValid, IsPrefix};
ghost use Rattle.sno_desk.specs.Replies.{IsReply, IsReplyAt, SpentAt, receipts_in};
ghost use Rattle.sno_desk.specs.Closings.{IsCloseCause, book_in};
ghost use Rattle.sno_desk.specs.Receipts.{IsCause, IsFor, NamesVersion, StandsAfter};
ghost use Rattle.sno_desk.specs.Seen.{IsInView, view_after};

use crate::locked::Locked;
use crate::openings::is_same;
use crate::submissions::Submission;
use crate::{Blank, CloseFault, CommitFault, DeskFault, Gate, Seat, SinceFault, SubmitFault};
use sno_book::{Book, Entry, Opening, Proposal, Receipt};
use sno_published::{Naming, Screen};
use sno_statement::Statement;
use std::alloc::{AllocError, Global};
use std::sync::ledger::{self, Share};
use std::sync::{Arc, Mutex, MutexGuard, Wait};

/// The most seats of a desk.
pub const MAX_SEATS: u32 = 16;

/// How many times a statement may be tried at most.
pub const MAX_TRIES: u32 = 1_000;

/// A book under one lock, for the seats of one ledger. By the type of what is under the lock, the journal has as many
/// entries as all seats together have accepted. It is not `Drop`: end it by [`close`] or [`Desk::end`].
pub struct Desk<L: Naming> {
    pub(crate) opening: Arc<Opening>,
    pub(crate) alloc: Global,
    pub(crate) lock: Mutex<Locked<L>>,
}

/// A seat with one part of the share. It sees what the screen shows.
fn seat_of<L: Naming>(screen: &Screen<L>, rest: &mut Share<L>) -> Result<Seat<L>, DeskFault>
    requires parts { 1 ≤ rest.old.parts }
    requires amount { rest.old.amount ≡ 0 }
    ensures none { IfOk result (λ s. (s.accepted ≡ 0) × (s.seen ≡ screen.now.shown)) }
    ensures rest { IfOk result (λ _. (rest.new.parts + 1 ≡ rest.old.parts) × (rest.new.amount ≡ 0)) }
{
    let Ok(viewer) = screen.viewer() else {
        return Err(DeskFault::NoReader);
    };
    Ok(Seat::new(rest.split_off(1, 0), viewer))
}

/// As many seats as the share has parts.
fn seats_of<L: Naming>(
    alloc: Global,
    screen: &Screen<L>,
    rest: &mut Share<L>,
    seats: usize,
) -> Result<Vec<Seat<L>>, DeskFault>
    requires parts { rest.old.parts ≡ seats }
    requires amount { rest.old.amount ≡ 0 }
    requires first { screen.now.shown ≡ [] }
    ensures count { IfOk result (λ v. length v.items ≡ seats) }
    ensures none { IfOk result (λ v. All (λ s. (s.accepted ≡ 0) × (s.seen ≡ [])) v.items) }
    ensures rest { IfOk result (λ _. (rest.new.parts ≡ 0) × (rest.new.amount ≡ 0)) }
{
    let mut made = Vec::new(alloc);
    for _seat in 0..seats {
        let seat = seat_of(screen, rest)?;
        let Ok(()) = made.push(seat) else {
            return Err(DeskFault::Memory);
        };
    }
    Ok(made)
}

/// A screen of the book's texts, for this many seats.
fn screen_of<L: Naming>(
    alloc: Global,
    blank: Blank,
    opening: &Arc<Opening>,
    seats: usize,
) -> Result<(Screen<L>, ledger::Book<L>, Share<L>), AllocError>
    requires name { (blank.ledger.name ≡ L.name) × (blank.ledger.parts ≡ L.parts) }
    requires histories { (blank.history ≡ record { history = L.book; entries = [] }) × (blank.attempts.history ≡ L.tries) }
    requires few { (1 ≤ seats) × (seats ≤ MAX_SEATS) }
    requires opening { arc_value opening.now ≡ L.opening }
    ensures screen { IfOk result (λ d. d.0.shown ≡ []) }
    ensures total { IfOk result (λ d. d.1.total ≡ 0) }
    ensures rest { IfOk result (λ d. (d.2.parts ≡ L.parts) × (d.2.amount ≡ 0)) }
{
    let (total, rest) = blank.ledger.open::<L>();
    let screen = Screen::new(alloc, opening, blank.history, blank.attempts, seats)?;
    Ok((screen, total, rest))
}

impl<L: Naming> Desk<L> {
    /// Returns a desk that begins with this book's opening, and its seats, each with a share of 0 and nothing seen. If
    /// it is refused, the call may wait.
    ///
    /// Requires from 1 to 16 seats, and a new blank with as many parts; that `L` names the blank and the book's
    /// opening; and that the book's journal is empty.
    ///
    /// Refused: `Memory`; `NoReader`, if there was no place for a reader, or no further share of what is shown. The
    /// book comes back as it was, and the blank is used up.
    pub fn new<R: Wait>(
        rt: &R,
        alloc: Global,
        blank: Blank,
        book: Book,
        seats: usize,
    ) -> Result<(Desk<L>, Vec<Seat<L>>), (DeskFault, Book)>
        requires name { (blank.ledger.name ≡ L.name) × (blank.ledger.parts ≡ L.parts) }
        requires histories { (blank.history ≡ record { history = L.book; entries = [] }) × (blank.attempts.history ≡ L.tries) }
        requires opening { book.opening ≡ L.opening }
        requires one_each { blank.ledger.parts ≡ seats }
        requires few { (1 ≤ seats) × (seats ≤ MAX_SEATS) }
        requires empty { book.journal ≡ [] }
        ensures opening { IfOk result (λ d. arc_value d.0.opening ≡ book.opening) }
        ensures count { IfOk result (λ d. length d.1.items ≡ seats) }
        ensures none { IfOk result (λ d. All (λ s. (s.accepted ≡ 0) × (s.seen ≡ [])) d.1.items) }
        ensures back { IfErr result (λ r. r.1 ≡ book) }
    {
        let Ok(opening) = Arc::try_clone(book.opening()) else {
            return Err((DeskFault::Memory, book));
        };
        let Ok((screen, total, mut rest)) = screen_of(alloc, blank, &opening, seats) else {
            return Err((DeskFault::Memory, book));
        };
        let made = match seats_of(alloc, &screen, &mut rest, seats) {
            Ok(made) => made,
            Err(fault) => {
                screen.end(rt);
                return Err((fault, book));
            }
        };
        let lock = Mutex::new(Locked {
            book,
            screen,
            total,
            rest,
        });
        let desk = Desk {
            opening,
            alloc,
            lock,
        };
        Ok((desk, made))
    }

    /// Commits a proposal to the book under the lock. If it is accepted, the call publishes its entry and counts it for
    /// the seat. The call waits for the lock, and for readers that still read what was shown before the last entry.
    ///
    /// Requires that the view from which the proposal comes begins what the seat has seen. This holds for a proposal on
    /// a snapshot of the seat.
    ///
    /// On `Ok`:
    ///
    /// - The receipt's entry is the proposal's, its text is the one that the proposal was made for, and the seat's
    ///   share is one higher.
    /// - The seat's view begins with a legal list of entries that ends in the receipt's, with as many entries before it as the
    ///   receipt's index.
    /// - What the seat has seen begins with this list, and with all that it had seen before.
    /// - The text is what the entries before the receipt's leave.
    /// - The index is no lower than the number of entries that the seat had seen, and no lower than its share was. If
    ///   there is no other seat, the index is that share.
    /// - The entry's version is no higher than the index.
    ///
    /// Refused, in this order:
    ///
    /// - `Stopped`, if an earlier publish of this desk was refused, or nothing more is shown to the seat. It also comes
    ///   if the seat has seen more than the journal has, which no legal run meets;
    /// - `NoText`, if the opening has no text of the statement's name, or has it at another place than the snapshot's;
    /// - `Changed`, with the proposal's version and the one that the text has after all that the seat has seen now. The
    ///   latter is at most a million, and at most the seat's share if there is no other seat;
    /// - `Full`, if the seat has seen as many entries as there is room for;
    /// - `Memory`. If the publish itself ran out of memory, the desk is stopped: it accepts nothing more, and can be
    ///   closed.
    ///
    /// Of `NoText`, `Changed` and `Full` the first that holds comes, and `Memory` only if none of them holds. After
    /// each refusal the share is the same, and no entry is added or shown. What the seat has seen begins with what it
    /// had seen, and the same proposal comes back.
    pub fn commit<R: Wait>(
        &self,
        rt: &R,
        seat: &mut Seat<L>,
        proposal: Proposal,
    ) -> Result<Receipt, (CommitFault, Proposal)>
        requires view { IsPrefix proposal.origin (view_after L.opening seat.old.seen) }
        ensures receipt { IfOk result (λ r. IsFor r proposal) }
        ensures index { IfOk result (λ r. StandsAfter L.parts seat.old.accepted r) }
        ensures later { IfOk result (λ r. length seat.old.seen ≤ r.index) }
        ensures in_view { IfOk result (λ r. IsInView L.opening seat.new.seen r) }
        ensures begins { Begins seat.old.seen seat.new.seen }
        ensures counted { OnOk result (seat.new.accepted ≡ seat.old.accepted + 1) }
        ensures back { IfErr result (λ r. r.1 ≡ proposal) }
        ensures cause { IfErr result (λ r. IsCause r.0 (view_after L.opening seat.new.seen) proposal) }
        ensures version { IfErr result (λ r. NamesVersion L.parts seat.old.accepted r.0) }
        ensures same { OnErr result (seat.new.accepted ≡ seat.old.accepted) }
    {
        let mut guard = self.lock.lock(rt);
        let reply = guard.commit(rt, seat, proposal);
        MutexGuard::unlock(guard);
        reply
    }

    /// Submits a statement. An attempt takes a snapshot, passes the gate, performs the statement on the snapshot and
    /// commits the proposal. If the text has changed in between, the next attempt begins, up to `tries` of them. Any
    /// other result is the result of the submit. Attempts count from 1. When there is a result, `done` of the gate is
    /// called once. The call waits for the lock and at the gate. No lock is held at the gate or while the statement is
    /// performed.
    ///
    /// Requires from 1 to 1,000 tries.
    ///
    /// On `Ok` the receipt's entry has this statement, index, version and text are as [`Desk::commit`] says, and the
    /// seat's share is one higher. On `Err` the share is the same, and no entry was added.
    ///
    /// Refused, in the order in which an attempt meets it:
    ///
    /// - `NoText` if the book has no text of the statement's name;
    /// - `TooManyTrials` and `TextTooLong`, only if performing the statement on the text, as the seat has seen it now,
    ///   gets this refusal;
    /// - `Stopped` as [`Desk::commit`] and [`Seat::snapshot`] say;
    /// - `Full`, if the seat has seen as many entries as there is room for. Performing the statement on the text, as
    ///   the seat has seen it now, is not refused then;
    /// - `Memory`, at whichever step memory runs out;
    /// - `TriesSpent` with two versions of the text.
    ///
    /// The first version of `TriesSpent` is the one that the last attempt saw. The text had it at some point between
    /// what the seat had seen before the call and what it has seen now. It is at least `tries` - 1 above the version
    /// that the seat had seen before. Performing the statement on that text is not refused. The second is the text's
    /// version at that attempt's commit. It is higher, at most a million, and at most the seat's share if there is no
    /// other seat.
    pub fn submit<R: Wait, G: Gate>(
        &self,
        rt: &R,
        alloc: Global,
        seat: &mut Seat<L>,
        statement: Arc<Statement>,
        tries: u32,
        gate: &G,
    ) -> Result<Receipt, SubmitFault>
        requires { (1 ≤ tries) × (tries ≤ MAX_TRIES) }
        ensures reply { IsReply (G.shuts gate.now) tries L.opening (arc_value statement) result }
        ensures at { IsReplyAt tries L.opening seat.old.seen seat.new.seen (arc_value statement) result }
        ensures begins { Begins seat.old.seen seat.new.seen }
        ensures index { IfOk result (λ r. StandsAfter L.parts seat.old.accepted r) }
        ensures spent { IfErr result (λ e. SpentAt L.parts seat.old.accepted e) }
        ensures counted { seat.new.accepted ≡ seat.old.accepted + receipts_in result }
    {
        let submission = Submission {
            desk: self,
            alloc,
            statement: &statement,
            tries,
            gate,
        };
        submission.reply(rt, seat)
    }

    /// Returns shares of the journal's entries from this index on, and none if it has no more. The call waits for the
    /// lock. It takes memory for the list alone, and holds the lock while it shares the entries.
    ///
    /// On `Ok` the seat has looked while the lock was held, so it has then seen the whole journal. The entries are those
    /// of its view from that index on. What it has seen begins with all that it had seen.
    ///
    /// Refused: `Stopped`, if nothing more is shown to the seat, or it has seen more than the journal has, which no legal
    /// run meets; `Memory`. The desk is unchanged.
    pub fn since<R: Wait>(
        &self,
        rt: &R,
        seat: &mut Seat<L>,
        from: usize,
    ) -> Result<Vec<Entry>, SinceFault>
        ensures entries { IfOk result (λ entries. entries.items ≡ drop from seat.new.seen) }
        ensures shown { OnOk result (seat.new.seen ≡ seat.new.shown) }
        ensures begins { Begins seat.old.seen seat.new.seen }
        ensures same { seat.new.accepted ≡ seat.old.accepted }
    {
        let guard = self.lock.lock(rt);
        let entries = guard.since(self.alloc, seat, from);
        MutexGuard::unlock(guard);
        entries
    }

    /// Waits for the readers, ends the desk and returns its book. It is meant for paths on which seats are lost: unlike
    /// [`close`] it doesn't ask for them, and says nothing of what they have accepted.
    ///
    /// The book's opening is the one that the desk began with, and its journal is legal from there.
    pub fn end<R: Wait>(self, rt: &R) -> Book
        ensures opening { result.opening ≡ L.opening }
        ensures valid { IsValid (view_of result) }
    {
        let Desk {
            opening: _opening,
            alloc: _alloc,
            lock,
        } = self;
        let (book, _total, _rest) = lock.into_inner().into_parts(rt);
        // for the proof
        let _ = book.journal();
        book
    }
}

/// Closes a desk and returns its book. The caller passes all the seats of the desk, as many as its ledger has parts.
/// The call waits for readers that still read.
///
/// On `Ok` the book's opening is the one that the desk began with. Its journal is legal from there, and has as many
/// entries as the seats have accepted. It begins with what each of the seats has seen or was shown, so the entry of
/// each receipt is in it, at the receipt's index. The call takes no memory.
///
/// Refused, in this order:
///
/// - `Opening`, exactly if the book's opening is not, by value, the desk's;
/// - `Journal`, exactly if the journal does not begin with what some seat has seen.
///
/// No legal run meets these. The book comes back with its journal, which is legal from the book's own opening and has
/// as many entries as the seats have accepted.
pub fn close<L: Naming, R: Wait>(
    rt: &R,
    desk: Desk<L>,
    seats: Vec<Seat<L>>,
) -> Result<Book, (CloseFault, Book)>
    requires all { length seats.items ≡ L.parts }
    ensures opening { IfOk result (λ book. book.opening ≡ arc_value desk.opening) }
    ensures seen { IfOk result (λ book. All (λ s. Begins s.seen book.journal) seats.items) }
    ensures cause { IfErr result (λ r. IsCloseCause r.0 r.1 (arc_value desk.opening) (All (λ s. Begins s.seen r.1.journal) seats.items)) }
    ensures counted { length (book_in result).journal ≡ sum_by (λ s. s.accepted) seats.items }
    ensures valid { IsValid (view_of (book_in result)) }
{
    let Desk {
        opening,
        alloc: _alloc,
        lock,
    } = desk;
    let locked = lock.into_inner();
    let has_all = locked.has_all(&seats);
    let book = locked.into_book(rt, seats);
    // for the proof
    let _ = book.journal();
    if !is_same(book.opening(), &opening) {
        Err((CloseFault::Opening, book))
    } else if !has_all {
        Err((CloseFault::Journal, book))
    } else {
        Ok(book)
    }
}
