//! What is under a desk's lock.
ghost use Rattle.std.specs.Prelude.{◌≡◌, ◌≤◌, ◌<◌, Decides, IfOk, IfErr, OnOk, OnErr, None, drop, length, sum_by, true};
ghost use Rattle.std.specs.List.{All};
ghost use mathlib.Core.List.{IsPrefix as Begins};
ghost use Rattle.sno_book.specs.Books.{view_of};
ghost use Rattle.sno_book.specs.Commits.{Fits, refusal};
ghost use Rattle.sno_book.specs.Origins.{IsPerformed};
ghost use Rattle.sno_book.specs.Views.{IsPrefix, AreRelated};
ghost use Rattle.sno_desk.specs.Commits.{IsCommitted, IsReturned};
ghost use Rattle.sno_desk.specs.Seen.{view_after};
ghost use Rattle.sno_desk.specs.Turns.{position};
ghost use Rattle.sno_desk.specs.declared.faults.CommitFault.TheVariants.{Memory};

use crate::seats::{are_within, gather};
use crate::{CommitFault, Seat, SinceFault};
use sno_book::{Book, Entry, Proposal, Ready, Receipt, related_agree, versions_count_entries};
use sno_published::{Naming, Screen};
use std::alloc::Global;
use std::marker::Model;
use std::sync::Wait;
use std::sync::ledger::{self, Share};

/// The book, what is shown of it, and the ledger's total, which is the number of the journal's entries. What is shown
/// is the journal, whether the desk is stopped or not. So the lock is never released with an entry that no seat counts
/// or no reader sees, nor with a count without its entry. `rest` is what is left of the ledger's shares when each seat
/// has its part: nothing.
pub(crate) struct Locked<L: Naming> {
    pub(crate) book: Book,
    pub(crate) screen: Screen<L>,
    pub(crate) total: ledger::Book<L>,
    pub(crate) rest: Share<L>,
}

impl<L: Naming> Model for Locked<L> {
    ghost use Rattle.std.specs.Prelude.{◌≡◌, length};
    ghost use Rattle.sno_book.specs.Books.{Book, book_code};

    ghost Value = { Book };

    ghost coded = { book_code };

    ghost view = { λ s. s.book };

    ghost invariant = { λ s. (s.book.opening ≡ L.opening) × (s.screen.shown ≡ s.book.journal) × (length s.book.journal ≡ s.total.total) × (s.rest.parts ≡ 0) × (s.rest.amount ≡ 0) };
}

/// Publishes a proposal that was prepared. If that succeeds, accepts it and counts it, both for the seat and in the
/// total.
fn publish<L: Naming, R: Wait>(
    rt: &R,
    screen: &mut Screen<L>,
    book: &mut Book,
    total: &mut ledger::Book<L>,
    seat: &mut Seat<L>,
    ready: Ready,
) -> Result<Receipt, (CommitFault, Proposal)>
    requires open { screen.old.is_open ≡ true }
    requires opening { book.old.opening ≡ L.opening }
    requires level { (screen.old.shown ≡ book.old.journal) × (seat.old.seen ≡ book.old.journal) }
    requires total { length book.old.journal ≡ total.old.total }
    requires backed { seat.old.accepted ≤ total.old.total }
    requires alone { L.parts ≡ 1 → seat.old.accepted ≡ total.old.total }
    requires kept { 0 < book.old.spare }
    requires free { refusal (view_of book.old) ready ≡ None }
    requires fits { Fits (view_of book.old) ready }
    requires performed { IsPerformed ready.origin ready.place ready.version ready.statement ready.outcome }
    requires related { AreRelated ready.origin (view_of book.old) }
    ensures opening { book.new.opening ≡ L.opening }
    ensures shown { screen.new.shown ≡ book.new.journal }
    ensures total { length book.new.journal ≡ total.new.total }
    ensures committed { IfOk result (λ r. IsCommitted L.opening L.parts (position seat.old.accepted seat.old.seen) (position seat.new.accepted seat.new.seen) ready r) }
    ensures begins { Begins seat.old.seen seat.new.seen }
    ensures back { IfErr result (λ r. (r.0 ≡ Memory) × (r.1 ≡ ready)) }
    ensures same { OnErr result (seat.new.accepted ≡ seat.old.accepted) }
    ensures seen { OnErr result (seat.new.seen ≡ seat.old.seen) }
{
    // for the proof
    related_agree();
    versions_count_entries();
    let _ = book.journal();
    let _ = book.opening().room();
    let Ok(()) = screen.publish(rt, ready.place(), ready.entry()) else {
        return Err((CommitFault::Memory, ready.back()));
    };
    let receipt = book.finish(ready);
    // for the proof
    let _ = book.journal();
    seat.learn(screen.table());
    seat.count(total);
    Ok(receipt)
}

/// Shares of all these entries.
fn share_all(alloc: Global, entries: &[Entry]) -> Result<Vec<Entry>, SinceFault>
    ensures { IfOk result (λ shared. shared.items ≡ entries.now) }
{
    let mut shared = Vec::with_capacity(alloc, entries.len())?;
    for entry in entries {
        shared.push(entry.share()?)?;
    }
    Ok(shared)
}

impl<L: Naming> Locked<L> {
    /// Commits the proposal to the book. If it is accepted, it is also published and counted.
    pub(crate) fn commit<R: Wait>(
        &mut self,
        rt: &R,
        seat: &mut Seat<L>,
        proposal: Proposal,
    ) -> Result<Receipt, (CommitFault, Proposal)>
        requires view { IsPrefix proposal.origin (view_after L.opening seat.old.seen) }
        ensures committed { IfOk result (λ r. IsCommitted L.opening L.parts (position seat.old.accepted seat.old.seen) (position seat.new.accepted seat.new.seen) proposal r) }
        ensures refused { IfErr result (λ r. IsReturned L.opening L.parts (position seat.old.accepted seat.old.seen) (position seat.new.accepted seat.new.seen) proposal r.0 r.1) }
        ensures begins { Begins seat.old.seen seat.new.seen }
    {
        if !self.screen.is_open() {
            return Err((CommitFault::Stopped, proposal));
        }
        if !seat.see_all(self.screen.table()) {
            return Err((CommitFault::Stopped, proposal));
        }
        // for the proof
        versions_count_entries();
        let _ = self.book.journal();
        let _ = proposal.statement();
        seat.audit(&mut self.total);
        let ready = match self.book.prepare(proposal) {
            Ok(ready) => ready,
            Err((fault, proposal)) => {
                return Err((CommitFault::from(fault), proposal));
            }
        };
        publish(
            rt,
            &mut self.screen,
            &mut self.book,
            &mut self.total,
            seat,
            ready,
        )
    }

    /// Shares of the journal's entries from this index on. The seat looks first. Nothing can be published meanwhile, so it
    /// then sees the whole journal.
    pub(crate) fn since(
        &self,
        alloc: Global,
        seat: &mut Seat<L>,
        from: usize,
    ) -> Result<Vec<Entry>, SinceFault>
        ensures entries { IfOk result (λ entries. entries.items ≡ drop from seat.new.seen) }
        ensures shown { OnOk result (seat.new.seen ≡ seat.new.shown) }
        ensures begins { Begins seat.old.seen seat.new.seen }
        ensures same { seat.new.accepted ≡ seat.old.accepted }
    {
        let Ok(_count) = seat.look() else {
            return Err(SinceFault::Stopped);
        };
        if !seat.is_level(self.screen.table()) {
            return Err(SinceFault::Stopped);
        }
        share_all(alloc, self.book.journal().get(from..).unwrap_or(&[]))
    }

    /// Whether the journal begins with all that each of the seats has seen.
    pub(crate) fn has_all(&self, seats: &[Seat<L>]) -> bool
        ensures { Decides result (All (λ s. Begins s.seen self.now.journal) seats.now) }
    {
        are_within(seats, self.screen.table())
    }

    /// The book, if these are all seats of the desk. Its journal has as many entries as they have accepted.
    pub(crate) fn into_book<R: Wait>(self, rt: &R, seats: Vec<Seat<L>>) -> Book
        requires all { length seats.items ≡ L.parts }
        ensures book { result ≡ self }
        ensures counted { length result.journal ≡ sum_by (λ s. s.accepted) seats.items }
    {
        let (book, mut total, mut rest) = self.into_parts(rt);
        gather(seats, &mut rest);
        // for the proof
        total.audit(&mut rest);
        book
    }

    /// The book with the ledger's total and the rest of its shares. What was shown is ended.
    pub(crate) fn into_parts<R: Wait>(self, rt: &R) -> (Book, ledger::Book<L>, Share<L>)
        ensures book { result.0 ≡ self }
        ensures counted { length result.0.journal ≡ result.1.total }
        ensures none { (result.2.parts ≡ 0) × (result.2.amount ≡ 0) }
    {
        let Locked {
            book,
            screen,
            total,
            rest,
        } = self;
        screen.end(rt);
        (book, total, rest)
    }
}
