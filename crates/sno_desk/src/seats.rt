//! Seats.
ghost use Rattle.std.specs.Prelude.{◌≡◌, ◌≢◌, ◌+◌, ◌<◌, ◌≤◌, ◌^◌, Decides, MatchBool, OnOk, OnErr, IfOk, IfErr, None, length, Some, map, sum_by};
ghost use Rattle.std.specs.Arc.{arc_value};
ghost use Rattle.std.specs.List.{All};
ghost use Rattle.std.specs.Option.{option_map};
ghost use mathlib.Core.List.{IsPrefix};
ghost use Rattle.sno_book.specs.Openings.{place_in};
ghost use Rattle.sno_book.specs.Views.{IsPrefix as BeginsView};
ghost use Rattle.sno_published.specs.Snapshots.{snapshots_of};
ghost use Rattle.sno_desk.specs.Proposed.{GivesProposed};
ghost use Rattle.sno_desk.specs.Seen.{GivesSeen, IsCauseForAll, IsLookCause, IsPlaceCause, IsRead, IsReadAt, IsViewAfter, places_of, view_after};
ghost use Rattle.sno_desk.specs.declared.faults.LookFault.TheVariants.{Stopped};

use crate::{LookFault, SnapshotFault, SubmitFault};
use sno_book::{Opening, Origin, Proposal, Receipt, Snapshot, propose};
use sno_pattern::{Text, TextName};
use sno_published::{Naming, Table, Viewer};
use sno_statement::Statement;
use std::alloc::{AllocError, Global};
use std::collections::VecDeque;
use std::marker::Model;
use std::sync::Arc;
use std::sync::ledger::{self, Share};

/// What a submit returns.
pub type Reply = Result<Receipt, SubmitFault>;

/// A place at a desk. It counts the proposals that were accepted through it, and by its type holds that count as its
/// share of the desk's ledger. It sees the texts without the lock, and what it has seen never goes back. Contracts see
/// the count, the entries that it has seen or learned of, and those that were shown when it looked last.
#[derive(Drop)]
pub struct Seat<L: Naming> {
    accepted: u64,
    share: Share<L>,
    viewer: Viewer<L>,
    replies: Option<VecDeque<Reply>>,
}

impl<L: Naming> Model for Seat<L> {
    ghost use Rattle.std.specs.Prelude.{◌≡◌};
    ghost use Rattle.std.specs.Option.{option_map};
    ghost use Rattle.sno_desk.specs.Seatings.{Seating, seating_code};

    ghost Value = { Seating };

    ghost coded = { seating_code };

    ghost view = { λ s. record { accepted = s.accepted; shown = s.viewer.shown; seen = s.viewer.seen; replies = option_map (λ q. q.items) s.replies } };

    ghost invariant = { λ s. (s.share.parts ≡ 1) × (s.share.amount ≡ s.accepted) };
}

impl<L: Naming> Seat<L> {
    /// How many proposals were accepted through this seat, from 0.
    pub fn accepted(&self) -> u64
        ensures { result ≡ self.now.accepted }
    {
        self.accepted
    }

    /// How many entries the seat has seen or was shown.
    pub fn seen(&self) -> u64
        ensures { result ≡ length self.now.seen }
    {
        self.viewer.seen()
    }

    /// Sees what is shown, and returns how many entries that are. It takes no lock and no memory, and waits for nobody.
    ///
    /// Refused: `Stopped`, and nothing more is seen.
    pub fn look(&mut self) -> Result<u64, LookFault>
        ensures count { IfOk result (λ n. n ≡ length self.new.seen) }
        ensures shown { OnOk result (self.new.seen ≡ self.new.shown) }
        ensures stopped { IfErr result (λ e. (e ≡ Stopped) × (self.new.seen ≡ self.old.seen)) }
        ensures begins { IsPrefix self.old.seen self.new.seen }
        ensures same { self.new.accepted ≡ self.old.accepted }
    {
        match self.viewer.enter() {
            Ok(()) => Ok(self.viewer.seen()),
            Err(_) => Err(LookFault::Stopped),
        }
    }

    /// A share of what the desk's book began with: the texts in their order, with their names. Refused only if memory runs out.
    pub fn opening(&self) -> Result<Arc<Opening>, AllocError>
        ensures { IfOk result (λ o. arc_value o ≡ L.opening) }
    {
        let share = self.viewer.share_opening()?;
        Ok(share)
    }

    /// The place of the text of this name, from 0; `None` if the opening has no such text. It is the same as long as the
    /// desk is open, so a reader of one text can ask for it once, and then read by [`Seat::read_at`].
    pub fn place(&self, name: &TextName) -> Option<usize>
        ensures { result ≡ place_in L.opening name.now }
    {
        self.viewer.opening().place(name)
    }

    /// Sees what is shown, and lends the text of this name, with its version, to a function. It takes no lock, no share
    /// and no memory, and waits for nobody. While the function runs, no entry can be published, so it should be short.
    ///
    /// Refused, in this order, and then the function isn't called and nothing more is seen:
    ///
    /// - `NoText`, exactly if the opening has no text of that name;
    /// - `Stopped`.
    pub fn read<T, F: FnOnce(&Text, u64) -> T>(
        &mut self,
        name: &TextName,
        read: F,
    ) -> Result<T, LookFault>
        requires { F.IsAlwaysCallable read }
        ensures read { IfOk result (λ r. IsRead F.FnOnce read L.opening self.new.seen name.now r) }
        ensures shown { OnOk result (self.new.seen ≡ self.new.shown) }
        ensures no_text { IfErr result (λ e. IsLookCause e L.opening name.now) }
        ensures refused { OnErr result (self.new.seen ≡ self.old.seen) }
        ensures begins { IsPrefix self.old.seen self.new.seen }
        ensures same { self.new.accepted ≡ self.old.accepted }
    {
        let Some(place) = self.place(name) else {
            return Err(LookFault::NoText);
        };
        self.read_at(place, read)
    }

    /// As [`Seat::read`], by the text's place: no name is looked up.
    ///
    /// Refused, in this order, and then the function isn't called and nothing more is seen:
    ///
    /// - `NoText`, exactly if the opening has no text at that place;
    /// - `Stopped`.
    pub fn read_at<T, F: FnOnce(&Text, u64) -> T>(
        &mut self,
        place: usize,
        read: F,
    ) -> Result<T, LookFault>
        requires { F.IsAlwaysCallable read }
        ensures read { IfOk result (λ r. IsReadAt F.FnOnce read L.opening self.new.seen place r) }
        ensures shown { OnOk result (self.new.seen ≡ self.new.shown) }
        ensures no_text { IfErr result (λ e. IsPlaceCause e L.opening place) }
        ensures refused { OnErr result (self.new.seen ≡ self.old.seen) }
        ensures begins { IsPrefix self.old.seen self.new.seen }
        ensures same { self.new.accepted ≡ self.old.accepted }
    {
        if place >= self.viewer.opening().len() {
            return Err(LookFault::NoText);
        }
        let Ok(found) = self.viewer.read(place, read) else {
            return Err(LookFault::Stopped);
        };
        let Some(found) = found else {
            return Err(LookFault::NoText);
        };
        Ok(found)
    }

    /// Returns a snapshot of the text of this name as it is shown. It takes no lock and waits for nobody. On `Ok` it is
    /// the text at the place that the name has in the opening, as the entries that the seat has seen now leave it.
    /// These entries begin with all that the seat had seen or was shown.
    ///
    /// Refused, in this order:
    ///
    /// - `NoText`, exactly if the opening has no text of that name, and nothing more is seen;
    /// - `Stopped`, and nothing more is seen;
    /// - `Memory`, and what is shown was seen.
    pub fn snapshot(&mut self, name: &TextName) -> Result<Snapshot, SnapshotFault>
        ensures gives { GivesSeen result L.opening self.new.seen name.now }
        ensures begins { IsPrefix self.old.seen self.new.seen }
        ensures shown { OnOk result (self.new.seen ≡ self.new.shown) }
        ensures cause { IfErr result (λ e. IsViewAfter e self.old self.new) }
        ensures same { self.new.accepted ≡ self.old.accepted }
    {
        let Some(place) = self.place(name) else {
            return Err(SnapshotFault::NoText);
        };
        let Some((text, version)) = self.viewer.text(place)? else {
            return Err(SnapshotFault::NoText);
        };
        // for the proof
        let _ = self.viewer.seen();
        let _ = self.viewer.opening().len();
        Ok(Snapshot::new(Origin::of(&self.viewer), place, version, text))
    }

    /// Returns snapshots of the texts of these names, in their order, all as they are shown at one moment. It takes no
    /// lock and waits for nobody. On `Ok` each is the text at the place that its name has in the opening, as the
    /// entries that the seat has seen now leave it. These entries begin with all that the seat had seen or was shown.
    /// While the texts are shared, no entry can be published.
    ///
    /// Refused, in this order:
    ///
    /// - `NoText`, exactly if the opening has no text of one of the names, and nothing more is seen;
    /// - `Stopped`, and nothing more is seen;
    /// - `Memory`, and what is shown was seen.
    pub fn snapshots(
        &mut self,
        alloc: Global,
        names: &[&TextName],
    ) -> Result<Vec<Snapshot>, SnapshotFault>
        ensures gives { IfOk result (λ v. snapshots_of L.opening self.new.seen (map (λ n. n.now) names.now) ≡ Some v.items) }
        ensures no_text { IfErr result (λ e. IsCauseForAll e L.opening (map (λ n. n.now) names.now)) }
        ensures begins { IsPrefix self.old.seen self.new.seen }
        ensures shown { OnOk result (self.new.seen ≡ self.new.shown) }
        ensures cause { IfErr result (λ e. IsViewAfter e self.old self.new) }
        ensures same { self.new.accepted ≡ self.old.accepted }
    {
        if !has_all(self.viewer.opening(), names) {
            return Err(SnapshotFault::NoText);
        }
        let Some(snapshots) = self.viewer.snapshots(alloc, names)? else {
            return Err(SnapshotFault::NoText);
        };
        Ok(snapshots)
    }

    /// Takes a snapshot of the statement's text, and performs the statement on it. It takes no lock and waits for
    /// nobody. What comes back can be committed by [`Desk::commit`](crate::Desk::commit) through this seat.
    ///
    /// On `Ok` the proposal has the statement, and comes from the text of its name as the entries that the seat has seen
    /// now leave it. These entries are those that are shown, and begin with all that the seat had seen or was shown.
    ///
    /// Refused as [`Seat::snapshot`] and `propose` are: `NoText`, exactly if the opening has no text of the statement's
    /// name; `Stopped`; `TooManyTrials` and `TextTooLong`, only if performing the statement on that text is refused so;
    /// `Memory`. No other refusal comes.
    pub fn propose(
        &mut self,
        alloc: Global,
        statement: &Arc<Statement>,
    ) -> Result<Proposal, SubmitFault>
        ensures gives { GivesProposed result L.opening self.new.seen (arc_value statement.now) }
        ensures view { IfOk result (λ p. BeginsView p.origin (view_after L.opening self.new.seen)) }
        ensures shown { OnOk result (self.new.seen ≡ self.new.shown) }
        ensures begins { IsPrefix self.old.seen self.new.seen }
        ensures same { self.new.accepted ≡ self.old.accepted }
    {
        let snapshot = self.snapshot(statement.text())?;
        let shared = Arc::try_clone(statement)?;
        let proposal = propose(alloc, shared, snapshot)?;
        Ok(proposal)
    }

    /// Sees what a table shows. Returns whether it has then seen just that, and no more.
    pub(crate) fn see_all(&mut self, table: &Table<L>) -> bool
        ensures begins { IsPrefix self.old.seen self.new.seen }
        ensures level { MatchBool result (self.new.seen ≡ table.now) (Unit {0}) }
        ensures accepted { self.new.accepted ≡ self.old.accepted }
    {
        self.learn(table);
        self.viewer.is_level(table)
    }

    /// Sees what a table shows.
    pub(crate) fn learn(&mut self, table: &Table<L>)
        ensures begins { IsPrefix self.old.seen self.new.seen }
        ensures learnt { IsPrefix table.now self.new.seen }
        ensures accepted { self.new.accepted ≡ self.old.accepted }
    {
        self.viewer.learn(table);
    }

    /// Whether a table shows just what the seat has seen.
    pub(crate) fn is_level(&self, table: &Table<L>) -> bool
        ensures { Decides result (self.now.seen ≡ table.now) }
    {
        self.viewer.is_level(table)
    }

    /// Whether a table shows all that the seat has seen.
    pub(crate) fn is_within(&self, table: &Table<L>) -> bool
        ensures { Decides result (IsPrefix self.now.seen table.now) }
    {
        self.viewer.is_within(table)
    }

    /// A seat with a part of the ledger, through which nothing was accepted yet.
    pub(crate) fn new(share: Share<L>, viewer: Viewer<L>) -> Seat<L>
        requires part { share.parts ≡ 1 }
        requires amount { share.amount ≡ 0 }
        ensures accepted { result.accepted ≡ 0 }
        ensures seen { result.seen ≡ viewer.seen }
    {
        Seat {
            accepted: 0,
            share,
            viewer,
            replies: None,
        }
    }

    /// Compares the seat's share with the total: it is no higher, and if there is no other seat it is the total.
    /// Nothing is changed.
    pub(crate) fn audit(&mut self, total: &mut ledger::Book<L>)
        ensures backed { self.old.accepted ≤ total.old.total }
        ensures alone { L.parts ≡ 1 → self.old.accepted ≡ total.old.total }
        ensures accepted { self.new.accepted ≡ self.old.accepted }
        ensures seen { self.new.seen ≡ self.old.seen }
        ensures total { total.new.total ≡ total.old.total }
    {
        total.audit(&mut self.share);
    }

    /// Counts one more accepted proposal, both for the seat and in the total.
    pub(crate) fn count(&mut self, total: &mut ledger::Book<L>)
        requires { self.old.accepted + 1 < 2 ^ 64 }
        ensures accepted { self.new.accepted ≡ self.old.accepted + 1 }
        ensures seen { self.new.seen ≡ self.old.seen }
        ensures total { total.new.total ≡ total.old.total + 1 }
    {
        total.add(&mut self.share, 1);
        self.accepted += 1;
    }

    /// Keeps these replies until they are taken.
    pub(crate) fn keep_replies(&mut self, replies: Option<VecDeque<Reply>>)
        ensures kept { self.new.replies ≡ option_map (λ q. q.items) replies }
        ensures seen { self.new.seen ≡ self.old.seen }
        ensures same { self.new.accepted ≡ self.old.accepted }
    {
        self.replies = replies;
    }

    /// Takes from the seat the replies that it has kept, and returns them.
    pub(crate) fn take_replies(&mut self) -> Option<VecDeque<Reply>>
        ensures taken { option_map (λ q. q.items) result ≡ self.old.replies }
        ensures seen { self.new.seen ≡ self.old.seen }
        ensures same { self.new.accepted ≡ self.old.accepted }
    {
        self.replies.take()
    }

    /// The share, without the seat.
    pub(crate) fn into_share(self) -> Share<L>
        ensures parts { result.parts ≡ 1 }
        ensures amount { result.amount ≡ self.accepted }
    {
        self.share
    }
}

/// Whether the opening has a text of each of these names.
fn has_all(opening: &Opening, names: &[&TextName]) -> bool
    ensures { Decides result (places_of opening.now (map (λ n. n.now) names.now) ≢ None) }
{
    for name in names {
        if opening.place(name).is_none() {
            return false;
        }
    }
    true
}

/// Whether a table shows all that each of the seats has seen.
pub(crate) fn are_within<L: Naming>(seats: &[Seat<L>], table: &Table<L>) -> bool
    ensures { Decides result (All (λ s. IsPrefix s.seen table.now) seats.now) }
{
    for seat in seats {
        if !seat.is_within(table) {
            return false;
        }
    }
    true
}

/// Returns `rest` together with the shares of all seats.
pub(crate) fn gather<L: Naming>(seats: Vec<Seat<L>>, rest: &mut Share<L>)
    requires none { (rest.old.parts ≡ 0) × (rest.old.amount ≡ 0) }
    ensures parts { rest.new.parts ≡ length seats.items }
    ensures amount { rest.new.amount ≡ sum_by (λ s. s.accepted) seats.items }
{
    for seat in seats {
        rest.merge(seat.into_share());
    }
}
