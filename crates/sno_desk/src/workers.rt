//! Workers: each seat submits its part of a list of jobs, in threads.
ghost use Rattle.std.specs.Prelude.{◌≡◌, ◌+◌, ◌<◌, ◌≤◌, ℕ, ◌∷◌, IfOk, List, length, map, slice_index_or, sum_by};
ghost use Rattle.std.specs.Thread.{IsSend, IsSync};
ghost use Rattle.std.specs.Arc.{arc_value};
ghost use Rattle.sno_statement.specs.Statement.{Statement as Job};
ghost use Rattle.sno_desk.specs.Replies.{IsReply, receipts_in};
ghost use Rattle.sno_desk.specs.Turns.{AreReplies, Goes, HasGrown, HasWorked, InTurn, IsSubmitted, Position, every, position, shares_after};
ghost use Rattle.sno_desk.specs.declared.desk.TheConstants.{MAX_SEATS, MAX_TRIES};

use crate::reply_queues::{collect, in_order};
use crate::submissions::Submission;
use crate::{Desk, Gate, Reply, Seat, WorkersFault};
use sno_book::{Book, Entry, Receipt};
use sno_published::Naming;
use sno_statement::Statement;
use std::alloc::{AllocError, Global};
use std::collections::VecDeque;
use std::sync::{Arc, Wait};
use std::thread;
use std::thread::Threads;

/// What all workers share.
#[derive(Drop)]
struct Shift<'a, L: Naming, G: Gate> {
    desk: &'a Desk<L>,
    jobs: &'a [Arc<Statement>],
    workers: usize,
    tries: u32,
    gate: &'a G,
    ghost some: { 1 ≤ workers },
    ghost valid: { (1 ≤ tries) × (tries ≤ MAX_TRIES) },
}

impl<L: Naming, G: Gate> Shift<'_, L, G> {
    /// Submits this job if it is the seat's turn: if no job of another seat is to be passed over first. The reply is
    /// kept after the others. Returns how many jobs of other seats come before the seat's next one.
    #[tactic(auto, using(crate::proofs::Turns::goes_one, crate::proofs::Turns::goes_by, crate::proofs::Turns::grown_self, crate::proofs::Turns::grown_by, crate::proofs::Causes::follows))]
    fn turn<R: Wait>(
        &self,
        rt: &R,
        seat: &mut Seat<L>,
        job: &Arc<Statement>,
        wait: usize,
        replies: &mut VecDeque<Reply>,
    ) -> Result<usize, AllocError>
        ensures goes { IfOk result (λ next. (before : Position) (all jobs : List Job)
            → Goes (IsSubmitted (G.shuts self.now.gate.now) self.now.tries L.opening L.parts) before (position seat.old.accepted seat.old.seen) all (every self.now.workers wait (arc_value job.now ∷ jobs)) replies.old.items
            → Goes (IsSubmitted (G.shuts self.now.gate.now) self.now.tries L.opening L.parts) before (position seat.new.accepted seat.new.seen) all (every self.now.workers next jobs) replies.new.items) }
        ensures grown { HasGrown (position seat.old.accepted seat.old.seen) (position seat.new.accepted seat.new.seen) }
    {
        if wait > 0 {
            return Ok(wait - 1);
        }
        let submission = Submission {
            desk: self.desk,
            alloc: self.desk.alloc,
            statement: job,
            tries: self.tries,
            gate: self.gate,
        };
        replies.push_back(submission.reply(rt, seat))?;
        Ok(self.workers - 1)
    }

    /// Submits the jobs of one seat, in order.
    #[tactic(auto, using(crate::proofs::Turns::grown_self, crate::proofs::Turns::grown_on))]
    fn replies<R: Wait>(
        &self,
        rt: &R,
        seat: &mut Seat<L>,
        first: usize,
    ) -> Result<VecDeque<Reply>, AllocError>
        ensures in_turn { IfOk result (λ replies. InTurn (IsSubmitted (G.shuts self.now.gate.now) self.now.tries L.opening L.parts)
            (position seat.old.accepted seat.old.seen) (position seat.new.accepted seat.new.seen) (every self.now.workers first (map arc_value self.now.jobs.now)) replies.items) }
        ensures grown { HasGrown (position seat.old.accepted seat.old.seen) (position seat.new.accepted seat.new.seen) }
    {
        let most = self.jobs.len().div_ceil(self.workers);
        let mut replies = VecDeque::with_capacity(self.desk.alloc, most)?;
        let mut wait = first;
        for job in self.jobs {
            wait = self.turn(rt, seat, job, wait, &mut replies)?;
        }
        Ok(replies)
    }

    /// Submits the jobs of one seat. The seat keeps the replies.
    fn work<R: Wait>(&self, rt: &R, seat: &mut Seat<L>, first: usize)
        ensures worked { HasWorked (IsSubmitted (G.shuts self.now.gate.now) self.now.tries L.opening L.parts) (every self.now.workers first (map arc_value self.now.jobs.now))
            (position seat.old.accepted seat.old.seen) (position seat.new.accepted seat.new.seen) seat.new.replies }
        ensures grown { HasGrown (position seat.old.accepted seat.old.seen) (position seat.new.accepted seat.new.seen) }
    {
        let replies = match self.replies(rt, seat, first) {
            Ok(replies) => Some(replies),
            Err(_) => None,
        };
        seat.keep_replies(replies);
    }
}

/// Says to the prover that a value of this type may go to another thread, and be shared there. The function does nothing:
/// its contract is used by those who give threads a book's types.
pub fn may_cross<T: Send + Sync>()
    ensures sends { IsSend T.row }
    ensures shares { IsSync T.row }
{}

/// Lets all seats work, each on the jobs of its place.
fn work_all<L: Naming + Send + Sync, G: Gate + Sync, R: Threads + Wait + Sync>(
    rt: &R,
    desk: &Desk<L>,
    seats: &mut [Seat<L>],
    jobs: &[Arc<Statement>],
    tries: u32,
    gate: &G,
)
    requires some { 1 ≤ length seats.old }
    requires valid { (1 ≤ tries) × (tries ≤ MAX_TRIES) }
    ensures worked { (k : ℕ) (d : Seat L) → k < length seats.old → HasWorked (IsSubmitted (G.shuts gate.now) tries L.opening L.parts) (every (length seats.old) k (map arc_value jobs.now))
        (position (slice_index_or seats.old k d).accepted (slice_index_or seats.old k d).seen) (position (slice_index_or seats.new k d).accepted (slice_index_or seats.new k d).seen)
        (slice_index_or seats.new k d).replies }
    ensures grown { (k : ℕ) (d : Seat L) → k < length seats.old → HasGrown (position (slice_index_or seats.old k d).accepted (slice_index_or seats.old k d).seen) (position (slice_index_or seats.new k d).accepted (slice_index_or seats.new k d).seen) }
{
    may_cross::<Entry>();
    may_cross::<Book>();
    may_cross::<Statement>();
    may_cross::<Receipt>();
    let workers = seats.len();
    let worker = |first: usize, seat: &mut Seat<L>|
        requires { (1 ≤ workers) × (1 ≤ tries) × (tries ≤ MAX_TRIES) }
        ensures worked { HasWorked (IsSubmitted (G.shuts gate.entry.now) tries L.opening L.parts) (every workers first (map arc_value jobs.entry.now))
            (position seat.old.accepted seat.old.seen) (position seat.new.accepted seat.new.seen) seat.new.replies }
        ensures grown { HasGrown (position seat.old.accepted seat.old.seen) (position seat.new.accepted seat.new.seen) }
    {
        let shift = Shift {
            desk,
            jobs,
            workers,
            tries,
            gate,
        };
        shift.work(rt, seat, first);
    };
    thread::for_each_mut(rt, seats, workers, &worker);
}

/// Submits the jobs through the seats; each has a worker of its own. Job `i` goes to the seat `i` modulo their
/// number. Each worker submits its jobs in order, with `tries` tries for each. The workers run in threads, or one after
/// the other if no thread can be made.
///
/// Requires from 1 to 16 seats of this desk, and 1 to 1,000 tries.
///
/// On `Ok` there are as many replies as jobs, in the order of the jobs, and each is a result of [`Desk::submit`] for
/// the job at its place. The replies of one seat are those of its submits one after the other. Each began with what the
/// seat had accepted and seen after the one before, and the last left the seat as it is now. So each of its receipts
/// has a higher index than the one before. The j-th, from 0, has an index of at least the seat's share before the call
/// plus j, and exactly that if there is no other seat. Each share is higher by the number of receipts among its seat's
/// replies, and all shares together by the number of all receipts.
///
/// Refused: `Memory`. Some jobs may have been accepted then and their replies lost. Each share counts what was accepted
/// through its seat, and the desk can still be used and closed.
///
/// With each result no share is lower than before, and what a seat has seen begins with what it had seen.
pub fn run_workers<L: Naming + Send + Sync, G: Gate + Sync, R: Threads + Wait + Sync>(
    rt: &R,
    alloc: Global,
    desk: &Desk<L>,
    seats: &mut [Seat<L>],
    jobs: &[Arc<Statement>],
    tries: u32,
    gate: &G,
) -> Result<Vec<Reply>, WorkersFault>
    requires few { (1 ≤ length seats.old) × (length seats.old ≤ MAX_SEATS) }
    requires valid { (1 ≤ tries) × (tries ≤ MAX_TRIES) }
    ensures allowed { IfOk result (λ replies. AreReplies (IsReply (G.shuts gate.now) tries L.opening) (map arc_value jobs.now) replies.items) }
    ensures total { IfOk result (λ replies. sum_by (λ s. s.accepted) seats.new ≡ sum_by (λ s. s.accepted) seats.old + sum_by receipts_in replies.items) }
    ensures in_turn { IfOk result (λ replies. (k : ℕ) (d : Seat L) → k < length seats.old → InTurn (IsSubmitted (G.shuts gate.now) tries L.opening L.parts)
        (position (slice_index_or seats.old k d).accepted (slice_index_or seats.old k d).seen) (position (slice_index_or seats.new k d).accepted (slice_index_or seats.new k d).seen)
        (every (length seats.old) k (map arc_value jobs.now)) (every (length seats.old) k replies.items)) }
    ensures shares { IfOk result (λ replies. map (λ s. s.accepted) seats.new ≡ shares_after (length seats.old) 0 (map (λ s. s.accepted) seats.old) replies.items) }
    ensures grown { (k : ℕ) (d : Seat L) → k < length seats.old → HasGrown (position (slice_index_or seats.old k d).accepted (slice_index_or seats.old k d).seen) (position (slice_index_or seats.new k d).accepted (slice_index_or seats.new k d).seen) }
{
    work_all(rt, desk, seats, jobs, tries, gate);
    let mut queues = collect(alloc, seats)?;
    let replies = in_order(alloc, &mut queues, jobs)?;
    Ok(replies)
}
