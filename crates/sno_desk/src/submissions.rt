//! Submissions: snapshot, gate, match and commit, until the text doesn't change during one of these attempts.
ghost use Rattle.std.specs.Prelude.{◌≡◌, ◌+◌, ◌≤◌, true, IfOk, IfErr};
ghost use Rattle.std.specs.Arc.{arc_value};
ghost use mathlib.Core.List.{IsPrefix};
ghost use Rattle.sno_desk.specs.Replies.{IsReplyAt, DecidesNoText, IsJustified, SpentAt, receipts_in, is_lost};
ghost use Rattle.sno_desk.specs.Receipts.{StandsAfter};
ghost use Rattle.sno_desk.specs.Turns.{IsSubmitted, position};

use crate::{Desk, Gate, Reply, Seat, SubmitFault};
use sno_book::propose;
use sno_published::Naming;
use sno_statement::Statement;
use std::alloc::Global;
use std::sync::{Arc, Wait};

/// A statement that is submitted to a desk, with the number of tries and the gate that each of them has to pass.
#[derive(Drop)]
pub(crate) struct Submission<'a, L: Naming, G: Gate> {
    pub(crate) desk: &'a Desk<L>,
    pub(crate) alloc: Global,
    pub(crate) statement: &'a Arc<Statement>,
    pub(crate) tries: u32,
    pub(crate) gate: &'a G,
    ghost some: { 1 ≤ tries },
}

/// Whether the text changed during the try.
fn is_lost(reply: &Reply) -> bool
    ensures value { result ≡ is_lost reply.now }
    ensures none { result ≡ true → receipts_in reply.now ≡ 0 }
{
    matches!(reply, Err(SubmitFault::TriesSpent { .. }))
}

impl<L: Naming, G: Gate> Submission<'_, L, G> {
    /// Makes the attempt with this number. If the text changes during it, the result is that all tries are spent.
    #[tactic(auto, using(crate::proofs::Causes::spent))]
    fn attempt<R: Wait>(&self, rt: &R, seat: &mut Seat<L>, attempt: u32) -> Reply
        requires in_turn { (1 ≤ attempt) × (attempt ≤ self.now.tries) }
        ensures no_text { DecidesNoText L.opening (arc_value self.now.statement.now) result }
        ensures justified { IsJustified (G.shuts self.now.gate.now) self.now.tries 1 (arc_value self.now.statement.now) result }
        ensures at { IsReplyAt 1 L.opening seat.old.seen seat.new.seen (arc_value self.now.statement.now) result }
        ensures begins { IsPrefix seat.old.seen seat.new.seen }
        ensures index { IfOk result (λ r. StandsAfter L.parts seat.old.accepted r) }
        ensures spent { IfErr result (λ e. SpentAt L.parts seat.old.accepted e) }
        ensures counted { seat.new.accepted ≡ seat.old.accepted + receipts_in result }
    {
        let statement = self.statement;
        let snapshot = seat.snapshot(statement.text())?;
        if !self.gate.pass(rt, statement.number(), attempt) {
            return Err(SubmitFault::GateShut);
        }
        let shared = Arc::try_clone(statement)?;
        // for the proof
        snapshot.check();
        let _text = snapshot.text.bytes();
        let proposal = propose(self.alloc, shared, snapshot)?;
        match self.desk.commit(rt, seat, proposal) {
            Ok(receipt) => Ok(receipt),
            Err((fault, _)) => Err(SubmitFault::from(fault)),
        }
    }

    /// Makes all attempts, up to the first during which the text doesn't change.
    fn attempts<R: Wait>(&self, rt: &R, seat: &mut Seat<L>) -> Reply
        ensures submitted { IsSubmitted (G.shuts self.now.gate.now) self.now.tries L.opening L.parts (position seat.old.accepted seat.old.seen) (position seat.new.accepted seat.new.seen)
            (arc_value self.now.statement.now) result }
    {
        for attempt in 1..self.tries {
            let reply = self.attempt(rt, seat, attempt);
            if !is_lost(&reply) {
                return reply;
            }
        }
        self.attempt(rt, seat, self.tries)
    }

    /// Makes all attempts, and reports to the gate whether the statement was accepted.
    pub(crate) fn reply<R: Wait>(&self, rt: &R, seat: &mut Seat<L>) -> Reply
        ensures submitted { IsSubmitted (G.shuts self.now.gate.now) self.now.tries L.opening L.parts (position seat.old.accepted seat.old.seen) (position seat.new.accepted seat.new.seen)
            (arc_value self.now.statement.now) result }
    {
        let reply = self.attempts(rt, seat);
        self.gate.done(rt, self.statement.number(), reply.is_ok());
        reply
    }
}
