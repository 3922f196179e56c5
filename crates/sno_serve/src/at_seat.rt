//! A line with its reply, at a seat.
ghost use Rattle.std.specs.Prelude.{◌≡◌, ◌≤◌, ◌⊎◌, ◌+◌, IfOk, None, codes};
ghost use Rattle.std.specs.Arc.{arc_value};
ghost use Rattle.std.specs.Option.{option_map};
ghost use mathlib.Core.List.{IsPrefix as Begins};
ghost use Rattle.serde_json.specs.View.{view};
ghost use Rattle.sno_desk.specs.declared.desk.TheConstants.{MAX_TRIES};
ghost use Rattle.sno_desk.specs.Replies.{IsReply, IsReplyAt, receipts_in};
ghost use Rattle.sno_desk.specs.Turns.{position};
ghost use Rattle.sno_serve.specs.Accepted.{AsksFor, HasTaken, IsCounted, IsCountedAt, IsCountedOnce};
ghost use Rattle.sno_serve.specs.Contents.{content_data};
ghost use Rattle.sno_serve.specs.Excerpts.{excerpt_of};
ghost use Rattle.sno_serve.specs.Replies.{IsReplied, IsPerformed, IsPerformedAt, IsLooked, at_refusal, capped, refusal_in, reason_in, since_reply, word_reply};

use crate::at_desk::AtDesk;
use crate::at_version::{AtFault, submit_at};
use crate::listed::Listed;
use crate::replies::{
    at_reply, fault_reply, look_reason, read_reply, reason_reply, since_reply, submit_reply,
};
use crate::versions::{list_texts, look_at, try_out};
use crate::{Asked, Content, Excerpt, Line};
use serde_json::Value;
use sno_desk::{Desk, Naming, OpenGate, Receipt, Reply, Seat, SinceFault, SubmitFault};
use sno_listing::{Reason, Refusal};
use sno_pattern::TextName;
use sno_statement::Statement;
use std::alloc::{AllocError, Global};
use std::sync::{Arc, Wait};

/// The index past which no journal has an entry.
const MAX_INDEX: u64 = 1_000_000;

/// The reply to a line.
#[derive(Drop)]
pub struct Replied {
    /// The reply.
    pub reply: Content,
    /// What the listing has of it, if it is a refused statement.
    pub refused: Option<Refusal>,
}

/// The reason for which the listing has a refused statement, if it is one of its reasons.
fn reason_in(fault: &SubmitFault) -> Option<Reason>
    ensures { result ≡ reason_in fault.now }
{
    match *fault {
        SubmitFault::NoText => Some(Reason::NoText),
        SubmitFault::TextTooLong => Some(Reason::TextTooLong),
        SubmitFault::TooManyTrials => Some(Reason::TooManyTrials),
        SubmitFault::TriesSpent { seen, now } => Some(Reason::TriesSpent { seen, now }),
        SubmitFault::Full => Some(Reason::Full),
        SubmitFault::GateShut | SubmitFault::Stopped | SubmitFault::Memory => None,
    }
}

/// What the listing has of a refused statement with this number: nothing of one that was accepted, or refused for a reason
/// that the listing doesn't have.
pub fn refusal_in(number: u32, reply: &Reply) -> Option<Refusal>
    ensures { result ≡ refusal_in number reply.now }
{
    match reply {
        Ok(_) => None,
        Err(fault) => match reason_in(fault) {
            None => None,
            Some(reason) => Some(Refusal { number, reason }),
        },
    }
}

/// Submits a statement through the seat, at an open gate, as by [`Desk::submit`]. `tries` is from 1 to 1,000.
#[tactic(auto, using(crate::proofs::Accepting::taken))]
pub fn submit<L: Naming, R: Wait>(
    rt: &R,
    alloc: Global,
    desk: &Desk<L>,
    seat: &mut Seat<L>,
    statement: Arc<Statement>,
    tries: u32,
) -> Reply
    requires { (1 ≤ tries) × (tries ≤ MAX_TRIES) }
    ensures allowed { IsReply (λ _ _. ⊥) tries L.opening (arc_value statement) result }
    ensures at { IsReplyAt tries L.opening seat.old.seen seat.new.seen (arc_value statement) result }
    ensures begins { Begins seat.old.seen seat.new.seen }
    ensures counted { seat.new.accepted ≡ seat.old.accepted + receipts_in result }
    ensures taken { HasTaken (λ s. s ≡ arc_value statement) (position seat.old.accepted seat.old.seen) (position seat.new.accepted seat.new.seen) }
{
    let reply = desk.submit(rt, alloc, seat, statement, tries, &OpenGate);
    reply
}

/// Submits a statement, and puts its result into a reply.
fn perform<L: Naming, R: Wait>(
    at: &AtDesk<'_, L, R>,
    seat: &mut Seat<L>,
    id: Option<Value>,
    statement: Statement,
    tries: u32,
) -> Result<Replied, AllocError>
    requires { (1 ≤ tries) × (tries ≤ MAX_TRIES) }
    ensures performed { IfOk result (λ a. IsPerformed tries L.opening seat.old.seen seat.new.seen (option_map view id) statement (content_data a.reply) a.refused) }
    ensures counted { IfOk result (λ a. IsCountedOnce seat.old.accepted seat.new.accepted (option_map view id) (content_data a.reply)) }
    ensures taken { HasTaken (λ s. s ≡ statement) (position seat.old.accepted seat.old.seen) (position seat.new.accepted seat.new.seen) }
    ensures begins { Begins seat.old.seen seat.new.seen }
{
    let AtDesk { rt, alloc, desk } = *at;
    let number = statement.number();
    let statement = Arc::new(alloc, statement)?;
    let reply = submit(rt, alloc, desk, seat, statement, tries);
    let refused = refusal_in(number, &reply);
    let reply = submit_reply(alloc, id, reply)?;
    Ok(Replied { reply, refused })
}

/// What the listing has of a statement that was to be performed at one version of its text.
pub fn at_refusal(number: u32, gave: &Result<Receipt, AtFault>) -> Option<Refusal>
    ensures { result ≡ at_refusal number gave.now }
{
    let Err(AtFault::Refused(fault)) = gave else {
        return None;
    };
    let reason = reason_in(fault)?;
    Some(Refusal { number, reason })
}

/// Submits a statement if its text has this version, and puts its result into a reply.
#[tactic(auto, using(crate::proofs::Accepting::taken_at))]
fn perform_at<L: Naming, R: Wait>(
    at: &AtDesk<'_, L, R>,
    seat: &mut Seat<L>,
    id: Option<Value>,
    statement: Statement,
    version: u64,
) -> Result<Replied, AllocError>
    ensures performed { IfOk result (λ a. IsPerformedAt L.opening seat.old.seen seat.new.seen (option_map view id) statement version (content_data a.reply) a.refused) }
    ensures counted { IfOk result (λ a. IsCountedAt seat.old.accepted seat.new.accepted (option_map view id) (content_data a.reply)) }
    ensures taken { HasTaken (λ s. s ≡ statement) (position seat.old.accepted seat.old.seen) (position seat.new.accepted seat.new.seen) }
    ensures begins { Begins seat.old.seen seat.new.seen }
{
    let AtDesk { rt, alloc, desk } = *at;
    let number = statement.number();
    let statement = Arc::new(alloc, statement)?;
    let gave = submit_at(rt, alloc, desk, seat, &statement, version);
    let refused = at_refusal(number, &gave);
    let reply = at_reply(alloc, id, gave)?;
    Ok(Replied { reply, refused })
}

/// Reads a text, as the seat sees it now.
fn look<L: Naming>(
    alloc: Global,
    seat: &mut Seat<L>,
    id: Option<Value>,
    name: &TextName,
) -> Result<Value, AllocError>
    ensures looked { IfOk result (λ v. IsLooked L.opening seat.new.seen (option_map view id) name.now (view v)) }
    ensures same { seat.new.accepted ≡ seat.old.accepted }
    ensures begins { Begins seat.old.seen seat.new.seen }
{
    match seat.snapshot(name) {
        Ok(taken) => read_reply(alloc, id, name, &taken),
        Err(fault) => look_reason(alloc, id, fault),
    }
}

pub fn capped(index: u64) -> usize
    ensures value { result ≡ capped index }
    ensures within { result ≤ MAX_INDEX }
{
    if index < MAX_INDEX {
        index as usize
    } else {
        MAX_INDEX as usize
    }
}

/// Lists entries.
fn list<L: Naming, R: Wait>(
    rt: &R,
    alloc: Global,
    desk: &Desk<L>,
    seat: &mut Seat<L>,
    id: Option<Value>,
    excerpt: Excerpt,
) -> Result<Content, AllocError>
    ensures listed { IfOk result (λ c. (content_data c ≡ since_reply (option_map view id) (excerpt_of excerpt (capped excerpt.from) seat.new.seen)) ⊎ (content_data c ≡ word_reply (option_map view id) (codes "reason") (codes "stopped"))) }
    ensures same { seat.new.accepted ≡ seat.old.accepted }
    ensures begins { Begins seat.old.seen seat.new.seen }
{
    let from = capped(excerpt.from);
    match desk.since(rt, seat, from) {
        Ok(entries) => {
            let listed = Listed {
                from,
                entries,
                excerpt,
            };
            let reply = since_reply(alloc, id, listed)?;
            Ok(reply)
        }
        Err(SinceFault::Stopped) => {
            let reply = reason_reply(alloc, id, "stopped")?;
            Ok(Content::Value(reply))
        }
        Err(SinceFault::Memory) => Err(AllocError),
    }
}

/// Does what a line asks for at a seat, and returns the reply. `tries` is from 1 to 1,000.
///
/// The reply to a statement is that of [`Desk::submit`]: its entry at its index, as the JSON listing has it, or the reason
/// why it was refused. The reply to a read is what [`Seat::snapshot`] gives, and that to an index those of the
/// entries of [`Desk::since`] that are asked for, in their order: of one text if it is named, and the first ones up to the limit.
/// A line that can't be read gets words that say why. Each has the line's id, if there is one.
///
/// The reply to a statement that is only to be tried is the entry that it would be if it came next, by what [`Seat::propose`] gives, or
/// the reason for which it would be refused; nothing is accepted. It also has what [`sno_check::statement_warnings`] finds in the
/// statement. That to `texts` has all texts as they are at one moment, and that to a
/// read at a version what the text was then, if it had that version.
///
/// A statement with a version is tried once. Its reply is its entry only if the entry has that version. If the text has another version
/// after what the seat has seen, the reply is `changed` with the text's version, and the listing has nothing of it.
///
/// The seat's count rises by one if the reply is an entry, and is the same otherwise.
///
/// Refused only if memory runs out. One entry may have been accepted then, of the line's statement.
pub fn reply_to<L: Naming, R: Wait>(
    rt: &R,
    alloc: Global,
    desk: &Desk<L>,
    seat: &mut Seat<L>,
    line: Line,
    tries: u32,
) -> Result<Replied, AllocError>
    requires { (1 ≤ tries) × (tries ≤ MAX_TRIES) }
    ensures replied { IfOk result (λ a. IsReplied tries L.opening seat.old.seen seat.new.seen (option_map view line.id) line.asked (content_data a.reply) a.refused) }
    ensures counted { IfOk result (λ a. IsCounted seat.old.accepted seat.new.accepted (option_map view line.id) line.asked (content_data a.reply)) }
    ensures taken { HasTaken (AsksFor line.asked) (position seat.old.accepted seat.old.seen) (position seat.new.accepted seat.new.seen) }
    ensures begins { Begins seat.old.seen seat.new.seen }
{
    let Line { id, asked, .. } = line;
    let at = AtDesk { rt, alloc, desk };
    let reply = match asked {
        Asked::Perform(statement) => return perform(&at, seat, id, statement, tries),
        Asked::PerformAt(statement, version) => {
            return perform_at(&at, seat, id, statement, version);
        }
        Asked::Check(statement) => Content::Value(try_out(alloc, seat, id, statement)?),
        Asked::Read(name) => Content::Value(look(alloc, seat, id, &name)?),
        Asked::ReadAt(name, version) => Content::Value(look_at(&at, seat, id, &name, version)?),
        Asked::Texts => Content::Value(list_texts(alloc, seat, id)?),
        Asked::Since(excerpt) => list(rt, alloc, desk, seat, id, excerpt)?,
        Asked::Fault(fault) => Content::Value(fault_reply(alloc, id, &fault)?),
    };
    Ok(Replied {
        reply,
        refused: None,
    })
}
