//! What lines mean, and what is performed before the first of them.
ghost use Rattle.std.specs.Prelude.{◌≡◌, ◌≤◌, ◌+◌, false, true, IfErr, IfOk, OnOk, length};
ghost use Rattle.sno_statement.specs.Statement.{IsLimit};
ghost use Rattle.sno_store.specs.Shown.{lines_left};
ghost use Rattle.sno_durable.specs.Records.{record_text};
ghost use Rattle.sno_durable.specs.Faults.{is_of_record};
ghost use Rattle.sno_durable.specs.declared.faults.DurableFault.TheVariants.{Memory};

use crate::DurableFault;
use crate::past::Past;
use crate::records::{record_in, record_line};
use crate::sought::{Shown, reply_here};
use sno_desk::{Naming, Seat, SubmitFault};
use sno_document::{Mode, Rules};
use sno_listing::Refusal;
use sno_serve::{Asked, AtDesk, Content, line_in, refusal_in, submit};
use sno_statement::Statement;
use sno_store::LinesIter;
use std::alloc::Global;
use std::sync::{Arc, Wait};

/// A statement is tried once: no other seat can change its text.
pub(crate) const ONE_TRY: u32 = 1;

/// What lines mean: the definitions, how statements are performed, and what came before the desk's first entry.
#[derive(Drop)]
pub(crate) struct Reading {
    pub(crate) rules: Arc<Rules>,
    pub(crate) mode: Mode,
    pub(crate) past: Past,
    ghost limit: { IsLimit mode.trials },
}

/// The record of an entry: the line of its statement, and the text of its reply.
pub(crate) fn record_of(alloc: Global, line: &[u8], reply: &[u8]) -> Result<Vec<u8>, DurableFault>
    ensures text { IfOk result (λ b. b.items ≡ record_text line.now reply.now) }
    ensures fault { IfErr result (λ e. is_of_record e ≡ false) }
{
    let Ok(line) = str::from_utf8(line) else {
        return Err(DurableFault::Read);
    };
    let record = record_line(alloc, line, reply)?;
    Ok(record)
}

/// The number of the next statement, after a line that asks for this: a statement takes a number.
pub(crate) fn number_after(number: u32, asked: &Asked) -> u32 {
    if matches!(asked, Asked::Perform(_) | Asked::PerformAt(_, _)) {
        number.saturating_add(1)
    } else {
        number
    }
}

/// Whether a statement was refused since memory ran out: the next time it might be accepted.
fn is_out_of_memory(reply: &Content) -> bool {
    let reason = match reply {
        Content::Value(value) => value.get("reason"),
        Content::Entry(_, _) | Content::Entries(_, _) => None,
    };
    match reason.and_then(|reason| reason.as_str()) {
        Some(reason) => reason == "out of memory",
        None => false,
    }
}

/// Performs the statements of the document. What the listing has of those that are refused comes after what it has.
///
/// Refused: `Memory`, if one of them ran out of memory: the next time it might be accepted.
pub(crate) fn begin<L: Naming, R: Wait>(
    at: &AtDesk<'_, L, R>,
    seat: &mut Seat<L>,
    statements: &[Arc<Statement>],
    refused: &mut Vec<Refusal>,
) -> Result<(), DurableFault>
    ensures { IfErr result (λ e. e ≡ Memory) }
{
    for statement in statements {
        let number = statement.number();
        let shared = Arc::try_clone(statement)?;
        let reply = submit(at.rt, at.alloc, at.desk, seat, shared, ONE_TRY);
        if matches!(&reply, Err(SubmitFault::Memory) | Err(SubmitFault::Stopped)) {
            return Err(DurableFault::Memory);
        }
        if let Some(refusal) = refusal_in(number, &reply) {
            refused.push(refusal)?;
        }
    }
    Ok(())
}

/// Whether the two have the same bytes.
fn is_same(one: &[u8], other: &[u8]) -> bool
    ensures same { result ≡ true → one.now ≡ other.now }
    ensures other { result ≡ false → ¬ (one.now ≡ other.now) }
{
    one == other
}

impl Reading {
    ghost use Rattle.sno_desk.specs.Turns.{position};
    ghost use Rattle.sno_durable.specs.Performed.{AreRecords, IsRecordOf};
    ghost use Rattle.sno_durable.specs.Replayed.{HasEnded, IsFault};

    /// Performs the statements of these records again. Returns the number of the next statement, which was `number`, and is higher
    /// than that of each record.
    pub(crate) fn replay_all<L: Naming, R: Wait>(
        &self,
        at: &AtDesk<'_, L, R>,
        seat: &mut Seat<L>,
        number: u32,
        records: LinesIter<'_>,
    ) -> Result<u32, DurableFault>
        ensures again { OnOk result (length (lines_left records.entry) + seat.old.accepted ≡ seat.new.accepted) }
        ensures records { OnOk result (AreRecords self.now L.opening seat.old.seen (lines_left records.entry) seat.new.seen) }
        ensures ended { IfErr result (λ e. HasEnded self.now L.opening 1 (position seat.old.accepted seat.old.seen) (lines_left records.entry) (position seat.new.accepted seat.new.seen) e) }
    {
        let mut next = number;
        let mut place: u64 = 1;
        for record in records {
            place = place.saturating_add(1);
            let number = self.replay(at, seat, record, place)?;
            next = next.max(number.saturating_add(1));
        }
        Ok(next)
    }

    /// Performs the statement of a record again, and returns its number. `place` is the number of its line, from 1.
    ///
    /// Refused: `Record` if the line isn't a record; `Outcome` if the statement isn't accepted with the same reply, unless memory
    /// ran out.
    fn replay<L: Naming, R: Wait>(
        &self,
        at: &AtDesk<'_, L, R>,
        seat: &mut Seat<L>,
        stored: &[u8],
        place: u64,
    ) -> Result<u32, DurableFault>
        ensures again { OnOk result (seat.new.accepted ≡ seat.old.accepted + 1) }
        ensures record { OnOk result (IsRecordOf self.now L.opening seat.old.seen seat.new.seen stored.now) }
        ensures cause { IfErr result (λ e. IsFault self.now L.opening (position seat.old.accepted seat.old.seen) (position seat.new.accepted seat.new.seen) place stored.now e) }
    {
        let Some(record) = record_in(at.alloc, stored)? else {
            return Err(DurableFault::Record(place));
        };
        let line = record.line.as_bytes();
        let read = line_in(at.alloc, &self.rules, self.mode, record.number, line)?;
        let other = DurableFault::Outcome(place);
        let before = seat.accepted();
        let Shown { reply, .. } = reply_here(at, seat, &self.past, read, ONE_TRY)?;
        if seat.accepted() == before {
            if is_out_of_memory(&reply) {
                return Err(DurableFault::Memory);
            }
            return Err(other);
        }
        let mut text = Vec::new(at.alloc);
        reply.put(at.alloc, &mut text)?;
        let again = record_line(at.alloc, &record.line, &text)?;
        if !is_same(&again, stored) {
            return Err(other);
        }
        Ok(record.number)
    }
}
