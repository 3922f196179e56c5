//! Several seats over one store.
ghost use Rattle.std.specs.Prelude.{◌≡◌, ◌≤◌, ◌+◌, IfOk, MatchResult, None, Some, length, option_to_list, if◌then◌else◌};
ghost use Rattle.sno_desk.specs.declared.desk.TheConstants.{MAX_TRIES};
ghost use Rattle.sno_durable.specs.Queued.{HasLeft, IsLeft, index_after, index_shown};
ghost use Rattle.sno_durable.specs.Records.{record_text};
ghost use Rattle.sno_durable.specs.declared.faults.DurableFault.TheVariants.{Desk as NoDesk};

use crate::DurableFault;
use crate::earlier::{Reading, begin, number_after, record_of};
use crate::queue::{Batch, Held, Noted, Queue};
use crate::records::number_at;
use crate::replies::{put_noted, put_reply, too_long};
use crate::shelf::Shelf;
use crate::sought::{Shown, reply_here};
use sno_desk::{DeskWork, Naming, Seat};
use sno_serve::{AtDesk, Content, Desk, Intake, Line, Next, line_in};
use sno_statement::Statement;
use sno_store::Lines;
use sqlite_disk::Disk;
use std::alloc::Global;
use std::io::{Read, Write};
use std::sync::{Arc, Mutex, Wait};

/// Where lines come in.
#[derive(Drop)]
pub(crate) struct Door<I: Read> {
    pub(crate) intake: Intake<I>,
    /// The lines of the store, until their statements are performed again.
    pub(crate) earlier: Option<Lines>,
    /// How many entries are of the document's own statements.
    pub(crate) first: u64,
    /// Whether the desk has as many entries as it may have.
    pub(crate) is_full: bool,
}

/// What several seats share. A seat that takes a line holds the door, and one that writes the shelf; the queue is held for moments
/// alone.
#[derive(Drop)]
pub(crate) struct Shared<D: Disk, I: Read, W: Write> {
    pub(crate) reading: Reading,
    pub(crate) statements: Vec<Arc<Statement>>,
    pub(crate) tries: u32,
    /// With this many entries the desk is closed.
    pub(crate) most: u64,
    /// The number of the next statement.
    pub(crate) numbers: Mutex<u32>,
    pub(crate) door: Mutex<Door<I>>,
    pub(crate) queue: Mutex<Queue>,
    pub(crate) shelf: Mutex<Shelf<D, W>>,
    /// The first fault.
    pub(crate) fault: Mutex<Option<DurableFault>>,
    ghost valid: { (1 ≤ tries) × (tries ≤ MAX_TRIES) },
}

/// An index that was written, less how many entries came before the desk's first one.
fn index_after(written: Option<u64>, before: u64) -> Result<u64, DurableFault>
    ensures { MatchResult result (λ i. index_after before written ≡ Some i) (λ e. (e ≡ NoDesk) × (index_after before written ≡ None)) }
{
    match written {
        Some(index) => {
            if index < before {
                return Err(DurableFault::Desk);
            }
            Ok(index - before)
        }
        None => Err(DurableFault::Desk),
    }
}

/// The index at the desk of the entry that a reply shows. `before` entries came before the desk's first one.
fn index_in(reply: &Content, before: u64) -> Result<u64, DurableFault>
    ensures { MatchResult result (λ i. index_shown before reply.now ≡ Some i) (λ e. (e ≡ NoDesk) × (index_shown before reply.now ≡ None)) }
{
    match reply {
        Content::Entry(_, receipt) => Ok(receipt.index as u64),
        Content::Value(value) => index_after(number_at(value, "entry"), before),
        Content::Entries(_, _) => Err(DurableFault::Desk),
    }
}

/// The record of a line's entry, with the index that the reply shows.
fn record_at(
    alloc: Global,
    line: &[u8],
    reply: &Content,
    text: &[u8],
    before: u64,
) -> Result<(u64, Vec<u8>), DurableFault>
    ensures { IfOk result (λ r. (index_shown before reply.now ≡ Some r.0) × (r.1.items ≡ record_text line.now text.now)) }
{
    let index = index_in(reply, before)?;
    let record = record_of(alloc, line, text)?;
    Ok((index, record))
}

/// What is left for the disk of a line that was performed: its record, if an entry was accepted.
fn record_left(
    alloc: Global,
    line: &[u8],
    reply: &Content,
    text: &[u8],
    before: u64,
    is_accepted: bool,
) -> Result<Option<(u64, Vec<u8>)>, DurableFault>
    ensures counted { IfOk result (λ r. length (option_to_list r) ≡ (if is_accepted then 1 else 0)) }
    ensures left { IfOk result (λ r. IsLeft before line.now reply.now text.now r) }
{
    if !is_accepted {
        return Ok(None);
    }
    let record = record_at(alloc, line, reply, text, before)?;
    Ok(Some(record))
}

impl<D: Disk + Drop, I: Read + Drop, W: Write + Drop> Shared<D, I, W> {
    ghost use Rattle.std.specs.Option.{option_map};
    ghost use Rattle.std.specs.Prelude.{ℕ};
    ghost use Rattle.serde_json.specs.View.{view};
    ghost use Rattle.sno_serve.specs.Asked.{id_in};
    ghost use Rattle.sno_durable.specs.Performed.{asked_now};

    /// Takes a fault, if it is the first one, and closes the service.
    fn fail<R: Wait>(&self, rt: &R, fault: DurableFault) {
        let mut first = self.fault.lock(rt);
        if first.is_none() {
            *first = Some(fault);
        }
        self.queue.lock(rt).close();
    }

    /// Performs the statements of the document, and those of the store's records again.
    fn begin<L: Naming, R: Wait>(
        &self,
        at: &AtDesk<'_, L, R>,
        seat: &mut Seat<L>,
        door: &mut Door<I>,
        lines: &Lines,
    ) -> Result<(), DurableFault> {
        let mut refused = Vec::new(at.alloc);
        begin(at, seat, &self.statements, &mut refused)?;
        door.first = seat.accepted();
        let mut records = lines.iter();
        let _origin = records.next();
        let mut number = self.numbers.lock(at.rt);
        *number = self.reading.replay_all(at, seat, *number, records)?;
        self.queue.lock(at.rt).begin(seat.accepted(), refused);
        Ok(())
    }

    /// The next line at the door. The first seat that asks for one performs what comes before it.
    fn next_at<L: Naming, R: Wait>(
        &self,
        at: &AtDesk<'_, L, R>,
        seat: &mut Seat<L>,
        door: &mut Door<I>,
    ) -> Result<Next, DurableFault> {
        if let Some(lines) = door.earlier.take() {
            self.begin(at, seat, door, &lines)?;
        }
        let queue = self.queue.lock(at.rt);
        if !queue.is_open() {
            return Ok(Next::End);
        }
        if queue.entries() >= self.most {
            door.is_full = true;
            return Ok(Next::End);
        }
        drop(queue);
        let next = door.intake.next(at.alloc)?;
        Ok(next)
    }

    /// The next line. A fault closes the service before another seat comes to the door, which may be half begun or within a line.
    fn next<L: Naming, R: Wait>(&self, at: &AtDesk<'_, L, R>, seat: &mut Seat<L>) -> Next {
        let mut door = self.door.lock(at.rt);
        match self.next_at(at, seat, &mut door) {
            Ok(next) => next,
            Err(fault) => {
                self.fail(at.rt, fault);
                Next::End
            }
        }
    }

    /// What a line asks for, with no more trials than the service lets a match take. A statement takes the next number.
    fn read<L: Naming, R: Wait>(
        &self,
        at: &AtDesk<'_, L, R>,
        line: &[u8],
    ) -> Result<Line, DurableFault>
        ensures asked { IfOk result (λ l. (number : ℕ) × (option_map view l.id ≡ id_in line.now) × (l.asked ≡ asked_now self.now.reading number line.now)) }
    {
        let mut number = self.numbers.lock(at.rt);
        let Reading { rules, mode, .. } = &self.reading;
        let mut line = line_in(at.alloc, rules, *mode, *number, line)?;
        line.keep_within(mode.trials);
        *number = number_after(*number, &line.asked);
        Ok(line)
    }

    /// Does what a line asks for.
    fn perform<L: Naming, R: Wait>(
        &self,
        at: &AtDesk<'_, L, R>,
        seat: &mut Seat<L>,
        line: &[u8],
    ) -> Result<Noted, DurableFault>
        ensures counted { IfOk result (λ noted. length (option_to_list noted.record) + seat.old.accepted ≡ seat.new.accepted) }
        ensures seen { IfOk result (λ noted. noted.held.seen ≡ length seat.new.seen) }
        ensures left { IfOk result (λ noted. HasLeft self.now.reading self.now.tries L.opening seat.old.seen seat.new.seen line.now noted.record noted.held.reply.items) }
    {
        let mut read = self.read(at, line)?;
        let ignored = read.take_ignored(at.alloc);
        let past = &self.reading.past;
        let before = seat.accepted();
        let Shown { reply, refused } = reply_here(at, seat, past, read, self.tries)?;
        let mut text = Vec::new(at.alloc);
        reply.put(at.alloc, &mut text)?;
        let is_accepted = seat.accepted() != before;
        let record = record_left(at.alloc, line, &reply, &text, past.entries, is_accepted)?;
        let mut bytes = Vec::new(at.alloc);
        put_noted(at.alloc, &mut bytes, &text, reply, ignored)?;
        let held = Held {
            seen: seat.seen(),
            reply: bytes,
        };
        Ok(Noted {
            record,
            held,
            refused,
        })
    }

    /// The reply to a line that is too long, which shows no entry.
    fn refuse_line(&self, alloc: Global) -> Result<Noted, DurableFault> {
        let reply = too_long(alloc)?;
        let mut bytes = Vec::new(alloc);
        put_reply(alloc, &mut bytes, &reply)?;
        Ok(Noted {
            record: None,
            held: Held {
                seen: 0,
                reply: bytes,
            },
            refused: None,
        })
    }

    /// Leaves what a seat has done for the disk. If no other seat is writing, this one does.
    fn leave<R: Wait>(&self, rt: &R, alloc: Global, noted: Noted) -> Result<(), DurableFault> {
        let mut queue = self.queue.lock(rt);
        let is_writer = queue.add(noted)?;
        let is_much = queue.is_much();
        drop(queue);
        if is_writer {
            return self.write(rt, alloc);
        }
        if is_much {
            // the writer has the shelf
            let _turn = self.shelf.lock(rt);
        }
        Ok(())
    }

    /// Writes what seats have left, until nothing more can be written.
    fn write<R: Wait>(&self, rt: &R, alloc: Global) -> Result<(), DurableFault> {
        for _ in 0..u64::MAX {
            let mut batch = Batch::nothing(alloc);
            let mut shelf = self.shelf.lock(rt);
            if !self.queue.lock(rt).take(alloc, &mut batch)? {
                return Ok(());
            }
            shelf.put(&batch.records, &batch.replies)?;
        }
        Ok(())
    }

    /// Takes one line and does what it asks for. Returns whether there may be more.
    fn step<L: Naming, R: Wait>(
        &self,
        at: &AtDesk<'_, L, R>,
        seat: &mut Seat<L>,
    ) -> Result<bool, DurableFault> {
        let noted = match self.next(at, seat) {
            Next::End => return Ok(false),
            Next::TooLong => self.refuse_line(at.alloc)?,
            Next::Line(line) => self.perform(at, seat, &line)?,
        };
        self.leave(at.rt, at.alloc, noted)?;
        Ok(true)
    }
}

impl<D: Disk + Drop, I: Read + Drop, W: Write + Drop> DeskWork for Shared<D, I, W> {
    ghost takes = { λ shared before after. Unit {0} };

    fn work<L: Naming, R: Wait>(
        &self,
        rt: &R,
        alloc: Global,
        desk: &Desk<L>,
        seat: &mut Seat<L>,
        _number: usize,
    ) {
        let at = AtDesk { rt, alloc, desk };
        for _turn in 0..u64::MAX {
            match self.step(&at, seat) {
                Ok(true) => {}
                Ok(false) => return,
                Err(fault) => {
                    self.fail(rt, fault);
                    return;
                }
            }
        }
    }
}
