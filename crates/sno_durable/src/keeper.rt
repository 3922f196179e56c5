//! The lines of a client, their replies, and the store between the two, at one seat.
ghost use Rattle.std.specs.Prelude.{◌≡◌, ◌+◌, [], false, IfErr, OnOk, IsTrue, length};
ghost use Rattle.sno_store.specs.Shown.{lines_in, lines_left};
ghost use Rattle.sno_sealed.specs.Sealed.{is_clean};
ghost use Rattle.sno_desk.specs.Turns.{position};
ghost use Rattle.sno_durable.specs.Faults.{is_of_record};
ghost use Rattle.sno_durable.specs.Kept.{HasNoted, HasKept};
ghost use Rattle.sno_durable.specs.Performed.{AreRecords, HasRecords, HasReplied};
ghost use Rattle.sno_durable.specs.Replayed.{HasEnded};
ghost use Rattle.sno_durable.specs.Stored.{HasStored};
ghost use Rattle.sno_durable.specs.declared.faults.DurableFault.TheVariants.{Memory};

use crate::DurableFault;
use crate::earlier::{ONE_TRY, Reading, begin, number_after, record_of};
use crate::queue::MAX_WAITING;
use crate::replies::{put_noted, put_reply, too_long};
use crate::shelf::Shelf;
use crate::sought::{Shown, reply_here};
use sno_desk::{Naming, Seat};
use sno_listing::Refusal;
use sno_serve::{AtDesk, Intake, Next, line_in};
use sno_statement::Statement;
use sno_store::{Lines, LinesIter};
use sqlite_disk::Disk;
use std::alloc::Global;
use std::io::{Read, Write};
use std::sync::{Arc, Wait};

/// The most lines that share one wait for the disk.
const MAX_LINES: usize = 1_024;

/// What waits for the disk: the records of entries, and the replies that are shown when these are on it.
#[derive(Drop)]
struct Waiting {
    records: Lines,
    replies: Vec<u8>,
    /// The text of the last reply, which its record has too.
    text: Vec<u8>,
}

impl Waiting {
    /// Nothing waits.
    fn nothing(alloc: Global) -> Waiting
        ensures { lines_in result.records ≡ [] }
    {
        Waiting {
            records: Lines::new(alloc),
            replies: Vec::new(alloc),
            text: Vec::new(alloc),
        }
    }

    /// Nothing waits any more. The memory is used again, unless it is much.
    fn clear(&mut self, alloc: Global)
        ensures { lines_in self.new.records ≡ [] }
    {
        if self.replies.capacity() > MAX_WAITING {
            *self = Waiting::nothing(alloc);
        } else {
            self.records.clear();
            self.replies.clear();
        }
    }
}

/// What is between a client and the desk's only seat.
#[derive(Drop)]
pub(crate) struct Keeper<D: Disk, I: Read, W: Write> {
    pub(crate) reading: Reading,
    /// The number of the next statement.
    pub(crate) number: u32,
    pub(crate) shelf: Shelf<D, W>,
    /// With this many entries the desk is closed.
    pub(crate) most: u64,
    pub(crate) intake: Intake<I>,
    /// Whether there will be a listing.
    pub(crate) lists: bool,
    pub(crate) refused: Vec<Refusal>,
}

impl<D: Disk + Drop, I: Read + Drop, W: Write + Drop> Keeper<D, I, W> {
    /// Replies to a line. The record of its entry, if it has one, and the reply wait for the disk.
    fn reply<L: Naming, R: Wait>(
        &mut self,
        at: &AtDesk<'_, L, R>,
        seat: &mut Seat<L>,
        line: &[u8],
        waiting: &mut Waiting,
    ) -> Result<(), DurableFault>
        ensures noted { OnOk result (HasNoted waiting.old.records waiting.new.records seat.old.accepted seat.new.accepted) }
        ensures fault { IfErr result (λ e. is_of_record e ≡ false) }
        ensures replied { OnOk result (HasReplied self.old.reading L.opening (position seat.old.accepted seat.old.seen) (position seat.new.accepted seat.new.seen) line.now (lines_in waiting.old.records) (lines_in waiting.new.records) waiting.old.replies.items waiting.new.replies.items) }
        ensures same { (self.new.shelf ≡ self.old.shelf) × (self.new.reading ≡ self.old.reading) }
    {
        let mut read = line_in(
            at.alloc,
            &self.reading.rules,
            self.reading.mode,
            self.number,
            line,
        )?;
        read.keep_within(self.reading.mode.trials);
        let ignored = read.take_ignored(at.alloc);
        self.number = number_after(self.number, &read.asked);
        let before = seat.accepted();
        let Shown { reply, refused } = reply_here(at, seat, &self.reading.past, read, ONE_TRY)?;
        waiting.text.clear();
        reply.put(at.alloc, &mut waiting.text)?;
        put_noted(
            at.alloc,
            &mut waiting.replies,
            &waiting.text,
            reply,
            ignored,
        )?;
        self.keep(refused)?;
        if seat.accepted() == before {
            return Ok(());
        }
        let record = record_of(at.alloc, line, &waiting.text)?;
        waiting.records.push(&record)?;
        Ok(())
    }

    /// Keeps what the listing has of a refused statement, if there will be one.
    fn keep(&mut self, refused: Option<Refusal>) -> Result<(), DurableFault>
        ensures fault { IfErr result (λ e. is_of_record e ≡ false) }
        ensures same { (self.new.shelf ≡ self.old.shelf) × (self.new.reading ≡ self.old.reading) }
    {
        if let Some(refused) = refused {
            if self.lists {
                self.refused.push(refused)?;
            }
        }
        Ok(())
    }

    /// Takes a line and replies to it. Returns whether there may be more.
    fn take<L: Naming, R: Wait>(
        &mut self,
        at: &AtDesk<'_, L, R>,
        seat: &mut Seat<L>,
        waiting: &mut Waiting,
    ) -> Result<bool, DurableFault>
        ensures noted { OnOk result (HasNoted waiting.old.records waiting.new.records seat.old.accepted seat.new.accepted) }
        ensures fault { IfErr result (λ e. is_of_record e ≡ false) }
        ensures records { OnOk result (HasRecords self.old.reading L.opening (position seat.old.accepted seat.old.seen) (position seat.new.accepted seat.new.seen) (lines_in waiting.old.records) (lines_in waiting.new.records)) }
        ensures same { (self.new.shelf ≡ self.old.shelf) × (self.new.reading ≡ self.old.reading) }
    {
        match self.intake.next(at.alloc)? {
            Next::End => Ok(false),
            Next::TooLong => {
                let reply = too_long(at.alloc)?;
                put_reply(at.alloc, &mut waiting.replies, &reply)?;
                Ok(true)
            }
            Next::Line(line) => {
                self.reply(at, seat, &line, waiting)?;
                Ok(true)
            }
        }
    }

    /// Takes a line, and those after it that were read already, as many as share one wait. Returns whether there may be more.
    fn gather<L: Naming, R: Wait>(
        &mut self,
        at: &AtDesk<'_, L, R>,
        seat: &mut Seat<L>,
        waiting: &mut Waiting,
    ) -> Result<bool, DurableFault>
        ensures noted { OnOk result (HasNoted waiting.old.records waiting.new.records seat.old.accepted seat.new.accepted) }
        ensures fault { IfErr result (λ e. is_of_record e ≡ false) }
        ensures records { OnOk result (HasRecords self.old.reading L.opening (position seat.old.accepted seat.old.seen) (position seat.new.accepted seat.new.seen) (lines_in waiting.old.records) (lines_in waiting.new.records)) }
        ensures same { (self.new.shelf ≡ self.old.shelf) × (self.new.reading ≡ self.old.reading) }
    {
        for _ in 0..MAX_LINES {
            if !self.take(at, seat, waiting)? {
                return Ok(false);
            }
            if !self.intake.has_line() || waiting.replies.len() >= MAX_WAITING {
                break;
            }
        }
        Ok(true)
    }

    /// Replies to some lines: their entries are put into the store, and when they are on the disk, the replies are written.
    /// Returns whether there may be more lines. What waited before is dropped.
    fn turn<L: Naming, R: Wait>(
        &mut self,
        at: &AtDesk<'_, L, R>,
        seat: &mut Seat<L>,
        waiting: &mut Waiting,
    ) -> Result<bool, DurableFault>
        ensures kept { OnOk result (HasKept self.old.shelf.store self.new.shelf.store seat.old.accepted seat.new.accepted) }
        ensures fault { IfErr result (λ e. is_of_record e ≡ false) }
        ensures stored { OnOk result (HasStored self.old.reading L.opening (position seat.old.accepted seat.old.seen) (position seat.new.accepted seat.new.seen) self.old.shelf.store self.new.shelf.store) }
        ensures same { self.new.reading ≡ self.old.reading }
        ensures clean { OnOk result (IsTrue (is_clean self.new.shelf.store) → IsTrue (is_clean self.old.shelf.store)) }
    {
        waiting.clear(at.alloc);
        let more = self.gather(at, seat, waiting)?;
        self.shelf.put(&waiting.records, &waiting.replies)?;
        Ok(more)
    }

    /// Replies to lines until there are no more, or the desk has as many entries as it may have. Returns whether there may be more
    /// lines.
    pub(crate) fn serve<L: Naming, R: Wait>(
        &mut self,
        at: &AtDesk<'_, L, R>,
        seat: &mut Seat<L>,
    ) -> Result<bool, DurableFault>
        ensures kept { OnOk result (HasKept self.old.shelf.store self.new.shelf.store seat.old.accepted seat.new.accepted) }
        ensures fault { IfErr result (λ e. is_of_record e ≡ false) }
        ensures stored { OnOk result (HasStored self.old.reading L.opening (position seat.old.accepted seat.old.seen) (position seat.new.accepted seat.new.seen) self.old.shelf.store self.new.shelf.store) }
        ensures same { self.new.reading ≡ self.old.reading }
    {
        let mut waiting = Waiting::nothing(at.alloc);
        for _ in 0..u64::MAX {
            if seat.accepted() >= self.most {
                return Ok(true);
            }
            if !self.turn(at, seat, &mut waiting)? {
                return Ok(false);
            }
        }
        Ok(false)
    }

    /// Performs the statements of the document.
    pub(crate) fn begin<L: Naming, R: Wait>(
        &mut self,
        at: &AtDesk<'_, L, R>,
        seat: &mut Seat<L>,
        statements: &[Arc<Statement>],
    ) -> Result<(), DurableFault>
        ensures same { (self.new.shelf ≡ self.old.shelf) × (self.new.reading ≡ self.old.reading) }
        ensures memory { IfErr result (λ e. e ≡ Memory) }
    {
        begin(at, seat, statements, &mut self.refused)?;
        if !self.lists {
            self.refused.clear();
        }
        Ok(())
    }

    /// Performs the statements of these records again.
    pub(crate) fn replay_all<L: Naming, R: Wait>(
        &mut self,
        at: &AtDesk<'_, L, R>,
        seat: &mut Seat<L>,
        records: LinesIter<'_>,
    ) -> Result<(), DurableFault>
        ensures again { OnOk result (length (lines_left records.entry) + seat.old.accepted ≡ seat.new.accepted) }
        ensures records { OnOk result (AreRecords self.old.reading L.opening seat.old.seen (lines_left records.entry) seat.new.seen) }
        ensures same { (self.new.shelf ≡ self.old.shelf) × (self.new.reading ≡ self.old.reading) }
        ensures ended { IfErr result (λ e. HasEnded self.old.reading L.opening 1 (position seat.old.accepted seat.old.seen) (lines_left records.entry) (position seat.new.accepted seat.new.seen) e) }
    {
        self.number = self.reading.replay_all(at, seat, self.number, records)?;
        Ok(())
    }
}
