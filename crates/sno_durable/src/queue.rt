//! What several seats leave for the disk, until one of them writes it.
ghost use Rattle.std.specs.Prelude.{◌≡◌, ◌++◌, ◌∷◌, [], false, true, OnOk, if◌then◌else◌};
ghost use Rattle.sno_store.specs.Shown.{lines_in};
ghost use Rattle.sno_durable.specs.Queued.{HasGiven, HasTaken, shown_at, waiting_at, with_left};

use sno_book::MAX_ENTRIES;
use sno_listing::Refusal;
use sno_serve::MAX_REFUSED;
use sno_store::{LineFault, Lines};
use std::alloc::{AllocError, Global};
use std::collections::BTreeMap;
use std::mem;

/// How many replies may wait before a seat lets the disk come first.
const MAX_REPLIES: usize = 1_024;

/// How many bytes of replies may wait before the disk comes first.
pub(crate) const MAX_WAITING: usize = 4_194_304;

/// Why nothing more can be taken.
#[derive(Clone, Copy, Debug)]
pub(crate) enum QueueFault {
    /// A record can't be a line, or memory ran out.
    Line(LineFault),
    /// An index is past those of each journal, which no legal run meets.
    Index,
}

impl From<LineFault> for QueueFault {
    fn from(fault: LineFault) -> QueueFault {
        QueueFault::Line(fault)
    }
}

impl From<AllocError> for QueueFault {
    fn from(_refused: AllocError) -> QueueFault {
        QueueFault::Line(LineFault::Memory)
    }
}

/// What a seat has done with a line.
#[derive(Drop)]
pub(crate) struct Noted {
    /// The record of its entry, and the entry's index at the desk, if one was accepted.
    pub(crate) record: Option<(u64, Vec<u8>)>,
    /// The reply, with what it may show.
    pub(crate) held: Held,
    /// What the listing has of it, if it is a refused statement.
    pub(crate) refused: Option<Refusal>,
}

/// A reply that waits for the disk.
#[derive(Drop)]
pub(crate) struct Held {
    /// How many entries the seat had seen, so that the reply shows no later one.
    pub(crate) seen: u64,
    /// The reply, as a line.
    pub(crate) reply: Vec<u8>,
}

/// What is written together.
#[derive(Drop)]
pub(crate) struct Batch {
    pub(crate) records: Lines,
    pub(crate) replies: Vec<u8>,
}

impl Batch {
    /// Nothing is written.
    pub(crate) fn nothing(alloc: Global) -> Batch
        ensures { (lines_in result.records ≡ []) × (result.replies.items ≡ []) }
    {
        Batch {
            records: Lines::new(alloc),
            replies: Vec::new(alloc),
        }
    }
}

/// What all seats have left, and whether one of them is writing.
#[derive(Drop)]
pub(crate) struct Queue {
    /// Records by the indices of their entries.
    records: BTreeMap<u64, Vec<u8>>,
    replies: Vec<Held>,
    /// How many bytes the replies have.
    bytes: usize,
    /// The index of the next entry whose record is written.
    next: u64,
    is_writing: bool,
    /// Whether nothing has failed yet.
    is_open: bool,
    /// Whether there will be a listing.
    lists: bool,
    refused: Vec<Refusal>,
}

impl Queue {
    /// Nothing was left yet.
    pub(crate) fn new(alloc: Global, lists: bool) -> Queue
        ensures empty { (result.records.entries ≡ []) × (result.replies.items ≡ []) × (result.refused.items ≡ []) }
        ensures first { (result.next ≡ 0) × (result.bytes ≡ 0) }
        ensures open { (result.is_open ≡ true) × (result.is_writing ≡ false) }
        ensures lists { result.lists ≡ lists }
    {
        Queue {
            records: BTreeMap::new(alloc),
            replies: Vec::new(alloc),
            bytes: 0,
            next: 0,
            is_writing: false,
            is_open: true,
            lists,
            refused: Vec::new(alloc),
        }
    }

    /// Begins after the entries that there are, with what the listing has of statements before them.
    pub(crate) fn begin(&mut self, entries: u64, refused: Vec<Refusal>)
        ensures { self.new ≡ record self.old { next = entries; refused = (if self.old.lists then refused else self.old.refused) } }
    {
        self.next = entries;
        if self.lists {
            self.refused = refused;
        }
    }

    /// How many entries there are whose seats have left them.
    pub(crate) fn entries(&self) -> u64 {
        self.next.saturating_add(self.records.len() as u64)
    }

    /// Whether nothing has failed yet.
    pub(crate) fn is_open(&self) -> bool {
        self.is_open
    }

    /// Something has failed.
    pub(crate) fn close(&mut self) {
        self.is_open = false;
    }

    /// What the listing has of refused statements.
    pub(crate) fn into_refused(self) -> Vec<Refusal> {
        self.refused
    }

    /// Whether so much waits that the disk comes first.
    pub(crate) fn is_much(&self) -> bool {
        self.replies.len() >= MAX_REPLIES || self.bytes >= MAX_WAITING
    }

    /// Adds what a seat has done. Returns whether this seat is to write: no other one does.
    pub(crate) fn add(&mut self, noted: Noted) -> Result<bool, AllocError>
        ensures records { OnOk result (self.new.records.entries ≡ with_left noted.record self.old.records.entries) }
        ensures replies { OnOk result (self.new.replies.items ≡ self.old.replies.items ++ noted.held ∷ []) }
        ensures next { self.new.next ≡ self.old.next }
    {
        let Noted {
            record,
            held,
            refused,
        } = noted;
        if let Some((index, record)) = record {
            self.records.insert(index, record)?;
        }
        self.bytes = self.bytes.saturating_add(held.reply.len());
        self.replies.push(held)?;
        if let Some(refused) = refused {
            if self.lists && self.refused.len() < MAX_REFUSED {
                self.refused.push(refused)?;
            }
        }
        let is_writer = !self.is_writing;
        self.is_writing = true;
        Ok(is_writer)
    }

    /// Takes the records of the next entries, as far as their seats have left them.
    fn take_records(&mut self, records: &mut Lines) -> Result<(), QueueFault>
        ensures taken { OnOk result (HasTaken records.old records.new self.old.next self.new.next) }
        ensures given { OnOk result (HasGiven self.old.records.entries self.new.records.entries self.old.next self.new.next (lines_in records.old) (lines_in records.new)) }
        ensures same { self.new.replies ≡ self.old.replies }
    {
        for _ in 0..self.records.len() {
            if self.next >= MAX_ENTRIES as u64 {
                return Err(QueueFault::Index);
            }
            let Some(record) = self.records.remove(&self.next) else {
                break;
            };
            records.push(&record)?;
            self.next += 1;
        }
        Ok(())
    }

    /// Takes the replies that show no later entry.
    fn take_replies(&mut self, alloc: Global, replies: &mut Vec<u8>) -> Result<(), AllocError>
        ensures shown { OnOk result (replies.new.items ≡ replies.old.items ++ shown_at self.old.next self.old.replies.items) }
        ensures waiting { OnOk result (self.new.replies.items ≡ waiting_at self.old.next self.old.replies.items) }
        ensures same { (self.new.next ≡ self.old.next) × (self.new.records ≡ self.old.records) }
    {
        let all = mem::replace(&mut self.replies, Vec::new(alloc));
        self.bytes = 0;
        for held in all {
            if held.seen <= self.next {
                replies.extend_from_slice(&held.reply)?;
            } else {
                self.bytes = self.bytes.saturating_add(held.reply.len());
                self.replies.push(held)?;
            }
        }
        Ok(())
    }

    /// Takes what can be written now: the records of the next entries, and the replies that show no later one. The seat that asks goes
    /// on writing if there is something. Returns whether there is.
    ///
    /// The batch has nothing before.
    pub(crate) fn take(&mut self, alloc: Global, batch: &mut Batch) -> Result<bool, QueueFault>
        requires { (lines_in batch.old.records ≡ []) × (batch.old.replies.items ≡ []) }
        ensures taken { OnOk result (HasTaken batch.old.records batch.new.records self.old.next self.new.next) }
        ensures given { OnOk result (HasGiven self.old.records.entries self.new.records.entries self.old.next self.new.next [] (lines_in batch.new.records)) }
        ensures shown { OnOk result (batch.new.replies.items ≡ shown_at self.new.next self.old.replies.items) }
        ensures waiting { OnOk result (self.new.replies.items ≡ waiting_at self.new.next self.old.replies.items) }
    {
        self.take_records(&mut batch.records)?;
        self.take_replies(alloc, &mut batch.replies)?;
        let is_any = !batch.records.is_empty() || !batch.replies.is_empty();
        self.is_writing = is_any;
        Ok(is_any)
    }
}
