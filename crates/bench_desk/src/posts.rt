//! What a writer and a reader do at their seats.
ghost use Rattle.std.specs.Prelude.{◌≤◌};

use crate::faults::Fault;
use crate::texts::TEXTS;
use crate::words::{Load, Look};
use sno_desk::{Desk, Naming, OpenGate, Receipt, Seat, TextName};
use sno_statement::Statement;
use std::alloc::Global;
use std::sync::atomic::{AtomicU64, Ordering};
use std::sync::{Arc, Wait};
use std::{mem, thread};

/// How many tries a submit has. In a load of many writers, one text is replaced fewer times by others.
const TRIES: u32 = 1_000;

/// What was done at a seat: the receipts, how many times a text was looked at, how many statements the seat has accepted, and the first fault.
#[derive(Drop)]
pub struct Record {
    pub receipts: Vec<Receipt>,
    pub snapshots: u64,
    pub accepted: u64,
    pub fault: Option<Fault>,
}

impl Record {
    /// The record of a seat at which nothing was done.
    fn new(alloc: Global) -> Record {
        Record {
            receipts: Vec::new(alloc),
            snapshots: 0,
            accepted: 0,
            fault: None,
        }
    }
}

/// A seat with its record.
#[derive(Drop)]
pub struct Post<L: Naming> {
    pub seat: Seat<L>,
    pub record: Record,
}

impl<L: Naming> Post<L> {
    /// A post at which nothing was done.
    pub(crate) fn new(alloc: Global, seat: Seat<L>) -> Post<L> {
        Post {
            seat,
            record: Record::new(alloc),
        }
    }

    /// Takes the record, with the seat's count, and puts a new one in its place.
    pub(crate) fn take_record(&mut self, alloc: Global) -> Record {
        self.record.accepted = self.seat.accepted();
        mem::replace(&mut self.record, Record::new(alloc))
    }

    /// The seat, without its record.
    pub(crate) fn into_seat(self) -> Seat<L> {
        self.seat
    }

    /// The version of a text in a snapshot.
    fn version_of(&mut self, name: &TextName) -> Result<u64, Fault> {
        let snapshot = self.seat.snapshot(name)?;
        self.record.snapshots = self.record.snapshots.saturating_add(1);
        Ok(snapshot.version)
    }

    /// Takes a snapshot of each text. No version may be lower than the one that was seen before.
    fn look(&mut self, names: &[TextName], versions: &mut [u64]) -> Result<(), Fault> {
        for (name, version) in names.iter().zip(versions.iter_mut()) {
            let found = self.version_of(name)?;
            if found < *version {
                return Err(Fault::WentDown);
            }
            *version = found;
        }
        Ok(())
    }

    /// Reads one text in place, as many times as there are versions. No version may be lower than the one that was seen
    /// before.
    fn read_in_place(&mut self, place: usize, versions: &mut [u64]) -> Result<(), Fault> {
        for version in versions.iter_mut() {
            let found = self.seat.read_at(place, |_text, version| version)?;
            if found < *version {
                return Err(Fault::WentDown);
            }
            *version = found;
            self.record.snapshots = self.record.snapshots.saturating_add(1);
        }
        Ok(())
    }

    /// The place of the one text that a reader reads; `None` if it takes snapshots of all. A name is looked up once.
    fn place_to_read(
        &self,
        names: &[TextName],
        look: Look,
        reader: usize,
    ) -> Result<Option<usize>, Fault> {
        let number = match look {
            Look::Snapshots | Look::Eager => return Ok(None),
            Look::One => 0,
            Look::Own => reader % TEXTS,
        };
        let name = names.get(number).ok_or(Fault::NoLoad)?;
        let place = self.seat.place(name).ok_or(Fault::NoLoad)?;
        Ok(Some(place))
    }

    /// Looks at texts while writers are at work.
    fn read(&mut self, shared: &Shared, reader: usize) -> Result<(), Fault> {
        let mut versions = [0u64; TEXTS];
        let look = shared.load.look;
        let place = self.place_to_read(&shared.names, look, reader)?;
        for _ in 0..u64::MAX {
            if shared.writers.load(Ordering::SeqCst) == 0 {
                break;
            }
            match place {
                Some(place) => self.read_in_place(place, &mut versions)?,
                None => self.look(&shared.names, &mut versions)?,
            }
            if matches!(look, Look::Snapshots) {
                thread::yield_now();
            }
        }
        Ok(())
    }
}

/// What all posts share apart from the desk: the statements and the names of the texts, the load, and how many writers
/// are still at work.
#[derive(Drop)]
pub struct Shared {
    pub jobs: Vec<Arc<Statement>>,
    pub names: Vec<TextName>,
    pub load: Load,
    pub writers: AtomicU64,
}

/// The desk at which the posts work, with what else they share.
#[derive(Drop)]
pub struct Shift<'a, L: Naming> {
    pub desk: &'a Desk<L>,
    pub shared: &'a Shared,
}

impl<L: Naming> Shift<'_, L> {
    /// Submits the job, and keeps its receipt.
    fn submit<R: Wait>(
        &self,
        rt: &R,
        alloc: Global,
        post: &mut Post<L>,
        job: &Arc<Statement>,
    ) -> Result<(), Fault> {
        let job = Arc::try_clone(job)?;
        let receipt = self
            .desk
            .submit(rt, alloc, &mut post.seat, job, TRIES, &OpenGate)?;
        Ok(post.record.receipts.push(receipt)?)
    }

    /// Submits each job of this post.
    fn write<R: Wait>(
        &self,
        rt: &R,
        alloc: Global,
        post: &mut Post<L>,
        first: usize,
    ) -> Result<(), Fault> {
        for (place, job) in self.shared.jobs.iter().enumerate() {
            if place % self.shared.load.writers == first {
                self.submit(rt, alloc, post, job)?;
            }
        }
        Ok(())
    }

    /// Does the work of the post at a place: the first posts write, the others read.
    pub(crate) fn work<R: Wait>(&self, rt: &R, alloc: Global, place: usize, post: &mut Post<L>) {
        let shared = self.shared;
        let done = if place < shared.load.writers {
            let done = self.write(rt, alloc, post, place);
            shared.writers.fetch_sub(1, Ordering::SeqCst);
            done
        } else {
            post.read(shared, place)
        };
        post.record.fault = done.err();
    }
}
