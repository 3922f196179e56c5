//! What the closed journal says of the receipts.
use crate::faults::Fault;
use crate::load::Rest;
use crate::posts::Record;
use sno_book::{Book, Receipt};
use std::alloc::Global;

/// The findings: how many entries the journal has, and how many receipts and snapshots there were.
#[derive(Clone, Copy)]
pub struct Findings {
    pub entries: u64,
    pub receipts: u64,
    pub snapshots: u64,
}

/// Marks the index, which no other receipt may have marked.
fn mark(index: usize, marks: &mut [bool]) -> Result<(), Fault> {
    let Some(mark) = marks.get_mut(index) else {
        return Err(Fault::Elsewhere);
    };
    if *mark {
        return Err(Fault::Twice);
    }
    *mark = true;
    Ok(())
}

/// Marks the index of each receipt.
fn mark_all(receipts: &[Receipt], marks: &mut [bool]) -> Result<(), Fault> {
    for receipt in receipts {
        mark(receipt.index, marks)?;
    }
    Ok(())
}

/// Checks that the receipts of a seat are in the journal, each at an index of its own, and that the seat has accepted
/// as many.
fn check(book: &Book, record: &Record, marks: &mut [bool]) -> Result<(), Fault> {
    if let Some(fault) = record.fault {
        return Err(fault);
    }
    if book.audit(record.receipts.as_slice()).is_err() {
        return Err(Fault::Elsewhere);
    }
    if record.receipts.len() as u64 != record.accepted {
        return Err(Fault::Miscounted);
    }
    mark_all(record.receipts.as_slice(), marks)
}

/// How many receipts and snapshots there were, if each seat's record is as it should be.
fn count_all(rest: &Rest, marks: &mut [bool]) -> Result<(u64, u64), Fault> {
    let mut receipts = 0u64;
    let mut snapshots = 0u64;
    for record in &rest.records {
        check(&rest.book, record, marks)?;
        receipts = receipts.saturating_add(record.accepted);
        snapshots = snapshots.saturating_add(record.snapshots);
    }
    Ok((receipts, snapshots))
}

/// The same, with nothing marked before.
fn count_unmarked(alloc: Global, rest: &Rest, entries: usize) -> Result<(u64, u64), Fault> {
    let mut marks = vec![in alloc; false; entries]?;
    count_all(rest, marks.as_mut_slice())
}

/// The findings of a load, if each seat's record is as it should be, and there are as many receipts as entries.
pub(crate) fn findings_of(alloc: Global, rest: &Rest) -> Result<Findings, Fault> {
    let entries = rest.book.journal().len();
    let (receipts, snapshots) = count_unmarked(alloc, rest, entries)?;
    if receipts != entries as u64 {
        return Err(Fault::Miscounted);
    }
    Ok(Findings {
        entries: entries as u64,
        receipts,
        snapshots,
    })
}
