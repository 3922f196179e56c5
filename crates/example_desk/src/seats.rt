//! What the seats do, each in a thread of its own.
use crate::faults::Fault;
use crate::pauses::Pause;
use crate::statements::Edits;
use sno_desk::{CommitFault, Desk, Naming, Receipt, Seat};
use sno_statement::Statement;
use std::alloc::Global;
use std::sync::{Arc, Wait};
use std::time::Clock;

/// How many lines each of the writing seats puts on the page.
pub(crate) const LINES: u32 = 4;

/// How many times a seat tries if others are quicker. There are fewer entries than that, and each of them overtakes it
/// at most once.
const TRIES: u32 = 100;

/// Takes a snapshot, proposes and commits, and does all of it again if the text has changed in between.
fn edit<L: Naming, R: Wait>(
    rt: &R,
    alloc: Global,
    desk: &Desk<L>,
    seat: &mut Seat<L>,
    statement: &Arc<Statement>,
) -> Result<Receipt, Fault> {
    for _try in 0..TRIES {
        let proposal = seat.propose(alloc, statement)?;
        match desk.commit(rt, seat, proposal) {
            Ok(receipt) => return Ok(receipt),
            Err((CommitFault::Changed { .. }, _)) => {}
            Err((fault, _)) => return Err(Fault::Commit(fault)),
        }
    }
    Err(Fault::Overtaken)
}

/// A seat that proposes and commits on its own.
pub(crate) fn write<L: Naming, R: Wait>(
    rt: &R,
    alloc: Global,
    desk: &Desk<L>,
    seat: &mut Seat<L>,
    edits: &Edits,
) -> Result<(), Fault> {
    for _line in 0..LINES {
        let _receipt = edit(rt, alloc, desk, seat, &edits.append)?;
    }
    Ok(())
}

/// A seat that submits: the desk does all that `edit` does, and asks the gate before each match.
pub(crate) fn submit<L: Naming, R: Wait, C: Clock>(
    rt: &R,
    clock: &C,
    alloc: Global,
    desk: &Desk<L>,
    seat: &mut Seat<L>,
    edits: &Edits,
) -> Result<(), Fault> {
    let gate = Pause { clock };
    let statement = Arc::try_clone(&edits.mark)?;
    let _receipt = desk.submit(rt, alloc, seat, statement, TRIES, &gate)?;
    Ok(())
}

/// A seat that only reads. It waits for nobody, and no version that it sees is lower than an earlier one.
pub(crate) fn read<L: Naming>(seat: &mut Seat<L>, edits: &Edits) -> Result<(), Fault> {
    let mut last = 0;
    for _look in 0..TRIES {
        let version = seat.read(edits.mark.text(), |_text, version| version)?;
        if version < last {
            return Err(Fault::WentBack);
        }
        last = version;
    }
    Ok(())
}
