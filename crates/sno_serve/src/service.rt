//! Seats that take lines until there are no more.
ghost use Rattle.std.specs.Prelude.{◌≡◌, ◌≤◌, ◌⊎◌, ℕ, [], IfErr, IfOk, map};
ghost use Rattle.std.specs.List.Sorted.{IsNonDecreasingBy};
ghost use mathlib.Core.List.{IsPrefix as Begins};
ghost use Rattle.sno_book.specs.Books.{view_of};
ghost use Rattle.sno_book.specs.Views.{IsValid};
ghost use Rattle.sno_statement.specs.Statement.{IsLimit};
ghost use Rattle.sno_document.specs.Reads.{IsReady};
ghost use Rattle.std.specs.Arc.{arc_value};
ghost use Rattle.sno_desk.specs.declared.desk.TheConstants.{MAX_SEATS, MAX_TRIES};
ghost use Rattle.sno_desk.specs.Turns.{position};
ghost use Rattle.sno_desk.specs.Worked.{HasWorkedAt};
ghost use Rattle.sno_serve.specs.Asked.{asked_in, within};
ghost use Rattle.sno_serve.specs.Accepted.{HasServed, IsGiven};
ghost use Rattle.sno_serve.specs.declared.faults.ServeFault.TheVariants.{Desk as Failed, Memory};

use crate::at_seat::{refusal_in, submit};
use crate::intake::{Intake, Next};
use crate::outlet::Outlet;
use crate::replies::too_long_reply;
use crate::reply_lines::{line_of, line_with};
use crate::{Asked, Line, Replied, ServeFault, line_in, reply_to};
use sno_book::Book;
use sno_desk::{AtDeskFault, Desk, DeskWork, Naming, Seat, at_desk, may_cross};
use sno_document::{Document, Mode, Rules};
use sno_listing::Refusal;
use sno_statement::Statement;
use std::alloc::{AllocError, Global};
use std::io::{Read, Write};
use std::sync::{Arc, Mutex, Wait};
use std::thread::Threads;

/// What all seats share.
#[derive(Drop)]
struct Service<I: Read, W: Write> {
    rules: Arc<Rules>,
    statements: Vec<Arc<Statement>>,
    mode: Mode,
    tries: u32,
    numbers: Mutex<u32>,
    intake: Mutex<Intake<I>>,
    outlet: Mutex<Outlet<W>>,
    ghost limit: { IsLimit mode.trials },
    ghost valid: { (1 ≤ tries) × (tries ≤ MAX_TRIES) },
}

/// What a service leaves.
#[derive(Drop)]
pub struct Served {
    /// The book, whose journal has the entries that were accepted.
    pub book: Book,
    /// What the listing has of refused statements, by rising number.
    pub refused: Vec<Refusal>,
    /// What ended the service before the end of the input, if anything did.
    pub fault: Option<ServeFault>,
}

impl<I: Read + Drop, W: Write + Drop> Service<I, W> {
    fn fail<R: Wait>(&self, rt: &R, fault: ServeFault) {
        self.outlet.lock(rt).fail(fault);
    }

    /// Performs the statements of the document.
    #[tactic(auto, using(crate::proofs::Accepting::served_on, crate::proofs::Accepting::served_self))]
    fn begin<L: Naming, R: Wait>(
        &self,
        rt: &R,
        alloc: Global,
        desk: &Desk<L>,
        seat: &mut Seat<L>,
    ) -> Result<(), AllocError>
        ensures served { HasServed (IsGiven (arc_value self.now.rules) (map arc_value self.now.statements.items) self.now.mode) (position seat.old.accepted seat.old.seen) (position seat.new.accepted seat.new.seen) }
    {
        for statement in &self.statements {
            let number = statement.number();
            let shared = Arc::try_clone(statement)?;
            let reply = submit(rt, alloc, desk, seat, shared, self.tries);
            self.outlet.lock(rt).refuse(refusal_in(number, &reply));
        }
        Ok(())
    }

    /// The next line at the door. The first seat that asks for one performs the statements of the document before it.
    #[tactic(auto, using(crate::proofs::Accepting::served_on, crate::proofs::Accepting::served_self))]
    fn next_at<L: Naming, R: Wait>(
        &self,
        rt: &R,
        alloc: Global,
        desk: &Desk<L>,
        seat: &mut Seat<L>,
        intake: &mut Intake<I>,
    ) -> Result<Next, ServeFault>
        ensures served { HasServed (IsGiven (arc_value self.now.rules) (map arc_value self.now.statements.items) self.now.mode) (position seat.old.accepted seat.old.seen) (position seat.new.accepted seat.new.seen) }
    {
        if !intake.is_begun {
            intake.is_begun = true;
            self.begin(rt, alloc, desk, seat)?;
        }
        if !self.outlet.lock(rt).is_open() {
            intake.end();
        }
        let next = intake.next(alloc)?;
        Ok(next)
    }

    /// The next line. A fault ends the service before another seat comes to the door, since the desk may be half begun.
    #[tactic(auto, using(crate::proofs::Accepting::served_on, crate::proofs::Accepting::served_self))]
    fn next<L: Naming, R: Wait>(
        &self,
        rt: &R,
        alloc: Global,
        desk: &Desk<L>,
        seat: &mut Seat<L>,
    ) -> Next
        ensures served { HasServed (IsGiven (arc_value self.now.rules) (map arc_value self.now.statements.items) self.now.mode) (position seat.old.accepted seat.old.seen) (position seat.new.accepted seat.new.seen) }
    {
        let mut intake = self.intake.lock(rt);
        match self.next_at(rt, alloc, desk, seat, &mut intake) {
            Ok(next) => next,
            Err(fault) => {
                self.fail(rt, fault);
                Next::End
            }
        }
    }

    /// What a line asks for, with no more trials than the service lets a match take. A statement takes the next number.
    fn read<R: Wait>(&self, rt: &R, alloc: Global, line: &[u8]) -> Result<Line, AllocError>
        ensures { IfOk result (λ l. (number : ℕ) × (l.asked ≡ within self.now.mode.trials (asked_in (arc_value self.now.rules) self.now.mode number line.now))) }
    {
        let mut number = self.numbers.lock(rt);
        let mut line = line_in(alloc, &self.rules, self.mode, *number, line)?;
        line.keep_within(self.mode.trials);
        if matches!(&line.asked, Asked::Perform(_) | Asked::PerformAt(_, _)) {
            *number = (*number).saturating_add(1);
        }
        Ok(line)
    }

    /// Writes the reply to a line.
    #[tactic(auto, using(crate::proofs::Accepting::served_on, crate::proofs::Accepting::served_self))]
    fn reply<L: Naming, R: Wait>(
        &self,
        rt: &R,
        alloc: Global,
        desk: &Desk<L>,
        seat: &mut Seat<L>,
        line: &[u8],
    ) -> Result<(), AllocError>
        ensures served { HasServed (IsGiven (arc_value self.now.rules) (map arc_value self.now.statements.items) self.now.mode) (position seat.old.accepted seat.old.seen) (position seat.new.accepted seat.new.seen) }
    {
        let mut line = self.read(rt, alloc, line)?;
        let ignored = line.take_ignored(alloc);
        let Replied { reply, refused } = reply_to(rt, alloc, desk, seat, line, self.tries)?;
        let bytes = line_with(alloc, reply, ignored)?;
        let mut outlet = self.outlet.lock(rt);
        outlet.refuse(refused);
        outlet.put(&bytes);
        Ok(())
    }

    /// Writes the reply to a line that is too long.
    fn refuse_line<R: Wait>(&self, rt: &R, alloc: Global) -> Result<(), AllocError> {
        let reply = too_long_reply(alloc)?;
        let bytes = line_of(alloc, &reply)?;
        self.outlet.lock(rt).put(&bytes);
        Ok(())
    }

    /// Takes one line and replies to it. Returns whether there may be more.
    #[tactic(auto, using(crate::proofs::Accepting::served_on, crate::proofs::Accepting::served_self))]
    fn step<L: Naming, R: Wait>(
        &self,
        rt: &R,
        alloc: Global,
        desk: &Desk<L>,
        seat: &mut Seat<L>,
    ) -> Result<bool, ServeFault>
        ensures served { HasServed (IsGiven (arc_value self.now.rules) (map arc_value self.now.statements.items) self.now.mode) (position seat.old.accepted seat.old.seen) (position seat.new.accepted seat.new.seen) }
    {
        match self.next(rt, alloc, desk, seat) {
            Next::End => Ok(false),
            Next::TooLong => {
                self.refuse_line(rt, alloc)?;
                Ok(true)
            }
            Next::Line(line) => {
                self.reply(rt, alloc, desk, seat, &line)?;
                Ok(true)
            }
        }
    }
}

impl<I: Read + Drop, W: Write + Drop> DeskWork for Service<I, W> {
    ghost takes = { λ s before after. HasServed (IsGiven (arc_value s.rules) (map arc_value s.statements.items) s.mode) before after };

    #[tactic(auto, using(crate::proofs::Accepting::served_on, crate::proofs::Accepting::served_self))]
    fn work<L: Naming, R: Wait>(
        &self,
        rt: &R,
        alloc: Global,
        desk: &Desk<L>,
        seat: &mut Seat<L>,
        _number: usize,
    ) {
        for _turn in 0..u64::MAX {
            match self.step(rt, alloc, desk, seat) {
                Ok(true) => {}
                Ok(false) => return,
                Err(fault) => {
                    self.fail(rt, fault);
                    return;
                }
            }
        }
    }
}

/// How a document is served.
#[derive(Clone, Copy)]
pub struct Terms {
    /// Whether matches are anchored if a statement doesn't say so, and how many trials each may take. A line may ask for fewer, and
    /// is refused if it asks for more.
    pub mode: Mode,
    /// How many seats take lines, 1 to 16.
    pub seats: usize,
    /// How often a seat may try a statement, 1 to 1,000.
    pub tries: u32,
    /// Whether there will be a listing. Without one nothing is kept of refused statements.
    pub lists: bool,
}

/// Serves a document: performs its statements, then replies to each line of the reader by a line of the writer, until there
/// are no more. From 1 to 16 seats take lines as they come, each in a thread of its own. A statement takes the number after
/// that of the one read before it, counted on from the document's.
///
/// On `Ok` the book has the document's opening, and its journal is legal. It begins with what each seat has seen, and has as
/// many entries as the seats have accepted. Each seat has accepted its entries one after the other, and each of these is of
/// a statement of the document or of one that a line asks for. The refused statements come by rising number. If a reply could
/// not be written, a line not be read, or memory ran out, the service ended there, and `fault` says so.
///
/// Refused: `Memory`; `Desk` if there is no place for the seats, or the desk could not be closed, which no legal run meets.
pub fn serve<I: Read + Send + Drop, W: Write + Send + Drop, R: Threads + Wait + Sync>(
    rt: &R,
    alloc: Global,
    document: Document,
    terms: Terms,
    reader: I,
    writer: W,
) -> Result<Served, ServeFault>
    requires limit { IsLimit terms.mode.trials }
    requires few { (1 ≤ terms.seats) × (terms.seats ≤ MAX_SEATS) }
    requires valid { (1 ≤ terms.tries) × (terms.tries ≤ MAX_TRIES) }
    requires ready { IsReady document }
    ensures opening { IfOk result (λ s. s.book.opening ≡ document.book.opening) }
    ensures valid { IfOk result (λ s. IsValid (view_of s.book)) }
    ensures worked { IfOk result (λ s. HasWorkedAt (λ before after. Begins before.seen after.seen) terms.seats s.book.journal) }
    ensures given { IfOk result (λ s. HasWorkedAt (HasServed (IsGiven (arc_value document.rules) (map arc_value document.statements.items) terms.mode)) terms.seats s.book.journal) }
    ensures rising { IfOk result (λ s. IsNonDecreasingBy (λ r. r.number) s.refused.items) }
    ensures refused { IfErr result (λ e. (e ≡ Memory) ⊎ (e ≡ Failed)) }
{
    let Document {
        rules,
        book,
        statements,
    } = document;
    // for the proof
    may_cross::<Statement>();
    may_cross::<Rules>();
    let first = statements.len() as u32 + 1;
    let service = Service {
        rules,
        statements,
        mode: terms.mode,
        tries: terms.tries,
        numbers: Mutex::new(first),
        intake: Mutex::new(Intake::new(alloc, reader)?),
        outlet: Mutex::new(Outlet::new(alloc, writer, terms.lists)),
    };
    let book = match at_desk(rt, alloc, book, terms.seats, &service) {
        Ok(book) => book,
        Err((AtDeskFault::Desk(_), _)) | Err((AtDeskFault::Close(_), _)) => {
            return Err(ServeFault::Desk);
        }
    };
    let (mut refused, fault) = service.outlet.into_inner().into_parts();
    refused.sort_by_key(|r| r.number)?;
    Ok(Served {
        book,
        refused,
        fault,
    })
}
