//! All that a gate is asked and passed of one submit, in order, with the entries of another seat in between.
ghost use Rattle.std.specs.Prelude.{◌≡◌, [], IfOk};

use crate::compare::check_eq;
use crate::desks::{Work, at_desk};
use crate::jobs::{Row, book, of_row, statement};
use crate::submit_replies::line_of;
use sno_book::Book;
use sno_desk::{Desk, Gate, Naming, OpenGate, Reply, Seat};
use sno_statement::Statement;
use std::alloc::Global;
use std::cell::RefCell;
use std::process::Abort;
use std::sync::{Arc, Wait};
use std::test::Fail;

/// What comes to pass at the gate.
#[derive(Clone, Copy, Debug, PartialEq, Eq)]
enum Event {
    /// It is asked for this attempt of the statement with this number.
    Asked(u32, u32),
    /// The entry of the other seat has this index.
    Entry(usize),
    /// It is passed whether the statement with this number was accepted.
    Done(u32, bool),
}

/// At which attempts a gate lets another seat overtake, and where it is shut.
#[derive(Clone, Copy)]
struct Plan {
    /// How many attempts are overtaken, from the first on.
    overtaken: u32,
    /// The attempt at which the gate is shut; 0 if it is never shut.
    shut_at: u32,
}

/// A gate at which another seat submits a statement, by this plan. It writes down each event.
#[derive(Drop)]
struct Overtaking<'a, L: Naming> {
    desk: &'a Desk<L>,
    alloc: Global,
    other: RefCell<&'a mut Seat<L>>,
    job: &'a Arc<Statement>,
    plan: Plan,
    events: RefCell<Vec<Event>>,
}

impl<L: Naming> Overtaking<'_, L> {
    /// Writes the event down.
    fn note(&self, event: Event) -> bool {
        match self.events.try_borrow_mut() {
            Ok(mut events) => events.push(event).is_ok(),
            Err(_) => false,
        }
    }

    /// The reply to the other seat's statement, which is submitted.
    fn reply<R: Wait>(&self, rt: &R) -> Option<Reply> {
        let job = Arc::try_clone(self.job).ok()?;
        let mut other = self.other.try_borrow_mut().ok()?;
        Some(
            self.desk
                .submit(rt, self.alloc, &mut **other, job, 1, &OpenGate),
        )
    }

    /// Whether the other seat's statement was accepted and its entry written down.
    fn overtake<R: Wait>(&self, rt: &R) -> bool {
        match self.reply(rt) {
            Some(Ok(receipt)) => self.note(Event::Entry(receipt.index)),
            _ => false,
        }
    }
}

impl<L: Naming> Gate for Overtaking<'_, L> {
    ghost shuts = { λ _ _ _. Unit {0} };

    fn pass<R: Wait>(&self, rt: &R, number: u32, attempt: u32) -> bool {
        let noted = self.note(Event::Asked(number, attempt));
        if attempt <= self.plan.overtaken {
            return self.overtake(rt);
        }
        noted && attempt != self.plan.shut_at
    }

    fn done<R: Wait>(&self, _rt: &R, number: u32, accepted: bool) {
        let _noted = self.note(Event::Done(number, accepted));
    }
}

/// A submit: the statement, its tries, the plan of the gate, the line of the reply, and the events at the gate.
#[derive(Clone, Copy)]
struct Submitted {
    job: Row,
    tries: u32,
    plan: Plan,
    line: &'static str,
    events: &'static [Event],
}

impl Submitted {
    /// Submits the statement, and compares the reply and the events.
    fn check<L: Naming, R: Wait + Abort>(
        &self,
        rt: &R,
        alloc: Global,
        seat: &mut Seat<L>,
        gate: &Overtaking<'_, L>,
    ) -> Result<(), Fail> {
        let valid = 1 <= self.tries && self.tries <= 1_000;
        assert!(rt; valid);
        let job = of_row(rt, alloc, &self.job)?;
        let reply = gate.desk.submit(rt, alloc, seat, job, self.tries, gate);
        check_eq(rt, &line_of(alloc, &reply)?.as_str(), &self.line);
        let events = gate.events.try_borrow().ok().ok_or("in use")?;
        check_eq(rt, &events.as_slice(), &self.events);
        Ok(())
    }
}

impl Work for Submitted {
    fn work<L: Naming, R: Wait + Abort>(
        &self,
        rt: &R,
        alloc: Global,
        desk: &Desk<L>,
        seats: &mut [Seat<L>],
    ) -> Result<(), Fail> {
        assert!(rt; seats.len() == 2);
        let (first, second) = seats.split_at_mut(1);
        let job = statement(rt, alloc, 2, "T", "''", "'z'")?;
        let gate = Overtaking {
            desk,
            alloc,
            other: RefCell::new(&mut second[0]),
            job: &job,
            plan: self.plan,
            events: RefCell::new(Vec::new(alloc)),
        };
        self.check(rt, alloc, &mut first[0], &gate)
    }
}

/// A statement on the text T, and one on L that would make it too long.
const SHORT: Row = (1, "T", "LEN(1)", Some("'x'"));

const LONG: Row = (1, "L", "LEN(1)", Some("'xy'"));

static SUBMITTED: [Submitted; 6] = [
    // Shut at the third attempt.
    Submitted {
        job: SHORT,
        tries: 4,
        plan: Plan {
            overtaken: 2,
            shut_at: 3,
        },
        line: "gate shut",
        events: &[
            Event::Asked(1, 1),
            Event::Entry(0),
            Event::Asked(1, 2),
            Event::Entry(1),
            Event::Asked(1, 3),
            Event::Done(1, false),
        ],
    },
    // Accepted at the third attempt.
    Submitted {
        job: SHORT,
        tries: 4,
        plan: Plan {
            overtaken: 2,
            shut_at: 0,
        },
        line: "2",
        events: &[
            Event::Asked(1, 1),
            Event::Entry(0),
            Event::Asked(1, 2),
            Event::Entry(1),
            Event::Asked(1, 3),
            Event::Done(1, true),
        ],
    },
    // Overtaken at both tries.
    Submitted {
        job: SHORT,
        tries: 2,
        plan: Plan {
            overtaken: 2,
            shut_at: 3,
        },
        line: "tries spent at version 2, seen 1",
        events: &[
            Event::Asked(1, 1),
            Event::Entry(0),
            Event::Asked(1, 2),
            Event::Entry(1),
            Event::Done(1, false),
        ],
    },
    // The gate is asked before the match.
    Submitted {
        job: LONG,
        tries: 4,
        plan: Plan {
            overtaken: 0,
            shut_at: 1,
        },
        line: "gate shut",
        events: &[Event::Asked(1, 1), Event::Done(1, false)],
    },
    Submitted {
        job: LONG,
        tries: 4,
        plan: Plan {
            overtaken: 0,
            shut_at: 0,
        },
        line: "text too long",
        events: &[Event::Asked(1, 1), Event::Done(1, false)],
    },
    // The gate is asked after the snapshot.
    Submitted {
        job: (1, "U", "LEN(1)", None),
        tries: 4,
        plan: Plan {
            overtaken: 0,
            shut_at: 1,
        },
        line: "no text",
        events: &[Event::Done(1, false)],
    },
];

/// A book with a text of one letter, and with one that is as long as a text may be.
fn open(alloc: Global) -> Result<Book, Fail>
    ensures { IfOk result (λ b. b.journal ≡ []) }
{
    let long = vec![in alloc; b'a'; 65_536]?;
    book(alloc, &[("T", b"a"), ("L", long.as_slice())], 1_000_000)
}

#[test]
fn each_event_at_a_gate(rt: HostRuntime) -> Result<(), Fail> {
    for submitted in &SUBMITTED {
        at_desk(&rt, rt.alloc(), open(rt.alloc())?, 2, submitted)?;
    }
    Ok(())
}
