//! A desk under load, from its opening to its close.
ghost use Rattle.std.specs.Prelude.{◌≡◌, ◌≤◌, ◌+◌, [], IfOk, length};

use crate::faults::Fault;
use crate::posts::{Post, Record, Shared, Shift};
use crate::texts::{TEXTS, book_of, jobs_of, names_of};
use crate::words::Load;
use sno_book::{Book, Entry, Receipt};
use sno_desk::{Blank, Desk, Naming, Seat, close, may_cross};
use sno_statement::Statement;
use std::alloc::Global;
use std::marker::Brand;
use std::sync::Wait;
use std::sync::atomic::AtomicU64;
use std::thread;
use std::thread::Threads;
use std::time::{Clock, Duration, Instant};

/// What a load leaves: the book, what was done at each seat, and how long that took.
#[derive(Drop)]
pub struct Rest {
    pub book: Book,
    pub records: Vec<Record>,
    pub took: Duration,
}

/// The time that the clock shows.
pub(crate) fn now<C: Clock>(clock: &C) -> Result<Instant, Fault> {
    Instant::now(clock).map_err(|_| Fault::Clock)
}

/// Lets all posts work, each in a thread of its own.
fn work_all<L: Naming + Send + Sync, R: Threads + Wait + Sync>(
    rt: &R,
    alloc: Global,
    desk: &Desk<L>,
    posts: &mut [Post<L>],
    shared: &Shared,
)
    requires some { 1 ≤ length posts.old }
    ensures { length posts.new ≡ length posts.old }
{
    may_cross::<Entry>();
    may_cross::<Statement>();
    may_cross::<Receipt>();
    let threads = posts.len();
    let worker = |place: usize, post: &mut Post<L>| {
        let shift = Shift { desk, shared };
        shift.work(rt, alloc, place, post);
    };
    thread::for_each_mut(rt, posts, threads, &worker);
}

/// A post at each seat.
fn posts_at<L: Naming>(alloc: Global, seats: Vec<Seat<L>>) -> Result<Vec<Post<L>>, Fault>
    ensures { IfOk result (λ posts. length posts.items ≡ length seats.items) }
{
    let mut posts = Vec::with_capacity(alloc, seats.len())?;
    for seat in seats {
        posts.push(Post::new(alloc, seat))?;
    }
    Ok(posts)
}

/// What was done at each post.
fn take_records<L: Naming>(alloc: Global, posts: &mut [Post<L>]) -> Result<Vec<Record>, Fault>
    ensures { length posts.new ≡ length posts.old }
{
    let mut records = Vec::with_capacity(alloc, posts.len())?;
    for post in posts.iter_mut() {
        records.push(post.take_record(alloc))?;
    }
    Ok(records)
}

/// The seats of the posts.
fn seats_of<L: Naming>(alloc: Global, posts: Vec<Post<L>>) -> Result<Vec<Seat<L>>, Fault>
    ensures { IfOk result (λ seats. length seats.items ≡ length posts.items) }
{
    let mut seats = Vec::with_capacity(alloc, posts.len())?;
    for post in posts {
        seats.push(post.into_seat())?;
    }
    Ok(seats)
}

/// What the posts of this load share.
fn shared_of(alloc: Global, load: Load) -> Result<Shared, Fault> {
    let jobs = jobs_of(alloc, load)?;
    Ok(Shared {
        jobs,
        names: names_of(alloc, TEXTS)?,
        load,
        writers: AtomicU64::new(load.writers as u64),
    })
}

/// How long all posts were at work.
fn time_work<L: Naming + Send + Sync, R: Threads + Wait + Clock + Sync>(
    rt: &R,
    alloc: Global,
    desk: &Desk<L>,
    posts: &mut [Post<L>],
    load: Load,
) -> Result<Duration, Fault>
    requires some { 1 ≤ length posts.old }
    ensures { length posts.new ≡ length posts.old }
{
    let shared = shared_of(alloc, load)?;
    let begun = now(rt)?;
    work_all(rt, alloc, desk, posts, &shared);
    Ok(now(rt)?.duration_since(begun))
}

/// What is left of a load at its seats.
#[derive(Drop)]
struct Spent<L: Naming> {
    seats: Vec<Seat<L>>,
    records: Vec<Record>,
    took: Duration,
}

/// Runs the load at its seats. If it is refused, the seats are lost.
fn spend<L: Naming + Send + Sync, R: Threads + Wait + Clock + Sync>(
    rt: &R,
    alloc: Global,
    desk: &Desk<L>,
    seats: Vec<Seat<L>>,
    load: Load,
) -> Result<Spent<L>, Fault>
    requires { 1 ≤ length seats.items }
    ensures { IfOk result (λ spent. length spent.seats.items ≡ length seats.items) }
{
    let mut posts = posts_at(alloc, seats)?;
    let took = time_work(rt, alloc, desk, posts.as_mut_slice(), load)?;
    let records = take_records(alloc, posts.as_mut_slice())?;
    Ok(Spent {
        seats: seats_of(alloc, posts)?,
        records,
        took,
    })
}

/// What a load leaves, after the close of its desk.
fn close_after<L: Naming, R: Wait>(rt: &R, desk: Desk<L>, spent: Spent<L>) -> Result<Rest, Fault>
    requires { length spent.seats.items ≡ L.parts }
{
    let Spent {
        seats,
        records,
        took,
    } = spent;
    match close(rt, desk, seats) {
        Ok(book) => Ok(Rest {
            book,
            records,
            took,
        }),
        Err(_) => Err(Fault::Close),
    }
}

/// Runs the load at the seats of a desk, and closes the desk.
fn work_at<L: Naming + Send + Sync, R: Threads + Wait + Clock + Sync>(
    rt: &R,
    alloc: Global,
    desk: Desk<L>,
    seats: Vec<Seat<L>>,
    load: Load,
) -> Result<Rest, Fault>
    requires some { 1 ≤ length seats.items }
    requires all { length seats.items ≡ L.parts }
{
    match spend(rt, alloc, &desk, seats, load) {
        Ok(spent) => close_after(rt, desk, spent),
        Err(fault) => {
            desk.end(rt);
            Err(fault)
        }
    }
}

/// Puts a desk over the book, with as many seats as the load needs, under load.
fn run<L: Naming + Send + Sync, R: Threads + Wait + Clock + Sync>(
    rt: &R,
    alloc: Global,
    blank: Blank,
    book: Book,
    load: Load,
) -> Result<Rest, Fault>
    requires name { (blank.ledger.name ≡ L.name) × (blank.ledger.parts ≡ L.parts) }
    requires histories { (blank.history ≡ record { history = L.book; entries = [] }) × (blank.attempts.history ≡ L.tries) }
    requires opening { book.opening ≡ L.opening }
    requires one_each { blank.ledger.parts ≡ load.writers + load.readers }
    requires empty { book.journal ≡ [] }
{
    let count = load.writers + load.readers;
    let (desk, seats) = Desk::<L>::new(rt, alloc, blank, book, count).map_err(|_| Fault::NoDesk)?;
    work_at(rt, alloc, desk, seats, load)
}

/// Puts a new desk under load.
pub(crate) fn run_load<R: Threads + Wait + Clock + Sync>(
    rt: &R,
    alloc: Global,
    load: Load,
) -> Result<Rest, Fault> {
    let book = book_of(alloc, TEXTS)?;
    let blank = Blank::new((load.writers + load.readers) as u64);
    run::<Brand, R>(rt, alloc, blank, book, load)
}
