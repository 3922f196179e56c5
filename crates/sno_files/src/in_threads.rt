//! Work on several files in threads.
ghost use Rattle.std.specs.Prelude.{◌≡◌, ◌<◌, ℕ, All, Some, length, slice_index_or};
ghost use Rattle.sno_files.specs.InThreads.{IsBegun, IsCalled, IsDone, IsEmptied, IsPut};

use std::alloc::{AllocError, Global};
use std::sync::atomic::{AtomicUsize, Ordering};
use std::thread;
use std::thread::Threads;

/// A path, and what a call returned for it.
#[derive(Drop)]
pub struct Place<'p, X: Drop> {
    /// The path.
    pub path: &'p str,
    /// What the call returned, once there was one.
    pub result: Option<X>,
}

/// A place for each of the paths.
pub(crate) fn places_of<'p, X: Drop>(
    alloc: Global,
    paths: &'p [String],
) -> Result<Vec<Place<'p, X>>, AllocError> {
    let mut places = Vec::with_capacity(alloc, paths.len())?;
    for path in paths {
        places.push(Place {
            path: path.as_str(),
            result: None,
        })?;
    }
    Ok(places)
}

/// What a call with the path of a place returned.
#[derive(Drop)]
pub(crate) struct Numbered<X: Drop> {
    /// The number of the place, from 0.
    number: usize,
    result: X,
}

/// Takes the results away.
fn empty<X: Drop>(places: &mut [Place<'_, X>])
    ensures len { length places.new ≡ length places.old }
    ensures each { (i : ℕ) (d : _) → i < length places.old → IsEmptied (slice_index_or places.old i d) (slice_index_or places.new i d) }
{
    for i in 0..places.len() {
        places[i].result = None;
    }
}

/// Calls `f` with the path of one place after the other that no thread took before, until all are taken. Room for a result is made
/// before a place is taken, so that none is called twice; without such room the thread stops.
fn take_turns<X: Drop, F: Fn(&str) -> X>(
    alloc: Global,
    places: &[Place<'_, X>],
    next: &AtomicUsize,
    f: &F,
) -> Vec<Numbered<X>>
    requires { (path : _) → F.pre f.now path }
    ensures { All (IsCalled F.Fn f.now places.now) result.items }
{
    let mut results = Vec::new(alloc);
    for _ in 0..places.len() {
        if results.reserve(1).is_err() {
            break;
        }
        let number = next.fetch_add(1, Ordering::Relaxed);
        if number >= places.len() {
            break;
        }
        let result = f(places[number].path);
        results.push_reserved(Numbered { number, result });
    }
    results
}

/// A list without results for each thread. There are fewer if memory runs out, and none for one thread or fewer than two places.
fn lists_for<X: Drop>(alloc: Global, threads: usize, count: usize) -> Vec<Vec<Numbered<X>>> {
    let mut lists = Vec::new(alloc);
    if threads < 2 || count < 2 {
        return lists;
    }
    for _ in 0..threads.min(count) {
        if lists.push(Vec::new(alloc)).is_err() {
            break;
        }
    }
    lists
}

/// Calls `f` with the paths of places in threads: each takes the next place when it is free. Returns a list of results for each
/// thread. Places may be left over if memory runs out or there is one thread.
fn call_in_threads<R: Threads + Sync, X: Send + Sync + Drop, F: Fn(&str) -> X + Sync>(
    rt: &R,
    alloc: Global,
    threads: usize,
    places: &[Place<'_, X>],
    f: &F,
) -> Vec<Vec<Numbered<X>>>
    requires threads { 0 < threads }
    requires accepts { (path : _) → F.pre f.now path }
    ensures { All (λ list. All (IsCalled F.Fn f.now places.now) list.items) result.items }
{
    let next = AtomicUsize::new(0);
    let shared = &next;
    let mut lists = lists_for(alloc, threads, places.len());
    let each = move |_: usize, list: &mut Vec<Numbered<X>>|
        requires { (path : _) → F.pre f.now path }
        ensures { All (IsCalled F.Fn f.entry.now places.entry.now) list.exit.now.items }
    { *list = take_turns(alloc, places, shared, f) };
    thread::for_each_mut(rt, &mut lists, threads, &each);
    lists
}

/// Keeps at a place what a call returned.
fn keep<X: Drop>(place: &mut Place<'_, X>, returned: X)
    ensures path { place.new.path ≡ place.old.path }
    ensures kept { place.new.result ≡ Some returned }
{
    place.result = Some(returned);
}

/// Puts each of the results into its place.
fn put_back<X: Drop>(places: &mut [Place<'_, X>], results: Vec<Numbered<X>>)
    ensures len { length places.new ≡ length places.old }
    ensures each { (i : ℕ) (d : _) → i < length places.old → IsPut results.items i (slice_index_or places.old i d) (slice_index_or places.new i d) }
{
    for one in results {
        if one.number < places.len() {
            keep(&mut places[one.number], one.result);
        }
    }
}

/// Calls `f` with the path of a place if it has no result, and keeps there what it returns.
fn fill<X: Drop, F: Fn(&str) -> X>(f: &F, place: &mut Place<'_, X>)
    requires { (path : _) → F.pre f.now path }
    ensures { (old : _) → IsBegun F.Fn f.now old place.old → IsDone F.Fn f.now old place.new }
{
    if place.result.is_none() {
        place.result = Some(f(place.path));
    }
}

/// Calls `f` with the path of each place that has no result, and keeps there what it returns.
fn fill_rest<X: Drop, F: Fn(&str) -> X>(f: &F, places: &mut [Place<'_, X>])
    requires { (path : _) → F.pre f.now path }
    ensures { (i : ℕ) (d : _) (old : _) → i < length places.old → IsBegun F.Fn f.now old (slice_index_or places.old i d) → IsDone F.Fn f.now old (slice_index_or places.new i d) }
{
    for i in 0..places.len() {
        fill(f, &mut places[i]);
    }
}

/// Calls `f` with the path of each place, in at most `threads` threads, and keeps there what it returns. How many threads there
/// are makes no difference to what is known of a result: it is what one call with the path of its place returned.
pub fn side_by_side<R: Threads + Sync, X: Send + Sync + Drop, F: Fn(&str) -> X + Sync>(
    rt: &R,
    alloc: Global,
    threads: usize,
    places: &mut [Place<'_, X>],
    f: &F,
)
    requires threads { 0 < threads }
    requires accepts { (path : _) → F.pre f.now path }
    ensures { (i : ℕ) (d : _) → i < length places.old → IsDone F.Fn f.now (slice_index_or places.old i d) (slice_index_or places.new i d) }
{
    empty(places);
    for results in call_in_threads(rt, alloc, threads, places, f) {
        put_back(places, results);
    }
    fill_rest(f, places);
}
