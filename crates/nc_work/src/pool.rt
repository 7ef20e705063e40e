//! A pool of workers, each of which takes the next place when it has finished one.

ghost use Rattle.std.specs.Prelude.{◌≡◌, ℕ, ◌<◌, [], All, None, Some, IfOk, length, vec_len, slice_index_or};
ghost use Rattle.nc_work.specs.Found.{AreDone, ArePlaces};
ghost use Rattle.nc_work.specs.Places.{AcceptsPlace, AcceptsPlaces, FitsPlace};

use std::alloc::{AllocError, Global};
use std::sync::atomic::{AtomicUsize, Ordering};
use std::thread::{Threads, for_each_mut};

/// A place, and the outcome for it.
#[derive(Drop)]
struct Done<R> {
    place: usize,
    outcome: R,
}

/// A worker: its state, and what it has found.
#[derive(Drop)]
struct Worker<S, R> {
    state: S,
    done: Vec<Done<R>>,
}

/// Workers in the same state that have found nothing yet. The list of each has room for twice an even share of the places (at most for
/// all), so the lists of the others together have room for the rest.
fn make_workers<S: Copy + Drop, R: Drop>(
    alloc: Global,
    count: usize,
    workers: usize,
    state: S,
) -> Result<Vec<Worker<S, R>>, AllocError>
    ensures { IfOk result (λ v. All (λ worker. worker.done.items ≡ []) v.items) }
{
    let workers = workers.min(count).max(1);
    let room = count.div_ceil(workers).saturating_mul(2).min(count);
    let mut made = Vec::with_capacity(alloc, workers)?;
    for _ in 0..workers {
        made.push(Worker {
            state,
            done: Vec::with_capacity(alloc, room)?,
        })?;
    }
    Ok(made)
}

/// Places without an outcome.
fn make_places<R: Drop>(alloc: Global, count: usize) -> Result<Vec<Option<R>>, AllocError>
    ensures len { IfOk result (λ v. vec_len v ≡ count) }
    ensures none { IfOk result (λ v. All (λ place. place ≡ None) v.items) }
{
    let mut places = Vec::with_capacity(alloc, count)?;
    for _ in 0..count {
        places.push(None)?;
    }
    Ok(places)
}

/// The next place for a worker: first the one with its own number, then one that nobody has taken.
fn draw(turn: usize, own: usize, next: &AtomicUsize) -> usize {
    if turn == 0 {
        own
    } else {
        next.fetch_add(1, Ordering::SeqCst)
    }
}

/// Calls `f` with a place.
fn call<S, R, F: Fn(usize, &mut S) -> Option<R>>(f: &F, place: usize, state: &mut S) -> Option<R>
    requires { AcceptsPlace F.Fn f.now place }
    ensures { FitsPlace F.Fn f.now place result }
{
    f(place, state)
}

/// Runs a worker: it calls `f` with the place of its own number, and then with the next ones that nobody has taken, until none is left or
/// its list is full.
fn work<S, R: Drop, F: Fn(usize, &mut S) -> Option<R>>(
    f: &F,
    count: usize,
    own: usize,
    next: &AtomicUsize,
    worker: &mut Worker<S, R>,
)
    requires accepts { AcceptsPlaces F.Fn f.now count }
    requires done { AreDone F.Fn f.now worker.old.done.items }
    ensures { AreDone F.Fn f.now worker.new.done.items }
{
    for turn in 0..count {
        if worker.done.len() >= worker.done.capacity() {
            break;
        }
        let place = draw(turn, own, next);
        if place >= count {
            break;
        }
        if let Some(outcome) = call(f, place, &mut worker.state) {
            worker.done.push_reserved(Done { place, outcome });
        }
    }
}

/// Runs all workers.
fn work_all<T: Threads + Sync, S: Send, R: Send + Drop, F: Fn(usize, &mut S) -> Option<R> + Sync>(
    rt: &T,
    f: &F,
    count: usize,
    workers: &mut [Worker<S, R>],
)
    requires accepts { AcceptsPlaces F.Fn f.now count }
    requires done { All (λ worker. AreDone F.Fn f.now worker.done.items) workers.old }
    ensures { All (λ worker. AreDone F.Fn f.now worker.done.items) workers.new }
{
    let threads = workers.len();
    let next = AtomicUsize::new(threads);
    for_each_mut(
        rt,
        workers,
        threads.max(1),
        &|own: usize, worker: &mut Worker<S, R>|
            requires accepts { AcceptsPlaces F.Fn f.now count }
            requires done { AreDone F.Fn f.now worker.old.done.items }
            ensures { AreDone F.Fn f.entry.now worker.new.done.items }
        { work(f, count, own, &next, worker) },
    );
}

/// Puts an outcome into its place.
fn put<S, R: Drop, F: Fn(usize, &mut S) -> Option<R>>(
    f: &F,
    done: Done<R>,
    places: &mut [Option<R>],
)
    requires done { FitsPlace F.Fn f.now done.place (Some done.outcome) }
    requires places { ArePlaces F.Fn f.now places.old }
    ensures len { length places.new ≡ length places.old }
    ensures places { ArePlaces F.Fn f.now places.new }
{
    let Done { place, outcome } = done;
    if place < places.len() {
        places[place] = Some(outcome);
    }
}

/// Puts what a worker has found into its places.
fn put_all<S, R: Drop, F: Fn(usize, &mut S) -> Option<R>>(
    f: &F,
    done: Vec<Done<R>>,
    places: &mut [Option<R>],
)
    requires done { AreDone F.Fn f.now done.items }
    requires places { ArePlaces F.Fn f.now places.old }
    ensures len { length places.new ≡ length places.old }
    ensures places { ArePlaces F.Fn f.now places.new }
{
    for one in done {
        put(f, one, places);
    }
}

/// Puts what all workers have found into its places.
fn gather<S: Drop, R: Drop, F: Fn(usize, &mut S) -> Option<R>>(
    f: &F,
    workers: Vec<Worker<S, R>>,
    places: &mut [Option<R>],
)
    requires workers { All (λ worker. AreDone F.Fn f.now worker.done.items) workers.items }
    requires places { ArePlaces F.Fn f.now places.old }
    ensures len { length places.new ≡ length places.old }
    ensures places { ArePlaces F.Fn f.now places.new }
{
    for worker in workers {
        put_all(f, worker.done, places);
    }
}

/// Calls `f` with each place below `count`, by several workers, one of which is the caller. Each worker begins with this state, which its
/// calls may change. A place has what `f` gave for it, or nothing: where `f` gave nothing, and where it wasn't called, which may
/// happen if a worker can't be started.
pub fn for_places<
    T: Threads + Sync,
    S: Copy + Send + Drop,
    R: Send + Drop,
    F: Fn(usize, &mut S) -> Option<R> + Sync,
>(
    rt: &T,
    alloc: Global,
    count: usize,
    workers: usize,
    state: S,
    f: &F,
) -> Result<Vec<Option<R>>, AllocError>
    requires { AcceptsPlaces F.Fn f.now count }
    ensures len { IfOk result (λ places. vec_len places ≡ count) }
    ensures each { IfOk result (λ places. (k : ℕ) → FitsPlace F.Fn f.now k (slice_index_or places.items k None)) }
{
    let mut made = make_workers(alloc, count, workers, state)?;
    let mut places = make_places(alloc, count)?;
    work_all(rt, f, count, &mut made);
    gather(f, made, &mut places);
    Ok(places)
}
