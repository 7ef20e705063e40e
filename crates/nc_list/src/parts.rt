//! The parts of a row.

ghost use Rattle.std.specs.Prelude.{◌≡◌, ◌≢◌, ◌+◌, ◌-◌, ◌<◌, ◌≤◌, ◌^◌, [], ◌++◌, ℕ, List, length, map, take, drop, slice_index_or, false, IfOk, IfSome, IsNone, IsTrue, OnOk, OnErr};
ghost use Rattle.nc_list.specs.Chunks.{IsAscending, IsAboveAll, AreTaken, freed};
ghost use Rattle.nc_list.specs.Stamps.{AreSince};
ghost use Rattle.nc_list.specs.Parts.{IsPartFor, BeginAbove, HaveSome, OthersHaveSome, AreTakenFrom, all_of, starts_of};

use crate::entry::Entry;
use crate::part::Part;
use std::alloc::AllocError;

/// The part for a place, by binary search.
fn part_for<T: Part>(parts: &[T], at: u32) -> usize
    requires some { 0 < length parts.now }
    requires have { HaveSome (map T.items parts.now) }
    requires ascending { IsAscending 0 (all_of (map T.items parts.now)) }
    ensures { IsPartFor (map T.items parts.now) result at }
{
    let mut low = 0;
    let mut high = parts.len();
    while 1 < high - low {
        let middle = low + (high - low) / 2;
        if parts[middle].first() <= at {
            low = middle;
        } else {
            high = middle;
        }
    }
    low
}

/// The parts before this one end at or below a place.
fn end_below<T: Part>(parts: &[T], at: u32, k: usize) -> bool
    requires inside { k < length parts.now }
    requires have { HaveSome (map T.items parts.now) }
    requires ascending { IsAscending 0 (all_of (map T.items parts.now)) }
    ensures { IsTrue result → IsAboveAll at (all_of (take k (map T.items parts.now))) }
{
    k == 0 || parts[k].first() <= at
}

/// The parts behind this one begin above a place.
fn begin_above<T: Part>(parts: &[T], at: u32, k: usize) -> bool
    requires inside { k < length parts.now }
    requires have { HaveSome (map T.items parts.now) }
    requires ascending { IsAscending 0 (all_of (map T.items parts.now)) }
    ensures { IsTrue result → BeginAbove at (all_of (drop (k + 1) (map T.items parts.now))) }
{
    k + 1 == parts.len() || at < parts[k + 1].first()
}

/// The part for a place, without a search if it is the one at the guess.
pub(crate) fn part_near<T: Part>(parts: &[T], at: u32, guess: usize) -> usize
    requires some { 0 < length parts.now }
    requires have { HaveSome (map T.items parts.now) }
    requires ascending { IsAscending 0 (all_of (map T.items parts.now)) }
    ensures { IsPartFor (map T.items parts.now) result at }
{
    if guess < parts.len() && end_below(parts, at, guess) && begin_above(parts, at, guess) {
        guess
    } else {
        part_for(parts, at)
    }
}

/// A lower bound of the stamps.
pub(crate) fn oldest_of<T: Part>(parts: &[T]) -> u64
    ensures { AreSince result (all_of (map T.items parts.now)) }
{
    let mut low = u64::MAX;
    for k in 0..parts.len() {
        low = low.min(parts[k].oldest());
    }
    low
}

/// A lower bound of the stamps, by the bounds of the parts if `anew`, or else the one that is known.
pub(crate) fn raised<T: Part>(parts: &[T], oldest: u64, anew: bool) -> u64
    requires { AreSince oldest (all_of (map T.items parts.now)) }
    ensures { AreSince result (all_of (map T.items parts.now)) }
{
    if anew { oldest_of(parts) } else { oldest }
}

/// Makes the first part, which has no chunk, and returns its index.
fn make_first<T: Part>(parts: &mut Vec<T>, starts: &mut Vec<u32>) -> Result<usize, AllocError>
    requires none { (parts.old.items ≡ []) × (starts.old.items ≡ []) }
    ensures all { all_of (map T.items parts.new.items) ≡ [] }
    ensures starts { starts.new.items ≡ starts_of 0 (map T.items parts.new.items) }
    ensures have { HaveSome (map T.items parts.new.items) }
    ensures part { IfOk result (λ k. (at : ℕ) → IsPartFor (map T.items parts.new.items) k at) }
{
    starts.reserve(1)?;
    let part = T::new(*parts.allocator());
    if parts.push(part).is_err() {
        return Err(AllocError);
    }
    starts.push_reserved(0);
    Ok(0)
}

/// Splits a part if it is full, and returns whether it did.
pub(crate) fn split_part<T: Part>(
    parts: &mut Vec<T>,
    starts: &mut Vec<u32>,
    k: usize,
    base: u32,
) -> Result<bool, AllocError>
    requires inside { k < length parts.old.items }
    requires few { length (all_of (map T.items parts.old.items)) < 2 ^ 32 - 1 }
    requires starts { starts.old.items ≡ starts_of 0 (map T.items parts.old.items) }
    requires have { HaveSome (map T.items parts.old.items) }
    ensures all { all_of (map T.items parts.new.items) ≡ all_of (map T.items parts.old.items) }
    ensures starts { starts.new.items ≡ starts_of 0 (map T.items parts.new.items) }
    ensures have { HaveSome (map T.items parts.new.items) }
    ensures some { length parts.old.items ≤ length parts.new.items }
    ensures stay { IfOk result (λ did. did ≡ false → map T.items parts.new.items ≡ map T.items parts.old.items) }
{
    parts.reserve(1)?;
    starts.reserve(1)?;
    let Some(upper) = parts[k].split(base)? else {
        return Ok(false);
    };
    let start = starts[k] + parts[k].len() as u32;
    // There is room, so neither can fail.
    let _ = parts.insert(k + 1, upper);
    let _ = starts.insert(k + 1, start);
    Ok(true)
}

/// The part for a new chunk, which isn't full. It is made if there is none.
pub(crate) fn part_for_new<T: Part>(
    parts: &mut Vec<T>,
    starts: &mut Vec<u32>,
    base: u32,
    guess: usize,
) -> Result<usize, AllocError>
    requires few { length (all_of (map T.items parts.old.items)) < 2 ^ 32 - 1 }
    requires starts { starts.old.items ≡ starts_of 0 (map T.items parts.old.items) }
    requires have { HaveSome (map T.items parts.old.items) }
    requires ascending { IsAscending 0 (all_of (map T.items parts.old.items)) }
    ensures all { all_of (map T.items parts.new.items) ≡ all_of (map T.items parts.old.items) }
    ensures starts { starts.new.items ≡ starts_of 0 (map T.items parts.new.items) }
    ensures have { HaveSome (map T.items parts.new.items) }
    ensures part { IfOk result (λ k. IsPartFor (map T.items parts.new.items) k base) }
{
    if parts.is_empty() {
        return make_first(parts, starts);
    }
    let k = part_near(parts, base, guess);
    if !split_part(parts, starts, k, base)? {
        return Ok(k);
    }
    Ok(part_near(parts, base, k + 1))
}

/// Removes a part that has no chunk, unless it is the only one.
fn remove_empty<T: Part>(parts: &mut Vec<T>, starts: &mut Vec<u32>, k: usize)
    requires inside { k < length parts.old.items }
    requires starts { starts.old.items ≡ starts_of 0 (map T.items parts.old.items) }
    requires have { OthersHaveSome (map T.items parts.old.items) k }
    ensures all { all_of (map T.items parts.new.items) ≡ all_of (map T.items parts.old.items) }
    ensures starts { starts.new.items ≡ starts_of 0 (map T.items parts.new.items) }
    ensures have { HaveSome (map T.items parts.new.items) }
    ensures some { 0 < length parts.new.items }
{
    if parts.len() == 1 {
        return;
    }
    if parts[k].len() != 0 {
        return;
    }
    parts.remove(k);
    starts.remove(k);
}

/// Moves the chunks of the part behind this one here, if there is one and it lets them go.
fn join_next<T: Part>(parts: &mut Vec<T>, starts: &mut Vec<u32>, k: usize)
    requires some { 0 < length parts.old.items }
    requires starts { starts.old.items ≡ starts_of 0 (map T.items parts.old.items) }
    requires have { HaveSome (map T.items parts.old.items) }
    ensures all { all_of (map T.items parts.new.items) ≡ all_of (map T.items parts.old.items) }
    ensures starts { starts.new.items ≡ starts_of 0 (map T.items parts.new.items) }
    ensures have { HaveSome (map T.items parts.new.items) }
    ensures some { 0 < length parts.new.items }
{
    if parts.len() - 1 <= k {
        return;
    }
    let (here, behind) = parts.split_at_mut(k + 1);
    if here[k].join(&mut behind[0]) {
        parts.remove(k + 1);
        starts.remove(k + 1);
    }
}

/// Removes this part if it has no chunk and isn't the only one, and joins it or the parts beside it where they are small.
pub(crate) fn close_up<T: Part>(parts: &mut Vec<T>, starts: &mut Vec<u32>, k: usize)
    requires inside { k < length parts.old.items }
    requires starts { starts.old.items ≡ starts_of 0 (map T.items parts.old.items) }
    requires have { OthersHaveSome (map T.items parts.old.items) k }
    ensures all { all_of (map T.items parts.new.items) ≡ all_of (map T.items parts.old.items) }
    ensures starts { starts.new.items ≡ starts_of 0 (map T.items parts.new.items) }
    ensures have { HaveSome (map T.items parts.new.items) }
    ensures some { 0 < length parts.new.items }
{
    if parts.len() == 1 {
        return;
    }
    remove_empty(parts, starts, k);
    join_next(parts, starts, k);
    if 0 < k {
        join_next(parts, starts, k - 1);
    }
}

/// The chunks that were taken out of one part.
#[derive(Clone, Copy, Drop)]
pub(crate) struct Taken {
    /// The index of the part.
    pub(crate) part: usize,
    /// The number of the chunks.
    pub(crate) count: usize,
}

/// Takes out the first chunks that are due, of the first part that has any, as many as there is room for.
pub(crate) fn take_one<T: Part>(parts: &mut Vec<T>, least: u64, room: &mut [Entry]) -> Option<Taken>
    requires some { 0 < length room.old }
    requires few { length room.old < 2 ^ 32 }
    requires least { least < 2 ^ 64 - 1 }
    ensures room { length room.new ≡ length room.old }
    ensures count { IfSome result (λ t. t.count ≤ length room.new) }
    ensures some { IfSome result (λ t. AreTakenFrom least (map T.items parts.old.items) (map T.items parts.new.items)
        (take t.count room.new) t.part) }
    ensures none { IsNone result → (map T.items parts.new.items ≡ map T.items parts.old.items)
        × (freed least (all_of (map T.items parts.old.items)) ≡ []) }
{
    for k in 0..parts.len() {
        if parts[k].oldest() <= least {
            let count = parts[k].take_due(least, room);
            if count != 0 {
                return Some(Taken { part: k, count });
            }
        }
    }
    None
}
