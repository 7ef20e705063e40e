//! A leaf of the list: chunks in one piece of memory.

ghost use Rattle.std.specs.Prelude.{◌≡◌, ◌+◌, ◌-◌, ◌<◌, ◌≤◌, ◌^◌, [], ◌++◌, length, take, drop, IsTrue, IfOk};
ghost use Rattle.nc_list.specs.Chunks.{IsAscending, AreTaken, freed};
ghost use Rattle.nc_list.specs.Stamps.{AreSince, BeginsAt};
ghost use Rattle.nc_list.specs.Parts.{BeginTo, BeginAbove};

use crate::chunk::Chunk;
use crate::entry::Entry;
use crate::list::Place;
use crate::part::Part;
use std::alloc::{AllocError, Global};
use std::marker::Model;

/// The number of chunks at which a leaf is full.
const FULL: usize = 64;

/// The number of chunks up to which two leaves become one.
const SMALL: usize = 48;

/// Up to `FULL` consecutive chunks of the list.
#[derive(Drop)]
pub(crate) struct Leaf {
    entries: Vec<Entry>,
    /// The base of the first chunk, if there is one.
    first: u32,
    /// No chunk is retired with a lower stamp.
    oldest: u64,
}

impl Model for Leaf {
    ghost use Rattle.std.specs.Prelude.{List};
    ghost use Rattle.nc_list.specs.declared.chunk.Chunk.{Chunk};
    ghost use Rattle.nc_list.specs.Stamps.{AreSince, BeginsAt};

    ghost Value = { List Chunk };

    ghost view = { λ l. l.entries.items };

    ghost invariant = { λ l. BeginsAt l.first l.entries.items × AreSince l.oldest l.entries.items };
}

/// The number of chunks whose base is at most this address, by binary search.
fn count_to(entries: &[Entry], at: u32) -> usize
    requires { IsAscending 0 entries.now }
    ensures bound { result ≤ length entries.now }
    ensures below { BeginTo at (take result entries.now) }
    ensures above { BeginAbove at (drop result entries.now) }
{
    entries.partition_point(|e| e.base() <= at)
}

/// The first `count` chunks begin at or below this address.
fn begin_to(entries: &[Entry], at: u32, count: usize) -> bool
    requires ascending { IsAscending 0 entries.now }
    requires enough { count ≤ length entries.now }
    ensures { IsTrue result → BeginTo at (take count entries.now) }
{
    count == 0 || entries[count - 1].base() <= at
}

/// The chunks behind the first `count` begin above this address.
fn begin_above(entries: &[Entry], at: u32, count: usize) -> bool
    requires ascending { IsAscending 0 entries.now }
    requires enough { count ≤ length entries.now }
    ensures { IsTrue result → BeginAbove at (drop count entries.now) }
{
    count == entries.len() || at < entries[count].base()
}

/// The number of chunks whose base is at most this address, without a search if it is the guess.
fn count_near(entries: &[Entry], at: u32, guess: usize) -> usize
    requires { IsAscending 0 entries.now }
    ensures bound { result ≤ length entries.now }
    ensures below { BeginTo at (take result entries.now) }
    ensures above { BeginAbove at (drop result entries.now) }
{
    if guess <= entries.len() && begin_to(entries, at, guess) && begin_above(entries, at, guess) {
        guess
    } else {
        count_to(entries, at)
    }
}

/// The base of the first chunk, or 0 if there is none.
fn first_base(entries: &[Entry]) -> u32
    ensures { BeginsAt result entries.now }
{
    if entries.is_empty() {
        return 0;
    }
    entries[0].base()
}

/// A lower bound of the stamps.
fn oldest_in(entries: &[Entry]) -> u64
    ensures { AreSince result entries.now }
{
    let mut low = u64::MAX;
    for i in 0..entries.len() {
        low = low.min(entries[i].stamp());
    }
    low
}

/// The number of chunks before the first one that is due, and a lower bound of their stamps.
fn count_kept(entries: &[Entry], least: u64) -> (usize, u64)
    requires least { least < 2 ^ 64 - 1 }
    ensures bound { result.0 ≤ length entries.now }
    ensures none { freed least (take result.0 entries.now) ≡ [] }
    ensures since { AreSince result.1 (take result.0 entries.now) }
{
    let mut low = u64::MAX;
    for i in 0..entries.len() {
        let entry = entries[i];
        if entry.is_due(least) {
            return (i, low);
        }
        low = low.min(entry.stamp());
    }
    (entries.len(), low)
}

/// Takes out the first chunks that are due, as many as there is room for. Returns their number, and a lower bound of the stamps of
/// the others. It isn't inlined, so its loop has the registers to itself.
#[inline(never)]
fn take_from(entries: &mut Vec<Entry>, least: u64, room: &mut [Entry]) -> (usize, u64)
    requires some { 0 < length room.old }
    requires least { least < 2 ^ 64 - 1 }
    ensures room { length room.new ≡ length room.old }
    ensures count { result.0 ≤ length room.new }
    ensures taken { AreTaken least entries.old.items entries.new.items (take result.0 room.new) }
    ensures since { AreSince result.1 entries.new.items }
{
    let (from, bound) = count_kept(entries, least);
    let mut to = from;
    let mut count = 0;
    let mut low = bound;
    for i in from..entries.len() {
        let entry = entries[i];
        if entry.is_due(least) && count < room.len() {
            room[count] = entry;
            count += 1;
        } else {
            entries[to] = entry;
            to += 1;
            low = low.min(entry.stamp());
        }
    }
    entries.truncate(to);
    (count, low)
}

/// The number of chunks that stay in a leaf that is split: all but one if the new chunk comes behind all others, one if it comes
/// before them.
fn cut_at(entries: &[Entry], first: u32, base: u32) -> usize
    requires { 1 < length entries.now }
    ensures { (0 < result) × (result < length entries.now) }
{
    let last = entries.len() - 1;
    if entries[last].base() < base {
        last
    } else if base < first {
        1
    } else {
        entries.len() / 2
    }
}

/// A leaf of these chunks.
fn leaf_of(alloc: Global, chunks: &[Entry]) -> Result<Leaf, AllocError>
    ensures { IfOk result (λ leaf. leaf ≡ chunks.now) }
{
    // Room for a full leaf, so that any two small leaves can become one.
    let mut entries = Vec::with_capacity(alloc, FULL)?;
    entries.extend_from_slice(chunks)?;
    Ok(Leaf {
        entries,
        first: first_base(chunks),
        oldest: oldest_in(chunks),
    })
}

impl Part for Leaf {
    ghost items = { λ l. l };

    fn new(alloc: Global) -> Leaf {
        Leaf {
            entries: Vec::new(alloc),
            first: 0,
            oldest: u64::MAX,
        }
    }

    fn len(&self) -> usize {
        self.entries.len()
    }

    fn first(&self) -> u32 {
        self.first
    }

    fn oldest(&self) -> u64 {
        self.oldest
    }

    fn at(&self, i: usize) -> Chunk {
        self.entries[i].chunk()
    }

    fn next(&self, at: u32) -> (Option<Chunk>, Place) {
        let len = self.entries.len();
        // Lists often grow at the end.
        let k = count_near(&self.entries, at, len);
        if 0 < k {
            let entry = self.entries[k - 1];
            if at - entry.base() < entry.length() {
                return (Some(entry.chunk()), Place::of(k));
            }
        }
        if k < len {
            return (Some(self.entries[k].chunk()), Place::of(k));
        }
        (None, Place::of(k))
    }

    fn insert(&mut self, base: u32, len: u32, place: Place) -> Result<(), AllocError> {
        let k = count_near(&self.entries, base, place.outer());
        if self.entries.insert(k, Entry::live(base, len)).is_err() {
            return Err(AllocError);
        }
        if k == 0 {
            self.first = base;
        }
        Ok(())
    }

    fn retire(&mut self, base: u32, stamp: u64, place: Place) {
        let k = count_near(&self.entries, base, place.outer()) - 1;
        let entry = self.entries[k];
        self.entries[k] = entry.retired(stamp);
        self.oldest = self.oldest.min(stamp);
    }

    fn split(&mut self, base: u32) -> Result<Option<Leaf>, AllocError> {
        if self.entries.len() < FULL {
            return Ok(None);
        }
        let cut = cut_at(&self.entries, self.first, base);
        let upper = leaf_of(*self.entries.allocator(), &self.entries[cut..])?;
        self.entries.truncate(cut);
        self.oldest = oldest_in(&self.entries);
        Ok(Some(upper))
    }

    fn join(&mut self, upper: &mut Leaf) -> bool {
        let len = self.entries.len() + upper.entries.len();
        if SMALL < len || self.entries.capacity() < len {
            return false;
        }
        // There is room, so it can't fail.
        let _ = self.entries.append(&mut upper.entries);
        self.oldest = self.oldest.min(upper.oldest);
        true
    }

    fn take_due(&mut self, least: u64, room: &mut [Entry]) -> usize {
        let (count, oldest) = take_from(&mut self.entries, least, room);
        self.oldest = oldest;
        self.first = first_base(&self.entries);
        count
    }
}
