//! A row of parts.

ghost use Rattle.std.specs.Prelude.{◌≡◌, ◌+◌, ◌<◌, ◌≤◌, ◌^◌, length, vec_len, vec_capacity, IsTrue};

use crate::chunk::Chunk;
use crate::entry::Entry;
use crate::list::Place;
use crate::part::Part;
use crate::parts::{close_up, oldest_of, part_for_new, part_near, raised, take_one};
use crate::starts::{join_starts, lower, part_with, raise, split_starts};
use std::alloc::{AllocError, Global};
use std::marker::Model;

/// The number of parts at which a row is full.
const FULL: usize = 128;

/// The number of parts up to which two rows become one.
const SMALL: usize = 96;

/// The number of chunks up to which two rows become one.
const MOST: usize = 0x3fff_ffff;

/// Consecutive parts of the list.
#[derive(Drop)]
pub(crate) struct Row<T: Part> {
    parts: Vec<T>,
    /// How many chunks of the row stand before each part.
    starts: Vec<u32>,
    count: usize,
    /// The base of the first chunk, if there is one.
    first: u32,
    /// No chunk is retired with a lower stamp.
    oldest: u64,
}

impl<T: Part> Model for Row<T> {
    ghost use Rattle.std.specs.Prelude.{List, map};
    ghost use Rattle.nc_list.specs.declared.chunk.Chunk.{Chunk};
    ghost use Rattle.nc_list.specs.Parts.{IsRow, all_of};

    ghost Value = { List Chunk };

    ghost view = { λ r. all_of (map T.items r.parts.items) };

    ghost invariant = { λ r. IsRow (map T.items r.parts.items) r.starts.items r.count r.first r.oldest };
}

/// The number of parts that stay in a row that is split: all but one if the new chunk comes into the last part, one if it comes into
/// the first one.
fn cut_at<T: Part>(parts: &[T], base: u32) -> usize
    requires { 2 < length parts.now }
    ensures { (0 < result) × (result < length parts.now) }
{
    let last = parts.len() - 1;
    if parts[last].first() <= base {
        last
    } else if base < parts[1].first() {
        1
    } else {
        parts.len() / 2
    }
}

/// Whether a row with these parts, which have `count` chunks, can take `more` parts, which have `added` chunks: both rows are small,
/// and there is room.
fn may_join<T: Part>(
    parts: &Vec<T>,
    starts: &Vec<u32>,
    count: usize,
    more: &Vec<T>,
    added: usize,
) -> bool
    ensures parts { IsTrue result → vec_len parts.now + vec_len more.now ≤ vec_capacity parts.now }
    ensures starts { IsTrue result → vec_len parts.now + vec_len more.now ≤ vec_capacity starts.now }
    ensures count { IsTrue result → count < 2 ^ 30 }
    ensures added { IsTrue result → (0 < added) × (added < 2 ^ 30) }
{
    let len = parts.len() + more.len();
    // Far more chunks than a region has. Numbers up to `MOST` don't overflow.
    len <= SMALL
        && len <= parts.capacity()
        && len <= starts.capacity()
        && count <= MOST
        && added <= MOST
        && added != 0
}

impl<T: Part> Part for Row<T> {
    ghost items = { λ r. r };

    fn new(alloc: Global) -> Row<T> {
        Row {
            parts: Vec::new(alloc),
            starts: Vec::new(alloc),
            count: 0,
            first: 0,
            oldest: u64::MAX,
        }
    }

    fn len(&self) -> usize {
        self.count
    }

    fn first(&self) -> u32 {
        self.first
    }

    fn oldest(&self) -> u64 {
        self.oldest
    }

    fn at(&self, i: usize) -> Chunk {
        let k = part_with(&self.starts, i);
        self.parts[k].at(i - self.starts[k] as usize)
    }

    fn next(&self, at: u32) -> (Option<Chunk>, Place) {
        if self.parts.is_empty() {
            return (None, Place::of(0));
        }
        // Lists often grow at the end.
        let k = part_near(&self.parts, at, self.parts.len() - 1);
        let (found, inner) = self.parts[k].next(at);
        let place = inner.within(k);
        if let Some(chunk) = found {
            return (Some(chunk), place);
        }
        if k + 1 < self.parts.len() {
            return (Some(self.parts[k + 1].at(0)), place);
        }
        (None, place)
    }

    fn insert(&mut self, base: u32, len: u32, place: Place) -> Result<(), AllocError> {
        let k = part_for_new(&mut self.parts, &mut self.starts, base, place.outer())?;
        self.parts[k].insert(base, len, place.inner())?;
        raise(&mut self.starts, k);
        self.count += 1;
        self.first = self.parts[0].first();
        Ok(())
    }

    fn retire(&mut self, base: u32, stamp: u64, place: Place) {
        let k = part_near(&self.parts, base, place.outer());
        self.parts[k].retire(base, stamp, place.inner());
        self.oldest = self.oldest.min(stamp);
    }

    fn split(&mut self, base: u32) -> Result<Option<Row<T>>, AllocError> {
        if self.parts.len() < FULL {
            return Ok(None);
        }
        let cut = cut_at(&self.parts, base);
        let starts = split_starts(&self.starts, cut)?;
        let parts = self.parts.split_off(cut)?;
        let count = self.starts[cut] as usize;
        self.starts.truncate(cut);
        self.oldest = oldest_of(&self.parts);
        let upper = Row {
            count: self.count - count,
            first: parts[0].first(),
            oldest: oldest_of(&parts),
            parts,
            starts,
        };
        self.count = count;
        Ok(Some(upper))
    }

    fn join(&mut self, upper: &mut Row<T>) -> bool {
        if !may_join(
            &self.parts,
            &self.starts,
            self.count,
            &upper.parts,
            upper.count,
        ) {
            return false;
        }
        join_starts(&mut self.starts, &upper.starts, self.count as u32);
        // There is room, so it can't fail.
        let _ = self.parts.append(&mut upper.parts);
        upper.starts.clear();
        self.count += upper.count;
        self.oldest = self.oldest.min(upper.oldest);
        upper.count = 0;
        true
    }

    fn take_due(&mut self, least: u64, room: &mut [Entry]) -> usize {
        let Some(taken) = take_one(&mut self.parts, least, room) else {
            self.oldest = oldest_of(&self.parts);
            return 0;
        };
        // The parts before this one have bounds above `least`. If it is the last part, the bound of all may thus rise above it too.
        let is_last = taken.part + 1 == self.parts.len();
        lower(&mut self.starts, taken.part, taken.count as u32);
        self.count -= taken.count;
        close_up(&mut self.parts, &mut self.starts, taken.part);
        self.first = self.parts[0].first();
        self.oldest = raised(&self.parts, self.oldest, is_last);
        taken.count
    }
}
