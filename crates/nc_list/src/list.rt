//! The list of chunks.

ghost use Rattle.std.specs.Prelude.{◌≡◌, ◌+◌, ◌-◌, ◌<◌, ◌≤◌, ◌^◌, [], length, take, slice_get, IfSome, IsNone, false, OnOk, OnErr};
ghost use Rattle.nc_list.specs.Chunks.{IsAscending, IsAboveAll, IsInserted, IsNextChunk, Meets, HasBase, IsRetired, AreTaken, freed, live};

use crate::chunk::Chunk;
use crate::entry::Entry;
use crate::leaf::Leaf;
use crate::part::Part;
use crate::row::Row;
use std::alloc::{AllocError, Global};
use std::marker::Model;

/// The number of bits of an index.
const BITS: u32 = 20;

/// The place at which a search of a list ended. Calls that are given the place for their base find it at once. Any other place, such
/// as that of another base or of a list that has changed, costs them only a search.
#[derive(Clone, Copy, Drop)]
pub struct Place {
    /// The index of the part in its row, from the root down, and then the index in the leaf, `BITS` bits each.
    indices: u64,
}

impl Place {
    /// This index, at the lowest level.
    pub(crate) fn of(index: usize) -> Place {
        Place {
            indices: index as u64,
        }
    }

    /// This place, in the part at an index.
    pub(crate) fn within(self, index: usize) -> Place {
        Place {
            indices: index as u64 | self.indices << BITS,
        }
    }

    /// The index at the highest level.
    pub(crate) fn outer(self) -> usize {
        (self.indices & ((1 << BITS) - 1)) as usize
    }

    /// The place in the part at that index.
    pub(crate) fn inner(self) -> Place {
        Place {
            indices: self.indices >> BITS,
        }
    }
}

/// A list of chunks by ascending base.
#[derive(Drop)]
pub struct ChunkList {
    root: Row<Row<Leaf>>,
    alloc: Global,
}

impl Model for ChunkList {
    ghost use Rattle.std.specs.Prelude.{List};
    ghost use Rattle.nc_list.specs.declared.chunk.Chunk.{Chunk};

    ghost Value = { List Chunk };

    ghost view = { λ l. l.root };
}

impl ChunkList {
    /// A list without a chunk. No memory is allocated.
    pub fn new(alloc: Global) -> ChunkList
        ensures { result ≡ [] }
    {
        ChunkList {
            root: Part::new(alloc),
            alloc,
        }
    }

    /// The allocator of the list's memory.
    pub fn allocator(&self) -> Global {
        self.alloc
    }

    /// The number of chunks.
    pub fn len(&self) -> usize
        ensures { result ≡ length self.now }
    {
        self.root.len()
    }

    /// The chunk at an index, if there is one.
    pub fn get(&self, i: usize) -> Option<Chunk>
        ensures { result ≡ slice_get self.now i }
    {
        if i < self.root.len() {
            Some(self.root.at(i))
        } else {
            None
        }
    }

    /// The chunk that has this address, or else the first one above it. There is none if all chunks end at or below the address.
    pub fn chunk_at(&self, at: u32) -> Option<Chunk>
        requires { IsAscending 0 self.now }
        ensures found { IfSome result (IsNextChunk self.now at) }
        ensures none { IsNone result → IsAboveAll at self.now }
    {
        self.find(at).0
    }

    /// The chunk that `chunk_at` returns, and the place for the address, with which `insert` and `retire` need no search.
    pub fn find(&self, at: u32) -> (Option<Chunk>, Place)
        requires { IsAscending 0 self.now }
        ensures found { IfSome result.0 (IsNextChunk self.now at) }
        ensures none { IsNone result.0 → IsAboveAll at self.now }
    {
        self.root.next(at)
    }

    /// Inserts a live chunk, without a search if `place` is the one for its base and no part is split. If an allocation is refused,
    /// the list stays as it was.
    pub fn insert(&mut self, base: u32, len: u32, place: Place) -> Result<(), AllocError>
        requires ascending { IsAscending 0 self.old }
        requires some { 0 < len }
        requires free { ¬ Meets base len self.old }
        requires few { length self.old < 2 ^ 32 - 1 }
        ensures ok { OnOk result (IsInserted self.old self.new (live base len)) }
        ensures err { OnErr result (self.new ≡ self.old) }
    {
        self.root.insert(base, len, place)
    }

    /// Retires the chunk with this base, without a search if `place` is the one for it. The chunk stays in the list, with this
    /// stamp. No memory is allocated.
    pub fn retire(&mut self, base: u32, stamp: u64, place: Place)
        requires ascending { IsAscending 0 self.old }
        requires base { HasBase self.old base }
        requires stamp { stamp < 2 ^ 64 - 1 }
        ensures { IsRetired self.old self.new base stamp }
    {
        self.root.retire(base, stamp, place);
    }

    /// Whether some chunk may be retired with a stamp of at most this number; if not, none is. It takes the same time for every list.
    pub fn may_be_due(&self, least: u64) -> bool
        requires { least < 2 ^ 64 - 1 }
        ensures { result ≡ false → freed least self.now ≡ [] }
    {
        self.root.oldest() <= least
    }

    /// Takes out the first chunks that are retired with a stamp of at most this number, in ascending order, and returns their
    /// number. They are of one leaf, and no more than there is room for. None is taken only if none is due. No memory is allocated.
    pub fn take_due(&mut self, least: u64, room: &mut [Entry]) -> usize
        requires some { 0 < length room.old }
        requires few { length room.old < 2 ^ 32 }
        requires least { least < 2 ^ 64 - 1 }
        ensures room { length room.new ≡ length room.old }
        ensures count { result ≤ length room.new }
        ensures taken { AreTaken least self.old self.new (take result room.new) }
    {
        if !self.may_be_due(least) {
            return 0;
        }
        self.root.take_due(least, room)
    }
}
