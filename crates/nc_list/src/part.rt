//! Chunks that stand together: a leaf, or a row of parts.

ghost use Rattle.std.specs.Prelude.{◌≡◌, ◌+◌, ◌-◌, ◌<◌, ◌≤◌, ◌^◌, [], ◌++◌, List, length, take, slice_index_or, true, false, IsTrue, IfSome, IfOk, IfErr, OnOk, OnErr, IsNone, MatchOption};
ghost use Rattle.nc_list.specs.declared.chunk.Chunk.{Chunk};
ghost use Rattle.nc_list.specs.Chunks.{IsAscending, IsAboveAll, IsNextChunk, Meets, HasBase, IsRetired, AreTaken, live};
ghost use Rattle.nc_list.specs.Stamps.{AreSince, BeginsAt};
ghost use Rattle.nc_list.specs.Parts.{IsPut, AreParted};

use crate::chunk::Chunk;
use crate::entry::Entry;
use crate::list::Place;
use std::alloc::{AllocError, Global};

/// Chunks by ascending base.
pub(crate) trait Part: Drop {
    /// The chunks.
    ghost items: { Self → List Chunk };

    /// No chunk. No memory is allocated.
    fn new(alloc: Global) -> Self
        ensures { items result ≡ [] };

    /// The number of chunks.
    fn len(&self) -> usize
        ensures { result ≡ length (items self.now) };

    /// The base of the first chunk, if there is one.
    fn first(&self) -> u32
        ensures { BeginsAt result (items self.now) };

    /// No chunk is retired with a lower stamp.
    fn oldest(&self) -> u64
        ensures { AreSince result (items self.now) };

    /// The chunk at an index.
    fn at(&self, i: usize) -> Chunk
        requires { i < length (items self.now) }
        ensures { result ≡ slice_index_or (items self.now) i result };

    /// The chunk that has this address, or the first one above it, and the place for the address.
    fn next(&self, at: u32) -> (Option<Chunk>, Place)
        requires { IsAscending 0 (items self.now) }
        ensures found { IfSome result.0 (IsNextChunk (items self.now) at) }
        ensures none { IsNone result.0 → IsAboveAll at (items self.now) };

    /// Inserts a live chunk. A refusal leaves the chunks as they were.
    fn insert(&mut self, base: u32, len: u32, place: Place) -> Result<(), AllocError>
        requires ascending { IsAscending 0 (items self.old) }
        requires some { 0 < len }
        requires free { ¬ Meets base len (items self.old) }
        requires few { length (items self.old) < 2 ^ 32 - 1 }
        ensures ok { OnOk result (IsPut (items self.old) (items self.new) (live base len)) }
        ensures err { OnErr result (items self.new ≡ items self.old) };

    /// Retires the chunk with this base.
    fn retire(&mut self, base: u32, stamp: u64, place: Place)
        requires ascending { IsAscending 0 (items self.old) }
        requires base { HasBase (items self.old) base }
        requires stamp { stamp < 2 ^ 64 - 1 }
        ensures { IsRetired (items self.old) (items self.new) base stamp };

    /// Moves the upper chunks to a part of their own if this one is full: one of them if a chunk with this base comes behind all
    /// others, and all but one of them if it comes before.
    fn split(&mut self, base: u32) -> Result<Option<Self>, AllocError>
        ensures ok { IfOk result (λ r. MatchOption r (items self.new ≡ items self.old)
            (λ upper. AreParted (items self.old) (items self.new) (items upper))) }
        ensures err { OnErr result (items self.new ≡ items self.old) };

    /// Moves the chunks of the next part here if both are small and there is room, and returns whether it did. No memory is
    /// allocated.
    fn join(&mut self, upper: &mut Self) -> bool
        requires { 0 < length (items self.old) }
        ensures joined { IsTrue result → items self.new ≡ items self.old ++ items upper.old }
        ensures not { result ≡ false → (items self.new ≡ items self.old) × (items upper.new ≡ items upper.old) };

    /// Takes out the first chunks that are retired with a stamp of at most this number, in ascending order, and returns their
    /// number. They are of one leaf, and no more than there is room for. No memory is allocated.
    fn take_due(&mut self, least: u64, room: &mut [Entry]) -> usize
        requires some { 0 < length room.old }
        requires few { length room.old < 2 ^ 32 }
        requires least { least < 2 ^ 64 - 1 }
        ensures room { length room.new ≡ length room.old }
        ensures count { result ≤ length room.new }
        ensures taken { AreTaken least (items self.old) (items self.new) (take result room.new) };
}
