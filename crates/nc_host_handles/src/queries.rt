//! Queries of a region that owns everything it needs.

ghost use Rattle.std.specs.Prelude.{◌≡◌, ◌+◌, ◌*◌, ◌↔◌, ◌≤◌, ◌^◌, IfOk, IfErr, IfSome, IsNone, IsTrue, OnOk, length, slice_get};
ghost use Rattle.nc_text.specs.Machine.{IsConfined};
ghost use Rattle.nc_text.specs.Marks.{mark_at};
ghost use Rattle.nc_text.specs.Places.{InRegion, byte_at, limit_of};
ghost use Rattle.nc_region.specs.Quiet.{AreQuiet};
ghost use Rattle.nc_region.specs.Region.{IsRegion, AreChunksReady, IsAboveAll, IsNextChunk};
ghost use Rattle.nc_vet.specs.Faults.{HasGoodSpan};
ghost use Rattle.nc_region.specs.Trace.{IsTrace, IsOnlyTrace, IsSafeWalk, IsWalkStart, MayRefuseWalk};

use crate::region_handle::RegionHandle;
use nc_decode::{Mark, START};
use nc_region::{Acts, Chunk, Trace, WalkFault};

impl RegionHandle {
    /// The address after the region's last byte.
    pub fn limit(&self) -> u32
        ensures { result ≡ limit_of self.now.region.marked.bytes }
    {
        self.region.limit()
    }

    /// The generation: the last stamp that was drawn, or 0.
    pub fn generation(&self) -> u64
        ensures generation { result ≡ self.now.region.keeper.numbers.generation }
        ensures in_range { result ≤ 2 ^ 62 }
    {
        self.region.acts().generation()
    }

    /// Whether an address is one of the region.
    fn holds(&self, at: u32) -> bool
        ensures { IsTrue result ↔ InRegion self.now.region.marked.bytes at }
    {
        START <= at && at < self.limit()
    }

    /// The byte at an address, if it is one of the region.
    pub fn byte(&self, at: u32) -> Option<u8>
        ensures byte { IfSome result (λ b. b ≡ byte_at self.now.region.marked.bytes at) }
        ensures outside { IsNone result ↔ ¬ InRegion self.now.region.marked.bytes at }
    {
        if !self.holds(at) {
            return None;
        }
        Some(self.region.byte(at))
    }

    /// The mark at an address, if it is one of the region.
    pub fn mark(&self, at: u32) -> Option<Mark>
        ensures mark { IfSome result (λ m. m ≡ mark_at self.now.region.marked.marks at) }
        ensures outside { IsNone result ↔ ¬ InRegion self.now.region.marked.bytes at }
    {
        if !self.holds(at) {
            return None;
        }
        Some(self.region.mark(at))
    }

    /// The number of chunks, live and retired, with the invariants of every region.
    pub fn chunk_count(&self) -> usize
        ensures count { result ≡ length self.now.region.chunks }
        ensures confined { IsConfined self.now.region.marked.bytes }
        ensures quiet { AreQuiet self.now.region.marked self.now.region.chunks }
        ensures region { IsRegion self.now.region.marked self.now.region.chunks }
    {
        self.region.chunk_count()
    }

    /// The chunk at an index of the list, in ascending order of base, if there is one.
    pub fn chunk(&self, i: usize) -> Option<Chunk>
        ensures { result ≡ slice_get self.now.region.chunks i }
    {
        self.region.chunk(i)
    }

    /// The chunk, live or retired, that has this address, or else the first one above it, if there is one.
    pub fn chunk_at(&self, at: u32) -> Option<Chunk>
        ensures found { IfSome result (IsNextChunk self.now.region.chunks at) }
        // Each chunk ends at or below the address.
        ensures none { IsNone result → IsAboveAll at self.now.region.chunks }
        // The chunk's span is whole bundles of the region.
        ensures placed { IfSome result (λ c. HasGoodSpan c.base (limit_of self.now.region.marked.bytes) c.length) }
    {
        self.region.chunk_at(at)
    }

    /// The chunk whose deletion is under way, if one is.
    pub fn begun(&self) -> Option<Chunk>
        ensures { result ≡ self.now.begun }
    {
        self.begun
    }

    /// `RegionOf::walk`. Only the places that it returns take memory.
    pub fn walk(&self, start: u32, choices: &[u32]) -> Result<Trace, WalkFault>
        ensures trace { IfOk result (λ t. IsTrace self.now.region.marked.bytes start choices.now t.places.items t.end) }
        ensures only { IfOk result (λ t. IsOnlyTrace self.now.region.marked.bytes start choices.now t.places.items t.end) }
        ensures safe { IfOk result (λ t. IsSafeWalk self.now.region.marked.bytes start choices.now t.end) }
        ensures begins { OnOk result (IsWalkStart self.now.region.marked.bytes start) }
        ensures refused { IfErr result (MayRefuseWalk self.now.region.marked.bytes start) }
    {
        self.region.walk(start, choices)
    }
}
