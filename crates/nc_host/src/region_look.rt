//! Reading a region by its handle.

ghost use Rattle.std.specs.Prelude.{◌≡◌, ◌<◌, ◌⊎◌, None, Some, length, slice_get};
ghost use Rattle.nc_text.specs.Places.{InRegion, limit_of};
ghost use Rattle.nc_vet.specs.Faults.{HasGoodSpan};
ghost use Rattle.nc_list.specs.declared.chunk.Chunk.{Chunk};
ghost use Rattle.nc_region.specs.Region.{IsAboveAll, IsNextChunk};
ghost use Rattle.nc_host_handles.specs.RegionHandle.{RegionHandleState};
ghost use Rattle.nc_host.specs.declared.fault_numbers.TheConstants.{NO_CHUNK, NO_HANDLE, NO_PLACE};
ghost use Rattle.nc_host.specs.Shown.{mark_number};
ghost use Rattle.nc_host.specs.Looks.{shown_chunk, no_chunk, shown_place, no_place};

use crate::fault_numbers::{NO_CHUNK, NO_HANDLE, NO_PLACE};
use crate::region_results::{NcChunk, NcPlace, NcStamp, no_chunk, no_place};
use nc_decode::Mark;
use nc_host_handles::{NcRegion, RegionHandle};
use nc_region::{Chunk, ChunkState};
use std::alloc::Global;

/// A chunk as a host reads it.
fn shown(chunk: Chunk) -> NcChunk
    ensures { result ≡ shown_chunk chunk }
{
    let (retired, stamp) = match chunk.state {
        ChunkState::Live => (0, 0),
        ChunkState::Retired(stamp) => (1, stamp),
    };
    NcChunk {
        stamp,
        fault: 0,
        base: chunk.base,
        length: chunk.length,
        retired,
    }
}

/// The chunk at an index of a region's list, live or retired, in ascending order of base. With this call a host lists all chunks.
#[unsafe(no_mangle)]
pub extern "C" fn nc_region_chunk(alloc: Global, region: &mut NcRegion, index: usize) -> NcChunk
    ensures same { region.new.value ≡ region.old.value }
    ensures chunk { result.fault ≡ 0 → (h : RegionHandleState) × (region.old.value ≡ Some h)
        × ((c : Chunk) × (slice_get h.region.chunks index ≡ Some c) × (result ≡ shown_chunk c)) }
    ensures refused { 0 < result.fault → ((result ≡ no_chunk NO_HANDLE) × (region.old.value ≡ None))
        ⊎ ((result ≡ no_chunk NO_CHUNK) × ((h : RegionHandleState) × (region.old.value ≡ Some h) × (slice_get h.region.chunks index ≡ None))) }
{
    let Some(handle) = region.take(alloc) else {
        return no_chunk(NO_HANDLE);
    };
    let chunk = handle.chunk(index);
    *region = NcRegion::of(handle);
    match chunk {
        Some(chunk) => shown(chunk),
        None => no_chunk(NO_CHUNK),
    }
}

/// The chunk of a region, live or retired, that has this address, or else the first one above it. With this call a host finds a
/// chunk, or a free span, without going over the list.
#[unsafe(no_mangle)]
pub extern "C" fn nc_region_chunk_at(alloc: Global, region: &mut NcRegion, at: u32) -> NcChunk
    ensures same { region.new.value ≡ region.old.value }
    ensures chunk { result.fault ≡ 0 → (h : RegionHandleState) × (region.old.value ≡ Some h)
        × ((c : Chunk) × IsNextChunk h.region.chunks at c × (result ≡ shown_chunk c)) }
    ensures placed { result.fault ≡ 0 → (h : RegionHandleState) × (region.old.value ≡ Some h)
        × HasGoodSpan result.base (limit_of h.region.marked.bytes) result.length }
    ensures refused { 0 < result.fault → ((result ≡ no_chunk NO_HANDLE) × (region.old.value ≡ None))
        ⊎ ((result ≡ no_chunk NO_CHUNK) × ((h : RegionHandleState) × (region.old.value ≡ Some h) × IsAboveAll at h.region.chunks)) }
{
    let Some(handle) = region.take(alloc) else {
        return no_chunk(NO_HANDLE);
    };
    let chunk = handle.chunk_at(at);
    *region = NcRegion::of(handle);
    match chunk {
        Some(chunk) => shown(chunk),
        None => no_chunk(NO_CHUNK),
    }
}

/// A mark as a host reads it.
fn mark_number(mark: Mark) -> u32
    ensures { result ≡ mark_number mark }
{
    match mark {
        Mark::Unmarked => 0,
        Mark::Plain => 1,
        Mark::After(register) => 16 + u32::from(register),
    }
}

/// The byte and the mark at a place, if it is in the region.
fn look_at(handle: &RegionHandle, at: u32) -> NcPlace
    ensures { ((result ≡ shown_place handle.now.region at) × InRegion handle.now.region.marked.bytes at)
        ⊎ ((result ≡ no_place NO_PLACE) × ¬ InRegion handle.now.region.marked.bytes at) }
{
    match (handle.byte(at), handle.mark(at)) {
        (Some(byte), Some(mark)) => NcPlace {
            fault: 0,
            byte: u32::from(byte),
            mark: mark_number(mark),
        },
        _ => no_place(NO_PLACE),
    }
}

/// The byte and the mark at an address of a region.
#[unsafe(no_mangle)]
pub extern "C" fn nc_region_place(alloc: Global, region: &mut NcRegion, at: u32) -> NcPlace
    ensures same { region.new.value ≡ region.old.value }
    ensures place { result.fault ≡ 0 → (h : RegionHandleState) × (region.old.value ≡ Some h)
        × (result ≡ shown_place h.region at) × InRegion h.region.marked.bytes at }
    ensures refused { 0 < result.fault → ((result ≡ no_place NO_HANDLE) × (region.old.value ≡ None))
        ⊎ ((result ≡ no_place NO_PLACE) × ((h : RegionHandleState) × (region.old.value ≡ Some h) × ¬ InRegion h.region.marked.bytes at)) }
{
    let Some(handle) = region.take(alloc) else {
        return no_place(NO_HANDLE);
    };
    let place = look_at(&handle, at);
    *region = NcRegion::of(handle);
    place
}

/// The generation of a region: the last stamp that was drawn, or 0.
#[unsafe(no_mangle)]
pub extern "C" fn nc_region_generation(alloc: Global, region: &mut NcRegion) -> NcStamp
    ensures same { region.new.value ≡ region.old.value }
    ensures generation { result.fault ≡ 0 → (h : RegionHandleState) × (region.old.value ≡ Some h)
        × (result.stamp ≡ h.region.keeper.numbers.generation) }
    ensures refused { 0 < result.fault → (result ≡ record { stamp = 0; fault = NO_HANDLE }) × (region.old.value ≡ None) }
{
    let Some(handle) = region.take(alloc) else {
        return NcStamp {
            stamp: 0,
            fault: NO_HANDLE,
        };
    };
    let stamp = handle.generation();
    *region = NcRegion::of(handle);
    NcStamp { stamp, fault: 0 }
}
