//! Walks through a region's text, written into a host's buffer.

ghost use Rattle.std.specs.Prelude.{◌≡◌, ◌<◌, ◌≤◌, ◌⊎◌, None, Some, length};
ghost use Rattle.nc_host_acts.specs.Shown.{over};
ghost use Rattle.nc_host_handles.specs.RegionHandle.{RegionHandleState};
ghost use Rattle.nc_host.specs.declared.fault_numbers.TheConstants.{NO_HANDLE};
ghost use Rattle.nc_host.specs.Walked.{end_number, no_walk, IsShownWalk, MayRefuseShownWalk};

use crate::fault_numbers::{NO_HANDLE, NO_ROOM, NO_START, OUT_OF_MEMORY};
use crate::region_results::{NcWalk, no_walk};
use nc_host_handles::{NcRegion, RegionHandle};
use nc_region::{End, WalkFault};
use std::alloc::Global;

/// How a walk ended, as a host reads it.
fn end_number(end: End) -> u32
    ensures { result ≡ end_number end }
{
    match end {
        End::Stop => 1,
        End::Trampoline => 2,
        End::Beyond => 3,
        End::More => 4,
    }
}

/// Writes the places of a walk.
fn write_places(buffer: &mut [u32], places: &[u32])
    requires { length places.now ≤ length buffer.old }
    ensures { buffer.new ≡ over places.now buffer.old }
{
    for i in 0..places.len() {
        buffer[i] = places[i];
    }
}

/// Walks, and writes the places if there is room for all of them.
fn walk_into(handle: &RegionHandle, start: u32, choices: &[u32], places: &mut [u32]) -> NcWalk
    ensures reported { result.fault ≡ 0 → IsShownWalk handle.now.region.marked.bytes start choices.now result places.old places.new }
    ensures refused { 0 < result.fault → (places.new ≡ places.old)
        × MayRefuseShownWalk handle.now.region.marked.bytes start choices.now (length places.old) result }
{
    let trace = match handle.walk(start, choices) {
        Ok(trace) => trace,
        Err(WalkFault::NotBundle) => return no_walk(NO_START),
        Err(WalkFault::OutOfMemory) => return no_walk(OUT_OF_MEMORY),
    };
    let count = trace.places.len();
    if count > places.len() {
        return NcWalk {
            count,
            fault: NO_ROOM,
            end: 0,
        };
    }
    write_places(places, &trace.places);
    NcWalk {
        count,
        fault: 0,
        end: end_number(trace.end),
    }
}

/// Walks from a bundle start of a region, with its steps picked by these choices (`RegionOf::walk`), and writes the places
/// into a buffer; nothing is executed. Room for one place more than there are choices is enough.
#[unsafe(no_mangle)]
pub extern "C" fn nc_region_walk(
    alloc: Global,
    region: &mut NcRegion,
    start: u32,
    choices: &[u32],
    places: &mut [u32],
) -> NcWalk
    ensures same { region.new.value ≡ region.old.value }
    ensures reported { result.fault ≡ 0 → (h : RegionHandleState) × (region.old.value ≡ Some h)
        × IsShownWalk h.region.marked.bytes start choices.now result places.old places.new }
    ensures refused { 0 < result.fault → (places.new ≡ places.old) × (((result ≡ no_walk NO_HANDLE) × (region.old.value ≡ None))
        ⊎ ((h : RegionHandleState) × (region.old.value ≡ Some h)
        × MayRefuseShownWalk h.region.marked.bytes start choices.now (length places.old) result)) }
{
    let Some(handle) = region.take(alloc) else {
        return no_walk(NO_HANDLE);
    };
    let reported = walk_into(&handle, start, choices, places);
    *region = NcRegion::of(handle);
    reported
}
