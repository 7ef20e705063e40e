//! The acts of a creation and of a deletion as runs, by a region's handle.

ghost use Rattle.std.specs.Prelude.{◌≡◌, ◌<◌, Some, IfOk, IfErr, length};
ghost use Rattle.nc_list.specs.declared.chunk.Chunk.{Chunk};
ghost use Rattle.nc_host_handles.specs.RegionHandle.{RegionHandleState, IsLiveAt};
ghost use Rattle.nc_host_handles.specs.RunCalls.{AreCreationRuns, AreDeletionRuns, MayRefuseCreationRuns, MayRefuseDeletionRuns};
ghost use Rattle.nc_host.specs.declared.fault_numbers.TheConstants.{NOT_BEGUN, NO_CHUNK};
ghost use Rattle.nc_host.specs.Handles.{IsNumberedRefusal};
ghost use Rattle.nc_host.specs.Running.{runs_number, runs_wanted};

use crate::fault_numbers::{NO_CHUNK, NO_HANDLE, NO_ROOM, NOT_BEGUN};
use crate::region_results::{NcChange, no_change};
use nc_host_handles::{NcAct, NcRegion, RunsFault};
use std::alloc::Global;

/// The result of a call for runs, with this number if there is no chunk.
fn runs_result(reported: Result<usize, RunsFault>, none: u32) -> NcChange
    ensures reported { IfOk reported (λ count. result ≡ record { fault = 0; at = 0; count = count }) }
    ensures refused { IfErr reported (λ f. result ≡ record { fault = runs_number none f; at = 0; count = runs_wanted f }) }
{
    match reported {
        Ok(count) => no_change(0, count),
        Err(RunsFault::NoChunk) => no_change(none, 0),
        Err(RunsFault::NoRoom(wanted)) => no_change(NO_ROOM, wanted),
    }
}

/// Writes the acts that would create a live chunk with its present bytes, as runs: two for each of its bundles, and two more.
/// Directly after the chunk was created these are the acts of that call. The region doesn't change.
#[unsafe(no_mangle)]
pub extern "C" fn nc_region_creation_runs(
    alloc: Global,
    region: &mut NcRegion,
    base: u32,
    acts: &mut [NcAct],
) -> NcChange
    ensures same { region.new.value ≡ region.old.value }
    ensures reported { result.fault ≡ 0 → (h : RegionHandleState) × (region.old.value ≡ Some h)
        × ((c : Chunk) × IsLiveAt h.region.chunks base c × AreCreationRuns h c acts.old acts.new result.count) }
    ensures untouched { 0 < result.fault → acts.new ≡ acts.old }
    ensures at { result.at ≡ 0 }
    // Each refusal is returned exactly when it is due.
    ensures refused { 0 < result.fault → IsNumberedRefusal region.old.value (λ h f. MayRefuseCreationRuns h base (length acts.old) f)
        (runs_number NO_CHUNK) runs_wanted result.fault result.count }
{
    let Some(handle) = region.take(alloc) else {
        return no_change(NO_HANDLE, 0);
    };
    let reported = handle.creation_runs(base, acts);
    *region = NcRegion::of(handle);
    runs_result(reported, NO_CHUNK)
}

/// Writes the acts of the deletion that is under way, as runs: two for each bundle of its chunk, and two more. The region
/// doesn't change.
#[unsafe(no_mangle)]
pub extern "C" fn nc_region_deletion_runs(
    alloc: Global,
    region: &mut NcRegion,
    acts: &mut [NcAct],
) -> NcChange
    ensures same { region.new.value ≡ region.old.value }
    ensures reported { result.fault ≡ 0 → (h : RegionHandleState) × (region.old.value ≡ Some h)
        × ((c : Chunk) × (h.begun ≡ Some c) × AreDeletionRuns h c acts.old acts.new result.count) }
    ensures untouched { 0 < result.fault → acts.new ≡ acts.old }
    ensures at { result.at ≡ 0 }
    // Each refusal is returned exactly when it is due.
    ensures refused { 0 < result.fault → IsNumberedRefusal region.old.value (λ h f. MayRefuseDeletionRuns h (length acts.old) f)
        (runs_number NOT_BEGUN) runs_wanted result.fault result.count }
{
    let Some(handle) = region.take(alloc) else {
        return no_change(NO_HANDLE, 0);
    };
    let reported = handle.deletion_runs(acts);
    *region = NcRegion::of(handle);
    runs_result(reported, NOT_BEGUN)
}
