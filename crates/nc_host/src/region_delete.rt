//! Deletions in two steps, and reuse, by a region's handle.

ghost use Rattle.std.specs.Prelude.{◌≡◌, ◌<◌, ◌⊎◌, ℕ, None, Some, IsSome, length};
ghost use Rattle.nc_vet.specs.Chunk.{MarkedChunk};
ghost use Rattle.nc_list.specs.declared.chunk.Chunk.{Chunk};
ghost use Rattle.nc_acts.specs.Log.{log_of_delete};
ghost use Rattle.nc_host_handles.specs.RegionHandle.{RegionHandleState, HasBegunDeletion, HasEndedDeletion, HasReclaimed, MayRefuseBegin};
ghost use Rattle.nc_host_handles.specs.Pending.{ReportsPending, DoesItself};
ghost use Rattle.nc_host_handles.specs.Lent.{IsReported};
ghost use Rattle.nc_host_handles.specs.declared.fault.RetireFault.{RetireFault};
ghost use Rattle.nc_host.specs.declared.fault_numbers.TheConstants.{NOT_BEGUN, NO_HANDLE, UNDER_WAY};
ghost use Rattle.nc_host.specs.Handles.{IsDone, IsNumberedRefusal, retire_number, retire_wanted};

use crate::fault_numbers::{NO_HANDLE, NOT_BEGUN, UNDER_WAY};
use crate::numbers::retire_numbers;
use crate::region_results::{NcChange, NcCount, NcStamp, no_change};
use nc_host_handles::{NcAct, NcRegion, RegionHandle};
use std::alloc::Global;

/// The first call of a deletion, with its result as numbers.
fn begin(handle: &mut RegionHandle, base: u32, acts: &mut [NcAct]) -> NcChange
    ensures begun { result.fault ≡ 0 → (c : Chunk) × HasBegunDeletion handle.old handle.new base c
        × IsReported acts.old acts.new result.count (log_of_delete handle.old.region.marked.marks base c.length) }
    ensures pending { (v : MarkedChunk) → result.fault ≡ 0 → ReportsPending handle.old handle.new v acts.old acts.new result.count }
    ensures untouched { 0 < result.fault → acts.new ≡ acts.old }
    ensures unchanged { 0 < result.fault → handle.new ≡ handle.old }
    ensures at { result.at ≡ 0 }
    ensures refused { 0 < result.fault → (f : RetireFault) × MayRefuseBegin handle.old base (length acts.old) f
        × (result.fault ≡ retire_number f) × (result.count ≡ retire_wanted f) }
{
    match handle.begin_delete(base, acts) {
        Ok((_chunk, count)) => no_change(0, count),
        Err(fault) => {
            let (number, wanted) = retire_numbers(fault);
            no_change(number, wanted)
        }
    }
}

/// The first call of a deletion: its acts are written, and the region still has the chunk. It takes no memory.
///
/// The acts are written into the buffer, with the serialization among them and the stamp at the end: two more than the chunk has
/// bytes. An empty buffer counts as none, and then the count is 0. Until `nc_region_end_delete` every call that changes the
/// region is refused. A refusal changes nothing.
#[unsafe(no_mangle)]
pub extern "C" fn nc_region_begin_delete(
    alloc: Global,
    region: &mut NcRegion,
    base: u32,
    acts: &mut [NcAct],
) -> NcChange
    // The acts written are those of a deletion, by the region's own marks, with the serialization.
    ensures begun { result.fault ≡ 0 → IsDone region.old.value region.new.value (λ old new. (c : Chunk) × HasBegunDeletion old new base c
        × IsReported acts.old acts.new result.count (log_of_delete old.region.marked.marks base c.length)) }
    // The acts in the buffer, up to the stamp, are then pending.
    ensures pending { (v : MarkedChunk) → result.fault ≡ 0 → IsDone region.old.value region.new.value
        (λ old new. ReportsPending old new v acts.old acts.new result.count) }
    ensures untouched { 0 < result.fault → acts.new ≡ acts.old }
    ensures unchanged { 0 < result.fault → region.new.value ≡ region.old.value }
    ensures at { result.at ≡ 0 }
    // Each refusal is returned exactly when it is due.
    ensures refused { 0 < result.fault → IsNumberedRefusal region.old.value (λ h f. MayRefuseBegin h base (length acts.old) f)
        retire_number retire_wanted result.fault result.count }
{
    let Some(mut handle) = region.take(alloc) else {
        return no_change(NO_HANDLE, 0);
    };
    let change = begin(&mut handle, base, acts);
    *region = NcRegion::of(handle);
    change
}

/// The last call of a deletion: the chunk is deleted, and its stamp drawn. It takes no memory, and while a deletion is under
/// way it is never refused.
#[unsafe(no_mangle)]
pub extern "C" fn nc_region_end_delete(alloc: Global, region: &mut NcRegion) -> NcStamp
    ensures ended { result.fault ≡ 0 → IsDone region.old.value region.new.value (λ old new. HasEndedDeletion old new result.stamp) }
    // Only the stamp is pending, which the library has drawn itself.
    ensures pending { (seats : ℕ) → result.fault ≡ 0 → IsDone region.old.value region.new.value (DoesItself seats) }
    ensures unchanged { 0 < result.fault → (result.stamp ≡ 0) × (region.new.value ≡ region.old.value) }
    ensures refused { 0 < result.fault → ((result.fault ≡ NO_HANDLE) × (region.old.value ≡ None))
        ⊎ ((result.fault ≡ NOT_BEGUN) × ((h : RegionHandleState) × (region.old.value ≡ Some h) × (h.begun ≡ None))) }
{
    let Some(mut handle) = region.take(alloc) else {
        return NcStamp {
            stamp: 0,
            fault: NO_HANDLE,
        };
    };
    let ended = handle.end_delete();
    *region = NcRegion::of(handle);
    match ended {
        Some(stamp) => NcStamp { stamp, fault: 0 },
        None => NcStamp {
            stamp: 0,
            fault: NOT_BEGUN,
        },
    }
}

/// Checks in for each seat not given out yet, and then frees the chunks that are due. Returns their number. It puts no byte
/// and takes no memory.
#[unsafe(no_mangle)]
pub extern "C" fn nc_region_reclaim(alloc: Global, region: &mut NcRegion) -> NcCount
    ensures reclaimed { result.fault ≡ 0 → IsDone region.old.value region.new.value (λ old new. HasReclaimed old new result.count) }
    // The library has made all that is pending itself, first for the seats not given out.
    ensures pending { (seats : ℕ) → result.fault ≡ 0 → IsDone region.old.value region.new.value
        (λ old new. (met : RegionHandleState) × DoesItself seats old met × DoesItself seats met new) }
    ensures unchanged { 0 < result.fault → (result.count ≡ 0) × (region.new.value ≡ region.old.value) }
    ensures refused { 0 < result.fault → ((result.fault ≡ NO_HANDLE) × (region.old.value ≡ None))
        ⊎ ((result.fault ≡ UNDER_WAY) × ((h : RegionHandleState) × (region.old.value ≡ Some h) × IsSome h.begun)) }
{
    let Some(mut handle) = region.take(alloc) else {
        return NcCount {
            fault: NO_HANDLE,
            count: 0,
        };
    };
    let freed = handle.reclaim();
    *region = NcRegion::of(handle);
    match freed {
        Some(count) => NcCount { fault: 0, count },
        None => NcCount {
            fault: UNDER_WAY,
            count: 0,
        },
    }
}
