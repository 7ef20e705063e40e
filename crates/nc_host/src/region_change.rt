//! Creating and patching chunks of a region by its handle, with the acts of each change.

ghost use Rattle.std.specs.Prelude.{◌≡◌, ◌<◌, ◌⊎◌, List, None, Some, length};
ghost use Rattle.nc_text.specs.Places.{limit_of};
ghost use Rattle.nc_vet.specs.Chunk.{MarkedChunk, Piece};
ghost use Rattle.nc_acts.specs.Log.{log_of_create};
ghost use Rattle.nc_region.specs.Patch.{AreBytesOf, log_of_patch};
ghost use Rattle.nc_host_handles.specs.RegionHandle.{HasLoaded, HasPatched, RegionHandleState, IsShortForPatch, MayRefuseLoad, MayRefuseHandlePatch};
ghost use Rattle.nc_host_handles.specs.Pending.{ReportsPending};
ghost use Rattle.nc_host_handles.specs.Lent.{IsReported};
ghost use Rattle.nc_host_handles.specs.declared.fault.LoadFault.{LoadFault};
ghost use Rattle.nc_host_handles.specs.declared.fault.PatchFault.{PatchFault};
ghost use Rattle.nc_host.specs.declared.fault_numbers.TheConstants.{NO_HANDLE, OUT_OF_MEMORY};
ghost use Rattle.nc_host.specs.Handles.{IsChunkFor, IsDone, IsNumberedRefusal, IsSameButPages, load_number, load_wanted, patch_number, patch_wanted};
ghost use Rattle.nc_host.specs.Outcomes.{IsChunkFault};

use crate::fault_numbers::NO_HANDLE;
use crate::numbers::{load_numbers, patch_numbers};
use crate::region_results::{NcChange, no_change};
use crate::vet_copy::vet_copy;
use nc_host_handles::{NcAct, NcRegion, RegionHandle};
use nc_vet::Vetted;
use std::alloc::Global;

/// Creates a vetted chunk, and returns the result as numbers.
pub(crate) fn load(handle: &mut RegionHandle, vetted: Vetted, acts: &mut [NcAct]) -> NcChange
    ensures created { result.fault ≡ 0 → HasLoaded vetted handle.old handle.new }
    ensures reported { result.fault ≡ 0 → IsReported acts.old acts.new result.count (log_of_create vetted.base vetted.code) }
    ensures pending { result.fault ≡ 0 → ReportsPending handle.old handle.new vetted acts.old acts.new result.count }
    ensures untouched { 0 < result.fault → acts.new ≡ acts.old }
    ensures unchanged { 0 < result.fault → (handle.new ≡ handle.old)
        ⊎ ((result.fault ≡ OUT_OF_MEMORY) × IsSameButPages vetted.base (length vetted.code) handle.old handle.new) }
    ensures at { result.at ≡ 0 }
    ensures refused { 0 < result.fault → (f : LoadFault) × MayRefuseLoad handle.old vetted (length acts.old) f
        × (result.fault ≡ load_number f) × (result.count ≡ load_wanted f) }
{
    match handle.create(vetted, acts) {
        Ok(count) => no_change(0, count),
        Err((_vetted, fault)) => {
            let (number, wanted) = load_numbers(fault);
            no_change(number, wanted)
        }
    }
}

/// Vets a chunk and creates it, and returns the result as numbers.
fn vet_and_load(
    alloc: Global,
    handle: &mut RegionHandle,
    base: u32,
    code: &[u8],
    acts: &mut [NcAct],
) -> NcChange
    ensures created { result.fault ≡ 0 → (v : MarkedChunk) × IsChunkFor handle.old base code.now v × HasLoaded v handle.old handle.new }
    ensures reported { result.fault ≡ 0 → IsReported acts.old acts.new result.count (log_of_create base code.now) }
    ensures pending { result.fault ≡ 0 → (v : MarkedChunk) × (v.base ≡ base) × (v.code ≡ code.now)
        × ReportsPending handle.old handle.new v acts.old acts.new result.count }
    ensures untouched { 0 < result.fault → acts.new ≡ acts.old }
    ensures unchanged { 0 < result.fault → (handle.new ≡ handle.old)
        ⊎ ((result.fault ≡ OUT_OF_MEMORY) × IsSameButPages base (length code.now) handle.old handle.new) }
    ensures at { result.fault ≡ 0 → result.at ≡ 0 }
    ensures refused { 0 < result.fault → ((result.count ≡ 0)
        × IsChunkFault base (limit_of handle.old.region.marked.bytes) code.now result.fault result.at)
        ⊎ ((result.at ≡ 0) × ((v : MarkedChunk) × IsChunkFor handle.old base code.now v
        × ((f : LoadFault) × MayRefuseLoad handle.old v (length acts.old) f × (result.fault ≡ load_number f) × (result.count ≡ load_wanted f)))) }
{
    match vet_copy(alloc, base, handle.limit(), code) {
        Ok(vetted) => load(handle, vetted, acts),
        Err(verdict) => NcChange {
            fault: verdict.fault,
            at: verdict.at,
            count: 0,
        },
    }
}

/// Vets a chunk and creates it in a region, with its acts.
///
/// The acts are written into the buffer, with the serialization among them: two more than the chunk has bytes. An empty buffer
/// counts as none, and then the count is 0. A refusal changes nothing, except that a lack of memory may leave pages of the
/// chunk's span allocated.
#[unsafe(no_mangle)]
pub extern "C" fn nc_region_create(
    alloc: Global,
    region: &mut NcRegion,
    base: u32,
    code: &[u8],
    acts: &mut [NcAct],
) -> NcChange
    ensures created { result.fault ≡ 0 → IsDone region.old.value region.new.value
        (λ old new. (v : MarkedChunk) × IsChunkFor old base code.now v × HasLoaded v old new) }
    // The acts written are those of a creation, with the serialization.
    ensures reported { result.fault ≡ 0 → IsReported acts.old acts.new result.count (log_of_create base code.now) }
    // The acts in the buffer are then pending, for a chunk of this code.
    ensures pending { result.fault ≡ 0 → IsDone region.old.value region.new.value (λ old new. (v : MarkedChunk) × (v.base ≡ base)
        × (v.code ≡ code.now) × ReportsPending old new v acts.old acts.new result.count) }
    ensures untouched { 0 < result.fault → acts.new ≡ acts.old }
    ensures unchanged { 0 < result.fault → (region.new.value ≡ region.old.value)
        ⊎ ((result.fault ≡ OUT_OF_MEMORY) × IsDone region.old.value region.new.value (IsSameButPages base (length code.now))) }
    ensures at { result.fault ≡ 0 → result.at ≡ 0 }
    // Each refusal is returned when it is due: there is no region, the chunk has a fault, or the region refuses it.
    ensures refused { 0 < result.fault → ((region.old.value ≡ None) × (result ≡ record { fault = NO_HANDLE; at = 0; count = 0 }))
        ⊎ ((h : RegionHandleState) × (region.old.value ≡ Some h) × (
        ((result.count ≡ 0) × IsChunkFault base (limit_of h.region.marked.bytes) code.now result.fault result.at)
        ⊎ ((result.at ≡ 0) × ((v : MarkedChunk) × IsChunkFor h base code.now v
        × ((f : LoadFault) × MayRefuseLoad h v (length acts.old) f × (result.fault ≡ load_number f) × (result.count ≡ load_wanted f)))))) }
{
    let Some(mut handle) = region.take(alloc) else {
        return no_change(NO_HANDLE, 0);
    };
    let change = vet_and_load(alloc, &mut handle, base, code, acts);
    *region = NcRegion::of(handle);
    change
}

/// Patches a chunk, and returns the result as numbers.
fn patch(handle: &mut RegionHandle, at: u32, new: &[u8], acts: &mut [NcAct]) -> NcChange
    ensures patched { result.fault ≡ 0 → HasPatched at new.now handle.old handle.new }
    ensures allowed { result.fault ≡ 0 → ¬ IsShortForPatch (length acts.old) (length new.now) }
    ensures lent { result.fault ≡ 0 → 0 < length acts.old }
    ensures reported { result.fault ≡ 0 → (news : List Piece) → AreBytesOf new.now news
        → IsReported acts.old acts.new result.count (log_of_patch handle.old.region.marked.bytes at news) }
    ensures pending { (v : MarkedChunk) → result.fault ≡ 0 → ReportsPending handle.old handle.new v acts.old acts.new result.count }
    ensures untouched { 0 < result.fault → acts.new ≡ acts.old }
    ensures unchanged { 0 < result.fault → handle.new ≡ handle.old }
    ensures at { result.at ≡ 0 }
    ensures refused { 0 < result.fault → (f : PatchFault) × MayRefuseHandlePatch handle.old at new.now (length acts.old) f
        × (result.fault ≡ patch_number f) × (result.count ≡ patch_wanted f) }
{
    match handle.patch(at, new, acts) {
        Ok(count) => no_change(0, count),
        Err(fault) => {
            let (number, wanted) = patch_numbers(fault);
            no_change(number, wanted)
        }
    }
}

/// Patches a chunk of a region, with its acts. It takes no memory, and of the chunk it reads only the bundles of the patch and
/// of its targets.
///
/// The acts are written into the buffer, with the serializations among them: at most three for each new byte. Since no other call
/// writes them, an empty buffer is too short. A refusal changes nothing.
#[unsafe(no_mangle)]
pub extern "C" fn nc_region_patch(
    alloc: Global,
    region: &mut NcRegion,
    at: u32,
    bytes: &[u8],
    acts: &mut [NcAct],
) -> NcChange
    // No deletion was under way, and the new bytes are in place, by a lawful patch; all else is as before.
    ensures patched { result.fault ≡ 0 → IsDone region.old.value region.new.value (HasPatched at bytes.now) }
    // A buffer was lent, with room for three acts for each byte.
    ensures allowed { result.fault ≡ 0 → ¬ IsShortForPatch (length acts.old) (length bytes.now) }
    ensures lent { result.fault ≡ 0 → 0 < length acts.old }
    // The acts written are those of a patch of the region's own bytes, with the serializations.
    ensures reported { result.fault ≡ 0 → (h : RegionHandleState) (news : List Piece) → region.old.value ≡ Some h → AreBytesOf bytes.now news
        → IsReported acts.old acts.new result.count (log_of_patch h.region.marked.bytes at news) }
    // The acts in the buffer are then pending.
    ensures pending { (v : MarkedChunk) → result.fault ≡ 0 → IsDone region.old.value region.new.value
        (λ old new. ReportsPending old new v acts.old acts.new result.count) }
    ensures untouched { 0 < result.fault → acts.new ≡ acts.old }
    ensures unchanged { 0 < result.fault → region.new.value ≡ region.old.value }
    ensures at { result.at ≡ 0 }
    // Each refusal is returned exactly when it is due.
    ensures refused { 0 < result.fault → IsNumberedRefusal region.old.value (λ h f. MayRefuseHandlePatch h at bytes.now (length acts.old) f)
        patch_number patch_wanted result.fault result.count }
{
    let Some(mut handle) = region.take(alloc) else {
        return no_change(NO_HANDLE, 0);
    };
    let change = patch(&mut handle, at, bytes, acts);
    *region = NcRegion::of(handle);
    change
}
