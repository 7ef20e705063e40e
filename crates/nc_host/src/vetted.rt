//! Vetted chunks by handles: vetted without a lock, and created in a region.

ghost use Rattle.std.specs.Prelude.{◌≡◌, ◌<◌, ◌⊎◌, None, Some, IfOk, IfErr, length};
ghost use Rattle.nc_vet.specs.Chunk.{MarkedChunk};
ghost use Rattle.nc_acts.specs.Log.{log_of_create};
ghost use Rattle.nc_host_handles.specs.RegionHandle.{HasLoaded, RegionHandleState, MayRefuseLoad};
ghost use Rattle.nc_host_handles.specs.Pending.{ReportsPending};
ghost use Rattle.nc_host_handles.specs.Lent.{IsReported};
ghost use Rattle.nc_host_handles.specs.declared.fault.LoadFault.{LoadFault};
ghost use Rattle.nc_host_handles.specs.declared.vetted_handle.VettedHandle.{VettedHandle};
ghost use Rattle.nc_host.specs.declared.fault_numbers.TheConstants.{HANDLE_TAKEN, NO_HANDLE, OUT_OF_MEMORY};
ghost use Rattle.nc_host.specs.Handles.{HoldsVetted, IsDone, IsSameButPages, IsVetted, load_number, load_wanted};
ghost use Rattle.nc_host.specs.Outcomes.{IsChunkFault};

use crate::fault_numbers::{HANDLE_TAKEN, NO_HANDLE};
use crate::lent_results::NcVerdict;
use crate::lent_vet::verdict_of;
use crate::numbers::load_numbers;
use crate::region_results::{NcChange, no_change};
use crate::vet_copy::vet_copy;
use nc_host_handles::{NcAct, NcRegion, NcVetted, RegionHandle, VettedHandle};
use nc_vet::VetFault;
use std::alloc::Global;

/// A copy of these bytes as a vetted chunk in a box, or their fault.
fn keep(
    alloc: Global,
    base: u32,
    limit: u32,
    code: &[u8],
) -> Result<Box<VettedHandle, Global>, NcVerdict>
    ensures vetted { IfOk result (λ boxed. (v : MarkedChunk) × (boxed.value.chunk ≡ Some v) × IsVetted base limit code.now v) }
    ensures fault { IfErr result (λ e. (0 < e.fault) × IsChunkFault base limit code.now e.fault e.at) }
{
    let vetted = match vet_copy(alloc, base, limit, code) {
        Ok(vetted) => vetted,
        Err(verdict) => return Err(verdict),
    };
    let kept = VettedHandle {
        chunk: Some(vetted),
    };
    match Box::new(alloc, kept) {
        Ok(boxed) => Ok(boxed),
        Err(_) => Err(verdict_of(VetFault::OutOfMemory)),
    }
}

/// Vets a chunk into an empty handle: the library keeps a copy of the bytes, with their marks. No region is read.
#[unsafe(no_mangle)]
pub extern "C" fn nc_vetted_new(
    alloc: Global,
    base: u32,
    limit: u32,
    code: &[u8],
    vetted: &mut NcVetted,
) -> NcVerdict
    ensures vetted { result.fault ≡ 0 → (vetted.old.value ≡ None) × HoldsVetted base limit code.now vetted.new.value }
    ensures unchanged { 0 < result.fault → vetted.new.value ≡ vetted.old.value }
    ensures at { result.fault ≡ 0 → result.at ≡ 0 }
    // A handle that isn't empty is refused; else the fault is one that the chunk has.
    ensures refused { 0 < result.fault → ((result ≡ record { fault = HANDLE_TAKEN; at = 0 }) × ((k : VettedHandle) × (vetted.old.value ≡ Some k)))
        ⊎ ((vetted.old.value ≡ None) × IsChunkFault base limit code.now result.fault result.at) }
{
    if let Some(kept) = vetted.take(alloc) {
        *vetted = NcVetted::of(kept);
        return NcVerdict {
            fault: HANDLE_TAKEN,
            at: 0,
        };
    }
    match keep(alloc, base, limit, code) {
        Ok(boxed) => {
            *vetted = NcVetted::of(boxed);
            NcVerdict { fault: 0, at: 0 }
        }
        Err(verdict) => verdict,
    }
}

/// Frees a vetted chunk that isn't loaded. An empty handle stays empty.
#[unsafe(no_mangle)]
pub extern "C" fn nc_vetted_free(alloc: Global, vetted: &mut NcVetted)
    ensures emptied { vetted.new.value ≡ None }
{
    drop(vetted.take(alloc));
}

/// Creates a vetted chunk in a region, and returns the result as numbers.
fn load_kept(handle: &mut RegionHandle, kept: &mut VettedHandle, acts: &mut [NcAct]) -> NcChange
    ensures created { result.fault ≡ 0 → (v : MarkedChunk) × (kept.old.chunk ≡ Some v) × HasLoaded v handle.old handle.new
        × IsReported acts.old acts.new result.count (log_of_create v.base v.code) }
    ensures pending { result.fault ≡ 0 → (v : MarkedChunk) × (kept.old.chunk ≡ Some v)
        × ReportsPending handle.old handle.new v acts.old acts.new result.count }
    ensures untouched { 0 < result.fault → (acts.new ≡ acts.old) × (kept.new ≡ kept.old) }
    ensures unchanged { 0 < result.fault → (handle.new ≡ handle.old) ⊎ ((result.fault ≡ OUT_OF_MEMORY)
        × ((v : MarkedChunk) × (kept.old.chunk ≡ Some v) × IsSameButPages v.base (length v.code) handle.old handle.new)) }
    ensures at { result.at ≡ 0 }
    ensures refused { 0 < result.fault → ((result.fault ≡ NO_HANDLE) × (result.count ≡ 0) × (kept.old.chunk ≡ None))
        ⊎ ((v : MarkedChunk) × (kept.old.chunk ≡ Some v) × ((f : LoadFault) × MayRefuseLoad handle.old v (length acts.old) f
        × (result.fault ≡ load_number f) × (result.count ≡ load_wanted f))) }
{
    let Some(vetted) = kept.chunk.take() else {
        return no_change(NO_HANDLE, 0);
    };
    match handle.create(vetted, acts) {
        Ok(count) => no_change(0, count),
        Err((vetted, fault)) => {
            kept.chunk = Some(vetted);
            let (number, wanted) = load_numbers(fault);
            no_change(number, wanted)
        }
    }
}

/// Creates a vetted chunk in a region, with its acts, as `nc_region_create` does; its handle is then empty. A refusal leaves
/// the chunk in its handle.
#[unsafe(no_mangle)]
pub extern "C" fn nc_region_load(
    alloc: Global,
    region: &mut NcRegion,
    vetted: &mut NcVetted,
    acts: &mut [NcAct],
) -> NcChange
    // The acts written are those of a creation, with the serialization.
    ensures created { result.fault ≡ 0 → (vetted.new.value ≡ None) × ((k : VettedHandle) × (vetted.old.value ≡ Some k)
        × ((v : MarkedChunk) × (k.chunk ≡ Some v) × IsDone region.old.value region.new.value (HasLoaded v)
        × IsReported acts.old acts.new result.count (log_of_create v.base v.code))) }
    // The acts in the buffer are then pending, for this chunk.
    ensures pending { result.fault ≡ 0 → (k : VettedHandle) × (vetted.old.value ≡ Some k) × ((v : MarkedChunk) × (k.chunk ≡ Some v)
        × IsDone region.old.value region.new.value (λ old new. ReportsPending old new v acts.old acts.new result.count)) }
    ensures untouched { 0 < result.fault → (acts.new ≡ acts.old) × (vetted.new.value ≡ vetted.old.value) }
    ensures unchanged { 0 < result.fault → (region.new.value ≡ region.old.value) ⊎ ((result.fault ≡ OUT_OF_MEMORY)
        × ((k : VettedHandle) × (vetted.old.value ≡ Some k) × ((v : MarkedChunk) × (k.chunk ≡ Some v)
        × IsDone region.old.value region.new.value (IsSameButPages v.base (length v.code))))) }
    ensures at { result.at ≡ 0 }
    // Each refusal is returned when it is due: there is no chunk or no region, or the region refuses the chunk.
    ensures refused { 0 < result.fault → ((result.fault ≡ NO_HANDLE) × (result.count ≡ 0) × ((vetted.old.value ≡ None) ⊎ ((region.old.value ≡ None)
        ⊎ ((k : VettedHandle) × (vetted.old.value ≡ Some k) × (k.chunk ≡ None))))) ⊎ ((h : RegionHandleState) × (k : VettedHandle) × (v : MarkedChunk)
        × (region.old.value ≡ Some h) × (vetted.old.value ≡ Some k) × (k.chunk ≡ Some v)
        × ((f : LoadFault) × MayRefuseLoad h v (length acts.old) f × (result.fault ≡ load_number f) × (result.count ≡ load_wanted f))) }
{
    let Some(mut kept) = vetted.take(alloc) else {
        return no_change(NO_HANDLE, 0);
    };
    let Some(mut handle) = region.take(alloc) else {
        *vetted = NcVetted::of(kept);
        return no_change(NO_HANDLE, 0);
    };
    let change = load_kept(&mut handle, &mut kept, acts);
    *region = NcRegion::of(handle);
    if change.fault > 0 {
        *vetted = NcVetted::of(kept);
    }
    change
}
