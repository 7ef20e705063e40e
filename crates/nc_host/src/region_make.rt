//! Making and freeing regions by handles, and giving out their seats.

ghost use Rattle.std.specs.Prelude.{◌≡◌, ◌<◌, ◌≤◌, ◌⊎◌, None, Some, IfOk, IfErr};
ghost use Rattle.nc_gens.specs.Seen.{PassState};
ghost use Rattle.nc_host_handles.specs.RegionHandle.{RegionHandleState, IsFirst, MayRefuseNew, MayRefuseSeat, HasGiven};
ghost use Rattle.nc_host_handles.specs.declared.fault.NewFault.{NewFault};
ghost use Rattle.nc_host_handles.specs.declared.fault.SeatFault.{SeatFault};
ghost use Rattle.nc_host.specs.declared.fault_numbers.TheConstants.{HANDLE_TAKEN, NO_HANDLE};
ghost use Rattle.nc_host.specs.Handles.{IsDone, new_number, seat_number};

use crate::fault_numbers::{HANDLE_TAKEN, NO_HANDLE};
use crate::numbers::{new_number, seat_number};
use nc_host_handles::{NcRegion, NcSeat, NewFault, RegionHandle};
use std::alloc::Global;

/// A new region in a box.
fn make(alloc: Global, bundles: u32, seats: u32) -> Result<Box<RegionHandle, Global>, NewFault>
    ensures made { IfOk result (λ boxed. IsFirst bundles seats boxed.value) }
    ensures refused { IfErr result (MayRefuseNew bundles seats) }
{
    let handle = match RegionHandle::new(alloc, bundles, seats) {
        Ok(handle) => handle,
        Err(fault) => return Err(fault),
    };
    match Box::new(alloc, handle) {
        Ok(boxed) => Ok(boxed),
        Err(_) => Err(NewFault::OutOfMemory),
    }
}

/// Makes a region of this many bundles with this many seats, none of them given out, in an empty handle.
#[unsafe(no_mangle)]
pub extern "C" fn nc_region_new(
    alloc: Global,
    bundles: u32,
    seats: u32,
    region: &mut NcRegion,
) -> u32
    ensures made { result ≡ 0 → (region.old.value ≡ None) × ((h : RegionHandleState) × (region.new.value ≡ Some h) × IsFirst bundles seats h) }
    ensures unchanged { 0 < result → region.new.value ≡ region.old.value }
    // A handle that isn't empty is refused; else each refusal is returned when it is due.
    ensures refused { 0 < result → ((result ≡ HANDLE_TAKEN) × ((h : RegionHandleState) × (region.old.value ≡ Some h)))
        ⊎ ((region.old.value ≡ None) × ((f : NewFault) × MayRefuseNew bundles seats f × (result ≡ new_number f))) }
{
    if let Some(kept) = region.take(alloc) {
        *region = NcRegion::of(kept);
        return HANDLE_TAKEN;
    }
    match make(alloc, bundles, seats) {
        Ok(boxed) => {
            *region = NcRegion::of(boxed);
            0
        }
        Err(fault) => new_number(fault),
    }
}

/// Frees a region. Seats that were given out stay as they are until each is left. An empty handle stays empty.
#[unsafe(no_mangle)]
pub extern "C" fn nc_region_free(alloc: Global, region: &mut NcRegion)
    ensures emptied { region.new.value ≡ None }
{
    drop(region.take(alloc));
}

/// Gives a seat that hasn't been given out yet to an empty handle. A refusal leaves every pass where it was.
#[unsafe(no_mangle)]
pub extern "C" fn nc_region_seat(alloc: Global, region: &mut NcRegion, seat: &mut NcSeat) -> u32
    ensures given { result ≡ 0 → (seat.old.value ≡ None) × ((pass : PassState) × (seat.new.value ≡ Some pass)
        × IsDone region.old.value region.new.value (λ old new. HasGiven old new pass)) }
    ensures unchanged { 0 < result → (region.new.value ≡ region.old.value) × (seat.new.value ≡ seat.old.value) }
    // A seat's handle that isn't empty is refused; else an empty region's handle is; else no seat is left, or there is no memory
    // for one.
    ensures refused { 0 < result → ((result ≡ HANDLE_TAKEN) × ((pass : PassState) × (seat.old.value ≡ Some pass)))
        ⊎ ((seat.old.value ≡ None) × (((result ≡ NO_HANDLE) × (region.old.value ≡ None))
        ⊎ ((h : RegionHandleState) × (region.old.value ≡ Some h)
        × ((f : SeatFault) × MayRefuseSeat h f × (result ≡ seat_number f))))) }
{
    if let Some(kept) = seat.take(alloc) {
        *seat = NcSeat::of(kept);
        return HANDLE_TAKEN;
    }
    let Some(mut handle) = region.take(alloc) else {
        return NO_HANDLE;
    };
    let given = handle.seat(alloc);
    *region = NcRegion::of(handle);
    match given {
        Ok(boxed) => {
            *seat = NcSeat::of(boxed);
            0
        }
        Err(fault) => seat_number(fault),
    }
}
