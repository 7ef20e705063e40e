//! Seats by handles.

ghost use Rattle.std.specs.Prelude.{◌≡◌, ◌<◌, None};
ghost use Rattle.nc_gens.specs.Seen.{HasCheckedIn};
ghost use Rattle.nc_host.specs.declared.fault_numbers.TheConstants.{NO_HANDLE};
ghost use Rattle.nc_host.specs.Handles.{IsDone};

use crate::fault_numbers::NO_HANDLE;
use nc_host_handles::NcSeat;
use std::alloc::Global;

/// Checks in for a seat whose thread is outside the region. It takes no lock and no memory, and never waits.
#[unsafe(no_mangle)]
pub extern "C" fn nc_seat_check_in(alloc: Global, seat: &mut NcSeat) -> u32
    ensures checked_in { result ≡ 0 → IsDone seat.old.value seat.new.value HasCheckedIn }
    ensures nothing { 0 < result → (result ≡ NO_HANDLE) × (seat.old.value ≡ None) × (seat.new.value ≡ None) }
{
    let Some(mut handle) = seat.take(alloc) else {
        return NO_HANDLE;
    };
    handle.check_in();
    *seat = NcSeat::of(handle);
    0
}

/// Leaves a seat whose thread is outside the region for good. An empty handle stays empty.
#[unsafe(no_mangle)]
pub extern "C" fn nc_seat_leave(alloc: Global, seat: &mut NcSeat)
    ensures emptied { seat.new.value ≡ None }
{
    if let Some(handle) = seat.take(alloc) {
        Box::into_inner(handle).leave();
    }
}
