//! The number of each refusal of a call on a handle, out of `fault_numbers`.

ghost use Rattle.std.specs.Prelude.{◌≡◌};
ghost use Rattle.nc_host.specs.Shown.{refused_patch_number};
ghost use Rattle.nc_host.specs.Handles.{new_number, seat_number, load_number, load_wanted, patch_number, patch_wanted, retire_number, retire_wanted};

use crate::fault_numbers::{
    BAD_SEATS, BAD_SIZE, FULL, NO_CHUNK, NO_ROOM, NO_SEAT, OCCUPIED, OUT_OF_MEMORY, PATCH_BAD_SPAN,
    PATCH_BAD_TARGET, PATCH_BOUNDARIES, PATCH_NOT_LIVE, PATCH_NOT_PERMITTED, PATCH_PAIR_TOUCHED,
    UNDER_WAY, WRONG_LIMIT,
};
use nc_host_handles::{LoadFault, NewFault, PatchFault, RetireFault, SeatFault};
use nc_region::{CreateFault, DeleteFault, ModifyFault};

/// The number of a refusal to make a region.
pub(crate) fn new_number(fault: NewFault) -> u32
    ensures { result ≡ new_number fault }
{
    match fault {
        NewFault::BadSeats => BAD_SEATS,
        NewFault::BadSize => BAD_SIZE,
        NewFault::OutOfMemory => OUT_OF_MEMORY,
    }
}

/// The number of a refusal to give a seat.
pub(crate) fn seat_number(fault: SeatFault) -> u32
    ensures { result ≡ seat_number fault }
{
    match fault {
        SeatFault::NoneLeft => NO_SEAT,
        SeatFault::OutOfMemory => OUT_OF_MEMORY,
    }
}

/// The number of a refused creation, with the number of acts needed if there is no room.
pub(crate) fn load_numbers(fault: LoadFault) -> (u32, usize)
    ensures { (result.0 ≡ load_number fault) × (result.1 ≡ load_wanted fault) }
{
    match fault {
        LoadFault::Underway => (UNDER_WAY, 0),
        LoadFault::NoRoom(wanted) => (NO_ROOM, wanted),
        LoadFault::Refused(CreateFault::WrongLimit) => (WRONG_LIMIT, 0),
        LoadFault::Refused(CreateFault::Occupied) => (OCCUPIED, 0),
        LoadFault::Refused(CreateFault::OutOfMemory) => (OUT_OF_MEMORY, 0),
    }
}

/// The number of a patch's fault.
fn refused_patch_number(fault: ModifyFault) -> u32
    ensures { result ≡ refused_patch_number fault }
{
    match fault {
        ModifyFault::BadSpan => PATCH_BAD_SPAN,
        ModifyFault::NotLive => PATCH_NOT_LIVE,
        ModifyFault::NotPermitted => PATCH_NOT_PERMITTED,
        ModifyFault::Boundaries => PATCH_BOUNDARIES,
        ModifyFault::PairTouched => PATCH_PAIR_TOUCHED,
        ModifyFault::BadTarget => PATCH_BAD_TARGET,
    }
}

/// The number of a refused patch, with the number of acts needed if there is no room.
pub(crate) fn patch_numbers(fault: PatchFault) -> (u32, usize)
    ensures { (result.0 ≡ patch_number fault) × (result.1 ≡ patch_wanted fault) }
{
    match fault {
        PatchFault::Underway => (UNDER_WAY, 0),
        PatchFault::NoRoom(wanted) => (NO_ROOM, wanted),
        PatchFault::Refused(fault) => (refused_patch_number(fault), 0),
    }
}

/// The number of a deletion that doesn't begin, with the number of acts needed if there is no room.
pub(crate) fn retire_numbers(fault: RetireFault) -> (u32, usize)
    ensures { (result.0 ≡ retire_number fault) × (result.1 ≡ retire_wanted fault) }
{
    match fault {
        RetireFault::Underway => (UNDER_WAY, 0),
        RetireFault::NoRoom(wanted) => (NO_ROOM, wanted),
        RetireFault::Refused(DeleteFault::NoChunk) => (NO_CHUNK, 0),
        RetireFault::Refused(DeleteFault::GensFull) => (FULL, 0),
    }
}
