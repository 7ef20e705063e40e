//! Why a call is refused. `nc_host` turns each fault into a number that `include/nc_host.h` explains, so the types derive
//! only the traits needed for that.

use nc_region::{CreateFault, DeleteFault, ModifyFault};

/// Why no region is created. The first that applies is returned, in this order.
#[derive(Clone, Copy)]
pub enum NewFault {
    /// The number of seats isn't 1 to 256.
    BadSeats,
    /// The number of bundles doesn't give a lawful limit.
    BadSize,
    /// The allocator gave no memory.
    OutOfMemory,
}

/// Why no seat is given. The first that applies is returned, in this order.
#[derive(Clone, Copy)]
pub enum SeatFault {
    /// Every seat has been given out.
    NoneLeft,
    /// The allocator gave no memory.
    OutOfMemory,
}

/// Why a chunk isn't created. The first that applies is returned, in this order.
#[derive(Clone, Copy)]
pub enum LoadFault {
    /// A deletion is under way.
    Underway,
    /// The buffer for the acts is too short: this many elements are needed.
    NoRoom(usize),
    /// The region refuses the chunk.
    Refused(CreateFault),
}

/// Why a patch isn't made. The first that applies is returned, in this order.
#[derive(Clone, Copy)]
pub enum PatchFault {
    /// A deletion is under way.
    Underway,
    /// The buffer for the acts is too short: this many elements are needed.
    NoRoom(usize),
    /// The region refuses the patch.
    Refused(ModifyFault),
}

/// Why no deletion begins. The first that applies is returned, in this order.
#[derive(Clone, Copy)]
pub enum RetireFault {
    /// A deletion is under way.
    Underway,
    /// The region refuses the deletion.
    Refused(DeleteFault),
    /// The buffer for the acts is too short: this many elements are needed.
    NoRoom(usize),
}

/// Why the runs of a creation or of a deletion aren't written. The first that applies is returned, in this order.
#[derive(Clone, Copy)]
pub enum RunsFault {
    /// No live chunk has the base, or no deletion is under way.
    NoChunk,
    /// The buffer for the acts is too short: this many elements are needed.
    NoRoom(usize),
}
