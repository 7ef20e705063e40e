//! The results of the calls on handles: structs with the layout that C reads.

ghost use Rattle.std.specs.Prelude.{◌≡◌};
ghost use Rattle.nc_host.specs.Looks.{no_chunk, no_place};
ghost use Rattle.nc_host.specs.Walked.{no_walk};

/// A verdict on a change, and the number of its acts.
#[repr(C)]
#[derive(Clone, Copy)]
pub struct NcChange {
    /// 0, or the number of the fault.
    pub fault: u32,
    /// The address of the fault, for a fault that has one, else 0.
    pub at: u32,
    /// The number of elements written. If the buffer has no room, a length that is enough. Otherwise 0.
    pub count: usize,
}

/// The stamp of a deletion.
#[repr(C)]
#[derive(Clone, Copy)]
pub struct NcStamp {
    /// The stamp, or 0.
    pub stamp: u64,
    /// 0, or the number of the fault.
    pub fault: u32,
}

/// A number of chunks.
#[repr(C)]
#[derive(Clone, Copy)]
pub struct NcCount {
    /// 0, or the number of the fault.
    pub fault: u32,
    /// The number, or 0.
    pub count: u32,
}

/// A chunk of a region's list.
#[repr(C)]
#[derive(Clone, Copy)]
pub struct NcChunk {
    /// The stamp of a retired chunk, else 0.
    pub stamp: u64,
    /// 0, or the number of the fault; then all other fields are 0.
    pub fault: u32,
    /// The address of its first byte.
    pub base: u32,
    /// The number of its bytes.
    pub length: u32,
    /// 1 for a retired chunk, else 0.
    pub retired: u32,
}

/// The byte and the mark at an address.
#[repr(C)]
#[derive(Clone, Copy)]
pub struct NcPlace {
    /// 0, or the number of the fault; then all other fields are 0.
    pub fault: u32,
    /// The byte.
    pub byte: u32,
    /// The number of the mark.
    pub mark: u32,
}

/// A walk through a region's text.
#[repr(C)]
#[derive(Clone, Copy)]
pub struct NcWalk {
    /// The number of places written. If the buffer has no room, the number of all places. Otherwise 0.
    pub count: usize,
    /// 0, or the number of the fault.
    pub fault: u32,
    /// How it ended: 1 at a stop, 2 below the region, 3 by an indirect jump or call to the limit or above it, 4 when no choice
    /// was left; 0 if there is a fault.
    pub end: u32,
}

/// No walk, for this reason.
pub(crate) fn no_walk(fault: u32) -> NcWalk
    ensures { result ≡ no_walk fault }
{
    NcWalk {
        count: 0,
        fault,
        end: 0,
    }
}

/// No chunk, for this reason.
pub(crate) fn no_chunk(fault: u32) -> NcChunk
    ensures { result ≡ no_chunk fault }
{
    NcChunk {
        stamp: 0,
        fault,
        base: 0,
        length: 0,
        retired: 0,
    }
}

/// No place, for this reason.
pub(crate) fn no_place(fault: u32) -> NcPlace
    ensures { result ≡ no_place fault }
{
    NcPlace {
        fault,
        byte: 0,
        mark: 0,
    }
}

/// A result without an address: 0 or the number of a fault, and the count.
pub(crate) fn no_change(fault: u32, count: usize) -> NcChange
    ensures { result ≡ record { fault = fault; at = 0; count = count } }
{
    NcChange {
        fault,
        at: 0,
        count,
    }
}
