//! The faults for which a chunk is refused.

use thiserror::Error;

/// The fault for which a chunk is refused. An address is that of the fault in the chunk.
///
/// The faults are tested in this order, except that among `NotPermitted`, `Crosses` and `Bare` the one at the lowest
/// address is reported. `OutOfMemory` says of the chunk only that none of the first three holds.
#[derive(Clone, Copy, Debug, Drop, PartialEq, Eq, Error)]
pub enum VetFault {
    /// The base isn't a multiple of 32, or is below 00010000.
    #[error("bad base")]
    BadBase,
    /// The length is 0, or not a multiple of 32.
    #[error("bad length")]
    BadLength,
    /// The limit isn't lawful, or the chunk reaches into the last bundle below it or beyond.
    #[error("out of range")]
    OutOfRange,
    /// No permitted instruction, whole or cut off by the end of the bundle, begins here.
    #[error("not permitted at {at:08x}")]
    NotPermitted { at: u32 },
    /// The bytes up to the end of the bundle are the beginning of an instruction, but not all of it.
    #[error("crosses a bundle's end at {at:08x}")]
    Crosses { at: u32 },
    /// An indirect jump or call doesn't directly follow the mask of its register in the same bundle.
    #[error("bare indirect transfer at {at:08x}")]
    Bare { at: u32 },
    /// A direct jump, call or branch here has a target that isn't permitted.
    #[error("bad target at {at:08x}")]
    BadTarget { at: u32 },
    /// There was no memory for the marks.
    #[error("out of memory")]
    OutOfMemory,
}
