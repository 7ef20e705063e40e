//! Why a run ended early.

use thiserror::Error;

/// Why a run ended early.
#[derive(Clone, Copy, Debug, PartialEq, Eq, Error)]
pub enum ReplayFault {
    /// The reader failed, or had not ended after 2^64 - 1 reads.
    #[error("read failed")]
    ReadFailed,
    /// The writer failed, or accepted none of the bytes offered.
    #[error("write failed")]
    WriteFailed,
    /// There was no memory for a line, its reply or the region.
    #[error("out of memory")]
    OutOfMemory,
    /// No region can have this number of bundles.
    #[error("bad size")]
    BadSize,
    /// The number of seats isn't in 1 to 256.
    #[error("bad seats")]
    BadSeats,
    /// The number of workers isn't in 1 to 16.
    #[error("bad workers")]
    BadWorkers,
}
