//! The refusals of the calls.

use thiserror::Error;

/// Why no table was made.
#[derive(Clone, Copy, Debug, PartialEq, Eq, Error)]
pub enum GensFault {
    /// The number of seats is not in 1 to [`MOST_SEATS`](crate::MOST_SEATS).
    #[error("bad seats")]
    BadSeats,
    /// An allocation was refused.
    #[error("out of memory")]
    OutOfMemory,
}

/// The generation is the last one, 2^62.
#[derive(Clone, Copy, Debug, PartialEq, Eq, Error)]
#[error("the last generation is reached")]
pub struct GensFull;
