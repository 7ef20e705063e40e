//! The refusals of vetting.

use thiserror::Error;

/// Why no job was vetted. The jobs are given back unchanged.
#[derive(Clone, Copy, Debug, Drop, PartialEq, Eq, Error)]
pub enum WorkFault {
    /// The number of workers isn't in 1 to 16.
    #[error("bad workers")]
    BadWorkers,
    /// There was no memory for the verdicts.
    #[error("out of memory")]
    OutOfMemory,
}
