//! Why a report isn't finished.

use thiserror::Error;

/// Why a report isn't finished.
#[derive(Clone, Copy, Debug, Drop, PartialEq, Eq, Error)]
pub enum ReportFault {
    /// No region can have this number of bundles.
    #[error("bad size")]
    BadSize,
    /// There was no memory for vetting or for the text.
    #[error("out of memory")]
    OutOfMemory,
    /// The writer failed, or accepted none of the bytes offered.
    #[error("write failed")]
    WriteFailed,
}
