//! Why code isn't loaded, and why the host gives up.

use nc_gens::GensFault;
use nc_region::{CreateFault, DeleteFault, ModifyFault, RegionFault, WalkFault};
use nc_vet::VetFault;
use thiserror::Error;

/// Why code isn't loaded.
#[derive(Clone, Copy, Debug, Drop, Error)]
pub enum LoadFault {
    /// The code isn't a valid chunk.
    #[error("not admitted: {0}")]
    NotAdmitted(VetFault),
    /// The region has no room for it, or memory ran out.
    #[error("not created: {0}")]
    NotCreated(CreateFault),
}

/// Why the host gives up: a fault of a call, or one that only a host has.
#[derive(Clone, Copy, Debug, Drop, Error)]
pub enum HostFault {
    #[error("no table of generations: {0}")]
    Gens(#[from] GensFault),
    #[error("no region: {0}")]
    Region(#[from] RegionFault),
    #[error("{0}")]
    Load(#[from] LoadFault),
    #[error("not patched: {0}")]
    Patch(#[from] ModifyFault),
    #[error("not deleted: {0}")]
    Delete(#[from] DeleteFault),
    #[error("not entered: {0}")]
    Walk(#[from] WalkFault),
    #[error("no thread was started")]
    NoThread,
    #[error("nothing was printed")]
    NotPrinted,
}
