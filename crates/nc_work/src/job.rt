//! Jobs and their verdicts.

use nc_vet::{VetFault, Vetted};

/// A chunk to be vetted: its base, the limit of its region, and its bytes.
#[derive(Drop)]
pub struct Job {
    pub base: u32,
    pub limit: u32,
    pub code: Vec<u8>,
}

/// The result of `vet` for a job.
pub type Verdict = Result<Vetted, (Vec<u8>, VetFault)>;
