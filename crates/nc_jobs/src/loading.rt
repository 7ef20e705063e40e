//! Loading a chunk into a region.

use crate::digest::Digest;
use nc_host_handles::{NcAct, RegionHandle};
use nc_vet::vet;

/// An act that stands for none.
pub const NONE: NcAct = NcAct {
    kind: 0,
    at: 0,
    value: 0,
};

/// Vets the code of a chunk, creates it, and writes the runs of its creation into a buffer. It returns their number, or nothing
/// if one of these three is refused; then it adds to the digest which.
pub fn load(
    handle: &mut RegionHandle,
    digest: &mut Digest,
    base: u32,
    code: Vec<u8>,
    runs: &mut [NcAct],
) -> Option<usize> {
    let Ok(vetted) = vet(base, handle.limit(), code) else {
        digest.add(1);
        return None;
    };
    if handle.create(vetted, &mut []).is_err() {
        digest.add(2);
        return None;
    }
    let Ok(count) = handle.creation_runs(base, runs) else {
        digest.add(3);
        return None;
    };
    Some(count)
}
