//! Lent code that is vetted and then copied, for a creation or a handle to keep.

ghost use Rattle.std.specs.Prelude.{◌≡◌, ◌<◌, IfOk, IfErr};
ghost use Rattle.nc_host.specs.Handles.{IsVetted};
ghost use Rattle.nc_host.specs.Outcomes.{IsChunkFault};

use crate::lent_results::NcVerdict;
use crate::lent_vet::verdict_of;
use nc_vet::{VetFault, Vetted, judge};
use std::alloc::Global;

/// A copy of these bytes as a vetted chunk, or their fault.
pub(crate) fn vet_copy(
    alloc: Global,
    base: u32,
    limit: u32,
    code: &[u8],
) -> Result<Vetted, NcVerdict>
    ensures vetted { IfOk result (IsVetted base limit code.now) }
    ensures fault { IfErr result (λ e. (0 < e.fault) × IsChunkFault base limit code.now e.fault e.at) }
{
    let marks = match judge(alloc, base, limit, code) {
        Ok(marks) => marks,
        Err(fault) => return Err(verdict_of(fault)),
    };
    match code.to_vec(alloc) {
        Ok(copy) => Ok(Vetted::new(base, limit, copy, marks)),
        Err(_) => Err(verdict_of(VetFault::OutOfMemory)),
    }
}
