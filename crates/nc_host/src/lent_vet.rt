//! The verdict on a chunk.

ghost use Rattle.std.specs.Prelude.{◌≡◌, ◌<◌, ◌≤◌, ◌⊎◌, List, IfOk, IfErr};
ghost use Rattle.nc_decode.specs.declared.instruction.Mark.{Mark};
ghost use Rattle.nc_vet.specs.Listed.{listed};
ghost use Rattle.nc_host.specs.declared.fault_numbers.TheConstants.{NO_ROOM, OUT_OF_MEMORY};
ghost use Rattle.nc_host.specs.Shown.{fault_number, fault_place};
ghost use Rattle.nc_host.specs.Outcomes.{IsAccepted, IsOutcome};

use crate::fault_numbers::{
    BAD_BASE, BAD_LENGTH, BAD_TARGET, BARE, CROSSES, NO_ROOM, NOT_PERMITTED, OUT_OF_MEMORY,
    OUT_OF_RANGE,
};
use crate::lent_results::NcVerdict;
use nc_vet::{Marks, VetFault, judge};
use std::alloc::Global;

/// A fault as a host reads it.
pub(crate) fn verdict_of(fault: VetFault) -> NcVerdict
    ensures { result ≡ record { fault = fault_number fault; at = fault_place fault } }
{
    let (fault, at) = match fault {
        VetFault::BadBase => (BAD_BASE, 0),
        VetFault::BadLength => (BAD_LENGTH, 0),
        VetFault::OutOfRange => (OUT_OF_RANGE, 0),
        VetFault::NotPermitted { at } => (NOT_PERMITTED, at),
        VetFault::Crosses { at } => (CROSSES, at),
        VetFault::Bare { at } => (BARE, at),
        VetFault::BadTarget { at } => (BAD_TARGET, at),
        VetFault::OutOfMemory => (OUT_OF_MEMORY, 0),
    };
    NcVerdict { fault, at }
}

/// The marks of a valid chunk, if there is the room wanted; else the outcome.
pub(crate) fn admit(
    alloc: Global,
    base: u32,
    limit: u32,
    code: &[u8],
    wanted: usize,
    room: usize,
) -> Result<Marks, NcVerdict>
    ensures valid { IfOk result (λ marks. IsAccepted base limit code.now (listed code.now marks) × (wanted ≤ room)) }
    ensures fault { IfErr result (λ v. (0 < v.fault) × IsOutcome base limit code.now wanted room v.fault v.at) }
    ensures exact { (marks : List Mark) → IsAccepted base limit code.now marks
        → IfErr result (λ v. (v.fault ≡ OUT_OF_MEMORY) ⊎ ((v.fault ≡ NO_ROOM) × (room < wanted))) }
{
    match judge(alloc, base, limit, code) {
        Ok(marks) if wanted <= room => Ok(marks),
        Ok(_) => Err(NcVerdict {
            fault: NO_ROOM,
            at: 0,
        }),
        Err(fault) => Err(verdict_of(fault)),
    }
}

/// Vets a chunk in place: 0 for a valid one, else its fault.
///
/// The rules and the order of the faults are those of `nc_vet::vet`. Memory is taken for the marks, and given back.
#[unsafe(no_mangle)]
pub extern "C" fn nc_host_vet(alloc: Global, base: u32, limit: u32, code: &[u8]) -> NcVerdict
    ensures outcome { IsOutcome base limit code.now 0 0 result.fault result.at }
    // A valid chunk is refused only for lack of memory.
    ensures valid { (marks : List Mark) → IsAccepted base limit code.now marks
        → (result.fault ≡ 0) ⊎ (result.fault ≡ OUT_OF_MEMORY) }
{
    match admit(alloc, base, limit, code, 0, 0) {
        Ok(_marks) => NcVerdict { fault: 0, at: 0 },
        Err(verdict) => verdict,
    }
}
