//! Code on its way into a region: vetted first, then created as a chunk.

ghost use Rattle.std.specs.Prelude.{◌≡◌, IfOk, OnOk, IfErr};
ghost use Rattle.nc_vet.specs.Faults.{HasFault};
ghost use Rattle.nc_region.specs.Region.{IsNew};
ghost use Rattle.nc_embed.specs.Load.{IsAdmitted, IsLoaded, IsLeft, MayRefuseCode};

use crate::code::{BASE, SWITCH};
use crate::fault::{HostFault, LoadFault};
use crate::printing::print_outcome;
use nc_region::{Acts, CreateFault, RegionOf};
use nc_vet::{VetFault, Vetted, vet};
use std::alloc::Global;
use std::fmt::Display;

/// Vets code for a base and a limit. It takes no lock, however long the code is.
pub fn admit(base: u32, limit: u32, code: Vec<u8>) -> Result<Vetted, VetFault>
    // The code is a valid chunk at this base, for this limit.
    ensures admitted { IfOk result (IsAdmitted base limit code.items) }
    // The code has this fault.
    ensures refused { IfErr result (HasFault base limit code.items) }
{
    match vet(base, limit, code) {
        Ok(vetted) => Ok(vetted),
        Err((_code, fault)) => Err(fault),
    }
}

/// Vets code and creates the chunk. Afterwards the chunk is in its span, or nothing has changed, except that pages may have
/// been made.
///
/// It vets while the region is lent. If other threads wait for a lock, vet first, and take the lock for `create` only.
pub fn load<A: Acts + Drop>(
    region: &mut RegionOf<A>,
    base: u32,
    code: Vec<u8>,
) -> Result<(), LoadFault>
    // The code was a valid chunk, its bytes and marks are in its span, and all else is as before.
    ensures loaded { OnOk result (IsLoaded region.old region.new base code.items) }
    // The region is as it was, except that pages of the span may have been made if memory ran out.
    ensures unchanged { IfErr result (IsLeft region.old region.new base code.items) }
    // Each refusal is returned only if it applies.
    ensures refused { IfErr result (MayRefuseCode region.old base code.items) }
{
    let vetted = match admit(base, region.limit(), code) {
        Ok(vetted) => vetted,
        Err(fault) => return Err(LoadFault::NotAdmitted(fault)),
    };
    match region.create(vetted) {
        Ok(()) => Ok(()),
        Err((_vetted, fault)) => Err(LoadFault::NotCreated(fault)),
    }
}

/// A region over these acts, with the chunk in it.
pub fn loaded<R: Print, A: Acts + Display + Drop>(
    rt: &R,
    alloc: Global,
    acts: A,
) -> Result<RegionOf<A>, HostFault>
    requires { IsNew (A.marked acts) }
    ensures { IfOk result (λ r. r.keeper ≡ A.keeper acts) }
{
    let Ok(code) = SWITCH.to_vec(alloc) else {
        return Err(HostFault::Load(LoadFault::NotCreated(CreateFault::OutOfMemory)));
    };
    let mut region = RegionOf::over(alloc, acts);
    if let Err(fault) = load(&mut region, BASE, code) {
        return Err(HostFault::Load(fault));
    }
    print_outcome(rt, "loaded, and in the host's memory", region.acts())?;
    Ok(region)
}
