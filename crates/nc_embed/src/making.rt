//! The seats, and the region over the host's own acts.

ghost use Rattle.std.specs.Prelude.{◌≡◌};
ghost use Rattle.nc_region.specs.Region.{IsNew};

use crate::code::BUNDLES;
use crate::fault::HostFault;
use crate::host;
use crate::image::Image;
use crate::loading::loaded;
use nc_gens::{Gens, Keeper, Pass};
use nc_region::{Acts, SharedOf};
use std::alloc::Global;
use std::fmt::Display;
use std::sync::Wait;
use std::thread::Threads;

/// Runs the example in a region over these acts, with two passes.
fn run_over<R: Threads + Wait + Print + Sync, A: Acts + Display + Drop + Send>(
    rt: &R,
    alloc: Global,
    acts: A,
    gens: &Gens,
    one: Pass,
    other: Pass,
) -> Result<(), HostFault>
    requires new { IsNew (A.marked acts) }
    requires keeper { (A.keeper acts).table ≡ gens.now }
    requires passes { (one.table ≡ gens.now) × (other.table ≡ gens.now) }
{
    match loaded(rt, alloc, acts) {
        Ok(region) => host::run(rt, alloc, &SharedOf::over(region, gens), one, other),
        Err(fault) => Err(fault),
    }
}

/// Runs the example in the host's own memory, with two passes.
fn run_with<R: Threads + Wait + Print + Sync>(
    rt: &R,
    alloc: Global,
    gens: &Gens,
    keeper: Keeper,
    one: Pass,
    other: Pass,
) -> Result<(), HostFault>
    requires keeper { keeper.table ≡ gens.now }
    requires passes { (one.table ≡ gens.now) × (other.table ≡ gens.now) }
{
    match Image::new(alloc, BUNDLES, gens, keeper) {
        Ok(image) => run_over(rt, alloc, image, gens, one, other),
        Err(fault) => Err(HostFault::Region(fault)),
    }
}

/// Makes the seats, and runs the example.
pub fn run<R: Threads + Wait + Print + Sync>(rt: &R, alloc: Global) -> Result<(), HostFault> {
    match Gens::new(alloc, 2) {
        Ok((gens, keeper, mut passes)) => {
            let one = passes.remove(0);
            let other = passes.remove(0);
            run_with(rt, alloc, &gens, keeper, one, other)
        }
        Err(fault) => Err(HostFault::Gens(fault)),
    }
}
