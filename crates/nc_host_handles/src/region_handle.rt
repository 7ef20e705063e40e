//! A region that owns everything it needs.

ghost use Rattle.std.specs.Prelude.{◌≡◌, ◌↔◌, None, IfOk, IfErr, IfSome, IsErrOf};
ghost use Rattle.std.specs.Arc.{arc_value};
ghost use Rattle.nc_decode.specs.Bundles.{IsLawfulLimit, limit_after};
ghost use Rattle.nc_gens.specs.Seen.{AreSeats};
ghost use Rattle.nc_host_handles.specs.RegionHandle.{IsFirst, MayRefuseNew};
ghost use Rattle.nc_host_handles.specs.declared.fault.NewFault.{NewFault};

use crate::fault::NewFault;
use nc_decode::is_region_size;
use nc_gens::{Gens, Pass, are_seats};
use nc_region::{Chunk, PlainOf, RegionOf};
use nc_text::Text;
use std::alloc::Global;
use std::marker::Model;
use std::sync::Arc;

/// The acts of a handle: a text beside a share of its table of generations, and the keeper.
pub(crate) type HandleActs = PlainOf<Arc<Gens, Global>>;

/// A region with its text, a share of its table of generations, the passes not given out yet, and the chunk whose deletion
/// is under way.
#[derive(Drop)]
pub struct RegionHandle {
    pub(crate) region: RegionOf<HandleActs>,
    pub(crate) gens: Arc<Gens, Global>,
    pub(crate) passes: Vec<Pass>,
    pub(crate) begun: Option<Chunk>,
}

impl Model for RegionHandle {
    ghost use Rattle.std.specs.Prelude.{◌≡◌, All};
    ghost use Rattle.std.specs.Arc.{arc_value};
    ghost use Rattle.nc_host_handles.specs.RegionHandle.{RegionHandleState, CanEnd};

    ghost Value = { RegionHandleState };

    ghost view = { λ h. record { region = h.region; passes = h.passes.items; begun = h.begun } };

    ghost invariant = { λ h. (h.region.keeper.table ≡ arc_value h.gens)
        × All (λ p. p.table ≡ arc_value h.gens) h.passes.items × CanEnd h.begun h.region };
}

/// A new region of this lawful size with this lawful number of seats, if there is memory.
fn first(alloc: Global, bundles: u32, seats: u32) -> Option<RegionHandle>
    requires seats { AreSeats seats }
    requires lawful { IsLawfulLimit (limit_after bundles) }
    ensures { IfSome result (IsFirst bundles seats) }
{
    let Ok(text) = Text::new(alloc, bundles) else {
        return None;
    };
    let Ok((gens, keeper, passes)) = Gens::new(alloc, seats) else {
        return None;
    };
    let Some((gens, share)) = in_two_shares(alloc, gens) else {
        return None;
    };
    let region = RegionOf::over(alloc, HandleActs::new(text, share, keeper));
    Some(RegionHandle {
        region,
        gens,
        passes,
        begun: None,
    })
}

/// Two shares of a table, if there is memory.
fn in_two_shares(alloc: Global, gens: Gens) -> Option<(Arc<Gens, Global>, Arc<Gens, Global>)>
    ensures { IfSome result (λ shares. (arc_value shares.0 ≡ gens) × (arc_value shares.1 ≡ gens)) }
{
    let Ok(one) = Arc::new(alloc, gens) else {
        return None;
    };
    match Arc::try_clone(&one) {
        Ok(two) => Some((one, two)),
        Err(_) => None,
    }
}

impl RegionHandle {
    /// A region of this many bundles without a chunk, with this many seats, none of them given out. Its last bundle is the
    /// guard, which never holds a chunk. Both numbers are checked before anything is allocated.
    pub fn new(alloc: Global, bundles: u32, seats: u32) -> Result<RegionHandle, NewFault>
        ensures made { IfOk result (IsFirst bundles seats) }
        // The first two refusals are returned exactly when they are due, and the third only when neither is.
        ensures bad_seats { IsErrOf result NewFault.BadSeats ↔ ¬ AreSeats seats }
        ensures bad_size { IsErrOf result NewFault.BadSize ↔ (AreSeats seats × ¬ IsLawfulLimit (limit_after bundles)) }
        ensures refused { IfErr result (MayRefuseNew bundles seats) }
    {
        if !are_seats(seats) {
            return Err(NewFault::BadSeats);
        }
        if !is_region_size(bundles) {
            return Err(NewFault::BadSize);
        }
        match first(alloc, bundles, seats) {
            Some(handle) => Ok(handle),
            None => Err(NewFault::OutOfMemory),
        }
    }
}
