//! The seats of a region that owns its table: each is given out once, and until then the region checks in for it.

ghost use Rattle.std.specs.Prelude.{◌≡◌, ◌≤◌, ◌<◌, ◌↔◌, ℕ, [], All, IfOk, IfErr, IfSome, IsErrOf, IsNone, IsSome, OnErr, OnSome, length, slice_index};
ghost use Rattle.std.specs.Arc.{arc_value};
ghost use Rattle.nc_gens.specs.Seen.{Raised};
ghost use Rattle.nc_host_handles.specs.Pending.{DoesItself};
ghost use Rattle.nc_host_handles.specs.RegionHandle.{RegionHandleState, HasGiven, HasReclaimed, MayRefuseSeat};
ghost use Rattle.nc_host_handles.specs.declared.fault.SeatFault.{SeatFault};

use crate::attending::attend;
use crate::fault::SeatFault;
use crate::region_handle::RegionHandle;
use crate::seat_handle::SeatHandle;
use nc_gens::{Gens, Pass};
use nc_region::Acts;
use std::alloc::Global;
use std::sync::Arc;

/// The seat of a pass in a box, with a share of its table. If there is no memory, the pass is returned.
fn boxed(
    alloc: Global,
    gens: &Arc<Gens, Global>,
    pass: Pass,
) -> Result<Box<SeatHandle, Global>, Pass>
    requires { pass.table ≡ arc_value gens.now }
    ensures boxed { IfOk result (λ handle. handle.value ≡ pass) }
    ensures back { IfErr result (λ p. p ≡ pass) }
{
    let Ok(share) = Arc::try_clone(gens) else {
        return Err(pass);
    };
    match Box::new(alloc, SeatHandle::new(share, pass)) {
        Ok(handle) => Ok(handle),
        Err(failed) => Err(failed.value.into_pass()),
    }
}

impl RegionHandle {
    /// A seat that hasn't been given out yet, in a box. A refusal leaves every pass where it was.
    pub fn seat(&mut self, alloc: Global) -> Result<Box<SeatHandle, Global>, SeatFault>
        // The last of the passes is the seat's now; all else is as before.
        ensures given { IfOk result (λ handle. HasGiven self.old self.new handle.value) }
        ensures unchanged { OnErr result (self.new ≡ self.old) }
        // If a seat is left, only a lack of memory refuses it; if none is, the refusal says so.
        ensures refused { IfErr result (MayRefuseSeat self.old) }
        ensures none_left { IsErrOf result SeatFault.NoneLeft ↔ (self.old.passes ≡ []) }
    {
        let Some(pass) = self.passes.pop() else {
            return Err(SeatFault::NoneLeft);
        };
        match boxed(alloc, &self.gens, pass) {
            Ok(handle) => Ok(handle),
            Err(pass) => {
                self.passes.push_reserved(pass);
                Err(SeatFault::OutOfMemory)
            }
        }
    }

    /// The number of seats not given out yet.
    pub fn seats_left(&self) -> usize
        ensures { result ≡ length self.now.passes }
    {
        self.passes.len()
    }

    /// Checks in for each seat not given out yet, then frees the chunks that are due, as `RegionOf::reclaim` does, and returns their
    /// number. While a deletion is under way it does nothing, and returns none. It puts no byte and takes no memory.
    pub fn reclaim(&mut self) -> Option<u32>
        // Each chunk is freed for which the seats that were given out had checked in since its deletion, or had left, at some moment
        // before the looks. No other seat delays that.
        ensures reclaimed { IfSome result (HasReclaimed self.old self.new) }
        // The library makes all that is pending itself, first for the seats not given out.
        ensures pending { (seats : ℕ) → OnSome result ((met : RegionHandleState) × DoesItself seats self.old met × DoesItself seats met self.new) }
        ensures underway { IsNone result ↔ IsSome self.old.begun }
        ensures unchanged { IsNone result → self.new ≡ self.old }
    {
        if self.begun.is_some() {
            return None;
        }
        // Called for its postconditions.
        let _facts = self.generation();
        attend(&mut self.region, &self.gens, &mut self.passes);
        Some(nc_histories::reclaim(&mut self.region))
    }
}
