//! Checking in for seats that haven't been given out.

ghost use Rattle.std.specs.Prelude.{◌≡◌, ◌≤◌, ◌<◌, [], ◌∷◌, All, length, map, slice_index};
ghost use Rattle.nc_gens.specs.declared.view.WordStep.{WordStep};
ghost use Rattle.nc_gens.specs.Seen.{Raised, PassState, KeeperSteps};
ghost use Rattle.nc_histories.specs.Steps.{word_steps};
ghost use Rattle.nc_host_handles.specs.RegionHandle.{IsIn, meetings};

use crate::region_handle::HandleActs;
use nc_gens::{Gens, Pass};
use nc_region::RegionOf;

/// Checks in for a pass whose seat no thread has, and lets the region's keeper learn of it.
fn attend_one(region: &mut RegionOf<HandleActs>, gens: &Gens, pass: &mut Pass)
    requires region { region.old.keeper.table ≡ gens.now }
    requires pass { pass.old.table ≡ gens.now }
    ensures same { (pass.new.table ≡ pass.old.table) × (pass.new.seat ≡ pass.old.seat) }
    ensures others { region.new ≡ record region.old { keeper = region.new.keeper } }
    ensures table { region.new.keeper.table ≡ region.old.keeper.table }
    ensures generation { region.new.keeper.numbers.generation ≡ region.old.keeper.numbers.generation }
    ensures raised { Raised region.old.keeper.numbers.bounds region.new.keeper.numbers.bounds }
    ensures inside { pass.old.seat < length region.new.keeper.numbers.bounds }
    ensures bound { region.old.keeper.numbers.generation ≤ slice_index region.new.keeper.numbers.bounds pass.old.seat }
    ensures steps { KeeperSteps region.old.keeper region.new.keeper (WordStep.TookWord pass.old.seat ∷ WordStep.TookWord pass.old.seat ∷ []) }
{
    region.meet(pass); // The pass learns the generation,
    gens.check_in(pass); // stores it,
    region.meet(pass); // and the keeper learns that.
}

/// Checks in for passes whose seats no thread has, and lets the region's keeper learn of it.
pub(crate) fn attend(region: &mut RegionOf<HandleActs>, gens: &Gens, passes: &mut [Pass])
    requires region { region.old.keeper.table ≡ gens.now }
    requires passes { All (λ p. p.table ≡ gens.now) passes.old }
    ensures tables { All (λ p. p.table ≡ gens.now) passes.new }
    ensures seats { map (λ (p : PassState). p.seat) passes.new ≡ map (λ (p : PassState). p.seat) passes.old }
    ensures others { region.new ≡ record region.old { keeper = region.new.keeper } }
    ensures table { region.new.keeper.table ≡ region.old.keeper.table }
    ensures generation { region.new.keeper.numbers.generation ≡ region.old.keeper.numbers.generation }
    ensures raised { Raised region.old.keeper.numbers.bounds region.new.keeper.numbers.bounds }
    ensures steps { KeeperSteps region.old.keeper region.new.keeper (word_steps (meetings passes.old)) }
    ensures unmet { passes.old ≡ [] → region.new ≡ region.old }
    ensures outside { All (IsIn region.new region.old.keeper.numbers.generation) passes.new }
{
    for i in 0..passes.len() {
        attend_one(region, gens, &mut passes[i]);
    }
}
