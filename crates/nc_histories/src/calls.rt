//! The calls of a region, each with a clause that says it is a call of a history.
//!
//! [`law_of_histories`](crate::law_of_histories) is about lists of calls, and `IsCall` says what a call is. Nobody has to trust
//! that `IsCall` describes what a region does. Each function here makes one call of a region, and its contract says what that call did,
//! and that its log is a call by `IsCall`. A refused call logged nothing, and is a refusal by `IsRefusal`.

ghost use Rattle.std.specs.Prelude.{◌≡◌, ℕ, List, [], ◌∷◌, length, Contains, IfOk, IfErr, OnOk, OnErr};
ghost use Rattle.nc_text.specs.Places.{limit_of};
ghost use Rattle.nc_vet.specs.Chunk.{Piece};
ghost use Rattle.nc_gens.specs.Seen.{HasMet};
ghost use Rattle.nc_list.specs.declared.chunk.Chunk.{Chunk};
ghost use Rattle.nc_acts.specs.Log.{Logs, log_of_create};
ghost use Rattle.nc_region.specs.Region.{IsCreated, IsRefused, MayRefuse, Meets};
ghost use Rattle.nc_region.specs.Patch.{AreBytesOf, IsPatch, IsPatched, MayRefusePatch, log_of_patch};
ghost use Rattle.nc_region.specs.Deletion.{IsDeleted, MayRefuseDelete, IsReclaimed, HasProgressed};
ghost use Rattle.nc_region.specs.schedules.Events.{Event};
ghost use Rattle.nc_region.specs.Quiet.{retired_spans};
ghost use Rattle.nc_histories.specs.Calls.{no_details};
ghost use Rattle.nc_histories.specs.Histories.{IsCall, LogsCall, LogsRefusal};

use nc_gens::Pass;
use nc_region::{Acts, CreateFault, DeleteFault, ModifyFault, RegionOf};
use nc_vet::Vetted;

/// [`RegionOf::create`]. Its log is a call of a history, in which the span gets the chunk's marks.
pub fn create<A: Acts + Drop>(
    region: &mut RegionOf<A>,
    vetted: Vetted,
) -> Result<(), (Vetted, CreateFault)>
    // As `RegionOf::create` ensures it.
    ensures created { OnOk result (IsCreated region.old region.new vetted) }
    ensures log { OnOk result (Logs region.old.logged region.new.logged (log_of_create vetted.base vetted.code)) }
    ensures free { OnOk result ((vetted.limit ≡ limit_of region.old.marked.bytes)
        × ¬ Meets vetted.base (length vetted.code) region.old.chunks) }
    ensures unchanged { IfErr result (λ e. (e.0 ≡ vetted) × IsRefused region.old region.new vetted e.1) }
    ensures due { IfErr result (λ e. MayRefuse region.old vetted e.1) }
    ensures call { (seats : ℕ) → OnOk result (LogsCall seats (record no_details { marks = vetted.marks }) region.old region.new) }
    ensures refused { (seats : ℕ)
        → OnErr result (LogsRefusal region.old region.new × LogsCall seats no_details region.old region.new) }
{
    // Called for its postconditions.
    let _facts = vetted.code();
    region.create(vetted)
}

/// [`RegionOf::modify`]. Its log is a call of a history.
pub fn patch<A: Acts + Drop>(
    region: &mut RegionOf<A>,
    at: u32,
    new: &[u8],
) -> Result<(), ModifyFault>
    // As `RegionOf::modify` ensures it.
    ensures patched { OnOk result (IsPatched region.old region.new at new.now) }
    ensures log { OnOk result ((news : List Piece) → AreBytesOf new.now news
        → Logs region.old.logged region.new.logged (log_of_patch region.old.marked.bytes at news)) }
    ensures lawful { OnOk result (IsPatch region.old at new.now) }
    ensures unchanged { IfErr result (λ e. region.new ≡ region.old) }
    ensures due { IfErr result (MayRefusePatch region.old at new.now) }
    ensures call { (seats : ℕ) → LogsCall seats no_details region.old region.new }
    ensures refused { OnErr result (LogsRefusal region.old region.new) }
{
    region.modify(at, new)
}

/// [`RegionOf::delete`]. Its log is a call of a history, in which the span of the deleted chunk is retired.
pub fn delete<A: Acts + Drop>(region: &mut RegionOf<A>, base: u32) -> Result<u64, DeleteFault>
    // As `RegionOf::delete` ensures it.
    ensures deleted { IfOk result (IsDeleted region.old region.new base) }
    ensures unchanged { OnErr result (region.new ≡ region.old) }
    ensures due { IfErr result (MayRefuseDelete region.old base) }
    ensures call { (seats : ℕ) → OnOk result ((c : Chunk) × Contains region.old.chunks c × (c.base ≡ base)
        × LogsCall seats (record no_details { base = base; len = c.length }) region.old region.new) }
    ensures refused { (seats : ℕ)
        → OnErr result (LogsRefusal region.old region.new × LogsCall seats no_details region.old region.new) }
{
    region.delete(base)
}

/// [`RegionOf::reclaim`]. Its log is a call of a history: it looks at each seat, and frees spans of retired chunks.
pub fn reclaim<A: Acts + Drop>(region: &mut RegionOf<A>) -> u32
    // As `RegionOf::reclaim` ensures it.
    ensures reclaimed { IsReclaimed region.old region.new result }
    ensures progress { HasProgressed region.new }
    ensures call { (seats : ℕ)
        → LogsCall seats (record no_details { seats = seats; spans = retired_spans region.old.chunks }) region.old region.new }
{
    region.reclaim()
}

/// [`RegionOf::meet`]. It is a call of a history, in which the keeper looks at the pass's seat; it logs nothing.
pub fn meet<A: Acts + Drop>(region: &mut RegionOf<A>, pass: &mut Pass)
    requires { pass.old.table ≡ region.old.keeper.table }
    // As `RegionOf::meet` ensures it.
    ensures met { HasMet pass.old region.old.keeper pass.new region.new.keeper }
    ensures others { region.new ≡ record region.old { keeper = region.new.keeper } }
    ensures call { (seats : ℕ) → IsCall seats region.old region.new (Event.Looks pass.old.seat ∷ []) }
    ensures logged { region.new.logged ≡ region.old.logged }
{
    region.meet(pass)
}
