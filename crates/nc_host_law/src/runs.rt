//! The law of runs.

ghost use Rattle.std.specs.Prelude.{◌≡◌, ℕ, List, Some, take};
ghost use Rattle.nc_vet.specs.Chunk.{MarkedChunk, IsValid};
ghost use Rattle.nc_list.specs.declared.chunk.Chunk.{Chunk};
ghost use Rattle.nc_histories.specs.Calls.{create_events};
ghost use Rattle.nc_host_acts.specs.declared.act.NcAct.{NcAct};
ghost use Rattle.nc_host_handles.specs.RegionHandle.{RegionHandleState, IsLiveAt, HasBegunDeletion, HasLoaded};
ghost use Rattle.nc_host_handles.specs.Lent.{bytes_of_span};
ghost use Rattle.nc_host_handles.specs.RunCalls.{AreCreationRuns, AreDeletionRuns};
ghost use Rattle.nc_host_handles.specs.Pending.{IsHandleCall, events_pending};
ghost use Rattle.nc_host_law.specs.Hosts.{Host, IsReached};

/// Suppose that a host makes a creation, or the first call of a deletion, without a buffer, and asks for its acts as runs before it
/// does anything else. Then the runs say what is pending after that call. Until the next call that changes the region, and while a
/// deletion is under way, the runs say what the host may make again. The function does nothing when called.
pub fn law_of_runs()
    ensures creation { (bundles seats : ℕ) (host : Host) (new : RegionHandleState) (v : MarkedChunk) (c : Chunk) (lent now : List NcAct)
        (count : ℕ) → IsReached bundles seats host → IsValid v → HasLoaded v host.handle new → IsLiveAt new.region.chunks v.base c
        → AreCreationRuns new c lent now count → IsHandleCall seats host.handle new (events_pending v (take count now)) }
    ensures deletion { (seats : ℕ) (old new : RegionHandleState) (base : ℕ) (v : MarkedChunk) (c : Chunk) (lent now : List NcAct) (count : ℕ)
        → HasBegunDeletion old new base c → AreDeletionRuns new c lent now count → IsHandleCall seats old new (events_pending v (take count now)) }
    ensures created_again { (bundles seats : ℕ) (host : Host) (v : MarkedChunk) (c : Chunk) (lent now : List NcAct) (count : ℕ)
        → IsReached bundles seats host → host.announced ≡ create_events v → c.base ≡ v.base
        → bytes_of_span host.handle.region.marked.bytes c.base c.length ≡ v.code → AreCreationRuns host.handle c lent now count
        → IsReached bundles seats (record host { pending = events_pending v (take count now) }) }
    ensures again { (bundles seats : ℕ) (host : Host) (v : MarkedChunk) (c : Chunk) (lent now : List NcAct) (count : ℕ)
        → IsReached bundles seats host → host.handle.begun ≡ Some c → AreDeletionRuns host.handle c lent now count
        → IsReached bundles seats (record host { pending = events_pending v (take count now) }) }
{}
