//! Each turn of a history is one that a host can take.

ghost use Rattle.std.specs.Prelude.{◌≡◌, ℕ, List, [], ◌∷◌, ◌++◌, None, Some, length};
ghost use Rattle.nc_decode.specs.Bundles.{limit_after};
ghost use Rattle.nc_vet.specs.Chunk.{MarkedChunk, IsValid};
ghost use Rattle.nc_region.specs.schedules.World.{first_world, seat_at};
ghost use Rattle.nc_region.specs.schedules.Events.{Event, world_after};
ghost use Rattle.nc_region.specs.Region.{IsCreated};
ghost use Rattle.nc_region.specs.Deletion.{IsDeleted};
ghost use Rattle.nc_histories.specs.Interleaving.{writers};
ghost use Rattle.nc_histories.specs.Steps.{word_steps};
ghost use Rattle.nc_histories.specs.Histories.{Turn, IsTurn};
ghost use Rattle.nc_histories.specs.Example.{start_of};
ghost use Rattle.nc_host_handles.specs.RegionHandle.{RegionHandleState, IsFirst};
ghost use Rattle.nc_host_law.specs.Hosts.{Host, IsReached};
ghost use Rattle.nc_host_law.specs.Turns.{new_host, GoesOn};

/// If nothing is pending and no deletion is under way, a host can take whatever turn a history (`IsTurn` of `nc_histories`) could take next.
/// It makes the call, and then the turn's events one by one, its threads' and its own. After any number of them the writer's events that
/// are left are pending.
///
/// So each valid chunk has a host that creates it, deletes it while a thread stands at its base, and goes on until it is about to free the
/// chunk's span. What `law_of_hosts` says of such a host isn't vacuous. The function does nothing when called.
pub fn law_of_turns()
    ensures turns { (bundles seats : ℕ) (host : Host) (before events later : List Event) (turn : Turn) → IsReached bundles seats host
        → host.pending ≡ [] → host.handle.begun ≡ None → host.world ≡ world_after (first_world (limit_after bundles) seats) before
        → host.steps ≡ word_steps before → IsTurn (limit_after bundles) seats before host.handle.region turn → turn.events ≡ events ++ later
        → GoesOn bundles seats host (record {
          handle = record host.handle { region = turn.region };
          world = world_after host.world events;
          steps = host.steps ++ word_steps events;
          pending = writers later;
          announced = writers turn.events;
        }) }
    ensures lives { (bundles : ℕ) (first : RegionHandleState) (v : MarkedChunk) → IsValid v → v.limit ≡ limit_after bundles
        → IsFirst bundles 1 first → (created deleted last : Host) × GoesOn bundles 1 (new_host bundles 1 first) created
        × IsCreated first.region created.handle.region v × GoesOn bundles 1 created deleted
        × IsDeleted created.handle.region deleted.handle.region v.base 1 × ((seat_at deleted.world 0).inside ≡ Some (start_of v))
        × GoesOn bundles 1 deleted last
        × (last.pending ≡ Event.Frees (record { base = v.base; length = length v.code; stamp = 1 }) ∷ []) }
{}
