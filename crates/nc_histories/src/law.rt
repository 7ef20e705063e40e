//! The calls of a region are allowed events.

ghost use Rattle.std.specs.Prelude.{◌≡◌, ℕ, ◌≤◌, ◌++◌, List, [], All};
ghost use Rattle.nc_decode.specs.Bundles.{IsLawfulLimit};
ghost use Rattle.nc_vet.specs.Chunk.{MarkedChunk, Piece, IsValid};
ghost use Rattle.nc_text.specs.Places.{limit_of};
ghost use Rattle.nc_text.specs.MarkedText.{unused_text};
ghost use Rattle.nc_gens.specs.Rule.{last_generation};
ghost use Rattle.nc_gens.specs.Seen.{least_number};
ghost use Rattle.nc_region.specs.schedules.World.{first_world, AllStandSafe};
ghost use Rattle.nc_region.specs.schedules.Events.{Event, world_after};
ghost use Rattle.nc_region.specs.declared.fault.CreateFault.{CreateFault};
ghost use Rattle.nc_region.specs.Region.{Region, IsRegion, IsCreated, IsRefused};
ghost use Rattle.nc_region.specs.Deletion.{IsDeleted, IsReclaimed};
ghost use Rattle.nc_region.specs.Patch.{IsPatch, IsPatched, AreBytesOf};
ghost use Rattle.nc_histories.specs.Interleaving.{writers, IsKeepers, ThreadsMay};
ghost use Rattle.nc_histories.specs.Calls.{KnowsNoMore, HasLedTo, create_events, patch_events, delete_events, reclaim_events};

/// The acts of each call of a region are allowed events, whatever the threads do between them.
///
/// Suppose that a schedule has led to a region, and that a call turns it into another. Append events of which the writer's
/// are the acts that the call's contract names, and the threads' are allowed where they happen. Then all these events are
/// allowed, and the longer schedule has led to the region after the call. A refused call has no act; the pages that it made
/// aren't part of a world.
///
/// Between two calls, and before the region was made, the keeper may act by itself: it draws a stamp for no span, it looks,
/// or it meets a pass, which is a look at that pass's seat (`Looks`). Wherever the keeper looks, it is a premise that it then
/// knows no more than the world's keeper (`KnowsNoMore`): it has the same generation, and found no seat's word to be greater
/// than it is at the world's last `Looks`. [`law_of_histories`](crate::law_of_histories) has no such premise, since the keeper's
/// contracts say what its loads find. The generation is at most 2^62 for every keeper (`Keeper::generation`).
///
/// Therefore `law_of_schedules` covers the events of any sequence of calls. The function does nothing when called.
pub fn law_of_calls()
    // A new region, after any events of its keeper and of the threads before it was made.
    ensures begins { (limit seats : ℕ) (events : List Event) (r : Region) → IsLawfulLimit limit → r.marked ≡ unused_text limit
        → r.chunks ≡ [] → All IsKeepers (writers events) → ThreadsMay (first_world limit seats) events
        → KnowsNoMore r.keeper.numbers (world_after (first_world limit seats) events).keeper
        → r.keeper.numbers.generation ≤ last_generation → HasLedTo limit seats events r }
    // Threads by themselves, or beside a refused call.
    ensures goes_on { (limit seats : ℕ) (before events : List Event) (old new : Region) → HasLedTo limit seats before old
        → new ≡ record old { made = new.made } → writers events ≡ []
        → ThreadsMay (world_after (first_world limit seats) before) events → HasLedTo limit seats (before ++ events) new }
    // A refused creation leaves such a region.
    ensures refused { (old new : Region) (v : MarkedChunk) (fault : CreateFault) → IsRefused old new v fault
        → new ≡ record old { made = new.made } }
    // The keeper by itself, provided it knows no more than the world's keeper: no text and no chunk changes.
    ensures keeper { (limit seats : ℕ) (before events : List Event) (old new : Region) → HasLedTo limit seats before old
        → new.marked ≡ old.marked → new.chunks ≡ old.chunks → All IsKeepers (writers events)
        → ThreadsMay (world_after (first_world limit seats) before) events
        → KnowsNoMore new.keeper.numbers (world_after (first_world limit seats) (before ++ events)).keeper
        → new.keeper.numbers.generation ≤ last_generation → HasLedTo limit seats (before ++ events) new }
    // A creation.
    ensures created { (limit seats : ℕ) (before events : List Event) (old new : Region) (v : MarkedChunk)
        → HasLedTo limit seats before old → IsRegion old.marked old.chunks → IsValid v → v.limit ≡ limit_of old.marked.bytes
        → IsCreated old new v → writers events ≡ create_events v
        → ThreadsMay (world_after (first_world limit seats) before) events → HasLedTo limit seats (before ++ events) new }
    // A patch.
    ensures patched { (limit seats : ℕ) (before events : List Event) (old new : Region) (at : ℕ) (bytes : List ℕ)
        (news : List Piece) → HasLedTo limit seats before old → IsRegion old.marked old.chunks → IsPatch old at bytes
        → AreBytesOf bytes news → IsPatched old new at bytes → writers events ≡ patch_events old.marked.bytes at news
        → ThreadsMay (world_after (first_world limit seats) before) events → HasLedTo limit seats (before ++ events) new }
    // A deletion.
    ensures deleted { (limit seats : ℕ) (before events : List Event) (old new : Region) (base stamp : ℕ)
        → HasLedTo limit seats before old → IsRegion old.marked old.chunks → (is : IsDeleted old new base stamp)
        → writers events ≡ delete_events old.marked.marks base is.chunk.length
        → ThreadsMay (world_after (first_world limit seats) before) events → HasLedTo limit seats (before ++ events) new }
    // A reclaim, provided the keeper then knows no more than the world's keeper.
    ensures reclaimed { (limit seats : ℕ) (before events : List Event) (old new : Region) (count : ℕ)
        → HasLedTo limit seats before old → IsRegion old.marked old.chunks → IsReclaimed old new count
        → writers events ≡ reclaim_events seats (least_number new.keeper.numbers) old.chunks
        → ThreadsMay (world_after (first_world limit seats) before) events
        → KnowsNoMore new.keeper.numbers (world_after (first_world limit seats) (before ++ events)).keeper
        → HasLedTo limit seats (before ++ events) new }
    // After every event each thread inside is in a safe state.
    ensures safe { (limit seats : ℕ) (events later : List Event) (r : Region) → HasLedTo limit seats (events ++ later) r
        → AllStandSafe (world_after (first_world limit seats) events) }
{}
