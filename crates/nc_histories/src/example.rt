//! The main theorem isn't vacuous: histories with calls and threads exist.

ghost use Rattle.std.specs.Prelude.{◌≡◌, ℕ, List, [], ◌∷◌};
ghost use Rattle.nc_vet.specs.Chunk.{MarkedChunk, IsValid};
ghost use Rattle.nc_text.specs.Machine.{State, Joined};
ghost use Rattle.nc_gens.specs.Seen.{KeeperState, first_keeper};
ghost use Rattle.nc_region.specs.Region.{Region, IsCreated};
ghost use Rattle.nc_region.specs.Patch.{IsPatch};
ghost use Rattle.nc_histories.specs.Histories.{Turn};
ghost use Rattle.nc_histories.specs.Example.{first_region, start_of, PatchesAt, IsLife};

/// Each valid chunk has histories in which it is created, deleted and freed, with a thread in it.
///
/// The region has one seat, and its limit is the chunk's, which is lawful for every valid chunk. The thread enters the chunk
/// between two puts of its creation. After the creation it goes along any path of the machine that begins at the chunk's base,
/// and stays where this ends until the chunk is deleted. Then it exits and checks in, and the chunk's span is freed. In further
/// histories the chunk is also patched, with the thread in it, by any patch that is lawful in the region after the creation,
/// whichever region the creation left.
///
/// So the premise `IsHistory` of `law_of_histories` can be met by accepted calls of each kind. The function does nothing when
/// called.
pub fn law_of_example()
    ensures lives { (v : MarkedChunk) (keeper : KeeperState) → IsValid v → keeper ≡ first_keeper keeper.table 1
        → (creation : Turn) × ((path : List State) → Joined creation.region.marked.bytes (start_of v) path
        → IsLife v keeper creation [] path) }
    ensures patched { (v : MarkedChunk) (keeper : KeeperState) (created : Region) (at : ℕ) (bytes : List ℕ) → IsValid v
        → keeper ≡ first_keeper keeper.table 1 → IsCreated (first_region v.limit keeper) created v → IsPatch created at bytes
        → (creation patch : Turn) × (creation.region ≡ created) × PatchesAt created at bytes patch
        × ((path : List State) → Joined patch.region.marked.bytes (start_of v) path → IsLife v keeper creation (patch ∷ []) path) }
{}
