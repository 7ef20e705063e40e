//! Progress: a reclaim frees what every seat has passed.

ghost use Rattle.std.specs.Prelude.{◌≡◌, ℕ, ◌≤◌, List, [], ◌∷◌, ◌++◌, All};
ghost use Rattle.nc_region.specs.schedules.World.{first_world};
ghost use Rattle.nc_region.specs.schedules.Events.{Event, world_after};
ghost use Rattle.nc_region.specs.Region.{Region};
ghost use Rattle.nc_region.specs.Deletion.{AreFreedUpTo};
ghost use Rattle.nc_histories.specs.Interleaving.{writers, IsNoLook};
ghost use Rattle.nc_histories.specs.Histories.{Turn, IsHistory, happened, region_at_end};
ghost use Rattle.nc_histories.specs.Progress.{AllHavePassed, IsReclaimTurn};

/// If every seat has checked in since a stamp, or has left, the next reclaim frees each chunk with a stamp of at most that one.
///
/// For every history whose last turn is a reclaim, and every stamp drawn so far: suppose that in the world at some moment before the
/// reclaim's first look, which may be amid the turn's events, the word of each seat is at least the stamp. The word is the generation
/// that the seat's last check-in took, or the greater "left". Then each retired chunk that is in the list after the reclaim has a
/// greater stamp, whatever the threads do in the meantime. The function does nothing when called.
///
/// Not promised: that a seat ever checks in or leaves, or anything about time.
pub fn law_of_progress()
    ensures { (limit seats : ℕ) (first made later : List Event) (r : Region) (turns : List Turn) (turn : Turn) (stamp : ℕ)
        → IsHistory limit seats first r (turns ++ turn ∷ []) → IsReclaimTurn seats (region_at_end r turns) turn
        → stamp ≤ turn.region.keeper.numbers.generation → turn.events ≡ made ++ later → All IsNoLook (writers made)
        → AllHavePassed (world_after (first_world limit seats) (happened first turns ++ made)) stamp
        → AreFreedUpTo stamp turn.region.chunks }
{}
