//! Progress: where every seat has checked in since a stamp or has left, a look says so.

ghost use Rattle.std.specs.Prelude.{ℕ, ◌<◌, ◌≤◌, ◌⊎◌, List, Contains, length};
ghost use Rattle.nc_gens.specs.declared.view.WordStep.{WordStep};
ghost use Rattle.nc_gens.specs.Rule.{last_generation};
ghost use Rattle.nc_gens.specs.Progress.{HasCheckedInSince, HavePassed, IsBeforeLook};
ghost use Rattle.nc_gens.specs.Seen.{HasLooked, KeeperState, least_number};

/// If each seat has checked in since a stamp, or has left, at some moment before the first load of a look, then the number that the
/// look returns is at least the stamp. So a span retired with that stamp can be reclaimed then.
///
/// The moment is a part of the trail that the keeper recalls after the look, in which other threads' steps stand where they happened. The
/// stamp is at most the generation, as each that was drawn is. The function does nothing when called.
///
/// Not promised: that any seat ever checks in or leaves.
pub fn law_of_progress()
    // What it is for a seat to have passed, by the steps of its pass.
    ensures seats { (old new : KeeperState) (stamp : ℕ) (known : List WordStep) → HasLooked old new → stamp ≤ last_generation
        → IsBeforeLook (length new.numbers.bounds) known new.trail
        → ((k : ℕ) → k < length new.numbers.bounds → HasCheckedInSince (length new.numbers.bounds) stamp known k
        ⊎ Contains known (WordStep.StoredLeft k)) → HavePassed (length new.numbers.bounds) stamp known }
    // The trail that the keeper recalled when the look began is such a moment.
    ensures before { (old new : KeeperState) → HasLooked old new
        → IsBeforeLook (length new.numbers.bounds) old.trail new.trail }
    ensures passed { (old new : KeeperState) (stamp : ℕ) (known : List WordStep) → HasLooked old new
        → stamp ≤ new.numbers.generation → IsBeforeLook (length new.numbers.bounds) known new.trail
        → HavePassed (length new.numbers.bounds) stamp known → stamp ≤ least_number new.numbers }
{}
