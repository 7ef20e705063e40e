//! The main theorem: properties of every history of a region.

ghost use Rattle.std.specs.Prelude.{◌≡◌, ℕ, [], ◌∷◌, ◌++◌, List};
ghost use Rattle.nc_text.specs.Machine.{IsConfined};
ghost use Rattle.nc_region.specs.schedules.Spans.{RetiredSpan};
ghost use Rattle.nc_region.specs.schedules.World.{World, first_world, NoneIsWithin};
ghost use Rattle.nc_region.specs.schedules.Events.{Event, world_after};
ghost use Rattle.nc_region.specs.Region.{Region};
ghost use Rattle.nc_histories.specs.Interleaving.{writers};
ghost use Rattle.nc_histories.specs.Calls.{StandsFor};
ghost use Rattle.nc_histories.specs.Histories.{IsRefusal, Turn, IsHistory, AllStand, happened, region_at_end};
ghost use Rattle.nc_histories.specs.Whole.{AllFetchWhole};

/// For every history of a region, whatever calls are made on it, accepted or refused, in any order and over any keeper, and
/// whatever its threads do between any two acts:
///
/// - after every event each thread inside is, in every view, at a permitted instruction that isn't barred and lies wholly
///   inside its bundle, or at a bundle start of the zone; it is at an indirect jump or call only with its register just masked;
/// - if it is in the region, the instruction that it fetches, in any view, stood there, with all its bytes, in one of the
///   texts since the last serialization;
/// - when a retired span is freed, no thread is in it except possibly at a bundle start;
/// - the world at the end stands for the region at the end: its bytes and marks are the region's, and its retired spans
///   those of the retired chunks; and the region's text is confined, so a thread that enters later is just as safe;
/// - a turn whose call was refused has no event of the writer, and whatever the threads do beside it, nothing of the world
///   changes but its seats. The region is the one before, except that a refused creation may have made pages.
///
/// A *view* has at each place one of the bytes that were there since the last serialization, in any mixture, so a thread may
/// fetch each byte of an instruction at a different moment. None of its steps shows whether it does, or fetches whole
/// instructions, each possibly late. A *history* (`specs/Histories`) is a list of calls, each of which does what its contract
/// says. A creation, a patch and a deletion before its stamp may be begun again. The function does nothing when called.
///
/// Its assumptions are in `ThreadsMay`, `IsTurn` and `IsHistory`: a thread enters only at bundle starts and while its seat
/// hasn't left, and its pass checks in and leaves only while it is outside; the events stand in the order in which the atomic steps on
/// the words of the table of check-ins were taken; and puts and serializations reach execution in the order in which the calls make
/// them. What each check-in, stamp, look and meeting finds in these words is proved (`HasCheckedIn`, `HasRaised`, `HasLooked`, `HasMet` of
/// `nc_gens`).
pub fn law_of_histories()
    ensures stand { (limit seats : ℕ) (first events later : List Event) (r : Region) (turns : List Turn)
        → IsHistory limit seats first r turns → happened first turns ≡ events ++ later
        → AllStand (world_after (first_world limit seats) events) }
    ensures whole { (limit seats : ℕ) (first events later : List Event) (r : Region) (turns : List Turn)
        → IsHistory limit seats first r turns → happened first turns ≡ events ++ later
        → AllFetchWhole (world_after (first_world limit seats) events) }
    ensures freed { (limit seats : ℕ) (first events later : List Event) (r : Region) (turns : List Turn) (span : RetiredSpan)
        → IsHistory limit seats first r turns → happened first turns ≡ events ++ Event.Frees span ∷ later
        → NoneIsWithin (world_after (first_world limit seats) events) span }
    ensures text { (limit seats : ℕ) (first : List Event) (r : Region) (turns : List Turn) → IsHistory limit seats first r turns
        → StandsFor (world_after (first_world limit seats) (happened first turns)) (region_at_end r turns) }
    ensures confined { (limit seats : ℕ) (first : List Event) (r : Region) (turns : List Turn) → IsHistory limit seats first r turns
        → IsConfined (region_at_end r turns).marked.bytes }
    ensures refused { (w : World) (old : Region) (turn : Turn) → IsRefusal old turn.region (writers turn.events)
        → (writers turn.events ≡ []) × (turn.region ≡ record old { made = turn.region.made })
        × (world_after w turn.events ≡ record w { seats = (world_after w turn.events).seats }) }
{}
