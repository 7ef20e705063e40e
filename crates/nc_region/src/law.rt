//! Laws: a valid chunk is closed by itself, a log has the acts of its call, a reclaim frees what every seat has passed, and every
//! schedule is safe.

ghost use Rattle.std.specs.Prelude.{◌≡◌, ◌≢◌, ◌⊎◌, ℕ, length, List, [], ◌∷◌, ◌++◌};
ghost use Rattle.nc_decode.specs.Bundles.{IsLawfulLimit};
ghost use Rattle.nc_decode.specs.declared.instruction.Mark.{Mark};
ghost use Rattle.nc_text.specs.Places.{InRegion, byte_at};
ghost use Rattle.nc_vet.specs.Chunk.{MarkedChunk, Piece, IsValid};
ghost use Rattle.nc_acts.specs.Acts.{acts_of_create, acts_of_delete};
ghost use Rattle.nc_acts.specs.Chunks.{IsClosedChunk};
ghost use Rattle.nc_acts.specs.Log.{acts_in, log_of_create, log_of_delete};
ghost use Rattle.nc_region.specs.Patch.{acts_of_patch, log_of_patch};
ghost use Rattle.nc_gens.specs.Progress.{IsBeforeLook};
ghost use Rattle.nc_region.specs.Region.{Region};
ghost use Rattle.nc_region.specs.Deletion.{IsReclaimed, HasProgressed};
ghost use Rattle.nc_region.specs.schedules.Spans.{RetiredSpan};
ghost use Rattle.nc_region.specs.schedules.World.{World, first_world, IsViewOf, IsUsable, AllStandSafe, NoneIsWithin};
ghost use Rattle.nc_region.specs.schedules.Events.{Event, after, world_after, AreAllowed, AllMove, ChangesBytes};

/// A valid chunk is closed by itself: with its marks, in a text that is otherwise unused. The function does nothing when
/// called.
pub fn law_of_chunks()
    ensures { (v : MarkedChunk) → IsValid v → IsClosedChunk v.base v.limit v.code v.marks }
{}

/// The log of a creation, a deletion or a patch has the acts of that call in their order, with serializations among them. The
/// function does nothing when called.
pub fn law_of_logs()
    ensures create { (base : ℕ) (code : List ℕ) → acts_in (log_of_create base code) ≡ acts_of_create base code }
    ensures delete { (marks : List Mark) (base len : ℕ) → acts_in (log_of_delete marks base len) ≡ acts_of_delete marks base len }
    ensures patch { (text : List ℕ) (at : ℕ) (news : List Piece) → acts_in (log_of_patch text at news) ≡ acts_of_patch text at news }
{}

/// A reclaim frees each chunk for which, at some moment before its look, each seat had checked in since the stamp or had left. The
/// moment is a part of the trail that the keeper recalls (`IsBeforeLook` of `nc_gens`). The trail that the keeper recalled when
/// the call began is such a part. The function does nothing when called.
///
/// Not promised: that any seat ever checks in or leaves.
pub fn law_of_progress()
    ensures before { (old new : Region) (count : ℕ) → IsReclaimed old new count
        → IsBeforeLook (length new.keeper.numbers.bounds) old.keeper.trail new.keeper.trail }
    ensures freed { (old new : Region) (count : ℕ) → IsReclaimed old new count → HasProgressed new }
{}

/// The law holds for every lawful limit, every number of seats and every list of events, each of which is allowed where it
/// happens, however threads and writer are interleaved. After every event each thread inside is in a state that is safe in every
/// view. When a retired span is freed, no thread is in it except possibly at a bundle start. The function does nothing when called.
///
/// A view is a text that a thread may read: each byte as it was at any moment since the last serialization, in any mixture. A
/// safe state is at a bundle start below 00010000, or at a permitted instruction wholly inside its bundle. If that instruction
/// is an indirect transfer, its register has just been masked. There are at most as many threads as seats.
///
/// Each event also does no more than it is meant to: a freed span consists of whole bundles of the region and overlaps no
/// span that stays retired, so it may be used again; a thread that is inside moves only as the machine does in some view,
/// and enters only at a bundle start; and a byte changes only where one is put.
///
/// The current text is always a view, and right after a serialization the only one. A view remains one through every event but a
/// serialization, and each mixture of two views is a view. The law therefore covers a processor that fetches each instruction
/// whole from the current bytes, and one that reads each byte as it was at any moment since the last serialization.
///
/// Not promised: that a span is ever freed, or anything about time.
pub fn law_of_schedules()
    ensures safe { (limit seats : ℕ) (events later : List Event) → IsLawfulLimit limit
        → AreAllowed (first_world limit seats) (events ++ later) → AllStandSafe (world_after (first_world limit seats) events) }
    ensures freed { (limit seats : ℕ) (events later : List Event) (span : RetiredSpan) → IsLawfulLimit limit
        → AreAllowed (first_world limit seats) (events ++ Event.Frees span ∷ later)
        → NoneIsWithin (world_after (first_world limit seats) events) span }
    ensures usable { (limit seats : ℕ) (events later : List Event) (span : RetiredSpan) → IsLawfulLimit limit
        → AreAllowed (first_world limit seats) (events ++ Event.Frees span ∷ later)
        → IsUsable (world_after (first_world limit seats) (events ++ Event.Frees span ∷ [])) span }
    ensures moves { (limit seats : ℕ) (events later : List Event) (event : Event) → IsLawfulLimit limit
        → AreAllowed (first_world limit seats) (events ++ event ∷ later)
        → AllMove (world_after (first_world limit seats) events) (after (world_after (first_world limit seats) events) event) }
    ensures bytes { (limit seats : ℕ) (events later : List Event) (event : Event) → IsLawfulLimit limit
        → AreAllowed (first_world limit seats) (events ++ event ∷ later)
        → ChangesBytes (world_after (first_world limit seats) events).marked.bytes event
        (after (world_after (first_world limit seats) events) event).marked.bytes }
    ensures as_it_stands { (w : World) → IsViewOf w w.marked.bytes }
    ensures serialized { (w : World) (view : List ℕ) → IsViewOf (after w Event.Serializes) view → view ≡ w.marked.bytes }
    ensures lasts { (w : World) (event : Event) (view : List ℕ) → event ≢ Event.Serializes → IsViewOf w view
        → IsViewOf (after w event) view }
    ensures mixed { (w : World) (one other view : List ℕ) → IsViewOf w one → IsViewOf w other
        → length view ≡ length w.marked.bytes
        → ((at : ℕ) → InRegion w.marked.bytes at → (byte_at view at ≡ byte_at one at) ⊎ (byte_at view at ≡ byte_at other at))
        → IsViewOf w view }
{}
