//! The theorem over a host's memory.

ghost use Rattle.std.specs.Prelude.{◌≡◌, ◌-◌, ◌⊎◌, ℕ, List, [], ◌∷◌, None, Some, replicate, slice_set};
ghost use Rattle.nc_text.specs.Machine.{IsConfined};
ghost use Rattle.nc_text.specs.MarkedText.{with_span};
ghost use Rattle.nc_text.specs.Places.{InRegion};
ghost use Rattle.nc_list.specs.declared.chunk.Chunk.{Chunk};
ghost use Rattle.nc_region.specs.schedules.Spans.{RetiredSpan};
ghost use Rattle.nc_region.specs.schedules.World.{IsViewOf, NoneIsWithin};
ghost use Rattle.nc_region.specs.schedules.Events.{Event};
ghost use Rattle.nc_histories.specs.Calls.{StandsFor};
ghost use Rattle.nc_histories.specs.Histories.{AllStand};
ghost use Rattle.nc_histories.specs.Whole.{AllFetchWhole};
ghost use Rattle.nc_host_law.specs.Hosts.{Host, IsHostStep, IsReached};

/// For every state that a host can reach from a new region, whatever calls it makes by the region's handle, accepted or refused, in any
/// order, and whatever its threads may do between any two stores:
///
/// - each thread inside is, in every view of the host's memory, where `law_of_histories` of `nc_histories` says;
/// - if it is in the region, the instruction that it fetches, in any view, stood there, with all its bytes, in one of the memory's
///   texts since the last serialization;
/// - when a retired span is freed next, no thread is in it except possibly at a bundle start;
/// - if nothing is pending and no deletion is under way, the memory stands for the handle's region: it has its bytes, and the world its
///   marks, its generation and its retired spans, and no bound that is lower than its keeper's;
/// - if nothing is pending and a deletion is under way, the memory has the region's bytes, but F4 in the chunk's span;
/// - a step changes no byte of the memory, or it makes the first pending event, a store, which writes its byte at its place and changes
///   no other;
/// - a store that is pending next is in the region;
/// - every view of the host's memory is confined, also between two stores;
/// - the text of the handle's region is confined.
///
/// A host (`specs/Hosts`) makes the pending events one by one and in order, and makes no call that may change the region before it has
/// made all of them. Until that call it may begin the last one's events again from the first, as often as it likes and wherever it stopped:
/// those of a creation, of a patch, or of a deletion before its stamp. The pending events are those that it reads in the buffer that it
/// lent (`ReportsPending` of `nc_host_handles`), or those that the library makes itself (`DoesItself`). There is a state after each single store,
/// so `stand` and `whole` are about every moment. The function does nothing when called.
///
/// Its assumptions are in `ThreadMay`, `IsHostStep`, `IsInOrder` and `IsReached`:
///
/// - At first the memory is all stops, the host has serialized since they were stored, and all threads are outside.
/// - A thread inside moves only as the machine does in some view, and by no masked jump or call to the limit or above.
/// - A thread enters only while it is outside, at bundle starts and while its seat hasn't left. Its pass checks in and leaves only while it
///   is outside.
/// - The events stand in the order in which the atomic steps on the words of the table of check-ins were taken. What each check-in, stamp,
///   look and meeting finds there is proved (`HasCheckedIn`, `HasRaised`, `HasLooked`, `HasMet` of `nc_gens`).
/// - The host makes the pending events in order and skips none, and its stores and serializations reach execution in that order. It may
///   begin a call's events again, but makes all of them without a gap before the next call that changes the region.
pub fn law_of_hosts()
    ensures stand { (bundles seats : ℕ) (host : Host) → IsReached bundles seats host → AllStand host.world }
    ensures whole { (bundles seats : ℕ) (host : Host) → IsReached bundles seats host → AllFetchWhole host.world }
    ensures freed { (bundles seats : ℕ) (host : Host) (span : RetiredSpan) (later : List Event) → IsReached bundles seats host
        → host.pending ≡ Event.Frees span ∷ later → NoneIsWithin host.world span }
    ensures memory { (bundles seats : ℕ) (host : Host) → IsReached bundles seats host → host.pending ≡ [] → host.handle.begun ≡ None
        → StandsFor host.world host.handle.region }
    ensures stopped { (bundles seats : ℕ) (host : Host) (c : Chunk) → IsReached bundles seats host → host.pending ≡ []
        → host.handle.begun ≡ Some c → host.world.marked ≡ record host.handle.region.marked {
          bytes = with_span host.handle.region.marked.bytes (c.base - 0x10000) (replicate c.length 0xF4);
        } }
    ensures stores { (seats : ℕ) (old new : Host) → IsHostStep seats old new → (new.world.marked.bytes ≡ old.world.marked.bytes)
        ⊎ ((at : ℕ) × (byte : ℕ) × (old.pending ≡ Event.Puts at byte ∷ new.pending)
        × (new.world.marked.bytes ≡ slice_set old.world.marked.bytes (at - 0x10000) byte)) }
    ensures lies { (bundles seats : ℕ) (host : Host) (at byte : ℕ) (later : List Event) → IsReached bundles seats host
        → host.pending ≡ Event.Puts at byte ∷ later → InRegion host.world.marked.bytes at }
    ensures views { (bundles seats : ℕ) (host : Host) (view : List ℕ) → IsReached bundles seats host → IsViewOf host.world view
        → IsConfined view }
    ensures confined { (bundles seats : ℕ) (host : Host) → IsReached bundles seats host → IsConfined host.handle.region.marked.bytes }
{}
