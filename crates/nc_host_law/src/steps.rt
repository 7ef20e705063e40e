//! From each state that a host can reach it goes on.

ghost use Rattle.std.specs.Prelude.{◌≡◌, ◌⊎◌, ℕ, false, List, Some, [], ◌∷◌, ◌++◌, All};
ghost use Rattle.nc_vet.specs.Chunk.{MarkedChunk, Piece, IsValid};
ghost use Rattle.nc_list.specs.declared.chunk.Chunk.{Chunk};
ghost use Rattle.nc_region.specs.schedules.Events.{Event, ThreadMay};
ghost use Rattle.nc_region.specs.Patch.{AreBytesOf};
ghost use Rattle.nc_histories.specs.Interleaving.{is_writers, IsNoLook};
ghost use Rattle.nc_histories.specs.Calls.{create_events, patch_events, delete_events};
ghost use Rattle.nc_host_acts.specs.declared.act.NcAct.{NcAct};
ghost use Rattle.nc_host_handles.specs.RegionHandle.{RegionHandleState, HasLoaded, HasPatched, HasBegunDeletion, HasEndedDeletion, HasReclaimed, meetings};
ghost use Rattle.nc_host_handles.specs.Pending.{IsHandleCall, ChangesPages, events_pending};
ghost use Rattle.nc_host_law.specs.Hosts.{Host, host_after, IsMadeByHost, IsReached};

/// From each state that a host can reach, these lead to another one:
///
/// - the first pending event, unless it is the last look at a seat's word, before which threads have to have taken the steps that the
///   keeper's trail has;
/// - if nothing is pending, each accepted call, after which its events are pending: a creation, a patch, each call of a deletion, and both
///   halves of a reclaim, in the first of which the keeper meets the seats that nobody was given;
/// - until the next call that changes the region, beginning the last one's events again (`again`), if each is one that the host makes: all
///   that it reads in a buffer are (`buffers`), and those of a creation or a patch (`changes`);
/// - while a deletion is under way, beginning its stores again (`restarts`, `anew`);
/// - each call that leaves the region as it is, and each refused call, also while events are pending;
/// - each event of a thread that it may do.
///
/// So an accepted creation, patch or deletion leads to a state in which its first event is pending, and that event to the next. The
/// function does nothing when called.
pub fn law_of_reaching()
    ensures makes { (bundles seats : ℕ) (host : Host) (event : Event) (later : List Event) → IsReached bundles seats host
        → host.pending ≡ event ∷ later → (IsNoLook event ⊎ (¬ All IsNoLook later))
        → IsReached bundles seats (record (host_after host event) { pending = later }) }
    ensures loads { (bundles seats : ℕ) (host : Host) (new : RegionHandleState) (v : MarkedChunk) → IsReached bundles seats host
        → host.pending ≡ [] → IsValid v → HasLoaded v host.handle new
        → IsReached bundles seats (record host { handle = new; pending = create_events v; announced = create_events v }) }
    ensures patches { (bundles seats : ℕ) (host : Host) (new : RegionHandleState) (at : ℕ) (bytes : List ℕ) (news : List Piece)
        → IsReached bundles seats host → host.pending ≡ [] → AreBytesOf bytes news → HasPatched at bytes host.handle new
        → IsReached bundles seats (record host {
          handle = new;
          pending = patch_events host.handle.region.marked.bytes at news;
          announced = patch_events host.handle.region.marked.bytes at news;
        }) }
    ensures begins { (bundles seats : ℕ) (host : Host) (new : RegionHandleState) (c : Chunk) (stops : List Event) → IsReached bundles seats host
        → host.pending ≡ [] → HasBegunDeletion host.handle new c.base c
        → stops ++ Event.Retires c.base c.length ∷ [] ≡ delete_events host.handle.region.marked.marks c.base c.length
        → IsReached bundles seats (record host { handle = new; pending = stops; announced = stops }) }
    ensures again { (bundles seats : ℕ) (host : Host) → IsReached bundles seats host → All IsMadeByHost host.announced
        → IsReached bundles seats (record host { pending = host.announced }) }
    ensures buffers { (v : MarkedChunk) (acts : List NcAct) → All IsMadeByHost (events_pending v acts) }
    ensures changes { (v : MarkedChunk) (text : List ℕ) (at : ℕ) (news : List Piece) → All IsMadeByHost (create_events v)
        × All IsMadeByHost (patch_events text at news) }
    ensures restarts { (bundles seats : ℕ) (host : Host) (c : Chunk) (stops : List Event) → IsReached bundles seats host
        → host.handle.begun ≡ Some c
        → stops ++ Event.Retires c.base c.length ∷ [] ≡ delete_events host.handle.region.marked.marks c.base c.length
        → IsReached bundles seats (record host { pending = stops }) }
    ensures anew { (bundles seats : ℕ) (host : Host) (old new : RegionHandleState) (c : Chunk) (stops : List Event)
        → IsReached bundles seats host → host.handle.begun ≡ Some c → IsHandleCall seats old new stops → new.begun ≡ Some c
        → new.region ≡ host.handle.region → IsReached bundles seats (record host { pending = stops }) }
    ensures ends { (bundles seats : ℕ) (host : Host) (new : RegionHandleState) (stamp : ℕ) (is : HasEndedDeletion host.handle new stamp)
        → IsReached bundles seats host → host.pending ≡ []
        → IsReached bundles seats (record host {
          handle = new;
          pending = Event.Retires is.chunk.base is.chunk.length ∷ [];
          announced = Event.Retires is.chunk.base is.chunk.length ∷ [];
        }) }
    ensures calls { (bundles seats : ℕ) (host : Host) (new : RegionHandleState) (own : List Event) → IsReached bundles seats host
        → host.pending ≡ [] → IsHandleCall seats host.handle new own
        → IsReached bundles seats (record host { handle = new; pending = own; announced = own }) }
    ensures reclaims { (bundles seats : ℕ) (host : Host) (new : RegionHandleState) (count : ℕ) (is : HasReclaimed host.handle new count)
        → IsReached bundles seats host → host.pending ≡ []
        → IsReached bundles seats (record host {
          handle = record host.handle { region = is.met };
          pending = meetings host.handle.passes;
          announced = meetings host.handle.passes;
        }) }
    ensures asks { (bundles seats : ℕ) (host : Host) (new : RegionHandleState) → IsReached bundles seats host → new.begun ≡ host.handle.begun
        → new.region ≡ record host.handle.region { made = new.region.made } → IsReached bundles seats (record host { handle = new }) }
    ensures fails { (bundles seats : ℕ) (host : Host) (new : RegionHandleState) → IsReached bundles seats host → ChangesPages host.handle new
        → IsReached bundles seats (record host { handle = new }) }
    ensures runs { (bundles seats : ℕ) (host : Host) (event : Event) → IsReached bundles seats host → is_writers event ≡ false
        → ThreadMay host.world event → IsReached bundles seats (host_after host event) }
{}
