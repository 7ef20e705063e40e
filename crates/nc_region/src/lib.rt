//! A region of code: chunks created, patched, deleted and reclaimed while threads may be running in it.
//!
//! A host adds untrusted code to a region and removes it again without stopping the threads that run there. Two things must
//! never happen: a thread leaves the paths of vetted code, or a span gets other code while a thread may still be in it
//! anywhere but at a bundle start.
//!
//! A *chunk* is whole bundles of vetted code (`nc_vet`). While it is *live* threads may enter it. A deleted chunk is
//! *retired*: its bytes are stops, and it carries a *stamp*, the generation that was drawn after its last byte was put. Each
//! thread holds a pass of the table of generations (`nc_gens`) and checks in while it is outside the region; once every seat
//! has checked in since the stamp was drawn, or has left, the chunk can be *reclaimed*, and its span used again. A region
//! keeps its text closed (`nc_text`), and so confined, between any two bytes that it changes.
//!
//! [`Region::new`](RegionOf::new) makes a region, [`create`](RegionOf::create) adds a vetted chunk,
//! [`modify`](RegionOf::modify) replaces instructions of a live one with others of the same lengths,
//! [`delete`](RegionOf::delete) retires one, [`reclaim`](RegionOf::reclaim) frees the chunks that are due, and
//! [`walk`](RegionOf::walk) shows where a path goes. [`Shared`] is a region behind a lock; check-in doesn't take the lock.
//! [`RegionOf`] is a region over any [`Acts`]. [`PlainOf`] makes them in a text of its own, and [`Plain`] is one with a borrowed
//! table of generations. A [`Recorder`] records each act, and a host may have acts of its own (`nc_embed`). [`SharedOf`] is a
//! `RegionOf` behind a lock.
//!
//! The contract of a single call can't express that all this is safe while threads run: a thread may be anywhere between any
//! two puts. `specs/schedules` defines a *world* (`World`) for this. It holds a text with its marks, the retired spans with
//! their stamps, the keeper of the generations, and for each seat the state of its thread and the numbers of its pass. It
//! also holds the bytes as they were before each put since the last serialization, because a processor may still execute them. A
//! thread reads a *view* (`Views`), which has at each place one of the bytes that were there since that serialization, in any
//! mixture. An *event* (`Events`) is one step of one thread, one byte put, one serialization, or one atomic step on the table of
//! generations. `IsAllowed` says when an event may happen; `after` is the world that it leaves, by the same definitions that
//! the contracts of `nc_text` and `nc_gens` cite for these changes. [`law_of_schedules`] says that no list of allowed events,
//! however the threads and the writer are interleaved, brings a thread to a state that isn't safe. When a span is freed, no
//! thread is in it except possibly at a bundle start. Bundle starts may be entered and jumped to at any time; a
//! thread that does so goes no further than the stop there.
//!
//! ```text
//! let (gens, keeper, mut passes) = Gens::new(alloc, 1)?;
//! let mut region = Region::new(alloc, 4, &gens, keeper)?;
//! region.create(vet(0x1_0000, region.limit(), code)?)?;
//! let stamp = region.delete(0x1_0000)?;   // 1
//! region.reclaim();                       // 0: the seat hasn't checked in
//! gens.check_in(&mut passes[0]);
//! region.reclaim();                       // 1
//! ```
//!
//! The order of puts and the use of generations follow Ansel et al. 2011, "Language-independent sandboxing of just-in-time
//! compilation and self-modifying code".
//!
//! `region` is [`RegionOf`]. Each change has a file: `create`, `patch` with `patch/judge`, which decides, and `patch/put`, which acts,
//! `delete` and `reclaim`. `listing` searches the list of chunks. `walk` walks, and `trace` is its result. `shared` is [`SharedOf`],
//! over the lock of `lock` and `lock/ruled`, which know from which region the present one was reached. `law` has the laws, and `fault`
//! the refusals.
#![tactic(auto)]

mod create;
mod delete;
mod fault;
mod law;
mod listing;
mod lock;
mod patch;
mod reclaim;
mod region;
mod shared;
mod trace;
mod walk;

pub use fault::{CreateFault, DeleteFault, ModifyFault, RegionFault, WalkFault};
pub use law::{law_of_chunks, law_of_logs, law_of_progress, law_of_schedules};
pub use nc_acts::{Act, Acts, Entry, GensRef, Log, Note, Plain, PlainOf, Recorder};
/// In a region a chunk's span is whole bundles. The code of a live chunk is in the text. The bytes of a retired one are stops. Its
/// span waits for threads that may still be between its bundle starts. Its stamp is the generation with which it was retired.
pub use nc_list::{Chunk, ChunkState};
pub use region::{Region, RegionOf};
pub use shared::{Shared, SharedOf};
pub use trace::{End, Trace};
