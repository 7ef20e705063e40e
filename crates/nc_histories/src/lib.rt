//! Properties of every history of a region.
//!
//! To judge what is proved about a region, read [`law_of_histories`] first, in `src/history`: whatever calls are made, and
//! whatever threads do between any two acts, each thread inside is where the headline says, and fetches an instruction that
//! stood there whole. `docs/THEOREM.md` walks through it.
//!
//! `law_of_schedules` of `nc_region` says that no list of allowed events brings a thread to a state that isn't safe; the
//! contracts of a region's calls say which acts each makes, and where it serializes. [`law_of_calls`] joins them. In a
//! world that stands for the region, the acts and serializations of a call are allowed events, with whatever the threads do between
//! any two of them. They leave a world that stands for the region after the call. Further clauses cover the keeper by itself,
//! before and after the region is made, and refused calls. Whatever is proved about every schedule therefore holds for every
//! history of a region.
//!
//! [`law_of_example`] says that histories exist: each valid chunk has one in which it is created, perhaps patched, deleted and
//! freed, with a thread in it.
//!
//! [`law_of_progress`] says that a reclaim frees each chunk whose stamp every seat has passed: it has checked in since, or has left.
//!
//! [`create`], [`patch`], [`delete`], [`reclaim`] and [`meet`] make these calls of a region, and their contracts say that the
//! logged entries are a call of a history. Nobody has to compare `IsCall`, the calls that the laws are about, with the
//! contracts of `nc_region`. A host calls the region itself: these functions do the same and promise nothing more.
//!
//! ```text
//! law_of_histories();   // does nothing; what it promises is its contract
//! law_of_calls();
//! law_of_example();
//! law_of_progress();
//! ```
//!
//! - `specs/Interleaving` separates the writer's events from those of the threads. `specs/Steps` says which steps on the table's
//!   words events are.
//! - `specs/Calls` turns the acts and serializations of each call into events.
//! - `specs/Views` has the properties of every view between two calls.
//! - `specs/Histories` defines a history. `specs/Whole` says that threads fetch whole instructions. `specs/Example` has a
//!   chunk's life in a history. `specs/Progress` has a reclaim in a history, and what it is that every seat has passed a stamp.
#![tactic(auto)]

mod calls;
mod example;
mod history;
mod law;
mod progress;

pub use calls::{create, delete, meet, patch, reclaim};
pub use example::law_of_example;
pub use history::law_of_histories;
pub use law::law_of_calls;
pub use progress::law_of_progress;
