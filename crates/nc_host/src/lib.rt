//! Calls for a host in another language: on a region that it holds by a handle, and the verdicts on code that it lends.
//!
//! The library starts no thread, and keeps nothing between two calls except in handles. Each call may be made from any thread,
//! but those that take memory must not be made from a signal handler or a forked child. Each call accepts any arguments: a C
//! compiler checks no condition, so no call requires one. The header `nc_host.h` says what each call promises.
//!
//! By a handle:
//!
//! - [`nc_region_new`], [`nc_region_free`], [`nc_region_seat`]: a region, and a seat for each of its threads (`region_make`).
//! - [`nc_region_create`], [`nc_region_patch`] (`region_change`), [`nc_region_begin_delete`], [`nc_region_end_delete`] (`region_delete`):
//!   the region is changed, and the acts of the change are written, in their order, with the places where the host serializes.
//! - [`nc_vetted_new`], [`nc_vetted_free`], [`nc_region_load`]: a chunk that is vetted without a region, and created in one (`vetted`).
//! - [`nc_region_reclaim`] (`region_delete`), [`nc_seat_check_in`], [`nc_seat_leave`] (`seat`): when a deleted chunk's span may be used
//!   again.
//! - [`nc_region_creation_runs`], [`nc_region_deletion_runs`]: the same acts, with runs for the puts of a bundle (`region_runs`).
//! - [`nc_region_chunk`], [`nc_region_chunk_at`], [`nc_region_place`], [`nc_region_generation`] (`region_look`), [`nc_region_walk`]
//!   (`region_walk`): a region's contents and generation.
//!
//! [`nc_host_version`] returns the library's version (`version`).
//!
//! On lent code, without a region:
//!
//! - [`nc_host_decode`]: the instruction with which some bytes begin (`lent_decode`).
//! - [`nc_host_vet`] (`lent_vet`), [`nc_host_marks`] (`lent_marks`): the verdict on a chunk, and its marks.
//! - [`nc_host_image`]: the text of a region with a chunk, filled before anybody enters (`lent_image`).
//!
//! On a lent file:
//!
//! - [`nc_host_elf`]: the loaded segments of an ELF file, each judged (`lent_elf`).
//!
//! `lent_results` and `region_results` have the structs that calls return. `fault_numbers` has the header's numbers of faults, and
//! `numbers` chooses among them for each refusal by a handle. `vet_copy` is no call: it vets lent code, and makes the copy that a
//! creation or a handle keeps.
#![tactic(auto)]

mod fault_numbers;
mod lent_decode;
mod lent_elf;
mod lent_image;
mod lent_marks;
mod lent_results;
mod lent_vet;
mod numbers;
mod region_change;
mod region_delete;
mod region_look;
mod region_make;
mod region_results;
mod region_runs;
mod region_walk;
mod seat;
mod version;
mod vet_copy;
mod vetted;

pub use lent_decode::nc_host_decode;
pub use lent_elf::nc_host_elf;
pub use lent_image::nc_host_image;
pub use lent_marks::nc_host_marks;
pub use lent_results::{NcInstruction, NcSegments, NcVerdict};
pub use lent_vet::nc_host_vet;
pub use nc_elf::NcSegment;
pub use nc_host_handles::NcAct;
pub use region_change::{nc_region_create, nc_region_patch};
pub use region_delete::{nc_region_begin_delete, nc_region_end_delete, nc_region_reclaim};
pub use region_look::{nc_region_chunk, nc_region_chunk_at, nc_region_generation, nc_region_place};
pub use region_make::{nc_region_free, nc_region_new, nc_region_seat};
pub use region_results::{NcChange, NcChunk, NcCount, NcPlace, NcStamp, NcWalk};
pub use region_runs::{nc_region_creation_runs, nc_region_deletion_runs};
pub use region_walk::nc_region_walk;
pub use seat::{nc_seat_check_in, nc_seat_leave};
pub use version::nc_host_version;
pub use vetted::{nc_region_load, nc_vetted_free, nc_vetted_new};
