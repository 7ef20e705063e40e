//! A code region and its threads' seats as values without a lifetime, for hosts that hold them by handles, and the acts of
//! each change in the form that such hosts read.
//!
//! A [`RegionHandle`] owns everything that a region needs: its text, a share of its table of generations, and the passes not
//! given out yet. A [`SeatHandle`] is a seat with a share of the table. A [`VettedHandle`] has a vetted chunk that isn't in a
//! region yet. A host calls a `RegionHandle` under a lock of its own, one call at a time. A `SeatHandle` is called by its own
//! thread, without a lock.
//!
//! C holds each of them by a struct with one pointer to a box: [`NcRegion`], [`NcSeat`] and [`NcVetted`].
//!
//! An [`NcAct`] is an entry of the log by which `nc_region` changes a text. The calls of a `RegionHandle` write such a log into a
//! buffer that the host lends, by the writers of `nc_host_acts`.
//!
//! `region_handle`, `seat_handle` and `vetted_handle` are the three values. `region_calls` has the changes of a region, `run_calls`
//! their acts as runs, and `queries` what reads it. `seats` gives out seats, and `attending` checks in for those that haven't been
//! given out. `span` reads a region's bytes for the writers of acts. `region_pointer`, `seat_pointer` and `vetted_pointer`
//! are what C holds: `parts` has a box as its pointer, and makes the prover check that a value may go to another thread. `fault`
//! says why a call is refused.
#![tactic(auto)]

mod attending;
mod fault;
mod parts;
mod queries;
mod region_calls;
mod region_handle;
mod region_pointer;
mod run_calls;
mod seat_handle;
mod seat_pointer;
mod seats;
mod span;
mod vetted_handle;
mod vetted_pointer;

pub use fault::{LoadFault, NewFault, PatchFault, RetireFault, RunsFault, SeatFault};
pub use nc_host_acts::NcAct;
pub use region_handle::RegionHandle;
pub use region_pointer::NcRegion;
pub use seat_handle::SeatHandle;
pub use seat_pointer::NcSeat;
pub use vetted_handle::VettedHandle;
pub use vetted_pointer::NcVetted;
