//! A pool of workers, and many chunks vetted by it on several threads.
//!
//! Vetting a chunk needs nothing but its bytes, so it is done before a region's lock is taken, and several chunks can be
//! vetted at once. A **job** is a chunk with its base and limit; a **worker** is a thread that takes the next job when it
//! has finished one; a **verdict** is the result of `nc_vet::vet` for a job. A **gate** is called before and after each
//! job, with the job's number; `Open` is the gate that does nothing.
//!
//! [`vet_all`] takes jobs and returns verdicts in the jobs' order, the same for any number of workers. Below it is a pool of workers for
//! work of any kind: [`for_places`] calls a closure with each number below a count, and what a worker gives for a number is its
//! **outcome**.
#![tactic(auto)]

mod fault;
mod gate;
mod job;
mod pool;
mod vetting;

pub use fault::WorkFault;
pub use gate::{Gate, Open};
pub use job::{Job, Verdict};
pub use pool::for_places;
pub use vetting::vet_all;
