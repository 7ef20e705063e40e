//! A host in C, and the bytes that processors fetch from its memory.
//!
//! [`law_of_hosts`] is about every state that a host can reach (`specs/Hosts`). The host's threads run its own memory. By a handle it makes
//! calls one at a time, reads in a buffer which stores and serializations are pending, and makes these one by one. [`law_of_runs`] says
//! that runs are read as the same stores, and [`law_of_reaching`] that a host goes on by pending events and by calls, accepted or refused.
//! By [`law_of_turns`] it can take whatever turn a history of `nc_histories` could take.
//! The contracts of `nc_host` say that accepted calls are such calls (`ReportsPending` and `DoesItself` of `nc_host_handles`).
//!
//! ```text
//! law_of_hosts();   // does nothing; what it promises is its contract
//! law_of_runs();
//! law_of_reaching();
//! law_of_turns();
//! ```
#![tactic(auto)]

mod law;
mod runs;
mod steps;
mod turns;

pub use law::law_of_hosts;
pub use runs::law_of_runs;
pub use steps::law_of_reaching;
pub use turns::law_of_turns;
