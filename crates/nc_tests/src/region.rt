//! Tests of `nc_region`: the acts that a `Recorder` tells and logs, a hundred thousand chunks, and regions that threads share.

mod acts;
pub mod calls;
mod check_in;
pub mod fixtures;
mod listed;
mod long_list;
mod only;
pub mod recording;
mod shared;
mod sizes;
pub mod steps;
