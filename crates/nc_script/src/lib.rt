//! Runs scripts on a code region: reads their lines, and writes one reply line for each.
//!
//! [`run`] runs a script over any reader and writer: it creates, patches, deletes and reclaims chunks in a code region, whose
//! threads check in and leave, walks through them and shows them. The calls of `nc_lines` read the lines and write the replies.
//! [`run_gathered`] writes replies together, and [`run_queries`] also takes `chunk` lines.
//!
//! `replay` has these calls. `session` replies to a line, by the calls of a region and those on its threads' seats (`seats`). `request`
//! parses the request that a line makes, `query` replies to those that change nothing, and `reply` writes the texts of replies.
#![tactic(auto)]

mod query;
mod replay;
mod reply;
mod request;
mod seats;
mod session;

pub use replay::{law_of_replies, run, run_gathered, run_queries};
