//! The command lines of `nc_replay` and `nc_check`, the requests that their words make, and the work of `nc_replay`.
//!
//! [`ask_replay`] and [`ask_check`] parse the words of the two programs, which [`replay_words`] and [`check_words`] take from the
//! system. Each command line is a table of `nc_cli`. [`ask_check`] makes a request of `nc_files`, which judges the files.
//!
//! [`carry_out`] does what a [`ReplayRequest`] asks for, over any reader and writer: the calls of `nc_script` and `nc_lines` run a
//! script or vet lines. [`ask`] parses words that ask for this work alone, and [`start`] also carries them out. A [`Halt`] says why the
//! work isn't done, and has the exit status for that.
#![tactic(auto)]

mod carrying;
mod check;
mod halt;
mod options;
mod replay;

pub use carrying::{Ask, ReplayRequest, carry_out, start};
pub use check::{ask_check, check_words};
pub use halt::Halt;
pub use replay::{ask, ask_replay, replay_words};
