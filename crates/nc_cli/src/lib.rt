//! Command lines as tables.
//!
//! A [`Program`] describes a command line, and `clap` builds the parser of its words from it ([`matches`]). [`command_words`] takes
//! the words from the system, and [`arguments`] are those after the program's own name. [`fault`] refuses words that the parser lets
//! pass. The proof of how a command line is built takes long, so it is in a crate of its own.
#![tactic(auto)]

mod parsing;
mod table;

pub use parsing::{arguments, command_words, fault, matches};
pub use table::{FLAG, OPTION, Program, Usage, Word};
