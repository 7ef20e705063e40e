//! Reads lines and writes one reply line for each, and vets the chunks that lines name.
//!
//! [`reply_to_all`] reads lines of any length in pieces, and hands each line to a [`Responder`], which replies to it.
//! [`reply_gathered`] holds the replies back until more is to be read. [`vet_lines`] vets the chunks that lines name, several at a time.
//! [`words_of`], [`address_of`] and [`placed_of`] parse the words of a line; [`first_address_of`] and [`placed_at`] parse a text without a
//! list of its words.
//!
//! `stream` has the trait and reads the pieces, `lines` cuts them into lines, and `replies` holds replies back. `vetting` is
//! [`vet_lines`]: `batch` gathers the lines, and `verdicts` writes the verdicts as replies. `words` parses the words of a line, and the
//! bytes in them. `fault` says why a run ended early.
#![tactic(auto)]

mod batch;
mod fault;
mod lines;
mod replies;
mod stream;
mod verdicts;
mod vetting;
mod words;

pub use fault::ReplayFault;
pub use lines::LINE_LIMIT;
pub use stream::{Responder, reply_gathered, reply_to_all};
pub use vetting::vet_lines;
pub use words::{address_of, first_address_of, placed_at, placed_of, words_of};
