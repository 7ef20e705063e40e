//! Verdicts as text, and bytes passed to a writer. Lines of chunks, scripts and reports on files all use this crate.
//!
//! [`push_fault`] adds a refusal with its line end, [`push_name`] a fault with its address; [`fault_name`] and [`place_of`]
//! give these two parts. [`write_out`] writes all of the given bytes; a [`PipeWriter`] reports whether its reader is gone.
//! [`push_detail`] adds a line of details without control bytes, and [`push_between`] the inside of a JSON string. [`Style`] says how
//! much is written about a file, and in which form.
//!
//! `verdict` has the words of refusals, `shown` lines without control bytes, and `strings` the insides of JSON strings. `writing` is
//! [`write_out`] and [`PipeWriter`], and `detail` is [`Style`].
#![tactic(auto)]

mod detail;
mod shown;
mod strings;
mod verdict;
mod writing;

pub use detail::{Detail, Format, Style};
pub use shown::push_detail;
pub use strings::push_between;
pub use verdict::{fault_name, place_of, push_address, push_byte, push_fault, push_name};
pub use writing::{PipeWriter, WriteFailed, write_out};
