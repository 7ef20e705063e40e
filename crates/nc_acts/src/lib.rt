//! The acts by which a region changes its text and uses its generations.
//!
//! A region (`nc_region`) is built on an [`Acts`]: it changes the text one [`Act`] at a time, and serializes between some of them. Each
//! act and each serialization is an [`Entry`] of a log. Only clauses read the log, which is a [`Log`] of no bytes.
//!
//! [`PlainOf`] makes the acts in a text of its own (`nc_text`), beside the keeper of a table of generations (`nc_gens`). [`Plain`] is
//! one with a borrowed table. A [`Recorder`] hands each act on to another `Acts`, and appends it to a list.
//!
//! The order of puts follows Ansel et al. 2011, "Language-independent sandboxing of just-in-time compilation and self-modifying
//! code".
#![tactic(auto)]

mod acts;
mod log;
mod plain;
mod recorder;

pub use acts::{Act, Acts, Entry};
pub use log::{Log, Note};
pub use plain::{GensRef, Plain, PlainOf};
pub use recorder::Recorder;
