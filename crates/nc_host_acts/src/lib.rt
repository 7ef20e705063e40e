//! Acts and serializations as a host reads them, and the writers of their lists into a buffer that it lends.
//!
//! An [`NcAct`] encodes one entry of a region's log as three numbers: its kind, its address, and its byte or its number of places
//! (`specs/Shown`). In a list of runs, one element stands for the puts in a bundle, and its third number has a bit for each place
//! (`specs/Runs`).
//!
//! A writer reads the chunk place by place, through [`ReadChunk`], wherever it is stored. [`write_creation`] and [`write_deletion`] write
//! one element for each act or serialization, [`write_creation_runs`] and [`write_deletion_runs`] runs, and [`write_patch`] the acts that
//! replace instructions by others of the same lengths. Each leaves the rest of the buffer as it was. None refuses or takes memory: its
//! caller lends enough room.
//!
//! `chunk` is the trait, `act` is a single element, `putting` writes creations and deletions, `runs` writes them as runs, and
//! `replacing` writes patches.
#![tactic(auto)]

mod act;
mod chunk;
mod putting;
mod replacing;
mod runs;

pub use act::NcAct;
pub use chunk::ReadChunk;
pub use putting::{write_creation, write_deletion};
pub use replacing::write_patch;
pub use runs::{write_creation_runs, write_deletion_runs};
