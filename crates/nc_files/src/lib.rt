//! The work of `nc_check`: files of code, judged by several workers, and a report on each.
//!
//! [`check_files`] goes through the files of a [`Request`] (`request`), one round after another, and prints the reports (`checking`).
//! `working` lets workers judge the files of a round, each into a report of its own, and puts the reports into the places of their
//! files. `judging` judges one file: `files` opens it and reads it to its end, `parts` finds the segments of code of an ELF file and
//! `labelling` the names in them, and `report` of `nc_report` writes the report. `outcome` has the exit status, and a [`Progress`]
//! shows how far the work is (`progress`).
#![tactic(auto)]

mod checking;
mod files;
mod judging;
mod labelling;
mod outcome;
mod parts;
mod progress;
mod request;
mod working;

pub use checking::check_files;
pub use outcome::Failure;
pub use progress::Progress;
pub use request::Request;
