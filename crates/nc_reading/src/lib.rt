//! The reading of code that isn't a valid chunk: a class for each of its bytes, and the places that may have a fault.
//!
//! [`read_classes`] reads code from its first byte to its last, one instruction after another and past its faults, and gives the
//! [`Class`] of each byte. [`next_candidate`] passes over the places that have no fault by class and byte alone. Only a direct
//! transfer may have a fault that classes don't show, a bad target, which depends on the base and the limit too.
//!
//! A reading is a list of [`Step`]s, as `specs/Reading` defines. `steps` makes it, with the lengths of instructions that aren't
//! permitted from `lengths`, and `fast_path` reads bundles without a fault, four at a time. `candidates` tests 32 places at a time.
//!
//! ```
//! // A bundle with a return, which isn't permitted, and 31 nops.
//! let classes = read_classes(Global, &code)?;
//! assert!(classes[0] == Class::NotPermitted && classes[1] == Class::Entry);
//! assert!(next_candidate(&code, &classes, 1, &mut none_seen(&classes)) == 32);
//! ```
#![tactic(auto)]

mod candidates;
mod class;
mod fast_path;
mod lengths;
mod steps;

pub use candidates::{Seen, next_candidate, none_seen};
pub use class::Class;
pub use steps::{Found, Step, read_classes};
