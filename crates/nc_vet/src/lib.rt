//! Vets chunks of untrusted x86-32 code by the rules of Native Client's inner sandbox.
//!
//! Untrusted code may run in a region only if it can't leave it: control must only ever reach instructions that were read
//! beforehand, and none of them may be a forbidden one. The lengths of x86 instructions vary, so a jump into the middle of
//! one would run instructions that nobody has read. Vetting examines one chunk of such code before it is put into the
//! region, and accepts it only if that can't happen.
//!
//! - A *chunk* is one or more bundles of 32 bytes from a base on, below the *guard*, which is the region's last bundle.
//! - A *pair* is a mask of a register (`and r, -32`) with the indirect jump or call on that register directly after it. The
//!   mask makes the register point to the start of a bundle.
//! - A chunk is *valid* if it is a list of permitted instructions, none crosses the end of a bundle, each indirect transfer is
//!   the second half of a pair, and each direct transfer goes to a permitted target. [`vet`] has the rules.
//! - The *marks* of a valid chunk say for each of its bytes whether control may be there.
//!
//! Which call to use: [`vet`] takes a chunk and returns a [`Vetted`], which is valid and stays so, or the chunk and its
//! [`VetFault`]. [`judge`] does the same in place, for callers that keep the bytes. `law_of_verdicts` does nothing; its
//! contract says that a chunk has one verdict, and that code splits into instructions in at most one way. `law_of_profiles`
//! does nothing either; its contract says that a chunk that was valid before instructions were added is still valid. [`run_one`]
//! and [`run_four`] run the automaton over bundles, for readers of code that isn't valid.
//!
//! ```
//! // One bundle of nops in a region that ends at 00010040.
//! let Ok(chunk) = vet(0x10000, 0x10040, nops) else { .. };
//! assert!(chunk.mark(1) == Mark::Plain);
//! // A return isn't permitted.
//! let Err((back, fault)) = vet(0x10000, 0x10040, nops_and_a_return) else { .. };
//! assert!(fault == VetFault::NotPermitted { at: 0x1001F });
//! ```
//!
//! `vetting` has the order of the rules, `vetted` and `fault` its two results, and `law` the laws. A chunk is read by bundles first:
//! `lanes` runs the automaton over eight of them in lock step, and `lane` over one, two or four. From the first bundle at whose end no
//! instruction ends, `reading` goes on instruction by instruction, and finds the fault. The marks are kept as bits where all bundles
//! were read (`vetted`). `targets` finds the first bad target: by the bits, if they are kept, it passes over bundles without one
//! (`transfers`), and in many bundles first lists their transfers (`lists`).
#![tactic(auto)]

mod fault;
mod lane;
mod lanes;
mod law;
mod lists;
mod reading;
mod targets;
mod transfers;
mod vetted;
mod vetting;

pub use fault::VetFault;
pub use lane::{States, run_four, run_one};
pub use law::{law_of_profiles, law_of_verdicts};
pub use nc_decode::{Bundle, Mark};
pub use vetted::{Marks, Vetted};
pub use vetting::{judge, vet};
