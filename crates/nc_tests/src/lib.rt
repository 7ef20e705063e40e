//! Tests of behaviour that the built programs and the library for C don't show, of hostile input, failing devices and refused
//! memory, and of what stands after each act of a region. The other tests are below `tests`, such as the
//! rows of text in `tests/programs`, and Python in `tests/nc_host/library`.
//!
//! A crate with tests is proved once more for them, and its mutants wait for that proof. These tests are therefore in
//! a crate above the others, and use only the names that those export.
//!
//! Each folder has a file that says what its tests are about:
//!
//! - `region`: the `acts` that a region makes, also with marks from a list (`listed`), regions under a lock (`shared`, `only`, `check_in`),
//!   a list of a hundred thousand chunks (`long_list`), and refused `sizes`. `calls`, `steps`, `fixtures` and `recording` are what these
//!   tests are written with.
//! - `life`: a region's life (`act_by_act`), in which `watcher` lets `judge` walk over all marks after each act. `judging` tries the judge
//!   itself.
//! - `hostile`: a chunk that is `one_byte_off`, instructions (`fronts`) and scripts (`cuts`) cut short, and `devices` of which one call
//!   fails, at each place of a `script` (`one_fault`).
//! - `growths`: calls that are refused memory between two `marks`, in a file for each group: `chunks`, `jobs`, `regions`, `scripts`,
//!   `seats` and `texts`. `without` has those that take none.
//! - `lower`: cases that no program shows: `generations`, `workers`, `lines` and their `words`, replies that are held back (`holding`,
//!   `writes`), the words of `nc_replay` (`starting`), and `reports`. `devices` behave as real ones never do, and `rows` runs a table
//!   whose rows are right or wrong.
#![tactic(auto)]

#[cfg(test)]
mod growths;
#[cfg(test)]
mod hostile;
#[cfg(test)]
mod life;
#[cfg(test)]
mod lower;
#[cfg(test)]
mod region;
