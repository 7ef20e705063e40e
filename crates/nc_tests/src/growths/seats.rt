//! `Gens::new`, while it is refused an allocation.

use crate::growths::marks::{begin, end};
use crate::lower::rows::right;
use nc_gens::{Gens, GensFault};
use std::alloc::Global;
use std::test::Fail;

/// The number of passes of a new table with two seats.
fn passes(alloc: Global) -> Result<usize, GensFault> {
    let (_gens, _keeper, passes) = Gens::new(alloc, 2)?;
    Ok(passes.len())
}

/// Whether a table is made, also if memory is refused once.
fn is_made(alloc: Global) -> bool {
    match passes(alloc) {
        Err(GensFault::OutOfMemory) => passes(alloc) == Ok(2),
        first => first == Ok(2),
    }
}

/// `Gens::new` refuses for lack of memory, or makes the table.
#[test]
fn each_growth_refused(rt: HostRuntime) -> Result<(), Fail> {
    begin(&rt)?;
    let is_made = is_made(rt.alloc());
    end(&rt)?;
    right(is_made, 1)
}
