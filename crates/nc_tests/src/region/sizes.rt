//! Sizes that no region has.

use crate::lower::rows::right;
use crate::region::fixtures::one_seat;
use nc_region::{Region, RegionFault};
use nc_text::{Text, TextFault};
use std::alloc::Global;
use std::test::Fail;

/// What was made was refused for its size.
fn is_bad_size<T: Drop, U: Drop>(made: Result<T, (U, RegionFault)>) -> bool {
    matches!(made, Err((_, RegionFault::BadSize)))
}

/// A region of this size is refused.
fn has_no_region(alloc: Global, bundles: u32) -> bool {
    match one_seat(alloc) {
        Ok((gens, keeper, _pass)) => is_bad_size(Region::new(alloc, bundles, &gens, keeper)),
        Err(_) => false,
    }
}

/// A text of this size is refused.
fn has_no_text(alloc: Global, bundles: u32) -> bool {
    matches!(Text::new(alloc, bundles), Err(TextFault::BadSize))
}

#[test]
fn bad_sizes(rt: HostRuntime) -> Result<(), Fail> {
    for bundles in [0, 1, 2_097_153, u32::MAX] {
        let refused = has_no_region(rt.alloc(), bundles) && has_no_text(rt.alloc(), bundles);
        right(refused, bundles)?;
    }
    Ok(())
}
