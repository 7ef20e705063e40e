//! Chunks for a region that they fill.

use crate::order::Order;
use crate::ordinary::ordinary_code;
use nc_decode::{BUNDLE, START};
use nc_region::{Acts, RegionOf};
use nc_vet::{Vetted, vet};
use std::alloc::Global;

/// The number of chunks, the bundles of each, and the order of their creation.
#[derive(Clone, Copy, Drop)]
pub struct Load {
    pub count: u32,
    pub bundles: u32,
    pub order: Order,
}

impl Load {
    /// The base of a chunk, by its number.
    pub fn base(self, i: u32) -> u32 {
        START.saturating_add(self.bundles.saturating_mul(BUNDLE).saturating_mul(i))
    }

    /// The number of bundles of the region, including its guard.
    pub fn region(self) -> u32 {
        self.count
            .saturating_mul(self.bundles)
            .saturating_add(1)
            .max(2)
    }

    /// The limit of the region.
    fn limit(self) -> u32 {
        START.saturating_add(self.region().saturating_mul(BUNDLE))
    }

    /// The chunk of this number, vetted for its place, if there is memory for it.
    fn chunk(self, alloc: Global, i: u32) -> Option<Vetted> {
        match ordinary_code(alloc, self.bundles) {
            Ok(code) => vet(self.base(i), self.limit(), code).ok(),
            Err(_) => None,
        }
    }

    /// The chunks of these numbers, as many as there is memory for.
    pub fn chunks_of(self, alloc: Global, numbers: &[u32]) -> Vec<Vetted> {
        let mut all = Vec::new(alloc);
        for i in numbers {
            if let Some(vetted) = self.chunk(alloc, *i) {
                let _pushed = all.push(vetted);
            }
        }
        all
    }

    /// All chunks in the order in which they are created, as many as there is memory for.
    pub fn chunks(self, alloc: Global) -> Vec<Vetted> {
        self.chunks_of(alloc, &self.order.numbers(alloc, self.count))
    }
}

/// Creates the chunks, and counts those that were created.
pub fn create_all<A: Acts + Drop>(region: &mut RegionOf<A>, all: Vec<Vetted>) -> u32 {
    let mut done = 0u32;
    for vetted in all {
        if region.create(vetted).is_ok() {
            done = done.saturating_add(1);
        }
    }
    done
}

/// Deletes the chunks of these numbers, and counts those that were deleted.
pub fn delete_each<A: Acts + Drop>(region: &mut RegionOf<A>, load: Load, numbers: &[u32]) -> u32 {
    let mut done = 0u32;
    for i in numbers {
        if region.delete(load.base(*i)).is_ok() {
            done = done.saturating_add(1);
        }
    }
    done
}
