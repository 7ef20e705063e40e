//! The order in which the chunks of a load are taken.

use std::alloc::Global;

/// An order of the numbers below a count.
#[derive(Clone, Copy, Drop)]
pub enum Order {
    Ascending,
    Descending,
    Scattered,
    Random,
}

impl Order {
    /// The `i`th of the numbers below `count`, counted from 0. Of a random order, this is the number before the shuffle.
    fn pick(self, i: u32, count: u32) -> u32 {
        match self {
            Order::Ascending | Order::Random => i,
            Order::Descending => count.saturating_sub(i).saturating_sub(1),
            // Each number is picked once, since the factor is a prime that doesn't divide `count`.
            Order::Scattered => {
                let picked = u64::from(i).wrapping_mul(2_654_435_761) % u64::from(count.max(1));
                picked as u32
            }
        }
    }

    /// The numbers below `count` in this order, as many as there is memory for.
    pub fn numbers(self, alloc: Global, count: u32) -> Vec<u32> {
        let mut all = Vec::new(alloc);
        for i in 0..count {
            let _pushed = all.push(self.pick(i, count));
        }
        if matches!(self, Order::Random) {
            shuffle(&mut all);
        }
        all
    }
}

/// Puts the numbers into a pseudo-random order, which is the same for all lists of a length.
fn shuffle(all: &mut [u32]) {
    let mut drawn = 12345u64;
    for i in 0..all.len() {
        drawn = drawn
            .wrapping_mul(6_364_136_223_846_793_005)
            .wrapping_add(1_442_695_040_888_963_407);
        all.swap(i, (drawn >> 33) as usize % (i + 1));
    }
}
