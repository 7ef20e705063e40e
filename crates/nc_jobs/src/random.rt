//! Pseudo-random numbers.

/// A sequence of pseudo-random numbers, by the linear congruential generator of Knuth's MMIX.
#[derive(Drop)]
pub struct Random {
    state: u64,
}

impl Random {
    /// The sequence of this seed.
    pub fn new(seed: u32) -> Random {
        Random {
            state: u64::from(seed).wrapping_mul(0x9E37_79B9_7F4A_7C15),
        }
    }

    /// The next number of 32 bits.
    pub fn word(&mut self) -> u32 {
        self.state = self
            .state
            .wrapping_mul(6_364_136_223_846_793_005)
            .wrapping_add(1_442_695_040_888_963_407);
        (self.state >> 32) as u32
    }

    /// The next number, which is below `count`, or 0 if `count` is 0.
    pub fn below(&mut self, count: u32) -> u32 {
        (self.word() >> 1) % count.max(1)
    }

    /// An index of a list of this length, or 0 if the list is empty.
    pub fn index(&mut self, len: usize) -> usize {
        self.below(u32::try_from(len).unwrap_or(u32::MAX)) as usize
    }
}
