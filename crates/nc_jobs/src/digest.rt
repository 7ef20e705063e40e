//! The digest of a job's results.

use std::io::{Result, Write};

/// A digest of the words and bytes that were added to it. As a writer it adds what is written.
#[derive(Drop)]
pub struct Digest {
    state: u64,
}

impl Digest {
    /// The digest of nothing.
    pub fn new() -> Digest {
        Digest {
            state: 0xCBF2_9CE4_8422_2325,
        }
    }

    /// Adds a word.
    pub fn add(&mut self, word: u64) {
        let mixed = (self.state ^ word).wrapping_mul(0x0000_0100_0000_01B3);
        self.state = mixed ^ (mixed >> 29);
    }

    /// Adds bytes.
    pub fn add_bytes(&mut self, bytes: &[u8]) {
        for byte in bytes {
            self.add(u64::from(*byte));
        }
    }

    /// The digest.
    pub fn value(&self) -> u64 {
        self.state
    }
}

impl Write for Digest {
    fn write(&mut self, buf: &[u8]) -> Result<usize> {
        self.add_bytes(buf);
        Ok(buf.len())
    }

    fn flush(&mut self) -> Result<()> {
        Ok(())
    }
}
